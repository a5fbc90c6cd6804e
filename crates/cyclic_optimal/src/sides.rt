//! The possible segments of a path, counted on past its end, and what they count.
ghost use Rattle.std.specs.Prelude.{◌≡◌, ℕ, ◌+◌, ◌*◌, ◌<◌, ◌≤◌, ◌^◌, unsigned_abs, length, IfNone, IfOk, IfSome};
ghost use Rattle.pt_core.specs.ClosedWalk.{IsClosedWalk};
ghost use Rattle.pt_core.specs.OnPage.{AreOnPage};
ghost use Rattle.straight_paths.specs.Straight.{IsPossible};
ghost use Rattle.prefix_moments.specs.Sums.{spread_of};
ghost use Rattle.polygon_search.specs.Polygon.{penalty_of};
ghost use Rattle.cyclic_optimal.specs.Inner.Fronts.{IsInLap, IsLongest, past, worth_of};

use prefix_moments::{Growing, Moments};
use pt_core::{NoMemory, Point};
use std::alloc::Global;
use straight_paths::Reach;

/// The possible segments of a closed walk, and their penalties.
#[derive(Drop)]
pub(crate) struct WalkSegments<'a> {
    pub(crate) moments: &'a Moments<'a>,
    reach: Reach<'a>,
    pub(crate) size: usize,
    ghost some: { 1 ≤ length moments.now },
    ghost few: { length moments.now ≤ 2 ^ 31 },
    ghost on_page: { AreOnPage moments.now },
    ghost one_path: { reach ≡ moments.now },
    ghost points: { size ≡ length moments.now },
    ghost small: { (i j : ℕ) → IsPossible moments.now i j → unsigned_abs (spread_of moments.now i j) < 2 ^ 48 },
    ghost cheap: { (i j : ℕ) → IsPossible moments.now i j → penalty_of moments.now i j < 2 ^ 24 },
}

impl<'a> WalkSegments<'a> {
    /// Measures a closed walk on a page, by the sums that are made of it.
    pub(crate) fn of(
        alloc: Global,
        points: &'a [Point],
        moments: &'a Moments<'a>,
    ) -> Result<WalkSegments<'a>, NoMemory>
        requires closed { IsClosedWalk points.now }
        requires on_page { AreOnPage points.now }
        requires moments { moments.now ≡ points.now }
        ensures { IfOk result (λ sides. sides.moments.now ≡ points.now) }
    {
        let reach = Reach::of(alloc, points)?;
        Ok(WalkSegments {
            moments,
            reach,
            size: points.len(),
        })
    }

    /// Where the longest segment from point `i` leads, in the first lap or in the second.
    pub(crate) fn last(&self, i: usize) -> usize
        requires { i < 2 * length self.now.moments.now }
        ensures { IsLongest self.now.moments.now i result }
    {
        if i < self.size {
            i + self.reach.far(i as u32) as usize
        } else {
            i + self.reach.far((i - self.size) as u32) as usize
        }
    }

    /// The segment from point `i`, in the first lap or in the second, to point `j`.
    pub(crate) fn segment(&self, i: usize, j: usize) -> Growing<'a>
        requires start { i < 2 * length self.now.moments.now }
        requires possible { IsPossible self.now.moments.now i j }
        ensures moments { result.moments.now ≡ self.now.moments.now }
        ensures from { IsInLap (length self.now.moments.now) i result.from }
        ensures to { result.to + i ≡ j + result.from }
    {
        if i < self.size {
            Growing::between(self.moments, i as u32, j as u32)
        } else {
            let (from, to) = (i - self.size, j - self.size);
            Growing::between(self.moments, from as u32, to as u32)
        }
    }

    /// What this segment counts, which leads from point `i` to point `j`; or nothing, where its penalty alone reaches
    /// a limit.
    #[inline(always)]
    pub(crate) fn worth_below(
        &self,
        segment: &Growing,
        i: usize,
        j: usize,
        limit: u128,
    ) -> Option<u128>
        requires start { i < 2 * length self.now.moments.now }
        requires possible { IsPossible self.now.moments.now i j }
        requires moments { segment.now.moments.now ≡ self.now.moments.now }
        requires from { IsInLap (length self.now.moments.now) i segment.now.from }
        requires to { segment.now.to + i ≡ j + segment.now.from }
        ensures some { IfSome result (λ worth. worth ≡ worth_of self.now.moments.now i j) }
        ensures most { IfSome result (λ worth. worth < 2 ^ 89) }
        ensures none { IfNone result (limit ≤ worth_of self.now.moments.now i j) }
    {
        let Some(penalty) = self.penalty_below(segment, limit) else {
            return None;
        };
        Some(u128::from(penalty) * (1 << 32) + self.past_end(i, j) as u128)
    }

    /// How far past the path's end a segment leads that begins before it.
    fn past_end(&self, i: usize, j: usize) -> usize
        ensures { result ≡ past (length self.now.moments.now) i j }
    {
        if i < self.size {
            j.saturating_sub(self.size)
        } else {
            0
        }
    }

    /// A possible segment's penalty; or perhaps nothing, where what it counts reaches a limit.
    #[inline(always)]
    fn penalty_below(&self, segment: &Growing, limit: u128) -> Option<u64>
        requires moments { segment.now.moments.now ≡ self.now.moments.now }
        requires possible { IsPossible self.now.moments.now segment.now.from segment.now.to }
        ensures some { IfSome result (λ penalty. penalty ≡ penalty_of self.now.moments.now segment.now.from segment.now.to) }
        ensures most { IfSome result (λ penalty. penalty < 2 ^ 24) }
        ensures none { IfNone result (limit ≤ penalty_of self.now.moments.now segment.now.from segment.now.to * 2 ^ 32) }
    {
        let most = (limit / (1 << 32)).min((1 << 24) - 1) as u64 + 1;
        segment.penalty_below(most)
    }
}
