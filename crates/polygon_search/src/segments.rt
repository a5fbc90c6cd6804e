//! The segments that a polygon may have, as steps from one point of its path to another.
ghost use Rattle.std.specs.Prelude.{◌≡◌, ℕ, ◌+◌, ◌<◌, ◌≤◌, ◌^◌, List, length, slice_index, unsigned_abs, IfOk};
ghost use Rattle.pt_core.specs.ClosedWalk.{IsClosedWalk};
ghost use Rattle.pt_core.specs.OnPage.{AreOnPage};
ghost use Rattle.pt_core.specs.declared.limits.TheConstants.{MOST_STEPS};
ghost use Rattle.prefix_moments.specs.Sums.{spread_of};
ghost use Rattle.polygon_search.specs.Polygon.{penalty_of};
ghost use Rattle.polygon_search.specs.Inner.Lasts.{AreRising, IsLast, HasLasts, LeadsOn, IsUpToLast};

use least_walk::Steps;
use prefix_moments::Moments;
use pt_core::{NoMemory, Point};
use std::alloc::Global;
use straight_paths::{Memo, Reach};

/// The segments of a closed walk's polygons, and their penalties.
//
// Of a possible segment each shorter one from the same point is possible too, so one number for each point, where its
// longest segment leads, decides every step. What else was measured, 4 bytes a point, is given back before the search.
#[derive(Drop)]
pub struct Segments<'a> {
    pub moments: &'a Moments<'a>,
    /// The walk's points, beside the sums, so that a loop has them at hand.
    pub(crate) points: &'a [Point],
    /// For each point, where the longest segment from it leads.
    pub lasts: Vec<u32>,
    ghost same: { points.now ≡ moments.now },
    ghost some: { 1 ≤ length moments.now },
    ghost few: { length moments.now ≤ 2 ^ 31 },
    ghost on_page: { AreOnPage moments.now },
    ghost places: { length lasts.items ≡ length moments.now },
    ghost onwards: { (i : ℕ) → i < length moments.now
        → LeadsOn (length moments.now) i (slice_index lasts.items i) },
    ghost small: { (i j : ℕ) → i < length moments.now → IsUpToLast lasts.items i j
        → unsigned_abs (spread_of moments.now i j) < 2 ^ 48 },
    ghost cheap: { (i j : ℕ) → i < length moments.now → IsUpToLast lasts.items i j
        → penalty_of moments.now i j < 2 ^ 24 },
    ghost rising: { AreRising (length moments.now) lasts.items },
}

impl<'a> Segments<'a> {
    /// The segments of a closed walk on a page that is summed up, whose longest ones lead to these points.
    pub fn of(moments: &'a Moments<'a>, points: &'a [Point], lasts: Vec<u32>) -> Segments<'a>
        requires points { points.now ≡ moments.now }
        requires closed { IsClosedWalk moments.now }
        requires on_page { AreOnPage moments.now }
        requires lasts { HasLasts moments.now lasts.items }
        ensures points { result.moments.now ≡ moments.now }
        ensures lasts { HasLasts moments.now result.lasts.items }
    {
        Segments {
            moments,
            points,
            lasts,
        }
    }

    /// How many steps the longest of all segments has.
    pub(crate) fn most_steps(&self) -> u32
        ensures each { (i : ℕ) → i < length self.now.moments.now → slice_index self.now.lasts.items i ≤ i + result }
        ensures short { result ≤ MOST_STEPS }
    {
        let mut most = 0u32;
        for i in 0..self.lasts.len() as u32 {
            most = most.max(self.lasts[i as usize] - i);
        }
        most
    }
}

/// For each point of a walk, where the longest segment from it leads, by what was found of other walks.
//
// Both lists are one: how many steps the segments have is turned into where they lead.
pub fn lasts(alloc: Global, points: &[Point], memo: &mut Memo) -> Result<Vec<u32>, NoMemory>
    requires closed { IsClosedWalk points.now }
    requires on_page { AreOnPage points.now }
    ensures { IfOk result (λ lasts. HasLasts points.now lasts.items) }
{
    let reach = Reach::by(alloc, points, memo)?;
    let size = points.len() as u32;
    let mut lasts = reach.into_steps();
    for i in 0..size {
        lasts[i as usize] = size.min(i + lasts[i as usize]);
    }
    Ok(lasts)
}

impl Steps for Segments<'_> {
    ghost use Rattle.std.proofs.Common.{arith};
    ghost use Rattle.polygon_search.specs.Inner.OnePenalty.{penalty_most};

    ghost size_of = { λ s. length s.moments.now };

    ghost last_of = { λ s i. slice_index s.lasts.items i };

    ghost is_allowed = { λ s i j. IsUpToLast s.lasts.items i j };

    ghost cost_of = { λ s i j. penalty_of s.moments.now i j };

    fn size(&self) -> u32 {
        self.lasts.len() as u32
    }

    fn last(&self, from: u32) -> u32 {
        self.lasts[from as usize]
    }

    fn allowed(&self, from: u32, to: u32) -> bool {
        to <= self.lasts[from as usize]
    }

    fn cost(&self, from: u32, to: u32) -> u64 {
        self.moments.penalty(from, to)
    }

    ghost least_size = { λ s. s.some };

    ghost greatest_size = { λ s. s.few };

    ghost last_is_beyond = { λ s i below. (s.onwards i below).beyond };

    ghost last_is_within = { λ s i below. (s.onwards i below).within };

    ghost next_is_allowed = { λ s i below.
        (Prim.omega arith, Prim.omega (arith, (s.onwards i below).beyond)) };

    ghost allowed_goes_up = { λ s i j below allowed. allowed.0 };

    ghost allowed_ends_at_last = { λ s i j below allowed. allowed.1 };

    ghost greatest_cost = { λ s i j below allowed. penalty_most s.moments.now s.on_page i j };
}
