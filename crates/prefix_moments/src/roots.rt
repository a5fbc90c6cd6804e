//! Roots of means that were taken before.
ghost use Rattle.std.specs.Prelude.{◌≡◌, ◌+◌, ◌*◌, ◌/◌, ◌<◌, ◌≤◌, ◌^◌, true, IfSome, IfNone, ℕ};
ghost use Rattle.pt_core.specs.Root.{IsRoot};
ghost use Rattle.pt_core.specs.declared.limits.TheConstants.{MOST_STEPS};
ghost use Rattle.prefix_moments.specs.Inner.Kept.{IsMeanRoot};

use crate::start::mean_root;
use pt_core::NoMemory;
use std::alloc::Global;
use std::marker::Model;

/// The root of a mean.
#[derive(Clone, Copy)]
struct MeanRoot {
    /// The sum of some numbers.
    total: u64,
    /// How many they are.
    count: u32,
    /// The root of 65536 times their mean, rounded down.
    root: u32,
}

/// How many roots are kept.
const KEPT: usize = 1024;

/// The roots that were taken last for penalties, of whichever path.
//
// Short segments have few sums, and the same ones come again and again: of a page of text more than nine roots in ten
// are kept already.
#[derive(Drop)]
pub struct Roots {
    /// Each stands at the place of its sum and count. An empty list keeps nothing.
    kept: Vec<MeanRoot>,
}

impl Model for Roots {
    ghost use Rattle.std.specs.Prelude.{All};
    ghost use Rattle.prefix_moments.specs.Inner.Kept.{IsMeanRoot};

    ghost Value = { Unit };

    ghost view = { λ _. tt };

    ghost invariant = { λ roots. All IsMeanRoot roots.kept.items };
}

impl Roots {
    /// Nothing was taken yet. It takes 16 KiB.
    pub fn new(alloc: Global) -> Result<Roots, NoMemory> {
        let kept = vec![in alloc; no_root(); KEPT]?;
        Ok(Roots { kept })
    }

    /// It keeps nothing, as serves where few roots are taken.
    pub fn none(alloc: Global) -> Roots {
        Roots {
            kept: Vec::new(alloc),
        }
    }

    /// The root of 65536 times the mean of `count` numbers.
    #[inline(always)]
    pub(crate) fn root(&mut self, total: u64, count: u32) -> u64
        requires total { total < 2 ^ 48 }
        requires some { 0 < count }
        ensures { IsRoot (65536 * total / count) result }
    {
        // That is a segment along a row or a column, as more than a third are on a page of text.
        if total == 0 {
            return 0;
        }
        let at = place_of(total, count);
        if at >= self.kept.len() {
            return u64::from(MeanRoot::of(total, count).root);
        }
        let kept = self.kept[at];
        if is_of(kept, total, count) {
            return u64::from(kept.root);
        }
        let root = MeanRoot::of(total, count);
        self.kept[at] = root;
        u64::from(root.root)
    }
}

impl MeanRoot {
    /// The root of 65536 times the mean of `count` numbers.
    #[inline(always)]
    fn of(total: u64, count: u32) -> MeanRoot
        requires total { total < 2 ^ 48 }
        requires some { 0 < count }
        ensures root { IsMeanRoot result }
        ensures total { result.total ≡ total }
        ensures count { result.count ≡ count }
    {
        let root = mean_root(total, u64::from(count)) as u32;
        MeanRoot { total, count, root }
    }
}

/// The root of the mean of a zero.
fn no_root() -> MeanRoot
    ensures { IsMeanRoot result }
{
    MeanRoot::of(0, 1)
}

/// Whether this is the root of that mean.
fn is_of(kept: MeanRoot, total: u64, count: u32) -> bool
    ensures total { result ≡ true → kept.total ≡ total }
    ensures count { result ≡ true → kept.count ≡ count }
{
    kept.total == total && kept.count == count
}

/// The place of a sum of so many numbers among the roots.
//
// Any place does; products with long odd numbers keep those apart that differ little.
fn place_of(total: u64, count: u32) -> usize {
    let mixed = total
        .wrapping_mul(0x9e37_79b9_7f4a_7c15)
        .wrapping_add(u64::from(count).wrapping_mul(0xc2b2_ae3d_27d4_eb4f));
    (mixed >> 54) as usize
}
