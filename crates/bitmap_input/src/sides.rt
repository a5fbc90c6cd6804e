//! The sides of a page.
ghost use Rattle.std.specs.Prelude.{◌≤◌};
ghost use Rattle.pt_core.specs.declared.limits.TheConstants.{LONGEST_SIDE};

/// The sides of a page in pixels, each from 1 to `LONGEST_SIDE`.
#[derive(Clone, Copy)]
pub(crate) struct Sides {
    pub(crate) width: u32,
    pub(crate) height: u32,
    ghost wide: { (1 ≤ width) × (width ≤ LONGEST_SIDE) },
    ghost high: { (1 ≤ height) × (height ≤ LONGEST_SIDE) },
}
