//! Laws of the larger page.
ghost use Rattle.std.specs.Prelude.{◌≡◌, ℕ, ◌≤◌, ◌<◌, ◌+◌, ◌*◌, min, nat_le};
ghost use Rattle.mkbitmap.specs.Box.{Gray};
ghost use Rattle.mkbitmap.specs.Enlarged.{is_black, mixed_raised, dark_limit, need, after_of};

/// A pixel is black exactly if its mixture of raised reliefs, which is never negative, is within one limit for the
/// whole page.
pub fn black_is_within_a_limit()
    ensures { (page : Gray) (radius times level X Y : ℕ) → ((a b : ℕ) → page.sample a b ≤ page.maxval)
        → 1 ≤ page.width → 1 ≤ page.height → 1 ≤ times
        → is_black page radius times level X Y
        ≡ nat_le (mixed_raised page radius times X Y) (dark_limit page.maxval times level) }
{}

/// A row of the larger page is mixed from two rows of the page. It needs the page's rows up to the last one of the
/// boxes around the second of them.
pub fn needed_rows_are_those_of_two_boxes()
    ensures { (height radius times Y : ℕ) → 1 ≤ times → 1 ≤ height
        → need height radius times Y + 1 ≡ min height (after_of times Y + radius + 1) }
{}

/// A row of the larger page is mixed from rows that are no earlier than for the row above it, and none is beyond the
/// page's last row.
pub fn rows_are_mixed_in_order()
    ensures rises { (times X Y : ℕ) → 1 ≤ times → X ≤ Y → after_of times X ≤ after_of times Y }
    ensures ends { (height times Y : ℕ) → 1 ≤ times → Y < times * height
        → after_of times Y ≤ height }
{}

/// A row of the larger page needs at least the rows of the page that the row above it needs, and never more than there
/// are.
pub fn rows_need_more_and_more()
    ensures rises { (height radius times X Y : ℕ) → 1 ≤ times → 1 ≤ height → X ≤ Y
        → need height radius times X ≤ need height radius times Y }
    ensures ends { (height radius times Y : ℕ) → 1 ≤ times → 1 ≤ height
        → need height radius times Y < height }

    // The last row needs all rows of the page.
    ensures last { (height radius times Y : ℕ) → 1 ≤ times → 1 ≤ height
        → Y + 1 ≡ times * height → need height radius times Y + 1 ≡ height }
{}
