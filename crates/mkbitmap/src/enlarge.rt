//! The rows of the larger page.
ghost use Rattle.std.specs.Prelude.{◌≡◌, ℕ, ◌+◌, ◌-◌, ◌*◌, ◌/◌, ◌≤◌, ◌<◌, length, get_or, nat_le};
ghost use Rattle.mkbitmap.specs.Enlarged.{before_within, mix};
ghost use Rattle.mkbitmap.specs.Inner.Enlarged.{dark};
ghost use Rattle.mkbitmap.specs.Inner.Packing.{bit, byte_of};
ghost use Rattle.mkbitmap.specs.Packing.{padded};
ghost use Rattle.mkbitmap.specs.Inner.CentrePlace.{CanEnlarge, IsPlaceOf, IsWideEnough};
ghost use Rattle.mkbitmap.specs.declared.limits.TheConstants.{GREATEST_RELIEF};
ghost use Rattle.pt_core.specs.declared.limits.TheConstants.{LONGEST_SIDE};
ghost use Rattle.bit_image.specs.PbmText.{row_text};

/// Mixes the reliefs of two rows of the page into `mixed`, for a row of the larger page between them. The weight of
/// `lower` is `part` of `whole`. Column x of the page is entry x + 1 of `mixed`. The first and the last entry repeat
/// the first and the last column.
pub(crate) fn mix_row(upper: &[u32], lower: &[u32], part: u32, whole: u32, mixed: &mut [u32])
    requires some { 0 < length upper.now }
    requires same { length lower.now ≡ length upper.now }
    requires room { length mixed.old ≡ length upper.now + 2 }
    requires part { part < whole }
    requires whole { whole ≤ 16 }
    requires upper { (x : ℕ) → get_or upper.now x 0 ≤ GREATEST_RELIEF }
    requires lower { (x : ℕ) → get_or lower.now x 0 ≤ GREATEST_RELIEF }
    ensures same_room { length mixed.new ≡ length mixed.old }
    ensures value { (u : ℕ) → u < length mixed.old → get_or mixed.new u 0
        ≡ mix whole part (get_or upper.now (before_within (length upper.now) u) 0)
        (get_or lower.now (before_within (length upper.now) u) 0) }
{
    let width = upper.len();
    for u in 0..mixed.len() {
        let x = u.saturating_sub(1).min(width - 1);
        mixed[u] = (whole - part) * upper[x] + part * lower[x];
    }
}

/// Where the centre of a pixel of the larger page lies among the centres of the page's pixels, along a row or a column.
#[derive(Clone, Copy, Debug)]
pub(crate) struct CentrePlace {
    /// The first centre of the page after it, counted from 0. This is also the number of centres before it.
    pub(crate) after: u32,
    /// The distance from the previous centre of the page, in units of 1/(2 times) pixel of the page.
    pub(crate) part: u32,
}

impl CentrePlace {
    /// The place of a column or of a row of the larger page.
    pub(crate) fn of(times: u32, column: u32) -> CentrePlace
        requires times { CanEnlarge times }
        requires column { column ≤ LONGEST_SIDE }
        ensures { IsPlaceOf times column result }
    {
        let twice = 2 * column + 1 + times;
        CentrePlace {
            after: twice / (2 * times),
            part: twice % (2 * times),
        }
    }

    /// The place of the next column or row of the larger page.
    fn next(self, times: u32) -> CentrePlace
        requires times { CanEnlarge times }
        requires after { self.after ≤ 65536 }
        requires part { self.part < 2 * times }
        ensures { (X : ℕ) → IsPlaceOf times X self → IsPlaceOf times (X + 1) result }
    {
        if self.part + 2 < 2 * times {
            CentrePlace {
                after: self.after,
                part: self.part + 2,
            }
        } else {
            CentrePlace {
                after: self.after + 1,
                part: self.part + 2 - 2 * times,
            }
        }
    }
}

/// Whether the mixture of the two entries at `after` and `after + 1` is at most `limit`. The weight of the second one
/// is `part` of `whole`.
fn is_dark(mixed: &[u32], after: u32, part: u32, whole: u32, limit: u64) -> bool
    requires within { after + 1 < length mixed.now }
    requires part { part < whole }
    requires whole { whole ≤ 16 }
    ensures { result ≡ nat_le (mix whole part (get_or mixed.now after 0)
        (get_or mixed.now (after + 1) 0)) limit }
{
    let left = u64::from(whole - part) * u64::from(mixed[after as usize]);
    let right = u64::from(part) * u64::from(mixed[after as usize + 1]);
    left + right <= limit
}

/// The bit of the pixel in column x: 1 if it is black, else 0. The row has no pixels from `end` on.
fn pixel(mixed: &[u32], place: CentrePlace, times: u32, limit: u64, x: u32, end: u32) -> u32
    requires wide { IsWideEnough times end mixed.now }
    requires place { IsPlaceOf times x place }
    ensures value { result ≡ bit (padded end (dark mixed.now times limit) x) }
    ensures most { result ≤ 1 }
{
    if x < end && is_dark(mixed, place.after, place.part, 2 * times, limit) {
        1
    } else {
        0
    }
}

/// Eight pixels of a row of the larger page as a byte, from a column on. The row has no pixels from `end` on.
fn byte_at(mixed: &[u32], times: u32, limit: u64, column: u32, end: u32) -> u8
    requires wide { IsWideEnough times end mixed.now }
    requires column { column ≤ LONGEST_SIDE }
    ensures { result ≡ byte_of (padded end (dark mixed.now times limit)) column }
{
    let mut place = CentrePlace::of(times, column);
    let mut byte = 0;
    for x in column..column + 8 {
        byte = 2 * byte + pixel(mixed, place, times, limit, x, end);
        place = place.next(times);
    }
    byte as u8
}

/// Packs a row of the larger page into bytes. The row has no pixels from `end` on.
pub(crate) fn pack_row(mixed: &[u32], times: u32, limit: u64, end: u32, row: &mut [u8])
    requires wide { IsWideEnough times end mixed.now }
    requires end { end ≤ LONGEST_SIDE }
    requires room { length row.old ≡ (end + 7) / 8 }
    ensures { row.new ≡ row_text end (padded end (dark mixed.now times limit)) }
{
    for k in 0..row.len() {
        row[k] = byte_at(mixed, times, limit, 8 * k as u32, end);
    }
}
