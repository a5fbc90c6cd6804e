//! The filter. It goes along a page row by row, and holds no more rows than a box has.
ghost use Rattle.std.specs.Prelude.{◌≡◌, ℕ, ◌+◌, ◌*◌, ◌/◌, ◌≤◌, ◌<◌, length, get_or, min, nat_eq, nat_lt, [], IfOk, vec_len};
ghost use Rattle.pt_core.specs.declared.limits.TheConstants.{LONGEST_SIDE};
ghost use Rattle.mkbitmap.specs.Box.{Gray};
ghost use Rattle.mkbitmap.specs.Enlarged.{after_of, is_black, dark_limit};
ghost use Rattle.mkbitmap.specs.Packing.{padded};
ghost use Rattle.mkbitmap.specs.declared.limits.TheConstants.{GREATEST_LEVEL, GREATEST_RADIUS, GREATEST_TIMES};
ghost use Rattle.bit_image.specs.PbmText.{row_text};
ghost use Rattle.mkbitmap.specs.Filtering.{HasGone, Filtering};
ghost use Rattle.mkbitmap.specs.Follows.{HoldsRows, AreRaised, Follows, IsRow};
ghost use Rattle.mkbitmap.specs.Inner.Layout.{IsRowDue, StepsOn};

use crate::enlarge::{CentrePlace, mix_row, pack_row};
use crate::relief::raise_row;
use crate::sums::leave;
use pt_core::NoMemory;
use std::alloc::Global;
use std::marker::Model;

/// A row of samples, none brighter than white.
#[derive(Debug, Drop)]
struct Slot {
    samples: Vec<u16>,
}

impl Model for Slot {
    ghost use Rattle.std.specs.Prelude.{List, ℕ};

    ghost Value = { List ℕ };

    ghost view = { λ slot. slot.samples.items };
}

impl Slot {
    /// The samples of the row.
    fn samples(&self) -> &[u16]
        ensures { result.now ≡ self.now }
    {
        &self.samples
    }

    /// Stores the samples of a new row and adds them to the columns' sums. A sample that is brighter than white is
    /// lowered to white.
    fn keep(&mut self, columns: &mut [u32], row: &[u16], maxval: u16)
        requires whole { length row.now ≡ length columns.old }
        requires room { length self.old ≡ length columns.old }
        requires small { (x : ℕ) → get_or columns.old x 0 + maxval < 4294967296 }
        ensures length { length columns.new ≡ length columns.old }
        ensures same_room { length self.new ≡ length self.old }
        ensures kept { (x : ℕ) → x < length row.now
            → get_or self.new x 0 ≡ min (get_or row.now x 0) maxval }
        ensures sums { (x : ℕ) → x < length row.now
            → get_or columns.new x 0 ≡ get_or columns.old x 0 + min (get_or row.now x 0) maxval }
    {
        let kept: &mut [u16] = &mut self.samples;
        for x in 0..columns.len() {
            let sample = row[x].min(maxval);
            kept[x] = sample;
            columns[x] += sample as u32;
        }
    }
}

/// `count` slots for rows of this width.
fn blank_slots(alloc: Global, count: usize, width: usize) -> Result<Vec<Slot>, NoMemory>
    ensures count { IfOk result (λ slots. vec_len slots ≡ count) }
    ensures width { IfOk result (λ slots. (k : ℕ) → k < count
        → length (get_or slots.items k []) ≡ width) }
{
    let mut slots = Vec::with_capacity(alloc, count)?;
    for _made in 0..count {
        let samples = vec![in alloc; 0u16; width]?;
        slots.push(Slot { samples })?;
    }
    Ok(slots)
}

/// The greatest mixture at which a pixel is black, for a level in millionths of white. The mixture is a raised relief,
/// in 1/256 of a sample, times the square of `2 * times`.
pub fn limit(maxval: u16, times: u32, level: u32) -> u64
    requires times { times ≤ GREATEST_TIMES }
    requires level { level ≤ GREATEST_LEVEL }
    ensures { result ≡ dark_limit maxval times level }
{
    let squares = u64::from(maxval) * u64::from(times * times);
    (1024 * u64::from(level) + 512000000) * squares / 1000000
}

/// The state of the filter between two rows of a page.
#[derive(Debug, Drop)]
pub struct Filter {
    width: usize,
    height: u32,
    maxval: u16,
    radius: usize,
    times: u32,
    level: u32,
    // The greatest mixture of raised reliefs at which a pixel is black.
    limit: u64,
    // Row y of the page is in slot y modulo the number of slots.
    ring: Vec<Slot>,
    // The sum of each column's samples over the rows that are held.
    columns: Vec<u32>,
    // The raised reliefs of two rows of the page.
    upper: Vec<u32>,
    lower: Vec<u32>,
    // Buffers for the mixture of both rows, and for a row of the larger page.
    mixed: Vec<u32>,
    packed: Vec<u8>,
    taken: u32,
    pairs: u32,
}

impl Model for Filter {
    ghost use Rattle.mkbitmap.specs.Filtering.{Filtering};

    ghost Value = { Filtering };

    ghost use Rattle.mkbitmap.specs.Inner.Layout.{filtering_of, IsLaidOut};

    ghost view = { filtering_of };

    ghost invariant = { IsLaidOut };
}

impl Filter {
    /// A filter before the first row of a page with these sides. The result is `times` times larger, and it is black at
    /// samples up to this level, in millionths of white.
    pub fn new(
        alloc: Global,
        width: usize,
        height: u32,
        maxval: u16,
        radius: usize,
        times: u32,
        level: u32,
    ) -> Result<Filter, NoMemory>
        requires some_columns { 1 ≤ width }
        requires some_rows { 1 ≤ height }
        requires radius { radius ≤ GREATEST_RADIUS }
        requires some_times { 1 ≤ times }
        requires most_times { times ≤ GREATEST_TIMES }
        requires level { level ≤ GREATEST_LEVEL }
        requires most_columns { times * width ≤ LONGEST_SIDE }
        requires most_rows { times * height ≤ LONGEST_SIDE }
        ensures follows { IfOk result (λ f. (page : Gray) → page.width ≡ width
            → page.height ≡ height → page.maxval ≡ maxval
            → ((x y : ℕ) → page.sample x y ≤ maxval) → Follows page f) }
        ensures sides { IfOk result (λ f. (f.width ≡ width) × (f.height ≡ height)
            × (f.maxval ≡ maxval)) }
        ensures setup { IfOk result (λ f. (f.radius ≡ radius) × (f.times ≡ times)
            × (f.level ≡ level)) }
        ensures start { IfOk result (λ f. (f.taken ≡ 0) × (f.pairs ≡ 0)) }
    {
        let ring = blank_slots(alloc, 2 * radius + 1, width)?;
        let columns = vec![in alloc; 0u32; width]?;
        let upper = vec![in alloc; 0u32; width]?;
        let lower = vec![in alloc; 0u32; width]?;
        let mixed = vec![in alloc; 0u32; width + 2]?;
        let packed = vec![in alloc; 0u8; (times as usize * width + 7) / 8]?;
        Ok(Filter {
            width,
            height,
            maxval,
            radius,
            times,
            level,
            limit: limit(maxval, times, level),
            ring,
            columns,
            upper,
            lower,
            mixed,
            packed,
            taken: 0,
            pairs: 0,
        })
    }

    /// The number of rows of the larger page.
    pub fn rows(&self) -> u32
        ensures { result ≡ self.now.times * self.now.height }
    {
        self.times * self.height
    }

    /// Whether the filter needs another row of the page before its next step.
    pub fn wants_row(&self) -> bool
        ensures { result ≡ nat_lt self.now.taken
            (min self.now.height (self.now.pairs + self.now.radius + 1)) }
    {
        let end = self.pairs as usize + self.radius + 1;
        (self.taken as usize) < end.min(self.height as usize)
    }

    /// Takes the next row of the page.
    pub fn take(&mut self, row: &[u16])
        requires whole { length row.now ≡ self.old.width }
        requires wanted { self.old.taken
            < min self.old.height (self.old.pairs + self.old.radius + 1) }
        ensures follows { (page : Gray) → Follows page self.old → IsRow page self.old.taken row.now
            → Follows page self.new }
        ensures goes { HasGone 1 0 self.old self.new }
    {
        let slot = self.taken as usize % self.ring.len();
        self.ring[slot].keep(&mut self.columns, row, self.maxval);
        self.taken += 1;
    }

    /// Computes the raised reliefs of the next row into `lower`.
    fn raise(&mut self)
        requires { IsRowDue self.old }
        ensures lower { (page : Gray) → HoldsRows page self.old
            → HoldsRows page self.new × AreRaised page self.new self.new.lower self.old.pairs }
        ensures upper { self.new.upper ≡ self.old.upper }
        ensures goes { HasGone 0 0 self.old self.new }
    {
        let y = self.pairs as usize;
        let slot = y % self.ring.len();
        let rows = self.taken - y.saturating_sub(self.radius) as u32;
        raise_row(
            &self.columns,
            self.ring[slot].samples(),
            rows,
            self.radius,
            self.maxval as u32,
            &mut self.lower,
        );
    }

    /// Drops the first row that is held, if the next boxes don't reach up to it.
    fn let_go(&mut self)
        requires { IsRowDue self.old }
        ensures holds { (page : Gray) → HoldsRows page self.old → HoldsRows page self.new }
        ensures upper { self.new.upper ≡ self.old.upper }
        ensures lower { self.new.lower ≡ self.old.lower }
        ensures goes { HasGone 0 1 self.old self.new }
    {
        let y = self.pairs as usize;
        if y < self.radius {
            self.pairs += 1;
            return;
        }
        let slot = (y - self.radius) % self.ring.len();
        leave(&mut self.columns, self.ring[slot].samples());
        self.pairs += 1;
    }

    /// Copies the lower reliefs to the upper ones.
    fn copy_down(&mut self)
        ensures holds { (page : Gray) → HoldsRows page self.old → HoldsRows page self.new }
        ensures upper { self.new.upper ≡ self.old.lower }
        ensures lower { self.new.lower ≡ self.old.lower }
        ensures goes { HasGone 0 0 self.old self.new }
    {
        self.upper.copy_from_slice(&self.lower);
    }

    /// Computes the reliefs of the first row, as the upper and the lower ones.
    fn begin(&mut self)
        requires first { self.old.pairs ≡ 0 }
        requires due { IsRowDue self.old }
        ensures { StepsOn self.old self.new }
    {
        self.raise();
        self.copy_down();
        self.let_go();
    }

    /// Moves the lower reliefs up and computes the reliefs of the next row.
    fn go_on(&mut self)
        requires some { 1 ≤ self.old.pairs }
        requires due { IsRowDue self.old }
        ensures { StepsOn self.old self.new }
    {
        self.copy_down();
        self.raise();
        self.let_go();
    }

    /// Uses the reliefs of the last row as the upper and the lower ones.
    fn finish(&mut self)
        requires due { self.old.pairs ≡ self.old.height }
        ensures { StepsOn self.old self.new }
    {
        self.upper.copy_from_slice(&self.lower);
        self.pairs += 1;
    }

    /// Goes on by a row of the page: the lower reliefs become the upper ones.
    pub fn step(&mut self)
        requires due { self.old.pairs ≤ self.old.height }
        requires ready { self.old.taken
            ≡ min self.old.height (self.old.pairs + self.old.radius + 1) }
        ensures follows { (page : Gray) → Follows page self.old → Follows page self.new }
        ensures goes { HasGone 0 1 self.old self.new }
    {
        if self.pairs == 0 {
            self.begin();
        } else if self.pairs < self.height {
            self.go_on();
        } else {
            self.finish();
        }
    }

    /// Whether row y of the larger page lies between the two rows of the reliefs.
    pub fn is_ready(&self, y: u32) -> bool
        requires { y < self.now.times * self.now.height }
        ensures { result ≡ nat_eq self.now.pairs (after_of self.now.times y + 1) }
    {
        self.pairs == CentrePlace::of(self.times, y).after + 1
    }

    /// Computes row y of the larger page.
    pub fn enlarge(&mut self, y: u32)
        requires row { y < self.old.times * self.old.height }
        requires ready { self.old.pairs ≡ after_of self.old.times y + 1 }
        ensures row { (page : Gray) → Follows page self.old
            → self.new.packed ≡ row_text (self.old.times * self.old.width)
            (padded (self.old.times * self.old.width)
            (λ X. is_black page self.old.radius self.old.times self.old.level X y)) }
        ensures follows { (page : Gray) → Follows page self.old → Follows page self.new }
        ensures goes { HasGone 0 0 self.old self.new }
    {
        let place = CentrePlace::of(self.times, y);
        mix_row(
            &self.upper,
            &self.lower,
            place.part,
            2 * self.times,
            &mut self.mixed,
        );
        pack_row(
            &self.mixed,
            self.times,
            self.limit,
            self.times * self.width as u32,
            &mut self.packed,
        );
    }

    /// The row of the larger page that was computed last, packed.
    pub fn row(&self) -> &[u8]
        ensures { result.now ≡ self.now.packed }
    {
        &self.packed
    }
}
