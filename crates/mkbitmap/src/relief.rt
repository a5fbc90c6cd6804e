//! Reliefs: how far the samples of a row differ from the means of the boxes around them. A relief is the difference
//! plus half of white, in units of 1/256 of a sample. A raised relief has half of white added once more, so that it
//! isn't negative.
ghost use Rattle.std.specs.Prelude.{◌≡◌, ℕ, ◌+◌, ◌-◌, ◌*◌, ◌≤◌, ◌<◌, length, get_or, if◌then◌else◌, nat_eq};
ghost use Rattle.mkbitmap.specs.Box.{sum_between, box_from, box_end, box_count};
ghost use Rattle.mkbitmap.specs.Relief.{raised_by};
ghost use Rattle.mkbitmap.specs.declared.limits.TheConstants.{GREATEST_MAXVAL, GREATEST_RADIUS, GREATEST_SUM, LARGEST_BOX, LONGEST_BOX};

/// The raised relief of a sample. The box around it has this sum of samples and this number of pixels.
fn raised(sample: u32, sum: u32, area: u32, maxval: u32) -> u32
    requires some { 0 < area }
    requires area { area ≤ LARGEST_BOX }
    requires maxval { maxval ≤ GREATEST_MAXVAL }
    requires sample { sample ≤ maxval }
    requires sum { sum ≤ area * maxval }
    ensures value { result ≡ raised_by sample sum area maxval }
    ensures most { result ≤ 512 * maxval }
{
    let above = u64::from(area) * u64::from(sample + maxval) - u64::from(sum);
    (256 * above / u64::from(area)) as u32
}

/// The sum with the sum of this column added, if there is such a column.
fn with_column(columns: &[u32], at: usize, sum: u32) -> u32
    requires { sum + get_or columns.now at 0 < 4294967296 }
    ensures { result ≡ sum + get_or columns.now at 0 }
{
    if at < columns.len() {
        sum + columns[at]
    } else {
        sum
    }
}

/// The sum over the columns of a box around column x. `sum` is that of the box one column further left.
fn slid(columns: &[u32], x: usize, radius: usize, sum: u32) -> u32
    requires column { x < length columns.now }
    requires radius { radius ≤ GREATEST_RADIUS }
    requires columns { (a : ℕ) → get_or columns.now a 0 ≤ GREATEST_SUM }
    requires sum { sum
        ≡ sum_between (λ a. get_or columns.now a 0) (x - (radius + 1)) (x + radius) }
    ensures { result
        ≡ sum_between (λ a. get_or columns.now a 0) (x - radius) (x + radius + 1) }
{
    let grown = with_column(columns, x + radius, sum);
    if radius < x {
        grown - columns[x - radius - 1]
    } else {
        grown
    }
}

/// The sum over the columns before column `radius`, from which the sum of the first box is computed.
fn first_sum(columns: &[u32], radius: usize) -> u32
    requires radius { radius ≤ GREATEST_RADIUS }
    requires columns { (a : ℕ) → get_or columns.now a 0 ≤ GREATEST_SUM }
    ensures { result ≡ sum_between (λ a. get_or columns.now a 0) 0 radius }
{
    let mut sum = 0;
    for x in 0..radius {
        sum = with_column(columns, x, sum);
    }
    sum
}

/// The raised reliefs of a row's samples for boxes of one pixel, which are the samples themselves.
fn raise_plainly(samples: &[u16], maxval: u32, relief: &mut [u32])
    requires room { length relief.old ≡ length samples.now }
    requires maxval { maxval ≤ GREATEST_MAXVAL }
    ensures same_room { length relief.new ≡ length relief.old }
    ensures value { (x : ℕ) → x < length samples.now
        → get_or relief.new x 0 ≡ 256 * get_or samples.now x 0 + 128 * maxval }
{
    for x in 0..samples.len() {
        relief[x] = 256 * samples[x] as u32 + 128 * maxval;
    }
}

/// The raised reliefs of a row's samples, from the sums of the columns over the rows of the boxes.
pub(crate) fn raise_row(
    columns: &[u32],
    samples: &[u16],
    rows: u32,
    radius: usize,
    maxval: u32,
    relief: &mut [u32],
)
    requires whole { length samples.now ≡ length columns.now }
    requires room { length relief.old ≡ length columns.now }
    requires some { 0 < rows }
    requires rows { rows ≤ LONGEST_BOX }
    requires radius { radius ≤ GREATEST_RADIUS }
    requires maxval { maxval ≤ GREATEST_MAXVAL }
    requires samples { (x : ℕ) → get_or samples.now x 0 ≤ maxval }
    requires columns { (x : ℕ) → get_or columns.now x 0 ≤ rows * maxval }
    ensures same_room { length relief.new ≡ length relief.old }
    ensures value { (x : ℕ) → x < length columns.now → get_or relief.new x 0
        ≡ (if nat_eq radius 0 then 256 * get_or samples.now x 0 + 128 * maxval
        else raised_by (get_or samples.now x 0)
        (sum_between (λ a. get_or columns.now a 0) (box_from radius x)
        (box_end radius (length columns.now) x))
        (box_count radius (length columns.now) x * rows) maxval) }
{
    if radius == 0 {
        raise_plainly(samples, maxval, relief);
        return;
    }
    let width = columns.len();
    let mut sum = first_sum(columns, radius);
    for x in 0..width {
        sum = slid(columns, x, radius, sum);
        let across = (x + radius + 1).min(width) - x.saturating_sub(radius);
        relief[x] = raised(samples[x] as u32, sum, across as u32 * rows, maxval);
    }
}
