//! Points as text, in units of 1/`unit` pixel.
ghost use Rattle.std.specs.Prelude.{◌≡◌, ◌+◌, ◌≤◌, ◌++◌, ◌-ℤ◌, ◌^◌, length, drop, unsigned_abs, OnOk, OnErr};
ghost use Rattle.pt_core.specs.Floor.{rounded};
ghost use Rattle.pt_core.specs.UnitText.{place_text, step_text};

use crate::fault::NoMemory;
use crate::floor::round_unit;
use crate::point::Point;
use crate::written::write_pair;

/// Appends a point's coordinates, rounded to units. If memory runs out, nothing is appended.
pub fn put_place(out: &mut Vec<u8>, unit: u32, at: Point) -> Result<(), NoMemory>
    requires some { 1 ≤ unit }
    requires most { unit ≤ 1000 }
    ensures appended { OnOk result (out.new.items ≡ out.old.items ++ place_text unit at) }
    ensures nothing { OnErr result (out.new.items ≡ out.old.items) }
{
    let mut text = [0u8; 48];
    let start = write_place(unit, at, &mut text, 48);
    out.extend_from_slice(&text[start..])?;
    Ok(())
}

/// Writes a point's coordinates, rounded to units, so that the text ends at `end` of the buffer. Returns the
/// index of its first byte.
fn write_place(unit: u32, at: Point, text: &mut [u8], end: usize) -> usize
    requires some { 1 ≤ unit }
    requires most { unit ≤ 1000 }
    requires room { 43 ≤ end }
    requires within { end ≤ length text.old }
    ensures before { result ≤ end }
    ensures written { drop result text.new ≡ place_text unit at ++ drop end text.old }
{
    write_pair(in_units(at.x, unit), in_units(at.y, unit), text, end)
}

/// Writes the step from `from` to `to`, each rounded to units, so that the text ends at `end` of the buffer.
/// Returns the index of its first byte.
#[inline(always)]
pub fn write_step(unit: u32, from: Point, to: Point, text: &mut [u8], end: usize) -> usize
    requires some { 1 ≤ unit }
    requires most { unit ≤ 1000 }
    requires room { 43 ≤ end }
    requires within { end ≤ length text.old }
    ensures start { end ≤ result + 43 }
    ensures before { result ≤ end }
    ensures written { drop result text.new ≡ step_text unit from to ++ drop end text.old }
{
    write_pair(
        difference(from.x, to.x, unit),
        difference(from.y, to.y, unit),
        text,
        end,
    )
}

/// The difference `to` - `from`, each rounded to units.
#[inline(always)]
fn difference(from: i32, to: i32, unit: u32) -> i64
    requires some { 1 ≤ unit }
    requires most { unit ≤ 1000 }
    ensures value { result ≡ rounded to unit -ℤ rounded from unit }
    ensures small { unsigned_abs result ≤ 2 ^ 41 }
{
    in_units(to, unit) - in_units(from, unit)
}

/// A coordinate in 1/1024 pixel, rounded to units.
#[inline(always)]
fn in_units(c: i32, unit: u32) -> i64
    requires some { 1 ≤ unit }
    requires most { unit ≤ 1000 }
    ensures value { result ≡ rounded c unit }
    ensures small { unsigned_abs result ≤ 2 ^ 40 }
{
    round_unit(i64::from(c), unit)
}
