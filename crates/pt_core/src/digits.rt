//! Appending numbers to texts.
ghost use Rattle.std.specs.Prelude.{◌≡◌, ◌++◌, OnOk, OnErr};
ghost use Rattle.pt_core.specs.FixedText.{fixed_text};

use crate::fault::NoMemory;
use crate::written::write_fixed;
use itoa::{Buffer, Integer};

/// Appends a whole number in decimal digits, with `-` before it if it is negative. If memory runs out, nothing
/// is appended.
pub fn put_number<I: Integer>(out: &mut Vec<u8>, number: I) -> Result<(), NoMemory>
    ensures appended { OnOk result (out.new.items ≡ out.old.items ++ I.text number) }
    ensures nothing { OnErr result (out.new.items ≡ out.old.items) }
{
    let mut digits = Buffer::new();
    out.extend_from_slice(digits.format(number).as_bytes())?;
    Ok(())
}

/// Appends a number of thousandths with three decimals: -500 as `-0.500`. If memory runs out, nothing is
/// appended.
pub fn put_fixed(out: &mut Vec<u8>, thousandths: i64) -> Result<(), NoMemory>
    ensures appended { OnOk result (out.new.items ≡ out.old.items ++ fixed_text thousandths) }
    ensures nothing { OnErr result (out.new.items ≡ out.old.items) }
{
    let mut text = [0u8; 32];
    let start = write_fixed(thousandths, &mut text, 32);
    out.extend_from_slice(&text[start..])?;
    Ok(())
}
