//! Gray pages that are read row by row.
ghost use Rattle.std.specs.Prelude.{◌≤◌};

use crate::tests::answers::{ended, file};
use bitmap_input::GrayReader;
use mem_outside::InCall;
use pt_core::Inputs;
use std::alloc::Global;
use std::test::Fail;

/// Whether the head and the rows of a file are this text, however many bytes a read returns.
fn gives(alloc: Global, bytes: &[u8], text: &str) -> Result<bool, Fail> {
    let whole = rows(alloc, bytes, 65536, &[])?;
    let single = rows(alloc, bytes, 1, &[])?;
    Ok(whole.as_str() == text && single.as_str() == text)
}

/// The head and the rows of a gray page, up to the last row or a fault.
fn rows(alloc: Global, bytes: &[u8], most: u32, fails: &[InCall]) -> Result<String, Fail>
    requires { 1 ≤ most }
{
    let mut inputs = file(alloc, bytes, most, fails)?;
    let mut reader = GrayReader::new(alloc)?;
    let mut text = String::new(alloc);
    if inputs.open("-").is_err() {
        return Ok(text);
    }
    let head = match reader.head(&mut inputs) {
        Ok(head) => head,
        Err(fault) => return ended(text, format!(in alloc; "{fault}")?.as_str()),
    };
    text.push_str(format!(in alloc; "{} {} {}", head.width, head.height, head.maxval)?.as_str())?;
    let mut row = vec![in alloc; 0u16; head.width as usize]?;
    for _y in 0..head.height {
        match reader.row(&mut inputs, &mut row) {
            Ok(()) => show(alloc, &row, &mut text)?,
            Err(fault) => return ended(text, format!(in alloc; "/{fault}")?.as_str()),
        }
    }
    Ok(text)
}

/// Appends the samples of a row.
fn show(alloc: Global, row: &[u16], text: &mut String) -> Result<(), Fail> {
    text.push('/')?;
    for sample in row {
        text.push_str(format!(in alloc; " {sample}")?.as_str())?;
    }
    Ok(())
}

/// A file, with its head and rows.
const PAGES: [(&[u8], &str); 13] = [
    (b"P2 2 1 1 0 1", "2 1 1/ 0 1"),
    (b"P5 2 2 255\n\x00\x01\x02\xff", "2 2 255/ 0 1/ 2 255"),
    (b" P5 2 1 256\n\x01\x00\x00\x01", "2 1 256/ 256 1"),
    // What follows the page isn't read.
    (b"P2 1 1 9 4 5 6", "1 1 9/ 4"),
    (b"P5 1 1 9\n\x04P5 1 1", "1 1 9/ 4"),
    // A sample greater than white stays as it is, and one above 65535 is returned as 65535.
    (b"P2 3 1 10 11 65536 100001", "3 1 10/ 11 65535 65535"),
    (b"P5 1 1 10\n\x0b", "1 1 10/ 11"),
    // The rows before the end of a truncated page are returned.
    (b"P2 1 3 9 1 2", "1 3 9/ 1/ 2/truncated"),
    (b"P5 2 2 9\n\x01\x02\x03", "2 2 9/ 1 2/truncated"),
    (b"P2 1 2 9 1 x", "1 2 9/ 1/bad raster"),
    // No other format is known here.
    (b"P4 8 1\n\xff", "unknown format"),
    (b"P6 1 1 9\n\x01\x02\x03", "unknown format"),
    (b"", "unknown format"),
];

#[test]
fn pages_row_by_row(rt: HostRuntime) -> Result<(), Fail> {
    for (bytes, text) in PAGES {
        let same = gives(rt.alloc(), bytes, text)?;
        assert!(rt; same, "{bytes:?}");
    }
    Ok(())
}

/// A page, the read that fails if each read returns one byte, and the rows before it.
const FAILING: [(&[u8], u64, &str); 4] = [
    (b"P5 1 2 9\n\x01\x02", 1, "read fault"),
    (b"P5 1 2 9\n\x01\x02", 10, "1 2 9/read fault"),
    (b"P5 1 2 9\n\x01\x02", 11, "1 2 9/ 1/read fault"),
    // If more digits could follow a last number, the reader looks for its end.
    (b"P2 1 1 9 1", 11, "1 1 9/read fault"),
];

#[test]
fn rows_before_a_read_fault(rt: HostRuntime) -> Result<(), Fail> {
    for (bytes, k, text) in FAILING {
        let told = rows(rt.alloc(), bytes, 1, &[InCall::Read(k)])?;
        assert!(rt; told.as_str() == text, "{bytes:?} at {k}");
    }
    Ok(())
}
