//! Tables of files, with the results of the reader on each.
use crate::tests::answers::{tells, tells_failing};
use std::alloc::Global;
use std::process::Abort;
use std::test::Fail;

/// Checks the results on each file.
pub(super) fn check_files(
    rt: &impl Abort,
    alloc: Global,
    files: &[(&[u8], &str)],
) -> Result<(), Fail> {
    for (bytes, text) in files {
        let same = tells(alloc, bytes, text)?;
        assert!(rt; same, "{bytes:?}");
    }
    Ok(())
}

/// A file, the least and the greatest number of its bytes that are there, and the results.
pub(super) type Cut<'a> = (&'a [u8], usize, usize, &'a str);

/// Checks the results on each prefix of a file.
pub(super) fn check_cuts(rt: &impl Abort, alloc: Global, cuts: &[Cut]) -> Result<(), Fail> {
    for (bytes, first, last, text) in cuts {
        for n in *first..=*last {
            if let Some(part) = bytes.get(..n) {
                let same = tells(alloc, part, text)?;
                assert!(rt; same, "{n} bytes of {bytes:?}");
            }
        }
    }
    Ok(())
}

/// A file, the first and the last of the reads that fail in turn, and the results.
pub(super) type Failing<'a> = (&'a [u8], u64, u64, &'a str);

/// Checks the results if each of these reads fails in turn.
pub(super) fn check_failing(
    rt: &impl Abort,
    alloc: Global,
    failing: &[Failing],
) -> Result<(), Fail> {
    for (bytes, first, last, text) in failing {
        for k in *first..=*last {
            let same = tells_failing(alloc, bytes, k, text)?;
            assert!(rt; same, "read {k} of {bytes:?} fails");
        }
    }
    Ok(())
}
