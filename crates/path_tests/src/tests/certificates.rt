//! Texts of certificates, and the verdicts after a byte or a number is changed.

use outline_check::label::Label;
use outline_check::labels::labels;
use outline_check::{Verdict, check_proofs};
use pt_base::is_closed_walk;
use pt_core::{NoMemory, Point, put_number};
use std::alloc::Global;
use std::test::Fail;

/// The start of a certificate: a page of one pixel with its path.
const ONE: &str = "proofs 1 1 1\npath 0,1 0,0 1,0 1,1\n";

/// The start of a certificate: a page of two pixels in a row with their path.
const TWO: &str = "proofs 2 1 1\npath 0,1 0,0 1,0 2,0 2,1 1,1\n";

/// The rest of both certificates.
const ONE_RIGHT: &str = "at 0 1 2 3\nlabels 4:0 3:0 2:0 1:0 0:0\n";

const TWO_RIGHT: &str = "at 0 2 4\nlabels 3:294 3:0 2:147 2:0 1:0 1:0 0:0\n";

const VERDICTS: &[(&str, &str, Verdict)] = &[
    (ONE, ONE_RIGHT, Verdict::Right(1)),
    (TWO, TWO_RIGHT, Verdict::Right(1)),
    (
        "proofs 32767 32767 1\npath 0,1 0,0 1,0 1,1\n",
        ONE_RIGHT,
        Verdict::Right(1),
    ),
    ("proofs 1 1 0\n", "", Verdict::Right(0)),
    // One label, vertex or point too many, one too few, or another one.
    (
        ONE,
        "at 0 1 2 3\nlabels 4:0 3:0 2:1 1:0 0:0\n",
        Verdict::Wrong(1),
    ),
    (
        ONE,
        "at 0 1 2 3\nlabels 4:0 3:0 2:0 1:0\n",
        Verdict::Wrong(1),
    ),
    (
        ONE,
        "at 0 1 2 3\nlabels 4:0 3:0 2:0 1:0 0:0 0:0\n",
        Verdict::Wrong(1),
    ),
    (ONE, "at 0\nlabels 4:0 3:0 2:0 1:0 0:0\n", Verdict::Wrong(1)),
    (
        ONE,
        "at 1 2 3\nlabels 4:0 3:0 2:0 1:0 0:0\n",
        Verdict::Wrong(1),
    ),
    (
        ONE,
        "at 0 1 2 3 4\nlabels 4:0 3:0 2:0 1:0 0:0\n",
        Verdict::Wrong(1),
    ),
    (
        TWO,
        "at 0 1 3 4\nlabels 3:294 3:0 2:147 2:0 1:0 1:0 0:0\n",
        Verdict::Wrong(1),
    ),
    // A polygon that is equally good but has a higher list, and labels of the lower one that aren't the least.
    (
        TWO,
        "at 0 3 5\nlabels 3:294 3:0 2:147 2:0 1:0 1:0 0:0\n",
        Verdict::Wrong(1),
    ),
    (
        TWO,
        "at 0 2 4\nlabels 3:294 3:294 2:147 2:0 1:0 1:0 0:0\n",
        Verdict::Wrong(1),
    ),
    (
        "proofs 1 1 1\npath 0,1 0,0 1,0\n",
        "at 0 1 2\nlabels 3:0 2:0 1:0 0:0\n",
        Verdict::Wrong(1),
    ),
    (
        "proofs 1 1 1\npath 0,1\n",
        "at 0\nlabels 0:0\n",
        Verdict::Wrong(1),
    ),
    // Two paths with the second one wrong, and three paths with the second and the third one wrong.
    (
        "proofs 1 1 2\n",
        "path 0,1 0,0 1,0 1,1\nat 0 1 2 3\nlabels 4:0 3:0 2:0 1:0 0:0\n\
         path 0,1 0,0 1,0 1,1\nat 0 1 2\nlabels 4:0 3:0 2:0 1:0 0:0\n",
        Verdict::Wrong(2),
    ),
    (
        "proofs 1 1 3\n",
        "path 0,1 0,0 1,0 1,1\nat 0 1 2 3\nlabels 4:0 3:0 2:0 1:0 0:0\n\
         path 0,1 0,0 1,0 1,1\nat 0 1 2\nlabels 4:0 3:0 2:0 1:0 0:0\n\
         path 0,1 0,0 1,0 1,1\nat 0 1 2\nlabels 4:0 3:0 2:0 1:0 0:0\n",
        Verdict::Wrong(2),
    ),
    // Texts that aren't certificates.
    ("", "", Verdict::BadProofs),
    ("proofs 1 1 0", "", Verdict::BadProofs),
    ("proofs 1 1 0\n", "\n", Verdict::BadProofs),
    (" proofs 1 1 0\n", "", Verdict::BadProofs),
    ("proofs  1 1 0\n", "", Verdict::BadProofs),
    ("proofs 01 1 0\n", "", Verdict::BadProofs),
    ("proofs 0 1 0\n", "", Verdict::BadProofs),
    ("proofs 1 32768 0\n", "", Verdict::BadProofs),
    ("proofs 1 1 4294967296\n", "", Verdict::BadProofs),
    (
        "proofs 1 1 2\npath 0,1 0,0 1,0 1,1\n",
        ONE_RIGHT,
        Verdict::BadProofs,
    ),
    (
        "proofs 1 1 0\npath 0,1 0,0 1,0 1,1\n",
        ONE_RIGHT,
        Verdict::BadProofs,
    ),
    (
        "proofs 1 1 1\npath 0,1 0,0 2,0 1,1\n",
        ONE_RIGHT,
        Verdict::BadProofs,
    ),
    (
        "proofs 1 1 1\npath 0,1 0,0 1,-0 1,1\n",
        ONE_RIGHT,
        Verdict::BadProofs,
    ),
    ("proofs 1 1 1\npath\n", ONE_RIGHT, Verdict::BadProofs),
    (ONE, "at\nlabels 4:0 3:0 2:0 1:0 0:0\n", Verdict::BadProofs),
    (ONE, "at 0 1 2 3\nlabels\n", Verdict::BadProofs),
    (
        ONE,
        "at 0 1 2 3 \nlabels 4:0 3:0 2:0 1:0 0:0\n",
        Verdict::BadProofs,
    ),
    (
        ONE,
        "at 0 1 2 3\nlabels 4:0 3:0 2:0 1:0 0:0",
        Verdict::BadProofs,
    ),
    (
        ONE,
        "at 0 1 2 3\nlabels 4:0 3:0 2:0 1:0 0\n",
        Verdict::BadProofs,
    ),
    (
        ONE,
        "at 0 1 2 3\nlabels 4:0 3:0 2:0 1:0 00:0\n",
        Verdict::BadProofs,
    ),
    (ONE, "at 0 1 2 4294967296\nlabels 0:0\n", Verdict::BadProofs),
    (
        ONE,
        "at 0 1 2 4294967295\nlabels 4294967295:18446744073709551615\n",
        Verdict::Wrong(1),
    ),
    (ONE, "at 0 1 2 3\nlabels 4294967296:0\n", Verdict::BadProofs),
    (
        ONE,
        "at 0 1 2 3\nlabels 4:0 3:0 2:0 1:0 0:18446744073709551616\n",
        Verdict::BadProofs,
    ),
];

#[test]
fn verdicts(rt: HostRuntime) -> Result<(), Fail> {
    for (row, (front, rest, verdict)) in VERDICTS.iter().enumerate() {
        let mut text = Vec::from_slice(rt.alloc(), front.as_bytes())?;
        text.extend_from_slice(rest.as_bytes())?;
        let found = check_proofs(rt.alloc(), &text)?;
        assert_eq!(rt; found, *verdict, "row {row}: {rest}");
    }
    Ok(())
}

/// The points of `TWO`, and the labels of each of them and of the end, as in `TWO_RIGHT`.
const TWO_POINTS: [Point; 6] = [
    Point { x: 0, y: 1 },
    Point { x: 0, y: 0 },
    Point { x: 1, y: 0 },
    Point { x: 2, y: 0 },
    Point { x: 2, y: 1 },
    Point { x: 1, y: 1 },
];

const TWO_LABELS: &[(u32, u128)] = &[(3, 294), (3, 0), (2, 147), (2, 0), (1, 0), (1, 0), (0, 0)];

#[test]
fn labels_of_two_pixels(rt: HostRuntime) -> Result<(), Fail> {
    let found = labels_of(rt.alloc(), &TWO_POINTS)?;
    assert_eq!(rt; found.len(), TWO_LABELS.len());
    for (i, (label, (count, cost))) in found.iter().zip(TWO_LABELS).enumerate() {
        assert_eq!(rt; (label.count, label.cost), (*count, *cost), "label {i}");
    }
    Ok(())
}

/// The right labels of a closed walk; none for other points.
fn labels_of(alloc: Global, points: &[Point]) -> Result<Vec<Label>, Fail> {
    if !is_closed_walk(points) {
        return Ok(Vec::new(alloc));
    }
    Ok(labels(alloc, points)?)
}

/// The certificate of two pixels in a row: its numbers, each with the text before it.
const NUMBERS: &[(&str, u64)] = &[
    ("proofs ", 2),
    (" ", 1),
    (" ", 1),
    ("\npath ", 0),
    (",", 1),
    (" ", 0),
    (",", 0),
    (" ", 1),
    (",", 0),
    (" ", 2),
    (",", 0),
    (" ", 2),
    (",", 1),
    (" ", 1),
    (",", 1),
    ("\nat ", 0),
    (" ", 2),
    (" ", 4),
    ("\nlabels ", 3),
    (":", 294),
    (" ", 3),
    (":", 0),
    (" ", 2),
    (":", 147),
    (" ", 2),
    (":", 0),
    (" ", 1),
    (":", 0),
    (" ", 1),
    (":", 0),
    (" ", 0),
    (":", 0),
];

/// The certificate with one number changed: one greater, one less, or twice as great and one more.
#[test]
fn each_number_changed(rt: HostRuntime) -> Result<(), Fail> {
    for (place, (_, number)) in NUMBERS.iter().enumerate() {
        for other in others(place, *number) {
            let text = text_with(rt.alloc(), place, other)?;
            let verdict = check_proofs(rt.alloc(), &text)?;
            assert!(rt;
                (verdict == Verdict::Right(1)) == (other == *number),
                "{place}: {other}"
            );
        }
    }
    Ok(())
}

/// Other numbers than this one. A page may be larger than its path needs, so its sides, which come first, only become
/// smaller.
fn others(place: usize, number: u64) -> [u64; 3] {
    let less = number.saturating_sub(1);
    if place < 2 {
        [less, less, less]
    } else {
        [
            less,
            number.wrapping_add(1),
            number.wrapping_mul(2).wrapping_add(1),
        ]
    }
}

/// The certificate with another number at this index.
fn text_with(alloc: Global, place: usize, other: u64) -> Result<Vec<u8>, NoMemory> {
    let mut text = Vec::new(alloc);
    for (k, (before, number)) in NUMBERS.iter().enumerate() {
        text.extend_from_slice(before.as_bytes())?;
        put_number(&mut text, if k == place { other } else { *number })?;
    }
    text.extend_from_slice(b"\n")?;
    Ok(text)
}
