//! By what a path's copies are looked for.
use pt_core::Point;

/// So many points of a path, at most, are a part of its key.
//
// By eight of them, shapes that differ in a few steps had one key: on a page of printed dots 45 points of 100 were served,
// and 86 by 32.
const PARTS: usize = 32;

/// Where copies of a path are looked for, and by what they are told there from most other paths.
#[derive(Clone, Copy)]
pub struct Key {
    pub(crate) place: usize,
    pub(crate) mark: u32,
}

/// The key of a path for a list of so many places, a power of two. In a list of none it has no place.
pub(crate) fn key_of(points: &[Point], places: usize) -> Key {
    let number = number_of(points);
    Key {
        place: number as usize & places.wrapping_sub(1),
        mark: (number >> 32) as u32,
    }
}

/// A number that is the same for all copies of a path, and mostly another for other paths.
//
// It mixes how many points the path has, and where some of them lie from the first one. Nothing is proved of it: whether
// a path is a copy is seen by all of its points.
fn number_of(points: &[Point]) -> u64 {
    let mut number = points.len() as u64;
    let Some(first) = points.first() else {
        return number;
    };
    let step = points.len() / PARTS + 1;
    for part in 0..PARTS {
        let Some(point) = points.get(part * step) else {
            return number;
        };
        number = mixed(
            number,
            point.x.wrapping_sub(first.x),
            point.y.wrapping_sub(first.y),
        );
    }
    number
}

/// A number that an offset is mixed into.
fn mixed(number: u64, right: i32, above: i32) -> u64 {
    let offset = u64::from(right.cast_unsigned()) << 32 | u64::from(above.cast_unsigned());
    let product = (number ^ offset).wrapping_mul(0x9e37_79b9_7f4a_7c15);
    product ^ product >> 32
}
