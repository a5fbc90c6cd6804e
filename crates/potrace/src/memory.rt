//! Memory that is given back and used again.

use std::alloc::Global;

/// Up to how many bytes glibc is to keep a list's memory.
//
// Longer ones grow in place where the system has them, and would leave holes among the others: with 31 MiB pages of dots as DXF
// by 64 workers take a third more memory.
const KEPT: usize = 2 << 20;

/// Has glibc keep the memory of lists that are given back, for others to use.
//
// By default it asks the system for each list from 128 KiB on, and gives it back at once. The next list is then memory that
// is used for the first time, and a page's edges, sums and points are such lists, one behind the other. A list that is given
// back raises that limit to its own size (mallopt(3), M_MMAP_THRESHOLD). So this one is, and no byte of it is ever touched.
// Where it can't be had, or the C library is another one, lists are made as before.
pub(crate) fn keep_memory(alloc: Global) {
    let _ = Vec::<u8>::with_capacity(alloc, KEPT);
}
