//! One seat of a counter, and one worker.
ghost use Rattle.std.specs.Prelude.{◌≡◌, IfOk};

use crate::tests::workers_alone::{Width, pages};
use page_workers::{ClaimSeat, Claims, Done, work};
use pt_core::{NoGate, NoMemory};
use std::alloc::Global;
use std::test::Fail;

/// A counter with one seat.
fn with_one_seat(alloc: Global, total: u32) -> Result<(Claims, ClaimSeat), NoMemory>
    ensures counter { IfOk result (λ r. r.1.counter ≡ r.0.counter) }
    ensures total { IfOk result (λ r. r.0.counter.total ≡ total) }
{
    let (claims, mut seats) = Claims::new(alloc, total, 1)?;
    match seats.pop() {
        Some(seat) => Ok((claims, seat)),
        None => Err(NoMemory),
    }
}

/// Each number with the bytes of its text behind it.
fn shown(alloc: Global, done: &[Done]) -> Result<Vec<u8>, NoMemory> {
    let mut bytes = Vec::new(alloc);
    for one in done {
        bytes.push(one.page.to_le_bytes()[0])?;
        bytes.extend_from_slice(&one.text)?;
    }
    Ok(bytes)
}

#[test]
fn one_seat_draws_all_pages(rt: HostRuntime) -> Result<(), NoMemory> {
    let (claims, mut seat) = with_one_seat(rt.alloc(), 3)?;
    let first = [claims.claim(&mut seat), claims.claim(&mut seat)];
    let last = [
        claims.claim(&mut seat),
        claims.claim(&mut seat),
        claims.claim(&mut seat),
    ];
    assert_eq!(rt; (first, last), ([Some(0), Some(1)], [Some(2), None, None]));
    Ok(())
}

#[test]
fn a_seat_draws_no_page_where_there_is_none(rt: HostRuntime) -> Result<(), NoMemory> {
    let (claims, mut seat) = with_one_seat(rt.alloc(), 0)?;
    assert_eq!(rt; claims.claim(&mut seat), None);
    Ok(())
}

#[test]
fn one_worker_makes_all_texts(rt: HostRuntime) -> Result<(), Fail> {
    let alloc = rt.alloc();
    let (claims, mut seat) = with_one_seat(alloc, 3)?;
    let pages = pages(alloc, &[7, 8, 9])?;
    assert!(rt; pages.len() == 3);
    let done = work(alloc, &claims, &mut seat, &Width, &pages, &NoGate)?;
    assert_eq!(rt;
        shown(alloc, &done)?.as_slice(),
        [0, 7, 1, 8, 2, 9].as_slice()
    );
    Ok(())
}
