//! Texts of the greatest length that is accepted, and of one byte more.

use mem_outside::{MemOutputs, MemSink};
use point_fill_run::fill_run;
use pt_core::{DeviceFault, Inputs, OpenFault};
use std::alloc::Global;
use std::process::Abort;
use std::test::Fail;

/// Standard input with a given number of bytes. It stores none of them: a read leaves the buffer as it is.
#[derive(Drop)]
struct LongInput {
    left: usize,
    openings: u64,
}

impl Inputs for LongInput {
    ghost use Rattle.std.specs.Prelude.{None, min, true};
    ghost use Rattle.std.proofs.Common.{rules};
    ghost use Rattle.pt_core.specs.Counts.{last_count};

    ghost faults = { λ _. 0 };

    ghost openings = { λ s. min s.openings last_count };

    ghost is_opened = { λ _. true };

    ghost files = { λ _. None };

    fn open(&mut self, _name: &str) -> Result<(), OpenFault> {
        self.openings = self.openings.saturating_add(1);
        Ok(())
    }

    fn read(&mut self, buf: &mut [u8]) -> Result<usize, DeviceFault> {
        let n = buf.len().min(self.left);
        self.left -= n;
        Ok(n)
    }

    ghost counted = { Prim.search rules };

    ghost openings_counted = { Prim.search rules };

    ghost opened_is_there = { λ _. tt };
}

/// The length of a text, and the message with which it is refused.
const LENGTHS: [(usize, &str); 2] = [
    (1_073_741_824, "point_fill: -: bad points\n"),
    (1_073_741_825, "point_fill: -: text too long\n"),
];

#[test]
fn longest(rt: HostRuntime) -> Result<(), Fail> {
    for (left, said) in LENGTHS {
        check(&rt, rt.alloc(), left, said)?;
    }
    Ok(())
}

/// Makes a run over this number of bytes and checks the message.
fn check(rt: &impl Abort, alloc: Global, left: usize, said: &str) -> Result<(), Fail> {
    let words = Vec::new(alloc);
    let mut inputs = LongInput { left, openings: 0 };
    let mut outs = MemOutputs::new(alloc, 4096, Vec::new(alloc), 1, 1)?;
    let mut errs = MemSink::new(alloc, 4096, Vec::new(alloc), 1000)?;
    let status = fill_run(alloc, &words, &mut inputs, &mut outs, &mut errs);
    assert_eq!(rt;
        (status, errs.text(), outs.count()),
        (2, said.as_bytes(), 0),
        "{left}"
    );
    Ok(())
}
