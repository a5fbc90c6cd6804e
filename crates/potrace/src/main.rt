//! The program `potrace`, which traces bitmaps to outlines. All that it does is one call, `run` of `potrace_main`.
#![tactic(auto)]

mod memory;

use crate::memory::keep_memory;
use potrace_main::run;
use pt_base::{ErrSink, FileInputs, FileOutputs};
use pt_core::NoGate;
use run_output::{BAD_WORDS, TRACER, words_of};
use std::process::ExitCode;

fn main(rt: HostRuntime) -> ExitCode {
    keep_memory(rt.alloc());
    let mut errs = ErrSink::new(rt.stderr());
    let words = match words_of(&rt, TRACER, BAD_WORDS, &mut errs) {
        Ok(words) => words,
        Err(status) => return ExitCode::from(status.code()),
    };
    let mut inputs = FileInputs::new(&rt);
    let mut outs = FileOutputs::new(&rt);
    let status = run(
        &rt,
        rt.alloc(),
        &words,
        &mut inputs,
        &mut outs,
        &mut errs,
        &NoGate,
    );
    ExitCode::from(status)
}
