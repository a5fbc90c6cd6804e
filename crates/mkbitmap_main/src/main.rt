//! The program `mkbitmap`, which makes a gray page sharper and larger, as a bitmap.
//! All that it does is one call, `mk_run` of `mkbitmap_run`.
#![tactic(auto)]

use mkbitmap_run::{BAD_WORDS, NAME, mk_run};
use pt_base::{ErrSink, FileInputs, FileOutputs};
use run_output::words_of;
use std::process::ExitCode;

fn main(rt: HostRuntime) -> ExitCode {
    let mut errs = ErrSink::new(rt.stderr());
    let words = match words_of(&rt, NAME, BAD_WORDS, &mut errs) {
        Ok(words) => words,
        Err(status) => return ExitCode::from(status.code()),
    };
    let mut inputs = FileInputs::new(&rt);
    let mut outs = FileOutputs::new(&rt);
    let status = mk_run(rt.alloc(), &words, &mut inputs, &mut outs, &mut errs);
    ExitCode::from(status)
}
