//! The program `point_fill`, which fills the page that a points text tells.
//! All that it does is one call, `fill_run` of `point_fill_run`.
#![tactic(auto)]

use point_fill_run::fill_run;
use pt_base::{ErrSink, FileInputs, FileOutputs};
use run_output::words_of;
use small_program::BAD_WORDS;
use std::process::ExitCode;

fn main(rt: HostRuntime) -> ExitCode {
    let mut errs = ErrSink::new(rt.stderr());
    let words = match words_of(&rt, "point_fill", BAD_WORDS, &mut errs) {
        Ok(words) => words,
        Err(status) => return ExitCode::from(status.code()),
    };
    let mut inputs = FileInputs::new(&rt);
    let mut outs = FileOutputs::new(&rt);
    ExitCode::from(fill_run(rt.alloc(), &words, &mut inputs, &mut outs, &mut errs))
}
