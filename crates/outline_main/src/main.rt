//! The program `outline_check`, which says whether certificates are right.
//! All that it does is one call, `check_run` of `outline_check_run`.
#![tactic(auto)]

use outline_check_run::check_run;
use pt_base::{ErrSink, FileInputs, FileOutputs};
use run_output::words_of;
use small_program::BAD_WORDS;
use std::process::ExitCode;

fn main(rt: HostRuntime) -> ExitCode {
    let mut errs = ErrSink::new(rt.stderr());
    let words = match words_of(&rt, "outline_check", BAD_WORDS, &mut errs) {
        Ok(words) => words,
        Err(status) => return ExitCode::from(status.code()),
    };
    let mut inputs = FileInputs::new(&rt);
    let mut outs = FileOutputs::new(&rt);
    let status = check_run(rt.alloc(), &words, &mut inputs, &mut outs, &mut errs);
    ExitCode::from(status)
}
