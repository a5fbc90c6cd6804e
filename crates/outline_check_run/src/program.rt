//! A whole run of the program.
ghost use Rattle.std.specs.Prelude.{◌≡◌, ℕ, ◌≤◌, ◌^◌, List, All, codes, false, length, true};
ghost use Rattle.outline_check.specs.ProofsText.{Certified};
ghost use Rattle.outline_check.specs.Texts.{IsProofs};
ghost use Rattle.outline_check.specs.Verdicts.{IsVerdict};
ghost use Rattle.outline_check.specs.declared.verdict.Verdict.TheVariants.{Right};
ghost use Rattle.outline_check_run.specs.{FindsRight, IsCheckReply};
ghost use Rattle.polygon_search.specs.Polygon.{IsBestPolygon};
ghost use Rattle.run_output.specs.Told.{sinks_of, source_of};
ghost use Rattle.run_output.specs.Status.{code_of};
ghost use Rattle.small_program.specs.Input.{TellsInput};
ghost use Rattle.small_program.specs.ProgramRun.{IsProgramRun};
ghost use Rattle.run_output.specs.declared.status.Status.{Status};
ghost use Rattle.run_output.specs.declared.status.Status.TheVariants.{Done};

use crate::task::Checking;
use pt_core::{Inputs, Outputs, Sink};
use small_program::run;
use std::alloc::Global;

/// Reads a text of certificates from standard input, writes whether all are right or which is the first that isn't, and
/// returns the exit status.
pub fn check_run<I: Inputs, O: Outputs, E: Sink>(
    alloc: Global,
    words: &[String],
    inputs: &mut I,
    outs: &mut O,
    errs: &mut E,
) -> u8
    requires closed { O.is_ready outs.old ≡ false }
    requires ready { E.is_ready errs.old ≡ true }
    ensures run { (ending : Status) × (result ≡ code_of ending)
        × IsProgramRun IsCheckReply (codes "outline_check") (length words.now) ending
        (source_of I.Inputs inputs.old) (source_of I.Inputs inputs.new)
        (sinks_of O.Sink E.Sink outs.old errs.old) (sinks_of O.Sink E.Sink outs.new errs.new) }

    // If all are right, each polygon of the text is the best one for its path.
    ensures best { result ≡ code_of Done → (text : List ℕ) (width height : ℕ) (paths : List Certified)
        → TellsInput (I.files inputs.old) text → IsProofs text width height paths
        → All (λ c. IsBestPolygon c.points c.at) paths }

    // A text of right certificates is found right.
    ensures finds_right { (text : List ℕ) (paths : ℕ) → IsVerdict text (Right paths) → length words.now ≡ 0
        → TellsInput (I.files inputs.old) text → length text ≤ 2 ^ 30
        → (ending : Status) × (result ≡ code_of ending) × FindsRight paths ending
        (source_of I.Inputs inputs.old) (source_of I.Inputs inputs.new)
        (sinks_of O.Sink E.Sink outs.old errs.old) (sinks_of O.Sink E.Sink outs.new errs.new) }
{
    run(alloc, "outline_check", &Checking, words, inputs, outs, errs).code()
}
