//! A whole run of the program.
ghost use Rattle.std.specs.Prelude.{◌≡◌, ◌^◌, ◌≤◌, List, false, length, true};
ghost use Rattle.pt_base.specs.PointsText.{points_text};
ghost use Rattle.pt_core.specs.declared.path.Path.{Path};
ghost use Rattle.pt_core.specs.declared.policy.Policy.{Policy};
ghost use Rattle.bit_image.specs.Page.{IsPage, Page};
ghost use Rattle.path_decompose.specs.Decomposition.{IsDecomposition, kept};
ghost use Rattle.run_output.specs.Told.{sinks_of, source_of};
ghost use Rattle.run_output.specs.Status.{code_of};
ghost use Rattle.small_program.specs.Input.{TellsInput};
ghost use Rattle.small_program.specs.ProgramRun.{IsProgramRun};
ghost use Rattle.run_output.specs.declared.status.Status.{Status};
ghost use Rattle.point_fill_run.specs.FillReply.{IsFillReply, filler};
ghost use Rattle.point_fill_run.specs.Round.{GivesBack};

use bit_image::pbm;
use point_fill::{FillFault, fill};
use pt_core::{Inputs, NoMemory, Outputs, Sink};
use small_program::{Replies, Reply, run};
use std::alloc::Global;

/// The task of filling points texts.
#[derive(Clone, Copy, Debug)]
struct FillTask;

impl Replies for FillTask {
    ghost use Rattle.point_fill_run.specs.FillReply.{IsFillReply};
    ghost use Rattle.point_fill_run.specs.Inner.OneFillReply.{one_fill_ending, one_fill_text};

    ghost makes = { λ _ text end reply. IsFillReply text end reply };

    fn reply(&self, alloc: Global, text: Vec<u8>) -> Result<Reply, NoMemory> {
        match fill(alloc, &text) {
            Ok(page) => {
                // The text is freed before the page's own text is made, which is as large as the page. The points may
                // be far larger than both. So at any time there is at most the text and the page, or the page and its
                // own text.
                drop(text);
                let reply = pbm(alloc, &page)?;
                Ok(Reply::Right(reply))
            }
            Err(FillFault::BadPoints) => Ok(Reply::Refused(FillFault::BadPoints.text())),
            Err(FillFault::NoMemory) => Err(NoMemory),
        }
    }

    ghost one_ending = { λ _ text a b this that. one_fill_ending text a b this that };

    ghost one_text = { λ _ text a b this that. one_fill_text text a b this that };
}

/// Reads a points text from standard input, writes its page to standard output as raw PBM, and returns the exit status.
///
/// The program takes no command-line arguments. After a fault of the outputs nothing more is written to them.
pub fn fill_run<I: Inputs, O: Outputs, E: Sink>(
    alloc: Global,
    words: &[String],
    inputs: &mut I,
    outs: &mut O,
    errs: &mut E,
) -> u8
    requires closed { O.is_ready outs.old ≡ false }
    requires ready { E.is_ready errs.old ≡ true }
    ensures ran { (end : Status) × (result ≡ code_of end)
        × IsProgramRun IsFillReply filler (length words.now) end
        (source_of I.Inputs inputs.old) (source_of I.Inputs inputs.new)
        (sinks_of O.Sink E.Sink outs.old errs.old) (sinks_of O.Sink E.Sink outs.new errs.new) }

    // The points text of a page's paths, under any turn policy and without leaving out speckles, makes the same page
    // again.
    ensures gives_back { (page : Page) (policy : Policy) (all : List Path) → IsPage page
        → IsDecomposition page policy all → length words.now ≡ 0
        → TellsInput (I.files inputs.old) (points_text page.width page.height (kept 0 all))
        → length (points_text page.width page.height (kept 0 all)) ≤ 2 ^ 30
        → (end : Status) × (result ≡ code_of end) × GivesBack page end
        (source_of I.Inputs inputs.old) (source_of I.Inputs inputs.new)
        (sinks_of O.Sink E.Sink outs.old errs.old) (sinks_of O.Sink E.Sink outs.new errs.new) }
{
    run(alloc, "point_fill", &FillTask, words, inputs, outs, errs).code()
}
