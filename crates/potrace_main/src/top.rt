//! The top call: all that the program does.
ghost use Rattle.std.specs.Prelude.{◌≡◌, ◌≢◌, ◌<◌, ◌≤◌, ◌⊎◌, ◌∷◌, ℕ, List, [], true, false, map, option_map, string_bytes};
ghost use Rattle.pt_core.specs.Counts.{Rose};
ghost use Rattle.run_output.specs.Names.{dash};
ghost use Rattle.run_output.specs.Status.{code_of};
ghost use Rattle.run_output.specs.declared.status.Status.{Status};
ghost use Rattle.potrace_main.specs.Demo.{IsDemoText};
ghost use Rattle.potrace_words.specs.Asked.{CanBeDone, IsAsked};
ghost use Rattle.potrace_words.specs.declared.ask.Ask.{Ask};
ghost use Rattle.page_batches.specs.Inner.Desks.{Keeps, sinks_at};
ghost use Rattle.page_batches.specs.Items.{Doc, Item};
ghost use Rattle.page_batches.specs.ItemsDone.{HasEnded};
ghost use Rattle.run_output.specs.Told.{sinks_of, source_of};
ghost use Rattle.file_documents.specs.FileItems.{IsAbsent, told_contents};
ghost use Rattle.file_documents.specs.Outcome.{LastEndsNear, OpensFirst, InputCount};
ghost use Rattle.potrace_main.specs.Run.{AreItemsOf, BindsApart, FailureCount, IsCodeOf, IsComplete, IsMissing, IsOnePassOf, IsOutcomeOf, LosesBatchOf, RefusesWords, names_of};
ghost use Rattle.potrace_main.specs.Inner.Run.{IsRun, IsRunBy};

use crate::demo::demo_text;
use crate::job::DocumentJob;
use crate::usage::{help_text, version_text};
use file_documents::{Task, convert_files};
use page_batches::{Desk, Plan};
use page_trace::pages_have_documents;
use potrace_words::{Ask, WordFault, settings_of};
use pt_core::{Gate, Inputs, Outputs, Settings, Sink};
use run_output::{Binding, Name, Status, backend_suffix, say_bad_words, say_out_of_memory};
use std::alloc::Global;
use std::thread::Threads;
use threshold_map::Level;

/// Does all that the words ask for, and answers the exit status.
///
/// The files are taken in order: each is opened once, its pages are read one after another, in batches of twice as
/// many as there are workers, and each page is written under the name of its document, as one of its own or, under
/// `Ps`, as a page of its file's. Where no device fails and memory
/// suffices, what is written and said is the same for every number of workers. After a fault of the outputs nothing
/// more is written to them.
pub fn run<R: Threads + Sync, I: Inputs, O: Outputs, E: Sink, G: Gate + Sync>(
    rt: &R,
    alloc: Global,
    words: &[String],
    inputs: &mut I,
    outs: &mut O,
    errs: &mut E,
    gate: &G,
) -> u8
    requires closed { O.is_ready outs.old ≡ false }
    requires ready { E.is_ready errs.old ≡ true }

    // What the words and the told files give to be written is written, as far as the status says. The law
    // `items_are_one` says that this is one list. Where the files aren't told, it is so for some pages.
    ensures outcome { (ask : Ask) → IsAsked (map string_bytes words.now) ask → IsCodeOf result
        (λ status. IsOutcomeOf ask status
        (source_of I.Inputs inputs.old) (source_of I.Inputs inputs.new)
        (sinks_of O.Sink E.Sink outs.old errs.old) (sinks_of O.Sink E.Sink outs.new errs.new)) }

    // Where no device failed, all is done, or the run ends with the refusal or the missing file, want of
    // memory aside.
    ensures complete { (ask : Ask) → IsAsked (map string_bytes words.now) ask → (items : List Item)
        × AreItemsOf ask (told_contents (I.files inputs.old)) items
        × ((Rose (I.faults inputs.old) (I.faults inputs.new) → ⊥)
        → (Rose (O.faults outs.old) (O.faults outs.new) → ⊥)
        → IsCodeOf result (λ status. IsComplete status items)) }

    // Words that ask for nothing, exactly, are refused, want of memory aside; nothing else is done.
    ensures bad_words { result ≡ code_of Status.BadWords
        → (ask : Ask) → IsAsked (map string_bytes words.now) ask → ⊥ }
    ensures refused { ((ask : Ask) → IsAsked (map string_bytes words.now) ask → ⊥)
        → (inputs.new ≡ inputs.old) × IsCodeOf result (λ status. RefusesWords status
        (sinks_of O.Sink E.Sink outs.old errs.old) (sinks_of O.Sink E.Sink outs.new errs.new)) }

    // There are as many openings as files up to some file of the words, and that file is the opened one, where
    // that is told.
    ensures opened { (ask : Ask) → IsAsked (map string_bytes words.now) ask → OpensFirst (names_of ask)
        (source_of I.Inputs inputs.old) (source_of I.Inputs inputs.new) }

    // Where all is done, the last file is read no farther than decides how its pages end, but for 65,536 bytes.
    ensures near { (ask : Ask) → IsAsked (map string_bytes words.now) ask → result ≡ code_of Status.Done
        → LastEndsNear (told_contents (I.files inputs.old)) (names_of ask)
        (source_of I.Inputs inputs.new) }

    // Where a document couldn't be written, no more was read than its batch.
    ensures one_pass { (ask : Ask) → IsAsked (map string_bytes words.now) ask
        → result ≡ code_of Status.Unwritten → IsOnePassOf ask
        (source_of I.Inputs inputs.old) (source_of I.Inputs inputs.new)
        (sinks_of O.Sink E.Sink outs.old errs.old) (sinks_of O.Sink E.Sink outs.new errs.new) }

    // Where memory ran out over files, whole batches are carried out, and at most one batch more was read.
    ensures one_batch { (ask : Ask) → IsAsked (map string_bytes words.now) ask
        → result ≡ code_of Status.OutOfMemory → LosesBatchOf ask
        (source_of I.Inputs inputs.old) (source_of I.Inputs inputs.new)
        (sinks_of O.Sink E.Sink outs.old errs.old) (sinks_of O.Sink E.Sink outs.new errs.new) }

    // Each fault has its cause.
    ensures unread { (ask : Ask) → IsAsked (map string_bytes words.now) ask → result ≡ code_of Status.Unread
        → Rose (I.faults inputs.old) (I.faults inputs.new)
        ⊎ IsMissing (names_of ask) (told_contents (I.files inputs.old)) }
    ensures absent { (ask : Ask) (name : List ℕ) (names : List (List ℕ))
        → IsAsked (map string_bytes words.now) ask → names_of ask ≡ name ∷ names
        → IsAbsent (told_contents (I.files inputs.old)) name
        → (result ≡ code_of Status.Unread) ⊎ (result ≡ code_of Status.OutOfMemory) }
    ensures read { IsCodeOf result
        (λ status. InputCount status (I.faults inputs.old) (I.faults inputs.new)) }
    ensures unwritten { result ≡ code_of Status.Unwritten
        → Rose (O.faults outs.old) (O.faults outs.new) }
    ensures unwritten_always { O.faults outs.old < O.faults outs.new
        → result ≡ code_of Status.Unwritten }

    // After a fault of the outputs nothing more is written: one call failed, and it was the last one. At each other
    // status none failed.
    ensures failed { IsCodeOf result
        (λ status. FailureCount status (O.failures outs.old) (O.failures outs.new)) }

    // Where each page has a document of its own, no document stays open but for a fault of the outputs.
    ensures closed { ((ask : Ask) → IsAsked (map string_bytes words.now) ask → BindsApart ask)
        → result ≢ code_of Status.Unwritten → O.is_ready outs.new ≡ false }
{
    pages_have_documents();
    answer(rt, alloc, words, inputs, outs, errs, gate).code()
}

/// Does all that the words ask for, and answers how that ended.
fn answer<R: Threads + Sync, I: Inputs, O: Outputs, E: Sink, G: Gate + Sync>(
    rt: &R,
    alloc: Global,
    words: &[String],
    inputs: &mut I,
    outs: &mut O,
    errs: &mut E,
    gate: &G,
) -> Status
    requires closed { O.is_ready outs.old ≡ false }
    requires ready { E.is_ready errs.old ≡ true }
    ensures { IsRunBy I.Inputs (map string_bytes words.now) result inputs.old inputs.new
        (sinks_of O.Sink E.Sink outs.old errs.old) (sinks_of O.Sink E.Sink outs.new errs.new) }
{
    let mut desk = Desk { outs, errs };
    answer_at(rt, alloc, words, inputs, &mut desk, gate)
}

/// The same, where outputs and messages are at a desk.
fn answer_at<R: Threads + Sync, I: Inputs, O: Outputs, E: Sink, G: Gate + Sync>(
    rt: &R,
    alloc: Global,
    words: &[String],
    inputs: &mut I,
    desk: &mut Desk<O, E>,
    gate: &G,
) -> Status
    requires closed { O.is_ready desk.old.outs.now ≡ false }
    requires ready { E.is_ready desk.old.errs.now ≡ true }
    ensures answered { IsRunBy I.Inputs (map string_bytes words.now) result inputs.old inputs.new
        (sinks_at O.Sink E.Sink desk.old) (sinks_at O.Sink E.Sink desk.new) }
    ensures keeps { Keeps O.Sink E.Sink desk.old desk.new }
{
    match settings_of(alloc, words) {
        Ok(ask) => carry_out(rt, alloc, ask, inputs, desk, gate),
        Err(WordFault::Bad) => {
            say_bad_words(desk.errs);
            Status::BadWords
        }
        Err(WordFault::NoMemory) => {
            pages_have_documents();
            say_out_of_memory(desk.errs);
            Status::OutOfMemory
        }
    }
}

/// Does what is asked for.
fn carry_out<'a, R: Threads + Sync, I: Inputs, O: Outputs, E: Sink, G: Gate + Sync>(
    rt: &'a R,
    alloc: Global,
    ask: Ask,
    inputs: &mut I,
    desk: &mut Desk<O, E>,
    gate: &'a G,
) -> Status
    requires possible { CanBeDone ask }
    requires closed { O.is_ready desk.old.outs.now ≡ false }
    requires ready { E.is_ready desk.old.errs.now ≡ true }
    ensures ran { IsRun ask result
        (source_of I.Inputs inputs.old) (source_of I.Inputs inputs.new)
        (sinks_at O.Sink E.Sink desk.old) (sinks_at O.Sink E.Sink desk.new) }
    ensures keeps { Keeps O.Sink E.Sink desk.old desk.new }
{
    match ask {
        Ask::Help => desk.write_text(help_text()),
        Ask::Version => desk.write_text(version_text()),
        Ask::Demo {
            pages,
            workers,
            settings,
        } => write_demo(rt, alloc, pages, workers, settings, desk, gate),
        Ask::Files {
            names,
            output,
            workers,
            settings,
        } => {
            let job = DocumentJob::new(settings);
            job.has_documents();
            let plan = Plan {
                threads: rt,
                alloc,
                job: &job,
                binding: Binding::of(settings.backend),
                workers,
                gate,
            };
            let output = text_of(&output);
            let task = Task {
                plan,
                level: Level::from_micro(settings.level),
                invert: settings.invert,
                output,
                suffix: backend_suffix(settings.backend),
            };
            convert_files(&task, names.as_slice(), inputs, desk)
        }
    }
}

/// Traces so many made-up pages, and writes the lines about them.
fn write_demo<R: Threads + Sync, O: Outputs, E: Sink, G: Gate + Sync>(
    rt: &R,
    alloc: Global,
    pages: u32,
    workers: u32,
    settings: Settings,
    desk: &mut Desk<O, E>,
    gate: &G,
) -> Status
    requires possible { CanBeDone (Ask.Demo pages workers settings) }
    requires closed { O.is_ready desk.old.outs.now ≡ false }
    requires ready { E.is_ready desk.old.errs.now ≡ true }
    ensures ended { (text : List ℕ) × IsDemoText pages settings text
        × HasEnded result (Doc dash text ∷ [])
        (sinks_at O.Sink E.Sink desk.old) (sinks_at O.Sink E.Sink desk.new) }
    ensures keeps { Keeps O.Sink E.Sink desk.old desk.new }
{
    match demo_text(rt, alloc, pages, workers, settings, gate) {
        Ok(text) => desk.write_text(&text),
        Err(_) => {
            say_out_of_memory(desk.errs);
            Status::OutOfMemory
        }
    }
}

/// The text of a name, if there is one.
fn text_of(name: &Option<Name>) -> Option<&str>
    ensures { option_map (λ s. s.now) result ≡ name.now }
{
    match name {
        Some(name) => Some(name.as_str()),
        None => None,
    }
}
