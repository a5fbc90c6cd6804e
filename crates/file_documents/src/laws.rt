//! Laws that follow from the definitions alone.
ghost use Rattle.std.specs.Prelude.{◌≡◌, ℕ, Bool, List, Option, Some};
ghost use Rattle.pt_core.specs.Files.{Contents};
ghost use Rattle.run_output.specs.Made.{Past};
ghost use Rattle.run_output.specs.Told.{Sinks, Source};
ghost use Rattle.run_output.specs.declared.part.Binding.{Binding};
ghost use Rattle.run_output.specs.declared.status.Status.{Status};
ghost use Rattle.page_batches.specs.Items.{Item};
ghost use Rattle.file_documents.specs.Alike.{EndAlike, IsUndisturbed};
ghost use Rattle.file_documents.specs.FileItems.{AreItems, AreWhole, Nothing};
ghost use Rattle.file_documents.specs.Manner.{HasTexts, manner_by};
ghost use Rattle.file_documents.specs.Outcome.{IsOutcome};

use page_workers::PageJob;
use run_output::Binding;

/// Whatever the files hold, there is a list of what a run has to write, if each page has a text.
pub fn files_have_items<J: PageJob>(job: &J)
    ensures { (level : ℕ) (invert : Bool) (output : Option (List ℕ)) (suffix : List ℕ) (binding : Binding)
        → HasTexts (manner_by level invert output suffix binding (J.belongs job.now))
        → (contents : Option Contents) (names : List (List ℕ)) (past : Past) → (items : List Item)
        × AreItems contents (manner_by level invert output suffix binding (J.belongs job.now))
        Nothing names past items }
{}

/// If the contents of the files are known, there is only one such list. It is a function of these contents, of how
/// pages are read and documents named, and of the names of the files.
pub fn items_are_one<J: PageJob>(job: &J)
    ensures { (level : ℕ) (invert : Bool) (output : Option (List ℕ)) (suffix : List ℕ) (binding : Binding)
        (contents : Contents) (names : List (List ℕ)) (past : Past) (items others : List Item)
        → AreItems (Some contents) (manner_by level invert output suffix binding (J.belongs job.now))
        Nothing names past items
        → AreItems (Some contents) (manner_by level invert output suffix binding (J.belongs job.now))
        Nothing names past others
        → items ≡ others }
{}

/// If each page is a document of its own, each document in such a list is one part: it is written whole, or cut off.
pub fn documents_are_whole<J: PageJob>(job: &J)
    ensures { (level : ℕ) (invert : Bool) (output : Option (List ℕ)) (suffix : List ℕ)
        (contents : Option Contents) (names : List (List ℕ)) (past : Past) (items : List Item)
        → AreItems contents (manner_by level invert output suffix Binding.Apart (J.belongs job.now))
        Nothing names past items
        → AreWhole items }
{}

/// Two runs over files with known contents end alike if nothing disturbs them. The outcome is a function of these
/// contents, of how pages are read and documents named, and of the names of the files.
pub fn outcomes_are_alike<J: PageJob>(job: &J)
    ensures { (level : ℕ) (invert : Bool) (output : Option (List ℕ)) (suffix : List ℕ) (binding : Binding)
        (contents : Contents) (names : List (List ℕ)) (s t : Status)
        (source source_now other other_now : Source) (old now before after : Sinks)
        → IsOutcome s (manner_by level invert output suffix binding (J.belongs job.now))
        names source source_now old now
        → IsOutcome t (manner_by level invert output suffix binding (J.belongs job.now))
        names other other_now before after
        → IsUndisturbed contents s source source_now old now
        → IsUndisturbed contents t other other_now before after
        → EndAlike s t old now before after }
{}
