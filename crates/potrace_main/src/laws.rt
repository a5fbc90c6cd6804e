//! What follows from the definitions alone.
ghost use Rattle.std.specs.Prelude.{◌≡◌, ℕ, Bool, List};
ghost use Rattle.pt_core.specs.Files.{Contents};
ghost use Rattle.pt_core.specs.declared.settings.Settings.{Settings};
ghost use Rattle.pt_core.specs.Needs.{CanWrite};
ghost use Rattle.run_output.specs.Told.{Sinks, Source};
ghost use Rattle.run_output.specs.declared.status.Status.{Status};
ghost use Rattle.potrace_words.specs.declared.ask.Ask.{Ask};
ghost use Rattle.file_documents.specs.Alike.{EndAlike, IsUndisturbed};
ghost use Rattle.potrace_main.specs.Demo.{IsDemoText};
ghost use Rattle.potrace_main.specs.Run.{IsOutcomeOf, with_workers};

/// There is at most one text of so many pages under some settings.
pub fn demo_texts_are_one()
    ensures { (pages : ℕ) (settings : Settings) (text other : List ℕ)
        → IsDemoText pages settings text → IsDemoText pages settings other → text ≡ other }
{}

/// There is a text of so many pages under all settings under which a document is written.
pub fn demos_have_texts()
    ensures { (pages : ℕ) (settings : Settings) → CanWrite settings
        → (text : List ℕ) × IsDemoText pages settings text }
{}

/// The black level, and whether pages are inverted, change nothing in the text.
pub fn levels_change_no_demo()
    ensures { (pages level : ℕ) (invert : Bool) (settings : Settings) (text : List ℕ)
        → IsDemoText pages settings text
        → IsDemoText pages (record settings { level = level; invert = invert }) text }
{}

/// Two runs over told files that are asked for the same, but for the number of workers, end alike, where nothing disturbs
/// them.
pub fn workers_change_nothing()
    ensures { (ask : Ask) (workers : ℕ) (contents : Contents) (s t : Status)
        (source source_now other other_now : Source) (old now before after : Sinks)
        → IsOutcomeOf ask s source source_now old now
        → IsOutcomeOf (with_workers workers ask) t other other_now before after
        → IsUndisturbed contents s source source_now old now
        → IsUndisturbed contents t other other_now before after
        → EndAlike s t old now before after }
{}
