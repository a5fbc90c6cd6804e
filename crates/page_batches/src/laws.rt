//! What follows from the definitions alone.
ghost use Rattle.std.specs.Prelude.{◌≡◌, ◌++◌, ◌∷◌, ◌⊎◌, ℕ, List, Option, length};
ghost use Rattle.std.specs.List.{concat};
ghost use Rattle.bit_image.specs.Page.{Page};
ghost use Rattle.pt_core.specs.Counts.{Rose};
ghost use Rattle.pt_core.specs.Documents.{Documents, IsCutOff, with_bytes, with_open, with_whole};
ghost use Rattle.run_output.specs.Parts.{IsCutIn, file_text, pages_text, prolog_text, whole, with_part};
ghost use Rattle.run_output.specs.declared.part.Binding.{Binding};
ghost use Rattle.page_batches.specs.Held.{AreHeld, Held};
ghost use Rattle.page_batches.specs.Items.{Item, end_items, page_items, with_items};
ghost use Rattle.page_batches.specs.ItemsDone.{AreFronts, AreSaid};
ghost use Rattle.run_output.specs.Told.{Told};

use page_workers::PageJob;
use run_output::Binding;

/// Where the pages of a file are one document, its first pages leave that open behind them.
pub fn first_pages_stay_open()
    ensures { (told : Option Documents) (name text : List ℕ) (texts : List (List ℕ))
        → with_items told (page_items Binding.Together name 0 (text ∷ texts))
        ≡ with_open told name (prolog_text ++ pages_text 0 (text ∷ texts)) }
{}

/// And all its items are one whole document.
pub fn all_pages_are_one_document()
    ensures { (told : Option Documents) (name text : List ℕ) (texts messages : List (List ℕ))
        → with_items told (page_items Binding.Together name 0 (text ∷ texts)
        ++ end_items Binding.Together name (length (text ∷ texts)) messages)
        ≡ with_whole told name (file_text (text ∷ texts)) }
{}

/// What is held has one list of items: it follows from the pages alone.
pub fn held_items_are_one<J: PageJob>(job: &J)
    ensures { (b : Binding) (held : List Held) (items others : List Item)
        → AreHeld b (J.belongs job.now) held items → AreHeld b (J.belongs job.now) held others → items ≡ others }
{}

/// A whole document is one part: where it is written it is added whole, and where it is cut off, so is its text.
pub fn whole_documents_are_parts()
    ensures added { (told : Option Documents) (name text : List ℕ)
        → with_part told (whole name text) ≡ with_whole told name text }
    ensures cut_off { (told now : Option Documents) (name text : List ℕ)
        → IsCutIn (whole name text) told now → IsCutOff told now name text }
{}

/// Where messages were said a front of each stands there, one after another, and each is whole where the count of
/// faults didn't rise.
pub fn messages_are_said_in_fronts()
    ensures { (old now : Told) (messages : List (List ℕ)) → AreSaid old now messages
        → (texts : List (List ℕ)) × AreFronts texts messages
        × (now.documents ≡ with_bytes old.documents (concat texts))
        × ((texts ≡ messages) ⊎ Rose old.faults now.faults) }
{}
