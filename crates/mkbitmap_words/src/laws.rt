//! What follows from the definition of what a command line asks for.
ghost use Rattle.std.specs.Prelude.{◌≡◌, ℕ, List};
ghost use Rattle.mkbitmap_words.specs.FilterAsked.{IsFilterAsked};
ghost use Rattle.mkbitmap_words.specs.declared.ask.FilterAsk.{FilterAsk};

/// A command line asks for at most one thing.
pub fn words_ask_for_one_filter()
    ensures { (words : List (List ℕ)) (one other : FilterAsk)
        → IsFilterAsked words one → IsFilterAsked words other → one ≡ other }
{}
