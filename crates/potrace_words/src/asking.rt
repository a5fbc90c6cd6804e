//! What follows from the definition of what a command line asks for.
ghost use Rattle.std.specs.Prelude.{◌≡◌, ℕ, List};
ghost use Rattle.potrace_words.specs.Asked.{CanBeDone, IsAsked};
ghost use Rattle.potrace_words.specs.declared.ask.Ask.{Ask};

/// A command line asks for at most one thing.
pub fn words_ask_for_one_thing()
    ensures { (words : List (List ℕ)) (one other : Ask)
        → IsAsked words one → IsAsked words other → one ≡ other }
{}

/// What a command line asks for can be done.
pub fn what_is_asked_can_be_done()
    ensures { (words : List (List ℕ)) (ask : Ask) → IsAsked words ask → CanBeDone ask }
{}
