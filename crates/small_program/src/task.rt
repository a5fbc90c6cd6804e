//! What a program makes of its whole input.
ghost use Rattle.std.specs.Prelude.{◌≡◌, ℕ, List, IfOk};
ghost use Rattle.small_program.specs.Inner.Reply.{reply_ending, reply_text};
ghost use Rattle.run_output.specs.declared.status.Status.{Status};

use pt_core::NoMemory;
use std::alloc::Global;

/// What a program makes of an input.
#[derive(Debug, Drop)]
pub enum Reply {
    /// The document.
    Right(Vec<u8>),
    /// The document, which says that the input is wrong.
    Wrong(Vec<u8>),
    /// The reason for which the input is refused.
    Refused(&'static str),
}

/// A task: what a program makes of its whole input. An input has at most one ending and one text.
pub trait Replies {
    /// Which ending an input has, and with which text. The text is that of the document, or the reason for which the
    /// input is refused.
    ghost makes: { Self → List ℕ → Status → List ℕ → Type 0 };

    /// The reply to the input. It takes ownership of the input's bytes, so that it can free them.
    fn reply(&self, alloc: Global, bytes: Vec<u8>) -> Result<Reply, NoMemory>
        ensures { IfOk result (λ reply.
            makes self.now bytes.items (reply_ending reply) (reply_text reply)) };

    /// An input has at most one ending.
    ghost one_ending: { (task : Self) (bytes a b : List ℕ) (this that : Status)
        → makes task bytes this a → makes task bytes that b → this ≡ that };

    /// An input has at most one text.
    ghost one_text: { (task : Self) (bytes a b : List ℕ) (this that : Status)
        → makes task bytes this a → makes task bytes that b → a ≡ b };
}
