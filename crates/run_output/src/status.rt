//! How a run ends.
ghost use Rattle.std.specs.Prelude.{◌≡◌};
ghost use Rattle.run_output.specs.Status.{code_of};

/// How a run ends.
#[derive(Clone, Copy, Debug, PartialEq, Eq)]
pub enum Status {
    /// All that was asked for is done.
    Done,
    /// The program doesn't accept its command-line arguments.
    BadWords,
    /// A page was refused.
    Refused,
    /// A file couldn't be opened, or a read failed.
    Unread,
    /// A document couldn't be written.
    Unwritten,
    /// Memory ran out.
    OutOfMemory,
    /// The document is complete, and it says that the input is wrong.
    Wrong,
}

impl Status {
    /// The exit status of the program.
    pub fn code(self) -> u8
        ensures { result ≡ code_of self }
    {
        match self {
            Status::Done => 0,
            Status::BadWords => 1,
            Status::Refused => 2,
            Status::Unread => 3,
            Status::Unwritten => 4,
            Status::OutOfMemory => 5,
            Status::Wrong => 6,
        }
    }
}
