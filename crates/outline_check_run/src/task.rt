//! What the program makes of its input.
ghost use Rattle.std.specs.Prelude.{◌≡◌, ◌++◌, codes, decimal, string_bytes, IfOk};
ghost use Rattle.outline_check_run.specs.Verdict.{verdict_line};

use outline_check::{Verdict, check_proofs};
use pt_core::{NoMemory, put_number};
use small_program::{Replies, Reply};
use std::alloc::Global;

/// The task of checking a text of certificates.
#[derive(Clone, Copy, Debug)]
pub struct Checking;

impl Replies for Checking {
    ghost use Rattle.outline_check_run.specs.Verdict.{IsCheckReply};
    ghost use Rattle.outline_check_run.specs.Inner.OneReply.{one_ending, one_line};

    ghost makes = { λ task bytes ending text. IsCheckReply bytes ending text };

    fn reply(&self, alloc: Global, bytes: Vec<u8>) -> Result<Reply, NoMemory> {
        match check_proofs(alloc, &bytes)? {
            Verdict::Right(paths) => Ok(Reply::Right(line(alloc, "right ", paths)?)),
            Verdict::Wrong(path) => Ok(Reply::Wrong(line(alloc, "wrong ", path)?)),
            Verdict::BadProofs => Ok(Reply::Refused("bad proofs")),
        }
    }

    ghost one_ending = { λ task bytes a b this that. one_ending bytes a b this that };

    ghost one_text = { λ task bytes a b this that. one_line bytes a b this that };
}

/// A line with a word and a number.
fn line(alloc: Global, word: &str, number: u32) -> Result<Vec<u8>, NoMemory>
    ensures { IfOk result (λ line. line.items ≡ verdict_line word.now number) }
{
    let mut line = Vec::new(alloc);
    line.extend_from_slice(word.as_bytes())?;
    put_number(&mut line, number)?;
    line.extend_from_slice(b"\n")?;
    Ok(line)
}
