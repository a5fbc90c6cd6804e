//! Standard input, read to its end.
ghost use Rattle.std.specs.Prelude.{◌≡◌, ℕ, ◌+◌, ◌<◌, ◌≤◌, ◌⊎◌, true, [], List, Option, length, IfOk, IfErr, IfNone, OnOk, OnErr, IsErrOf};
ghost use Rattle.pt_core.specs.Counts.{next_count, Rose};
ghost use Rattle.pt_core.specs.Files.{Files, Lacks};
ghost use Rattle.run_output.specs.Names.{dash};
ghost use Rattle.small_program.specs.Input.{HasInput, HasTaken};
ghost use Rattle.small_program.specs.declared.input.InputStop.TheVariants.{TooLong, Unread};

use pt_core::{Inputs, NoMemory};
use std::alloc::Global;

/// The most bytes of standard input that a program takes: 2^30.
pub const MOST_BYTES: usize = 1_073_741_824;

/// The most bytes that one call reads.
const PIECE: usize = 65536;

/// Why standard input couldn't be read to its end.
#[derive(Clone, Copy, Debug, PartialEq, Eq)]
pub enum InputStop {
    /// It couldn't be opened, or a read failed.
    Unread,
    /// It has more bytes than a program takes.
    TooLong,
    /// Memory ran out.
    OutOfMemory,
}

/// Opens standard input and reads it to its end. It stops after one byte more than a program takes.
pub fn read_all<I: Inputs>(alloc: Global, inputs: &mut I) -> Result<Vec<u8>, InputStop>
    ensures whole { IfOk result (λ bytes. HasInput (I.files inputs.old) bytes.items) }
    ensures few { IfOk result (λ bytes. length bytes.items ≤ MOST_BYTES) }
    ensures too_long { IsErrOf result TooLong → (bytes : List ℕ)
        × HasInput (I.files inputs.old) bytes × (MOST_BYTES < length bytes) }

    // If standard input is too long, no more of it is taken than that.
    ensures bound { IsErrOf result TooLong → (taken : List ℕ)
        × HasTaken (I.files inputs.old) (I.files inputs.new) taken
        × (length taken ≡ MOST_BYTES + 1) }
    ensures unread { IsErrOf result Unread
        → (Lacks (I.files inputs.old) dash × (I.faults inputs.new ≡ I.faults inputs.old))
        ⊎ Rose (I.faults inputs.old) (I.faults inputs.new) }
    ensures missing { Lacks (I.files inputs.old) dash → IsErrOf result Unread }
    ensures steady { OnOk result (I.faults inputs.new ≡ I.faults inputs.old) }
    ensures steady_stop { IfErr result (λ stop.
        (stop ≡ Unread) ⊎ (I.faults inputs.new ≡ I.faults inputs.old)) }
    ensures one_opening { I.openings inputs.new ≡ next_count (I.openings inputs.old) }
{
    match inputs.open("-") {
        Ok(()) => read_on(alloc, inputs),
        Err(_) => Err(InputStop::Unread),
    }
}

/// Reads the open file to its end. It stops after one byte more than a program takes.
fn read_on<I: Inputs>(alloc: Global, inputs: &mut I) -> Result<Vec<u8>, InputStop>
    requires { I.is_opened inputs.old ≡ true }
    ensures whole { IfOk result (λ bytes. (start : Option Files) → HasTaken start (I.files inputs.old) []
        → HasInput start bytes.items) }
    ensures few { IfOk result (λ bytes. length bytes.items ≤ MOST_BYTES) }
    ensures too_long { IsErrOf result TooLong → (taken : List ℕ)
        × (length taken ≡ MOST_BYTES + 1)
        × ((start : Option Files) → HasTaken start (I.files inputs.old) []
        → HasTaken start (I.files inputs.new) taken) }
    ensures unread { IsErrOf result Unread → Rose (I.faults inputs.old) (I.faults inputs.new) }
    ensures steady { OnOk result (I.faults inputs.new ≡ I.faults inputs.old) }
    ensures steady_stop { IfErr result (λ stop.
        (stop ≡ Unread) ⊎ (I.faults inputs.new ≡ I.faults inputs.old)) }
    ensures same_openings { I.openings inputs.new ≡ I.openings inputs.old }
{
    let Ok(mut buffer) = room(alloc) else {
        return Err(InputStop::OutOfMemory);
    };
    let mut bytes = Vec::new(alloc);
    'pieces: while bytes.len() <= MOST_BYTES {
        let n = match read_piece(inputs, &mut buffer, &mut bytes) {
            Ok(n) => n,
            Err(stop) => return Err(stop),
        };
        if n == 0 {
            return Ok(bytes);
        }
    }
    Err(InputStop::TooLong)
}

/// A buffer for one call of read.
fn room(alloc: Global) -> Result<Vec<u8>, NoMemory>
    ensures { IfOk result (λ buffer. 0 < length buffer.items) }
{
    Ok(vec![in alloc; 0u8; PIECE]?)
}

/// Reads a piece of the open file into `buffer` and appends it to `bytes`. Returns the length of the piece, which is 0
/// only at the end of the file.
fn read_piece<I: Inputs>(
    inputs: &mut I,
    buffer: &mut [u8],
    bytes: &mut Vec<u8>,
) -> Result<usize, InputStop>
    requires opened { I.is_opened inputs.old ≡ true }
    requires some { 0 < length buffer.old }
    requires few { length bytes.old.items ≤ MOST_BYTES }
    ensures count { IfOk result (λ n. length bytes.new.items ≡ length bytes.old.items + n) }
    ensures most { OnOk result (length bytes.new.items ≤ MOST_BYTES + 1) }
    ensures taken { OnOk result ((start : Option Files) → HasTaken start (I.files inputs.old) bytes.old.items
        → HasTaken start (I.files inputs.new) bytes.new.items) }
    ensures end { IfOk result (λ n. n ≡ 0 → (start : Option Files)
        → HasTaken start (I.files inputs.old) bytes.old.items → HasInput start bytes.new.items) }
    ensures steady { OnOk result (I.faults inputs.new ≡ I.faults inputs.old) }
    ensures cause { IsErrOf result Unread → Rose (I.faults inputs.old) (I.faults inputs.new) }
    ensures never_too_long { IsErrOf result TooLong → ⊥ }
    ensures steady_stop { IfErr result (λ stop.
        (stop ≡ Unread) ⊎ (I.faults inputs.new ≡ I.faults inputs.old)) }
    ensures stays_opened { I.is_opened inputs.new ≡ true }
    ensures same_openings { I.openings inputs.new ≡ I.openings inputs.old }
{
    let room = buffer.len().min(MOST_BYTES + 1 - bytes.len());
    let piece = &mut buffer[..room];
    let Ok(n) = inputs.read(piece) else {
        return Err(InputStop::Unread);
    };
    if bytes.extend_from_slice(&piece[..n]).is_err() {
        return Err(InputStop::OutOfMemory);
    }
    Ok(n)
}
