//! Writing pieces of bytes in order.
ghost use Rattle.std.specs.Prelude.{◌≡◌, ◌≤◌, ℕ, true, length, map, take, OnOk, OnErr};
ghost use Rattle.std.specs.List.{concat};
ghost use Rattle.pt_core.specs.Documents.{with_bytes};
ghost use Rattle.run_output.specs.Inner.Told.{CallsEnd};

use pt_base::write_whole;
use pt_core::{Sink, SinkFault};

/// Writes the pieces in order.
///
/// A `SinkFault` means that a call failed. A prefix of the pieces' bytes was then appended, and the rest is dropped.
pub(crate) fn write_pieces<S: Sink>(sink: &mut S, pieces: &[&[u8]]) -> Result<(), SinkFault>
    requires { S.is_ready sink.old ≡ true }
    ensures appended { OnOk result (S.documents sink.new
        ≡ with_bytes (S.documents sink.old) (concat (map (λ piece. piece.now) pieces.now))) }
    ensures calls { CallsEnd result S.Sink sink.old sink.new }
    ensures prefix { OnErr result ((n : ℕ) × (n ≤ length (concat (map (λ piece. piece.now) pieces.now)))
        × (S.documents sink.new ≡ with_bytes (S.documents sink.old)
        (take n (concat (map (λ piece. piece.now) pieces.now))))) }
    ensures never_falls { S.faults sink.old ≤ S.faults sink.new }
    ensures stays_ready { S.is_ready sink.new ≡ true }
{
    for piece in pieces {
        write_whole(sink, piece)?;
    }
    Ok(())
}
