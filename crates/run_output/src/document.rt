//! Writing a whole document.
ghost use Rattle.std.specs.Prelude.{◌≡◌, ◌≤◌, false, OnOk, OnErr};
ghost use Rattle.pt_core.specs.Documents.{IsCutOff, with_whole};
ghost use Rattle.run_output.specs.Inner.Told.{CallsEnd};

use crate::part::write_part;
use pt_core::{Outputs, SinkFault};

/// Begins a document, writes its text and ends it.
///
/// After a fault nothing more is written, so the document is cut off at that point.
pub fn write_document<O: Outputs>(outs: &mut O, name: &str, text: &[u8]) -> Result<(), SinkFault>
    requires { O.is_ready outs.old ≡ false }
    ensures whole { OnOk result (O.documents outs.new
        ≡ with_whole (O.documents outs.old) name.now text.now) }
    ensures closed { OnOk result (O.is_ready outs.new ≡ false) }
    ensures calls { CallsEnd result O.Sink outs.old outs.new }
    ensures cut_off { OnErr result
        (IsCutOff (O.documents outs.old) (O.documents outs.new) name.now text.now) }
    ensures never_falls { O.faults outs.old ≤ O.faults outs.new }
{
    match write_part(outs, name, true, &[text], true) {
        Ok(()) => Ok(()),
        Err(_) => Err(SinkFault),
    }
}
