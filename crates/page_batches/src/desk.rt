//! The outside that a run writes to.
ghost use Rattle.std.specs.Prelude.{◌≡◌, ◌∷◌, [], false, true};
ghost use Rattle.run_output.specs.Names.{dash};
ghost use Rattle.run_output.specs.Inner.Parts.{is_begun};
ghost use Rattle.run_output.specs.Parts.{page_part};
ghost use Rattle.page_batches.specs.Items.{Doc};
ghost use Rattle.page_batches.specs.Items.Item.{Write};
ghost use Rattle.page_batches.specs.Inner.ItemsDone.{EndsDocument, EndsWriting};
ghost use Rattle.page_batches.specs.ItemsDone.{HasEnded};
ghost use Rattle.page_batches.specs.Inner.Desks.{Keeps, sinks_at};

use pt_core::{Outputs, Sink, SinkFault};
use run_output::{Binding, Status, say_not_written, write_end_part, write_page_part};

/// The outputs, and the sink for messages, of a run.
#[derive(Drop)]
pub struct Desk<'a, O: Outputs, E: Sink> {
    pub outs: &'a mut O,
    pub errs: &'a mut E,
}

impl<'a, O: Outputs, E: Sink> Desk<'a, O, E> {
    /// Writes a text as the one document, to standard output.
    pub fn write_text(&mut self, text: &[u8]) -> Status
        requires closed { O.is_ready self.old.outs.now ≡ false }
        requires ready { E.is_ready self.old.errs.now ≡ true }
        ensures ended { HasEnded result (Doc dash text.now ∷ [])
            (sinks_at O.Sink E.Sink self.old) (sinks_at O.Sink E.Sink self.new) }
        ensures keeps { Keeps O.Sink E.Sink self.old self.new }
    {
        match self.write_page(Binding::Apart, "-", 0, text) {
            Ok(()) => Status::Done,
            Err(_) => Status::Unwritten,
        }
    }

    /// Writes the part of the document of this name that is a page, behind so many of its file. After a fault
    /// nothing more is written: that is said.
    pub(crate) fn write_page(
        &mut self,
        binding: Binding,
        name: &str,
        before: u32,
        text: &[u8],
    ) -> Result<(), SinkFault>
        requires turn { O.is_ready self.old.outs.now ≡ is_begun binding before }
        requires ready { E.is_ready self.old.errs.now ≡ true }
        ensures written { EndsWriting result (Write (page_part binding name.now before text.now) ∷ [])
            (sinks_at O.Sink E.Sink self.old) (sinks_at O.Sink E.Sink self.new) }
        ensures keeps { Keeps O.Sink E.Sink self.old self.new }
    {
        match write_page_part(self.outs, binding, name, before, text) {
            Ok(()) => Ok(()),
            Err(_) => {
                say_not_written(self.errs, name);
                Err(SinkFault)
            }
        }
    }

    /// Ends the open document, of so many pages. After a fault nothing more is written: that is said.
    pub(crate) fn write_end(&mut self, name: &str, pages: u32) -> Result<(), SinkFault>
        requires turn { O.is_ready self.old.outs.now ≡ true }
        requires ready { E.is_ready self.old.errs.now ≡ true }
        ensures written { EndsDocument result name.now pages
            (sinks_at O.Sink E.Sink self.old) (sinks_at O.Sink E.Sink self.new) }
        ensures keeps { Keeps O.Sink E.Sink self.old self.new }
    {
        match write_end_part(self.outs, name, pages) {
            Ok(()) => Ok(()),
            Err(_) => {
                say_not_written(self.errs, name);
                Err(SinkFault)
            }
        }
    }
}
