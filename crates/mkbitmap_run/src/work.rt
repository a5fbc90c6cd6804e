//! A page in progress: its rows are read, and the rows of the result are written.
ghost use Rattle.std.specs.Prelude.{◌≡◌, false, true, IfErr, IfOk, OnOk};
ghost use Rattle.bitmap_input.specs.Reading.{cause_of_fault};
ghost use Rattle.run_output.specs.Told.{source_of};
ghost use Rattle.mkbitmap_words.specs.Inner.FilterAsked.{CanFilter};
ghost use Rattle.mkbitmap_run.specs.Rows.{fits_result};
ghost use Rattle.mkbitmap_run.specs.Inner.FilterWork.{BeginsWork, CanBegin, CanPut, GetsReady, HasReadHead, ReadsEnd, StaysOpened, StopsBefore};
ghost use Rattle.mkbitmap_run.specs.Inner.Put.{BreaksPage, BreaksRow, BreaksRows, LeavesSo, PutsAll, PutsPage, PutsRow, StepEnds, world_of};

use crate::fault::Break;
use bit_image::put_pbm_head;
use bitmap_input::{GrayHead, GrayReader, InFault};
use mkbitmap::Filter;
use mkbitmap_words::Setup;
use pt_base::write_whole;
use pt_core::{Inputs, NoMemory, Outputs};
use std::alloc::Global;

/// A page in progress, with all memory that it needs.
///
/// The inputs and the outputs are borrowed by each step and not stored. So each step's contract shows what it did to
/// them.
#[derive(Debug, Drop)]
pub(crate) struct Work {
    /// The beginning of the document.
    head: Vec<u8>,
    reader: GrayReader,
    filter: Filter,
    /// A buffer for a row of the page.
    row: Vec<u16>,
}

impl Work {
    /// Prepares the work on a page. This reader has read the page's header.
    pub(crate) fn new(
        alloc: Global,
        setup: Setup,
        head: GrayHead,
        reader: GrayReader,
    ) -> Result<Work, NoMemory>
        requires setup { CanFilter setup }
        requires read { HasReadHead head reader }
        requires fits { fits_result setup head.width head.height ≡ true }
        ensures { IfOk result (BeginsWork setup reader) }
    {
        let mut text = Vec::new(alloc);
        put_pbm_head(
            &mut text,
            setup.times * head.width,
            setup.times * head.height,
        )?;
        let filter = Filter::new(
            alloc,
            head.width as usize,
            head.height,
            head.maxval as u16,
            setup.radius as usize,
            setup.times,
            setup.level,
        )?;
        let row = vec![in alloc; 0u16; head.width as usize]?;
        Ok(Work {
            head: text,
            reader,
            filter,
            row,
        })
    }

    /// Writes the document: its beginning, and all rows of the result.
    ///
    /// After a fault nothing more is written, so the document is cut off at that point. If a row of the page can't be
    /// read, the document stays open.
    pub(crate) fn put_page<I: Inputs, O: Outputs>(
        &mut self,
        inputs: &mut I,
        outs: &mut O,
    ) -> Result<(), Break>
        requires begins { CanBegin self.old (source_of I.Inputs inputs.old) }
        requires closed { O.is_ready outs.old ≡ false }
        ensures puts { OnOk result (PutsPage
            self.old (world_of I.Inputs O.Sink inputs.old outs.old)
            self.new (world_of I.Inputs O.Sink inputs.new outs.new)) }
        ensures calls { StepEnds result
            (world_of I.Inputs O.Sink inputs.old outs.old)
            (world_of I.Inputs O.Sink inputs.new outs.new) }
        ensures breaks { IfErr result (λ why. BreaksPage why
            self.old (world_of I.Inputs O.Sink inputs.old outs.old)
            self.new (world_of I.Inputs O.Sink inputs.new outs.new)) }
        ensures open { LeavesSo result (O.is_ready outs.new) }
        ensures stays { StaysOpened self.new.reader
            (source_of I.Inputs inputs.old) (source_of I.Inputs inputs.new) }
    {
        match outs.begin("-") {
            Ok(()) => {}
            Err(_) => return Err(Break::Output),
        }
        match write_whole(outs, &self.head) {
            Ok(()) => {}
            Err(_) => return Err(Break::Output),
        }
        match self.put_rows(inputs, outs) {
            Ok(()) => {}
            Err(why) => return Err(why),
        }
        match outs.end() {
            Ok(()) => Ok(()),
            Err(_) => Err(Break::Output),
        }
    }

    /// Writes all rows of the result.
    fn put_rows<I: Inputs, O: Outputs>(&mut self, inputs: &mut I, outs: &mut O) -> Result<(), Break>
        requires begins { CanBegin self.old (source_of I.Inputs inputs.old) }
        requires ready { O.is_ready outs.old ≡ true }
        ensures puts { OnOk result (PutsAll
            self.old (world_of I.Inputs O.Sink inputs.old outs.old)
            self.new (world_of I.Inputs O.Sink inputs.new outs.new)) }
        ensures calls { StepEnds result
            (world_of I.Inputs O.Sink inputs.old outs.old)
            (world_of I.Inputs O.Sink inputs.new outs.new) }
        ensures breaks { IfErr result (λ why. BreaksRows why
            self.old (world_of I.Inputs O.Sink inputs.old outs.old)
            self.new (world_of I.Inputs O.Sink inputs.new outs.new)) }
        ensures stays { StaysOpened self.new.reader
            (source_of I.Inputs inputs.old) (source_of I.Inputs inputs.new) }
        ensures stays_ready { O.is_ready outs.new ≡ true }
    {
        for y in 0..self.filter.rows() {
            match self.put_row(y, inputs, outs) {
                Ok(()) => {}
                Err(why) => return Err(why),
            }
        }
        Ok(())
    }

    /// Reads the rows of the page that row y of the result depends on, and writes row y.
    fn put_row<I: Inputs, O: Outputs>(
        &mut self,
        y: u32,
        inputs: &mut I,
        outs: &mut O,
    ) -> Result<(), Break>
        requires can { CanPut y self.old (source_of I.Inputs inputs.old) }
        requires ready { O.is_ready outs.old ≡ true }
        ensures puts { OnOk result (PutsRow y
            self.old (world_of I.Inputs O.Sink inputs.old outs.old)
            self.new (world_of I.Inputs O.Sink inputs.new outs.new)) }
        ensures calls { StepEnds result
            (world_of I.Inputs O.Sink inputs.old outs.old)
            (world_of I.Inputs O.Sink inputs.new outs.new) }
        ensures breaks { IfErr result (λ why. BreaksRow why y
            self.old (world_of I.Inputs O.Sink inputs.old outs.old)
            self.new (world_of I.Inputs O.Sink inputs.new outs.new)) }
        ensures stays { StaysOpened self.new.reader
            (source_of I.Inputs inputs.old) (source_of I.Inputs inputs.new) }
        ensures stays_ready { O.is_ready outs.new ≡ true }
    {
        match self.make_ready(y, inputs) {
            Ok(()) => {}
            Err(fault) => return Err(Break::Input(fault)),
        }
        self.filter.enlarge(y);
        match write_whole(outs, self.filter.row()) {
            Ok(()) => Ok(()),
            Err(_) => Err(Break::Output),
        }
    }

    /// Reads rows of the page and steps the filter along, until it has the two rows of reliefs between which row y of
    /// the result lies.
    fn make_ready<I: Inputs>(&mut self, y: u32, inputs: &mut I) -> Result<(), InFault>
        requires { CanPut y self.old (source_of I.Inputs inputs.old) }
        ensures ready { OnOk result (GetsReady y self.old (I.files inputs.old)
            self.new (I.files inputs.new)) }
        ensures stops { IfErr result (λ fault. StopsBefore (cause_of_fault fault) y self.old
            (I.files inputs.old) self.new.reader (I.files inputs.new)) }
        ensures reads { ReadsEnd result (I.faults inputs.old) (I.faults inputs.new) }
        ensures stays { StaysOpened self.new.reader
            (source_of I.Inputs inputs.old) (source_of I.Inputs inputs.new) }
    {
        'rows: while !self.filter.is_ready(y) {
            if self.filter.wants_row() {
                match self.reader.row(inputs, &mut self.row) {
                    Ok(()) => self.filter.take(&self.row),
                    Err(fault) => return Err(fault),
                }
            } else {
                self.filter.step();
            }
        }
        Ok(())
    }
}
