//! Writing documents in parts. A page is a document of its own, or a part of the one document of its file.
//!
//! A part begins its document or continues the open one, and ends it or leaves it open. Writing a part allocates no
//! memory, because its pieces are written in order.
ghost use Rattle.std.specs.Prelude.{◌≡◌, ◌≤◌, suc, [], true, false, not, map, OnOk, OnErr};
ghost use Rattle.run_output.specs.Made.{documents_before, documents_in};
ghost use Rattle.run_output.specs.Parts.{IsCutIn, begun, binding_of, end_part, ended, is_first_page, page_part, part_in_pieces, prolog_before, with_part};
ghost use Rattle.run_output.specs.Inner.Parts.{is_begun};
ghost use Rattle.run_output.specs.Inner.Told.{CallsEnd};
ghost use Rattle.run_output.specs.declared.part.Binding.{Binding};

use crate::pieces::write_pieces;
use itoa::Buffer;
use pt_core::{Backend, Outputs, SinkFault};

/// How the pages of a file become documents: one document for each page, or one for all pages together.
#[derive(Clone, Copy, Debug, PartialEq, Eq)]
pub enum Binding {
    Apart,
    Together,
}

impl Binding {
    /// The binding that documents of this backend have.
    pub fn of(backend: Backend) -> Binding
        ensures { result ≡ binding_of backend }
    {
        match backend {
            Backend::Ps => Binding::Together,
            Backend::Eps
            | Backend::Svg
            | Backend::Dxf
            | Backend::GeoJson
            | Backend::Points
            | Backend::Polygons
            | Backend::Proofs => Binding::Apart,
        }
    }

    /// How many documents a file with this number of pages has.
    pub fn documents_in(self, pages: u32) -> u32
        ensures value { result ≡ documents_in self pages }
        ensures few { result ≤ pages }
    {
        match self {
            Binding::Apart => pages,
            Binding::Together if pages == 0 => 0,
            Binding::Together => 1,
        }
    }

    /// How many documents of the same file are complete before a page. `pages` is the number of pages before it.
    pub fn documents_before(self, pages: u32) -> u32
        ensures value { result ≡ documents_before self pages }
        ensures few { result ≤ pages }
    {
        match self {
            Binding::Apart => pages,
            Binding::Together => 0,
        }
    }
}

/// The beginning of a PostScript document, before its first page.
const PROLOG: &[u8] = b"%!PS-Adobe-3.0\n%%Pages: (atend)\n%%EndComments\n";

/// Writes a part of the document with this name. It begins the document if `begins`, writes the pieces in order, and
/// ends the document if `ends`.
///
/// After a fault nothing more is written, so the part is cut off at that point.
pub(crate) fn write_part<O: Outputs>(
    outs: &mut O,
    name: &str,
    begins: bool,
    pieces: &[&[u8]],
    ends: bool,
) -> Result<(), SinkFault>
    requires turn { O.is_ready outs.old ≡ not begins }
    ensures written { OnOk result (O.documents outs.new ≡ with_part (O.documents outs.old)
        (part_in_pieces name.now begins (map (λ piece. piece.now) pieces.now) ends)) }
    ensures turned { OnOk result (O.is_ready outs.new ≡ not ends) }
    ensures calls { CallsEnd result O.Sink outs.old outs.new }
    ensures cut_off { OnErr result (IsCutIn
        (part_in_pieces name.now begins (map (λ piece. piece.now) pieces.now) ends)
        (O.documents outs.old) (O.documents outs.new)) }
    ensures never_falls { O.faults outs.old ≤ O.faults outs.new }
{
    let Ok(()) = begin_where(outs, begins, name) else {
        return Err(SinkFault);
    };
    let Ok(()) = write_pieces(outs, pieces) else {
        return Err(SinkFault);
    };
    match end_where(outs, ends) {
        Ok(()) => Ok(()),
        Err(_) => Err(SinkFault),
    }
}

/// Begins the document if `begins`; else does nothing.
fn begin_where<O: Outputs>(outs: &mut O, begins: bool, name: &str) -> Result<(), SinkFault>
    requires turn { O.is_ready outs.old ≡ not begins }
    ensures begun { OnOk result (O.documents outs.new ≡ begun begins (O.documents outs.old) name.now) }
    ensures ready { OnOk result (O.is_ready outs.new ≡ true) }
    ensures calls { CallsEnd result O.Sink outs.old outs.new }
    ensures nothing { OnErr result (O.documents outs.new ≡ O.documents outs.old) }
    ensures never_falls { O.faults outs.old ≤ O.faults outs.new }
{
    if !begins {
        return Ok(());
    }
    match outs.begin(name) {
        Ok(()) => Ok(()),
        Err(_) => Err(SinkFault),
    }
}

/// Ends the document if `ends`; else does nothing.
fn end_where<O: Outputs>(outs: &mut O, ends: bool) -> Result<(), SinkFault>
    requires { O.is_ready outs.old ≡ true }
    ensures ended { OnOk result (O.documents outs.new ≡ ended ends (O.documents outs.old)) }
    ensures turned { OnOk result (O.is_ready outs.new ≡ not ends) }
    ensures calls { CallsEnd result O.Sink outs.old outs.new }
    ensures nothing { OnErr result (O.documents outs.new ≡ O.documents outs.old) }
    ensures never_falls { O.faults outs.old ≤ O.faults outs.new }
{
    if !ends {
        return Ok(());
    }
    match outs.end() {
        Ok(()) => Ok(()),
        Err(_) => Err(SinkFault),
    }
}

/// Writes a page as a part of the document with this name. `before` is the number of pages of the same file that come
/// before it.
pub fn write_page_part<O: Outputs>(
    outs: &mut O,
    binding: Binding,
    name: &str,
    before: u32,
    text: &[u8],
) -> Result<(), SinkFault>
    requires turn { O.is_ready outs.old ≡ is_begun binding before }
    ensures written { OnOk result (O.documents outs.new
        ≡ with_part (O.documents outs.old) (page_part binding name.now before text.now)) }
    ensures turned { OnOk result (O.is_ready outs.new ≡ is_begun binding (suc before)) }
    ensures calls { CallsEnd result O.Sink outs.old outs.new }
    ensures cut_off { OnErr result (IsCutIn (page_part binding name.now before text.now)
        (O.documents outs.old) (O.documents outs.new)) }
    ensures never_falls { O.faults outs.old ≤ O.faults outs.new }
{
    match binding {
        Binding::Apart => write_part(outs, name, true, &[text], true),
        Binding::Together if before == 0 => {
            write_page_together(outs, name, true, PROLOG, before, text)
        }
        Binding::Together => write_page_together(outs, name, false, b"", before, text),
    }
}

/// Like `write_page_part`, if all pages of a file are one document. `prolog` is what comes before the page, which is
/// empty except before the first one.
fn write_page_together<O: Outputs>(
    outs: &mut O,
    name: &str,
    begins: bool,
    prolog: &[u8],
    before: u32,
    text: &[u8],
) -> Result<(), SinkFault>
    requires first { begins ≡ is_first_page before }
    requires prolog { prolog.now ≡ prolog_before before }
    requires turn { O.is_ready outs.old ≡ not (is_first_page before) }
    ensures written { OnOk result (O.documents outs.new
        ≡ with_part (O.documents outs.old) (page_part Binding.Together name.now before text.now)) }
    ensures turned { OnOk result (O.is_ready outs.new ≡ true) }
    ensures calls { CallsEnd result O.Sink outs.old outs.new }
    ensures cut_off { OnErr result (IsCutIn (page_part Binding.Together name.now before text.now)
        (O.documents outs.old) (O.documents outs.new)) }
    ensures never_falls { O.faults outs.old ≤ O.faults outs.new }
{
    let mut digits = Buffer::new();
    let page = digits.format(u64::from(before) + 1).as_bytes();
    let pieces = [prolog, b"%%Page: ", page, b" ", page, b"\n", text];
    match write_part(outs, name, begins, &pieces, false) {
        Ok(()) => Ok(()),
        Err(_) => Err(SinkFault),
    }
}

/// Ends the open document, which has this name and this number of pages.
pub fn write_end_part<O: Outputs>(outs: &mut O, name: &str, pages: u32) -> Result<(), SinkFault>
    requires turn { O.is_ready outs.old ≡ true }
    ensures written { OnOk result (O.documents outs.new
        ≡ with_part (O.documents outs.old) (end_part name.now pages [])) }
    ensures turned { OnOk result (O.is_ready outs.new ≡ false) }
    ensures calls { CallsEnd result O.Sink outs.old outs.new }
    ensures cut_off { OnErr result (IsCutIn (end_part name.now pages [])
        (O.documents outs.old) (O.documents outs.new)) }
    ensures never_falls { O.faults outs.old ≤ O.faults outs.new }
{
    let mut digits = Buffer::new();
    let count = digits.format(u64::from(pages)).as_bytes();
    let pieces: [&[u8]; 3] = [b"%%Trailer\n%%Pages: ", count, b"\n%%EOF\n"];
    match write_part(outs, name, false, &pieces, true) {
        Ok(()) => Ok(()),
        Err(_) => Err(SinkFault),
    }
}
