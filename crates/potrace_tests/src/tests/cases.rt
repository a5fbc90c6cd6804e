//! Runs over files in memory, and what is to come of them.
ghost use Rattle.std.specs.Prelude.{◌≡◌, IfOk, is_some, true, false};

use mem_outside::{InCall, MemInputs, MemOutputs, MemSink, OutCall};
use page_samples::{HoldsFirst, listed, named, split};
use potrace_main::run;
use pt_core::{NoMemory, Sink};
use std::alloc::Global;
use std::process::Abort;
use std::thread::Threads;

/// What a run is made of, and what is to come of it.
#[derive(Clone, Copy)]
pub struct Case<'a> {
    /// The words, with a space between them, and those in front of them.
    pub words: &'a str,
    pub in_front: &'static str,
    /// A file's name and its bytes.
    pub name: &'a str,
    pub input: &'a [u8],
    /// Perhaps another file.
    pub other: Option<(&'a str, &'a [u8])>,
    /// How many bytes a read and a write take.
    pub most_read: u32,
    pub most_written: u32,
    /// The room for documents, in bytes of their names and texts.
    pub room: u32,
    /// The calls that fail; those of a message are counted from 1.
    pub unread: Option<InCall>,
    pub unwritten: Option<OutCall>,
    pub unsaid: Option<u64>,
    /// How the run is to end.
    pub status: u8,
    /// The names and the texts of the documents that are to be there.
    pub documents: &'a [(&'a str, &'a str)],
    /// Whether the last one of them isn't whole.
    pub cut_off: bool,
    /// All messages.
    pub said: &'a str,
}

/// A run over an empty standard input where no call fails, which writes nothing and says nothing.
pub const PLAIN: Case<'static> = Case {
    words: "",
    in_front: "",
    name: "-",
    input: b"",
    other: None,
    most_read: 4096,
    most_written: 4096,
    room: 1_000_000,
    unread: None,
    unwritten: None,
    unsaid: None,
    status: 0,
    documents: &[],
    cut_off: false,
    said: "",
};

/// The points and the polygons document of a page of one black pixel, and the points document of one white pixel.
pub const PIXEL: &str = "points 1 1 1\n+ 1 0,1 0,0 1,0 1,1\n";

pub const PIXEL_POLYGON: &str = "polygons 1 1 1\n+ 1 4 4 0: 0 1 2 3\n";

pub const WHITE: &str = "points 1 1 0\n";

/// What a run did.
#[derive(Drop)]
pub struct Done {
    pub status: u8,
    pub outs: MemOutputs,
    pub errs: MemSink,
}

/// What a run is given, but for where its messages go.
#[derive(Drop)]
pub struct Outside {
    pub words: Vec<String>,
    pub inputs: MemInputs,
    pub outs: MemOutputs,
}

impl<'a> Case<'a> {
    /// What the run did, or want of memory before it. Each page passes the gate.
    pub fn done<R: Threads + Sync>(
        &self,
        rt: &R,
        alloc: Global,
        gate: &HoldsFirst,
    ) -> Result<Done, NoMemory> {
        let mut errs = self.errs(alloc)?;
        let (status, outs) = self.done_saying(rt, alloc, gate, &mut errs)?;
        Ok(Done { status, outs, errs })
    }

    /// The status and the outputs of a run that says its messages to this sink.
    pub fn done_saying<R: Threads + Sync, E: Sink>(
        &self,
        rt: &R,
        alloc: Global,
        gate: &HoldsFirst,
        errs: &mut E,
    ) -> Result<(u8, MemOutputs), NoMemory>
        requires { E.is_ready errs.old ≡ true }
    {
        let mut outside = self.outside(alloc)?;
        let status = status_of(rt, alloc, &mut outside, errs, gate);
        Ok((status, outside.outs))
    }

    /// What the run is given.
    pub fn outside(&self, alloc: Global) -> Result<Outside, NoMemory>
        ensures { IfOk result (λ outside. is_some outside.outs.documents.last_open ≡ false) }
    {
        let words = self.all_words(alloc)?;
        let inputs = self.inputs(alloc)?;
        let outs = self.outs(alloc)?;
        Ok(Outside {
            words,
            inputs,
            outs,
        })
    }

    fn all_words(&self, alloc: Global) -> Result<Vec<String>, NoMemory> {
        let mut words = split(alloc, self.in_front)?;
        words.append(&mut split(alloc, self.words)?)?;
        Ok(words)
    }

    fn inputs(&self, alloc: Global) -> Result<MemInputs, NoMemory> {
        let file = named(alloc, self.name, self.input)?;
        let most = self.most_read.max(1);
        let unread = listed(alloc, self.unread)?;
        match self.other {
            Some((name, input)) if name != self.name => {
                let other = named(alloc, name, input)?;
                let files = vec![in alloc; file, other]?;
                Ok(MemInputs::new(files, most, unread))
            }
            _ => Ok(MemInputs::new(vec![in alloc; file]?, most, unread)),
        }
    }

    fn outs(&self, alloc: Global) -> Result<MemOutputs, NoMemory>
        ensures { IfOk result (λ outs. is_some outs.documents.last_open ≡ false) }
    {
        let unwritten = listed(alloc, self.unwritten)?;
        MemOutputs::new(
            alloc,
            self.most_written.max(1),
            unwritten,
            65_537,
            self.room,
        )
    }

    /// Where the messages go.
    pub fn errs(&self, alloc: Global) -> Result<MemSink, NoMemory> {
        let unsaid = listed(alloc, self.unsaid)?;
        MemSink::new(alloc, self.most_written.max(1), unsaid, 1000)
    }

    /// Runs, and looks at all that came of it.
    pub fn check<R: Threads + Abort + Sync>(&self, rt: &R, alloc: Global) -> Result<(), NoMemory> {
        let done = self.done(rt, alloc, &HoldsFirst::open())?;
        self.expect(rt, &done);
        Ok(())
    }

    /// Runs by 1, 2, 7 and 64 workers, for whom the same is to come.
    pub fn check_by_all<R: Threads + Abort + Sync>(
        &self,
        rt: &R,
        alloc: Global,
    ) -> Result<(), NoMemory> {
        for in_front in ["--workers 1", "--workers 2", "--workers 7", "--workers 64"] {
            Case { in_front, ..*self }.check(rt, alloc)?;
        }
        Ok(())
    }

    /// Looks at all that came of a run.
    pub fn expect(&self, rt: &impl Abort, done: &Done) {
        assert_eq!(rt; self.amiss(done), "", "{} {}", self.in_front, self.words);
    }

    /// What isn't as it is to come of a run; nothing where all is.
    pub fn amiss(&self, done: &Done) -> &'static str {
        if done.errs.text() == self.said.as_bytes() {
            self.amiss_outside(done.status, &done.outs)
        } else {
            "messages"
        }
    }

    /// The same, but for the messages.
    pub fn amiss_outside(&self, status: u8, outs: &MemOutputs) -> &'static str {
        if status != self.status {
            "status"
        } else if outs.count() as usize != self.documents.len() {
            "number of documents"
        } else if self.has_documents(outs) {
            ""
        } else {
            "documents"
        }
    }

    fn has_documents(&self, outs: &MemOutputs) -> bool {
        for (i, (name, text)) in self.documents.iter().enumerate() {
            let whole = !self.cut_off || i < self.documents.len() - 1;
            if document_at(outs, i) != Some((name.as_bytes(), text.as_bytes(), whole)) {
                return false;
            }
        }
        true
    }
}

/// How a run ended.
fn status_of<R: Threads + Sync, E: Sink>(
    rt: &R,
    alloc: Global,
    outside: &mut Outside,
    errs: &mut E,
    gate: &HoldsFirst,
) -> u8
    requires closed { is_some outside.old.outs.documents.last_open ≡ false }
    requires ready { E.is_ready errs.old ≡ true }
{
    run(
        rt,
        alloc,
        &outside.words,
        &mut outside.inputs,
        &mut outside.outs,
        errs,
        gate,
    )
}

/// The name, the text and whether it is whole, of the document in this place.
pub fn document_at(outs: &MemOutputs, place: usize) -> Option<(&[u8], &[u8], bool)> {
    if place < outs.count() as usize {
        let i = place as u32;
        Some((outs.name(i), outs.text(i), outs.whole(i)))
    } else {
        None
    }
}

/// Runs each case by 1, 2, 7 and 64 workers.
pub fn check_all<R: Threads + Abort + Sync>(
    rt: &R,
    alloc: Global,
    cases: &[Case],
) -> Result<(), NoMemory> {
    for case in cases {
        case.check_by_all(rt, alloc)?;
    }
    Ok(())
}

/// Words, standard input, and the documents.
pub type Page = (
    &'static str,
    &'static [u8],
    &'static [(&'static str, &'static str)],
);

/// Runs over pages which have nothing to say.
pub fn check_pages<R: Threads + Abort + Sync>(
    rt: &R,
    alloc: Global,
    pages: &[Page],
) -> Result<(), NoMemory> {
    for (words, input, documents) in pages {
        Case {
            words,
            input,
            documents,
            ..PLAIN
        }
        .check(rt, alloc)?;
    }
    Ok(())
}
