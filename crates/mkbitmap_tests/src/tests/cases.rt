//! Runs of `mkbitmap` over standard input in memory, with their expected results.
use mem_outside::{InCall, MemInputs, MemOutputs, MemSink, OutCall};
use mkbitmap_run::mk_run;
use page_samples::{first_of, listed, named, split};
use pt_core::NoMemory;
use std::alloc::Global;
use std::process::Abort;
use std::test::Fail;

/// A run and its expected results.
#[derive(Clone, Copy)]
pub struct Case<'a> {
    /// The command-line arguments, with a space between them.
    pub words: &'a str,
    /// The name of the only file, and its bytes.
    pub name: &'a str,
    pub input: &'a [u8],
    /// The most bytes of one read or write.
    pub most: u32,
    /// The calls that fail. Calls of a message are counted from 1.
    pub unread: Option<InCall>,
    pub unwritten: Option<OutCall>,
    pub unsaid: Option<u64>,
    /// The expected exit status.
    pub status: u8,
    /// The expected document, and whether it is whole.
    pub document: Option<(&'a [u8], bool)>,
    /// The expected message.
    pub said: &'a str,
}

/// A page of two pixels, and the result at twice the size.
pub const TWO: &[u8] = b"P2 2 1 1 0 1\n";

pub const TWO_TWICE: &[u8] = b"P4\n4 2\n\xc0\xc0";

/// A run over that page in which no call fails and no document is expected.
pub const PLAIN: Case<'static> = Case {
    words: "--box 0 --level 0.5",
    name: "-",
    input: TWO,
    most: 4096,
    unread: None,
    unwritten: None,
    unsaid: None,
    status: 0,
    document: None,
    said: "",
};

impl<'a> Case<'a> {
    /// Makes the run and checks all results.
    pub fn check(&self, rt: &impl Abort, alloc: Global) -> Result<(), Fail> {
        let words = split(alloc, self.words)?;
        let mut inputs = self.inputs(alloc)?;
        let most = self.most.max(1);
        let mut outs = MemOutputs::new(alloc, most, listed(alloc, self.unwritten)?, 2, 100_000)?;
        let mut errs = MemSink::new(alloc, most, listed(alloc, self.unsaid)?, 1000)?;
        let status = mk_run(alloc, &words, &mut inputs, &mut outs, &mut errs);
        assert_eq!(rt;
            (status, errs.text(), first_of(&outs)),
            (self.status, self.said.as_bytes(), self.document),
            "{:?}",
            self.input
        );
        Ok(())
    }

    fn inputs(&self, alloc: Global) -> Result<MemInputs, NoMemory> {
        let file = named(alloc, self.name, self.input)?;
        let unread = listed(alloc, self.unread)?;
        Ok(MemInputs::new(vec![in alloc; file]?, self.most.max(1), unread))
    }
}

/// Checks each case.
pub fn check_all(rt: &impl Abort, alloc: Global, cases: &[Case]) -> Result<(), Fail> {
    for case in cases {
        case.check(rt, alloc)?;
    }
    Ok(())
}
