//! The outside in memory. Clauses say what each call does, but not that there is enough memory.

use mem_outside::{InCall, MemInputs, MemOutputs, MemSink, NamedBytes, OutCall};
use pt_base::write_whole;
use pt_core::{DeviceFault, Inputs, Outputs, Sink};
use std::test::Fail;

#[test]
fn sinks(rt: HostRuntime) -> Result<(), Fail> {
    let mut sink = MemSink::new(rt.alloc(), 2, vec![in rt.alloc(); 2]?, 4)?;
    let first = sink.write(b"abc");
    let listed = sink.write(b"c");
    let third = sink.write(b"cde");
    assert_eq!(rt; (first, listed, third), (Ok(2), Err(DeviceFault), Ok(2)));
    assert_eq!(rt; sink.text(), b"abcd".as_slice());
    Ok(())
}

#[test]
fn documents(rt: HostRuntime) -> Result<(), Fail> {
    let fails = vec![in rt.alloc(); OutCall::Write(3)]?;
    let mut outs = MemOutputs::new(rt.alloc(), 3, fails, 3, 20)?;
    outs.begin("a")?;
    let written = write_whole(&mut outs, b"first");
    let ended = outs.end();
    let count = outs.count();
    assert_eq!(rt; (written.is_ok(), ended, count), (true, Ok(()), 1));
    Ok(())
}

#[test]
fn files(rt: HostRuntime) -> Result<(), Fail> {
    let file = NamedBytes {
        name: String::from_str(rt.alloc(), "a.pbm")?,
        bytes: Vec::from_slice(rt.alloc(), b"P1 1")?,
    };
    let files = vec![in rt.alloc(); file]?;
    let mut inputs = MemInputs::new(files, 3, vec![in rt.alloc(); InCall::Read(2)]?);
    let mut buf = [0; 8];
    inputs.open("a.pbm")?;
    let first = inputs.read(&mut buf);
    let listed = inputs.read(&mut buf);
    assert_eq!(rt; (first, listed), (Ok(3), Err(DeviceFault)));
    Ok(())
}
