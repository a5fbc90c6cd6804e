//! Real files and streams. No clause says what they contain.

use pt_base::{ErrSink, FileInputs, FileOutputs, write_whole};
use pt_core::{DeviceFault, Inputs, OpenFault, Outputs};
use std::test::Fail;

const TEXT: &[u8] = b"P1 1 1 1\n";

#[test]
fn what_is_written_is_read(rt: HostRuntime) -> Result<(), Fail> {
    let mut outs = FileOutputs::new(&rt);
    outs.begin("page.txt")?;
    let written = write_whole(&mut outs, TEXT);
    outs.end()?;

    let mut inputs = FileInputs::new(&rt);
    let mut buf = [0; 16];
    inputs.open("page.txt")?;
    let count = inputs.read(&mut buf);
    assert_eq!(rt; (written.is_ok(), count), (true, Ok(9)));
    assert_eq!(rt; &buf[..9], TEXT);
    Ok(())
}

#[test]
fn files_that_are_not_there(rt: HostRuntime) {
    let began = FileOutputs::new(&rt).begin("no/such/folder");
    let opened = FileInputs::new(&rt).open("absent.txt");
    assert_eq!(rt; (began, opened), (Err(DeviceFault), Err(OpenFault::Device)));
}

#[test]
fn standard_error(rt: HostRuntime) {
    let mut errs = ErrSink::new(rt.stderr());
    let said = write_whole(&mut errs, b"potrace: a line of a test\n");
    assert_eq!(rt; said, Ok(()));
}
