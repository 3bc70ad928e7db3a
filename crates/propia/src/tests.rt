use super::*;
use pp_io::{Sink, Source};
use std::test::Fail;

#[test]
fn standard_output_takes_no_bytes(rt: HostRuntime) -> Result<(), Fail> {
    let mut sink = StdoutSink::new(rt.stdout());
    assert!(rt; sink.write(b"").is_ok());
    Ok(())
}

#[test]
fn standard_input_fills_no_buffer(rt: HostRuntime) -> Result<(), Fail> {
    let mut source = StdinSource::new(rt.stdin());
    let mut empty: [u8; 0] = [];
    assert!(rt; source.read(&mut empty).is_ok());
    Ok(())
}
