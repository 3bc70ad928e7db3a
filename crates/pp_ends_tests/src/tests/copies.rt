//! Copied ends go on as their originals would.
use super::{counted, only};
use pp_io::{
    Failed, MemorySink, MemorySource, Sink, Source, SteadySink, SteadySource, read_all, write_all,
};

#[test]
fn a_copied_memory_source_fails_alike(rt: HostRuntime) {
    let alloc = rt.alloc();
    let source = MemorySource::new(counted(&rt, alloc, 10), 10, only(&rt, alloc, 2));
    let mut copy = source.copy().expect(&rt, "memory");
    let mut block = [0u8; 4];
    assert_eq!(rt; copy.read(&mut block), Ok(4));
    assert_eq!(rt; copy.read(&mut block), Err(Failed));
}

#[test]
fn a_copied_memory_sink_fails_alike(rt: HostRuntime) {
    let alloc = rt.alloc();
    let sink = MemorySink::new(alloc, 3, only(&rt, alloc, 2));
    let mut copy = sink.copy().expect(&rt, "memory");
    assert_eq!(rt; copy.write(b"abcd"), Ok(3));
    assert_eq!(rt; copy.write(b"d"), Err(Failed));
}

#[test]
fn a_copied_steady_source_gives_the_rest(rt: HostRuntime) {
    let alloc = rt.alloc();
    let mut source = SteadySource::new(counted(&rt, alloc, 10), 3);
    let mut block = [0u8; 4];
    assert_eq!(rt; source.read(&mut block), Ok(3));
    let mut copy = source.copy().expect(&rt, "memory");
    assert_eq!(rt;
        read_all(alloc, &mut copy, 10).expect(&rt, "the rest").len(),
        7
    );
}

#[test]
fn a_copied_steady_sink_keeps_its_room(rt: HostRuntime) {
    let mut sink = SteadySink::new(rt.alloc(), 4).expect(&rt, "memory");
    assert_eq!(rt; write_all(&mut sink, b"abc"), Ok(()));
    let mut copy = sink.copy().expect(&rt, "memory");
    assert_eq!(rt; write_all(&mut copy, b"d"), Ok(()));
    assert_eq!(rt; copy.bytes(), b"abcd".as_slice());
}
