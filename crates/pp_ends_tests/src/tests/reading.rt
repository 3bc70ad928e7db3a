//! Reading all of a source.
ghost use Rattle.std.specs.Prelude.{◌≤◌};

use super::{counted, only};
use pp_io::{MemorySource, ReadError, Source, SteadySource, read_all};
use std::alloc::Global;
use std::process::Abort;

/// How many bytes are read.
fn read_count(alloc: Global, source: &mut impl Source, limit: usize) -> Result<usize, ReadError>
    requires { limit ≤ 5000 }
{
    match read_all(alloc, source, limit) {
        Ok(bytes) => Ok(bytes.len()),
        Err(error) => Err(error),
    }
}

/// A source of `source.0` bytes in pieces of `source.1`, whose call `source.2` fails, read up to a limit: how many bytes are
/// read, and how many are left after that.
fn expect(
    rt: &impl Abort,
    alloc: Global,
    source: (usize, usize, u64),
    limit: usize,
    answer: Result<usize, ReadError>,
    left: usize,
)
    requires piece { 1 ≤ source.1 }
    requires limit { limit ≤ 5000 }
{
    let length = source.0;
    let bytes = counted(rt, alloc, length);
    let mut source = MemorySource::new(bytes, source.1, only(rt, alloc, source.2));
    assert_eq!(rt; read_count(alloc, &mut source, limit), answer);
    let rest = read_all(alloc, &mut source, 5_000).expect(rt, "the rest");
    assert_eq!(rt; rest.len(), left);
    assert!(rt; counted(rt, alloc, length).ends_with(&rest));
}

#[test]
fn reads_all_within_the_limit(rt: HostRuntime) {
    let alloc = rt.alloc();
    expect(&rt, alloc, (10, 3, 9), 10, Ok(10), 0);
    expect(&rt, alloc, (10, 3, 9), 9, Err(ReadError::TooLong), 0);
    expect(&rt, alloc, (10, 3, 9), 5, Err(ReadError::TooLong), 4);
    expect(&rt, alloc, (10, 3, 2), 10, Err(ReadError::Fault), 7);
    expect(
        &rt,
        alloc,
        (5_000, 5_000, 2),
        5_000,
        Err(ReadError::Fault),
        904,
    );
    expect(&rt, alloc, (0, 1, 9), 0, Ok(0), 0);
}

/// Ten bytes in pieces of three, read from a source whose call `failing` fails.
fn ten(rt: &impl Abort, alloc: Global, failing: u64) -> Result<Vec<u8>, ReadError> {
    let bytes = counted(rt, alloc, 10);
    let mut source = MemorySource::new(bytes, 3, only(rt, alloc, failing));
    read_all(alloc, &mut source, 10)
}

#[test]
fn ten_bytes_in_pieces_of_three_take_five_reads(rt: HostRuntime) {
    let alloc = rt.alloc();
    assert_eq!(rt; ten(&rt, alloc, 5), Err(ReadError::Fault));
    let bytes = ten(&rt, alloc, 6).expect(&rt, "all");
    assert_eq!(rt; bytes, counted(&rt, alloc, 10));
}

#[test]
fn a_steady_source_is_read_whole(rt: HostRuntime) {
    let alloc = rt.alloc();
    let mut steady = SteadySource::new(counted(&rt, alloc, 10), 3);
    let bytes = read_all(alloc, &mut steady, 10).expect(&rt, "all");
    assert_eq!(rt; bytes, counted(&rt, alloc, 10));
}
