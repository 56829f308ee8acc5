//! Short reads and writes, and failures at each call.
ghost use Rattle.std.specs.Prelude.{◌≡◌, ◌<◌, ◌++◌, length, take, IfOk, OnOk};

use crate::checks::expect_row;
use base_streams::memory::{Sink, Source};
use base_streams::ports::{Inlet, IoFault};
use base_streams::std_io::{StdInlet, StdOutlet};
use base_streams::writing::write_all;
use base_test_kit::fakes::Slow;
use std::alloc::{AllocError, Global};

// How reading ended, if it did.
#[derive(Clone, Copy, PartialEq, Eq)]
enum End {
    Whole,
    Failed,
    Never,
}

// Reads to the end or a failure.
fn read_all<I: Inlet>(from: &mut I, held: &mut Vec<u8>) -> Result<End, AllocError> {
    let mut buffer = [0u8; 4];
    for _ in 0..100 {
        match from.read(&mut buffer) {
            Ok(0) => return Ok(End::Whole),
            Ok(count) => held.extend_from_slice(&buffer[..count])?,
            Err(IoFault) => return Ok(End::Failed),
        }
    }
    Ok(End::Never)
}

// Whether these bytes are read, with this end.
fn reads<I: Inlet>(
    alloc: Global,
    from: &mut I,
    bytes: &[u8],
    end: End,
) -> Result<bool, AllocError> {
    let mut held = Vec::new(alloc);
    let is_end = read_all(from, &mut held)? == end;
    Ok(is_end && held.as_slice() == bytes)
}

// How many bytes at most a sink takes a call, for how many calls, and what it has of `hello` then.
const SINKS: [(usize, u64, &[u8]); 12] = [
    (1, 0, b""),
    (1, 1, b"h"),
    (1, 2, b"he"),
    (1, 100, b"hello"),
    (3, 0, b""),
    (3, 1, b"hel"),
    (3, 2, b"hello"),
    (3, 100, b"hello"),
    (100, 0, b""),
    (100, 1, b"hello"),
    (100, 2, b"hello"),
    (100, 100, b"hello"),
];

fn sink_takes(alloc: Global, most: usize, calls: u64, bytes: &[u8]) -> bool {
    let mut sink = Sink::new(alloc, most, calls);
    let is_written = write_all(&mut sink, b"hello").is_ok();
    is_written == (bytes.len() == 5) && sink.as_slice() == bytes
}

#[test]
fn sinks(rt: HostRuntime) {
    for (row, (most, calls, bytes)) in SINKS.iter().enumerate() {
        let takes = sink_takes(rt.alloc(), *most, *calls, bytes);
        expect_row(&rt, takes, row);
    }
}

// How many bytes at most a source of `hello` gives a call, for how many calls, what is read of it in
// fours, and the end.
const SOURCES: [(usize, u64, &[u8], End); 12] = [
    (1, 0, b"", End::Failed),
    (1, 1, b"h", End::Failed),
    (1, 2, b"he", End::Failed),
    (1, 100, b"hello", End::Whole),
    (3, 0, b"", End::Failed),
    (3, 1, b"hel", End::Failed),
    (3, 2, b"hello", End::Failed),
    (3, 100, b"hello", End::Whole),
    (100, 0, b"", End::Failed),
    (100, 1, b"hell", End::Failed),
    (100, 2, b"hello", End::Failed),
    (100, 100, b"hello", End::Whole),
];

fn source_gives(
    alloc: Global,
    most: usize,
    calls: u64,
    bytes: &[u8],
    end: End,
) -> Result<bool, AllocError> {
    let mut source = Source::new(b"hello".to_vec(alloc)?, most, calls);
    reads(alloc, &mut source, bytes, end)
}

#[test]
fn sources(rt: HostRuntime) {
    for (row, (most, calls, bytes, end)) in SOURCES.iter().enumerate() {
        let gives = source_gives(rt.alloc(), *most, *calls, bytes, *end);
        expect_row(&rt, matches!(gives, Ok(true)), row);
    }
}

// A read of no bytes is the end, so what may give none fails.
#[test]
fn sources_of_none(rt: HostRuntime) {
    let gives = source_gives(rt.alloc(), 0, 100, b"", End::Failed);
    assert!(rt; matches!(gives, Ok(true)));
}

// Over a slice the clauses of a read name the slice's bytes.
fn read_slice(from: &mut StdInlet<&[u8]>, buffer: &mut [u8]) -> Result<usize, IoFault>
    requires { 0 < length buffer.old }
    ensures { IfOk result (λ n. from.old.reader.now ≡ take n buffer.new ++ from.new.reader.now) }
{
    from.read(buffer)
}

// Over a vector the clauses of a write name the vector's bytes.
fn write_vec(to: &mut StdOutlet<Vec<u8>>, bytes: &[u8]) -> Result<(), IoFault>
    ensures { OnOk result (to.new.writer.items ≡ to.old.writer.items ++ bytes.now) }
{
    write_all(to, bytes)
}

fn reads_slice() -> bool {
    let mut inlet = StdInlet::new(b"hello".as_slice());
    let mut buffer = [0u8; 4];
    read_slice(&mut inlet, &mut buffer) == Ok(4) && buffer.as_slice() == b"hell".as_slice()
}

fn writes_vec(alloc: Global) -> bool {
    let mut outlet = StdOutlet::new(Vec::new(alloc));
    let are_written = write_vec(&mut outlet, b"hell").is_ok()
        && write_vec(&mut outlet, b"o").is_ok();
    are_written && outlet.into_inner().as_slice() == b"hello".as_slice()
}

#[test]
fn told_bytes(rt: HostRuntime) {
    assert!(rt; reads_slice(), "a slice");
    assert!(rt; writes_vec(rt.alloc()), "a vector");
}

fn std_reads(alloc: Global) -> Result<bool, AllocError> {
    let mut inlet = StdInlet::new(b"hello".as_slice());
    reads(alloc, &mut inlet, b"hello", End::Whole)
}

fn std_writes(alloc: Global) -> bool {
    let mut outlet = StdOutlet::new(Vec::new(alloc));
    let is_written = write_all(&mut outlet, b"hello").is_ok();
    is_written && outlet.into_inner().as_slice() == b"hello".as_slice()
}

#[test]
fn std_ports(rt: HostRuntime) {
    assert!(rt; matches!(std_reads(rt.alloc()), Ok(true)), "a reader");
    assert!(rt; std_writes(rt.alloc()), "a writer");
}

fn slow_reads(alloc: Global, fails: bool, end: End) -> Result<bool, AllocError> {
    let mut inlet = StdInlet::new(Slow {
        rest: b"hello",
        piece: 2,
        is_interrupted: false,
        fails,
    });
    reads(alloc, &mut inlet, b"hello", end)
}

// What was interrupted is tried again, and only then is a failure one.
#[test]
fn interrupted_reads_are_tried_again(rt: HostRuntime) {
    for (fails, end) in [(false, End::Whole), (true, End::Failed)] {
        let reads = slow_reads(rt.alloc(), fails, end);
        assert!(rt; matches!(reads, Ok(true)), "fails: {fails}");
    }
}
