//! The exit numbers, and a writer that can't be flushed.
use crate::checks::expect_row;
use crate::engines::words::Word;
use cli_io::report::flush_report;
use cli_io::status::Status;
use std::alloc::Global;
use std::io;
use std::io::{ErrorKind, Write};

const NUMBERS: [(Status, u8); 5] = [
    (Status::Success, 0),
    (Status::Refused, 1),
    (Status::Usage, 2),
    (Status::OutOfMemory, 3),
    (Status::Failed, 4),
];

#[test]
fn statuses_have_their_numbers(rt: HostRuntime) {
    for (row, (status, number)) in NUMBERS.iter().enumerate() {
        expect_row(&rt, status.number() == *number, row);
    }
}

/// A writer that takes everything and fails when it is flushed.
#[derive(Drop)]
struct Unflushed;

impl Write for Unflushed {
    fn write(&mut self, buf: &[u8]) -> io::Result<usize> {
        Ok(buf.len())
    }

    fn flush(&mut self) -> io::Result<()> {
        Err(io::Error::from(ErrorKind::BrokenPipe))
    }
}

#[test]
fn a_writer_that_cannot_be_flushed_has_failed(rt: HostRuntime) {
    let (status, mut writer) = Word::Step.run(rt.alloc(), b"76".as_slice(), Unflushed);
    let flushed = flush_report(status, &mut writer);
    assert!(rt; (status, flushed) == (Status::Success, Status::Failed));
}

fn flushed(alloc: Global, status: Status) -> Status {
    let mut written = Vec::<u8>::new(alloc);
    let flushed = flush_report(status, &mut written);
    drop(written);
    flushed
}

#[test]
fn a_writer_that_is_flushed_leaves_the_status(rt: HostRuntime) {
    for (row, status) in [Status::Success, Status::Refused, Status::OutOfMemory]
        .iter()
        .enumerate()
    {
        expect_row(&rt, flushed(rt.alloc(), *status) == *status, row);
    }
}
