//! Input and reports over readers and writers that give and take little at a time, and that fail.
use crate::checks::expect_row;
use base_streams::memory::Sink;
use base_streams::std_io::{StdInlet, StdOutlet};
use base_test_kit::fakes::{Narrow, Slow};
use cli_io::reading::{HexFault, TextFault, read_all, read_hex, read_text};
use cli_io::report::{Report, deliver, hex_refusal, refusal, text_refusal};
use cli_io::status::Status;
use std::alloc::{AllocError, Global};

// A reader that gives one byte at a time, and is interrupted before each.
fn slow(bytes: &[u8], fails: bool) -> StdInlet<Slow<'_>> {
    StdInlet::new(Slow {
        rest: bytes,
        piece: 1,
        is_interrupted: false,
        fails,
    })
}

/// What is read of hexadecimal text: bytes, or why it is refused.
type FoundHex = Result<&'static [u8], HexFault>;

fn is_hex(alloc: Global, text: &[u8], fails: bool, wanted: FoundHex) -> bool {
    match (read_hex(alloc, &mut slow(text, fails)), wanted) {
        (Ok(bytes), Ok(wanted)) => bytes.as_slice() == wanted,
        (Err(fault), Err(wanted)) => fault == wanted,
        _ => false,
    }
}

/// A text, whether the reader fails behind it, and its bytes or why it is refused.
const HEX: [(&[u8], bool, FoundHex); 4] = [
    (b"3E 6c\t0\r\n8", false, Ok(b"\x3e\x6c\x08")),
    (b"3E 6G", false, Err(HexFault::BadHex)),
    (b"3E 6", false, Err(HexFault::BadHex)),
    (b"3E 6", true, Err(HexFault::Read)),
];

#[test]
fn hexadecimal_text_is_read_byte_by_byte(rt: HostRuntime) {
    for (row, (text, fails, wanted)) in HEX.iter().enumerate() {
        expect_row(&rt, is_hex(rt.alloc(), text, *fails, *wanted), row);
    }
}

// Whether all of the input is read, and where the reader fails behind it nothing.
fn is_read_whole(alloc: Global, bytes: &[u8], fails: bool) -> bool {
    match read_all(alloc, &mut slow(bytes, fails)) {
        Ok(read) => !fails && read.as_slice() == bytes,
        Err(status) => fails && status == Status::Failed,
    }
}

#[test]
fn all_of_the_input_is_read_byte_by_byte(rt: HostRuntime) {
    expect_row(
        &rt,
        is_read_whole(rt.alloc(), b"any \xff bytes\n", false),
        0,
    );
    expect_row(&rt, is_read_whole(rt.alloc(), b"any", true), 1);
}

// What a writer takes of a refusal that has so much room, and the status.
fn delivered(alloc: Global, room: usize) -> Result<(Status, Vec<u8>), AllocError> {
    let report = refusal(alloc, "wrong\n")?;
    let mut writer = StdOutlet::new(Narrow {
        bytes: Vec::new(alloc),
        room,
    });
    let status = deliver(&mut writer, &report);
    drop(report);
    Ok((status, writer.into_inner().bytes))
}

// Whether a refusal is answered so by a writer that has so much room, and takes it up.
fn is_delivered(alloc: Global, room: usize, wanted: Status) -> Result<bool, AllocError> {
    let (status, taken) = delivered(alloc, room)?;
    let is_front = taken.len() == room && b"wrong\n".starts_with(taken.as_slice());
    drop(taken);
    Ok(status == wanted && is_front)
}

// Whether a writer that takes everything gets this line of a report, and this is the status, which may stand
// in place of the report.
fn is_told(alloc: Global, report: Result<Report, Status>, line: &str, wanted: Status) -> bool {
    let mut written = Sink::new(alloc, usize::MAX, u64::MAX);
    let status = match &report {
        Ok(report) => deliver(&mut written, report),
        Err(status) => *status,
    };
    drop(report);
    let is_line = written.as_slice() == line.as_bytes();
    drop(written);
    status == wanted && is_line
}

// Whether an answer is written whole.
fn is_written(alloc: Global, text: &str) -> Result<bool, AllocError> {
    let answer = Report {
        is_refused: false,
        text: String::from_str(alloc, text)?,
    };
    Ok(is_told(alloc, Ok(answer), text, Status::Success))
}

#[test]
fn a_report_is_written_byte_by_byte(rt: HostRuntime) -> Result<(), AllocError> {
    expect_row(&rt, is_delivered(rt.alloc(), 6, Status::Refused)?, 0);
    expect_row(&rt, is_delivered(rt.alloc(), 5, Status::Failed)?, 1);
    expect_row(&rt, is_written(rt.alloc(), "right\n")?, 2);
    Ok(())
}

const HEX_FAULTS: [(HexFault, &str, Status); 4] = [
    (HexFault::BadHex, "bad hex\n", Status::Refused),
    (HexFault::PastEnd, "past end\n", Status::Refused),
    (HexFault::OutOfMemory, "", Status::OutOfMemory),
    (HexFault::Read, "", Status::Failed),
];

#[test]
fn a_refused_input_has_one_line_or_a_status(rt: HostRuntime) {
    for (row, (fault, line, status)) in HEX_FAULTS.iter().enumerate() {
        let report = hex_refusal(rt.alloc(), *fault);
        expect_row(&rt, is_told(rt.alloc(), report, line, *status), row);
    }
}

// What a text that is read is, in words.
fn found(read: &Result<Option<String>, TextFault>) -> &str {
    match read {
        Ok(Some(text)) => text.as_str(),
        Ok(None) => "is too long",
        Err(TextFault::BadText) => "is no text",
        Err(TextFault::OutOfMemory) => "is out of memory",
        Err(TextFault::Read) => "isn't read",
    }
}

fn is_read(alloc: Global, bytes: &[u8], fails: bool, wanted: &str) -> bool {
    let read = read_text(alloc, 4, &mut slow(bytes, fails));
    let is_found = found(&read) == wanted;
    drop(read);
    is_found
}

/// Bytes, whether the reader fails behind them, and what they are where 4 bytes may be.
const TEXTS: [(&[u8], bool, &str); 10] = [
    (b"text", false, "text"),
    (b"", false, ""),
    (b"texts", false, "is too long"),
    (b"tex\xc3\xa4", false, "is too long"),
    (b"text\xc3\xa4", false, "is too long"),
    (b"t\xff", false, "is no text"),
    (b"text\xff", true, "is no text"),
    (b"text\xc3", false, "is no text"),
    (b"text\xc3", true, "isn't read"),
    (b"t", true, "isn't read"),
];

#[test]
fn text_is_read_up_to_its_limit(rt: HostRuntime) {
    for (row, (bytes, fails, wanted)) in TEXTS.iter().enumerate() {
        expect_row(&rt, is_read(rt.alloc(), bytes, *fails, wanted), row);
    }
}

const TEXT_FAULTS: [(TextFault, &str, Status); 3] = [
    (TextFault::BadText, "bad text\n", Status::Refused),
    (TextFault::OutOfMemory, "", Status::OutOfMemory),
    (TextFault::Read, "", Status::Failed),
];

#[test]
fn refused_text_has_one_line_or_a_status(rt: HostRuntime) {
    for (row, (fault, line, status)) in TEXT_FAULTS.iter().enumerate() {
        let report = text_refusal(rt.alloc(), *fault);
        expect_row(&rt, is_told(rt.alloc(), report, line, *status), row);
    }
}
