//! The engines over readers that give little at a time, are interrupted, and fail. What they answer to whole
//! inputs, and what a writer without room gets of it, are tables of the clients.
use crate::checks::expect_row;
use crate::engines::words::Word;
use base_test_kit::fakes::Slow;
use cli_io::status::Status;
use std::alloc::{AllocError, Global};

const SUM: &str = "PC=0002 A=6C F=02 B=00 C=00 D=00 E=00 H=00 L=00 SP=0000
PC=0004 A=6C F=02 B=2E C=00 D=00 E=00 H=00 L=00 SP=0000
PC=0005 A=9A F=96 B=2E C=00 D=00 E=00 H=00 L=00 SP=0000
PC=0006 A=9A F=96 B=2E C=00 D=00 E=00 H=00 L=00 SP=0000
halted
";

const FIVE: &str = "X: MVI A,5\nHLT\nEND X\n";

const FIVE_ENDS: &str = "0000: 3E 05 76
start 0000
PC=0003 A=05 F=02 B=00 C=00 D=00 E=00 H=00 L=00 SP=0000
halted
";

const BYTES: &str = "3E 6C 08 CF";

const LISTING: &str = "ORG 00100H
MVI A,06CH
DB 008H
RST 1
";

const AT_100H: Word = Word::Dis(0x0100);

// One byte more than a text may have, and what follows.
fn long_text(alloc: Global, tail: &[u8]) -> Result<Vec<u8>, AllocError> {
    let mut bytes = vec![in alloc; b';'; 1_048_577]?;
    bytes.extend_from_slice(tail)?;
    Ok(bytes)
}

fn is_read(alloc: Global, word: Word, reader: Slow<'_>, wanted: Status, text: &[u8]) -> bool {
    let (status, written) = word.run(alloc, reader, Vec::new(alloc));
    let is_text = written.as_slice() == text;
    drop(written);
    status == wanted && is_text
}

/// What follows one byte more than a text may have, the status, and the answer.
const TAILS: [(&[u8], Status, &[u8]); 6] = [
    (b";", Status::Failed, b""),
    (b"\xe2\x82", Status::Failed, b""),
    (b"\xff", Status::Refused, b"bad text\n"),
    (b"\xe2\x28", Status::Refused, b"bad text\n"),
    (b"\xe0\x9f", Status::Refused, b"bad text\n"),
    (b"\xf4\x90", Status::Refused, b"bad text\n"),
];

fn is_tail_told(
    alloc: Global,
    tail: &[u8],
    wanted: Status,
    line: &[u8],
) -> Result<bool, AllocError> {
    let input = long_text(alloc, tail)?;
    let reader = Slow {
        rest: input.as_slice(),
        piece: 4096,
        is_interrupted: false,
        fails: true,
    };
    Ok(is_read(alloc, Word::Asm, reader, wanted, line))
}

// The reader would fail behind the first byte that no text has there.
#[test]
fn bad_text_past_the_limit_is_told_at_once(rt: HostRuntime) -> Result<(), AllocError> {
    for (row, (tail, status, line)) in TAILS.iter().enumerate() {
        expect_row(&rt, is_tail_told(rt.alloc(), tail, *status, line)?, row);
    }
    Ok(())
}

/// A word, its input and its text.
const PIECED: [(Word, &str, &str); 3] = [
    (Word::Step, "3E 6C 06 2E 80 76\r\n", SUM),
    (Word::Asm, FIVE, FIVE_ENDS),
    (AT_100H, BYTES, LISTING),
];

// Whether an input is read so in pieces of this length.
fn is_read_in_pieces(alloc: Global, word: Word, input: &str, piece: usize, text: &str) -> bool {
    let reader = Slow {
        rest: input.as_bytes(),
        piece,
        is_interrupted: false,
        fails: false,
    };
    is_read(alloc, word, reader, Status::Success, text.as_bytes())
}

fn are_read_in_pieces(alloc: Global, word: Word, input: &str, text: &str) -> bool {
    for piece in [1usize, 2, 7, 4096] {
        if !is_read_in_pieces(alloc, word, input, piece, text) {
            return false;
        }
    }
    true
}

#[test]
fn pieces_and_interruptions_change_nothing(rt: HostRuntime) {
    for (row, (word, input, text)) in PIECED.iter().enumerate() {
        expect_row(&rt, are_read_in_pieces(rt.alloc(), *word, input, text), row);
    }
}

const FAILED: [(Word, &str); 5] = [
    (Word::Step, "3E 6C"),
    (Word::Asm, FIVE),
    (Word::Asm, "DB 0100H"),
    (Word::Asm, ""),
    (AT_100H, BYTES),
];

fn writes_nothing(alloc: Global, word: Word, input: &str) -> bool {
    let reader = Slow {
        rest: input.as_bytes(),
        piece: 2,
        is_interrupted: false,
        fails: true,
    };
    is_read(alloc, word, reader, Status::Failed, b"")
}

#[test]
fn a_failed_read_writes_nothing(rt: HostRuntime) {
    for (row, (word, input)) in FAILED.iter().enumerate() {
        expect_row(&rt, writes_nothing(rt.alloc(), *word, input), row);
    }
}
