//! Cells run over memory, against the messages of a scripted kernel.
ghost use Rattle.std.specs.Prelude.{◌≡◌, false};

use crate::checks::expect_at;
use crate::messages::frames;
use base_streams::memory::{Sink, Source};
use base_text::sequence::{Bytes, Frames};
use jup_wire::message::WireFault;
use jup_wire::signature::sign;
use lab_term::cell::{Cell, CellEnd};
use lab_term::fault::{TermFault, WireCause};
use lab_term::run_cell::{Connection, run_cell};
use std::alloc::{AllocError, Global};
use zmtp_wire::fault::StreamFault;
use zmtp_wire::role::Role;
use zmtp_wire::writing::{greeting, put_message, ready};

// The header of the request of session `s` at the beginning of 1970.
const HEADER: &str = "{\"date\":\"1970-01-01T00:00:00Z\",\"msg_id\":\"s_1\",\
    \"msg_type\":\"execute_request\",\"session\":\"s\",\"username\":\"kernel\",\"version\":\"5.4\"}";

// The header of another client's request.
const OTHER: &str = "{\"msg_id\":\"t_1\",\"msg_type\":\"execute_request\",\"session\":\"t\"}";

const CONTENT: &str = "{\"code\":\"HLT\"}";

// HMAC-SHA256 under `key` of the header, `{}`, `{}` and the content, as computed by Python's hmac.
const SIGNATURE: &str = "f7f79e8f7ba50d67228ddeaec96b018fc6a7df46afb65b973dc3a77de9a7ad53";

const KEY: &[u8] = b"key";

// A message on iopub: its type, its parent header, its content.
#[derive(Clone, Copy)]
struct Told(&'static str, &'static str, &'static str);

const STARTING: Told = Told("status", "{}", "{\"execution_state\":\"starting\"}");

const BUSY: Told = Told("status", HEADER, "{\"execution_state\":\"busy\"}");

const IDLE: Told = Told("status", HEADER, "{\"execution_state\":\"idle\"}");

const OTHER_IDLE: Told = Told("status", OTHER, "{\"execution_state\":\"idle\"}");

const LETTER: Told = Told("stream", HEADER, "{\"name\":\"stdout\",\"text\":\"A\"}");

const OTHER_LETTER: Told = Told("stream", OTHER, "{\"name\":\"stdout\",\"text\":\"B\"}");

const ERROR: Told = Told(
    "error",
    HEADER,
    "{\"ename\":\"AssemblyError\",\"evalue\":\"1:1 Mnemonic\",\"traceback\":[]}",
);

const CELL: Cell<'static> = Cell {
    code: "HLT",
    key: KEY,
    session: "s",
    unix_seconds: 0,
};

fn push_copies(alloc: Global, frames: &mut Frames, others: &[Bytes]) -> Result<(), AllocError> {
    for frame in others {
        frames.push(Bytes::copy_of(alloc, frame.as_slice())?)?;
    }
    Ok(())
}

// The four frames that are signed.
fn signed_frames(alloc: Global, told: Told) -> Result<Frames, AllocError> {
    let header = format!(in alloc;
        "{{\"msg_id\":\"k_1\",\"msg_type\":\"{}\",\"session\":\"k\"}}",
        told.0
    )?;
    frames(alloc, &[header.as_str(), told.1, "{}", told.2])
}

// The bytes of a message of some frames; nothing if there are none.
fn push_message(alloc: Global, bytes: &mut Vec<u8>, frames: &Frames) -> Result<(), AllocError> {
    if frames.len() == 0 {
        return Ok(());
    }
    bytes.extend_from_slice(put_message(alloc, frames.as_slice())?.as_slice())
}

// The bytes of a message, signed under the key.
fn push_told(alloc: Global, bytes: &mut Vec<u8>, told: Told, key: &[u8]) -> Result<(), AllocError> {
    let signed = signed_frames(alloc, told)?;
    let signature = sign(alloc, key, signed.as_slice())?;
    let mut all = frames(alloc, &[told.0, "<IDS|MSG>", signature.as_str()])?;
    push_copies(alloc, &mut all, signed.as_slice())?;
    push_message(alloc, bytes, &all)
}

// What a kernel writes on a connection.
fn stream_of(
    alloc: Global,
    role: Role,
    script: &[Told],
    key: &[u8],
) -> Result<Vec<u8>, AllocError> {
    let mut bytes = Vec::new(alloc);
    bytes.extend_from_slice(greeting())?;
    bytes.extend_from_slice(ready(role))?;
    for told in script {
        push_told(alloc, &mut bytes, *told, key)?;
    }
    Ok(bytes)
}

// A connection whose reader and writer move at most this many bytes a call.
fn connection(alloc: Global, bytes: Vec<u8>, most: usize) -> Connection<Source, Sink>
    ensures { (result.from.ended ≡ false) × (result.from.failed ≡ false) × (result.to.failed ≡ false) }
{
    Connection {
        from: Source::new(bytes, most, 9999),
        to: Sink::new(alloc, most, 9999),
    }
}

// How a cell ended, and what was written.
#[derive(Drop)]
struct Outcome {
    answer: Result<CellEnd, TermFault>,
    shell: Connection<Source, Sink>,
    iopub: Connection<Source, Sink>,
    output: Sink,
}

// Runs the cell over these bytes on shell and on iopub.
fn run(alloc: Global, asked: Vec<u8>, told: Vec<u8>, most: usize) -> Outcome {
    let mut shell = connection(alloc, asked, most);
    let mut iopub = connection(alloc, told, most);
    let mut output = Sink::new(alloc, most, 9999);
    let answer = run_cell(alloc, &mut shell, &mut iopub, &mut output, &CELL);
    Outcome {
        answer,
        shell,
        iopub,
        output,
    }
}

// Runs the cell over a script that is signed under a key.
fn run_script(
    alloc: Global,
    script: &[Told],
    key: &[u8],
    most: usize,
) -> Result<Outcome, AllocError> {
    let asked = stream_of(alloc, Role::Router, &[], KEY)?;
    let told = stream_of(alloc, Role::Pub, script, key)?;
    Ok(run(alloc, asked, told, most))
}

// What the kernel publishes, what is printed, and the result.
type Row = (&'static [Told], &'static str, Result<CellEnd, TermFault>);

const ROWS: [Row; 8] = [
    (&[STARTING, BUSY, LETTER, IDLE], "A", Ok(CellEnd::Success)),
    (
        &[STARTING, BUSY, ERROR, IDLE],
        "AssemblyError: 1:1 Mnemonic\n",
        Ok(CellEnd::Error),
    ),
    (
        &[STARTING, LETTER, ERROR, LETTER, IDLE, LETTER],
        "AAssemblyError: 1:1 Mnemonic\nA",
        Ok(CellEnd::Error),
    ),
    // Another client's cell, and a stream before the first status.
    (
        &[
            OTHER_LETTER,
            LETTER,
            OTHER_IDLE,
            OTHER_LETTER,
            OTHER_IDLE,
            LETTER,
            IDLE,
        ],
        "A",
        Ok(CellEnd::Success),
    ),
    (&[STARTING, BUSY, LETTER], "A", Err(TermFault::Ended)),
    (&[], "", Err(TermFault::Ended)),
    (&[LETTER], "", Err(TermFault::Ended)),
    (&[STARTING, LETTER, BUSY], "A", Err(TermFault::Ended)),
];

// Whether a script that is signed under a key prints and returns what the row says.
fn is_kept(alloc: Global, row: &Row, key: &[u8], most: usize) -> Result<bool, AllocError> {
    let run = run_script(alloc, row.0, key, most)?;
    let is_kept = run.answer == row.2 && run.output.as_slice() == row.1.as_bytes();
    drop(run);
    Ok(is_kept)
}

#[test]
fn cells(rt: HostRuntime) {
    for (place, row) in ROWS.iter().enumerate() {
        let in_ones = is_kept(rt.alloc(), row, KEY, 1);
        let is_so = matches!(in_ones, Ok(true));
        expect_at(&rt, is_so, "other bytes, one a call, in row", place as u64);
        let at_once = is_kept(rt.alloc(), row, KEY, 4096);
        let is_so = matches!(at_once, Ok(true));
        expect_at(&rt, is_so, "other bytes, many a call, in row", place as u64);
    }
}

// The handshake and the request.
fn asked_bytes(alloc: Global) -> Result<Vec<u8>, AllocError> {
    let texts = ["<IDS|MSG>", SIGNATURE, HEADER, "{}", "{}", CONTENT];
    let all = frames(alloc, &texts)?;
    let mut asked = stream_of(alloc, Role::Dealer, &[], KEY)?;
    push_message(alloc, &mut asked, &all)?;
    Ok(asked)
}

// The handshake and the subscription.
fn subscribed_bytes(alloc: Global) -> Result<Vec<u8>, AllocError> {
    let mut subscribed = stream_of(alloc, Role::Sub, &[], KEY)?;
    subscribed.extend_from_slice(&[0, 1, 1])?;
    Ok(subscribed)
}

// Whether these bytes are written to shell and to iopub.
fn writes(alloc: Global, asked: &[u8], subscribed: &[u8]) -> Result<(bool, bool), AllocError> {
    let run = run_script(alloc, &[STARTING, IDLE], KEY, 4096)?;
    let is_asked = run.shell.to.as_slice() == asked;
    let is_subscribed = run.iopub.to.as_slice() == subscribed;
    drop(run);
    Ok((is_asked, is_subscribed))
}

fn writes_all(alloc: Global) -> Result<(bool, bool), AllocError> {
    let asked = asked_bytes(alloc)?;
    let subscribed = subscribed_bytes(alloc)?;
    writes(alloc, asked.as_slice(), subscribed.as_slice())
}

// The handshakes, the subscription and the request, byte for byte.
#[test]
fn sent_bytes(rt: HostRuntime) {
    let writes = writes_all(rt.alloc());
    assert!(rt; matches!(writes, Ok((true, _))), "shell");
    assert!(rt; matches!(writes, Ok((_, true))), "iopub");
}

// A message that is signed under another key ends the cell.
#[test]
fn other_key(rt: HostRuntime) {
    let fault = TermFault::Wire(WireCause::Message(WireFault::Signature));
    let row: Row = (&[STARTING, LETTER, IDLE], "", Err(fault));
    let is_kept = is_kept(rt.alloc(), &row, b"other", 4096);
    assert!(rt; matches!(is_kept, Ok(true)));
}

// What the cell returns if after a script a byte comes that begins no frame.
fn answer_to_broken(
    alloc: Global,
    script: &[Told],
) -> Result<Result<CellEnd, TermFault>, AllocError> {
    let asked = stream_of(alloc, Role::Router, &[], KEY)?;
    let mut told = stream_of(alloc, Role::Pub, script, KEY)?;
    told.extend_from_slice(&[8])?;
    let run = run(alloc, asked, told, 4096);
    let answer = run.answer;
    drop(run);
    Ok(answer)
}

// Bytes that break the stream, right after READY and after a message.
#[test]
fn broken_streams(rt: HostRuntime) {
    let fault = TermFault::Wire(WireCause::Stream(StreamFault::Flags));
    for script in [&[] as &[Told], &[STARTING, LETTER]] {
        let answer = answer_to_broken(rt.alloc(), script);
        let told = script.len();
        assert!(rt; answer == Ok(Err(fault)), "after {told} messages");
    }
}
