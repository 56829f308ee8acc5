//! Reading connection files.
use crate::line::say;
use base_streams::std_io::StdInlet;
use cli_io::reading::read_all;
use cli_io::status::Status;
use jup_wire::connection_file::{ConnectionFile, FileFault};
use std::io::Read;
use std::rt::Files;
use std::{fs, io};

// The most bytes that a connection file may have.
const MOST_BYTES: usize = 1_048_576;

// Prints why a file can't be read, and returns the status.
fn tell_unread(rt: &impl Print, error: io::Error) -> Status {
    let kind = error.kind();
    drop(error);
    match kind {
        io::ErrorKind::OutOfMemory => Status::OutOfMemory,
        io::ErrorKind::NotFound => say(rt, "no file", Status::Failed),
        _ => say(rt, "read failed", Status::Failed),
    }
}

// Reads an open file. Of one that is too long no more is read than shows that.
fn read_open<R: Print + AllocGlobal, F: Read + Drop>(rt: &R, file: F) -> Result<Vec<u8>, Status> {
    let most = MOST_BYTES as u64 + 1;
    match read_all(rt.alloc(), &mut StdInlet::new(file.take(most))) {
        Ok(bytes) => Ok(bytes),
        Err(Status::OutOfMemory) => Err(Status::OutOfMemory),
        Err(_) => Err(say(rt, "read failed", Status::Failed)),
    }
}

// Pipes, devices and the like aren't read: that may take forever. So may what the system keeps under /proc as
// a file of no length, so a file without bytes isn't opened either.
fn read_bytes<R: Files + Print + AllocGlobal>(rt: &R, path: &str) -> Result<Vec<u8>, Status> {
    match fs::metadata(rt, path) {
        Ok(metadata) if !metadata.is_file() => return Err(say(rt, "read failed", Status::Failed)),
        Ok(metadata) if metadata.len() == 0 => return Ok(Vec::new(rt.alloc())),
        Ok(_) => {}
        Err(error) => return Err(tell_unread(rt, error)),
    }
    match fs::open(rt, path) {
        Ok(file) => read_open(rt, file),
        Err(error) => Err(tell_unread(rt, error)),
    }
}

/// Reads a connection file. If it can't, prints why, and returns the status.
pub fn read_file<R: Files + Print + AllocGlobal>(
    rt: &R,
    path: &str,
) -> Result<ConnectionFile, Status> {
    let bytes = read_bytes(rt, path)?;
    if bytes.len() > MOST_BYTES {
        return Err(say(rt, "bad file", Status::Refused));
    }
    match ConnectionFile::read(rt.alloc(), &bytes) {
        Ok(file) => Ok(file),
        Err(FileFault::OutOfMemory) => Err(Status::OutOfMemory),
        Err(FileFault::Json | FileFault::Field) => Err(say(rt, "bad file", Status::Refused)),
    }
}
