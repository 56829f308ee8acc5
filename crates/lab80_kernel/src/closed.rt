//! Standard streams that are closed.
use std::fs::{File, OpenOptions};
use std::os::fd::AsRawFd;
use std::rt::Files;

// Opens a file in place of a standard stream if that is closed. The system gives a file the lowest number
// that is free, so it has another number if the stream is open.
fn replace<R: Files<File = File>>(rt: &R, number: i32) -> Option<File> {
    let mut options = OpenOptions::new();
    options.read(number != 0).write(number == 0);
    match options.open(rt, "/dev/null") {
        Ok(file) if file.as_raw_fd() == number => Some(file),
        Ok(_) | Err(_) => None,
    }
}

/// Opens files in place of the standard streams that are closed, which must be kept as long as anything else
/// is opened. Otherwise a socket would get the number of such a stream, and a peer would be sent what is
/// printed.
///
/// Reads from standard input and writes to the others still fail, as they do from and to a closed stream.
/// Where there is no /dev/null, closed streams stay closed: that is no reason not to run where all are open.
pub fn replace_closed<R: Files<File = File>>(rt: &R) -> [Option<File>; 3] {
    [replace(rt, 0), replace(rt, 1), replace(rt, 2)]
}
