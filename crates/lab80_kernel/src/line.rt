//! Lines on standard output.
use cli_io::status::Status;

/// Prints a line, and returns `status`, or `Status::Failed` if the line can't be written.
pub fn say(rt: &impl Print, line: &str, status: Status) -> Status {
    match rt.println(line) {
        Ok(()) => status,
        Err(_) => Status::Failed,
    }
}
