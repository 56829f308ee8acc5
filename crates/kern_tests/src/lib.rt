//! Recorded sessions of the kernel: files of calls with their expected replies and posts, which the program
//! lab80_tests has as its data. A session is replayed on a new kernel; replies are compared directly, and
//! posts by fetches for the connections to which they are addressed. Nothing has a contract here: the
//! kernel's own are in its crates.
#![tactic(auto)]

mod calls;
mod fault;
mod members;
mod posts;
mod replies;
mod session;

use crate::fault::SessionFault;
use crate::session::{Counts, run_session};
use std::rt::Files;
use std::{fs, io};

/// Replays the session in a file, and returns whether the kernel kept to it. A line of output says how many
/// calls and posts it had, or names the first line of the file from which the kernel deviates.
pub fn replay(rt: &(impl Files + Print + AllocGlobal), name: &str) -> io::Result<bool> {
    let text = fs::read_to_string(rt, name)?;
    let outcome = run_session(rt.alloc(), text.as_str());
    drop(text);
    report(rt, name, outcome)
}

// Prints the line on a session, and returns whether the kernel kept to the session.
fn report(
    rt: &impl Print,
    name: &str,
    outcome: Result<Counts, (usize, SessionFault)>,
) -> io::Result<bool> {
    match outcome {
        Ok(counts) => {
            println!(rt; "{name}: {} calls, {} posts", counts.calls, counts.posts)?;
            Ok(true)
        }
        Err((line, fault)) => {
            println!(rt; "{name}:{line}: {fault}")?;
            Ok(false)
        }
    }
}
