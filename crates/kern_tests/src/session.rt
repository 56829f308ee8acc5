//! A session.

use crate::calls::call_of;
use crate::fault::SessionFault;
use crate::members::{has_number, list, member, number, small_number};
use crate::posts::{compare_post, is_to};
use crate::replies::compare_reply;
use kern_core::call::{Call, Reply};
use kern_core::fault::KernelFault;
use kern_core::kernel::Kernel;
use kern_post::post::{Post, Posts};
use serde_json::Value;
use std::alloc::{AllocError, Global};

/// The greatest limit that a journal can have. Fetches beside those of the session are only made with this
/// limit.
const MOST_ENTRIES: u32 = 4_194_304;

/// How many calls and posts a session has.
#[derive(Clone, Copy)]
pub struct Counts {
    pub calls: u64,
    pub posts: u64,
}

/// A kernel, and the part of the session that was replayed.
#[derive(Drop)]
struct Session {
    kernel: Kernel,
    // The lines so far, but for those of repeated calls.
    lines: Vec<Value>,
    // The open connections.
    present: Vec<u32>,
    // Whether fetches are made after each line with posts.
    sees_posts: bool,
    counts: Counts,
}

/// Makes the calls of a session, which is one line for each, and compares their replies and posts. Fails
/// with the number of the first line, from 1, that is bad or from which the kernel deviates.
pub fn run_session(alloc: Global, text: &str) -> Result<Counts, (usize, SessionFault)> {
    match open_session(alloc, text) {
        Ok(mut session) => {
            let counts = session.lines(alloc, text);
            drop(session);
            counts
        }
        Err(fault) => Err((1, fault)),
    }
}

// A new kernel with the limit of the first line.
fn open_session(alloc: Global, text: &str) -> Result<Session, SessionFault> {
    let limit = limit_of(alloc, text)?;
    if limit == 0 || limit > MOST_ENTRIES {
        return Err(SessionFault::Member("limit"));
    }
    Ok(Session {
        kernel: Kernel::new(alloc, limit)?,
        lines: Vec::new(alloc),
        present: Vec::new(alloc),
        sees_posts: limit == MOST_ENTRIES,
        counts: Counts { calls: 0, posts: 0 },
    })
}

fn limit_of(alloc: Global, text: &str) -> Result<u32, SessionFault> {
    let first = text.lines().next().unwrap_or("");
    let line = read_line(alloc, first)?;
    let limit = small_number(&line, "limit");
    drop(line);
    limit
}

fn read_line(alloc: Global, text: &str) -> Result<Value, SessionFault> {
    match Value::from_str(alloc, text) {
        Ok(line) => Ok(line),
        Err(error) => {
            let is_memory = error.is_memory();
            drop(error);
            Err(if is_memory {
                SessionFault::OutOfMemory
            } else {
                SessionFault::Json
            })
        }
    }
}

// A line of repeated calls as the line of one of them.
fn with_number(alloc: Global, text: &str, number: u64) -> Result<String, AllocError> {
    let digits = format!(in alloc; "{number}")?;
    text.replace(alloc, '#', digits.as_str())
}

impl Session {
    fn lines(&mut self, alloc: Global, text: &str) -> Result<Counts, (usize, SessionFault)> {
        for (at, line) in text.lines().enumerate() {
            if let Err(fault) = self.line(alloc, line) {
                return Err((at.saturating_add(1), fault));
            }
        }
        Ok(self.counts)
    }

    fn line(&mut self, alloc: Global, text: &str) -> Result<(), SessionFault> {
        let line = read_line(alloc, text)?;
        if line.get("repeat").is_some() {
            let repeated = self.repeat(alloc, text, &line);
            drop(line);
            return repeated;
        }
        match self.make(alloc, &line) {
            Ok(()) => self.keep(line),
            Err(fault) => {
                drop(line);
                Err(fault)
            }
        }
    }

    fn make(&mut self, alloc: Global, line: &Value) -> Result<(), SessionFault> {
        self.call(alloc, line)?;
        self.see_posts(alloc, line)
    }

    fn keep(&mut self, line: Value) -> Result<(), SessionFault> {
        match self.lines.push(line) {
            Ok(()) => Ok(()),
            Err(refused) => {
                drop(refused);
                Err(SessionFault::OutOfMemory)
            }
        }
    }

    // Of the posts of repeated calls the session has only the number.
    fn repeat(&mut self, alloc: Global, text: &str, line: &Value) -> Result<(), SessionFault> {
        let posts = number(line, "made")?;
        for k in 0..number(line, "repeat")? {
            self.call_again(alloc, text, k)?;
            self.counts.posts = self.counts.posts.saturating_add(posts);
        }
        Ok(())
    }

    fn call_again(&mut self, alloc: Global, text: &str, number: u64) -> Result<(), SessionFault> {
        let text = with_number(alloc, text, number)?;
        let line = read_line(alloc, text.as_str())?;
        let made = self.call(alloc, &line);
        drop(line);
        made
    }

    fn call(&mut self, alloc: Global, line: &Value) -> Result<(), SessionFault> {
        let answer = self.act(alloc, member(line, "call")?)?;
        let compared = self.compare(alloc, line, &answer);
        drop(answer);
        compared
    }

    // Makes a call, and makes it again if the kernel ran out of memory, which must not have changed
    // anything.
    fn act(
        &mut self,
        alloc: Global,
        call: &Value,
    ) -> Result<Result<Reply, KernelFault>, SessionFault> {
        let answer = self.kernel.act(call_of(alloc, call)?);
        if !lacked_memory(&answer) {
            return Ok(answer);
        }
        drop(answer);
        Ok(self.kernel.act(call_of(alloc, call)?))
    }

    fn compare(
        &mut self,
        alloc: Global,
        line: &Value,
        answer: &Result<Reply, KernelFault>,
    ) -> Result<(), SessionFault> {
        compare_reply(member(line, "reply")?, answer)?;
        self.counts.calls = self.counts.calls.saturating_add(1);
        self.follow(alloc, line, answer)
    }

    // Notes which connections are open, and compares fetched posts with earlier lines.
    fn follow(
        &mut self,
        alloc: Global,
        line: &Value,
        answer: &Result<Reply, KernelFault>,
    ) -> Result<(), SessionFault> {
        match answer {
            Ok(Reply::Joined { connection, .. }) => {
                self.present.push(*connection)?;
                Ok(())
            }
            Ok(Reply::Left) => self.leave(small_number(member(line, "call")?, "connection")?),
            Ok(Reply::Fetched { posts, .. }) => compare_posts(alloc, self.lines.as_slice(), posts),
            _ => Ok(()),
        }
    }

    fn leave(&mut self, connection: u32) -> Result<(), SessionFault> {
        self.present.retain(|other| *other != connection);
        Ok(())
    }

    // Compares the posts of a line, by a fetch for each open connection.
    fn see_posts(&mut self, alloc: Global, line: &Value) -> Result<(), SessionFault> {
        let expected = list(line, "posts")?;
        let Some(first) = expected.first() else {
            return Ok(());
        };
        self.counts.posts = self.counts.posts.saturating_add(expected.len() as u64);
        if !self.sees_posts {
            return Ok(());
        }
        let from = number(first, "number")?;
        for connection in self.present.iter() {
            see_posts_of(alloc, &mut self.kernel, line, *connection, from)?;
        }
        Ok(())
    }
}

fn lacked_memory(answer: &Result<Reply, KernelFault>) -> bool {
    matches!(answer, Err(KernelFault::OutOfMemory))
}

fn see_posts_of(
    alloc: Global,
    kernel: &mut Kernel,
    line: &Value,
    connection: u32,
    from: u64,
) -> Result<(), SessionFault> {
    let mut answer = kernel.act(Call::Fetch { connection, from });
    if lacked_memory(&answer) {
        answer = kernel.act(Call::Fetch { connection, from });
    }
    let compared = compare_seen(alloc, line, connection, &answer);
    drop(answer);
    compared
}

// Expects a fetch to return the posts of the line that are addressed to the connection.
fn compare_seen(
    alloc: Global,
    line: &Value,
    connection: u32,
    answer: &Result<Reply, KernelFault>,
) -> Result<(), SessionFault> {
    match answer {
        Ok(Reply::Fetched { posts, .. }) => compare_fetched(alloc, line, connection, posts),
        Err(KernelFault::OutOfMemory) => Err(SessionFault::OutOfMemory),
        _ => Err(SessionFault::Fetch(connection)),
    }
}

fn compare_fetched(
    alloc: Global,
    line: &Value,
    connection: u32,
    posts: &Posts,
) -> Result<(), SessionFault> {
    if !are_those_to(connection, list(line, "posts")?, posts.as_slice())? {
        return Err(SessionFault::Numbers(connection));
    }
    for post in posts.as_slice() {
        compare_with(alloc, line, post)?;
    }
    Ok(())
}

// Whether the posts are those of the expected ones that are addressed to a connection, by their numbers.
fn are_those_to(connection: u32, expected: &[Value], posts: &[Post]) -> Result<bool, SessionFault> {
    let mut place = 0usize;
    for post in expected {
        if is_to(post, connection)? {
            if !is_at(posts, place, post) {
                return Ok(false);
            }
            place = place.saturating_add(1);
        }
    }
    Ok(place == posts.len())
}

// Whether the post at an index has the number of an expected one.
fn is_at(posts: &[Post], place: usize, expected: &Value) -> bool {
    match posts.get(place) {
        Some(post) => has_number(expected, "number", post.number),
        None => false,
    }
}

// Compares posts with those that the lines expect. Posts of repeated calls are in no line.
fn compare_posts(alloc: Global, lines: &[Value], posts: &Posts) -> Result<(), SessionFault> {
    for post in posts.as_slice() {
        compare_with_each(alloc, lines, post)?;
    }
    Ok(())
}

fn compare_with_each(alloc: Global, lines: &[Value], post: &Post) -> Result<(), SessionFault> {
    for line in lines {
        compare_with(alloc, line, post)?;
    }
    Ok(())
}

// Compares a post with the one of the same number in a line, if there is one.
fn compare_with(alloc: Global, line: &Value, post: &Post) -> Result<(), SessionFault> {
    for expected in list(line, "posts")? {
        if number(expected, "number")? == post.number {
            compare_made(alloc, line, expected, post)?;
        }
    }
    Ok(())
}

// Compares a post with the expected one in the line of the call that made it.
fn compare_made(
    alloc: Global,
    line: &Value,
    expected: &Value,
    post: &Post,
) -> Result<(), SessionFault> {
    let unix_seconds = number(member(line, "call")?, "moment")?;
    compare_post(alloc, expected, unix_seconds, post)
}
