//! Where bodies wait for an answer.
ghost use Rattle.std.specs.Prelude.{◌≡◌, drop};
ghost use Rattle.dap_serve.specs.Inbox.{first_of};

use base_text::sequence::Bytes;
use dap_debugger::incoming::{BodySource, Incoming, StreamEnd};
use std::alloc::{AllocError, Global};
use std::collections::VecDeque;
use std::sync::{Condvar, Mutex, MutexGuard, Wait};

// The most bodies that wait.
const ROOM: usize = 64;

// What waits in an inbox.
#[derive(Drop)]
struct Waiting {
    bodies: VecDeque<Bytes>,
    // Why no more come.
    end: Option<StreamEnd>,
    // Nobody takes bodies any more.
    is_closed: bool,
}

/// A queue of bodies, in the order in which they came: one thread puts them, another takes them.
#[derive(Drop)]
pub struct Inbox {
    waiting: Mutex<Waiting>,
    filled: Condvar,
    emptied: Condvar,
}

// An empty queue, with room for all bodies that may wait.
fn new_queue(alloc: Global) -> Result<VecDeque<Bytes>, AllocError> {
    let mut bodies = VecDeque::new(alloc);
    bodies.reserve(ROOM)?;
    Ok(bodies)
}

impl Inbox {
    /// An empty inbox.
    pub fn new(alloc: Global) -> Result<Inbox, AllocError> {
        let bodies = new_queue(alloc)?;
        Ok(Inbox {
            waiting: Mutex::new(Waiting {
                bodies,
                end: None,
                is_closed: false,
            }),
            filled: Condvar::new(),
            emptied: Condvar::new(),
        })
    }

    /// Puts a body into the inbox. Waits until there is room. An error says why no more come.
    pub fn put<R: Wait>(&self, rt: &R, body: Bytes) -> Result<(), StreamEnd> {
        let mut waiting = self
            .emptied
            .wait_while(rt, self.waiting.lock(rt), |waiting| {
                waiting.bodies.len() >= ROOM && !waiting.is_closed
            });
        let added = add(&mut waiting, body);
        drop(waiting);
        self.filled.notify_one();
        added
    }

    /// Says why no more bodies come.
    pub fn finish<R: Wait>(&self, rt: &R, end: StreamEnd) {
        self.waiting.lock(rt).end = Some(end);
        self.filled.notify_one();
    }

    /// Says that nobody takes bodies any more.
    pub fn close<R: Wait>(&self, rt: &R) {
        self.waiting.lock(rt).is_closed = true;
        self.emptied.notify_one();
    }

    // Takes the body that came first, or says why no more come, if that is known.
    fn take(&self, mut waiting: MutexGuard<'_, Waiting>) -> Incoming {
        let end = waiting.end;
        let incoming = take_first(&mut waiting.bodies, end);
        drop(waiting);
        self.emptied.notify_one();
        incoming
    }

    // Takes the body that came first, or says why no more come. Waits for either.
    fn next<R: Wait>(&self, rt: &R) -> Incoming {
        self.take(
            self.filled
                .wait_while(rt, self.waiting.lock(rt), |waiting| {
                    waiting.bodies.is_empty() && waiting.end.is_none()
                }),
        )
    }

    // The same, without waiting.
    fn next_if_there<R: Wait>(&self, rt: &R) -> Incoming {
        self.take(self.waiting.lock(rt))
    }
}

// Adds a body, unless nobody takes it any more.
fn add(waiting: &mut Waiting, body: Bytes) -> Result<(), StreamEnd> {
    if waiting.is_closed {
        drop(body);
        return Err(StreamEnd::Ended);
    }
    match waiting.bodies.push_back(body) {
        Ok(()) => Ok(()),
        Err(_) => Err(StreamEnd::OutOfMemory),
    }
}

// Takes the body that came first, or says why no more come, if that is known.
fn take_first(bodies: &mut VecDeque<Bytes>, end: Option<StreamEnd>) -> Incoming
    ensures told { result ≡ first_of bodies.old.items end }
    ensures left { bodies.new.items ≡ drop 1 bodies.old.items }
{
    match bodies.pop_front() {
        Some(body) => Incoming::Body(body),
        None => match end {
            Some(end) => Incoming::End(end),
            None => Incoming::Nothing,
        },
    }
}

/// The end of an inbox from which bodies are taken.
#[derive(Drop)]
pub struct Taker<'a, R: Wait> {
    pub rt: &'a R,
    pub inbox: &'a Inbox,
}

impl<'a, R: Wait> BodySource for Taker<'a, R> {
    ghost use Rattle.std.specs.Prelude.{None};

    ghost given = { λ _. None };

    fn next(&mut self, is_running: bool) -> Incoming {
        if is_running {
            self.inbox.next_if_there(self.rt)
        } else {
            self.inbox.next(self.rt)
        }
    }
}
