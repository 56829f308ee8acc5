//! The threads.
use crate::files::FileSystem;
use crate::inbox::{Inbox, Taker};
use crate::lookups::{HostFiles, LOOKUP_THREADS, Lookups};
use crate::reader::read_all;
use crate::writer::PromptOutlet;
use base_streams::ports::Inlet;
use dap_debugger::conversation::{ConversationEnd, converse};
use std::alloc::{AllocError, Global};
use std::io::Write;
use std::rt::Clock;
use std::sync::{Arc, Wait};
use std::thread;
use std::thread::Threads;

/// Why there was no conversation, or how it ended.
#[derive(Clone, Copy)]
pub enum ServerEnd {
    Conversation(ConversationEnd),
    /// A thread couldn't be started.
    NoThread,
}

/// What a debugger needs of its host.
pub trait Host: Wait + Threads + Clock + FileSystem + Clone + Send + Sync + Drop + 'static {}

impl<R: Wait + Threads + Clock + FileSystem + Clone + Send + Sync + Drop + 'static> Host for R {}

// What the threads share.
#[derive(Drop)]
struct Shared {
    inbox: Inbox,
    lookups: Lookups,
}

fn new_shared(alloc: Global) -> Result<Arc<Shared>, AllocError> {
    let inbox = Inbox::new(alloc)?;
    let lookups = Lookups::new();
    let shared = Arc::new(alloc, Shared { inbox, lookups })?;
    Ok(shared)
}

// What another thread gets.
fn share<R: Host>(rt: &R, shared: &Arc<Shared>) -> Result<(R, Arc<Shared>), AllocError> {
    let same = Arc::try_clone(shared)?;
    match rt.clone() {
        Ok(host) => Ok((host, same)),
        Err(error) => {
            drop(same);
            Err(error)
        }
    }
}

// Starts the thread that reads.
fn start_reader<R: Host, I: Inlet + Send + Drop + 'static>(
    rt: &R,
    alloc: Global,
    shared: &Arc<Shared>,
    mut inlet: I,
) -> Result<(), AllocError> {
    let Ok((host, shared)) = share(rt, shared) else {
        drop(inlet);
        return Err(AllocError);
    };
    let started = thread::Builder::new().spawn(rt, move || {
        read_all(&host, alloc, &shared.inbox, &mut inlet)
    });
    match started {
        Ok(_) => Ok(()),
        Err(_) => Err(AllocError),
    }
}

// Starts a thread that looks up files.
fn start_lookups<R: Host>(rt: &R, alloc: Global, shared: &Arc<Shared>) -> Result<(), AllocError> {
    let (host, shared) = share(rt, shared)?;
    match thread::Builder::new().spawn(rt, move || shared.lookups.make_all(&host, alloc)) {
        Ok(_) => Ok(()),
        Err(_) => Err(AllocError),
    }
}

// Starts the thread that reads, and those that look up files.
fn start_all<R: Host, I: Inlet + Send + Drop + 'static>(
    rt: &R,
    alloc: Global,
    shared: &Arc<Shared>,
    inlet: I,
) -> Result<(), AllocError> {
    start_reader(rt, alloc, shared, inlet)?;
    for _ in 0..LOOKUP_THREADS {
        start_lookups(rt, alloc, shared)?;
    }
    Ok(())
}

// Answers what comes into the inbox, until the conversation ends.
fn answer_all<R: Host, W: Write + Drop>(
    rt: &R,
    alloc: Global,
    shared: &Shared,
    writer: W,
) -> ConversationEnd {
    let mut outlet = PromptOutlet::new(writer);
    let mut source = Taker {
        rt,
        inbox: &shared.inbox,
    };
    let files = HostFiles {
        rt,
        lookups: &shared.lookups,
    };
    let end = converse(rt, alloc, &mut source, &files, &mut outlet);
    shared.inbox.close(rt);
    end
}

/// Serves one editor, until its stream ends or it disconnects. The other threads aren't joined, since one may
/// wait for bytes and others for files: the program should end then.
pub fn serve<R: Host, I: Inlet + Send + Drop + 'static, W: Write + Drop>(
    rt: &R,
    alloc: Global,
    inlet: I,
    writer: W,
) -> ServerEnd {
    let Ok(shared) = new_shared(alloc) else {
        drop(inlet);
        drop(writer);
        return ServerEnd::Conversation(ConversationEnd::OutOfMemory);
    };
    match start_all(rt, alloc, &shared, inlet) {
        Ok(()) => ServerEnd::Conversation(answer_all(rt, alloc, &shared, writer)),
        Err(_) => {
            drop(writer);
            ServerEnd::NoThread
        }
    }
}
