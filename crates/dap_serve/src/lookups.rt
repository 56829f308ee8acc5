//! The files that threads look up.
ghost use Rattle.std.specs.Prelude.{◌≡◌, false, None, IfOk};
ghost use Rattle.dap_serve.specs.Lookups.{content_of, canonical_of, found_in_time};
ghost use Rattle.dap_serve.specs.Lookups.{is_last, may_begin, with_asked, with_found};

use crate::files::{FileSystem, Found, Target};
use base_text::text::Text;
use dap_debugger::incoming::ProgramFiles;
use dap_launch::file::FileText;
use std::alloc::{AllocError, Global};
use std::rt::Clock;
use std::sync::{Condvar, Mutex, Wait};
use std::time::Duration;

/// The number of threads that look up files.
pub const LOOKUP_THREADS: usize = 8;

// How many seconds a file has to answer.
const PATIENCE: u64 = 2;

// A lookup for a thread to make.
#[derive(Drop)]
struct Lookup {
    path: Text,
    target: Target,
    number: u64,
}

// The lookups that go on.
#[derive(Drop)]
struct Work {
    count: usize,
    // The one that no thread has yet.
    asked: Option<Lookup>,
    // The number of the last one, and its file's path until it ends.
    number: u64,
    path: Option<Text>,
    // Whether somebody waits for its result.
    is_awaited: bool,
    // That result.
    found: Option<Found>,
}

impl Work {
    // Whether the last lookup is of this file and hasn't ended.
    fn is_last(&self, path: &str) -> bool
        ensures { result ≡ is_last path.now self.now }
    {
        match &self.path {
            Some(last) => last.as_str() == path,
            None => false,
        }
    }

    // Asks for a lookup, and says whether it may begin.
    fn ask(&mut self, path: Text, same: Text, target: Target) -> bool
        requires { same ≡ path }
        ensures may { result ≡ may_begin path self.old }
        ensures asked { self.new ≡ with_asked path target self.old }
    {
        if self.count >= LOOKUP_THREADS || self.asked.is_some() || self.is_last(path.as_str()) {
            drop(path);
            drop(same);
            return false;
        }
        self.count += 1;
        self.number = self.number.wrapping_add(1);
        self.asked = Some(Lookup {
            path,
            target,
            number: self.number,
        });
        self.path = Some(same);
        self.is_awaited = true;
        true
    }

    // Takes the last lookup's result, if it has come. Later it isn't awaited any more.
    fn take_found(&mut self) -> Found
        ensures told { result ≡ found_in_time self.old.found }
        ensures left { self.new ≡ record self.old { is_awaited = false; found = None } }
    {
        self.is_awaited = false;
        match self.found.take() {
            Some(found) => found,
            None => Found::Unreadable,
        }
    }

    // Ends the lookup with this number. Its result is dropped if it isn't awaited.
    fn put(&mut self, number: u64, found: Found)
        ensures { self.new ≡ with_found number found self.old }
    {
        self.count = self.count.saturating_sub(1);
        if number != self.number {
            drop(found);
            return;
        }
        self.path = None;
        if self.is_awaited {
            self.found = Some(found);
        } else {
            drop(found);
        }
    }
}

/// The lookups: of files that a request waits for, and of those that were late.
#[derive(Drop)]
pub struct Lookups {
    work: Mutex<Work>,
    asked: Condvar,
    found: Condvar,
}

impl Lookups {
    /// No lookups.
    pub fn new() -> Lookups {
        Lookups {
            work: Mutex::new(Work {
                count: 0,
                asked: None,
                number: 0,
                path: None,
                is_awaited: false,
                found: None,
            }),
            asked: Condvar::new(),
            found: Condvar::new(),
        }
    }

    // Takes a lookup. Waits until one is asked for.
    fn next<R: Wait>(&self, rt: &R) -> Option<Lookup> {
        let mut work = self
            .asked
            .wait_while(rt, self.work.lock(rt), |work| work.asked.is_none());
        work.asked.take()
    }

    /// Makes one lookup after another, without end.
    pub fn make_all<R: Wait + FileSystem>(&self, rt: &R, alloc: Global) {
        for _ in 0..u64::MAX {
            if let Some(lookup) = self.next(rt) {
                let found = rt.look_up(alloc, lookup.path.as_str(), lookup.target);
                self.work.lock(rt).put(lookup.number, found);
                self.found.notify_one();
            }
        }
    }

    // The result of the last lookup, if it comes in time.
    fn wait<R: Wait + Clock>(&self, rt: &R) -> Found {
        let patience = Duration::from_secs(PATIENCE);
        let (mut work, _) = self.found.wait_timeout_while(
            rt,
            self.work.lock(rt),
            patience,
            |work| work.found.is_none(),
        );
        work.take_found()
    }

    // Has a thread look up the file at a path. It is unreadable if it doesn't answer in time; or at once, if
    // the last lookup is of it and hasn't ended, or if no thread is free.
    fn look_up<R: Wait + Clock>(&self, rt: &R, alloc: Global, path: &str, target: Target) -> Found {
        let Ok((path, same)) = copies(alloc, path) else {
            return Found::OutOfMemory;
        };
        if !self.work.lock(rt).ask(path, same, target) {
            return Found::Unreadable;
        }
        self.asked.notify_one();
        self.wait(rt)
    }
}

fn copies(alloc: Global, path: &str) -> Result<(Text, Text), AllocError>
    ensures { IfOk result (λ copies. (copies.0 ≡ path.now) × (copies.1 ≡ path.now)) }
{
    let path = Text::copy_of(alloc, path)?;
    let same = path.clone()?;
    Ok((path, same))
}

// The content of a file of which this was found.
fn content_of(found: Found) -> Result<FileText, AllocError>
    ensures { result ≡ content_of found }
{
    match found {
        Found::Content(file) => Ok(file),
        Found::Missing => Ok(FileText::Missing),
        Found::OutOfMemory => Err(AllocError),
        Found::CanonicalPath(_) | Found::Unreadable => Ok(FileText::Unreadable),
    }
}

// The canonical path of a file of which this was found.
fn canonical_of(found: Found) -> Result<Option<Text>, AllocError>
    ensures { result ≡ canonical_of found }
{
    match found {
        Found::CanonicalPath(path) => Ok(Some(path)),
        Found::OutOfMemory => Err(AllocError),
        Found::Content(_) | Found::Missing | Found::Unreadable => Ok(None),
    }
}

/// The files of the system, which threads look up. A file that doesn't answer in time can't be read. Its
/// thread can't be stopped: it stays behind, and drops what it finds. If all threads do, no file can be read.
#[derive(Drop)]
pub struct HostFiles<'a, R: Wait + Clock> {
    pub rt: &'a R,
    pub lookups: &'a Lookups,
}

impl<'a, R: Wait + Clock> ProgramFiles for HostFiles<'a, R> {
    // Others may change a file at any time.
    ghost known = { λ _. record { may_find = λ path file. Unit {0}; may_be_at = λ path found. Unit {0} } };

    fn read(&self, alloc: Global, path: &str) -> Result<FileText, AllocError> {
        content_of(self.lookups.look_up(self.rt, alloc, path, Target::Content))
    }

    fn canonical(&self, alloc: Global, path: &str) -> Result<Option<Text>, AllocError> {
        canonical_of(
            self.lookups
                .look_up(self.rt, alloc, path, Target::CanonicalPath),
        )
    }
}
