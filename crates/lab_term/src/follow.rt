//! Waiting for the kernel, and following a cell up to its end.
ghost use Rattle.std.specs.Prelude.{◌≡◌, ◌||◌, [], ◌∷◌, true, false, IfOk, IfErr, OnOk};
ghost use Rattle.base_streams.specs.States.{InletState, OutletState, IsReadable, IsWritable};
ghost use Rattle.base_streams.specs.Told.{Took, TookPrefix};
ghost use Rattle.zmtp_wire.specs.Wire.{Messages};
ghost use Rattle.lab_term.specs.Causes.{Stalls};
ghost use Rattle.lab_term.specs.Courses.{EndsInStatus, HasNo, Passes, StopsAt, StopsIn, TakesOne, Takes, Cut};
ghost use Rattle.lab_term.specs.Events.{notice_of, text_of, has_error, is_status};
ghost use Rattle.lab_term.specs.Reading.{Holds, Waited};
ghost use Rattle.lab_term.specs.Running.{Followed, end_by};
ghost use Rattle.lab_term.specs.Stopping.{FollowedPrefix};

use crate::cell::CellEnd;
use crate::event::{Event, open_event};
use crate::fault::TermFault;
use crate::subscriber::{Subscriber, refill};
use base_streams::ports::{Inlet, Outlet};
use base_streams::writing::write_all;
use base_text::sequence::Frames;
use std::alloc::Global;
use std::collections::VecDeque;

/// How a cell has gone so far.
#[derive(Clone, Copy, PartialEq, Eq)]
pub(crate) struct Course {
    pub is_idle: bool,
    pub has_failed: bool,
}

// How a cell has gone after the next message.
fn course_after(before: Course, next: Course) -> Course
    ensures idle { result.is_idle ≡ next.is_idle }
    ensures failed { result.has_failed ≡ before.has_failed || next.has_failed }
{
    Course {
        is_idle: next.is_idle,
        has_failed: before.has_failed || next.has_failed,
    }
}

// Whether a message, which is dropped, is a status.
fn is_status(event: Event) -> bool
    ensures { result ≡ is_status (notice_of event) }
{
    let is_status = event.is_status();
    drop(event);
    is_status
}

// Drops the messages up to the first status, and returns whether there was one.
#[tactic(auto, using(crate::proofs::CourseLemmas::passing_first, crate::proofs::CourseLemmas::passing_cut))]
fn pass_status(alloc: Global, queue: &mut VecDeque<Frames>, key: &[u8]) -> Result<bool, TermFault>
    ensures passes { IfOk result (λ found. (p : Passes key.now queue.old.items queue.new.items)
        × (found ≡ true → EndsInStatus p.notices) × (found ≡ false → HasNo is_status p.notices)) }
    ensures rest { IfOk result (λ found. found ≡ false → queue.new.items ≡ []) }
    ensures stops { IfErr result (λ fault. (to : OutletState) → IsWritable to
        → StopsIn key.now queue.old.items to fault) }
{
    while let Some(frames) = queue.pop_front() {
        match open_event(alloc, frames, key) {
            Ok(event) => {
                if is_status(event) {
                    return Ok(true);
                }
            }
            Err(fault) => return Err(fault),
        }
    }
    Ok(false)
}

/// Reads until a status of the kernel has come: it shows that the kernel knows of the subscription.
pub(crate) fn await_status<I: Inlet>(
    alloc: Global,
    from: &mut I,
    subscriber: &mut Subscriber,
    key: &[u8],
) -> Result<(), TermFault>
    requires { IsReadable (I.state from.old) }
    ensures good { OnOk result (IsReadable (I.state from.new)) }
    ensures waited { OnOk result ((before : InletState) → Holds before (I.state from.old) subscriber.old []
        → Waited key.now before (I.state from.new) subscriber.new) }
    // What is printed to isn't the cause, whatever its state.
    ensures stalls { IfErr result (λ fault. (before : InletState) (to : OutletState)
        → Holds before (I.state from.old) subscriber.old [] → IsWritable to
        → Stalls key.now before (I.state from.new) to fault) }
{
    for _ in subscriber.reads..u32::MAX {
        match pass_status(alloc, &mut subscriber.queue, key) {
            Ok(found) => {
                if found {
                    return Ok(());
                }
            }
            Err(fault) => return Err(fault),
        }
        match refill(alloc, from, subscriber) {
            Ok(()) => {}
            Err(fault) => return Err(fault),
        }
    }
    Err(TermFault::ReadFailed)
}

// Prints the text of a message.
fn print<O: Outlet>(alloc: Global, output: &mut O, event: &Event) -> Result<(), TermFault>
    requires { IsWritable (O.state output.old) }
    ensures wrote { OnOk result
        (Took (O.state output.old) (O.state output.new) (text_of (notice_of event.now))) }
    ensures good { OnOk result (IsWritable (O.state output.new)) }
    ensures front { TookPrefix (O.state output.old) (O.state output.new) (text_of (notice_of event.now)) }
    ensures stops { IfErr result (StopsAt [] [] (O.state output.new)) }
{
    let Ok(text) = event.text(alloc) else {
        return Err(TermFault::OutOfMemory);
    };
    match write_all(output, text.as_str().as_bytes()) {
        Ok(()) => Ok(()),
        Err(_) => Err(TermFault::WriteFailed),
    }
}

// Opens a message, and prints its text if it belongs to the request.
#[tactic(auto, using(crate::proofs::CourseLemmas::one_message))]
fn take_message<O: Outlet>(
    alloc: Global,
    output: &mut O,
    frames: Frames,
    key: &[u8],
    header: &[u8],
) -> Result<Course, TermFault>
    requires { IsWritable (O.state output.old) }
    ensures takes { IfOk result (TakesOne (record { key = key.now; header = header.now }) frames
        (O.state output.old) (O.state output.new)) }
    ensures good { OnOk result (IsWritable (O.state output.new)) }
    ensures cut { IfErr result (Cut (record { key = key.now; header = header.now }) (frames ∷ [])
        (O.state output.old) (O.state output.new)) }
{
    let event = match open_event(alloc, frames, key) {
        Ok(event) => event,
        Err(fault) => return Err(fault),
    };
    if !event.is_of(header) {
        return Ok(Course {
            is_idle: false,
            has_failed: false,
        });
    }
    // Nothing is printed of a status.
    if event.is_idle() {
        return Ok(Course {
            is_idle: true,
            has_failed: event.is_error(),
        });
    }
    match print(alloc, output, &event) {
        Ok(()) => Ok(Course {
            is_idle: false,
            has_failed: event.is_error(),
        }),
        Err(fault) => Err(fault),
    }
}

// Takes messages up to the request's idle status. Returns whether it came, and whether there was an error.
#[tactic(auto, using(crate::proofs::CourseLemmas::many_messages))]
fn take_messages<O: Outlet>(
    alloc: Global,
    output: &mut O,
    queue: &mut VecDeque<Frames>,
    key: &[u8],
    header: &[u8],
) -> Result<Course, TermFault>
    requires { IsWritable (O.state output.old) }
    ensures rest { IfOk result (λ course. course.is_idle ≡ false → queue.new.items ≡ []) }
    ensures takes { IfOk result (Takes (record { key = key.now; header = header.now })
        queue.old.items queue.new.items (O.state output.old) (O.state output.new)) }
    ensures good { OnOk result (IsWritable (O.state output.new)) }
    ensures cut { IfErr result (Cut (record { key = key.now; header = header.now }) queue.old.items
        (O.state output.old) (O.state output.new)) }
{
    let mut course = Course {
        is_idle: false,
        has_failed: false,
    };
    while let Some(frames) = queue.pop_front() {
        match take_message(alloc, output, frames, key, header) {
            Ok(next) => course = course_after(course, next),
            Err(fault) => return Err(fault),
        }
        if course.is_idle {
            return Ok(course);
        }
    }
    Ok(course)
}

fn end_by(has_failed: bool) -> CellEnd
    ensures { result ≡ end_by has_failed }
{
    if has_failed {
        CellEnd::Error
    } else {
        CellEnd::Success
    }
}

/// Prints what the kernel publishes about the request with this header, up to its idle status, and returns
/// how the cell ended.
pub(crate) fn follow<I: Inlet, O: Outlet>(
    alloc: Global,
    from: &mut I,
    output: &mut O,
    subscriber: &mut Subscriber,
    key: &[u8],
    header: &[u8],
) -> Result<CellEnd, TermFault>
    requires readable { IsReadable (I.state from.old) }
    requires writable { IsWritable (O.state output.old) }
    ensures followed { IfOk result (λ end. (before : InletState) (passed : Messages)
        → Holds before (I.state from.old) subscriber.old passed
        → (f : Followed (record { key = key.now; header = header.now }) passed
        (record { from = before; to = O.state output.old })
        (record { from = I.state from.new; to = O.state output.new }))
        × (end ≡ end_by (has_error header.now f.notices))) }
    ensures front { IfErr result (λ fault. (before : InletState) (passed : Messages)
        → Holds before (I.state from.old) subscriber.old passed
        → FollowedPrefix (record { key = key.now; header = header.now }) passed
        (record { from = before; to = O.state output.old })
        (record { from = I.state from.new; to = O.state output.new }) fault) }
    ensures stalls { IfErr result (λ fault. (before : InletState) (passed : Messages)
        → Holds before (I.state from.old) subscriber.old passed
        → Stalls key.now before (I.state from.new) (O.state output.new) fault) }
{
    let mut course = Course {
        is_idle: false,
        has_failed: false,
    };
    for _ in subscriber.reads..u32::MAX {
        match take_messages(alloc, output, &mut subscriber.queue, key, header) {
            Ok(next) => {
                course = course_after(course, next);
                if course.is_idle {
                    return Ok(end_by(course.has_failed));
                }
            }
            Err(fault) => return Err(fault),
        }
        match refill(alloc, from, subscriber) {
            Ok(()) => {}
            Err(fault) => return Err(fault),
        }
    }
    Err(TermFault::ReadFailed)
}
