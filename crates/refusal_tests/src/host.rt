//! A kernel that serves three connections over memory. Where a thread of it ended for want of memory, it did
//! so alone: what each of them was sent is compared with what a new kernel gives if the journal's calls are
//! made on it again.
ghost use Rattle.std.specs.Prelude.{◌≡◌, [], All, IfOk, IfErr};
ghost use Rattle.kern_host.specs.Guests.{IsComing};

use crate::again::{TWICE, again, fail, tell_want};
use crate::answers::name_of;
use crate::host_replay::{MOST, SCRIPTS, Script, sent_to};
use crate::made::new_kernel;
use anyhow::{Result, bail};
use base_streams::memory::{Sink, Source};
use kern_core::kernel::Kernel;
use kern_desk::seated::Seated;
use kern_host::end::{Ends, VisitEnd};
use kern_host::guest::Guest;
use kern_host::host::{Hosted, host};
use kern_host::server::Seal;
use kern_net::end::PumpEnd;
use kern_net_kit::gates::{InGate, OutGate, Quiet, UpTo, WorkGate};
use std::alloc::{AllocError, Global};
use std::rt::Clock;
use std::sync::Wait;
use std::thread::Threads;

type MemoryGuest = Guest<Source, Sink, InGate<Quiet>, OutGate<UpTo>>;

// The threads never wait for one another: their gates say no as soon as there is nothing to do.
const AT_ONCE: UpTo = UpTo {
    befores: u64::MAX,
    idles: 0,
};

// `host` serves no more.
const MOST_GUESTS: usize = 511;

fn guest_of(alloc: Global, script: Script) -> Result<MemoryGuest, AllocError>
    ensures { IfOk result IsComing }
{
    let mut bytes = script.hello.to_vec(alloc)?;
    bytes.extend_from_slice(script.bytes)?;
    Ok(Guest::new(
        script.channel,
        Source::new(bytes, 4096, 9999),
        Sink::new(alloc, 1 << 20, 9999),
        InGate::new(Quiet),
        OutGate::new(AT_ONCE),
    ))
}

fn guests_of(alloc: Global) -> Result<Vec<MemoryGuest>, AllocError>
    ensures { IfOk result (λ guests. All IsComing guests.items) }
{
    let mut guests = Vec::new(alloc);
    for script in SCRIPTS {
        guests.push(guest_of(alloc, *script)?)?;
    }
    Ok(guests)
}

fn host_once<R: Threads + Wait + Clock + Sync>(
    rt: &R,
    alloc: Global,
    kernel: Kernel,
    guests: &mut [MemoryGuest],
) -> Result<Hosted, Kernel>
    requires kernel { kernel.entries ≡ [] }
    requires coming { All IsComing guests.old }
    ensures { IfErr result (λ back. (back ≡ kernel) × (guests.new ≡ guests.old)) }
{
    if guests.len() > MOST_GUESTS {
        return Err(kernel);
    }
    let mut gate = WorkGate::new(AT_ONCE);
    let seal = Seal {
        key: b"",
        session: "S",
    };
    host(rt, alloc, kernel, &seal, &mut gate, guests)
}

// Serves the guests, and once more if there was no memory to begin: then nothing was written.
fn serve<R: Threads + Wait + Clock + Print + Sync>(
    rt: &R,
    alloc: Global,
    guests: &mut [MemoryGuest],
) -> Result<Hosted>
    requires { All IsComing guests.old }
{
    let kernel = new_kernel(rt, alloc)?;
    match host_once(rt, alloc, kernel, guests) {
        Ok(hosted) => Ok(hosted),
        Err(kernel) => {
            tell_want(rt, "host")?;
            if guests.iter().any(|guest| is_begun(guest)) {
                return fail("a guest was served without memory to begin");
            }
            match host_once(rt, alloc, kernel, guests) {
                Ok(hosted) => Ok(hosted),
                Err(kernel) => {
                    drop(kernel);
                    fail(TWICE)
                }
            }
        }
    }
}

// Whether anything was done for a guest.
fn is_begun(guest: &MemoryGuest) -> bool {
    guest.end().is_some() || !guest.outlet().as_slice().is_empty()
}

// Whether a visit ended as it does with ample memory.
fn is_whole(guest: &MemoryGuest) -> bool {
    guest.end()
        == Some(VisitEnd::Served(Ends {
            reading: PumpEnd::PeerEnded,
            writing: Some(PumpEnd::Ended),
            leave: Ok(()),
        }))
}

fn check_sent(place: usize, guest: &MemoryGuest, wanted: &[u8]) -> Result<()> {
    let sent = guest.outlet().as_slice();
    if !wanted.starts_with(sent) {
        bail!("guest {place} was sent other bytes");
    }
    if is_whole(guest) && sent.len() != wanted.len() {
        bail!("guest {place} was sent a part");
    }
    Ok(())
}

// A guest was sent what the journal's calls give if they are made again, or a prefix of that if it ended for
// want of memory.
fn check(
    rt: &impl Print,
    alloc: Global,
    seated: &Seated,
    guest: (usize, &MemoryGuest),
) -> Result<()> {
    let (place, guest) = guest;
    let wanted = again!(rt, "the replay", sent_to(alloc, seated, place));
    let is_so = check_sent(place, guest, wanted.as_slice());
    drop(wanted);
    is_so
}

// Tells the calls of a seat.
fn tell_calls_of(rt: &impl Print, seated: &Seated, wanted: usize) -> Result<()> {
    print!(rt; "seat {wanted}:")?;
    for place in 0..MOST {
        if let Some((seat, call)) = seated.entry(place)
            && seat as usize == wanted
        {
            let (name, _) = name_of(call);
            print!(rt; " {name}")?;
        }
    }
    println!(rt)?;
    Ok(())
}

// Tells the calls of each reader. In which order the threads take turns depends on whether there is memory to
// start them.
fn tell_calls(rt: &impl Print, seated: &Seated) -> Result<()> {
    for guest in 0..SCRIPTS.len() {
        tell_calls_of(rt, seated, 2 * guest)?;
    }
    Ok(())
}

// Checks what was sent. Tells it if no thread ended for want of memory; otherwise returns false.
fn tell(rt: &impl Print, alloc: Global, hosted: &Hosted, guests: &[MemoryGuest]) -> Result<bool> {
    let mut wanting = 0u32;
    for (place, guest) in guests.iter().enumerate() {
        check(rt, alloc, &hosted.seated, (place, guest))?;
        if !is_whole(guest) {
            wanting = wanting.saturating_add(1);
        }
    }
    if hosted.end != PumpEnd::Ended {
        wanting = wanting.saturating_add(1);
    }
    if wanting > 1 {
        bail!("{wanting} threads ended for want of memory");
    }
    if wanting == 1 {
        return Ok(false);
    }
    tell_calls(rt, &hosted.seated)?;
    Ok(true)
}

// Serves new guests; false if a thread ended for want of memory.
fn attempt<R: Threads + Wait + Clock + Print + Sync>(rt: &R, alloc: Global) -> Result<bool> {
    let mut guests = again!(rt, "guests", guests_of(alloc));
    let told = match serve(rt, alloc, guests.as_mut_slice()) {
        Ok(hosted) => {
            let told = tell(rt, alloc, &hosted, guests.as_slice());
            drop(hosted);
            told
        }
        Err(error) => Err(error),
    };
    drop(guests);
    told
}

/// The run.
pub fn run<R: Threads + Wait + Clock + Print + Sync>(rt: &R, alloc: Global) -> Result<()> {
    if attempt(rt, alloc)? {
        return Ok(());
    }
    tell_want(rt, "a guest or the worker")?;
    match attempt(rt, alloc)? {
        true => Ok(()),
        false => fail(TWICE),
    }
}
