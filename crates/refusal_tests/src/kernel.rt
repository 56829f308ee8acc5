//! Kernels from the first Join to the shutdown, with the frames of each post that is fetched.

use crate::again::{TWICE, fail, tell_want};
use crate::answers::{name_of, tell_answer, tell_posts};
use crate::made::{new_call, new_kernel};
use crate::scripts::action;
use anyhow::{Result, bail};
use kern_core::call::Reply;
use kern_core::fault::KernelFault;
use kern_core::kernel::Kernel;
use kern_test_kit::actions::Action;
use std::alloc::Global;

// Whether a kernel has exactly so many entries.
fn has_entries(kernel: &Kernel, count: usize) -> bool {
    let is_last = count == 0 || kernel.entry(count - 1).is_some();
    is_last && kernel.entry(count).is_none()
}

// Tells what a call answered, and the frames of the posts that it gave; false where there was no memory for
// it.
fn tell_whole(rt: &impl Print, alloc: Global, answer: &Result<Reply, KernelFault>) -> Result<bool> {
    if matches!(answer, Err(KernelFault::OutOfMemory)) {
        return Ok(false);
    }
    tell_answer(rt, answer)?;
    tell_posts(rt, alloc, answer)?;
    Ok(true)
}

// Makes a call; false where the kernel had no memory for it.
fn attempt(
    rt: &impl Print,
    alloc: Global,
    kernel: &mut Kernel,
    action: Action,
    place: usize,
) -> Result<bool> {
    let call = new_call(rt, alloc, action, place as u64)?;
    let answer = kernel.act(call);
    let told = tell_whole(rt, alloc, &answer);
    drop(answer);
    told
}

// Makes a call, and once more where the kernel had no memory for it: then it left no entry.
fn make(
    rt: &impl Print,
    alloc: Global,
    kernel: &mut Kernel,
    action: Action,
    place: usize,
) -> Result<()> {
    if attempt(rt, alloc, kernel, action, place)? {
        return Ok(());
    }
    tell_want(rt, "act")?;
    if !has_entries(kernel, place) {
        return fail("a refused call left an entry");
    }
    match attempt(rt, alloc, kernel, action, place)? {
        true => Ok(()),
        false => fail(TWICE),
    }
}

fn tell_entries(rt: &impl Print, kernel: &Kernel, count: usize) -> Result<()> {
    for place in 0..count {
        if let Some(call) = kernel.entry(place) {
            let (name, connection) = name_of(call);
            println!(rt; "entry {place}: {name} {connection}")?;
        }
    }
    if !has_entries(kernel, count) {
        return fail("the entries aren't the calls");
    }
    Ok(())
}

fn make_all(
    rt: &impl Print,
    alloc: Global,
    kernel: &mut Kernel,
    script: &'static str,
) -> Result<()> {
    for (place, row) in script.lines().enumerate() {
        let Some(action) = action(row) else {
            bail!("{row}: there is no such call");
        };
        make(rt, alloc, kernel, action, place)?;
    }
    tell_entries(rt, kernel, script.lines().count())
}

/// The run of these calls.
pub fn run(rt: &impl Print, alloc: Global, script: &'static str) -> Result<()> {
    let mut kernel = new_kernel(rt, alloc)?;
    let made = make_all(rt, alloc, &mut kernel, script);
    drop(kernel);
    made
}
