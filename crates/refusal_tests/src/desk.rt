//! A desk over a kernel: six turns over three passes.
ghost use Rattle.std.specs.Prelude.{◌≡◌, [], All, IfOk};

use crate::again::{TWICE, fail, tell_want};
use crate::answers::{name_of, tell_answer};
use crate::made::{new_call, new_kernel};
use anyhow::{Error, Result};
use jup_wire::channel::Channel::{Iopub, Shell};
use kern_core::call::Reply;
use kern_core::fault::KernelFault;
use kern_desk::desks::close_desk;
use kern_desk::seated::{Desk, Pass, Seated};
use kern_test_kit::actions::Action;
use kern_test_kit::actions::Action::{Fetch, Join, Send, Slice, Subscribe};
use lab_turn::turnstile::{OpenFault, Turnstile};
use std::alloc::Global;
use std::sync::Wait;

// A seat, and its call.
const TURNS: &[(usize, Action)] = &[
    (0, Join(Shell)),
    (1, Join(Iopub)),
    (2, Slice),
    (1, Subscribe(2)),
    (0, Send(1, Shell, "kernel_info_request", "{}")),
    (1, Fetch(2, 1)),
];

fn open_again(rt: &impl Print, alloc: Global, value: Seated) -> Result<(Desk, Vec<Pass>)>
    requires { value.entries ≡ [] }
    ensures { IfOk result (λ opened. All (λ p. p.turnstile ≡ opened.0) opened.1.items) }
{
    tell_want(rt, "open")?;
    match Turnstile::open(alloc, value, 3) {
        Ok(opened) => Ok(opened),
        Err(refused) => {
            drop(refused);
            Err(Error::msg(TWICE))
        }
    }
}

fn open(rt: &impl Print, alloc: Global) -> Result<(Desk, Vec<Pass>)>
    ensures { IfOk result (λ opened. All (λ p. p.turnstile ≡ opened.0) opened.1.items) }
{
    let kernel = new_kernel(rt, alloc)?;
    match Turnstile::open(alloc, Seated::new(alloc, kernel), 3) {
        Ok(opened) => Ok(opened),
        Err(OpenFault::OutOfMemory(value)) => open_again(rt, alloc, value),
    }
}

// Tells what a turn answered; false where there was no memory for its call.
fn tell_taken(rt: &impl Print, answer: &Result<Reply, KernelFault>) -> Result<bool> {
    if matches!(answer, Err(KernelFault::OutOfMemory)) {
        return Ok(false);
    }
    tell_answer(rt, answer)?;
    Ok(true)
}

// Makes a turn; false where the kernel had no memory for its call.
fn attempt<R: Wait + Print>(
    rt: &R,
    alloc: Global,
    desk: &Desk,
    pass: &mut Pass,
    action: Action,
    unix_seconds: u64,
) -> Result<bool>
    requires { pass.old.turnstile ≡ desk.now }
    ensures { pass.new.turnstile ≡ desk.now }
{
    let call = new_call(rt, alloc, action, unix_seconds)?;
    let answer = desk.turn(rt, pass, call)?;
    let told = tell_taken(rt, &answer);
    drop(answer);
    told
}

// Makes a turn, and once more where the kernel had no memory for its call: it was passed on, or this one
// would wait for ever.
fn make<R: Wait + Print>(
    rt: &R,
    alloc: Global,
    desk: &Desk,
    pass: &mut Pass,
    action: Action,
    unix_seconds: u64,
) -> Result<()>
    requires { pass.old.turnstile ≡ desk.now }
    ensures { pass.new.turnstile ≡ desk.now }
{
    if attempt(rt, alloc, desk, pass, action, unix_seconds)? {
        return Ok(());
    }
    tell_want(rt, "turn")?;
    match attempt(rt, alloc, desk, pass, action, unix_seconds)? {
        true => Ok(()),
        false => fail(TWICE),
    }
}

fn make_at<R: Wait + Print>(
    rt: &R,
    alloc: Global,
    desk: &Desk,
    passes: &mut [Pass],
    turn: (usize, Action),
    unix_seconds: u64,
) -> Result<()>
    requires { All (λ p. p.turnstile ≡ desk.now) passes.old }
    ensures { All (λ p. p.turnstile ≡ desk.now) passes.new }
{
    let (seat, action) = turn;
    if seat >= passes.len() {
        return fail("there is no such seat");
    }
    make(rt, alloc, desk, &mut passes[seat], action, unix_seconds)
}

fn make_all<R: Wait + Print>(rt: &R, alloc: Global, desk: &Desk, passes: &mut [Pass]) -> Result<()>
    requires { All (λ p. p.turnstile ≡ desk.now) passes.old }
    ensures { All (λ p. p.turnstile ≡ desk.now) passes.new }
{
    for (place, turn) in TURNS.iter().enumerate() {
        make_at(rt, alloc, desk, passes, *turn, place as u64)?;
    }
    Ok(())
}

fn tell_entries(rt: &impl Print, seated: &Seated) -> Result<()> {
    for place in 0..TURNS.len() {
        if let Some((seat, call)) = seated.entry(place) {
            let (name, connection) = name_of(call);
            println!(rt; "entry {place}: seat {seat}, {name} {connection}")?;
        }
    }
    if seated.entry(TURNS.len()).is_some() {
        return fail("a refused turn left an entry");
    }
    Ok(())
}

// Closes the desk, and tells the entries of its kernel.
fn close(rt: &impl Print, desk: Desk, passes: Vec<Pass>) -> Result<()>
    requires { All (λ p. p.turnstile ≡ desk) passes.items }
{
    match close_desk(desk, passes) {
        Some(seated) => {
            let told = tell_entries(rt, &seated);
            drop(seated);
            told
        }
        None => fail("a pass is missing"),
    }
}

/// The run.
pub fn run<R: Wait + Print>(rt: &R, alloc: Global) -> Result<()> {
    let (desk, mut passes) = open(rt, alloc)?;
    match make_all(rt, alloc, &desk, passes.as_mut_slice()) {
        Ok(()) => close(rt, desk, passes),
        Err(error) => {
            drop(passes);
            drop(desk);
            Err(error)
        }
    }
}
