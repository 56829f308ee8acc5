//! Calls as tests write them, in turn on a new board.

use crate::checks::expect;
use i80_base::flags::Flags;
use i80_exec::registers::{Interrupts, Registers};
use lab_core::lab::Lab;
use lab_core::lab::moments::Moment;
use lab_core::marks::Marks;
use lab_shown::place::Place;
use lab_test_kit::script::{Step, event_of, tell_event};
use lab_test_kit::told::put_told;
use std::alloc::{AllocError, Global};
use std::process::Abort;

/// A call as a test writes it, or a look at what was left.
#[derive(Clone, Copy)]
pub enum Call {
    /// An event.
    Apply(Step),
    /// Loads a text without END under the path p and starts at address 0.
    Start(&'static str),
    /// Makes a mark of an address.
    Address(u16),
    /// Watches a place.
    Watch(Place),
    /// A slice to the first mark, of at most so many steps; and what it leaves of the marks.
    SliceTo(u16),
    Write(u16, &'static [u8]),
    /// Sets PC, SP and the interrupt state; A to L become 1 to 7, of the flags S and CY are set.
    SetRegisters(u16, u16, Interrupts),
    /// Keeps the moment at which the run is.
    Moment,
    /// Puts the run back to the moment that was kept last.
    PutBack,
    Hold,
    /// PC, SP, and how many frames are live.
    Registers,
}

/// A board with the marks of its slices, and the moment that was kept last.
#[derive(Drop)]
struct Bench {
    lab: Lab,
    marks: Marks,
    moment: Option<Moment>,
}

fn new_bench(alloc: Global) -> Result<Bench, AllocError> {
    let lab = Lab::new(alloc)?;
    let marks = Marks::new(alloc)?;
    Ok(Bench {
        lab,
        marks,
        moment: None,
    })
}

// Whether the last slice ended at a mark, where PC was before its last step, and what each watched place held
// before and after it.
fn put_marks(told: &mut String, marks: &Marks) -> Result<(), AllocError> {
    told.push_str(if marks.is_met() { "met" } else { "not met" })?;
    write!(told, " from {:04X}", marks.stepped_from())?;
    for watch in marks.watches() {
        write!(told, " {:X}>{:X}", watch.before, watch.after)?;
    }
    told.push('\n')
}

fn slice_to(bench: &mut Bench, n: u16, told: &mut String) -> Result<(), AllocError> {
    let answer = bench.lab.slice_to(n, &mut bench.marks);
    let put = put_told(told, &answer);
    drop(answer);
    put?;
    put_marks(told, &bench.marks)
}

fn registers(pc: u16, sp: u16, interrupts: Interrupts) -> Registers {
    Registers {
        a: 1,
        b: 2,
        c: 3,
        d: 4,
        e: 5,
        h: 6,
        l: 7,
        flags: Flags::from_byte(0x83),
        sp,
        pc,
        interrupts,
    }
}

fn keep(bench: &mut Bench) -> Result<(), AllocError> {
    let moment = bench.lab.moment()?;
    bench.moment = Some(moment);
    Ok(())
}

fn put_back(bench: &mut Bench, told: &mut String) -> Result<(), AllocError> {
    match &bench.moment {
        Some(moment) => bench.lab.put_back(moment),
        None => told.push_str("no moment\n"),
    }
}

fn put_registers(told: &mut String, lab: &Lab) -> Result<(), AllocError> {
    let regs = lab.regs();
    let live = lab.frames().len();
    write!(told, "{:04X} {:04X} {live}\n", regs.pc, regs.sp)
}

// Applies the event of a step, and adds what it answers.
fn apply(
    alloc: Global,
    bench: &mut Bench,
    step: Step,
    told: &mut String,
) -> Result<(), AllocError> {
    match event_of(alloc, step)? {
        Some(event) => tell_event(&mut bench.lab, event, told),
        None => told.push_str("no event\n"),
    }
}

fn begin(
    alloc: Global,
    bench: &mut Bench,
    text: &'static str,
    begun: &mut String,
) -> Result<(), AllocError> {
    apply(alloc, bench, Step::Load("p", text), begun)?;
    apply(alloc, bench, Step::Start(0), begun)
}

fn put_begun(told: &mut String, begun: &str) -> Result<(), AllocError> {
    if begun == "Loaded { start: None }\nStarted\n" {
        return Ok(());
    }
    told.push_str(begun)
}

// Adds what the load and the start answer, where it is something else.
fn start(
    alloc: Global,
    bench: &mut Bench,
    text: &'static str,
    told: &mut String,
) -> Result<(), AllocError> {
    let mut begun = String::new(alloc);
    let put = match begin(alloc, bench, text, &mut begun) {
        Ok(()) => put_begun(told, begun.as_str()),
        Err(error) => Err(error),
    };
    drop(begun);
    put
}

// Makes a call, and adds what it answers.
fn make(alloc: Global, bench: &mut Bench, call: Call, told: &mut String) -> Result<(), AllocError> {
    match call {
        Call::Apply(step) => return apply(alloc, bench, step, told),
        Call::Start(text) => return start(alloc, bench, text, told),
        Call::Address(address) => bench.marks.add_address(address),
        Call::Watch(place) => return bench.marks.watch(place),
        Call::SliceTo(n) => return slice_to(bench, n, told),
        Call::Write(address, bytes) => bench.lab.write(address, bytes),
        Call::SetRegisters(pc, sp, interrupts) => {
            bench.lab.set_registers(registers(pc, sp, interrupts));
        }
        Call::Moment => return keep(bench),
        Call::PutBack => return put_back(bench, told),
        Call::Hold => bench.lab.hold(),
        Call::Registers => return put_registers(told, &bench.lab),
    }
    Ok(())
}

fn make_all(
    alloc: Global,
    bench: &mut Bench,
    calls: &[Call],
    told: &mut String,
) -> Result<(), AllocError> {
    for call in calls {
        make(alloc, bench, *call, told)?;
    }
    Ok(())
}

// Adds what calls show on a new board.
fn put_calls(alloc: Global, calls: &[Call], told: &mut String) -> Result<(), AllocError> {
    let mut bench = new_bench(alloc)?;
    let made = make_all(alloc, &mut bench, calls, told);
    drop(bench);
    made
}

/// What a play is about, its calls, and the lines that they show on a new board.
pub type Play = (&'static str, &'static [Call], &'static str);

// Adds what a play is about and what it shows, where it shows other lines.
fn put_wrong(alloc: Global, play: &Play, wrong: &mut String) -> Result<(), AllocError> {
    let (about, calls, wanted) = *play;
    let mut told = String::new(alloc);
    put_calls(alloc, calls, &mut told)?;
    if told.as_str() != wanted {
        write!(wrong, "{about}: {}\n", told.as_str())?;
    }
    Ok(())
}

fn put_all_wrong(alloc: Global, plays: &[Play], wrong: &mut String) -> Result<(), AllocError> {
    for play in plays {
        put_wrong(alloc, play, wrong)?;
    }
    Ok(())
}

/// Expects each of these plays to show its lines. The message is what those are about that show others, and
/// what they show.
pub fn expect_right<R: Abort>(rt: &R, alloc: Global, plays: &[Play]) -> Result<(), AllocError> {
    let mut wrong = String::new(alloc);
    put_all_wrong(alloc, plays, &mut wrong)?;
    expect(rt, "other lines", wrong.as_str(), "");
    drop(wrong);
    Ok(())
}
