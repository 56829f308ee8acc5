//! Runs in slices of several lengths, beside the same run in slices of one step.
ghost use Rattle.std.specs.Prelude.{◌≤◌};

use i80_base::ports::PortOperation;
use i80_devs::traffic::Traffic;
use i80_exec::registers::{Interrupts, Registers};
use lab_core::answer::{Answer, End, SliceOutcome, Stop};
use lab_core::event::Event;
use lab_core::fault::EventFault;
use lab_core::lab::Lab;
use lab_frames::frames::Frames;
use lab_test_kit::script::{is_done, load_text, poke, set_breakpoints};
use std::alloc::{AllocError, Global};
use std::rt::HostRuntime;

/// A program that starts at 0, the lines with a breakpoint, the values that SP is given by hand (a debugger
/// is attached where there are any of either), and how many steps lie between changes of SP and between
/// presses of the request button.
#[derive(Clone, Copy)]
struct Program {
    about: &'static str,
    text: &'static str,
    lines: &'static [u32],
    tops: &'static [&'static str],
    stretch: u32,
}

const PROGRAMS: &[Program] = &[
    Program {
        about: "IN and OUT in a loop",
        text: "X: IN 0\nOUT 2\nINR A\nOUT 7\nIN 1\nJMP X\n",
        lines: &[],
        tops: &[],
        stretch: 126,
    },
    Program {
        about: "EI and DI in a loop, with requests",
        text: concat!(
            "ORG 38H\nINR C\nEI\nRET\nORG 0\nJMP 100H\nORG 100H\nX: LXI SP,4000H\nEI\nNOP\n",
            "DI\nINR B\nEI\nEI\nNOP\nJMP X\n",
        ),
        lines: &[],
        tops: &[],
        stretch: 42,
    },
    Program {
        about: "HLT with interrupts on at a slice's end",
        text: concat!(
            "ORG 38H\nINR C\nEI\nRET\nORG 0\nJMP 100H\nORG 100H\nX: LXI SP,4000H\nEI\nNOP\n",
            "NOP\nHLT\nINR B\nJMP X\n",
        ),
        lines: &[],
        tops: &[],
        stretch: 42,
    },
    Program {
        about: "HLT with interrupts off",
        text: "MVI B,5\nX: DCR B\nJNZ X\nHLT\nNOP\n",
        lines: &[],
        tops: &[],
        stretch: 42,
    },
    Program {
        about: "code that changes itself into an undefined opcode",
        text: "LXI H,Y\nMVI B,9\nX: DCR B\nJNZ Y\nMVI M,8\nY: NOP\nINR M\nDCR M\nJMP X\n",
        lines: &[],
        tops: &[],
        stretch: 42,
    },
    Program {
        about: "SP that wraps",
        text: concat!(
            "X: LXI SP,2\nCALL Y\nPUSH H\nPUSH D\nINX SP\nINX SP\nPOP B\nPOP B\n",
            "LXI SP,0FFFEH\nCALL Y\nPOP D\nDCX SP\nJMP X\nORG 100H\nY: PUSH B\nINX SP\n",
            "INX SP\nPUSH PSW\nPOP PSW\nRET\n",
        ),
        lines: &[],
        tops: &[],
        stretch: 126,
    },
    Program {
        about: "calls that are left by LXI SP and by POP",
        text: concat!(
            "LXI SP,4000H\nX: CALL Y\nCALL Z\nJMP X\nY: CALL Z\nPUSH B\nPOP B\nRET\n",
            "Z: POP H\nPUSH H\nPOP H\nINR A\nJPO W\nLXI SP,4000H\nW: PCHL\n",
        ),
        lines: &[],
        tops: &[],
        stretch: 126,
    },
    Program {
        about: "a breakpoint on each instruction",
        text: "LXI SP,4000H\nX: CALL Y\nINR B\nOUT 2\nJMP X\nY: DCR C\nRNZ\nRET\n",
        lines: &[1, 2, 3, 4, 5, 6, 7, 8],
        tops: &[],
        stretch: 126,
    },
    Program {
        about: "a breakpoint that is met seldom",
        text: "LXI SP,4000H\nX: CALL Y\nINR B\nJNZ X\nOUT 2\nJMP X\nY: EI\nDCR C\nRET\n",
        lines: &[5],
        tops: &[],
        stretch: 126,
    },
    Program {
        about: "calls and returns after changes of SP by hand",
        text: "LXI SP,0FFFEH\nX: CALL Y\nJMP X\nY: PUSH B\nCALL Z\nPOP B\nRET\nZ: INR A\nRPE\nCNZ Z\nRET\n",
        lines: &[],
        tops: &[
            "65535", "16384", "2", "16382", "65534", "0", "16386", "16380",
        ],
        stretch: 29,
    },
];

/// The lengths of slices that are compared with slices of one step.
const LENGTHS: &[u16] = &[2, 3, 7, 4096];

/// How many stretches of a program are made, at most.
const STRETCHES: u32 = 24;

fn code_of(outcome: SliceOutcome) -> u32 {
    match outcome {
        SliceOutcome::More => 0,
        SliceOutcome::Waiting => 1,
        SliceOutcome::Stop(Stop::Breakpoint) => 2,
        SliceOutcome::Stop(Stop::Step) => 3,
        SliceOutcome::End(End::Halted) => 4,
        SliceOutcome::End(End::Undefined { opcode, .. }) => 256 + opcode as u32,
    }
}

fn operation_code(operation: &PortOperation) -> u32 {
    match operation {
        PortOperation::In { port, byte } => u32::from_be_bytes([0, 1, *port, *byte]),
        PortOperation::Out { port, byte } => u32::from_be_bytes([0, 2, *port, *byte]),
    }
}

fn put_traffic(kept: &mut Vec<u32>, traffic: &Traffic) -> Result<(), AllocError> {
    for operation in traffic.as_slice() {
        kept.push(operation_code(operation))?;
    }
    Ok(())
}

/// How a slice went: how many steps it made, and a number for its outcome.
#[derive(Clone, Copy)]
struct Sliced {
    executed: u32,
    code: u32,
}

// Keeps the traffic of a slice. None where it was refused.
fn put_slice(
    kept: &mut Vec<u32>,
    answer: &Result<Answer, EventFault>,
) -> Result<Option<Sliced>, AllocError> {
    let Ok(
        Answer::Sliced {
            executed,
            traffic,
            outcome,
        },
    ) = answer
    else {
        return Ok(None);
    };
    put_traffic(kept, traffic)?;
    Ok(Some(Sliced {
        executed: *executed as u32,
        code: code_of(*outcome),
    }))
}

// A slice, whose traffic is kept. None where it is refused.
fn slice(lab: &mut Lab, n: u16, kept: &mut Vec<u32>) -> Result<Option<Sliced>, AllocError>
    requires some { 1 ≤ n }
    requires few { n ≤ 4096 }
{
    let answer = lab.apply(&Event::Slice(n));
    let sliced = put_slice(kept, &answer);
    drop(answer);
    sliced
}

fn put_registers(kept: &mut Vec<u32>, regs: Registers) -> Result<(), AllocError> {
    let interrupts = match regs.interrupts {
        Interrupts::Off => 0u32,
        Interrupts::Arming => 1,
        Interrupts::On => 2,
    };
    for word in [
        regs.pc as u32,
        regs.sp as u32,
        u32::from_be_bytes([0, 0, regs.a, regs.flags.to_byte()]),
        u32::from_be_bytes([0, 0, regs.b, regs.c]),
        u32::from_be_bytes([0, 0, regs.d, regs.e]),
        u32::from_be_bytes([0, 0, regs.h, regs.l]),
        interrupts,
    ] {
        kept.push(word)?;
    }
    Ok(())
}

fn put_frames(kept: &mut Vec<u32>, frames: &Frames) -> Result<(), AllocError> {
    for age in 0..frames.len() {
        if let Some(frame) = frames.get(age) {
            kept.push(frame.slot as u32)?;
            kept.push(frame.target as u32)?;
            kept.push(frame.site as u32)?;
        }
    }
    Ok(())
}

// So many steps in slices of at most n, or until a reason comes; it is kept with its place. Whether the run
// goes on.
fn stretch(lab: &mut Lab, n: u16, count: u32, kept: &mut Vec<u32>) -> Result<bool, AllocError>
    requires some { 1 ≤ n }
    requires few { n ≤ 4096 }
{
    let mut left = count;
    for _ in 0..count {
        if left == 0 {
            return Ok(true);
        }
        let most = if left < n as u32 { left as u16 } else { n };
        let Some(sliced) = slice(lab, most, kept)? else {
            return Ok(false);
        };
        left = left.saturating_sub(sliced.executed);
        if sliced.code > 0 {
            kept.push(sliced.code)?;
            kept.push(left)?;
            return Ok(sliced.code < 4);
        }
    }
    Ok(true)
}

fn resume(lab: &mut Lab) {
    let _ = is_done(lab, &Event::Resume);
}

// Gives SP the next of the program's values, while the run is stopped.
fn change_sp(
    alloc: Global,
    lab: &mut Lab,
    program: &Program,
    place: u32,
) -> Result<(), AllocError> {
    if program.tops.is_empty() {
        return Ok(());
    }
    let top = program.tops[place as usize % program.tops.len()];
    let change = poke(alloc, 1, "SP", top)?;
    let _ = is_done(lab, &Event::Pause);
    let _ = is_done(lab, &change);
    drop(change);
    Ok(())
}

// After a stretch SP is changed and the button is pressed, and a stopped run goes on.
fn make_stretches(
    alloc: Global,
    lab: &mut Lab,
    program: &Program,
    n: u16,
    kept: &mut Vec<u32>,
) -> Result<(), AllocError>
    requires some { 1 ≤ n }
    requires few { n ≤ 4096 }
{
    for place in 0..STRETCHES {
        if !stretch(lab, n, program.stretch, kept)? {
            return Ok(());
        }
        change_sp(alloc, lab, program, place)?;
        resume(lab);
        if place % 2 == 1 {
            let _ = is_done(lab, &Event::Press(7));
        }
        put_registers(kept, lab.regs())?;
        put_frames(kept, lab.frames())?;
    }
    Ok(())
}

// Sets breakpoints on lines. Whether it was accepted.
fn set_lines(alloc: Global, lab: &mut Lab, lines: &[u32]) -> Result<bool, AllocError> {
    let Some(event) = set_breakpoints(alloc, "a", lines)? else {
        return Ok(false);
    };
    let is_set = is_done(lab, &event);
    drop(event);
    Ok(is_set)
}

fn begin(alloc: Global, lab: &mut Lab, program: &Program) -> Result<bool, AllocError> {
    if !load_text(alloc, lab, "a", program.text)? {
        return Ok(false);
    }
    let is_debugged = !program.tops.is_empty() || !program.lines.is_empty();
    if is_debugged && !is_done(lab, &Event::Attach) {
        return Ok(false);
    }
    if !program.lines.is_empty() && !set_lines(alloc, lab, program.lines)? {
        return Ok(false);
    }
    Ok(is_done(lab, &Event::Start(0)))
}

fn put_board(kept: &mut Vec<u32>, lab: &Lab) -> Result<(), AllocError> {
    put_registers(kept, lab.regs())?;
    put_frames(kept, lab.frames())?;
    for address in 0..=u16::MAX {
        kept.push(lab.peek(address) as u32)?;
    }
    Ok(())
}

// Keeps all that is seen of a run on a new board in slices of n. Whether it could be begun.
fn put_run(
    alloc: Global,
    lab: &mut Lab,
    program: &Program,
    n: u16,
    kept: &mut Vec<u32>,
) -> Result<bool, AllocError>
    requires some { 1 ≤ n }
    requires few { n ≤ 4096 }
{
    if !begin(alloc, lab, program)? {
        return Ok(false);
    }
    make_stretches(alloc, lab, program, n, kept)?;
    put_board(kept, lab)?;
    Ok(true)
}

// All that is seen of a run in slices of n. None where it can't be begun.
fn trace_of(alloc: Global, program: &Program, n: u16) -> Result<Option<Vec<u32>>, AllocError>
    requires some { 1 ≤ n }
    requires few { n ≤ 4096 }
{
    let mut lab = Lab::new(alloc)?;
    let mut kept = Vec::new(alloc);
    let is_run = put_run(alloc, &mut lab, program, n, &mut kept);
    drop(lab);
    Ok(if is_run? { Some(kept) } else { None })
}

fn are_same(one: &Option<Vec<u32>>, other: &Option<Vec<u32>>) -> bool {
    match (one, other) {
        (Some(one), Some(other)) => one.as_slice() == other.as_slice(),
        _ => false,
    }
}

fn has_trace(
    alloc: Global,
    program: &Program,
    n: u16,
    wanted: &Option<Vec<u32>>,
) -> Result<bool, AllocError>
    requires some { 1 ≤ n }
    requires few { n ≤ 4096 }
{
    let seen = trace_of(alloc, program, n)?;
    let is_so = are_same(wanted, &seen);
    drop(seen);
    Ok(is_so)
}

fn have_trace(
    alloc: Global,
    program: &Program,
    wanted: &Option<Vec<u32>>,
) -> Result<bool, AllocError> {
    for n in LENGTHS {
        if !has_trace(alloc, program, (*n).max(1).min(4096), wanted)? {
            return Ok(false);
        }
    }
    Ok(true)
}

// Whether slices of each length give what slices of one step give.
fn is_same(alloc: Global, program: &Program) -> Result<bool, AllocError> {
    let single = trace_of(alloc, program, 1)?;
    let is_so = have_trace(alloc, program, &single);
    drop(single);
    is_so
}

#[test]
fn slices_are_steps(rt: HostRuntime) {
    for program in PROGRAMS {
        let is_right = is_same(rt.alloc(), program) == Ok(true);
        assert!(rt; is_right, "{}", program.about);
    }
}
