//! Views of a small board: the words of the tables, and the ends of every count.
use crate::told::expect_told;
use asm_build::built::Built;
use asm_build::cell::build;
use asm_build::symbols::Symbols;
use asm_syntax::fault::AsmFault;
use asm_text::statements::statements;
use base_text::sequence::Sequence;
use i80_base::flags::Flags;
use i80_devs::devices::Devices;
use i80_exec::machine::Machine;
use i80_exec::registers::{Interrupts, Registers, Stepped};
use lab_frames::frames::Frames;
use lab_image::lists::BreakpointList;
use lab_image::origins::Origins;
use lab_image::sources::{Source, Sources};
use lab_shown::shown::Shown;
use lab_test_kit::ask::{Ask, view};
use lab_test_kit::cells::symbols;
use lab_test_kit::told::put_shown;
use lab_views::fault::ViewFault;
use lab_views::parts::Parts;
use lab_views::views::{after_instructions, show};
use std::alloc::{AllocError, Global};
use std::rt::HostRuntime;

/// The parts of a board.
#[derive(Drop)]
struct Board {
    machine: Machine,
    devices: Devices,
    frames: Frames,
    origins: Origins,
    built: Built,
    sources: Sources,
    lists: Vec<BreakpointList>,
    is_stopped: bool,
}

fn assemble(alloc: Global, text: &str) -> Result<Built, AsmFault> {
    let all = statements(alloc, text)?;
    let none = Symbols::new(alloc);
    let built = build(alloc, &all, &none);
    drop(none);
    drop(all);
    built
}

/// Adds a text under the path `a`, where there is none.
fn add_source(alloc: Global, sources: &mut Sources, text: &str) -> Result<(), AllocError> {
    if sources.len() > 0 {
        return Ok(());
    }
    let source = Source::copy_of(alloc, "a", text)?;
    sources.add(source);
    Ok(())
}

/// A breakpoint on line 2 of the first source.
fn breakpoints(alloc: Global) -> Result<Vec<BreakpointList>, AllocError> {
    let mut lines = Sequence::new(alloc);
    lines.push(2)?;
    let mut lists = Vec::new(alloc);
    lists.push(BreakpointList { source: 0, lines })?;
    Ok(lists)
}

/// A stopped board for a cell, on which nothing was loaded.
fn new_board(alloc: Global, text: &str) -> Result<Board, AsmFault> {
    let machine = Machine::new(alloc)?;
    let frames = Frames::new(alloc)?;
    let sources = Sources::new(alloc)?;
    let lists = breakpoints(alloc)?;
    let built = assemble(alloc, text)?;
    Ok(Board {
        machine,
        devices: Devices::new(alloc),
        frames,
        origins: Origins::new(alloc),
        built,
        sources,
        lists,
        is_stopped: true,
    })
}

fn show_on(alloc: Global, board: &Board, ask: Ask) -> Result<Shown, ViewFault> {
    let view = view(alloc, ask)?;
    let parts = Parts {
        machine: &board.machine,
        devices: &board.devices,
        frames: &board.frames,
        origins: &board.origins,
        symbols: &board.built.symbols,
        sources: &board.sources,
        breakpoints: board.lists.as_slice(),
        is_attached: false,
        is_stopped: board.is_stopped,
    };
    let answer = show(alloc, &parts, &view);
    drop(view);
    answer
}

/// How many variables or lines a view has.
fn put_length(answer: &Result<Shown, ViewFault>, told: &mut String) -> Result<(), AllocError> {
    match answer {
        Ok(Shown::Variables(variables)) => write!(told, "{}\n", variables.as_slice().len()),
        Ok(Shown::Code(lines)) => write!(told, "{}\n", lines.as_slice().len()),
        _ => told.push_str("no count\n"),
    }
}

fn put_answer(answer: &Result<Shown, ViewFault>, told: &mut String) -> Result<(), AllocError> {
    match answer {
        Ok(shown) => put_shown(told, shown),
        Err(refused) => write!(told, "refused: {refused}\n"),
    }
}

fn put_view(
    alloc: Global,
    board: &Board,
    ask: Ask,
    is_counted: bool,
    told: &mut String,
) -> Result<(), AllocError> {
    let answer = show_on(alloc, board, ask);
    let put = if is_counted {
        put_length(&answer, told)
    } else {
        put_answer(&answer, told)
    };
    drop(answer);
    put
}

/// What a play does with a board, or looks at.
#[derive(Clone, Copy)]
enum Act {
    /// Shows what is asked, or why not.
    Show(Ask),
    /// Shows how much is shown.
    Count(Ask),
    /// Sets all registers, with these interrupts.
    Registers(Interrupts),
    /// Sets the switches, types twelve bytes and presses button 7.
    Devices,
    /// Makes two calls, of which the second one's target has no label.
    CallTwice,
    Pc(u16),
    /// Lets the run go on.
    Run,
    /// Shows the address behind so many lines of code from the last address on.
    After(u16),
}

fn registers(interrupts: Interrupts) -> Registers {
    Registers {
        a: 0xab,
        b: 1,
        c: 2,
        d: 3,
        e: 4,
        h: 5,
        l: 0xff,
        flags: Flags::from_byte(0x93),
        sp: 0xfffe,
        pc: 0x0a1b,
        interrupts,
    }
}

fn use_devices(devices: &mut Devices) -> Result<(), AllocError> {
    devices.set_switches(0x5a);
    let _ = devices.press(7);
    devices.type_bytes(b"0123456789ab")
}

fn call_twice(frames: &mut Frames) {
    for (slot, target, site) in [(0xfffe, 6, 3), (0xfffc, 0x1abc, 6)] {
        let called = Stepped::Called { slot, target };
        let _ = frames.advance(called, site, slot);
    }
}

fn tell(alloc: Global, board: &mut Board, act: Act, told: &mut String) -> Result<(), AllocError> {
    match act {
        Act::Show(ask) => return put_view(alloc, board, ask, false, told),
        Act::Count(ask) => return put_view(alloc, board, ask, true, told),
        Act::Registers(interrupts) => board.machine.set_regs(registers(interrupts)),
        Act::Devices => return use_devices(&mut board.devices),
        Act::CallTwice => call_twice(&mut board.frames),
        Act::Pc(address) => board.machine.set_pc(address),
        Act::Run => board.is_stopped = false,
        Act::After(lines) => {
            let after = after_instructions(&board.machine, 0xffff, lines);
            return write!(told, "{lines} lines: {after:04X}\n");
        }
    }
    Ok(())
}

/// Loads the cell, which has this text, and goes through a play.
fn tell_all(
    alloc: Global,
    board: &mut Board,
    text: &str,
    acts: &[Act],
    told: &mut String,
) -> Result<(), AllocError> {
    add_source(alloc, &mut board.sources, text)?;
    board.origins.load(&mut board.machine, 0, &board.built)?;
    for act in acts {
        tell(alloc, board, *act, told)?;
    }
    Ok(())
}

fn tell_play(alloc: Global, text: &str, acts: &[Act], told: &mut String) -> Result<(), AllocError> {
    match new_board(alloc, text) {
        Ok(mut board) => {
            let put = tell_all(alloc, &mut board, text, acts, told);
            drop(board);
            put
        }
        Err(fault) => write!(told, "{fault}"),
    }
}

const REGISTERS: [Act; 9] = [
    Act::Registers(Interrupts::Off),
    Act::Show(Ask::Variables(1, 7, 1)),
    Act::Show(Ask::Variables(2, 7, 1)),
    Act::Registers(Interrupts::Arming),
    Act::Show(Ask::Variables(1, 7, 1)),
    Act::Show(Ask::Variables(2, 7, 1)),
    Act::Registers(Interrupts::On),
    Act::Show(Ask::Variables(1, 7, 1)),
    Act::Show(Ask::Variables(2, 7, 1)),
];

const REGISTERS_TOLD: &str = "\
A=0ABH B=001H C=002H D=003H E=004H H=005H L=0FFH SP=0FFFEH PC=00A1BH \n\
S=1 Z=0 AC=1 P=0 CY=1 INTE=off \n\
A=0ABH B=001H C=002H D=003H E=004H H=005H L=0FFH SP=0FFFEH PC=00A1BH \n\
S=1 Z=0 AC=1 P=0 CY=1 INTE=arming \n\
A=0ABH B=001H C=002H D=003H E=004H H=005H L=0FFH SP=0FFFEH PC=00A1BH \n\
S=1 Z=0 AC=1 P=0 CY=1 INTE=on \n";

const REFERENCES: [Act; 7] = [
    Act::Show(Ask::Variables(3, 0, 0)),
    Act::Show(Ask::Variables(4, 0, 0)),
    Act::Show(Ask::Variables(0, 0, 0)),
    Act::Show(Ask::Variables(6, 0, 0)),
    Act::Show(Ask::Variables(u32::MAX, 0, 0)),
    Act::Devices,
    Act::Show(Ask::Variables(3, 0, 0)),
];

const REFERENCES_TOLD: &str = "\
switches=000H lamps=000H latched=none waiting=0 \n\
X=00005H LOOP=00000H \n\
refused: there are the references 1 to 5
refused: there are the references 1 to 5
refused: there are the references 1 to 5
switches=05AH lamps=000H latched=7 waiting=12 \n";

/// Of 300 symbols L0 to L299.
const COUNTS: [Act; 21] = [
    Act::Count(Ask::Variables(4, 0, 0)),
    Act::Count(Ask::Variables(4, 0, 16)),
    Act::Count(Ask::Variables(4, 0, 256)),
    Act::Count(Ask::Variables(4, 0, 257)),
    Act::Count(Ask::Variables(4, 44, u32::MAX)),
    Act::Count(Ask::Variables(4, 45, u32::MAX)),
    Act::Count(Ask::Variables(4, 299, 5)),
    Act::Count(Ask::Variables(4, 300, 5)),
    Act::Count(Ask::Variables(4, u32::MAX, u32::MAX)),
    Act::Count(Ask::Variables(5, 0, 0)),
    Act::Count(Ask::Variables(5, 0, 256)),
    Act::Count(Ask::Variables(5, 0, 257)),
    Act::Count(Ask::Variables(5, 65_280, u32::MAX)),
    Act::Count(Ask::Variables(5, 65_281, u32::MAX)),
    Act::Count(Ask::Variables(5, 65_536, 0)),
    Act::Count(Ask::Variables(5, u32::MAX, u32::MAX)),
    Act::Count(Ask::Code(0xffff, 0)),
    Act::Count(Ask::Code(0xffff, 256)),
    Act::Count(Ask::Code(0xffff, u32::MAX)),
    Act::Show(Ask::Variables(4, 299, 0)),
    Act::Show(Ask::Variables(5, 0xffff, 5)),
];

const COUNTS_TOLD: &str = "\
256\n16\n256\n256\n256\n255\n1\n0\n0\n\
16\n256\n256\n256\n255\n0\n0\n\
0\n256\n256\n\
L299=0012BH \nFFFF=000H \n";

/// One line up to 2, a byte each up to 0FFFFH, and that line again.
const CODE: [Act; 5] = [
    Act::Show(Ask::Code(0xffff, 3)),
    Act::After(0),
    Act::After(1),
    Act::After(2),
    Act::After(0xffff),
];

const CODE_TOLD: &str = "\
FFFF C3 34 12 JMP 01234H
0002 08 DB 008H
0003 00 NOP
0 lines: FFFF
1 lines: 0002
2 lines: 0003
65535 lines: 0002
";

const ALL: [Act; 19] = [
    Act::Pc(7),
    Act::CallTwice,
    Act::Show(Ask::Frames(0, 0)),
    Act::Show(Ask::Frames(1, 1)),
    Act::Show(Ask::Frames(2, u32::MAX)),
    Act::Show(Ask::Frames(3, 64)),
    Act::Show(Ask::Frames(u32::MAX, u32::MAX)),
    Act::Show(Ask::Scopes(0)),
    Act::Show(Ask::Scopes(1)),
    Act::Show(Ask::Scopes(3)),
    Act::Show(Ask::Scopes(4)),
    Act::Show(Ask::Source("b")),
    Act::Show(Ask::Source("a")),
    Act::Show(Ask::Info),
    Act::Pc(0x100),
    Act::Show(Ask::Frames(0, 1)),
    Act::Run,
    Act::Show(Ask::Frames(0, 0)),
    Act::Show(Ask::Scopes(0)),
];

const ALL_TOLD: &str = "\
1 1ABCH 5 a 0007
2 SUB1 4 a 0006
3 main 3 a 0003
of 3
2 SUB1 4 a 0006
of 3
3 main 3 a 0003
of 3
of 3
of 3
refused: there is no such frame
scopes
scopes
refused: there is no such frame
refused: no text has the path
ORG 3
SIX EQU 6
CALL SUB1
SUB1: NOP
SUB2: NOP
attached false stopped true
a [2]
1 1ABCH 0 none 0100
of 3
refused: the program isn't stopped
refused: the program isn't stopped
";

/// What each play is about, the cell that is loaded, what is done, and what it shows.
const PLAYS: [(&str, &str, &[Act], &str); 4] = [
    ("registers and flags", "", &REGISTERS, REGISTERS_TOLD),
    (
        "devices and references",
        "X SET 5\nLOOP: NOP",
        &REFERENCES,
        REFERENCES_TOLD,
    ),
    (
        "code goes on at the first address",
        "ORG 0\nDB 34H,12H,8\nORG 0FFFFH\nDB 0C3H",
        &CODE,
        CODE_TOLD,
    ),
    (
        "frames, sources and breakpoints",
        "ORG 3\nSIX EQU 6\nCALL SUB1\nSUB1: NOP\nSUB2: NOP",
        &ALL,
        ALL_TOLD,
    ),
];

#[test]
fn views_of_a_small_board(rt: HostRuntime) {
    for (about, text, acts, wanted) in PLAYS {
        let mut told = String::new(rt.alloc());
        let put = tell_play(rt.alloc(), text, acts, &mut told);
        expect_told(&rt, about, put, told, wanted);
    }
}

fn tell_counts(alloc: Global, told: &mut String) -> Result<(), AllocError> {
    let text = symbols(alloc, "L")?;
    let put = tell_play(alloc, text.as_str(), &COUNTS, told);
    drop(text);
    put
}

#[test]
fn counts_are_cut(rt: HostRuntime) {
    let mut told = String::new(rt.alloc());
    let put = tell_counts(rt.alloc(), &mut told);
    expect_told(&rt, "counts", put, told, COUNTS_TOLD);
}
