//! Loads of a few rows, the bytes and origins that they leave, and breakpoints over them, against a plain
//! look-up of every address.
use crate::told::expect_told;
use asm_build::built::{Built, Row};
use asm_build::symbols::Symbols;
use i80_exec::machine::Machine;
use lab_image::breakpoints::Breakpoints;
use lab_image::lists::BreakpointList;
use lab_image::origins::Origins;
use std::alloc::{AllocError, Global};

/// A row: its address, how many bytes it gives, and its line.
type RowParts = (u16, usize, usize);

/// What a play does, or looks at.
#[derive(Clone, Copy)]
enum Act {
    /// Loads bytes and rows for the source with this number.
    Load(u32, &'static [(u16, u8)], &'static [RowParts]),
    /// Forgets all loads.
    Forget,
    /// Shows addresses with their bytes and, where they have one, their origin: the source, the line and
    /// whether it is the first byte of its statement.
    Addresses(&'static [u16]),
    /// Sets the lines of a source, and shows the breakpoints.
    Set(u32, &'static [u32]),
    /// Finds out again where breakpoints are met, and shows them.
    Refresh,
    /// Takes all breakpoints away, and shows that.
    Clear,
}

/// The parts of a board that loads and breakpoints change.
#[derive(Drop)]
struct Parts {
    machine: Machine,
    origins: Origins,
    breakpoints: Breakpoints,
}

fn rows_of(alloc: Global, parts: &[RowParts]) -> Result<Vec<Row>, AllocError> {
    let mut rows = Vec::new(alloc);
    for (address, length, line) in parts {
        rows.push(Row {
            address: *address,
            length: *length,
            line: *line,
        })?;
    }
    Ok(rows)
}

fn build_of(alloc: Global, image: &[(u16, u8)], rows: &[RowParts]) -> Result<Built, AllocError> {
    let rows = rows_of(alloc, rows)?;
    Ok(Built {
        image: Vec::from_slice(alloc, image)?,
        rows,
        start: None,
        symbols: Symbols::new(alloc),
    })
}

fn load(
    alloc: Global,
    parts: &mut Parts,
    source: u32,
    image: &[(u16, u8)],
    rows: &[RowParts],
) -> Result<(), AllocError> {
    let built = build_of(alloc, image, rows)?;
    let outcome = parts.origins.load(&mut parts.machine, source, &built);
    drop(built);
    outcome
}

fn put_address(parts: &Parts, address: u16, told: &mut String) -> Result<(), AllocError> {
    let byte = parts.machine.peek(address);
    write!(told, "{address:04X} {byte:02X}")?;
    if let Some(origin) = parts.origins.at(address) {
        write!(told, " {} {}", origin.source, origin.line)?;
        told.push_str(if origin.is_first { " true" } else { " false" })?;
    }
    told.push('\n')
}

fn put_addresses(parts: &Parts, addresses: &[u16], told: &mut String) -> Result<(), AllocError> {
    for address in addresses {
        put_address(parts, *address, told)?;
    }
    Ok(())
}

/// Whether a list is that of a source and has a line.
fn has_line(list: &BreakpointList, source: u32, line: usize) -> bool {
    for kept in list.lines.as_slice() {
        if list.source == source && *kept as usize == line {
            return true;
        }
    }
    false
}

fn have_line(lists: &[BreakpointList], source: u32, line: usize) -> bool {
    for list in lists {
        if has_line(list, source, line) {
            return true;
        }
    }
    false
}

/// The plain look-up: the origin of the address, sought among the lines that were set.
fn is_met(parts: &Parts, address: u16) -> bool {
    match parts.origins.at(address) {
        Some(origin) => {
            origin.is_first && have_line(parts.breakpoints.lists(), origin.source, origin.line)
        }
        None => false,
    }
}

/// Adds the addresses at which breakpoints are met, and where the plain look-up says otherwise.
fn put_met(parts: &Parts, told: &mut String) -> Result<(), AllocError> {
    for address in 0..=u16::MAX {
        let is_at = parts.breakpoints.is_at(address);
        if is_at != is_met(parts, address) {
            told.push_str(" otherwise")?;
        }
        if is_at {
            write!(told, " {address:04X}")?;
        }
    }
    told.push('\n')
}

/// Adds how many lines each source has, in their order.
fn put_lists(lists: &[BreakpointList], told: &mut String) -> Result<(), AllocError> {
    for list in lists {
        write!(told, "{}:{} ", list.source, list.lines.len())?;
    }
    told.push_str("at")
}

fn put_breakpoints(parts: &Parts, told: &mut String) -> Result<(), AllocError> {
    put_lists(parts.breakpoints.lists(), told)?;
    put_met(parts, told)
}

fn tell(alloc: Global, parts: &mut Parts, act: Act, told: &mut String) -> Result<(), AllocError> {
    match act {
        Act::Load(source, image, rows) => return load(alloc, parts, source, image, rows),
        Act::Addresses(addresses) => return put_addresses(parts, addresses, told),
        Act::Forget => {
            parts.origins.clear();
            return Ok(());
        }
        Act::Set(source, lines) => parts.breakpoints.set(source, lines, &parts.origins)?,
        Act::Refresh => parts.breakpoints.refresh(&parts.origins),
        Act::Clear => parts.breakpoints.clear(),
    }
    put_breakpoints(parts, told)
}

fn tell_all(
    alloc: Global,
    parts: &mut Parts,
    acts: &[Act],
    told: &mut String,
) -> Result<(), AllocError> {
    for act in acts {
        tell(alloc, parts, *act, told)?;
    }
    Ok(())
}

fn new_parts(alloc: Global) -> Result<Parts, AllocError> {
    let machine = Machine::new(alloc)?;
    let breakpoints = Breakpoints::new(alloc)?;
    Ok(Parts {
        machine,
        origins: Origins::new(alloc),
        breakpoints,
    })
}

fn tell_play(alloc: Global, acts: &[Act], told: &mut String) -> Result<(), AllocError> {
    let mut parts = new_parts(alloc)?;
    let put = tell_all(alloc, &mut parts, acts, told);
    drop(parts);
    put
}

/// MVI A,5 and HLT.
const ONE_LOAD: [Act; 4] = [
    Act::Load(
        7,
        &[(0x100, 0x3e), (0x101, 0x05), (0x102, 0x76)],
        &[(0x100, 2, 3), (0x102, 1, 4)],
    ),
    Act::Addresses(&[0x0ff, 0x100, 0x101, 0x102, 0x103]),
    Act::Forget,
    Act::Addresses(&[0x0ff, 0x100, 0x101, 0x102, 0x103]),
];

const ONE_LOAD_TOLD: &str = "\
00FF 00
0100 3E 7 3 true
0101 05 7 3 false
0102 76 7 4 true
0103 00
00FF 00
0100 3E
0101 05
0102 76
0103 00
";

/// JMP 0200H, and later a byte in its middle, which cuts it in two.
const LOAD_OVER_ANOTHER: [Act; 5] = [
    Act::Load(
        1,
        &[(0x200, 0xc3), (0x201, 0x00), (0x202, 0x02)],
        &[(0x200, 3, 1)],
    ),
    Act::Load(2, &[(0x201, 0x10)], &[(0x201, 1, 2)]),
    Act::Addresses(&[0x200, 0x201, 0x202]),
    Act::Forget,
    Act::Addresses(&[0x200, 0x201, 0x202]),
];

const LOAD_OVER_ANOTHER_TOLD: &str = "\
0200 C3 1 1 true
0201 10 2 2 true
0202 02 1 1 false
0200 C3
0201 10
0202 02
";

/// Rows may come in any order, and end with the memory.
const ANY_ROWS: [Act; 4] = [
    Act::Load(
        0,
        &[],
        &[
            (0xfffe, 5, 1),
            (0x0000, 2, 2),
            (0x8000, 0, 3),
            (0x0001, 1, 4),
            (0x7fff, 3, 5),
        ],
    ),
    Act::Addresses(&[
        0x0000, 0x0001, 0x0002, 0x7ffe, 0x8000, 0x8001, 0xfffe, 0xffff,
    ]),
    Act::Forget,
    Act::Addresses(&[
        0x0000, 0x0001, 0x0002, 0x7ffe, 0x8000, 0x8001, 0xfffe, 0xffff,
    ]),
];

const ANY_ROWS_TOLD: &str = "\
0000 00 0 2 true
0001 00 0 4 true
0002 00
7FFE 00
8000 00 0 5 false
8001 00 0 5 false
FFFE 00 0 1 true
FFFF 00 0 1 false
0000 00
0001 00
0002 00
7FFE 00
8000 00
8001 00
FFFE 00
FFFF 00
";

/// Source 1: JMP in line 2 at 0100H, and a byte in line 3. Source 2: a byte in line 1 over the JMP's
/// second one.
const JUMP: Act = Act::Load(1, &[], &[(0x100, 3, 2), (0x103, 1, 3)]);

const OVER_JUMP: Act = Act::Load(2, &[], &[(0x101, 1, 1)]);

/// A list keeps its place until it is empty.
const PLACES: [Act; 10] = [
    JUMP,
    OVER_JUMP,
    Act::Refresh,
    Act::Set(7, &[1]),
    Act::Set(3, &[2, 9]),
    Act::Set(7, &[5, 6, 7]),
    Act::Set(7, &[]),
    Act::Set(7, &[1]),
    Act::Set(4, &[]),
    Act::Clear,
];

const PLACES_TOLD: &str = "\
at
7:1 at
7:1 3:2 at
7:3 3:2 at
3:2 at
3:2 7:1 at
3:2 7:1 at
at
";

/// A breakpoint is met at the first byte.
const FIRST_BYTES: [Act; 8] = [
    JUMP,
    OVER_JUMP,
    Act::Refresh,
    Act::Set(1, &[2]),
    Act::Set(2, &[1, 2, 3]),
    Act::Set(1, &[3]),
    Act::Set(2, &[]),
    Act::Clear,
];

const FIRST_BYTES_TOLD: &str = "\
at
1:1 at 0100
1:1 2:3 at 0100 0101
1:1 2:3 at 0101 0103
1:1 at 0103
at
";

/// Lines may be repeated or absent.
const ANY_LINES: [Act; 6] = [
    JUMP,
    OVER_JUMP,
    Act::Refresh,
    Act::Set(1, &[3; 256]),
    Act::Set(1, &[0, 1, 4, u32::MAX]),
    Act::Clear,
];

const ANY_LINES_TOLD: &str = "at\n1:256 at 0103\n1:4 at\nat\n";

/// A load is met once the breakpoints are refreshed, and so is that all loads went. The last one lies over
/// the JMP's first byte, and has the memory's last one.
const REFRESHED: [Act; 8] = [
    JUMP,
    OVER_JUMP,
    Act::Set(1, &[2, 3]),
    Act::Set(9, &[1]),
    Act::Load(9, &[], &[(0x0ff, 2, 8), (0xffff, 1, 1), (0x000, 1, 1)]),
    Act::Refresh,
    Act::Forget,
    Act::Refresh,
];

const REFRESHED_TOLD: &str = "\
1:2 at 0100 0103
1:2 9:1 at 0100 0103
1:2 9:1 at 0000 0103 FFFF
1:2 9:1 at
";

/// What each play is about, what it does, and what it shows.
const PLAYS: [(&str, &[Act], &str); 7] = [
    ("one load", &ONE_LOAD, ONE_LOAD_TOLD),
    (
        "a load over another",
        &LOAD_OVER_ANOTHER,
        LOAD_OVER_ANOTHER_TOLD,
    ),
    ("any rows", &ANY_ROWS, ANY_ROWS_TOLD),
    ("places of lists", &PLACES, PLACES_TOLD),
    ("first bytes", &FIRST_BYTES, FIRST_BYTES_TOLD),
    ("any lines", &ANY_LINES, ANY_LINES_TOLD),
    ("refreshed breakpoints", &REFRESHED, REFRESHED_TOLD),
];

#[test]
fn loads_leave_origins_and_breakpoints(rt: HostRuntime) {
    for (about, acts, wanted) in PLAYS {
        let mut told = String::new(rt.alloc());
        let put = tell_play(rt.alloc(), acts, &mut told);
        expect_told(&rt, about, put, told, wanted);
    }
}
