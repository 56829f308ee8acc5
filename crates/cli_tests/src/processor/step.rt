//! Instructions whose effect the 8080 User's Manual gives, some at the edges of the address space.
ghost use Rattle.std.specs.Prelude.{◌≤◌, ◌-◌, IfOk, vec_len, vec_capacity};

use crate::processor::plain::Plain;
use i80_base::board::Board;
use i80_base::flags::Flags;
use i80_base::ports::{PortOperation, Ports};
use i80_exec::machine::Machine;
use i80_exec::registers::{Interrupts, Registers, Stepped};
use std::alloc::{AllocError, Global};
use std::process::Abort;

/// What every port answers.
const ANSWER: u8 = 0x5a;

/// A device that answers every IN with one byte, and keeps each operation.
#[derive(Drop)]
struct Recorder {
    answer: u8,
    operations: Vec<PortOperation>,
}

impl Recorder {
    /// With room for one operation.
    fn new(alloc: Global) -> Result<Recorder, AllocError>
        ensures { IfOk result (λ r. 1 ≤ vec_capacity r.operations - vec_len r.operations) }
    {
        let operations = Vec::with_capacity(alloc, 1)?;
        Ok(Recorder {
            answer: ANSWER,
            operations,
        })
    }

    /// How many operations there were, and the first of them.
    fn report(&self) -> (usize, Option<PortOperation>) {
        let operations = self.operations.as_slice();
        match operations {
            [first, ..] => (operations.len(), Some(*first)),
            [] => (0, None),
        }
    }
}

impl Ports for Recorder {
    type State = u8;

    ghost operations = { λ r. r.operations.items };

    ghost state = { λ r. r.answer };

    ghost spare = { λ r. vec_capacity r.operations - vec_len r.operations };

    ghost answer = { λ byte _. byte };

    ghost after = { λ byte _. byte };

    fn input(&mut self, port: u8) -> u8 {
        let byte = self.answer;
        self.operations
            .push_reserved(PortOperation::In { port, byte });
        byte
    }

    fn output(&mut self, port: u8, byte: u8) {
        self.operations
            .push_reserved(PortOperation::Out { port, byte });
    }
}

/// Puts bytes into a machine from an address on, and PC there.
fn set_up(machine: &mut Machine, address: u16, bytes: &[u8]) {
    let mut next = address;
    for byte in bytes {
        machine.poke(next, *byte);
        next = next.wrapping_add(1);
    }
    machine.set_pc(address);
}

/// What an instruction answers, how many operations of ports it does, and the first of them.
type Outcome = (Stepped, (usize, Option<PortOperation>));

/// Does the instruction at PC.
fn step(alloc: Global, machine: &mut Machine) -> Result<Outcome, AllocError> {
    let mut ports = Recorder::new(alloc)?;
    let stepped = machine.step(&mut ports);
    Ok((stepped, ports.report()))
}

/// Does the instruction at PC of the plain machine.
fn step_plain(alloc: Global, plain: &mut Plain) -> Result<Outcome, AllocError> {
    let mut ports = Recorder::new(alloc)?;
    let stepped = plain.step(&mut ports);
    Ok((stepped, ports.report()))
}

/// The registers after power-on, but for these.
fn registers(a: u8, flag_byte: u8, hl: u16, sp: u16, pc: u16) -> Registers {
    Registers {
        a,
        b: 0,
        c: 0,
        d: 0,
        e: 0,
        h: (hl / 256) as u8,
        l: (hl % 256) as u8,
        flags: Flags::from_byte(flag_byte),
        sp,
        pc,
        interrupts: Interrupts::Off,
    }
}

/// What a table does with a machine, or finds in it.
#[derive(Clone, Copy)]
enum Act {
    /// Sets A, the flag byte, HL and SP, and all other registers as after power-on.
    Set(u8, u8, u16, u16),
    /// Finds A, the flag byte, HL, SP and PC, and all other registers as after power-on.
    Registers(u8, u8, u16, u16, u16),
    /// Finds the interrupt state.
    Interrupts(Interrupts),
    /// Sets the option of the board.
    SetBoard(Board),
    /// Puts a byte at an address.
    Poke(u16, u8),
    /// Finds a byte at an address.
    Peek(u16, u8),
    /// Does an instruction that answers so, and has no port operation.
    Step(Stepped),
    /// Does an instruction whose one port operation is this.
    Operate(PortOperation),
    /// Offers RST 7, which is answered so.
    Accept(Option<Stepped>),
}

// Does the instruction at PC. Whether it has this outcome.
fn steps(alloc: Global, machine: &mut Machine, want: Outcome) -> Result<bool, AllocError> {
    Ok(step(alloc, machine)? == want)
}

// Does one thing of a table. Whether it finds there what the table tells.
fn perform(alloc: Global, machine: &mut Machine, act: Act) -> Result<bool, AllocError> {
    match act {
        Act::Set(a, flag_byte, hl, sp) => machine.set_regs(registers(a, flag_byte, hl, sp, 0)),
        Act::SetBoard(board) => machine.set_board(board),
        Act::Poke(address, byte) => machine.poke(address, byte),
        Act::Step(stepped) => return steps(alloc, machine, (stepped, (0, None))),
        Act::Operate(operation) => {
            return steps(alloc, machine, (Stepped::Done, (1, Some(operation))));
        }
        Act::Accept(answer) => return Ok(machine.accept(7) == answer),
        _ => return Ok(finds(machine, act)),
    }
    Ok(true)
}

fn finds(machine: &Machine, act: Act) -> bool {
    match act {
        Act::Registers(a, flag_byte, hl, sp, pc) => {
            machine.regs() == registers(a, flag_byte, hl, sp, pc)
        }
        Act::Interrupts(interrupts) => machine.regs().interrupts == interrupts,
        Act::Peek(address, byte) => machine.peek(address) == byte,
        _ => true,
    }
}

// The first row of a table that finds something else.
fn first_wrong(
    alloc: Global,
    machine: &mut Machine,
    acts: &[Act],
) -> Result<Option<usize>, AllocError> {
    for (row, act) in acts.iter().enumerate() {
        if !perform(alloc, machine, *act)? {
            return Ok(Some(row));
        }
    }
    Ok(None)
}

// The same with a machine that has these bytes from an address on, and PC there.
fn first_wrong_at(
    alloc: Global,
    address: u16,
    bytes: &[u8],
    acts: &[Act],
) -> Result<Option<usize>, AllocError> {
    let mut machine = Machine::new(alloc)?;
    set_up(&mut machine, address, bytes);
    let wrong = first_wrong(alloc, &mut machine, acts);
    drop(machine);
    wrong
}

/// Goes through a table with a machine that has these bytes from an address on, and PC there.
fn play(
    rt: &(impl Abort + AllocGlobal),
    about: &str,
    (address, bytes): (u16, &[u8]),
    acts: &[Act],
) {
    match first_wrong_at(rt.alloc(), address, bytes, acts) {
        Ok(None) => {}
        Ok(Some(row)) => panic!(rt; "{about}, {bytes:?}, row {row}"),
        Err(AllocError) => panic!(rt; "out of memory"),
    }
}

// Two bytes of code; A, the flag byte and HL before it; A, the flag byte, HL and PC after it.
type Computed = ([u8; 2], (u8, u8, u16), (u8, u8, u16, u16));

const COMPUTED: [Computed; 7] = [
    ([0xde, 0x00], (0x00, 0x03, 0), (0xff, 0x87, 0, 2)),
    ([0x29, 0x00], (0x00, 0x02, 0x8000), (0x00, 0x03, 0x0000, 1)),
    ([0x97, 0x00], (0x3e, 0x02, 0), (0x00, 0x56, 0, 1)),
    ([0x27, 0x00], (0x9b, 0x02, 0), (0x01, 0x13, 0, 1)),
    ([0xe6, 0x0f], (0xfc, 0x02, 0), (0x0c, 0x16, 0, 2)),
    ([0x2f, 0x00], (0x51, 0xd7, 0), (0xae, 0xd7, 0, 1)),
    ([0x2b, 0x00], (0x00, 0x02, 0), (0x00, 0x02, 0xffff, 1)),
];

fn acts_of(computed: &Computed) -> [Act; 3] {
    let (a, flag_byte, hl) = computed.1;
    let set = Act::Set(a, flag_byte, hl, 0);
    let (a, flag_byte, hl, pc) = computed.2;
    let found = Act::Registers(a, flag_byte, hl, 0, pc);
    [set, Act::Step(Stepped::Done), found]
}

#[test]
fn arithmetic_reads_and_writes_the_registers(rt: HostRuntime) {
    for computed in &COMPUTED {
        play(&rt, "code", (0, &computed.0), &acts_of(computed));
    }
}

// A call pushes the next address, and RET pops it.
const CALL: [Act; 7] = [
    Act::Poke(0x1234, 0xc9),
    Act::Step(Stepped::Called {
        slot: 0xfffe,
        target: 0x1234,
    }),
    Act::Registers(0, 0x02, 0, 0xfffe, 0x1234),
    Act::Peek(0xffff, 0x01),
    Act::Peek(0xfffe, 0x03),
    Act::Step(Stepped::Returned { slot: 0xfffe }),
    Act::Registers(0, 0x02, 0, 0x0000, 0x0103),
];

// A call and a return by DD and D9, and a jump by CB; a NOP where the board is strict again.
const ALIASES: [Act; 10] = [
    Act::SetBoard(Board::Aliases),
    Act::Poke(0x1234, 0xd9),
    Act::Step(Stepped::Called {
        slot: 0xfffe,
        target: 0x1234,
    }),
    Act::Registers(0, 0x02, 0, 0xfffe, 0x1234),
    Act::Step(Stepped::Returned { slot: 0xfffe }),
    Act::Registers(0, 0x02, 0, 0x0000, 0x0103),
    Act::Step(Stepped::Done),
    Act::Registers(0, 0x02, 0, 0x0000, 0x3412),
    Act::SetBoard(Board::Strict),
    Act::Step(Stepped::Done),
];

const CALLED: Stepped = Stepped::Called {
    slot: 0xfffe,
    target: 0x1234,
};

// The twelve opcodes of which MAME's 8080 makes something, and what a step answers there, with SP and PC
// after it.
// It is made at 0200 with 34 and 12 behind the opcode, SP=0 and zeros on the stack.
const UNDEFINED: [(u8, Stepped, u16, u16); 12] = [
    (0x08, Stepped::Done, 0, 0x0201),
    (0x10, Stepped::Done, 0, 0x0201),
    (0x18, Stepped::Done, 0, 0x0201),
    (0x20, Stepped::Done, 0, 0x0201),
    (0x28, Stepped::Done, 0, 0x0201),
    (0x30, Stepped::Done, 0, 0x0201),
    (0x38, Stepped::Done, 0, 0x0201),
    (0xcb, Stepped::Done, 0, 0x1234),
    (0xd9, Stepped::Returned { slot: 0 }, 2, 0x0000),
    (0xdd, CALLED, 0xfffe, 0x1234),
    (0xed, CALLED, 0xfffe, 0x1234),
    (0xfd, CALLED, 0xfffe, 0x1234),
];

#[test]
fn each_undefined_opcode_acts_where_it_is_to(rt: HostRuntime) {
    for (opcode, stepped, sp, pc) in UNDEFINED {
        let acts = [
            Act::Step(Stepped::Undefined { opcode }),
            Act::Registers(0, 0x02, 0, 0, 0x0200),
            Act::SetBoard(Board::Aliases),
            Act::Step(stepped),
            Act::Registers(0, 0x02, 0, sp, pc),
        ];
        play(&rt, "undefined", (0x0200, &[opcode, 0x34, 0x12]), &acts);
    }
}

// Registers that are set leave the option as it is.
const KEPT: [Act; 4] = [
    Act::SetBoard(Board::Aliases),
    Act::Set(0x11, 0x02, 0, 0),
    Act::Step(Stepped::Done),
    Act::Registers(0x11, 0x02, 0, 0, 1),
];

// An address, the code there, and what a step of it answers, with SP and PC after it.
const SHORT: [(u16, [u8; 3], Stepped, u16, u16); 4] = [
    // A return that is not taken pops nothing.
    (0x0000, [0xc8, 0x00, 0x00], Stepped::Done, 0, 0x0001),
    // Addresses wrap.
    (0xffff, [0xc3, 0x00, 0x20], Stepped::Done, 0, 0x2000),
    (0xffff, [0x33, 0x00, 0x00], Stepped::Done, 1, 0x0000),
    // An undefined opcode changes nothing.
    (
        0x0200,
        [0x08, 0x00, 0x00],
        Stepped::Undefined { opcode: 0x08 },
        0,
        0x0200,
    ),
];

#[test]
fn short_runs_leave_the_registers_of_the_manual(rt: HostRuntime) {
    for (address, code, stepped, sp, pc) in SHORT {
        let acts = [Act::Step(stepped), Act::Registers(0, 0x02, 0, sp, pc)];
        play(&rt, "short run", (address, &code), &acts);
    }
}

// A popped flag byte keeps its fixed bits.
const POPPED: [Act; 6] = [
    Act::Poke(0x2000, 0xff),
    Act::Set(0, 0x02, 0, 0x2000),
    Act::Step(Stepped::Done),
    Act::Step(Stepped::Done),
    Act::Peek(0x2000, 0xd7),
    Act::Registers(0, 0xd7, 0, 0x2000, 2),
];

// Words lie low byte first.
const WORDS: [Act; 12] = [
    Act::Set(0, 0x02, 0x1234, 0x3000),
    Act::Poke(0x3001, 0xff),
    Act::Step(Stepped::Done),
    Act::Peek(0x3000, 0x34),
    Act::Peek(0x3001, 0x12),
    Act::Poke(0x3001, 0x40),
    Act::Step(Stepped::Done),
    Act::Registers(0, 0x02, 0x4034, 0x3000, 4),
    Act::Peek(0x3000, 0x34),
    Act::Peek(0x3001, 0x12),
    Act::Step(Stepped::Done),
    Act::Peek(0x4034, 0x5a),
];

// EI takes effect after the next instruction.
const ARMED: [Act; 10] = [
    Act::Set(0, 0x02, 0, 0x0100),
    Act::Step(Stepped::Done),
    Act::Interrupts(Interrupts::Arming),
    Act::Accept(None),
    Act::Step(Stepped::Done),
    Act::Accept(Some(Stepped::Called {
        slot: 0x00fe,
        target: 0x0038,
    })),
    Act::Peek(0x00fe, 0x02),
    Act::Peek(0x00ff, 0x00),
    Act::Interrupts(Interrupts::Off),
    Act::Accept(None),
];

// IN and OUT are the ports' operations.
const OPERATIONS: [Act; 5] = [
    Act::Operate(PortOperation::In {
        port: 9,
        byte: 0x5a,
    }),
    Act::Registers(0x5a, 0x02, 0, 0, 2),
    Act::Operate(PortOperation::Out {
        port: 1,
        byte: 0x5a,
    }),
    Act::Step(Stepped::Halted),
    Act::Registers(0x5a, 0x02, 0, 0, 5),
];

/// What each table is about, the address and the code.
const TABLES: [(&str, u16, &[u8], &[Act]); 7] = [
    ("a call", 0x0100, &[0xcd, 0x34, 0x12], &CALL),
    (
        "aliases",
        0x0100,
        &[0xdd, 0x34, 0x12, 0xcb, 0x12, 0x34],
        &ALIASES,
    ),
    ("the option", 0, &[0x38], &KEPT),
    ("flags", 0, &[0xf1, 0xf5], &POPPED),
    ("words", 0, &[0x22, 0x00, 0x30, 0xe3, 0x36, 0x5a], &WORDS),
    ("EI", 0, &[0xfb, 0x00, 0x00], &ARMED),
    ("ports", 0, &[0xdb, 0x09, 0xd3, 0x01, 0x76], &OPERATIONS),
];

#[test]
fn machines_do_as_the_tables_tell(rt: HostRuntime) {
    for (about, address, code, acts) in TABLES {
        play(&rt, about, (address, code), acts);
    }
}

/// How many states an instruction starts from: each value of A, with AC and CY set and clear.
const STATES: u16 = 1024;

/// The interrupt state in a state.
fn interrupts_numbered(number: u16) -> Interrupts {
    match number % 3 {
        0 => Interrupts::Off,
        1 => Interrupts::Arming,
        _ => Interrupts::On,
    }
}

/// The registers in a state. S, Z and P are as the last bits of A.
fn registers_numbered(number: u16) -> Registers {
    let a = (number % 256) as u8;
    let carries = (number >> 4 & 0x10 | number >> 9) as u8;
    let flag_byte = (a & 6) << 5 | carries | (a & 1) << 2;
    let mut regs = registers(a, flag_byte, 0x4fff, 0x6001, 0x0100);
    regs.b = 0x20;
    regs.c = (number.wrapping_mul(41) % 256) as u8;
    regs.d = 0x30;
    regs.e = 0xfe;
    regs.interrupts = interrupts_numbered(number);
    regs
}

// Whether the machines are alike after the instruction at PC from these registers.
fn agree(
    alloc: Global,
    fast: &mut Machine,
    plain: &mut Plain,
    before: Registers,
) -> Result<bool, AllocError> {
    fast.set_regs(before);
    plain.set_registers(&before);
    let outcome = step(alloc, fast)?;
    let wanted = step_plain(alloc, plain)?;
    Ok(outcome == wanted && plain.has_registers(&fast.regs()))
}

// The first state from which the machines aren't alike after an instruction.
fn first_state_apart(
    alloc: Global,
    fast: &mut Machine,
    plain: &mut Plain,
) -> Result<Option<u16>, AllocError> {
    for number in 0..STATES {
        if !agree(alloc, fast, plain, registers_numbered(number))? {
            return Ok(Some(number));
        }
    }
    Ok(None)
}

// The first address at which the machines have other bytes.
fn first_byte_apart(fast: &Machine, plain: &Plain) -> Option<u16> {
    for address in 0..=0xffffu16 {
        if fast.peek(address) != plain.read(address) {
            return Some(address);
        }
    }
    None
}

/// Where the machines part on an opcode, if they do.
#[derive(Clone, Copy)]
enum Apart {
    State(u16),
    Address(u16),
}

fn first_apart(
    alloc: Global,
    fast: &mut Machine,
    plain: &mut Plain,
) -> Result<Option<Apart>, AllocError> {
    if let Some(number) = first_state_apart(alloc, fast, plain)? {
        return Ok(Some(Apart::State(number)));
    }
    match first_byte_apart(fast, plain) {
        Some(address) => Ok(Some(Apart::Address(address))),
        None => Ok(None),
    }
}

fn first_apart_from(
    alloc: Global,
    fast: &mut Machine,
    board: Board,
    code: &[u8],
) -> Result<Option<Apart>, AllocError> {
    set_up(fast, 0x0100, code);
    fast.set_board(board);
    let mut plain = Plain::new(alloc, board, 0x0100, code)?;
    let apart = first_apart(alloc, fast, &mut plain);
    drop(plain);
    apart
}

fn first_apart_on(alloc: Global, board: Board, opcode: u8) -> Result<Option<Apart>, AllocError> {
    let mut fast = Machine::new(alloc)?;
    let apart = first_apart_from(alloc, &mut fast, board, &[opcode, 0x0f, 0x9a]);
    drop(fast);
    apart
}

#[test]
fn the_machine_does_each_opcode_as_the_manual_says(rt: HostRuntime) {
    agree_on(&rt, Board::Strict);
}

#[test]
fn so_does_one_on_a_board_with_aliases(rt: HostRuntime) {
    agree_on(&rt, Board::Aliases);
}

fn agree_on(rt: &(impl Abort + AllocGlobal), board: Board) {
    for opcode in 0..=255u8 {
        match first_apart_on(rt.alloc(), board, opcode) {
            Ok(None) => {}
            Ok(Some(Apart::State(number))) => panic!(rt; "{opcode:x} from state {number}"),
            Ok(Some(Apart::Address(address))) => panic!(rt; "{opcode:x} at {address:x}"),
            Err(AllocError) => panic!(rt; "out of memory"),
        }
    }
}
