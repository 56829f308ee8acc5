//! An 8080 in numbers, after the words of the 8080 User's Manual, chapter 4: what the machine is compared
//! with, instruction by instruction. The three octal digits of an opcode are its bit fields, which name
//! registers, pairs and conditions. A flag is a bit of the flag byte, and a carry is found by comparing
//! numbers. Of the machine's code only the flag byte is used, to compare it.
ghost use Rattle.std.specs.Prelude.{◌≤◌};

use i80_base::board::Board;
use i80_base::ports::Ports;
use i80_exec::registers::{Interrupts, Registers, Stepped};
use std::alloc::{AllocError, Global};

/// Where A stands among the registers.
const A: usize = 7;

/// The register code that names the byte in memory at HL.
const MEMORY: u8 = 6;

/// The codes of two register pairs.
const DE: u8 = 1;

const HL: u8 = 2;

/// What the flags count in their byte, where bit 1 is always set.
const SIGN: u8 = 128;

const ZERO: u8 = 64;

const AUXILIARY: u8 = 16;

const PARITY: u8 = 4;

const FIXED: u8 = 2;

const CARRY: u8 = 1;

/// The registers, the flag byte, the interrupt state, and 65,536 bytes of memory.
#[derive(Drop)]
pub(crate) struct Plain {
    /// B, C, D, E, H, L and A, each at its code. Nothing is kept at the code of memory.
    registers: [u8; 8],
    flags: u8,
    sp: u16,
    pc: u16,
    interrupts: Interrupts,
    board: Board,
    memory: Vec<u8>,
}

impl Plain {
    /// All zero, but for these bytes from an address on.
    pub(crate) fn new(
        alloc: Global,
        board: Board,
        address: u16,
        bytes: &[u8],
    ) -> Result<Plain, AllocError> {
        let memory = vec![in alloc; 0; 65536]?;
        let mut plain = Plain {
            registers: [0; 8],
            flags: FIXED,
            sp: 0,
            pc: 0,
            interrupts: Interrupts::Off,
            board,
            memory,
        };
        let mut next = address;
        for byte in bytes {
            plain.write(next, *byte);
            next = next.wrapping_add(1);
        }
        Ok(plain)
    }

    /// Takes these registers.
    pub(crate) fn set_registers(&mut self, regs: &Registers) {
        self.registers = register_array(regs);
        self.flags = regs.flags.to_byte();
        self.sp = regs.sp;
        self.pc = regs.pc;
        self.interrupts = regs.interrupts;
    }

    /// Whether its registers are these.
    pub(crate) fn has_registers(&self, regs: &Registers) -> bool {
        self.registers == register_array(regs)
            && self.flags == regs.flags.to_byte()
            && self.sp == regs.sp
            && self.pc == regs.pc
            && self.interrupts == regs.interrupts
    }

    /// The byte at an address.
    pub(crate) fn read(&self, address: u16) -> u8 {
        match self.memory.get(address as usize) {
            Some(byte) => *byte,
            None => 0,
        }
    }

    fn write(&mut self, address: u16, byte: u8) {
        if let Some(place) = self.memory.get_mut(address as usize) {
            *place = byte;
        }
    }

    fn read_word(&self, address: u16) -> u16 {
        word(self.read(address.wrapping_add(1)), self.read(address))
    }

    fn write_word(&mut self, address: u16, word: u16) {
        self.write(address, (word % 256) as u8);
        self.write(address.wrapping_add(1), (word / 256) as u8);
    }

    /// Does the instruction at PC.
    pub(crate) fn step<P: Ports>(&mut self, ports: &mut P) -> Stepped
        requires { 1 ≤ P.spare ports.old }
    {
        let opcode = self.read(self.pc);
        match effective_opcode(opcode, self.board) {
            Some(opcode) => self.execute(opcode, ports),
            None => Stepped::Undefined { opcode },
        }
    }

    fn execute<P: Ports>(&mut self, opcode: u8, ports: &mut P) -> Stepped
        requires { 1 ≤ P.spare ports.old }
    {
        self.pc = self.pc.wrapping_add(1);
        if self.interrupts == Interrupts::Arming {
            self.interrupts = Interrupts::On;
        }
        match opcode {
            0o323 => {
                let port = self.next_byte();
                ports.output(port, self.registers[A]);
            }
            0o333 => {
                let port = self.next_byte();
                self.registers[A] = ports.input(port);
            }
            0o166 => return Stepped::Halted,
            _ => return self.execute_without_ports(opcode),
        }
        Stepped::Done
    }

    fn execute_without_ports(&mut self, opcode: u8) -> Stepped {
        let middle = opcode / 8 % 8;
        let last = opcode % 8;
        match opcode / 64 {
            0 => self.execute_0(middle, last),
            1 => {
                let byte = self.source(last);
                self.set_destination(middle, byte);
            }
            2 => {
                let byte = self.source(last);
                self.combine(middle, byte);
            }
            _ => return self.execute_3(middle, last),
        }
        Stepped::Done
    }

    fn next_byte(&mut self) -> u8 {
        let byte = self.read(self.pc);
        self.pc = self.pc.wrapping_add(1);
        byte
    }

    fn next_word(&mut self) -> u16 {
        let word = self.read_word(self.pc);
        self.pc = self.pc.wrapping_add(2);
        word
    }

    fn source(&self, code: u8) -> u8 {
        match code {
            MEMORY => self.read(self.pair(HL)),
            _ => self.registers[(code % 8) as usize],
        }
    }

    fn set_destination(&mut self, code: u8, byte: u8) {
        match code {
            MEMORY => self.write(self.pair(HL), byte),
            _ => self.registers[(code % 8) as usize] = byte,
        }
    }

    /// BC, DE, HL or SP.
    fn pair(&self, code: u8) -> u16 {
        let first = (code % 4 * 2) as usize;
        match code {
            3 => self.sp,
            _ => word(self.registers[first], self.registers[first + 1]),
        }
    }

    fn set_pair(&mut self, code: u8, word: u16) {
        let first = (code % 4 * 2) as usize;
        if code == 3 {
            self.sp = word;
        } else {
            self.registers[first] = (word / 256) as u8;
            self.registers[first + 1] = (word % 256) as u8;
        }
    }

    fn stack(&mut self, word: u16) {
        self.sp = self.sp.wrapping_sub(2);
        self.write_word(self.sp, word);
    }

    fn unstack(&mut self) -> u16 {
        let word = self.read_word(self.sp);
        self.sp = self.sp.wrapping_add(2);
        word
    }

    /// The opcodes from 000 to 077.
    fn execute_0(&mut self, middle: u8, last: u8) {
        match last {
            0 => {}
            1 | 3 => self.compute_pair(middle, last),
            2 => self.transfer(middle),
            4 | 5 => self.count(middle, last),
            6 => {
                let byte = self.next_byte();
                self.set_destination(middle, byte);
            }
            _ => self.change_a(middle),
        }
    }

    /// LXI, DAD, INX and DCX.
    fn compute_pair(&mut self, middle: u8, last: u8) {
        let code = middle / 2;
        let before = self.pair(code);
        let after = match (last, middle % 2) {
            (1, 0) => self.next_word(),
            (1, _) => return self.double_add(before),
            (_, 0) => before.wrapping_add(1),
            _ => before.wrapping_sub(1),
        };
        self.set_pair(code, after);
    }

    fn double_add(&mut self, word: u16) {
        let total = self.pair(HL) as u32 + word as u32;
        self.set_pair(HL, (total % 65536) as u16);
        self.set_carry(total >= 65536);
    }

    /// STAX, LDAX, SHLD, LHLD, STA and LDA.
    fn transfer(&mut self, middle: u8) {
        let address = match middle / 4 {
            0 => self.pair(middle / 2),
            _ => self.next_word(),
        };
        match middle {
            4 => self.write_word(address, self.pair(HL)),
            5 => self.set_pair(HL, self.read_word(address)),
            0 | 2 | 6 => self.write(address, self.registers[A]),
            _ => self.registers[A] = self.read(address),
        }
    }

    /// INR and DCR, which leave CY.
    fn count(&mut self, code: u8, last: u8) {
        let carry = self.carry();
        let before = self.source(code);
        let after = match last {
            4 => self.sum(before, 1, false),
            _ => self.difference(before, 1, false),
        };
        self.set_carry(carry);
        self.set_destination(code, after);
    }

    /// RLC, RRC, RAL, RAR, DAA, CMA, STC and CMC.
    fn change_a(&mut self, middle: u8) {
        let a = self.registers[A];
        let carry = self.carry();
        let (after, carry) = match middle {
            0 => (a % 128 * 2 + a / 128, a > 127),
            1 => (a % 2 * 128 + a / 2, a % 2 == 1),
            2 => (a % 128 * 2 + carry as u8, a > 127),
            3 => (carry as u8 * 128 + a / 2, a % 2 == 1),
            4 => (self.decimal(a, carry), self.carry()),
            5 => (255 - a, carry),
            6 => (a, true),
            _ => (a, !carry),
        };
        self.registers[A] = after;
        self.set_carry(carry);
    }

    /// The opcodes from 300 to 377.
    fn execute_3(&mut self, middle: u8, last: u8) -> Stepped {
        match (middle, last) {
            (_, 0 | 2 | 4 | 7) | (0, 3) | (1, 1 | 5) => return self.branch(middle, last),
            (_, 1) => self.execute_3_1(middle),
            (_, 3) => self.execute_3_3(middle),
            (_, 5) => self.stack(self.push_operand(middle / 2)),
            _ => {
                let byte = self.next_byte();
                self.combine(middle, byte);
            }
        }
        Stepped::Done
    }

    /// Returns, jumps, calls and restarts. With an even last digit the middle one is a condition.
    fn branch(&mut self, middle: u8, last: u8) -> Stepped {
        let target = match last {
            0 | 1 => 0,
            7 => middle as u16 * 8,
            _ => self.next_word(),
        };
        if last % 2 == 0 && !self.meets(middle) {
            return Stepped::Done;
        }
        match last {
            0 | 1 => self.leave_subroutine(),
            2 | 3 => {
                self.pc = target;
                Stepped::Done
            }
            _ => self.enter_subroutine(target),
        }
    }

    fn enter_subroutine(&mut self, target: u16) -> Stepped {
        self.stack(self.pc);
        self.pc = target;
        Stepped::Called {
            slot: self.sp,
            target,
        }
    }

    fn leave_subroutine(&mut self) -> Stepped {
        let slot = self.sp;
        self.pc = self.unstack();
        Stepped::Returned { slot }
    }

    /// NZ, Z, NC, C, PO, PE, P and M.
    fn meets(&self, condition: u8) -> bool {
        let flag = match condition / 2 {
            0 => ZERO,
            1 => CARRY,
            2 => PARITY,
            _ => SIGN,
        };
        self.flags / flag % 2 == condition % 2
    }

    /// POP, PCHL and SPHL.
    fn execute_3_1(&mut self, middle: u8) {
        match middle {
            5 => self.pc = self.pair(HL),
            7 => self.sp = self.pair(HL),
            6 => {
                let word = self.unstack();
                self.registers[A] = (word / 256) as u8;
                self.flags = without_gaps((word % 256) as u8);
            }
            _ => {
                let word = self.unstack();
                self.set_pair(middle / 2, word);
            }
        }
    }

    /// What PUSH stores.
    fn push_operand(&self, code: u8) -> u16 {
        match code {
            3 => word(self.registers[A], self.flags),
            _ => self.pair(code),
        }
    }

    /// XTHL, XCHG, DI and EI.
    fn execute_3_3(&mut self, middle: u8) {
        let hl = self.pair(HL);
        let sp = self.sp;
        match middle {
            4 => {
                self.set_pair(HL, self.read_word(sp));
                self.write_word(sp, hl);
            }
            5 => {
                self.set_pair(HL, self.pair(DE));
                self.set_pair(DE, hl);
            }
            6 => self.interrupts = Interrupts::Off,
            _ => self.interrupts = Interrupts::Arming,
        }
    }

    /// ADD, ADC, SUB, SBB, ANA, XRA, ORA and CMP.
    fn combine(&mut self, middle: u8, byte: u8) {
        let a = self.registers[A];
        let carry = self.carry();
        let after = match middle {
            0 => self.sum(a, byte, false),
            1 => self.sum(a, byte, carry),
            3 => self.difference(a, byte, carry),
            4 => self.set_flags(a & byte, a % 16 > 7 || byte % 16 > 7, false),
            5 => self.set_flags(a ^ byte, false, false),
            6 => self.set_flags(a | byte, false, false),
            _ => self.difference(a, byte, false),
        };
        if middle != 7 {
            self.registers[A] = after;
        }
    }

    fn sum(&mut self, x: u8, y: u8, carry: bool) -> u8 {
        let total = x as u16 + y as u16 + carry as u16;
        let low = x % 16 + y % 16 + carry as u8;
        self.set_flags((total % 256) as u8, low > 15, total > 255)
    }

    /// AC is set where the low digit has no borrow, since the 8080 adds the complement.
    fn difference(&mut self, x: u8, y: u8, borrow: bool) -> u8 {
        let less = y as u16 + borrow as u16;
        let has_low_borrow = x % 16 < y % 16 + borrow as u8;
        let value = (256 + x as u16 - less) % 256;
        self.set_flags(value as u8, !has_low_borrow, (x as u16) < less)
    }

    /// DAA: 6 is added if the low digit is above 9 or AC is set, then 6 to the high digit if that is now
    /// above 9 or CY is set.
    fn decimal(&mut self, a: u8, carry: bool) -> u8 {
        let is_low = a % 16 > 9 || self.flags / AUXILIARY % 2 == 1;
        let low = 6 * is_low as u16;
        let is_high = (a as u16 + low) / 16 > 9 || carry;
        let value = (a as u16 + low + 96 * is_high as u16) % 256;
        self.set_flags(value as u8, a as u16 % 16 + low > 15, is_high)
    }

    /// Sets all flags by a result and its carries, and gives the result.
    fn set_flags(&mut self, value: u8, auxiliary: bool, carry: bool) -> u8 {
        self.flags = SIGN * (value > 127) as u8
            + ZERO * (value == 0) as u8
            + AUXILIARY * auxiliary as u8
            + PARITY * (value.count_ones() % 2 == 0) as u8
            + FIXED
            + CARRY * carry as u8;
        value
    }

    fn carry(&self) -> bool {
        self.flags % 2 == 1
    }

    fn set_carry(&mut self, carry: bool) {
        self.flags = self.flags / 2 * 2 + carry as u8;
    }
}

fn register_array(regs: &Registers) -> [u8; 8] {
    [regs.b, regs.c, regs.d, regs.e, regs.h, regs.l, 0, regs.a]
}

fn word(high: u8, low: u8) -> u16 {
    high as u16 * 256 + low as u16
}

/// The flags that a byte has, without its bits 5 and 3.
fn without_gaps(byte: u8) -> u8 {
    byte / 64 * 64 + byte / 16 % 2 * AUXILIARY + byte / 4 % 2 * PARITY + FIXED + byte % 2
}

/// The opcode whose instruction is done: itself, or the one that a board with aliases takes it for. None if
/// it is undefined.
fn effective_opcode(opcode: u8, board: Board) -> Option<u8> {
    let alias = match opcode {
        0o010 | 0o020 | 0o030 | 0o040 | 0o050 | 0o060 | 0o070 => 0o000,
        0o313 => 0o303,
        0o331 => 0o311,
        0o335 | 0o355 | 0o375 => 0o315,
        _ => return Some(opcode),
    };
    match board {
        Board::Strict => None,
        Board::Aliases => Some(alias),
    }
}
