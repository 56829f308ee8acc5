//! The processor with its memory, the operations that its instructions are made of, and its single step.
ghost use Rattle.std.specs.Prelude.{◌≡◌, ◌+◌, ◌*◌, ◌<◌, ◌≤◌, ◌++◌, List, ℕ, length, replicate, IfOk};
ghost use Rattle.std.specs.Prelude.{IfSome, IfNone, Some, None, true, false};
ghost use Rattle.i80_base.specs.declared.arithmetic.AluResult.{AluResult};
ghost use Rattle.i80_base.specs.declared.instruction.Instr.TheVariants.{Xthl};
ghost use Rattle.i80_exec.specs.State.{byte_at, with_byte, word_at, stored_word, get_pair, put_pair};
ghost use Rattle.i80_exec.specs.State.{get_stack_pair, put_stack_pair, with_regs, with_board};
ghost use Rattle.i80_exec.specs.State.{with_pc, with_a, with_flags, with_interrupts, power_on};
ghost use Rattle.i80_exec.specs.Effect.{effect, to_a, after_operation, holds, added_to_hl, after_push};
ghost use Rattle.i80_exec.specs.Effect.{after_pop, after_call, after_return, after_exchange};
ghost use Rattle.i80_exec.specs.Opcodes.{reg_at};
ghost use Rattle.i80_exec.specs.Step.{instruction, acceptance, operation_list, state_after, answer_of};
ghost use Rattle.i80_exec.specs.Step.{is_arming, after_pending_ei, armed_again, devices_by, IsOutcome};
ghost use Rattle.i80_exec.specs.Step.{Performs};
ghost use Rattle.i80_exec.specs.Step.{IsStepOfKind, CanStepSettled};

mod opcodes;

use crate::registers::{Interrupts, Kind, Registers, Stepped};
use i80_base::arithmetic::{AluResult, alu_add, alu_and, alu_or, alu_sub, alu_xor};
use i80_base::board::Board;
use i80_base::flags::Flags;
use i80_base::instruction::{Cond, Operation, Pair, Reg, StackPair};
use i80_base::memory::MEMORY_SIZE;
use i80_base::ports::Ports;
use std::alloc::{AllocError, Global};
use std::marker::Model;

/// A processor with its memory.
#[derive(Drop)]
pub struct Machine {
    regs: Registers,
    memory: Vec<u8>,
    board: Board,
}

impl Model for Machine {
    ghost use Rattle.std.specs.Prelude.{◌≡◌, length};
    ghost use Rattle.i80_exec.specs.State.{MachineState};

    ghost Value = { MachineState };

    ghost view = { λ m. record { regs = m.regs; memory = m.memory.items; board = m.board } };

    ghost invariant = { λ m. length m.memory.items ≡ 65536 };
}

impl Machine {
    /// A machine after power-on: registers and memory 0, flags clear, interrupts off, and a strict board.
    /// Allocates its memory.
    pub fn new(alloc: Global) -> Result<Machine, AllocError>
        ensures { IfOk result (λ m. m ≡ power_on) }
    {
        let memory = zero_bytes(alloc, MEMORY_SIZE)?;
        let regs = Registers {
            a: 0,
            b: 0,
            c: 0,
            d: 0,
            e: 0,
            h: 0,
            l: 0,
            flags: Flags::all_clear(),
            sp: 0,
            pc: 0,
            interrupts: Interrupts::Off,
        };
        Ok(Machine {
            regs,
            memory,
            board: Board::Strict,
        })
    }

    /// A copy of the machine, with its own memory.
    pub fn copy(&self) -> Result<Machine, AllocError>
        ensures { IfOk result (λ m. m ≡ self.now) }
    {
        let memory = self.memory.clone()?;
        Ok(Machine {
            regs: self.regs,
            memory,
            board: self.board,
        })
    }

    /// The byte at an address.
    #[inline]
    pub fn peek(&self, address: u16) -> u8
        ensures { result ≡ byte_at self.now address }
    {
        self.memory[address as usize]
    }

    /// Sets the byte at an address.
    #[inline]
    pub fn poke(&mut self, address: u16, byte: u8)
        ensures { self.new ≡ with_byte self.old address byte }
    {
        self.memory[address as usize] = byte;
    }

    /// The registers, the flags and the interrupt state.
    #[inline]
    pub fn regs(&self) -> Registers
        ensures { result ≡ self.now.regs }
    {
        self.regs
    }

    /// The address of the next instruction.
    #[inline(always)]
    pub fn pc(&self) -> u16
        ensures { result ≡ self.now.regs.pc }
    {
        self.regs.pc
    }

    /// The stack pointer.
    #[inline(always)]
    pub fn sp(&self) -> u16
        ensures { result ≡ self.now.regs.sp }
    {
        self.regs.sp
    }

    /// Whether EI was the last instruction.
    #[inline(always)]
    pub fn is_arming(&self) -> bool
        ensures { result ≡ is_arming self.now.regs.interrupts }
    {
        matches!(self.regs.interrupts, Interrupts::Arming)
    }

    /// Sets the registers, the flags and the interrupt state.
    pub fn set_regs(&mut self, regs: Registers)
        ensures { self.new ≡ with_regs self.old regs }
    {
        self.regs = regs;
    }

    /// Whether the twelve undefined opcodes act.
    pub fn board(&self) -> Board
        ensures { result ≡ self.now.board }
    {
        self.board
    }

    /// Sets whether the twelve undefined opcodes act.
    pub fn set_board(&mut self, board: Board)
        ensures { self.new ≡ with_board self.old board }
    {
        self.board = board;
    }

    /// Sets the address of the next instruction.
    pub fn set_pc(&mut self, address: u16)
        ensures { self.new ≡ with_pc self.old address }
    {
        self.regs.pc = address;
    }

    /// Does the instruction at PC, by the board's table. An undefined opcode changes nothing.
    #[inline(always)]
    pub fn step<P: Ports>(&mut self, ports: &mut P) -> Stepped
        requires { 1 ≤ P.spare ports.old }
        ensures { let devices = devices_by P.answer P.after P.operations P.state P.spare in
            let outcome = instruction (devices ports.old).input self.old in
            IsOutcome outcome self.new result × Performs outcome (devices ports.old) (devices ports.new) }
    {
        self.step_at_pc(ports)
    }

    /// Accepts an interrupt request for RST `vector` if interrupts are on: PC is pushed as it is, and
    /// interrupts are off afterwards. Returns `None` and changes nothing otherwise.
    pub fn accept(&mut self, vector: u8) -> Option<Stepped>
        requires { vector ≤ 7 }
        ensures on { IfSome result (λ answer. acceptance vector self.old
            ≡ Some (record { after = self.new; operation = None; answer = answer })) }
        ensures off { IfNone result ((acceptance vector self.old ≡ None) × (self.new ≡ self.old)) }
    {
        match self.regs.interrupts {
            Interrupts::On => {
                self.regs.interrupts = Interrupts::Off;
                let kind = self.call(8 * vector as u16);
                Some(self.report(kind))
            }
            _ => None,
        }
    }

    #[inline(always)]
    fn step_at_pc<P: Ports>(&mut self, ports: &mut P) -> Stepped
        requires { 1 ≤ P.spare ports.old }
        ensures after { self.new ≡ (instruction (P.answer (P.state ports.old)) self.old).after }
        ensures answer { result ≡ (instruction (P.answer (P.state ports.old)) self.old).answer }
        ensures operations { P.operations ports.new ≡ P.operations ports.old
            ++ operation_list (instruction (P.answer (P.state ports.old)) self.old).operation }
        ensures state { P.state ports.new ≡ state_after P.after (P.state ports.old)
            (instruction (P.answer (P.state ports.old)) self.old).operation }
        ensures spare { P.spare ports.new
            + length (operation_list (instruction (P.answer (P.state ports.old)) self.old).operation)
            ≡ P.spare ports.old }
    {
        let was_arming = self.settle();
        let kind = self.step_settled(ports);
        let answer = self.report(kind);
        if was_arming {
            self.arm_again(answer);
        }
        answer
    }

    /// Does the same where EI wasn't the last instruction. Returns the step's kind.
    #[inline(always)]
    pub fn step_settled<P: Ports>(&mut self, ports: &mut P) -> Kind
        requires { CanStepSettled self.old (P.spare ports.old) }
        ensures { let devices = devices_by P.answer P.after P.operations P.state P.spare in
            let outcome = instruction (devices ports.old).input self.old in
            IsStepOfKind result outcome (self.old, self.new) (devices ports.old) (devices ports.new) }
    {
        let opcode = self.peek(self.regs.pc);
        self.step_opcode(opcode, ports)
    }

    /// What a step of this kind did, read off the machine that it left.
    #[inline(always)]
    pub fn report(&self, kind: Kind) -> Stepped
        ensures { result ≡ answer_of kind self.now }
    {
        match kind {
            Kind::Quiet | Kind::Moved | Kind::Armed => Stepped::Done,
            Kind::Called => Stepped::Called {
                slot: self.regs.sp,
                target: self.regs.pc,
            },
            Kind::Returned => Stepped::Returned {
                slot: self.regs.sp.wrapping_sub(2),
            },
            Kind::Halted => Stepped::Halted,
            Kind::Undefined => Stepped::Undefined {
                opcode: self.peek(self.regs.pc),
            },
        }
    }

    // Turns interrupts on if EI was the last instruction, as the one after it does. Returns whether it was.
    #[inline(always)]
    fn settle(&mut self) -> bool
        ensures settled { self.new ≡ after_pending_ei self.old }
        ensures was { result ≡ is_arming self.old.regs.interrupts }
    {
        let was_arming = self.is_arming();
        self.regs.interrupts = match self.regs.interrupts {
            Interrupts::Off => Interrupts::Off,
            _ => Interrupts::On,
        };
        was_arming
    }

    // An undefined opcode changes nothing, so it leaves arming as it was.
    #[inline(always)]
    fn arm_again(&mut self, answer: Stepped)
        ensures { self.new ≡ armed_again answer self.old }
    {
        if let Stepped::Undefined { .. } = answer {
            self.regs.interrupts = Interrupts::Arming;
        }
    }

    #[inline(always)]
    fn get_pair(&self, pair: Pair) -> u16
        ensures { result ≡ get_pair self.now pair }
    {
        match pair {
            Pair::B => u16::from_be_bytes([self.regs.b, self.regs.c]),
            Pair::D => u16::from_be_bytes([self.regs.d, self.regs.e]),
            Pair::H => u16::from_be_bytes([self.regs.h, self.regs.l]),
            Pair::Sp => self.regs.sp,
        }
    }

    #[inline]
    fn put_pair(&mut self, pair: Pair, word: u16)
        ensures { self.new ≡ put_pair self.old pair word }
    {
        let [high, low] = word.to_be_bytes();
        match pair {
            Pair::B => {
                self.regs.b = high;
                self.regs.c = low;
            }
            Pair::D => {
                self.regs.d = high;
                self.regs.e = low;
            }
            Pair::H => {
                self.regs.h = high;
                self.regs.l = low;
            }
            Pair::Sp => self.regs.sp = word,
        }
    }

    #[inline]
    fn get_stack_pair(&self, pair: StackPair) -> u16
        ensures { result ≡ get_stack_pair self.now pair }
    {
        match pair {
            StackPair::B => self.get_pair(Pair::B),
            StackPair::D => self.get_pair(Pair::D),
            StackPair::H => self.get_pair(Pair::H),
            StackPair::Psw => u16::from_be_bytes([self.regs.a, self.regs.flags.to_byte()]),
        }
    }

    #[inline]
    fn put_stack_pair(&mut self, pair: StackPair, word: u16)
        ensures { self.new ≡ put_stack_pair self.old pair word }
    {
        match pair {
            StackPair::B => self.put_pair(Pair::B, word),
            StackPair::D => self.put_pair(Pair::D, word),
            StackPair::H => self.put_pair(Pair::H, word),
            StackPair::Psw => {
                let [high, low] = word.to_be_bytes();
                self.regs.a = high;
                self.regs.flags = Flags::from_byte(low);
            }
        }
    }

    #[inline]
    fn word_at(&self, address: u16) -> u16
        ensures { result ≡ word_at self.now address }
    {
        u16::from_le_bytes([self.peek(address), self.peek(address.wrapping_add(1))])
    }

    /// The byte after the opcode.
    #[inline(always)]
    fn operand(&self) -> u8
        ensures { result ≡ byte_at self.now (self.now.regs.pc + 1) }
    {
        self.peek(self.regs.pc.wrapping_add(1))
    }

    /// The word after the opcode.
    #[inline(always)]
    fn operand_word(&self) -> u16
        ensures { result ≡ word_at self.now (self.now.regs.pc + 1) }
    {
        self.word_at(self.regs.pc.wrapping_add(1))
    }

    #[inline]
    fn store_word(&mut self, address: u16, word: u16)
        ensures { self.new ≡ stored_word self.old address word }
    {
        let [low, high] = word.to_le_bytes();
        self.poke(address, low);
        self.poke(address.wrapping_add(1), high);
    }

    #[inline]
    fn set_a(&mut self, computed: AluResult)
        ensures { self.new ≡ to_a self.old computed }
    {
        self.regs.a = computed.value;
        self.regs.flags = computed.flags;
    }

    #[inline]
    fn operate(&mut self, operation: Operation, byte: u8)
        ensures { self.new ≡ after_operation operation self.old byte }
    {
        let a = self.regs.a;
        let carry = self.regs.flags.carry();
        match operation {
            Operation::Add => self.set_a(alu_add(a, byte, false)),
            Operation::Adc => self.set_a(alu_add(a, byte, carry)),
            Operation::Sub => self.set_a(alu_sub(a, byte, false)),
            Operation::Sbb => self.set_a(alu_sub(a, byte, carry)),
            Operation::Ana => self.set_a(alu_and(a, byte)),
            Operation::Xra => self.set_a(alu_xor(a, byte)),
            Operation::Ora => self.set_a(alu_or(a, byte)),
            Operation::Cmp => self.regs.flags = alu_sub(a, byte, false).flags,
        }
    }

    #[inline]
    fn add_to_hl(&mut self, word: u16)
        ensures { self.new ≡ added_to_hl self.old word }
    {
        let (total, carry) = self.get_pair(Pair::H).overflowing_add(word);
        self.put_pair(Pair::H, total);
        self.regs.flags = self.regs.flags.with_carry(carry);
    }

    #[inline]
    fn holds(&self, cond: Cond) -> bool
        ensures { result ≡ holds cond self.now.regs.flags }
    {
        let flags = self.regs.flags;
        match cond {
            Cond::NotZero => !flags.zero(),
            Cond::Zero => flags.zero(),
            Cond::NoCarry => !flags.carry(),
            Cond::Carry => flags.carry(),
            Cond::ParityOdd => !flags.parity(),
            Cond::ParityEven => flags.parity(),
            Cond::Plus => !flags.sign(),
            Cond::Minus => flags.sign(),
        }
    }

    #[inline]
    fn jump(&mut self, address: u16)
        ensures { self.new ≡ with_pc self.old address }
    {
        self.regs.pc = address;
    }

    #[inline]
    fn push_word(&mut self, word: u16)
        ensures { self.new ≡ after_push self.old word }
    {
        let [high, low] = word.to_be_bytes();
        let top = self.regs.sp;
        self.poke(top.wrapping_sub(1), high);
        self.poke(top.wrapping_sub(2), low);
        self.regs.sp = top.wrapping_sub(2);
    }

    #[inline]
    fn pop_word(&mut self) -> u16
        ensures after { self.new ≡ after_pop self.old }
        ensures word { result ≡ word_at self.old self.old.regs.sp }
    {
        let word = self.word_at(self.regs.sp);
        self.regs.sp = self.regs.sp.wrapping_add(2);
        word
    }

    #[inline]
    fn call(&mut self, target: u16) -> Kind
        ensures after { self.new ≡ (after_call self.old target).after }
        ensures answer { answer_of result self.new ≡ (after_call self.old target).answer }
        ensures kind { result ≡ Kind.Called }
    {
        self.push_word(self.regs.pc);
        self.jump(target);
        Kind::Called
    }

    #[inline]
    fn ret(&mut self) -> Kind
        ensures after { self.new ≡ (after_return self.old).after }
        ensures answer { answer_of result self.new ≡ (after_return self.old).answer }
        ensures kind { result ≡ Kind.Returned }
    {
        // It is read so that the proof knows it to be an address: two below SP after the pop.
        let _slot = self.regs.sp;
        let target = self.pop_word();
        self.jump(target);
        Kind::Returned
    }

    #[inline]
    fn exchange_with_stack(&mut self)
        ensures { self.new ≡ (effect Xthl (λ _. 0) self.old).after }
    {
        let word = self.word_at(self.regs.sp);
        let held = self.get_pair(Pair::H);
        self.store_word(self.regs.sp, held);
        self.put_pair(Pair::H, word);
    }

    #[inline]
    fn exchange_with_de(&mut self)
        requires settled { is_arming self.old.regs.interrupts ≡ false }
        ensures { self.new ≡ after_exchange self.old }
    {
        // The compiler doesn't know that these are 0, so it sees no exchange. If it sees one among a loop's
        // variables, it moves two or more of them on every step, in every arm: D and E, or H and L, by the
        // order in which it copies them. In `step` it knows that `arming` is 0, so it adds only the others.
        let low = (self.memory.len() % 256) as u8;
        let high = (self.memory.len() / 4_294_967_296 % 256) as u8;
        let arming = self.is_arming() as u8;
        let h = self.regs.h;
        let l = self.regs.l;
        self.regs.h = self.regs.d.wrapping_add(arming);
        self.regs.l = self.regs.e.wrapping_add(arming);
        self.regs.d = h.wrapping_add(low);
        self.regs.e = l.wrapping_add(high);
    }
}

/// The register of a code of three bits, or the byte in memory at HL.
#[inline]
fn reg_at(code: u8) -> Reg
    requires { code < 8 }
    ensures { result ≡ reg_at code }
{
    match code {
        0 => Reg::B,
        1 => Reg::C,
        2 => Reg::D,
        3 => Reg::E,
        4 => Reg::H,
        5 => Reg::L,
        6 => Reg::M,
        7 => Reg::A,
        _ => unreachable!(),
    }
}

fn zero_bytes(alloc: Global, count: usize) -> Result<Vec<u8>, AllocError>
    ensures { IfOk result (λ v. v.items ≡ replicate count 0) }
{
    vec![in alloc; 0; count]
}
