//! The 256 opcodes, each with an arm that names its registers.
ghost use Rattle.std.specs.Prelude.{◌≡◌, ◌≢◌, ◌+◌, ◌*◌, ◌<◌, ◌≤◌, ◌⊎◌, None, true, false};
ghost use Rattle.i80_base.specs.Rows.{row, is_undefined, Alone, Byte, Word};
ghost use Rattle.i80_base.specs.AliasRows.{acts, alias_row};
ghost use Rattle.i80_base.specs.declared.instruction.Instr.TheVariants.{Nop, Lxi, Inx, Dcx, Dad, Inr, Dcr};
ghost use Rattle.i80_base.specs.declared.instruction.Instr.TheVariants.{Mvi, Rotate, AluImmediate, JumpIf};
ghost use Rattle.i80_base.specs.declared.instruction.Instr.TheVariants.{CallIf, RetIf, Push, Pop};
ghost use Rattle.i80_exec.specs.State.{modulo_65536, byte_at, with_byte, get, with_reg, get_pair};
ghost use Rattle.i80_exec.specs.State.{with_pc, with_interrupts};
ghost use Rattle.i80_exec.specs.Effect.{after_operation, to_reg};
ghost use Rattle.i80_exec.specs.Opcodes.{reg_at, operation_at};
ghost use Rattle.i80_exec.specs.Step.{by_row, by_opcode, interrupts_after, answer_of, is_arming};
ghost use Rattle.i80_exec.specs.Step.{devices_by, IsOutcome, IsStepOfKind, IsAtOpcode, Executes};
ghost use Rattle.i80_exec.specs.Step.{Performs, Settles, is_moved, row_moves_sp, IsInGroup, IsStepByRow};

use crate::machine::{Machine, reg_at};
use crate::registers::{Interrupts, Kind};
use i80_base::arithmetic::{AluResult, daa, dcr, inr, rotate};
use i80_base::board::Board;
use i80_base::instruction::{Cond, Operation, Pair, Reg, Rotation, StackPair};
use i80_base::ports::Ports;

macro_rules! arm {
    (nop $m:ident $opcode:ident) => {{ $m.advance(1); Kind::Quiet }};
    (undefined $m:ident $opcode:ident) => {{ Kind::Undefined }};
    (immediate $m:ident $opcode:ident, $operation:ident) => {{
        $m.immediate(Operation::$operation);
        Kind::Quiet
    }};
    (mvi $m:ident $opcode:ident, $reg:ident) => {{ $m.mvi(Reg::$reg); Kind::Quiet }};
    (inr $m:ident $opcode:ident, $reg:ident) => {{ $m.inr(Reg::$reg); Kind::Quiet }};
    (dcr $m:ident $opcode:ident, $reg:ident) => {{ $m.dcr(Reg::$reg); Kind::Quiet }};
    (lxi $m:ident $opcode:ident, $pair:ident) => {{ $m.lxi(Pair::$pair); Kind::Quiet }};
    (lxi_sp $m:ident $opcode:ident) => {{ $m.lxi(Pair::Sp); Kind::Moved }};
    (inx $m:ident $opcode:ident, $pair:ident) => {{ $m.inx(Pair::$pair); Kind::Quiet }};
    (inx_sp $m:ident $opcode:ident) => {{ $m.inx(Pair::Sp); Kind::Moved }};
    (dcx $m:ident $opcode:ident, $pair:ident) => {{ $m.dcx(Pair::$pair); Kind::Quiet }};
    (dcx_sp $m:ident $opcode:ident) => {{ $m.dcx(Pair::Sp); Kind::Moved }};
    (dad $m:ident $opcode:ident, $pair:ident) => {{ $m.dad(Pair::$pair); Kind::Quiet }};
    (stax $m:ident $opcode:ident, $pair:ident) => {{
        $m.advance(1);
        $m.poke($m.get_pair(Pair::$pair), $m.regs.a);
        Kind::Quiet
    }};
    (ldax $m:ident $opcode:ident, $pair:ident) => {{
        $m.advance(1);
        $m.regs.a = $m.peek($m.get_pair(Pair::$pair));
        Kind::Quiet
    }};
    (shld $m:ident $opcode:ident) => {{
        let address = $m.operand_word();
        $m.advance(3);
        $m.store_word(address, $m.get_pair(Pair::H));
        Kind::Quiet
    }};
    (lhld $m:ident $opcode:ident) => {{
        let address = $m.operand_word();
        $m.advance(3);
        $m.put_pair(Pair::H, $m.word_at(address));
        Kind::Quiet
    }};
    (sta $m:ident $opcode:ident) => {{
        let address = $m.operand_word();
        $m.advance(3);
        $m.poke(address, $m.regs.a);
        Kind::Quiet
    }};
    (lda $m:ident $opcode:ident) => {{
        let address = $m.operand_word();
        $m.advance(3);
        $m.regs.a = $m.peek(address);
        Kind::Quiet
    }};
    (rotate $m:ident $opcode:ident, $rotation:ident) => {{
        $m.rotate(Rotation::$rotation);
        Kind::Quiet
    }};
    (daa $m:ident $opcode:ident) => {{
        $m.advance(1);
        $m.set_a(daa($m.regs.a, $m.regs.flags));
        Kind::Quiet
    }};
    (cma $m:ident $opcode:ident) => {{ $m.advance(1); $m.regs.a = !$m.regs.a; Kind::Quiet }};
    (stc $m:ident $opcode:ident) => {{
        $m.advance(1);
        $m.regs.flags = $m.regs.flags.with_carry(true);
        Kind::Quiet
    }};
    (cmc $m:ident $opcode:ident) => {{
        $m.advance(1);
        $m.regs.flags = $m.regs.flags.with_carry(!$m.regs.flags.carry());
        Kind::Quiet
    }};
    (jmp $m:ident $opcode:ident) => {{
        let target = $m.operand_word();
        $m.advance(3);
        $m.jump(target);
        Kind::Quiet
    }};
    (jump_if $m:ident $opcode:ident, $cond:ident) => {{ $m.jump_if(Cond::$cond) }};
    (call $m:ident $opcode:ident) => {{
        let target = $m.operand_word();
        $m.advance(3);
        $m.call(target)
    }};
    (call_if $m:ident $opcode:ident, $cond:ident) => {{ $m.call_if(Cond::$cond) }};
    (ret $m:ident $opcode:ident) => {{ $m.advance(1); $m.ret() }};
    (ret_if $m:ident $opcode:ident, $cond:ident) => {{ $m.ret_if(Cond::$cond) }};
    (rst $m:ident $opcode:ident, $target:literal) => {{ $m.advance(1); $m.call($target) }};
    (push $m:ident $opcode:ident, $pair:ident) => {{ $m.push(StackPair::$pair); Kind::Moved }};
    (pop $m:ident $opcode:ident, $pair:ident) => {{ $m.pop(StackPair::$pair); Kind::Moved }};
    (xthl $m:ident $opcode:ident) => {{
        $m.advance(1);
        $m.exchange_with_stack();
        Kind::Quiet
    }};
    (xchg $m:ident $opcode:ident) => {{ $m.exchange_with_de(); $m.advance(1); Kind::Quiet }};
    (pchl $m:ident $opcode:ident) => {{
        $m.advance(1);
        $m.jump($m.get_pair(Pair::H));
        Kind::Quiet
    }};
    (sphl $m:ident $opcode:ident) => {{
        $m.advance(1);
        $m.regs.sp = $m.get_pair(Pair::H);
        Kind::Moved
    }};
    (di $m:ident $opcode:ident) => {{
        $m.advance(1);
        $m.regs.interrupts = Interrupts::Off;
        Kind::Quiet
    }};
    (ei $m:ident $opcode:ident) => {{
        $m.advance(1);
        $m.regs.interrupts = Interrupts::Arming;
        Kind::Armed
    }};
}

macro_rules! opcodes {
    ($m:ident $opcode:ident; $($code:literal => $kind:ident($($operand:tt)*);)*) => {
        match $opcode {
            $($code => opcodes!(@ $kind $m $opcode; $($operand)*),)*
            _ => unreachable!(),
        }
    };
    (@ $kind:ident $m:ident $opcode:ident;) => { arm!($kind $m $opcode) };
    (@ $kind:ident $m:ident $opcode:ident; $($operand:tt)+) => {
        arm!($kind $m $opcode, $($operand)+)
    };
}

macro_rules! groups {
    ($m:ident $ports:ident $opcode:ident; $($($code:literal)* => $group:ident;)* _ => $last:ident;) => {
        match $opcode {
            0xd3 => $m.step_out($opcode, $ports),
            0xdb => $m.step_in($opcode, $ports),
            $($($code => $m.$group($opcode),)*)*
            _ => $m.$last($opcode),
        }
    };
}

impl Machine {
    /// Executes the instruction of this opcode, which is the one at PC.
    #[inline(always)]
    pub(super) fn step_opcode<P: Ports>(&mut self, opcode: u8, ports: &mut P) -> Kind
        requires { IsAtOpcode opcode self.old (P.spare ports.old) }
        ensures { let devices = devices_by P.answer P.after P.operations P.state P.spare in
            let outcome = by_opcode opcode (devices ports.old).input self.old in
            IsStepOfKind result outcome (self.old, self.new) (devices ports.old) (devices ports.new) }
    {
        // The board is looked at only here, so that defined instructions don't pay for it.
        let kind = self.step_strict(opcode, ports);
        if self.is_alias(kind) {
            return self.step_alias(opcode);
        }
        kind
    }

    /// Whether a strict step of this kind met an undefined opcode on a board where these act.
    #[inline(always)]
    fn is_alias(&self, kind: Kind) -> bool
        ensures alias { result ≡ true → (kind ≡ Kind.Undefined) × (acts self.now.board ≡ true) }
        ensures other { result ≡ false → kind ≡ Kind.Undefined → acts self.now.board ≡ false }
    {
        match kind {
            Kind::Undefined => has_aliases(self.board),
            _ => false,
        }
    }

    /// Executes it by the strict table.
    #[inline(always)]
    fn step_strict<P: Ports>(&mut self, opcode: u8, ports: &mut P) -> Kind
        requires { IsAtOpcode opcode self.old (P.spare ports.old) }
        ensures { let devices = devices_by P.answer P.after P.operations P.state P.spare in
            let outcome = by_row (row opcode) (devices ports.old).input self.old in
            IsStepOfKind result outcome (self.old, self.new) (devices ports.old) (devices ports.new) }
    {
        self.step_in_group(opcode, ports)
    }

    /// Executes one of the twelve opcodes that the table leaves undefined, on a board where they act.
    #[inline(always)]
    #[tactic(auto, unfolding(i80_base::specs::AliasRows::alias_row), using(crate::proofs::AliasLemmas::nop))]
    fn step_alias(&mut self, opcode: u8) -> Kind
        requires opcode { opcode ≡ byte_at self.old self.old.regs.pc }
        requires settled { is_arming self.old.regs.interrupts ≡ false }
        requires undefined { is_undefined (row opcode) ≡ true }
        ensures outcome { Executes (alias_row opcode) self.old self.new result }
        ensures settles { Settles result self.old self.new }
        ensures moved { is_moved result ≡ false }
    {
        let m = self;
        match opcode {
            0xcb => arm!(jmp m opcode),
            0xd9 => arm!(ret m opcode),
            0xdd | 0xed | 0xfd => arm!(call m opcode),
            _ => arm!(nop m opcode),
        }
    }

    /// OUT, which is the instruction at PC.
    #[inline(always)]
    #[tactic(auto, unfolding(i80_base::specs::Rows::row))]
    fn step_out<P: Ports>(&mut self, opcode: u8, ports: &mut P) -> Kind
        requires opcode { opcode ≡ byte_at self.old self.old.regs.pc }
        requires settled { is_arming self.old.regs.interrupts ≡ false }
        requires output { opcode ≡ 211 }
        requires spare { 1 ≤ P.spare ports.old }
        ensures { let devices = devices_by P.answer P.after P.operations P.state P.spare in
            let outcome = by_row (row opcode) (devices ports.old).input self.old in
            IsStepOfKind result outcome (self.old, self.new) (devices ports.old) (devices ports.new) }
    {
        let port = self.operand();
        self.advance(2);
        ports.output(port, self.regs.a);
        Kind::Quiet
    }

    /// IN, which is the instruction at PC.
    #[inline(always)]
    #[tactic(auto, unfolding(i80_base::specs::Rows::row))]
    fn step_in<P: Ports>(&mut self, opcode: u8, ports: &mut P) -> Kind
        requires opcode { opcode ≡ byte_at self.old self.old.regs.pc }
        requires settled { is_arming self.old.regs.interrupts ≡ false }
        requires input { opcode ≡ 219 }
        requires spare { 1 ≤ P.spare ports.old }
        ensures { let devices = devices_by P.answer P.after P.operations P.state P.spare in
            let outcome = by_row (row opcode) (devices ports.old).input self.old in
            IsStepOfKind result outcome (self.old, self.new) (devices ports.old) (devices ports.new) }
    {
        let port = self.operand();
        self.advance(2);
        self.regs.a = ports.input(port);
        Kind::Quiet
    }

    // One match over all opcodes compiles to one jump table, and each of its arms to one arm of its group.
    // Only two arms use the ports.
    #[inline(always)]
    fn step_in_group<P: Ports>(&mut self, opcode: u8, ports: &mut P) -> Kind
        requires { IsAtOpcode opcode self.old (P.spare ports.old) }
        ensures { let devices = devices_by P.answer P.after P.operations P.state P.spare in
            let outcome = by_row (row opcode) (devices ports.old).input self.old in
            IsStepByRow result (row opcode) self.old self.new
            ((Executes (row opcode) self.old self.new result × (ports.new ≡ ports.old))
            ⊎ (IsOutcome outcome self.new (answer_of result self.new)
            × Performs outcome (devices ports.old) (devices ports.new))) }
    {
        groups! { self ports opcode;
            0x00 0x01 0x02 0x03 0x04 0x05 0x06 0x07 0x08 0x09 0x0a 0x0b 0x0c 0x0d 0x0e 0x0f => step_00;
            0x10 0x11 0x12 0x13 0x14 0x15 0x16 0x17 0x18 0x19 0x1a 0x1b 0x1c 0x1d 0x1e 0x1f => step_00;
            0x20 0x21 0x22 0x23 0x24 0x25 0x26 0x27 0x28 0x29 0x2a 0x2b 0x2c 0x2d 0x2e 0x2f => step_20;
            0x30 0x31 0x32 0x33 0x34 0x35 0x36 0x37 0x38 0x39 0x3a 0x3b 0x3c 0x3d 0x3e 0x3f => step_20;
            0x40 0x41 0x42 0x43 0x44 0x45 0x46 0x47 0x48 0x49 0x4a 0x4b 0x4c 0x4d 0x4e 0x4f => step_40;
            0x50 0x51 0x52 0x53 0x54 0x55 0x56 0x57 0x58 0x59 0x5a 0x5b 0x5c 0x5d 0x5e 0x5f => step_40;
            0x60 0x61 0x62 0x63 0x64 0x65 0x66 0x67 0x68 0x69 0x6a 0x6b 0x6c 0x6d 0x6e 0x6f => step_40;
            0x70 0x71 0x72 0x73 0x74 0x75 0x76 0x77 0x78 0x79 0x7a 0x7b 0x7c 0x7d 0x7e 0x7f => step_40;
            0x80 0x81 0x82 0x83 0x84 0x85 0x86 0x87 0x88 0x89 0x8a 0x8b 0x8c 0x8d 0x8e 0x8f => step_80;
            0x90 0x91 0x92 0x93 0x94 0x95 0x96 0x97 0x98 0x99 0x9a 0x9b 0x9c 0x9d 0x9e 0x9f => step_80;
            0xa0 0xa1 0xa2 0xa3 0xa4 0xa5 0xa6 0xa7 0xa8 0xa9 0xaa 0xab 0xac 0xad 0xae 0xaf => step_80;
            0xb0 0xb1 0xb2 0xb3 0xb4 0xb5 0xb6 0xb7 0xb8 0xb9 0xba 0xbb 0xbc 0xbd 0xbe 0xbf => step_80;
            0xc0 0xc1 0xc2 0xc3 0xc4 0xc5 0xc6 0xc7 0xc8 0xc9 0xca 0xcb 0xcc 0xcd 0xce 0xcf => step_c0;
            0xd0 0xd1 0xd2 0xd4 0xd5 0xd6 0xd7 0xd8 0xd9 0xda 0xdc 0xdd 0xde 0xdf => step_c0;
            0xe0 0xe1 0xe2 0xe3 0xe4 0xe5 0xe6 0xe7 0xe8 0xe9 0xea 0xeb 0xec 0xed 0xee 0xef => step_e0;
            0xf0 0xf1 0xf2 0xf3 0xf4 0xf5 0xf6 0xf7 0xf8 0xf9 0xfa 0xfb 0xfc 0xfd 0xfe => step_e0;
            _ => step_e0;
        }
    }

    /// Sets PC past an instruction of this size. The interrupt state, which is settled, stays.
    #[inline(always)]
    fn advance(&mut self, size: u8)
        requires settled { is_arming self.old.regs.interrupts ≡ false }
        ensures { self.new ≡ with_interrupts (with_pc self.old (modulo_65536 (self.old.regs.pc + size)))
            (interrupts_after Nop self.old.regs.interrupts) }
    {
        self.regs.pc = self.regs.pc.wrapping_add(size as u16);
    }

    #[inline(always)]
    fn byte_at_hl(&self) -> u8
        ensures { result ≡ byte_at self.now (get_pair self.now Pair.H) }
    {
        self.peek(self.get_pair(Pair::H))
    }

    #[inline(always)]
    fn store_at_hl(&mut self, byte: u8)
        ensures { self.new ≡ with_byte self.old (get_pair self.old Pair.H) byte }
    {
        let address = self.get_pair(Pair::H);
        self.poke(address, byte);
    }

    // The instructions whose opcode names a register, a pair, a condition or an operation.

    /// A register, or the byte in memory at HL.
    #[inline]
    fn get(&self, reg: Reg) -> u8
        ensures { result ≡ get self.now reg }
    {
        match reg {
            Reg::B => self.regs.b,
            Reg::C => self.regs.c,
            Reg::D => self.regs.d,
            Reg::E => self.regs.e,
            Reg::H => self.regs.h,
            Reg::L => self.regs.l,
            Reg::M => self.byte_at_hl(),
            Reg::A => self.regs.a,
        }
    }

    /// Sets a register, or the byte in memory at HL.
    #[inline]
    fn put(&mut self, reg: Reg, byte: u8)
        ensures { self.new ≡ with_reg self.old reg byte }
    {
        match reg {
            Reg::B => self.regs.b = byte,
            Reg::C => self.regs.c = byte,
            Reg::D => self.regs.d = byte,
            Reg::E => self.regs.e = byte,
            Reg::H => self.regs.h = byte,
            Reg::L => self.regs.l = byte,
            Reg::M => self.store_at_hl(byte),
            Reg::A => self.regs.a = byte,
        }
    }

    #[inline]
    fn carry(&self) -> bool
        ensures { result ≡ self.now.regs.flags.cy }
    {
        self.regs.flags.carry()
    }

    #[inline]
    fn put_result(&mut self, reg: Reg, computed: AluResult)
        ensures { self.new ≡ to_reg self.old reg computed }
    {
        self.put(reg, computed.value);
        self.regs.flags = computed.flags;
    }

    #[inline(always)]
    fn mvi(&mut self, reg: Reg)
        requires settled { is_arming self.old.regs.interrupts ≡ false }
        ensures { self.new ≡ (by_row (Byte (Mvi reg)) (λ _. 0) self.old).after }
    {
        let byte = self.operand();
        self.advance(2);
        self.put(reg, byte);
    }

    #[inline(always)]
    fn inr(&mut self, reg: Reg)
        requires settled { is_arming self.old.regs.interrupts ≡ false }
        ensures { self.new ≡ (by_row (Alone (Inr reg)) (λ _. 0) self.old).after }
    {
        self.advance(1);
        self.put_result(reg, inr(self.get(reg), self.carry()));
    }

    #[inline(always)]
    fn dcr(&mut self, reg: Reg)
        requires settled { is_arming self.old.regs.interrupts ≡ false }
        ensures { self.new ≡ (by_row (Alone (Dcr reg)) (λ _. 0) self.old).after }
    {
        self.advance(1);
        self.put_result(reg, dcr(self.get(reg), self.carry()));
    }

    #[inline(always)]
    fn lxi(&mut self, pair: Pair)
        requires settled { is_arming self.old.regs.interrupts ≡ false }
        ensures { self.new ≡ (by_row (Word (Lxi pair)) (λ _. 0) self.old).after }
    {
        let word = self.operand_word();
        self.advance(3);
        self.put_pair(pair, word);
    }

    #[inline(always)]
    fn inx(&mut self, pair: Pair)
        requires settled { is_arming self.old.regs.interrupts ≡ false }
        ensures { self.new ≡ (by_row (Alone (Inx pair)) (λ _. 0) self.old).after }
    {
        self.advance(1);
        self.put_pair(pair, self.get_pair(pair).wrapping_add(1));
    }

    #[inline(always)]
    fn dcx(&mut self, pair: Pair)
        requires settled { is_arming self.old.regs.interrupts ≡ false }
        ensures { self.new ≡ (by_row (Alone (Dcx pair)) (λ _. 0) self.old).after }
    {
        self.advance(1);
        self.put_pair(pair, self.get_pair(pair).wrapping_sub(1));
    }

    #[inline(always)]
    fn dad(&mut self, pair: Pair)
        requires settled { is_arming self.old.regs.interrupts ≡ false }
        ensures { self.new ≡ (by_row (Alone (Dad pair)) (λ _. 0) self.old).after }
    {
        self.advance(1);
        self.add_to_hl(self.get_pair(pair));
    }

    #[inline(always)]
    fn rotate(&mut self, rotation: Rotation)
        requires settled { is_arming self.old.regs.interrupts ≡ false }
        ensures { self.new ≡ (by_row (Alone (Rotate rotation)) (λ _. 0) self.old).after }
    {
        self.advance(1);
        self.set_a(rotate(rotation, self.regs.a, self.regs.flags));
    }

    #[inline(always)]
    fn immediate(&mut self, operation: Operation)
        requires settled { is_arming self.old.regs.interrupts ≡ false }
        ensures { self.new ≡ (by_row (Byte (AluImmediate operation)) (λ _. 0) self.old).after }
    {
        let byte = self.operand();
        self.advance(2);
        self.operate(operation, byte);
    }

    #[inline(always)]
    fn push(&mut self, pair: StackPair)
        requires settled { is_arming self.old.regs.interrupts ≡ false }
        ensures { self.new ≡ (by_row (Alone (Push pair)) (λ _. 0) self.old).after }
    {
        self.advance(1);
        self.push_word(self.get_stack_pair(pair));
    }

    #[inline(always)]
    fn pop(&mut self, pair: StackPair)
        requires settled { is_arming self.old.regs.interrupts ≡ false }
        ensures { self.new ≡ (by_row (Alone (Pop pair)) (λ _. 0) self.old).after }
    {
        let word = self.pop_word();
        self.put_stack_pair(pair, word);
        self.advance(1);
    }

    #[inline(always)]
    fn jump_if(&mut self, cond: Cond) -> Kind
        requires settled { is_arming self.old.regs.interrupts ≡ false }
        ensures outcome { Executes (Word (JumpIf cond)) self.old self.new result }
        ensures settles { Settles result self.old self.new }
        ensures moved { is_moved result ≡ false }
    {
        let target = self.operand_word();
        self.advance(3);
        if self.holds(cond) {
            self.jump(target);
        }
        Kind::Quiet
    }

    #[inline(always)]
    fn call_if(&mut self, cond: Cond) -> Kind
        requires settled { is_arming self.old.regs.interrupts ≡ false }
        ensures outcome { Executes (Word (CallIf cond)) self.old self.new result }
        ensures settles { Settles result self.old self.new }
        ensures moved { is_moved result ≡ false }
    {
        let target = self.operand_word();
        self.advance(3);
        if self.holds(cond) {
            self.call(target)
        } else {
            Kind::Quiet
        }
    }

    #[inline(always)]
    fn ret_if(&mut self, cond: Cond) -> Kind
        requires settled { is_arming self.old.regs.interrupts ≡ false }
        ensures outcome { Executes (Alone (RetIf cond)) self.old self.new result }
        ensures settles { Settles result self.old self.new }
        ensures moved { is_moved result ≡ false }
    {
        self.advance(1);
        if self.holds(cond) {
            self.ret()
        } else {
            Kind::Quiet
        }
    }

    #[inline]
    #[tactic(auto, unfolding(i80_base::specs::Rows::row))]
    fn step_00(&mut self, opcode: u8) -> Kind
        requires { IsInGroup 0 32 opcode self.old }
        ensures outcome { Executes (row opcode) self.old self.new result }
        ensures settles { Settles result self.old self.new }
        ensures moved { is_moved result ≡ row_moves_sp (row opcode) }
    {
        let m = self;
        opcodes! { m opcode;
            0x00 => nop();
            0x01 => lxi(B);
            0x02 => stax(B);
            0x03 => inx(B);
            0x04 => inr(B);
            0x05 => dcr(B);
            0x06 => mvi(B);
            0x07 => rotate(Rlc);
            0x08 => undefined();
            0x09 => dad(B);
            0x0a => ldax(B);
            0x0b => dcx(B);
            0x0c => inr(C);
            0x0d => dcr(C);
            0x0e => mvi(C);
            0x0f => rotate(Rrc);
            0x10 => undefined();
            0x11 => lxi(D);
            0x12 => stax(D);
            0x13 => inx(D);
            0x14 => inr(D);
            0x15 => dcr(D);
            0x16 => mvi(D);
            0x17 => rotate(Ral);
            0x18 => undefined();
            0x19 => dad(D);
            0x1a => ldax(D);
            0x1b => dcx(D);
            0x1c => inr(E);
            0x1d => dcr(E);
            0x1e => mvi(E);
            0x1f => rotate(Rar);
        }
    }

    #[inline]
    #[tactic(auto, unfolding(i80_base::specs::Rows::row))]
    fn step_20(&mut self, opcode: u8) -> Kind
        requires { IsInGroup 32 64 opcode self.old }
        ensures outcome { Executes (row opcode) self.old self.new result }
        ensures settles { Settles result self.old self.new }
        ensures moved { is_moved result ≡ row_moves_sp (row opcode) }
    {
        let m = self;
        opcodes! { m opcode;
            0x20 => undefined();
            0x21 => lxi(H);
            0x22 => shld();
            0x23 => inx(H);
            0x24 => inr(H);
            0x25 => dcr(H);
            0x26 => mvi(H);
            0x27 => daa();
            0x28 => undefined();
            0x29 => dad(H);
            0x2a => lhld();
            0x2b => dcx(H);
            0x2c => inr(L);
            0x2d => dcr(L);
            0x2e => mvi(L);
            0x2f => cma();
            0x30 => undefined();
            0x31 => lxi_sp();
            0x32 => sta();
            0x33 => inx_sp();
            0x34 => inr(M);
            0x35 => dcr(M);
            0x36 => mvi(M);
            0x37 => stc();
            0x38 => undefined();
            0x39 => dad(Sp);
            0x3a => lda();
            0x3b => dcx_sp();
            0x3c => inr(A);
            0x3d => dcr(A);
            0x3e => mvi(A);
            0x3f => cmc();
        }
    }

    /// Does the operation of a three-bit code, from ADD to CMP, on A and a byte.
    #[inline]
    fn operate_by(&mut self, code: u8, byte: u8)
        requires { code < 8 }
        ensures { self.new ≡ after_operation (operation_at code) self.old byte }
    {
        let operation = match code {
            0 => Operation::Add,
            1 => Operation::Adc,
            2 => Operation::Sub,
            3 => Operation::Sbb,
            4 => Operation::Ana,
            5 => Operation::Xra,
            6 => Operation::Ora,
            7 => Operation::Cmp,
            _ => unreachable!(),
        };
        self.operate(operation, byte);
    }

    /// SBB A, whose result of 0 or FF depends on the carry alone. The compiler sees that only if this case
    /// stands by itself.
    #[inline]
    fn sbb_a(&mut self)
        ensures { self.new ≡ after_operation Operation.Sbb self.old self.old.regs.a }
    {
        self.operate(Operation::Sbb, self.regs.a);
    }

    /// MOV, whose opcode has the codes of its registers, and HLT, whose opcode would be `MOV M,M`.
    #[inline]
    fn step_40(&mut self, opcode: u8) -> Kind
        requires { IsInGroup 64 128 opcode self.old }
        ensures outcome { Executes (row opcode) self.old self.new result }
        ensures settles { Settles result self.old self.new }
        ensures moved { is_moved result ≡ row_moves_sp (row opcode) }
    {
        self.advance(1);
        if opcode == 0x76 {
            return Kind::Halted;
        }
        let from = reg_at(opcode % 8);
        let to = reg_at(opcode / 8 % 8);
        let byte = self.get(from);
        self.put(to, byte);
        Kind::Quiet
    }

    /// ADD to CMP, whose opcode has the codes of its operation and its register.
    #[inline]
    fn step_80(&mut self, opcode: u8) -> Kind
        requires { IsInGroup 128 192 opcode self.old }
        ensures outcome { Executes (row opcode) self.old self.new result }
        ensures settles { Settles result self.old self.new }
        ensures moved { is_moved result ≡ row_moves_sp (row opcode) }
    {
        self.advance(1);
        if opcode == 0x9f {
            self.sbb_a();
            return Kind::Quiet;
        }
        let from = reg_at(opcode % 8);
        let byte = self.get(from);
        self.operate_by(opcode / 8 % 8, byte);
        Kind::Quiet
    }

    #[inline]
    #[tactic(auto, unfolding(i80_base::specs::Rows::row))]
    fn step_c0(&mut self, opcode: u8) -> Kind
        requires group { IsInGroup 192 224 opcode self.old }
        requires output { opcode ≢ 211 }
        requires input { opcode ≢ 219 }
        ensures outcome { Executes (row opcode) self.old self.new result }
        ensures settles { Settles result self.old self.new }
        ensures moved { is_moved result ≡ row_moves_sp (row opcode) }
    {
        let m = self;
        opcodes! { m opcode;
            0xc0 => ret_if(NotZero);
            0xc1 => pop(B);
            0xc2 => jump_if(NotZero);
            0xc3 => jmp();
            0xc4 => call_if(NotZero);
            0xc5 => push(B);
            0xc6 => immediate(Add);
            0xc7 => rst(0x00);
            0xc8 => ret_if(Zero);
            0xc9 => ret();
            0xca => jump_if(Zero);
            0xcb => undefined();
            0xcc => call_if(Zero);
            0xcd => call();
            0xce => immediate(Adc);
            0xcf => rst(0x08);
            0xd0 => ret_if(NoCarry);
            0xd1 => pop(D);
            0xd2 => jump_if(NoCarry);
            0xd4 => call_if(NoCarry);
            0xd5 => push(D);
            0xd6 => immediate(Sub);
            0xd7 => rst(0x10);
            0xd8 => ret_if(Carry);
            0xd9 => undefined();
            0xda => jump_if(Carry);
            0xdc => call_if(Carry);
            0xdd => undefined();
            0xde => immediate(Sbb);
            0xdf => rst(0x18);
        }
    }

    #[inline]
    #[tactic(auto, unfolding(i80_base::specs::Rows::row))]
    fn step_e0(&mut self, opcode: u8) -> Kind
        requires { IsInGroup 224 256 opcode self.old }
        ensures outcome { Executes (row opcode) self.old self.new result }
        ensures settles { Settles result self.old self.new }
        ensures moved { is_moved result ≡ row_moves_sp (row opcode) }
    {
        let m = self;
        opcodes! { m opcode;
            0xe0 => ret_if(ParityOdd);
            0xe1 => pop(H);
            0xe2 => jump_if(ParityOdd);
            0xe3 => xthl();
            0xe4 => call_if(ParityOdd);
            0xe5 => push(H);
            0xe6 => immediate(Ana);
            0xe7 => rst(0x20);
            0xe8 => ret_if(ParityEven);
            0xe9 => pchl();
            0xea => jump_if(ParityEven);
            0xeb => xchg();
            0xec => call_if(ParityEven);
            0xed => undefined();
            0xee => immediate(Xra);
            0xef => rst(0x28);
            0xf0 => ret_if(Plus);
            0xf1 => pop(Psw);
            0xf2 => jump_if(Plus);
            0xf3 => di();
            0xf4 => call_if(Plus);
            0xf5 => push(Psw);
            0xf6 => immediate(Ora);
            0xf7 => rst(0x30);
            0xf8 => ret_if(Minus);
            0xf9 => sphl();
            0xfa => jump_if(Minus);
            0xfb => ei();
            0xfc => call_if(Minus);
            0xfd => undefined();
            0xfe => immediate(Cmp);
            0xff => rst(0x38);
        }
    }
}

// Inlined, since a call in the loop of steps, however cold, would cost the loop all registers that a call
// doesn't preserve.
#[inline(always)]
fn has_aliases(board: Board) -> bool
    ensures { result ≡ acts board }
{
    match board {
        Board::Strict => false,
        Board::Aliases => true,
    }
}
