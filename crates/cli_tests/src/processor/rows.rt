//! Values that the 8080 User's Manual and real processors give.
use crate::checks::expect_row;
use i80_base::arithmetic::{
    AluResult, alu_add, alu_and, alu_or, alu_sub, alu_xor, daa, dcr, inr, rotate,
};
use i80_base::board::Board;
use i80_base::flags::Flags;
use i80_base::instruction::{Cond, DecodeFault, Instr, Operation, Reg, Register, Rotation, Vector};
use i80_rows::decoding::{decode, decode_on};
use i80_rows::encoding::encode;
use std::process::Abort;

const NO_FLAGS: u8 = 0x02;

fn expect(rt: &impl Abort, computed: AluResult, value: u8, flag_byte: u8) {
    let is_so = computed.value == value && computed.flags.to_byte() == flag_byte;
    assert!(rt; is_so, "not {value:x} with flags {flag_byte:x}");
}

#[test]
fn arithmetic_sets_the_flags_of_the_manual(rt: HostRuntime) {
    let clear = Flags::from_byte(NO_FLAGS);
    expect(&rt, alu_add(0x6c, 0x2e, false), 0x9a, 0x96);
    expect(&rt, alu_add(0xff, 0x00, false), 0xff, 0x86);
    expect(&rt, alu_add(0xff, 0x00, true), 0x00, 0x57);
    expect(&rt, alu_sub(0x3e, 0x3e, false), 0x00, 0x56);
    expect(&rt, alu_sub(0x00, 0x00, true), 0xff, 0x87);
    expect(&rt, alu_and(0xfc, 0x0f), 0x0c, 0x16);
    expect(&rt, alu_and(0x03, 0x05), 0x01, 0x02);
    expect(&rt, alu_xor(0x5c, 0x78), 0x24, 0x06);
    expect(&rt, alu_or(0x33, 0x0f), 0x3f, 0x06);
    expect(&rt, inr(0xff, true), 0x00, 0x57);
    expect(&rt, inr(0x7f, false), 0x80, 0x92);
    expect(&rt, dcr(0x00, true), 0xff, 0x87);
    expect(&rt, dcr(0x10, false), 0x0f, 0x06);
    expect(&rt, daa(0x9b, clear), 0x01, 0x13);
    expect(&rt, daa(0x15, clear.with_carry(true)), 0x75, 0x03);
}

#[test]
fn rotations_change_only_the_carry(rt: HostRuntime) {
    let all = Flags::from_byte(0xff);
    let none = Flags::from_byte(0x00);
    for (rotation, a, flags, value, flag_byte) in [
        (Rotation::Rlc, 0xf2, none, 0xe5, 0x03),
        (Rotation::Rrc, 0xf2, all, 0x79, 0xd6),
        (Rotation::Ral, 0xb5, none, 0x6a, 0x03),
        (Rotation::Rar, 0x6a, all, 0xb5, 0xd6),
    ] {
        expect(&rt, rotate(rotation, a, flags), value, flag_byte);
    }
}

#[test]
fn the_flag_byte_has_three_fixed_bits(rt: HostRuntime) {
    let flags = [
        (Flags::from_byte(0xff), 0xd7),
        (Flags::from_byte(0x00), 0x02),
        (Flags::all_clear(), 0x02),
        (Flags::from_byte(0xae), 0x86),
    ];
    for (row, (flags, byte)) in flags.iter().enumerate() {
        expect_row(&rt, flags.to_byte() == *byte, row);
    }
    let flags = Flags::from_byte(0x51);
    let read = (
        flags.sign(),
        flags.zero(),
        flags.auxiliary_carry(),
        flags.parity(),
        flags.carry(),
    );
    assert!(rt; read == (false, true, true, false, true));
}

type Decoded = Result<(Instr, u8), DecodeFault>;

// What both boards read alike.
const DECODED: [(&[u8], Decoded); 9] = [
    (&[], Err(DecodeFault::Short { needed: 1 })),
    (&[0xc3, 0x34], Err(DecodeFault::Short { needed: 3 })),
    (&[0x3e], Err(DecodeFault::Short { needed: 2 })),
    (&[0xc3, 0x34, 0x12], Ok((Instr::Jmp(0x1234), 3))),
    (&[0x3e, 0x6c, 0x76], Ok((Instr::Mvi(Reg::A, 0x6c), 2))),
    (&[0x41], Ok((Instr::Mov(Register::B, Register::C), 1))),
    (&[0xdc, 0, 1], Ok((Instr::CallIf(Cond::Carry, 0x0100), 3))),
    (&[0xfe, 9], Ok((Instr::AluImmediate(Operation::Cmp, 9), 2))),
    (&[0xcf], Ok((Instr::Rst(Vector::V1), 1))),
];

// Whether what is read is this. No two instructions have one encoding.
fn is_same(read: Decoded, want: Decoded) -> bool {
    match (read, want) {
        (Ok((instr, size)), Ok((other, length))) => {
            size == length && encode(instr).as_slice() == encode(other).as_slice()
        }
        (Err(fault), Err(other)) => fault == other,
        _ => false,
    }
}

// Whether bytes are read so on a strict board, and so on one with aliases.
fn are_read(bytes: &[u8], strict: Decoded, aliased: Decoded) -> bool {
    is_same(decode(bytes), strict)
        && is_same(decode_on(bytes, Board::Strict), strict)
        && is_same(decode_on(bytes, Board::Aliases), aliased)
}

#[test]
fn both_boards_read_the_defined_opcodes_alike(rt: HostRuntime) {
    for (row, (bytes, want)) in DECODED.iter().enumerate() {
        expect_row(&rt, are_read(bytes, *want, *want), row);
    }
}

const UNDEFINED: Decoded = Err(DecodeFault::Undefined);

// What MAME's 8080 takes the twelve undefined opcodes for, with 34 and 12 behind them.
const ALIASES: [(u8, Instr, u8); 12] = [
    (0x08, Instr::Nop, 1),
    (0x10, Instr::Nop, 1),
    (0x18, Instr::Nop, 1),
    (0x20, Instr::Nop, 1),
    (0x28, Instr::Nop, 1),
    (0x30, Instr::Nop, 1),
    (0x38, Instr::Nop, 1),
    (0xcb, Instr::Jmp(0x1234), 3),
    (0xd9, Instr::Ret, 1),
    (0xdd, Instr::Call(0x1234), 3),
    (0xed, Instr::Call(0x1234), 3),
    (0xfd, Instr::Call(0x1234), 3),
];

// Whether an opcode, of which a board with aliases makes this, is undefined on a strict one.
fn is_alias(opcode: u8, instr: Instr, size: u8) -> bool {
    are_read(&[opcode, 0x34, 0x12], UNDEFINED, Ok((instr, size)))
        && is_same(decode(&[opcode, 0, 0]), UNDEFINED)
}

#[test]
fn a_board_with_aliases_defines_the_undefined_opcodes(rt: HostRuntime) {
    for (row, (opcode, instr, size)) in ALIASES.iter().enumerate() {
        expect_row(&rt, is_alias(*opcode, *instr, *size), row);
    }
    let cut_off = decode_on(&[0xcb, 0x34], Board::Aliases);
    assert!(rt; is_same(cut_off, Err(DecodeFault::Short { needed: 3 })));
}

// Whether what an opcode with two bytes after it means is encoded as they are; nothing where it means
// nothing.
fn is_encoded_again(opcode: u8) -> Option<bool> {
    let code = [opcode, 0x34, 0x12];
    match decode(&code) {
        Ok((instr, _)) => Some(code.starts_with(encode(instr).as_slice())),
        Err(_) => None,
    }
}

// How many of 64 opcodes are defined, each of which is encoded again.
fn count_defined(rt: &impl Abort, first: u8) -> u32 {
    let mut defined = 0u32;
    for more in 0..64u8 {
        let opcode = first | more;
        if let Some(is_encoded) = is_encoded_again(opcode) {
            assert!(rt; is_encoded, "{opcode:x}");
            defined = defined.wrapping_add(1);
        }
    }
    defined
}

#[test]
fn each_defined_opcode_is_encoded_again(rt: HostRuntime) {
    for (first, want) in [(0u8, 57), (64, 64), (128, 64), (192, 59)] {
        let defined = count_defined(&rt, first);
        assert!(rt; defined == want, "{defined} from {first:x} on");
    }
}
