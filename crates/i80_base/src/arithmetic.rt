//! The arithmetic and logic of the accumulator, with the flags that each operation sets
//! (8080 User's Manual, chapter 4, "Arithmetic Group" and "Logical Group").
ghost use Rattle.std.specs.Prelude.{◌≡◌};
ghost use Rattle.i80_base.specs.Arithmetic.{with_flags, sum, difference, increment, decrement};
ghost use Rattle.i80_base.specs.Arithmetic.{decimal_adjustment};
ghost use Rattle.i80_base.specs.Arithmetic.{conjunction, exclusive, inclusive, rotation_of, value_and_carry};

use crate::flags::Flags;
use crate::instruction::Rotation;

/// The result of an operation: a byte, and all five flags afterwards.
#[derive(Clone, Copy, PartialEq, Eq)]
pub struct AluResult {
    pub value: u8,
    pub flags: Flags,
}

#[inline]
fn with_result(value: u8, auxiliary_carry: bool, carry: bool) -> AluResult
    ensures { result ≡ with_flags value auxiliary_carry carry }
{
    AluResult {
        value,
        flags: Flags::of_result(value, auxiliary_carry, carry),
    }
}

/// The sum of two bytes and a carry: ADD, ADC, ADI, ACI.
#[inline]
pub fn alu_add(x: u8, y: u8, carry: bool) -> AluResult
    ensures { result ≡ sum x y carry }
{
    let total = x as u16 + y as u16 + carry as u16;
    let value = (total & 0xff) as u8;
    let auxiliary_carry = (x ^ y ^ value) & 0x10 != 0;
    with_result(value, auxiliary_carry, total & 0x100 != 0)
}

/// The difference of two bytes and a borrow: SUB, SBB, SUI, SBI, CMP, CPI. The complement of `y`
/// and of the borrow is added, so AC is the carry out of bit 3 of that sum and CY reports a borrow.
#[inline]
pub fn alu_sub(x: u8, y: u8, borrow: bool) -> AluResult
    ensures { result ≡ difference x y borrow }
{
    let sum = alu_add(x, !y, !borrow);
    AluResult {
        value: sum.value,
        flags: sum.flags.with_carry(!sum.flags.carry()),
    }
}

/// The bitwise AND: ANA, ANI. CY is cleared, AC is the OR of bit 3 of the operands.
#[inline]
pub fn alu_and(x: u8, y: u8) -> AluResult
    ensures { result ≡ conjunction x y }
{
    with_result(x & y, (x | y) & 8 != 0, false)
}

/// The bitwise exclusive OR: XRA, XRI. CY and AC are cleared.
#[inline]
pub fn alu_xor(x: u8, y: u8) -> AluResult
    ensures { result ≡ exclusive x y }
{
    with_result(x ^ y, false, false)
}

/// The bitwise OR: ORA, ORI. CY and AC are cleared.
#[inline]
pub fn alu_or(x: u8, y: u8) -> AluResult
    ensures { result ≡ inclusive x y }
{
    with_result(x | y, false, false)
}

/// The byte plus 1, modulo 256: INR. CY is left as it was.
#[inline]
pub fn inr(x: u8, carry: bool) -> AluResult
    ensures { result ≡ increment x carry }
{
    let value = x.wrapping_add(1);
    with_result(value, value & 0x0f == 0, carry)
}

/// The byte minus 1, modulo 256: DCR. CY is left as it was.
#[inline]
pub fn dcr(x: u8, carry: bool) -> AluResult
    ensures { result ≡ decrement x carry }
{
    let value = x.wrapping_sub(1);
    with_result(value, value & 0x0f != 0x0f, carry)
}

/// A adjusted to two decimal digits after a sum of two such bytes: DAA.
#[inline]
pub fn daa(a: u8, flags: Flags) -> AluResult
    ensures { result ≡ decimal_adjustment a flags }
{
    let low = 6 * ((a & 0x0f > 9) | flags.auxiliary_carry()) as u8;
    let carry = flags.carry() | (a > 0x99);
    let high = 0x60 * carry as u8;
    let value = a.wrapping_add(low + high);
    with_result(value, (a ^ value) & 0x10 != 0, carry)
}

/// A rotated by one bit. Of the flags, only CY changes.
#[inline]
pub fn rotate(rotation: Rotation, a: u8, flags: Flags) -> AluResult
    ensures { result ≡ rotation_of rotation a flags }
{
    match rotation {
        Rotation::Rlc => with_turned(a << 1 | a >> 7, a & 0x80 != 0, flags),
        Rotation::Rrc => with_turned(a >> 1 | a << 7, a & 1 != 0, flags),
        Rotation::Ral => with_turned(a << 1 | flags.carry() as u8, a & 0x80 != 0, flags),
        Rotation::Rar => with_turned(a >> 1 | (flags.carry() as u8) << 7, a & 1 != 0, flags),
    }
}

#[inline]
fn with_turned(value: u8, carry: bool, flags: Flags) -> AluResult
    ensures { result ≡ value_and_carry value carry flags }
{
    AluResult {
        value,
        flags: flags.with_carry(carry),
    }
}
