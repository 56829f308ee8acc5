// The machine code of single operations: the number of its bytes (`length`), the values of its operands
// (`operand`), its bytes and the start that END gives (`bytes`). The values of names come from an `Env`, that
// of `$` is an argument. The fault is the first operand from the left whose value is missing or out of range,
// at its column. Nothing here knows of cells: lines, symbols and addresses are asm_build's.
#![tactic(auto)]

pub mod bytes;
pub mod length;
pub mod operand;
