// An Intel 8080 with its 65,536 bytes of memory, and the ports of its devices.
// `Machine::step` executes one instruction, for each of the 256 opcodes and with any devices: the machine
// afterwards, the port operation and the result are what the opcode's definition says.
// `Machine::accept` executes RST n for an interrupt request if interrupts are on.
// Only `Machine::new` and `Machine::copy` allocate. Addresses, SP and PC wrap modulo 65,536.
#![tactic(auto)]

pub mod machine;
pub mod registers;

pub use i80_base::ports;
