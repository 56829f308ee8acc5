//! The registers of the processor, and what a step reports.
use i80_base::flags::Flags;

/// Whether interrupt requests are accepted. EI sets `Arming`, so that the instruction after it is
/// executed before a request is accepted.
#[derive(Clone, Copy, PartialEq, Eq)]
pub enum Interrupts {
    Off,
    On,
    Arming,
}

/// The registers, the flags and the interrupt state.
#[derive(Clone, Copy, PartialEq, Eq)]
pub struct Registers {
    pub a: u8,
    pub b: u8,
    pub c: u8,
    pub d: u8,
    pub e: u8,
    pub h: u8,
    pub l: u8,
    pub flags: Flags,
    pub sp: u16,
    pub pc: u16,
    pub interrupts: Interrupts,
}

/// What a step did. A slot is the address of a return address on the stack.
#[derive(Clone, Copy, PartialEq, Eq)]
pub enum Stepped {
    /// None of the following.
    Done,
    /// CALL, a taken conditional call, RST or an accepted request: SP after its push is the slot.
    Called { slot: u16, target: u16 },
    /// RET or a taken conditional return: SP before its pop is the slot.
    Returned { slot: u16 },
    /// HLT.
    Halted,
    /// One of the twelve undefined opcodes stands at PC; nothing was done.
    Undefined { opcode: u8 },
}

/// What a step did, in one byte. The slot, target and opcode of `Stepped` are read off the machine; in return
/// a loop of steps learns whether SP may have changed, and needn't look at it after a quiet step.
#[derive(Clone, Copy, PartialEq, Eq)]
pub enum Kind {
    /// Done, with SP unchanged.
    Quiet,
    /// Done; SP may have changed.
    Moved,
    /// EI.
    Armed,
    Called,
    Returned,
    Halted,
    Undefined,
}
