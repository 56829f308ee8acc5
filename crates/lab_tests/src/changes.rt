//! Bytes and registers that are set by hand, in any state of the run.
use crate::call::Call::{Apply, Registers, SetRegisters, Start, Write};
use crate::call::{Play, expect_right};
use i80_exec::registers::Interrupts::{Off, On};
use lab_shown::step::StepKind::In;
use lab_test_kit::ask::Ask::{Code, Info, Variables};
use lab_test_kit::script::Step::{Attach, Instruction, Lines, Pause, Press, Resume, Show, Slice};
use std::alloc::AllocError;
use std::rt::HostRuntime;

/// A loop without an end, and elsewhere a program that stores A.
const TWO: &str = "X: JMP X\nORG 100H\nSTA 200H\nHLT";

const BYTES: &[Play] = &[
    (
        "behind FFFFH bytes go on at 0000H, and of none nothing is written",
        &[
            Write(0xfffe, &[1, 2, 3, 4]),
            Write(0xfffe, &[]),
            Apply(Show(Variables(5, 0xfffe, 2))),
            Apply(Show(Variables(5, 0, 3))),
        ],
        "FFFE=001H FFFF=002H \n0000=003H 0001=004H 0002=000H \n",
    ),
    // 76H is HLT.
    (
        "bytes are written while a program runs",
        &[
            Start("X: NOP\nNOP\nJMP X"),
            Apply(Slice(4)),
            Write(2, &[0x76]),
            Registers,
            Apply(Slice(10)),
        ],
        "4 More\n0001 0000 0\n2 End(Halted)\n",
    ),
    // 3CH is INR A.
    (
        "bytes are written while a program is stopped",
        &[
            Start("X: NOP\nNOP\nJMP X"),
            Apply(Attach),
            Apply(Pause),
            Write(0, &[0x3c, 0x3c, 0x76]),
            Apply(Show(Info)),
            Apply(Resume),
            Apply(Slice(10)),
            Apply(Show(Variables(1, 0, 0))),
        ],
        "\
Accepted
Accepted
attached true stopped true
Accepted
3 End(Halted)
A=002H B=000H C=000H D=000H E=000H H=000H L=000H SP=00000H PC=00003H 
",
    ),
    (
        "a write is no step of a Step",
        &[
            Start("X: NOP\nNOP\nJMP X"),
            Apply(Attach),
            Apply(Pause),
            Apply(Instruction(In)),
            Write(0x100, &[9]),
            Apply(Slice(10)),
            Registers,
        ],
        "Accepted\nAccepted\nAccepted\n1 Stop(Step)\n0001 0000 0\n",
    ),
    (
        "a statement that is written over keeps its breakpoint",
        &[
            Start("NOP\nX: NOP\nJMP X"),
            Apply(Attach),
            Apply(Lines("p", &[2])),
            Write(1, &[0x3c]),
            Apply(Slice(10)),
            Apply(Show(Code(1, 1))),
        ],
        "Accepted\nline 2 true\n1 Stop(Breakpoint)\n0001 3C INR A\n",
    ),
];

const REGISTERS: &[Play] = &[
    (
        "registers are set while a program runs",
        &[
            Start(TWO),
            Apply(Slice(3)),
            SetRegisters(0x100, 0x1234, Off),
            Apply(Show(Variables(1, 0, 0))),
            Apply(Show(Variables(2, 0, 0))),
            Apply(Slice(10)),
            Apply(Show(Variables(5, 0x200, 1))),
        ],
        "\
3 More
A=001H B=002H C=003H D=004H E=005H H=006H L=007H SP=01234H PC=00100H 
S=1 Z=0 AC=0 P=0 CY=1 INTE=off 
2 End(Halted)
0200=001H 
",
    ),
    // HLT waits, since interrupts are on. The acceptance pushes the address behind it.
    (
        "registers are set while a program is stopped",
        &[
            Start(TWO),
            Apply(Attach),
            Apply(Pause),
            SetRegisters(0x100, 0x1234, On),
            Apply(Show(Info)),
            Apply(Resume),
            Apply(Slice(10)),
            Apply(Press(1)),
            Apply(Slice(1)),
            Registers,
            Apply(Show(Variables(5, 0x1232, 3))),
        ],
        "\
Accepted
Accepted
attached true stopped true
Accepted
2 Waiting
Accepted
1 More
0008 1232 1
1232=004H 1233=001H 1234=000H 
",
    ),
    (
        "registers that are set before a start stay, but for PC",
        &[
            SetRegisters(0x100, 0x1234, Off),
            Start("STA 200H\nHLT"),
            Registers,
            Apply(Slice(10)),
            Apply(Show(Variables(5, 0x200, 1))),
        ],
        "0000 1234 0\n2 End(Halted)\n0200=001H \n",
    ),
    (
        "a Step goes on where SP stays",
        &[
            Start("NOP\nNOP\nX: JMP X"),
            Apply(Attach),
            Apply(Pause),
            Apply(Instruction(In)),
            SetRegisters(1, 0, Off),
            Apply(Slice(10)),
            Registers,
        ],
        "Accepted\nAccepted\nAccepted\n1 Stop(Step)\n0002 0000 0\n",
    ),
    (
        "a Step is dropped where SP rises, and the next one is complete after a step",
        &[
            Start("NOP\nNOP\nX: JMP X"),
            Apply(Attach),
            Apply(Pause),
            Apply(Instruction(In)),
            SetRegisters(1, 1, Off),
            Apply(Slice(10)),
            Registers,
            Apply(Pause),
            Apply(Instruction(In)),
            Apply(Slice(10)),
        ],
        "\
Accepted
Accepted
Accepted
10 More
0002 0001 0
Accepted
Accepted
1 Stop(Step)
",
    ),
    // SP is put above the frame's slot, FFFEH; the next step ends the frame.
    (
        "frames stay until the next step",
        &[
            Start("CALL F\nHLT\nF: NOP\nRET"),
            Apply(Slice(1)),
            Registers,
            SetRegisters(4, 0xffff, Off),
            Registers,
            Apply(Slice(1)),
            Registers,
        ],
        "1 More\n0004 FFFE 1\n0004 FFFF 1\n1 More\n0005 FFFF 0\n",
    ),
    (
        "a breakpoint onto which PC is put",
        &[
            Start("NOP\nNOP\nHLT"),
            Apply(Attach),
            Apply(Lines("p", &[2])),
            SetRegisters(1, 0, Off),
            Apply(Slice(10)),
        ],
        "Accepted\nline 2 true\n0 Stop(Breakpoint)\n",
    ),
];

#[test]
fn bytes_are_written_by_hand(rt: HostRuntime) -> Result<(), AllocError> {
    expect_right(&rt, rt.alloc(), BYTES)
}

#[test]
fn registers_are_set_by_hand(rt: HostRuntime) -> Result<(), AllocError> {
    expect_right(&rt, rt.alloc(), REGISTERS)
}
