//! Runs that are put back to a moment, and runs that are held.
use crate::call::Call::{Apply, Hold, Moment, PutBack, Registers, SliceTo, Start, Watch};
use crate::call::{Play, expect_right};
use lab_shown::place::Place::Memory;
use lab_shown::step::StepKind::{In, Out, Over};
use lab_test_kit::ask::Ask::{Frames, Info, Source, Variables};
use lab_test_kit::script::Step::{
    Attach, Instruction, Line, Lines, Pause, Press, Resume, Show, Slice, Typed,
};
use std::alloc::AllocError;
use std::rt::HostRuntime;

/// A routine that stores a byte from the console and shows it on the lamps.
const READER: &str = "LXI SP,4000H\nCALL F\nHLT\nF: IN 1\nSTA 200H\nOUT 2\nRET";

/// A call, whose routine does nothing.
const CALL: &str = "CALL F\nHLT\nF: NOP\nRET";

/// Instructions one after the other.
const LINE: &str = "X: NOP\nNOP\nJMP X";

const MOMENTS: &[Play] = &[
    (
        "registers, memory, console and frames are those of the moment, and the run goes on alike",
        &[
            Start(READER),
            Apply(Typed("AB")),
            Apply(Slice(2)),
            Moment,
            Apply(Slice(10)),
            Registers,
            Apply(Show(Variables(3, 0, 0))),
            Apply(Show(Variables(5, 0x200, 1))),
            PutBack,
            Registers,
            Apply(Show(Variables(3, 0, 0))),
            Apply(Show(Variables(5, 0x200, 1))),
            Apply(Slice(10)),
            Registers,
            Apply(Show(Variables(3, 0, 0))),
            Apply(Show(Variables(5, 0x200, 1))),
        ],
        "\
Accepted
2 More
5 End(Halted) In { port: 1, byte: 65 } Out { port: 2, byte: 65 }
0007 4000 0
switches=000H lamps=041H latched=none waiting=1 
0200=041H 
0007 3FFE 1
switches=000H lamps=000H latched=none waiting=2 
0200=000H 
5 End(Halted) In { port: 1, byte: 65 } Out { port: 2, byte: 65 }
0007 4000 0
switches=000H lamps=041H latched=none waiting=1 
0200=041H 
",
    ),
    (
        "frames within frames",
        &[
            Start("CALL F\nHLT\nF: CALL G\nRET\nG: RET"),
            Apply(Slice(2)),
            Moment,
            Apply(Slice(2)),
            Registers,
            PutBack,
            Registers,
            Hold,
            Apply(Line(Out)),
            Apply(Slice(10)),
            Registers,
        ],
        "\
2 More
2 More
0003 0000 0
0008 FFFC 2
Accepted
1 Stop(Step)
0007 FFFE 1
",
    ),
    (
        "a moment before HLT, more than once",
        &[
            Start("MVI A,1\nHLT"),
            Apply(Slice(1)),
            Moment,
            Apply(Slice(10)),
            PutBack,
            Apply(Slice(10)),
            PutBack,
            Apply(Slice(10)),
        ],
        "1 More\n1 End(Halted)\n1 End(Halted)\n1 End(Halted)\n",
    ),
    (
        "a moment behind HLT",
        &[
            Start("MVI A,1\nHLT"),
            Apply(Slice(10)),
            Moment,
            PutBack,
            Apply(Slice(10)),
        ],
        "2 End(Halted)\n0 End(Halted)\n",
    ),
    (
        "a moment of a wait for a request",
        &[
            Start("EI\nHLT"),
            Apply(Slice(10)),
            Moment,
            Apply(Press(7)),
            Apply(Slice(1)),
            Registers,
            PutBack,
            Registers,
            Apply(Slice(10)),
            Apply(Press(7)),
            Apply(Slice(1)),
            Registers,
        ],
        "\
2 Waiting
Accepted
1 More
0038 FFFE 1
0002 0000 0
0 Waiting
Accepted
1 More
0038 FFFE 1
",
    ),
    (
        "a moment with a latched request",
        &[
            Start("EI\nX: JMP X"),
            Apply(Press(7)),
            Apply(Slice(2)),
            Moment,
            Apply(Slice(1)),
            PutBack,
            Registers,
            Apply(Press(0)),
            Apply(Slice(1)),
            Registers,
        ],
        "\
Accepted
2 More
1 More
0001 0000 0
refused: a request is latched already
1 More
0038 FFFE 1
",
    ),
    // Five steps lead from Y to X. A breakpoint where the run was put isn't met before a step.
    (
        "the breakpoints of now stay, and no debugger is attached",
        &[
            Start("X: NOP\nY: NOP\nJMP X"),
            Apply(Attach),
            Apply(Lines("p", &[2])),
            Apply(Slice(10)),
            Moment,
            PutBack,
            Apply(Attach),
            Apply(Slice(10)),
            Apply(Lines("p", &[1])),
            PutBack,
            Apply(Show(Info)),
            Apply(Slice(5)),
            Apply(Attach),
            Apply(Slice(10)),
        ],
        "\
Accepted
line 2 true
1 Stop(Breakpoint)
Accepted
3 Stop(Breakpoint)
line 1 true
attached false stopped false
p [1]
5 More
Accepted
0 Stop(Breakpoint)
",
    ),
    // Where nothing was loaded NOP stands.
    (
        "texts that were loaded since stay, and their bytes don't",
        &[
            Moment,
            Start("HLT"),
            Apply(Slice(10)),
            PutBack,
            Apply(Show(Source("p"))),
            Apply(Show(Variables(5, 0, 1))),
            Apply(Slice(3)),
            Registers,
        ],
        "1 End(Halted)\nHLT\n0000=000H \n3 More\n0003 0000 0\n",
    ),
    (
        "a slice to a mark, from a moment on",
        &[
            Start(READER),
            Apply(Typed("A")),
            Moment,
            Watch(Memory(0x200)),
            SliceTo(20),
            PutBack,
            SliceTo(20),
        ],
        "\
Accepted
4 More In { port: 1, byte: 65 }
met from 0009 0>41
4 More In { port: 1, byte: 65 }
met from 0009 0>41
",
    ),
];

const HOLDS: &[Play] = &[
    (
        "a run is held inside a routine",
        &[
            Start(READER),
            Apply(Slice(2)),
            Hold,
            Apply(Show(Info)),
            Apply(Show(Frames(0, 0))),
            Apply(Slice(1)),
            Apply(Line(Out)),
            Apply(Slice(10)),
            Registers,
        ],
        "\
2 More
attached true stopped true
1 F 4 p 0007
2 main 2 p 0003
of 2
refused: no program runs
Accepted
4 Stop(Step) In { port: 1, byte: 0 } Out { port: 2, byte: 0 }
0006 4000 0
",
    ),
    (
        "a run that is put back and held is stepped on from there",
        &[
            Start(READER),
            Apply(Typed("AB")),
            Apply(Slice(2)),
            Moment,
            Apply(Slice(3)),
            PutBack,
            Hold,
            Apply(Show(Frames(0, 0))),
            Apply(Line(Over)),
            Apply(Slice(10)),
            Apply(Show(Variables(1, 0, 0))),
        ],
        "\
Accepted
2 More
3 More In { port: 1, byte: 65 } Out { port: 2, byte: 65 }
1 F 4 p 0007
2 main 2 p 0003
of 2
Accepted
1 Stop(Step) In { port: 1, byte: 65 }
A=041H B=000H C=000H D=000H E=000H H=000H L=000H SP=03FFEH PC=00009H 
",
    ),
    (
        "a Step is dropped where a run is held",
        &[
            Start(LINE),
            Apply(Attach),
            Apply(Pause),
            Apply(Instruction(In)),
            Hold,
            Apply(Resume),
            Apply(Slice(10)),
        ],
        "Accepted\nAccepted\nAccepted\nAccepted\n10 More\n",
    ),
    (
        "a Step is dropped where a run is put back",
        &[
            Start(CALL),
            Apply(Attach),
            Apply(Pause),
            Apply(Line(Over)),
            Moment,
            PutBack,
            Apply(Slice(10)),
        ],
        "Accepted\nAccepted\nAccepted\n4 End(Halted)\n",
    ),
    (
        "a run that has ended is held, and ends again",
        &[
            Start("HLT"),
            Apply(Slice(10)),
            Hold,
            Apply(Show(Info)),
            Apply(Resume),
            Apply(Slice(10)),
        ],
        "1 End(Halted)\nattached true stopped true\nAccepted\n0 End(Halted)\n",
    ),
];

#[test]
fn runs_are_put_back_to_moments(rt: HostRuntime) -> Result<(), AllocError> {
    expect_right(&rt, rt.alloc(), MOMENTS)
}

#[test]
fn runs_are_held(rt: HostRuntime) -> Result<(), AllocError> {
    expect_right(&rt, rt.alloc(), HOLDS)
}
