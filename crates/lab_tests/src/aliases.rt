//! Boards on which the undefined opcodes act, and boards on which they don't.
use crate::told::expect_plays;
use i80_base::board::Board::{Aliases, Strict};
use lab_shown::step::StepKind::{Out, Over};
use lab_test_kit::ask::Ask::{Code, Frames, Source};
use lab_test_kit::script::Play;
use lab_test_kit::script::Step::{
    Attach, Debug, Frame, Instruction, Interrupt, Line, Lines, Load, Pause, Registers, Reset,
    Resume, SetBoard, Show, Slice, Start,
};
use std::rt::HostRuntime;

/// A jump by CB to a call by DD, whose routine returns by D9.
const COPIES: &str = "MAIN: DB 0CBH\nDW X\nX: DB 0DDH\nDW F1\nHLT\nF1: DB 0D9H\nEND MAIN";

/// Two instructions at which nothing is undefined on any board.
const DEFINED: &str = "X: NOP\nJMP X\nEND X";

// What each play is about, its steps, and the lines that they show.
const PLAYS: &[Play] = &[
    (
        "a board is strict until it is told, and after it is told again",
        &[
            Load("p", COPIES),
            Start(0),
            Slice(10),
            SetBoard(Aliases),
            Start(0),
            Slice(10),
            SetBoard(Strict),
            Start(3),
            Slice(10),
        ],
        "\
Loaded { start: Some(0) }
Started
0 End(Undefined { opcode: 203, pc: 0 })
BoardSet
Started
4 End(Halted)
BoardSet
Started
0 End(Undefined { opcode: 221, pc: 3 })
",
    ),
    (
        "a call and a return by copies make a frame and end it",
        &[
            SetBoard(Aliases),
            Debug(COPIES, &[6]),
            Frame,
            Show(Frames(0, 0)),
            Line(Out),
            Slice(10),
            Registers,
        ],
        "\
BoardSet
2 Stop(Breakpoint)
FFFE 0007 0003
1 F1 6 p 0007
2 main 3 p 0003
of 2
Accepted
1 Stop(Step)
0006 0000 Off 0
",
    ),
    (
        "a step over a call by a copy",
        &[
            SetBoard(Aliases),
            Debug(COPIES, &[3]),
            Instruction(Over),
            Slice(10),
            Registers,
        ],
        "BoardSet\n1 Stop(Breakpoint)\nAccepted\n2 Stop(Step)\n0006 0000 Off 0\n",
    ),
    (
        "the option isn't changed while there is a run",
        &[
            Load("p", DEFINED),
            Attach,
            Start(0),
            SetBoard(Aliases),
            Slice(3),
            SetBoard(Strict),
            Pause,
            SetBoard(Aliases),
            Resume,
            SetBoard(Aliases),
            Interrupt,
            SetBoard(Aliases),
        ],
        "\
Loaded { start: Some(0) }
Accepted
Started
refused: a program runs
3 More
refused: a program runs
Accepted
refused: a program runs
Accepted
refused: a program runs
Interrupted
BoardSet
",
    ),
    (
        "a Reset keeps the option",
        &[
            SetBoard(Aliases),
            Reset,
            Load("p", COPIES),
            Start(0),
            Slice(10),
        ],
        "BoardSet\nReset\nLoaded { start: Some(0) }\nStarted\n4 End(Halted)\n",
    ),
    (
        "a Reset keeps a strict board strict, and ends a run first",
        &[
            Load("p", DEFINED),
            Start(0),
            Reset,
            SetBoard(Aliases),
            SetBoard(Strict),
            Reset,
            Load("q", COPIES),
            Start(0),
            Slice(1),
        ],
        "\
Loaded { start: Some(0) }
Started
Reset
BoardSet
BoardSet
Reset
Loaded { start: Some(0) }
Started
0 End(Undefined { opcode: 203, pc: 0 })
",
    ),
    // A listing that read the copies would not assemble back to its bytes.
    (
        "code is shown by Intel's table on either board",
        &[
            Load("p", COPIES),
            Show(Code(0, 3)),
            SetBoard(Aliases),
            Show(Code(0, 3)),
        ],
        "\
Loaded { start: Some(0) }
0000 CB DB 0CBH
0001 03 INX B
0002 00 NOP
BoardSet
0000 CB DB 0CBH
0001 03 INX B
0002 00 NOP
",
    ),
    (
        "a breakpoint on a copy is met",
        &[
            SetBoard(Aliases),
            Debug(COPIES, &[2, 1]),
            Instruction(Over),
            Slice(10),
            Registers,
            Show(Source("p")),
        ],
        "\
BoardSet
0 Stop(Breakpoint)
Accepted
1 Stop(Step)
0003 0000 Off 0
MAIN: DB 0CBH
DW X
X: DB 0DDH
DW F1
HLT
F1: DB 0D9H
END MAIN
",
    ),
];

#[test]
fn undefined_opcodes_act_where_they_are_to(rt: HostRuntime) {
    expect_plays(&rt, PLAYS);
}
