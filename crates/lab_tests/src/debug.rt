//! What a debugger is answered: stops, Steps, breakpoints and views.

use crate::told::expect_plays;
use lab_shown::step::StepKind::{In, Out, Over};
use lab_test_kit::ask::Ask::{Code, Frames, Info, Scopes, Source, Variables};
use lab_test_kit::script::Play;
use lab_test_kit::script::Step::{
    Attach, Debug, Detach, Dump, Instruction, Interrupt, Line, Lines, Load, Pause, Press,
    Registers, Reset, Resume, Show, Slice, Start,
};
use std::rt::HostRuntime;

/// A call, whose routine returns at once.
pub const CALL: &str = "MAIN: CALL F1\nHLT\nF1: RET\nEND MAIN";

/// A routine that calls itself once.
pub const RECURSION: &str = "MAIN: MVI B,2\nCALL REC\nHLT\nREC: DCR B\nCNZ REC\nRET\nEND MAIN";

// Each play says what it is about, its steps, and the lines that they show.

// Steps.
const STEPS: [Play; 7] = [
    (
        "a breakpoint in a routine and a step out",
        &[
            Debug(CALL, &[3]),
            Show(Frames(0, 0)),
            Line(Out),
            Slice(10),
            Show(Frames(0, 0)),
        ],
        "\
1 Stop(Breakpoint)
1 F1 3 p 0004
2 main 1 p 0000
of 2
Accepted
1 Stop(Step)
1 main 2 p 0003
of 1
",
    ),
    (
        "a step over a call",
        &[Debug(CALL, &[1]), Line(Over), Slice(10), Registers],
        "0 Stop(Breakpoint)\nAccepted\n2 Stop(Step)\n0003 0000 Off 0\n",
    ),
    // The second byte of line 2 begins no statement.
    (
        "a step in by instruction and by line",
        &[
            Debug("MAIN: LXI H,1\nDB 0,0\nHLT\nEND MAIN", &[1]),
            Line(In),
            Slice(10),
            Instruction(In),
            Slice(10),
            Registers,
            Line(In),
            Slice(10),
            Registers,
        ],
        "\
0 Stop(Breakpoint)
Accepted
1 Stop(Step)
Accepted
1 Stop(Step)
0004 0000 Off 0
Accepted
1 Stop(Step)
0005 0000 Off 0
",
    ),
    // The routine's inner call is on the line where the Step begins, and isn't stopped in.
    (
        "a step over a recursive call",
        &[
            Debug(RECURSION, &[5]),
            Lines("p", &[]),
            Line(Over),
            Slice(10),
            Show(Frames(0, 1)),
        ],
        "3 Stop(Breakpoint)\nAccepted\n4 Stop(Step)\n1 REC 6 p 000A\nof 2\n",
    ),
    // What drops a Step: a Detach, a Pause, the run's end.
    (
        "a step is dropped",
        &[
            Debug(CALL, &[1]),
            Line(Out),
            Slice(1),
            Detach,
            Attach,
            Pause,
            Line(In),
            Pause,
            Resume,
            Slice(10),
        ],
        "\
0 Stop(Breakpoint)
Accepted
1 More
Accepted
Accepted
Accepted
Accepted
Accepted
Accepted
2 End(Halted)
",
    ),
    (
        "a step out with no frame never ends",
        &[Debug(CALL, &[1]), Instruction(Out), Slice(10)],
        "0 Stop(Breakpoint)\nAccepted\n3 End(Halted)\n",
    ),
    // An accepted request is a call for a Step over and for the frames.
    (
        "a step over an accepted request",
        &[
            Debug("MAIN: EI\nNOP\nNOP\nHLT\nORG 8\nRET\nEND MAIN", &[3]),
            Lines("p", &[]),
            Press(1),
            Line(Over),
            Slice(1),
            Slice(10),
            Registers,
        ],
        "2 Stop(Breakpoint)\nAccepted\nAccepted\n1 More\n1 Stop(Step)\n0002 0000 Off 0\n",
    ),
];

#[test]
fn steps_stop_where_they_must(rt: HostRuntime) {
    expect_plays(&rt, &STEPS);
}

// Breakpoints, and which reason comes first.
const STOPS: [Play; 7] = [
    (
        "a breakpoint in a recursion",
        &[
            Debug(RECURSION, &[5]),
            Show(Variables(1, 0, 0)),
            Resume,
            Slice(10),
            Show(Frames(0, 0)),
            Line(Out),
            Slice(10),
            Show(Frames(0, 1)),
        ],
        "\
3 Stop(Breakpoint)
A=000H B=001H C=000H D=000H E=000H H=000H L=000H SP=0FFFEH PC=00007H 
Accepted
2 Stop(Breakpoint)
1 REC 5 p 0007
2 REC 5 p 0007
3 main 2 p 0002
of 3
Accepted
2 Stop(Step)
1 REC 6 p 000A
of 2
",
    ),
    // A load changes where a line begins: the bits follow it.
    (
        "breakpoints follow the loads",
        &[
            Load("p", CALL),
            Attach,
            Lines("p", &[1]),
            Load("q", RECURSION),
            Start(0),
            Slice(2),
            Interrupt,
            Load("p", CALL),
            Start(0),
            Slice(2),
            Load("q", RECURSION),
        ],
        "\
Loaded { start: Some(0) }
Accepted
line 1 true
Loaded { start: Some(0) }
Started
2 More
Interrupted
Loaded { start: Some(0) }
Started
0 Stop(Breakpoint)
refused: a program runs
",
    ),
    (
        "a stop after the last step is told by that slice",
        &[
            Load("p", CALL),
            Attach,
            Lines("p", &[3]),
            Start(0),
            Slice(1),
            Instruction(In),
            Slice(1),
            Registers,
        ],
        "\
Loaded { start: Some(0) }
Accepted
line 3 true
Started
1 Stop(Breakpoint)
Accepted
1 Stop(Step)
0003 0000 Off 0
",
    ),
    // A Detach lets the run go on, which is no Resume: the breakpoint is met again where it stood.
    (
        "a detach is no resume",
        &[
            Debug(CALL, &[3]),
            Detach,
            Show(Info),
            Attach,
            Lines("p", &[3]),
            Slice(10),
            Detach,
            Slice(10),
        ],
        "\
1 Stop(Breakpoint)
Accepted
attached false stopped false
Accepted
line 3 true
0 Stop(Breakpoint)
Accepted
2 End(Halted)
",
    ),
    // Halted comes before a breakpoint, a breakpoint before a Step, and both before the wait.
    (
        "reasons come by rank",
        &[
            Debug("MAIN: HLT\nEI\nHLT\nNOP\nEND MAIN", &[2, 4]),
            Start(1),
            Slice(10),
            Instruction(In),
            Slice(10),
            Instruction(In),
            Slice(10),
            Resume,
            Slice(10),
        ],
        "\
1 End(Halted)
Started
0 Stop(Breakpoint)
Accepted
1 Stop(Step)
Accepted
1 Stop(Breakpoint)
Accepted
0 Waiting
",
    ),
    (
        "no debugger meets no breakpoint",
        &[Load("p", CALL), Lines("p", &[1, 2, 3]), Start(0), Slice(10)],
        "\
Loaded { start: Some(0) }
line 1 true
line 2 true
line 3 true
Started
3 End(Halted)
",
    ),
    // Code that writes over itself keeps its origin, and its breakpoint is met.
    (
        "an overwritten statement keeps its breakpoint",
        &[
            Debug("MAIN: MVI A,76H\nSTA X\nX: NOP\nEND MAIN", &[3]),
            Show(Code(5, 1)),
            Resume,
            Slice(10),
        ],
        "2 Stop(Breakpoint)\n0005 76 HLT\nAccepted\n1 End(Halted)\n",
    ),
];

#[test]
fn breakpoints_are_met(rt: HostRuntime) {
    expect_plays(&rt, &STOPS);
}

// Runs, lists and views.
const RUNS: [Play; 3] = [
    (
        "a run is paused and resumed",
        &[
            Load("p", "X: JMP X\nEND X"),
            Pause,
            Attach,
            Pause,
            Resume,
            Line(In),
            Show(Frames(0, 0)),
            Show(Scopes(1)),
            Start(0),
            Resume,
            Slice(7),
            Pause,
            Pause,
            Slice(1),
            Start(0),
            Show(Scopes(0)),
            Show(Scopes(1)),
            Show(Scopes(2)),
            Show(Frames(0, 0)),
            Resume,
            Slice(7),
            Interrupt,
        ],
        "\
Loaded { start: Some(0) }
refused: no debugger is attached
Accepted
refused: no program runs
refused: no program is stopped
refused: no program is stopped
refused: no program is stopped
refused: no program is stopped
Started
refused: no program is stopped
7 More
Accepted
refused: no program runs
refused: no program runs
refused: a program runs
refused: there is no such frame
scopes
refused: there is no such frame
1 main 1 p 0000
of 1
Accepted
7 More
Interrupted
",
    ),
    (
        "lists keep their order",
        &[
            Lines("x", &[1]),
            Dump("a", "NOP\nNOP\n"),
            Dump("b", "FOO"),
            Dump("b", "BAR"),
            Lines("a", &[0, 3, 4, 3]),
            Lines("b", &[1]),
            Show(Info),
            Lines("a", &[2]),
            Show(Info),
            Lines("a", &[]),
            Lines("a", &[4_294_967_295]),
            Reset,
            Show(Info),
            Show(Source("b")),
            Show(Source("c")),
        ],
        "\
refused: no text has this path
Dumped
Dumped
refused: the path has another text
line 0 false
line 3 true
line 4 false
line 3 true
line 1 true
attached false stopped false
a [0, 3, 4, 3]
b [1]
line 2 true
attached false stopped false
a [2]
b [1]
line 4294967295 false
Reset
attached false stopped false
b [1]
a [4294967295]
FOO
refused: no text has this path
",
    ),
    (
        "views at their ends",
        &[
            Load("p", "ORG 0FFFFH\nDB 0C3H\nEND 0"),
            Attach,
            Show(Variables(5, 0xffff, 5)),
            Show(Variables(5, 65_536, 0)),
            Show(Variables(6, 0, 0)),
            Show(Variables(0, 0, 0)),
            Show(Code(0xffff, 2)),
        ],
        "\
Loaded { start: Some(0) }
Accepted
FFFF=0C3H 

refused: no scope for this has the reference
refused: no scope for this has the reference
FFFF C3 00 00 JMP 00000H
0002 00 NOP
",
    ),
];

#[test]
fn runs_lists_and_views_are_answered(rt: HostRuntime) {
    expect_plays(&rt, &RUNS);
}
