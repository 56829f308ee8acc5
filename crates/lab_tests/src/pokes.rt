//! Changes of a stopped run's machine by hand: which places and values there are, and what a change leaves.
use crate::debug::{CALL, RECURSION};
use crate::told::expect_plays;
use lab_shown::step::StepKind::{In, Out, Over};
use lab_test_kit::ask::Ask::{Frames, Variables};
use lab_test_kit::script::Step::{
    Attach, Byte, Debug, Frame, Instruction, Interrupt, Line, Lines, Load, Pause, Poke, Pokes,
    Press, Registers, Resume, Show, Slice, Start,
};
use lab_test_kit::script::{Changes, Play};
use std::rt::HostRuntime;

/// A loop without an end.
const LOOP: &str = "X: JMP X\nEND X";

/// A call within a call, on a stack that doesn't wrap.
const NESTED: &str = "MAIN: LXI SP,2000H\nCALL F1\nHLT\nF1: CALL F2\nRET\nF2: RET\nEND MAIN";

/// Instructions one after the other.
const LINE: &str = "X: NOP\nNOP\nY: NOP\nJMP X\nEND X";

const NO_SCOPE: &str = "refused: no scope for this has the reference\n";

/// References without a place to change.
const NO_SCOPES: [Changes; 4] = [
    (0, &["A"], &["1"]),
    (4, &["X"], &["1"]),
    (6, &["A"], &["1"]),
    (4_294_967_295, &["?"], &["?"]),
];

const NO_PLACE: &str = "refused: there is no such register or address\n";

/// Names that no place has.
const NO_PLACES: [Changes; 5] = [
    (1, &["a", "M"], &["?"]),
    (1, &["PSW", "", "0000"], &["1"]),
    (5, &["A", "10000"], &["1"]),
    (5, &["00G0"], &["?"]),
    (5, &["000"], &["1"]),
];

const NO_NUMBER: &str = "refused: the value is no number that fits there\n";

/// Texts that are no value.
const NO_NUMBERS: [Changes; 3] = [
    (
        1,
        &["A"],
        &[
            "", "-1", "256", "0FFFFFH", "AH", "1 ", " 1", "'A'", "H", "12B", "8Q", "1+1",
        ],
    ),
    (1, &["SP"], &["65536"]),
    (5, &["0000"], &["256"]),
];

// Each play says what it is about, its steps, and the lines that they show.

// Places, values and refusals.
const PLACES: [Play; 5] = [
    (
        "a register and a byte of a stopped run",
        &[
            Load("p", LOOP),
            Attach,
            Start(0),
            Slice(3),
            Poke(1, "A", "1"),
            Pause,
            Poke(1, "A", "5AH"),
            Show(Variables(1, 0, 0)),
            Poke(1, "A", "100H"),
            Poke(1, "F", "1"),
            Poke(2, "Z", "1"),
            Poke(5, "0000", "76H"),
            Resume,
            Slice(10),
        ],
        "\
Loaded { start: Some(0) }
Accepted
Started
3 More
refused: no program is stopped
Accepted
Poked 05AH
A=05AH B=000H C=000H D=000H E=000H H=000H L=000H SP=00000H PC=00000H 
refused: the value is no number that fits there
refused: there is no such register or address
refused: no scope for this has the reference
Poked 076H
Accepted
1 End(Halted)
",
    ),
    (
        "every register, in every base, and no flag",
        &[
            Debug(LOOP, &[1]),
            Poke(1, "A", "255"),
            Poke(1, "B", "0FFH"),
            Poke(1, "C", "377Q"),
            Poke(1, "D", "11111111B"),
            Poke(1, "E", "17O"),
            Poke(1, "H", "9d"),
            Poke(1, "L", "0aBh"),
            Poke(1, "SP", "65535"),
            Poke(1, "PC", "0FFFFH"),
            Show(Variables(1, 0, 0)),
            Show(Variables(2, 0, 0)),
        ],
        "\
0 Stop(Breakpoint)
Poked 0FFH
Poked 0FFH
Poked 0FFH
Poked 0FFH
Poked 00FH
Poked 009H
Poked 0ABH
Poked 0FFFFH
Poked 0FFFFH
A=0FFH B=0FFH C=0FFH D=0FFH E=00FH H=009H L=0ABH SP=0FFFFH PC=0FFFFH 
S=0 Z=0 AC=0 P=0 CY=0 INTE=off 
",
    ),
    (
        "bytes by their addresses, in either case, and their origins",
        &[
            Debug(LOOP, &[1]),
            Poke(5, "0001", "12"),
            Poke(5, "fffF", "0FEH"),
            Byte(1),
            Byte(0xffff),
            Show(Variables(5, 0, 4)),
        ],
        "\
0 Stop(Breakpoint)
Poked 00CH
Poked 0FEH
0C 0 1 false
FE
0000=0C3H 0001=00CH 0002=000H 0003=000H 
",
    ),
    (
        "refusals in their order, which change nothing",
        &[
            Poke(9, "?", "?"),
            Load("p", LOOP),
            Poke(9, "?", "?"),
            Attach,
            Start(0),
            Poke(1, "A", "1"),
            Pause,
            Pokes(&NO_SCOPES, NO_SCOPE),
            Pokes(&NO_PLACES, NO_PLACE),
            Show(Variables(1, 0, 0)),
            Show(Variables(5, 0, 1)),
        ],
        "\
refused: no program is stopped
Loaded { start: Some(0) }
refused: no program is stopped
Accepted
Started
refused: no program is stopped
Accepted
A=000H B=000H C=000H D=000H E=000H H=000H L=000H SP=00000H PC=00000H 
0000=0C3H 
",
    ),
    (
        "texts that are no value",
        &[
            Debug(LOOP, &[1]),
            Pokes(&NO_NUMBERS, NO_NUMBER),
            Show(Variables(1, 0, 0)),
        ],
        "\
0 Stop(Breakpoint)
A=000H B=000H C=000H D=000H E=000H H=000H L=000H SP=00000H PC=00000H 
",
    ),
];

#[test]
fn places_are_changed(rt: HostRuntime) {
    expect_plays(&rt, &PLACES);
}

// What returns, Steps and waits make of a change.
const RETURNS: [Play; 6] = [
    // The return pops a zero, far below the frame, which stays; the call makes another one.
    (
        "SP below a live slot",
        &[
            Debug(CALL, &[3]),
            Poke(1, "SP", "0FFF0H"),
            Show(Frames(0, 0)),
            Line(Out),
            Slice(10),
            Registers,
        ],
        "\
1 Stop(Breakpoint)
Poked 0FFF0H
1 F1 3 p 0004
2 main 1 p 0000
of 2
Accepted
2 Stop(Breakpoint)
0004 FFF0 Off 2
",
    ),
    (
        "a return from an older frame's slot, which ends the newer one too",
        &[
            Debug(NESTED, &[6]),
            Registers,
            Poke(1, "SP", "1FFEH"),
            Registers,
            Instruction(Over),
            Slice(10),
            Registers,
        ],
        "\
3 Stop(Breakpoint)
000B 1FFC Off 2
Poked 01FFEH
000B 1FFE Off 2
Accepted
1 Stop(Step)
0006 2000 Off 0
",
    ),
    // SP wraps to 0, which is above no slot.
    (
        "a return that wraps, which ends its own frame alone",
        &[
            Debug(RECURSION, &[6]),
            Registers,
            Poke(1, "SP", "0FFFEH"),
            Instruction(Over),
            Slice(10),
            Registers,
            Frame,
        ],
        "\
6 Stop(Breakpoint)
000A FFFC Off 2
Poked 0FFFEH
Accepted
1 Stop(Step)
0005 0000 Off 1
FFFC 0006 0007
",
    ),
    (
        "a breakpoint onto which PC was put isn't met before a step",
        &[
            Load("p", LINE),
            Attach,
            Lines("p", &[3]),
            Start(0),
            Slice(1),
            Pause,
            Poke(1, "PC", "2"),
            Resume,
            Slice(1),
            Slice(10),
            Registers,
        ],
        "\
Loaded { start: Some(0) }
Accepted
line 3 true
Started
1 More
Accepted
Poked 00002H
Accepted
1 More
3 Stop(Breakpoint)
0002 0000 Off 0
",
    ),
    (
        "a change is no step of a Step",
        &[
            Debug(LINE, &[1]),
            Poke(1, "PC", "1"),
            Poke(1, "B", "7"),
            Line(In),
            Slice(10),
            Registers,
        ],
        "\
0 Stop(Breakpoint)
Poked 00001H
Poked 007H
Accepted
1 Stop(Step)
0002 0000 Off 0
",
    ),
    // The request pushes the PC that was put there, which is the frame's site.
    (
        "a wait goes on",
        &[
            Load("p", "EI\nHLT\nEND 0"),
            Attach,
            Start(0),
            Slice(10),
            Pause,
            Poke(1, "PC", "100H"),
            Resume,
            Slice(10),
            Press(7),
            Slice(1),
            Frame,
            Registers,
            Interrupt,
        ],
        "\
Loaded { start: Some(0) }
Accepted
Started
2 Waiting
Accepted
Poked 00100H
Accepted
0 Waiting
Accepted
1 More
FFFE 0038 0100
0038 FFFE Off 1
Interrupted
",
    ),
];

#[test]
fn runs_go_on_from_changes(rt: HostRuntime) {
    expect_plays(&rt, &RETURNS);
}
