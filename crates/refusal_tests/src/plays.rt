//! What is done to the boards: each list on a new one.

use i80_base::board::Board::{Aliases, Strict};
use lab_shown::step::StepKind::{In, Out, Over};
use lab_test_kit::ask::Ask::{Code, Frames, Info, Scopes, Source, Variables};
use lab_test_kit::script::Step;
use lab_test_kit::script::Step::{
    Attach, Detach, Dump, Instruction, Interrupt, Line, Lines, Load, Pause, Poke, Press, Reset,
    Resume, SetBoard, Show, Slice, Start, Switches, Typed,
};

/// A call, whose routine returns at once.
const CALL: &str = "MAIN: CALL F1\nHLT\nF1: RET\nEND MAIN";

/// A routine that calls itself once.
const RECURSION: &str = "MAIN: MVI B,2\nCALL REC\nHLT\nREC: DCR B\nCNZ REC\nRET\nEND MAIN";

/// Reads the console and the switches, writes what it read, and goes on without an end.
const DEVICES: &str = "MAIN: IN 1\nOUT 1\nIN 2\nOUT 2\nOUT 3\nJMP MAIN\nEND MAIN";

/// Waits for a request.
const WAITS: &str = "EI\nHLT\nEND 0";

/// A call and a return by undefined opcodes.
const COPIES: &str = "MAIN: DB 0DDH\nDW F1\nHLT\nF1: DB 0D9H\nEND MAIN";

/// Stops at a breakpoint, and leaves a routine.
const STEP_OUT: &[Step] = &[
    Load("p", CALL),
    Attach,
    Lines("p", &[3]),
    Start(0),
    Slice(10),
    Show(Frames(0, 0)),
    Show(Variables(1, 0, 0)),
    Line(Out),
    Slice(10),
    Show(Frames(0, 0)),
];

const STEP_OVER: &[Step] = &[
    Load("p", CALL),
    Attach,
    Lines("p", &[1]),
    Start(0),
    Slice(10),
    Line(Over),
    Slice(10),
    Show(Frames(0, 0)),
];

const STEP_OVER_RECURSION: &[Step] = &[
    Load("p", RECURSION),
    Attach,
    Lines("p", &[5]),
    Start(0),
    Slice(10),
    Show(Frames(0, 0)),
    Show(Variables(1, 0, 0)),
    Lines("p", &[]),
    Line(Over),
    Slice(10),
    Show(Frames(0, 0)),
];

/// Each view of a board on which nothing stands, and of a stopped run.
const VIEWS: &[Step] = &[
    Show(Info),
    Show(Frames(0, 0)),
    Show(Variables(4, 0, 0)),
    Load("p", RECURSION),
    Dump("q", "HLT"),
    Attach,
    Lines("q", &[1]),
    Lines("p", &[5, 6, 5, 99]),
    Lines("none", &[1]),
    Start(0),
    Slice(10),
    Show(Info),
    Show(Frames(0, 0)),
    Show(Frames(1, 1)),
    Show(Scopes(1)),
    Show(Scopes(9)),
    Show(Variables(1, 0, 0)),
    Show(Variables(2, 0, 0)),
    Show(Variables(3, 0, 0)),
    Show(Variables(4, 0, 0)),
    Show(Variables(4, 1, 1)),
    Show(Variables(5, 0, 0)),
    Show(Variables(5, 0xFFF8, 256)),
    Show(Variables(6, 0, 0)),
    Show(Code(0, 16)),
    Show(Code(0xFFFE, 256)),
    Show(Source("p")),
    Show(Source("none")),
];

/// Each event, and each refusal of one.
const EVENTS: &[Step] = &[
    Slice(1),
    Resume,
    Pause,
    Load("p", DEVICES),
    Load("p", "HLT"),
    Load("q", "X: NOP\nX: NOP"),
    Dump("r", "HLT"),
    Dump("r", "NOP"),
    Press(8),
    Start(0),
    Start(0),
    SetBoard(Aliases),
    Load("s", "HLT"),
    Typed("AB"),
    Switches(0x5A),
    Slice(20),
    Pause,
    Attach,
    Pause,
    Slice(60),
    Poke(1, "A", "41H"),
    Poke(1, "PC", "0"),
    Poke(5, "1234", "42H"),
    Poke(1, "Q", "1"),
    Poke(1, "A", "256"),
    Poke(9, "A", "1"),
    Instruction(In),
    Slice(10),
    Line(In),
    Slice(10),
    Resume,
    Slice(60),
    Detach,
    Slice(10),
    Interrupt,
    Show(Variables(3, 0, 0)),
    Show(Variables(5, 0x1234, 1)),
    Reset,
    Show(Variables(5, 0, 0)),
];

/// A run that waits, and one on a board on which undefined opcodes act.
const REQUESTS: &[Step] = &[
    Load("p", WAITS),
    Start(0),
    Slice(10),
    Press(7),
    Press(7),
    Slice(1),
    Interrupt,
    SetBoard(Aliases),
    Load("q", COPIES),
    Attach,
    Lines("q", &[4]),
    Start(0),
    Slice(10),
    Show(Frames(0, 0)),
    Line(Out),
    Slice(10),
    Slice(10),
    SetBoard(Strict),
    Start(0),
    Slice(10),
];

/// The lists.
pub const PLAYS: &[&[Step]] = &[
    STEP_OUT,
    STEP_OVER,
    STEP_OVER_RECURSION,
    VIEWS,
    EVENTS,
    REQUESTS,
];
