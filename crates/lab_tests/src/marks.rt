//! Slices that end at a mark: how many steps they make, and what they leave of the marks.
use crate::call::Call::{Address, Apply, Registers, SliceTo, Start, Watch, Write};
use crate::call::{Play, expect_right};
use lab_core::laws::first_mark_is_least;
use lab_shown::place::Place::{A, B, C, D, E, H, L, Memory, Pc, Sp};
use lab_shown::step::StepKind::Over;
use lab_test_kit::script::Step;
use lab_test_kit::script::Step::{Attach, Line, Lines, Pause, Press, Resume, Slice};
use std::alloc::AllocError;
use std::rt::HostRuntime;

// Addresses to which PC comes.
const ADDRESSES: &[Play] = &[
    (
        "PC comes from FFFFH to a mark at 0000H",
        &[
            Apply(Step::Start(0xffff)),
            Address(0),
            SliceTo(10),
            Registers,
            SliceTo(10),
            Registers,
        ],
        "Started\n1 More\nmet from FFFF\n0000 0000 0\n10 More\nnot met from 0009\n000A 0000 0\n",
    ),
    (
        "a mark where a slice begins doesn't count, and one where it ends does",
        &[
            Start("X: NOP\nJMP X"),
            Address(0),
            SliceTo(10),
            SliceTo(10),
            SliceTo(1),
            SliceTo(1),
        ],
        "\
2 More
met from 0001
2 More
met from 0001
1 More
not met from 0000
1 More
met from 0001
",
    ),
    (
        "without a mark all steps are made, and of none no step",
        &[Start("X: JMP X"), SliceTo(7), SliceTo(1), SliceTo(0)],
        "7 More\nnot met from 0000\n1 More\nnot met from 0000\n0 More\nnot met from 0000\n",
    ),
    // 1 step and 1000 rounds of 4 lead to HLT.
    (
        "a mark behind many steps",
        &[
            Start("LXI B,1000\nX: DCX B\nMOV A,B\nORA C\nJNZ X\nHLT"),
            Address(9),
            SliceTo(4096),
            Registers,
        ],
        "4001 More\nmet from 0006\n0009 0000 0\n",
    ),
    (
        "a slice to a mark tells its traffic, once",
        &[
            Start("MVI A,41H\nOUT 1\nX: JMP X"),
            Address(4),
            SliceTo(10),
            SliceTo(10),
        ],
        "2 More Out { port: 1, byte: 65 }\nmet from 0002\n1 More\nmet from 0004\n",
    ),
    // The instruction after EI is done before the request is accepted.
    (
        "CALL, RET and an accepted request lead to marks",
        &[
            Start("CALL F\nEI\nX: JMP X\nF: RET"),
            Address(7),
            Address(3),
            Address(0x38),
            SliceTo(10),
            SliceTo(10),
            Apply(Press(7)),
            SliceTo(10),
            Registers,
        ],
        "\
1 More
met from 0000
1 More
met from 0007
Accepted
3 More
met from 0004
0038 FFFE 1
",
    ),
    // CALL leads to the mark; NOP and RET lead behind the call.
    (
        "a Step over a routine goes on through a mark inside",
        &[
            Start("CALL F\nHLT\nF: NOP\nRET"),
            Apply(Attach),
            Apply(Pause),
            Apply(Line(Over)),
            Address(4),
            SliceTo(10),
            Registers,
            SliceTo(10),
            Registers,
        ],
        "\
Accepted
Accepted
Accepted
1 More
met from 0000
0004 FFFE 1
2 Stop(Step)
not met from 0005
0003 0000 0
",
    ),
];

// Places that a step changes.
const PLACES: &[Play] = &[
    // The second STA stores what is there.
    (
        "a byte that is changed and changed back leads to two marks",
        &[
            Start("MVI A,5\nSTA 100H\nSTA 100H\nXRA A\nSTA 100H\nHLT"),
            Watch(Memory(0x100)),
            SliceTo(10),
            SliceTo(10),
            SliceTo(10),
        ],
        "\
2 More
met from 0002 0>5
3 More
met from 0009 5>0
1 End(Halted)
not met from 000C 0>0
",
    ),
    // The high byte is pushed below SP, and the low one below that.
    (
        "a push onto watched bytes",
        &[
            Start("LXI SP,2000H\nLXI B,1234H\nPUSH B\nHLT"),
            Watch(Memory(0x1ffe)),
            Watch(Memory(0x1fff)),
            Watch(Memory(0x2000)),
            SliceTo(10),
            Registers,
        ],
        "3 More\nmet from 0006 0>34 0>12 0>0\n0007 1FFE 0\n",
    ),
    // The acceptance pushes 0001H, the address of JMP, on the stack that begins at 0000H.
    (
        "an accepted request's push onto a watched byte",
        &[
            Start("EI\nX: JMP X"),
            Apply(Slice(2)),
            Apply(Press(7)),
            Watch(Memory(0xfffe)),
            SliceTo(10),
            Registers,
        ],
        "2 More\nAccepted\n1 More\nmet from 0001 0>1\n0038 FFFE 1\n",
    ),
    (
        "SP, of which one byte or both are changed",
        &[
            Start("LXI SP,2000H\nINX SP\nNOP\nPUSH B\nPOP B\nHLT"),
            Watch(Sp),
            SliceTo(10),
            SliceTo(10),
            SliceTo(10),
            SliceTo(10),
            SliceTo(10),
        ],
        "\
1 More
met from 0000 0>2000
1 More
met from 0003 2000>2001
2 More
met from 0005 2001>1FFF
1 More
met from 0006 1FFF>2001
1 End(Halted)
not met from 0007 2001>2001
",
    ),
    (
        "each register",
        &[
            Start("MVI A,1\nMVI B,2\nMVI C,3\nMVI D,4\nMVI E,5\nMVI H,6\nMVI L,7\nHLT"),
            Watch(A),
            Watch(B),
            Watch(C),
            Watch(D),
            Watch(E),
            Watch(H),
            Watch(L),
            SliceTo(10),
            SliceTo(10),
            SliceTo(10),
            SliceTo(10),
            SliceTo(10),
            SliceTo(10),
            SliceTo(10),
            SliceTo(10),
        ],
        "\
1 More
met from 0000 0>1 0>0 0>0 0>0 0>0 0>0 0>0
1 More
met from 0002 1>1 0>2 0>0 0>0 0>0 0>0 0>0
1 More
met from 0004 1>1 2>2 0>3 0>0 0>0 0>0 0>0
1 More
met from 0006 1>1 2>2 3>3 0>4 0>0 0>0 0>0
1 More
met from 0008 1>1 2>2 3>3 4>4 0>5 0>0 0>0
1 More
met from 000A 1>1 2>2 3>3 4>4 5>5 0>6 0>0
1 More
met from 000C 1>1 2>2 3>3 4>4 5>5 6>6 0>7
1 End(Halted)
not met from 000E 1>1 2>2 3>3 4>4 5>5 6>6 7>7
",
    ),
    // A jump to itself leaves PC; the byte that is written over it is NOP.
    (
        "PC, which a jump to itself leaves",
        &[
            Start("X: JMP X"),
            Watch(Pc),
            SliceTo(3),
            Write(0, &[0]),
            SliceTo(3),
        ],
        "3 More\nnot met from 0000 0>0\n1 More\nmet from 0000 0>1\n",
    ),
];

// Marks beside the reasons for which a run makes no further step.
const REASONS: &[Play] = &[
    (
        "a breakpoint before a mark, and at one",
        &[
            Start("NOP\nNOP\nNOP\nHLT"),
            Apply(Attach),
            Apply(Lines("p", &[2])),
            Address(2),
            SliceTo(10),
            Apply(Lines("p", &[3])),
            Apply(Resume),
            SliceTo(10),
        ],
        "\
Accepted
line 2 true
1 Stop(Breakpoint)
not met from 0000
line 3 true
Accepted
1 Stop(Breakpoint)
met from 0001
",
    ),
    (
        "a breakpoint at which no step is made",
        &[
            Start("X: JMP X"),
            Apply(Attach),
            Apply(Lines("p", &[1])),
            Address(0),
            Watch(Memory(0)),
            SliceTo(10),
        ],
        "Accepted\nline 1 true\n0 Stop(Breakpoint)\nnot met from 0000 C3>C3\n",
    ),
    (
        "a HLT that ends the run at a mark",
        &[Start("NOP\nHLT"), Address(2), SliceTo(10), SliceTo(10)],
        "2 End(Halted)\nmet from 0001\nrefused: no program runs\nmet from 0001\n",
    ),
    (
        "a HLT that waits is seen by the slice behind the mark",
        &[Start("EI\nHLT"), Address(2), SliceTo(10), SliceTo(10)],
        "2 More\nmet from 0001\n0 Waiting\nnot met from 0002\n",
    ),
    (
        "an undefined opcode is seen by the slice behind the mark",
        &[Start("NOP\nDB 8"), Address(1), SliceTo(10), SliceTo(10)],
        "1 More\nmet from 0000\n0 End(Undefined { opcode: 8, pc: 1 })\nnot met from 0001\n",
    ),
    (
        "a refused slice leaves the marks",
        &[
            Watch(A),
            SliceTo(5),
            Start("NOP\nMVI A,5\nX: JMP X"),
            SliceTo(5),
            Apply(Attach),
            Apply(Pause),
            SliceTo(5),
        ],
        "\
refused: no program runs
not met from 0000 0>0
2 More
met from 0001 0>5
Accepted
Accepted
refused: no program runs
met from 0001 0>5
",
    ),
];

// Where PC was before the last step.
const SITES: &[Play] = &[
    // CALL at 0003H pushes 0006H.
    (
        "a byte that CALL writes, and a slice of no step",
        &[
            Start("LXI SP,2000H\nCALL F\nHLT\nF: RET"),
            Watch(Memory(0x1ffe)),
            SliceTo(10),
            Registers,
            SliceTo(0),
            SliceTo(10),
        ],
        "\
2 More
met from 0003 0>6
0007 1FFE 1
0 More
not met from 0007 6>6
2 End(Halted)
not met from 0006 6>6
",
    ),
    // An even number of steps ends with JMP, and an odd one then with INR.
    (
        "many steps of a loop",
        &[Start("X: INR A\nJMP X"), SliceTo(1000), SliceTo(7)],
        "1000 More\nnot met from 0001\n7 More\nnot met from 0000\n",
    ),
    (
        "EI, HLT, a wait behind it, and an accepted request",
        &[
            Start("NOP\nNOP\nEI\nHLT"),
            Address(3),
            SliceTo(10),
            SliceTo(10),
            SliceTo(10),
            Apply(Press(7)),
            SliceTo(1),
            Registers,
        ],
        "\
3 More
met from 0002
1 Waiting
not met from 0003
0 Waiting
not met from 0004
Accepted
1 More
not met from 0004
0038 FFFE 1
",
    ),
    (
        "an undefined opcode behind other steps",
        &[Start("NOP\nNOP\nNOP\nDB 8"), SliceTo(10)],
        "3 End(Undefined { opcode: 8, pc: 3 })\nnot met from 0002\n",
    ),
    (
        "a breakpoint behind other steps",
        &[
            Start("NOP\nNOP\nNOP\nHLT"),
            Apply(Attach),
            Apply(Lines("p", &[3])),
            SliceTo(10),
        ],
        "Accepted\nline 3 true\n2 Stop(Breakpoint)\nnot met from 0001\n",
    ),
];

#[test]
fn law_stands() {
    first_mark_is_least();
}

#[test]
fn slices_end_where_pc_comes_to_a_mark(rt: HostRuntime) -> Result<(), AllocError> {
    expect_right(&rt, rt.alloc(), ADDRESSES)
}

#[test]
fn slices_end_where_a_watched_place_is_changed(rt: HostRuntime) -> Result<(), AllocError> {
    expect_right(&rt, rt.alloc(), PLACES)
}

#[test]
fn marks_tell_where_the_last_step_began(rt: HostRuntime) -> Result<(), AllocError> {
    expect_right(&rt, rt.alloc(), SITES)
}

#[test]
fn marks_stand_beside_other_reasons(rt: HostRuntime) -> Result<(), AllocError> {
    expect_right(&rt, rt.alloc(), REASONS)
}
