//! Short runs of events: what they answer, and what they leave.

ghost use Rattle.std.specs.Prelude.{All};
ghost use Rattle.lab_core.specs.Events.{Fits};

use crate::told::expect_plays;
use lab_core::answer::{Answers, EventsFault};
use lab_core::event::Event;
use lab_core::lab::Lab;
use lab_core::laws::{applies_as_given, one_answer};
use lab_test_kit::script::{Play, Step};
use lab_test_kit::told::put_told;
use std::alloc::AllocError;
use std::rt::HostRuntime;

#[test]
fn laws_stand() {
    one_answer();
    applies_as_given();
}

// What each play is about, its steps, and the lines that they show.
const PLAYS: &[Play] = &[
    (
        "a cell is run in slices",
        &[
            Step::Load("a", "X: MVI A,5\nHLT\nEND X"),
            Step::Slice(1),
            Step::Start(0),
            Step::Slice(1),
            Step::Load("b", ""),
            Step::Slice(10),
            Step::Slice(1),
            Step::Interrupt,
        ],
        "\
Loaded { start: Some(0) }
refused: no program runs
Started
1 More
refused: a program runs
1 End(Halted)
refused: no program runs
refused: no program runs
",
    ),
    (
        "an undefined opcode ends a run",
        &[
            Step::Load("a", "DB 8\nEND 0"),
            Step::Start(0),
            Step::Start(0),
            Step::Slice(10),
        ],
        "\
Loaded { start: Some(0) }
Started
refused: a program runs
0 End(Undefined { opcode: 8, pc: 0 })
",
    ),
    (
        "a run waits for a request",
        &[
            Step::Load("a", "EI\nHLT\nEND 0"),
            Step::Start(0),
            Step::Slice(10),
            Step::Slice(10),
            Step::Press(7),
            Step::Slice(1),
            Step::Registers,
        ],
        "\
Loaded { start: Some(0) }
Started
2 Waiting
0 Waiting
Accepted
1 More
0038 FFFE Off 1
",
    ),
    // Of a run without a debugger, only that it halted is seen after the last step of a slice.
    (
        "other reasons wait for the next slice",
        &[
            Step::Load("a", "HLT\nEI\nHLT\nNOP\nDB 8"),
            Step::Start(0),
            Step::Slice(1),
            Step::Start(1),
            Step::Slice(2),
            Step::Interrupt,
            Step::Start(3),
            Step::Slice(1),
            Step::Slice(1),
        ],
        "\
Loaded { start: None }
Started
1 End(Halted)
Started
2 More
Interrupted
Started
1 More
0 End(Undefined { opcode: 8, pc: 4 })
",
    ),
    (
        "a slice tells its traffic",
        &[
            Step::Load("a", "IN 1\nOUT 2\nIN 2\nHLT"),
            Step::Typed("A"),
            Step::Switches(0x5a),
            Step::Start(0),
            Step::Slice(2),
            Step::Lamps,
            Step::Slice(4096),
            Step::Reset,
            Step::Lamps,
            Step::Byte(0),
        ],
        "\
Loaded { start: None }
Accepted
Accepted
Started
2 More In { port: 1, byte: 65 } Out { port: 2, byte: 65 }
41
2 End(Halted) In { port: 2, byte: 90 }
Reset
00
00
",
    ),
    (
        "a call is live until its return",
        &[
            Step::Load("a", "ORG 0100H\nCALL 01234H\nORG 01234H\nRET"),
            Step::Start(0x0100),
            Step::Slice(1),
            Step::Registers,
            Step::Byte(0xffff),
            Step::Byte(0xfffe),
            Step::Frame,
            Step::Slice(1),
            Step::Registers,
        ],
        "\
Loaded { start: None }
Started
1 More
1234 FFFE Off 1
01
03
FFFE 1234 0100
1 More
0103 0000 Off 0
",
    ),
    (
        "a request waits for the instruction behind ei",
        &[
            Step::Load("a", "EI\nNOP\nNOP"),
            Step::Press(8),
            Step::Press(7),
            Step::Press(3),
            Step::Start(0),
            Step::Slice(1),
            Step::Registers,
            Step::Slice(1),
            Step::Registers,
            Step::Slice(1),
            Step::Registers,
            Step::Byte(0xffff),
            Step::Byte(0xfffe),
        ],
        "\
Loaded { start: None }
refused: there are the buttons 0 to 7
Accepted
refused: a request is latched already
Started
1 More
0001 0000 Arming 0
1 More
0002 0000 On 0
1 More
0038 FFFE Off 1
00
02
",
    ),
    (
        "texts are kept under their paths",
        &[
            Step::Reset,
            Step::Load("b", "FOO"),
            Step::Load("a", "NOP"),
            Step::Load("b", "JMP 0"),
            Step::Load("a", "NOP"),
            Step::Load("b", "HLT"),
            Step::Byte(0),
            Step::Byte(2),
            Step::Byte(3),
        ],
        "\
Reset
refused: 1:1 Mnemonic
Loaded { start: None }
Loaded { start: None }
Loaded { start: None }
refused: the path has another text
00 0 1 true
00 1 1 false
00
",
    ),
    (
        "as many texts as may be are kept",
        &[Step::Fill, Step::Load("y", ""), Step::Load("xx", "")],
        "refused: there are 1,024 sources\nLoaded { start: None }\n",
    ),
];

#[test]
fn boards_answer(rt: HostRuntime) {
    expect_plays(&rt, PLAYS);
}

fn put_answers(
    told: &mut String,
    answers: &Result<Answers, EventsFault>,
) -> Result<(), AllocError> {
    let Ok(answers) = answers else {
        return told.push_str("out of memory\n");
    };
    for answer in answers.as_slice() {
        put_told(told, answer)?;
    }
    Ok(())
}

fn tell_run(told: &mut String, lab: &mut Lab, events: &[Event]) -> Result<(), AllocError>
    requires { All Fits events.now }
{
    let answers = lab.run(events);
    let put = put_answers(told, &answers);
    drop(answers);
    put
}

#[test]
fn events_are_run_in_turn(rt: HostRuntime) -> Result<(), AllocError> {
    let events = [Event::Start(0xffff), Event::Slice(2), Event::Press(8)];
    let mut lab = Lab::new(rt.alloc()).expect(&rt, "memory");
    let mut told = String::new(rt.alloc());
    let put = tell_run(&mut told, &mut lab, &events);
    drop(lab);
    drop(events);
    put?;
    let wanted = "Started\n2 More\nrefused: there are the buttons 0 to 7\n";
    assert_eq!(rt; told.as_str(), wanted);
    Ok(())
}
