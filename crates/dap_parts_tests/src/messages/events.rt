//! Events.
use crate::messages::compared::{expect_event, list, placed};
use base_text::sequence::Sequence;
use dap_answers::answer::StopReason;
use dap_messages::message::{
    BreakpointKind, BreakpointStop, EditorEvent, EditorStop, OutputCategory,
};
use dap_messages::numbering::FROM_1;
use lab_shown::place::{Place, PlaceChange};
use std::alloc::AllocGlobal;
use std::process::Abort;

// The event is written so.
fn expect_told(rt: &(impl Abort + AllocGlobal), event: EditorEvent, json: &str) {
    expect_event(rt, FROM_1, event, json);
}

const CHANGED: &str =
    r#""body":{"breakpoint":{"id":1,"verified":false},"reason":"changed"},"event":"breakpoint""#;

const STDERR: &str = r#""body":{"category":"stderr","output":""},"event":"output""#;

#[test]
fn a_breakpoint_without_a_message_and_no_output(rt: HostRuntime) {
    let breakpoint = placed(1, None, None, false);
    expect_told(&rt, EditorEvent::Breakpoint(breakpoint), CHANGED);
    let nothing = EditorEvent::Output {
        category: OutputCategory::Stderr,
        bytes: Sequence::new(rt.alloc()),
        place: None,
    };
    expect_told(&rt, nothing, STDERR);
}

const AT_BOARDS_BREAKPOINT: &str = concat!(
    r#""body":{"allThreadsStopped":true,"reason":"breakpoint","threadId":1},"event":"stopped""#,
);

const AT_NONE: &str = concat!(
    r#""body":{"allThreadsStopped":true,"hitBreakpointIds":[],"reason":"breakpoint","#,
    r#""threadId":1},"event":"stopped""#,
);

const JUMPED: &str = concat!(
    r#""body":{"allThreadsStopped":true,"description":"PC: 0000H, was FFFEH, by ABCD","#,
    r#""hitBreakpointIds":[262401],"reason":"data breakpoint","threadId":1},"event":"stopped""#,
);

#[test]
fn stops(rt: HostRuntime) {
    let breakpoint = EditorStop::Board(StopReason::Breakpoint);
    expect_told(&rt, EditorEvent::Stopped(breakpoint), AT_BOARDS_BREAKPOINT);
    let at_none = BreakpointStop {
        kind: BreakpointKind::Line,
        ids: Sequence::new(rt.alloc()),
    };
    expect_told(&rt, EditorEvent::StoppedAt(at_none), AT_NONE);
    let jump = BreakpointStop {
        kind: BreakpointKind::Data(PlaceChange {
            place: Place::Pc,
            before: 0xfffe,
            after: 0,
            by: 0xabcd,
        }),
        ids: list(&rt, [262_401]),
    };
    expect_told(&rt, EditorEvent::StoppedAt(jump), JUMPED);
}
