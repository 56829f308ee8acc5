//! Bodies of responses.
use crate::messages::compared::{FROM_0, expect_body, list, placed, text};
use base_text::sequence::Sequence;
use dap_answers::answer::Body;
use dap_messages::message::{
    Completion, CompletionKind, DataInfo, EditorBody, EditorVariable, ShownValue,
};
use dap_messages::numbering::FROM_1;
use lab_shown::shown::StackFrame;
use std::alloc::AllocGlobal;
use std::process::Abort;

// The body is written so.
fn expect_told(rt: &(impl Abort + AllocGlobal), body: EditorBody, json: &str) {
    expect_body(rt, FROM_1, body, json);
}

const SCOPES: &str = concat!(
    r#"{"scopes":[{"expensive":false,"name":"Registers","presentationHint":"registers","#,
    r#""variablesReference":1},{"expensive":false,"name":"Flags","variablesReference":2},"#,
    r#"{"expensive":false,"indexedVariables":0,"name":"Stack","variablesReference":6},"#,
    r#"{"expensive":false,"name":"Devices","variablesReference":3},{"expensive":false,"#,
    r#""indexedVariables":4294967295,"name":"Symbols","variablesReference":4},{"expensive":true,"#,
    r#""indexedVariables":65536,"name":"Memory","variablesReference":5}]}"#,
);

#[test]
fn the_most_symbols_and_no_word(rt: HostRuntime) {
    let scopes = EditorBody::Scopes {
        symbols: u32::MAX,
        words: 0,
    };
    expect_told(&rt, scopes, SCOPES);
}

// Lists without items are written so.
#[test]
fn nothing(rt: HostRuntime) {
    let instructions = EditorBody::Instructions(Sequence::new(rt.alloc()));
    expect_told(&rt, instructions, r#"{"instructions":[]}"#);
    let frames = EditorBody::Board(Body::StackTrace {
        frames: Sequence::new(rt.alloc()),
        total: 0,
    });
    expect_told(&rt, frames, r#"{"stackFrames":[],"totalFrames":0}"#);
}

#[test]
fn memory(rt: HostRuntime) {
    let none = EditorBody::Memory {
        address: 0,
        bytes: Sequence::new(rt.alloc()),
        unreadable: u32::MAX,
    };
    let json = r#"{"address":"0x0000","unreadableBytes":4294967295}"#;
    expect_told(&rt, none, json);
    let lowest = EditorBody::NoMemory {
        address: i64::MIN,
        count: 0,
    };
    expect_told(&rt, lowest, r#"{"address":"-9223372036854775808"}"#);
    let greatest = EditorBody::NoMemory {
        address: i64::MAX,
        count: 1,
    };
    let json = r#"{"address":"9223372036854775807","unreadableBytes":1}"#;
    expect_told(&rt, greatest, json);
}

fn shown(rt: &(impl Abort + AllocGlobal), value: &str, memory: Option<u16>) -> ShownValue {
    ShownValue {
        text: text(rt, value),
        memory,
    }
}

const WATCHED: &str = concat!(
    r#"{"accessTypes":["write"],"canPersist":true,"dataId":"m 1234 2","#,
    r#""description":"1234 \"and\" 1235"}"#,
);

const EMPTY: &str = r#"{"accessTypes":["write"],"canPersist":true,"dataId":"","description":""}"#;

#[test]
fn data_and_values(rt: HostRuntime) {
    let watched = DataInfo {
        data_id: Some(text(&rt, "m 1234 2")),
        description: text(&rt, r#"1234 "and" 1235"#),
    };
    expect_told(&rt, EditorBody::DataInfo(watched), WATCHED);
    let empty = DataInfo {
        data_id: Some(text(&rt, "")),
        description: text(&rt, ""),
    };
    expect_told(&rt, EditorBody::DataInfo(empty), EMPTY);
    let value = EditorBody::Evaluation(shown(&rt, r#"0FFH "255""#, None));
    let json = r#"{"result":"0FFH \"255\"","variablesReference":0}"#;
    expect_told(&rt, value, json);
    let value = EditorBody::Value(shown(&rt, "", Some(0)));
    expect_told(&rt, value, r#"{"memoryReference":"0x0000","value":""}"#);
}

const VARIABLES: &str = concat!(
    r#"{"variables":[{"memoryReference":"0xffff","name":"","value":"","variablesReference":0},"#,
    r#"{"evaluateName":"M[\"A\"]","memoryReference":"0x0041","name":"0041","value":"07H","#,
    r#""variablesReference":0}]}"#,
);

const COMPLETIONS: &str =
    r#"{"targets":[{"label":"\"\"","length":2,"start":5,"type":"reference"}]}"#;

#[test]
fn variables_and_completions(rt: HostRuntime) {
    let last = EditorVariable {
        name: text(&rt, ""),
        value: shown(&rt, "", Some(0xffff)),
        expression: None,
    };
    let cell = EditorVariable {
        name: text(&rt, "0041"),
        value: shown(&rt, "07H", Some(0x41)),
        expression: Some(text(&rt, r#"M["A"]"#)),
    };
    let variables = EditorBody::Variables(list(&rt, [last, cell]));
    expect_told(&rt, variables, VARIABLES);
    let symbol = Completion {
        label: text(&rt, r#""""#),
        kind: CompletionKind::Symbol,
    };
    let completions = EditorBody::Completions {
        items: list(&rt, [symbol]),
        start: 5,
        length: 2,
    };
    expect_told(&rt, completions, COMPLETIONS);
}

// The path of a folder, which ends with no name.
#[test]
fn a_path_without_a_name(rt: HostRuntime) {
    let paths = list(&rt, [text(&rt, "c/")]);
    let json = r#"{"sources":[{"name":"","path":"c/"}]}"#;
    expect_told(&rt, EditorBody::Sources(paths), json);
}

const BREAKPOINTS_FROM_1: &str = concat!(
    r#"{"breakpoints":[{"id":2,"verified":false},{"id":4,"instructionReference":"0xffff","#,
    r#""line":12,"verified":true},{"id":3,"line":0,"verified":false}]}"#,
);

// No line is line 0.
const BREAKPOINTS_FROM_0: &str = concat!(
    r#"{"breakpoints":[{"id":2,"verified":false},{"id":4,"instructionReference":"0xffff","#,
    r#""line":11,"verified":true},{"id":3,"line":0,"verified":false}]}"#,
);

fn breakpoints(rt: &(impl Abort + AllocGlobal)) -> EditorBody {
    let nowhere = placed(2, None, None, false);
    let both = placed(4, Some(12), Some(0xffff), true);
    let no_line = placed(3, Some(0), None, false);
    EditorBody::Breakpoints(list(rt, [nowhere, both, no_line]))
}

fn last_line(rt: &(impl Abort + AllocGlobal)) -> EditorBody {
    EditorBody::Locations(list(rt, [u32::MAX]))
}

#[test]
fn lines(rt: HostRuntime) {
    expect_body(&rt, FROM_1, breakpoints(&rt), BREAKPOINTS_FROM_1);
    expect_body(&rt, FROM_0, breakpoints(&rt), BREAKPOINTS_FROM_0);
    let from_1 = r#"{"breakpoints":[{"line":4294967295}]}"#;
    expect_body(&rt, FROM_1, last_line(&rt), from_1);
    let from_0 = r#"{"breakpoints":[{"line":4294967294}]}"#;
    expect_body(&rt, FROM_0, last_line(&rt), from_0);
}

const LAST_FRAME: &str = concat!(
    r#"{"stackFrames":[{"column":1,"id":4294967295,"instructionPointerReference":"0x0000","line":1,"#,
    r#""name":"LOOP","source":{"name":"a.rom (disassembly)","path":"/e/a.rom","sourceReference":1}}],"#,
    r#""totalFrames":65536}"#,
);

#[test]
fn the_last_frame(rt: HostRuntime) {
    let frame = StackFrame {
        id: u32::MAX,
        name: text(&rt, "LOOP"),
        source: Some(text(&rt, "/e/a.rom")),
        line: 1,
        address: 0,
    };
    let body = EditorBody::Board(Body::StackTrace {
        frames: list(&rt, [frame]),
        total: 65_536,
    });
    expect_told(&rt, body, LAST_FRAME);
}
