//! What messages are made of, and how they are compared.
use crate::checks::{expect, made};
use base_text::sequence::Sequence;
use base_text::text::Text;
use dap_json::json::message_json;
use dap_messages::message::{
    BreakpointOptions, EditorBody, EditorEvent, EditorOutcome, EditorResponse, Message, Numbering,
    PlacedBreakpoint,
};
use std::alloc::AllocGlobal;
use std::process::Abort;

/// Of an editor that counts lines and columns from 0.
pub const FROM_0: Numbering = Numbering {
    lines_start_at_1: false,
    columns_start_at_1: false,
};

/// A text, for which there must be memory.
pub fn text(rt: &(impl Abort + AllocGlobal), text: &str) -> Text {
    made(rt, Text::copy_of(rt.alloc(), text))
}

/// A sequence of these items, for which there must be memory.
pub fn list<T: Drop, const N: usize>(
    rt: &(impl Abort + AllocGlobal),
    items: [T; N],
) -> Sequence<T> {
    match Vec::from_array(rt.alloc(), items) {
        Ok(items) => Sequence::from(items),
        Err(items) => {
            drop(items);
            rt.panic("there is no memory")
        }
    }
}

/// A breakpoint without options and without a note.
pub fn placed(
    id: u32,
    line: Option<u32>,
    address: Option<u16>,
    is_verified: bool,
) -> PlacedBreakpoint {
    PlacedBreakpoint {
        id,
        line,
        address,
        options: BreakpointOptions {
            condition: None,
            hit_condition: None,
            log_message: None,
        },
        is_verified,
        note: None,
    }
}

// The message with the number 12 is written so.
fn expect_message(
    rt: &(impl Abort + AllocGlobal),
    numbering: Numbering,
    message: Message,
    json: &str,
) {
    let value = made(rt, message_json(rt.alloc(), numbering, 12, &message));
    drop(message);
    let told = made(rt, value.to_string(rt.alloc()));
    drop(value);
    expect(rt, json, told.as_str(), json);
    drop(told);
}

// A text with what stands before it and behind it.
fn between(rt: &(impl Abort + AllocGlobal), start: &str, json: &str, end: &str) -> String {
    made(rt, format!(in rt.alloc(); "{start}{json}{end}"))
}

/// The body is written so.
pub fn expect_body(
    rt: &(impl Abort + AllocGlobal),
    numbering: Numbering,
    body: EditorBody,
    json: &str,
) {
    let end = r#","command":"c","request_seq":9,"seq":12,"success":true,"type":"response"}"#;
    let wanted = between(rt, r#"{"body":"#, json, end);
    let response = EditorResponse {
        request_seq: 9,
        command: text(rt, "c"),
        outcome: EditorOutcome::Success(body),
    };
    expect_message(rt, numbering, Message::Response(response), wanted.as_str());
    drop(wanted);
}

/// The event is written so, but for its number and its type.
pub fn expect_event(
    rt: &(impl Abort + AllocGlobal),
    numbering: Numbering,
    event: EditorEvent,
    json: &str,
) {
    let wanted = between(rt, "{", json, r#","seq":12,"type":"event"}"#);
    expect_message(rt, numbering, Message::Event(event), wanted.as_str());
    drop(wanted);
}
