//! Log messages that no breakpoint has: an empty one, and those that name what the program doesn't have. What
//! others tell, and why some can't be read, is played by the clients.
use crate::checks::expect_made;
use base_test_kit::rows::parts;
use dap_log::message::LogMessage;
use lab_core::lab::Lab;
use std::alloc::{AllocError, AllocGlobal, Global};
use std::process::Abort;

// A message, and its text on a board without a program, where B is 0.
const ROWS: &str = "\
^
at {1/B:x}, {NOWHERE:x}^at Divisor, Undefined
{1/0+NOWHERE}^Undefined
";

fn text_of(alloc: Global, lab: &Lab, message: &LogMessage) -> Result<String, AllocError> {
    Ok(message.text(alloc, lab)?.into_string())
}

// The text of a message, or the fault of a text that is none.
fn told_of(alloc: Global, lab: &Lab, text: &str) -> Result<String, AllocError> {
    match LogMessage::parse(alloc, text) {
        Ok(message) => {
            let told = text_of(alloc, lab, &message);
            drop(message);
            told
        }
        Err(fault) => format!(in alloc; "{fault}"),
    }
}

fn expect_text(rt: &(impl Abort + AllocGlobal), lab: &Lab, row: &str) {
    let (text, wanted) = parts(row, "^");
    expect_made(rt, text, told_of(rt.alloc(), lab, text), wanted);
}

fn expect_texts(rt: &(impl Abort + AllocGlobal), lab: &Lab) {
    for row in ROWS.lines() {
        expect_text(rt, lab, row);
    }
}

// Whether the empty message names what the program doesn't have.
fn is_empty_undefined(rt: &(impl Abort + AllocGlobal), lab: &Lab) -> bool {
    match LogMessage::parse(rt.alloc(), "") {
        Ok(message) => {
            let is_undefined = message.is_undefined(lab);
            drop(message);
            is_undefined
        }
        Err(_) => rt.panic("an empty message"),
    }
}

#[test]
fn log_messages_have_texts(rt: HostRuntime) {
    let Ok(lab) = Lab::new(rt.alloc()) else {
        rt.panic("there is no memory")
    };
    expect_texts(&rt, &lab);
    assert!(rt; !is_empty_undefined(&rt, &lab));
    drop(lab);
}
