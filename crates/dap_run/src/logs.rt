//! The messages that breakpoints tell in place of stops.
ghost use Rattle.std.specs.Prelude.{◌≡◌, ◌≤◌, ◌++◌, length, IfOk, vec_capacity};
ghost use Rattle.dap_run.specs.Slices.{log_event};
ghost use Rattle.dap_run.specs.Kits.{HasRoomBehind, AreLogs};

use crate::messages::MOST_MESSAGES;
use base_text::sequence::Sequence;
use dap_messages::message::{EditorEvent, Message, SourcePlace};
use dap_slice::logs::LogLine;
use std::alloc::{AllocError, Global};

fn log_event(line: LogLine) -> EditorEvent
    ensures { result ≡ log_event line }
{
    let LogLine { text, path, line } = line;
    EditorEvent::Log {
        text,
        place: SourcePlace {
            path,
            line,
            column: 1,
        },
    }
}

/// The messages of these lines. If there are any, there is room for eight messages more.
pub(crate) fn log_messages(
    alloc: Global,
    lines: Sequence<LogLine>,
) -> Result<Vec<Message>, AllocError>
    ensures { IfOk result (λ logs. AreLogs lines logs.items (vec_capacity logs)) }
{
    let mut messages = Vec::new(alloc);
    for line in lines.into_vec() {
        messages.push(Message::Event(log_event(line)))?;
    }
    if !messages.is_empty() {
        messages.reserve(MOST_MESSAGES)?;
    }
    Ok(messages)
}

/// The messages with at most eight more behind them, without allocating.
pub(crate) fn with_more(mut messages: Vec<Message>, more: Sequence<Message>) -> Sequence<Message>
    requires room { HasRoomBehind messages.items (vec_capacity messages) }
    requires few { length more ≤ 8 }
    ensures { result ≡ messages.items ++ more }
{
    if messages.is_empty() {
        drop(messages);
        return more;
    }
    for message in more.into_vec() {
        messages.push_reserved(message);
    }
    Sequence::from(messages)
}
