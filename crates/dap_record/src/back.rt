//! Requests that go back.
ghost use Rattle.std.specs.Prelude.{◌≡◌, codes};
ghost use Rattle.dap_record.specs.Backward as backward;
ghost use Rattle.dap_record.specs.Backward.{number_from, positive, back_by, back_line, is_digit};
ghost use Rattle.dap_prompt.specs.Prompt.{behind};

use dap_requests::request::{EditorCommand, EvaluateContext, RequestContent};
use lab_shown::step::Granularity;

/// How a run is to go back.
#[derive(Clone, Copy)]
pub enum Back {
    /// By an instruction, or to the statement before.
    Step(Granularity),
    /// To the last breakpoint before, or to the start.
    Continue,
    /// By so many steps.
    Steps(u64),
    Start,
    /// A line of the prompt that says neither a number nor `start`.
    Unclear,
}

fn is_digit(byte: u8) -> bool
    ensures { result ≡ is_digit byte }
{
    byte >= b'0' && byte <= b'9'
}

// Reads decimal digits after others that write `number`. A number above 2^64 - 1 counts as that.
fn number_from(number: u64, text: &[u8]) -> Option<u64>
    ensures { result ≡ number_from number text.now }
{
    let Some((byte, rest)) = text.split_first() else {
        return Some(number);
    };
    if !is_digit(*byte) {
        return None;
    }
    let digit = u64::from(*byte - b'0');
    number_from(number.saturating_mul(10).saturating_add(digit), rest)
}

fn positive(number: Option<u64>) -> Back
    ensures { result ≡ positive number }
{
    match number {
        None | Some(0) => Back::Unclear,
        Some(n) => Back::Steps(n),
    }
}

fn back_by(text: &str) -> Back
    ensures { result ≡ back_by text.now }
{
    if text.is_empty() {
        return Back::Unclear;
    }
    if text == "start" {
        return Back::Start;
    }
    positive(number_from(0, text.as_bytes()))
}

fn back_line(line: &str) -> Option<Back>
    ensures { result ≡ back_line line.now (behind (codes "back ") line.now) }
{
    match line.strip_prefix("back ") {
        Some(rest) => Some(back_by(rest)),
        None if line == "back" => Some(Back::Steps(1)),
        None => None,
    }
}

/// How the run is to go back, if a request asks for that.
pub fn back_of(asked: &RequestContent) -> Option<Back>
    ensures { result ≡ backward.back_of asked.now }
{
    match asked {
        RequestContent::Editor(EditorCommand::StepBack(by)) => Some(Back::Step(*by)),
        RequestContent::Editor(EditorCommand::ReverseContinue) => Some(Back::Continue),
        RequestContent::Editor(
            EditorCommand::Evaluate {
                expression,
                context: EvaluateContext::Repl,
                format: _,
            },
        ) => back_line(expression.as_str()),
        _ => None,
    }
}
