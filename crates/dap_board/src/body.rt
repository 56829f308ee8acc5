//! The answers of a board as bodies of responses.
ghost use Rattle.std.specs.Prelude.{◌≡◌};
ghost use Rattle.dap_board.specs.Bodies.{shown_body, body_of};

use dap_answers::answer::{Body, DebugState};
use lab_core::answer::Answer;
use lab_shown::shown::Shown;

fn shown_body(shown: Shown) -> Body
    ensures { result ≡ shown_body shown }
{
    match shown {
        Shown::Frames { frames, total } => Body::StackTrace { frames, total },
        Shown::Scopes => Body::Scopes,
        Shown::Variables(variables) => Body::Variables(variables),
        Shown::Code(lines) => Body::Instructions(lines),
        Shown::Source(text) => Body::Content(text),
        Shown::Info {
            is_attached,
            is_stopped,
            breakpoints,
        } => Body::DebugState(DebugState {
            is_attached,
            is_stopped,
            breakpoints,
        }),
    }
}

/// The body that carries an answer; an empty one if the answer only says that the event was done.
pub fn body_of(answer: Answer) -> Body
    ensures { result ≡ body_of answer }
{
    match answer {
        Answer::Breakpoints(breakpoints) => Body::Breakpoints(breakpoints),
        Answer::Shown(shown) => shown_body(shown),
        Answer::Poked(text) => Body::Value(text),
        _ => Body::Empty,
    }
}
