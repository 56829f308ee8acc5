//! Events of a board, with the bodies of responses to them.
ghost use Rattle.std.specs.Prelude.{◌≡◌};
ghost use Rattle.lab_core.specs.Events.{Fits};
ghost use Rattle.dap_board.specs.Bodies.{body_of};
ghost use Rattle.dap_board.specs.Commands.{event_result, event_with_body, reply_with, Performs};

use crate::body::body_of;
use dap_answers::answer::Body;
use lab_core::answer::Answer;
use lab_core::event::Event;
use lab_core::fault::EventFault;
use lab_core::lab::Lab;

// What is made of an answer is made apart from the board, each part of which would be a case of it.
fn body_in(answer: Result<Answer, EventFault>) -> Result<Body, EventFault>
    ensures { result ≡ reply_with body_of answer }
{
    match answer {
        Ok(answer) => Ok(body_of(answer)),
        Err(fault) => Err(fault),
    }
}

fn body_if(answer: Result<Answer, EventFault>, body: Body) -> Result<Body, EventFault>
    ensures { result ≡ reply_with (λ _. body) answer }
{
    match answer {
        Ok(_) => Ok(body),
        Err(fault) => {
            drop(body);
            Err(fault)
        }
    }
}

/// Applies an event, and returns the body that carries its answer.
pub fn answer_to(lab: &mut Lab, event: Event) -> Result<Body, EventFault>
    requires { Fits event }
    ensures { Performs (event_result event) lab.old result lab.new }
{
    let answer = lab.apply(&event);
    drop(event);
    body_in(answer)
}

/// Applies an event, and returns this body.
pub fn apply_for(lab: &mut Lab, event: Event, body: Body) -> Result<Body, EventFault>
    requires { Fits event }
    ensures { Performs (event_with_body event body) lab.old result lab.new }
{
    let answer = lab.apply(&event);
    drop(event);
    body_if(answer, body)
}
