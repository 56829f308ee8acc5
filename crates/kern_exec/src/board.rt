//! The board's events.
ghost use Rattle.std.specs.Prelude.{◌≡◌, OnErr, Err};
ghost use Rattle.lab_core.specs.Events.{Fits, result_of};
ghost use Rattle.lab_core.specs.Memory.{MayLackMemory};
ghost use Rattle.lab_core.specs.Labs.{CarriesOut};

use lab_core::answer::Answer;
use lab_core::event::Event;
use lab_core::fault::EventFault;
use lab_core::lab::Lab;

// Applies an event and drops it.
pub(crate) fn apply_event(lab: &mut Lab, event: Event) -> Result<Answer, EventFault>
    requires { Fits event }
    ensures given { CarriesOut (result_of event) lab.old result lab.new }
    ensures err { OnErr result (lab.new ≡ lab.old) }
    ensures memory { result ≡ Err EventFault.OutOfMemory → MayLackMemory event lab.old }
{
    let answer = lab.apply(&event);
    drop(event);
    answer
}
