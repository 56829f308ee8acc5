//! The event Poke: changes of a stopped run's machine by hand.
ghost use Rattle.std.specs.Prelude.{◌≡◌, Err, OnErr};
ghost use Rattle.lab_core.specs.Labs.{AppliesTo};
ghost use Rattle.lab_core.specs.Memory.{MayLackMemory};

use crate::answer::Answer;
use crate::event::Event;
use crate::fault::EventFault;
use crate::lab::Lab;
use crate::run_state::RunState;
use lab_views::change::put;
use lab_views::place::place_of;
use lab_views::value::{text_of, value_of};

impl Lab {
    pub(super) fn poke(
        &mut self,
        reference: u32,
        name: &str,
        value: &str,
    ) -> Result<Answer, EventFault>
        ensures applied { AppliesTo self.old (Event.Poke reference name.now value.now) result self.new }
        ensures err { OnErr result (self.new ≡ self.old) }
        ensures memory { result ≡ Err EventFault.OutOfMemory
            → MayLackMemory (Event.Poke reference name.now value.now) self.old }
    {
        match self.run_state {
            RunState::NoRun | RunState::Running => Err(EventFault::NotStopped),
            RunState::Stopped => self.change(reference, name, value),
        }
    }

    fn change(&mut self, reference: u32, name: &str, value: &str) -> Result<Answer, EventFault>
        requires { self.old.run ≡ RunState.Stopped }
        ensures applied { AppliesTo self.old (Event.Poke reference name.now value.now) result self.new }
        ensures err { OnErr result (self.new ≡ self.old) }
        ensures memory { result ≡ Err EventFault.OutOfMemory
            → MayLackMemory (Event.Poke reference name.now value.now) self.old }
    {
        let place = place_of(reference, name)?;
        let number = value_of(place, value)?;
        // Allocated before the machine changes.
        let text = text_of(self.alloc, place, number)?;
        put(&mut self.machine, place, number);
        Ok(Answer::Poked(text))
    }
}
