//! The recording of a run.
ghost use Rattle.std.specs.Prelude.{◌≡◌, ◌≤◌, min};
ghost use Rattle.dap_history.specs.Logs.{later_than};
ghost use Rattle.dap_record.specs.Slices.{steps_to, steps_to_input};

use dap_history::history::History;
use dap_history::input::Recorded;
use std::marker::Model;

/// The history of a run, the number of steps that it has made now, and the greatest number of steps whose
/// output was told.
pub struct RunRecording {
    pub history: History,
    pub count: u64,
    pub told: u64,
}

// Written out so that every place that drops it calls one function.
impl Drop for RunRecording {
    fn drop(self) {
        let Self {
            history: _,
            count: _,
            told: _,
        } = self;
    }
}

impl Model for RunRecording {
    ghost use Rattle.dap_record.specs.Fields.{RecordingFields};

    ghost Value = { RecordingFields };

    ghost view = { λ r. record { history = r.history; count = r.count; told = r.told } };
}

// The steps to a count that lies ahead.
fn steps_to(now: u64, goal: u64) -> u64
    ensures { result ≡ steps_to now goal }
{
    if now < goal { goal - now } else { 4096 }
}

fn steps_to_input(now: u64, inputs: &[Recorded]) -> u64
    ensures { result ≡ steps_to_input now inputs.now }
{
    match inputs.first() {
        None => 4096,
        Some(next) => steps_to(now, next.count),
    }
}

impl RunRecording {
    ghost use Rattle.std.specs.Prelude.{nat_lt};

    /// Whether the run makes steps that it made before.
    pub fn is_behind(&self) -> bool
        ensures { result ≡ nat_lt self.now.count self.now.told }
    {
        self.count < self.told
    }

    /// The most steps of the next slice: up to the next input that lies ahead, or to the first step that is
    /// new.
    pub fn slice_limit(&self) -> u16
        ensures limit { result ≡ min 4096 (min (steps_to self.now.count self.now.told)
            (steps_to_input self.now.count (later_than self.now.count self.now.history.log))) }
        ensures some { 1 ≤ result }
        ensures few { result ≤ 4096 }
    {
        let to_new = steps_to(self.count, self.told);
        let to_input = steps_to_input(self.count, self.history.later_than(self.count));
        to_new.min(to_input).min(4096) as u16
    }
}
