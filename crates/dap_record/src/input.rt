//! Inputs that come to a recorded run.
ghost use Rattle.std.specs.Prelude.{◌≡◌, true, IfOk};
ghost use Rattle.dap_session.specs.States.{SessionState};
ghost use Rattle.dap_record.specs.Recordings.{Recording, with_input_now};
ghost use Rattle.dap_record.specs.Turns as turns;
ghost use Rattle.dap_record.specs.Represents.{RepresentsRecording, RepresentsRecordingIf};
ghost use Rattle.dap_record.specs.Noting.{IsAfterInput};
ghost use Rattle.dap_session.specs.Rewinds.{can_go_back};

use crate::recording::RunRecording;
use base_text::sequence::Bytes;
use dap_history::fault::LogFault;
use dap_history::input::Input;
use std::alloc::{AllocError, Global};

/// The line that tells what is forgotten.
pub(crate) fn forgotten_line(alloc: Global, count: u64) -> Result<Bytes, AllocError>
    ensures { IfOk result (λ line. line ≡ turns.forgotten_line count) }
{
    let line = format!(in alloc; "what came after step {count} is forgotten\n")?;
    Ok(Bytes::from(line.into_bytes()))
}

/// Records an input that came now; what lay ahead is forgotten. `None` if the log is full.
pub(crate) fn record(
    mut recording: RunRecording,
    input: Input,
) -> Result<Option<RunRecording>, AllocError>
    ensures { (r : Recording) (before s : SessionState) → RepresentsRecording recording r before
        → IsAfterInput input before s → can_go_back s ≡ true
        → IfOk result (λ after. RepresentsRecordingIf after (with_input_now input r) s) }
{
    let count = recording.count;
    recording.history.forget_after(count);
    match recording.history.record(count, input) {
        Ok(()) => {
            recording.told = count;
            Ok(Some(recording))
        }
        Err(LogFault::Full) => {
            drop(recording);
            Ok(None)
        }
        Err(LogFault::OutOfMemory) => {
            drop(recording);
            Err(AllocError)
        }
    }
}
