//! The state of the run.

/// Whether there is a run. A run lasts from Start until the program ends or is interrupted.
#[derive(Clone, Copy)]
pub enum RunState {
    NoRun,
    Running,
    /// Stopped at a breakpoint, after a Step or by a Pause, until a Resume, Step or Detach.
    Stopped,
}
