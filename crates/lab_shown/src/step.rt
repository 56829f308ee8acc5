//! How a debugger steps.

/// How far a Step goes. A place is as `Granularity` defines it.
#[derive(Clone, Copy)]
pub enum StepKind {
    /// To the next place.
    In,
    /// To the next place where no call made during the Step is live.
    Over,
    /// To the next place where the call that is now innermost has returned.
    Out,
}

/// Where a Step may end.
#[derive(Clone, Copy)]
pub enum Granularity {
    /// At the first byte of a statement.
    Line,
    /// At any instruction.
    Instruction,
}
