//! What an editor asked for so far.

use dap_points::points::WantedBreakpoints;
use dap_requests::request::{ExceptionFilters, SupportedEvents};
use dap_run::program::Program;
use dap_slice::conditions::ConditionalBreakpoints;

/// Of an editor that understands no event beside those that each must.
pub const NO_EVENTS: SupportedEvents = SupportedEvents {
    invalidated: false,
    memory: false,
};

/// What an editor asked for so far, whether its run waits, and whether the program asked for a line.
pub struct SessionSettings {
    pub is_initialized: bool,
    pub is_configured: bool,
    pub supported: SupportedEvents,
    pub program: Option<Program>,
    pub points: WantedBreakpoints,
    /// Those at which the program's run stops.
    pub conditional: ConditionalBreakpoints,
    /// The ends at which a run is to be held.
    pub filters: ExceptionFilters,
    /// The last slice ended where the run waits for a button, and no request has come since.
    pub waits: bool,
    /// The program asked for a line, and none was typed since.
    pub has_asked: bool,
    /// A `disconnect` was answered.
    pub has_ended: bool,
}

// One function for all places where settings are dropped.
impl Drop for SessionSettings {
    fn drop(self) {
        let Self {
            is_initialized: _,
            is_configured: _,
            supported: _,
            program: _,
            points: _,
            conditional: _,
            filters: _,
            waits: _,
            has_asked: _,
            has_ended: _,
        } = self;
    }
}
