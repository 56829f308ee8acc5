//! Why a turn wasn't taken.
use thiserror::Error;

/// Why a turn wasn't taken.
#[derive(Clone, Copy, PartialEq, Eq, Debug, Error)]
pub enum TurnFault {
    #[error("all tickets of the turnstile are drawn")]
    OutOfTickets,
}
