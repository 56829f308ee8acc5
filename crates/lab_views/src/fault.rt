//! Why a view is refused.

use std::alloc::AllocError;
use std::fmt;
use thiserror::Error;

/// Why a view is refused.
#[derive(Clone, Copy, Error)]
pub enum ViewFault {
    OutOfMemory,
    NotStopped,
    BadFrame,
    BadReference,
    NoSource,
}

impl fmt::Display for ViewFault {
    fn fmt<W: fmt::Write>(&self, f: &mut fmt::Formatter<W>) -> fmt::Result {
        let text = match self {
            ViewFault::OutOfMemory => "out of memory",
            ViewFault::NotStopped => "the program isn't stopped",
            ViewFault::BadFrame => "there is no such frame",
            ViewFault::BadReference => "there are the references 1 to 5",
            ViewFault::NoSource => "no text has the path",
        };
        f.write_str(text)
    }
}

impl fmt::Debug for ViewFault {
    fn fmt<W: fmt::Write>(&self, f: &mut fmt::Formatter<W>) -> fmt::Result {
        fmt::Display::fmt(self, f)
    }
}

impl From<AllocError> for ViewFault {
    ghost use Rattle.std.specs.Prelude.{◌≡◌};
    ghost use Rattle.lab_views.specs.declared.fault.ViewFault.TheVariants.{OutOfMemory};

    ghost from_gives = { λ _ refused. refused ≡ OutOfMemory };

    fn from(_: AllocError) -> ViewFault {
        ViewFault::OutOfMemory
    }
}
