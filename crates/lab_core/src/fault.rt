//! The errors of events.

use asm_syntax::fault::AsmFault;
use i80_devs::devices::PressFault;
use lab_image::sources::SourceFault;
use lab_views::fault::ViewFault;
use lab_views::poke_fault::PokeFault;
use std::alloc::AllocError;
use std::fmt;
use thiserror::Error;

/// Why an event was refused. The board is unchanged.
#[derive(Clone, Copy, Error)]
pub enum EventFault {
    OutOfMemory,
    NotRunning,
    NotStopped,
    Busy,
    /// The path already has a different text.
    SourceNameTaken,
    /// No text has this path.
    NoSource,
    Latched,
    BadFrame,
    BadReference,
    /// The cell doesn't assemble.
    Assembly(AsmFault),
    NotAttached,
    Vector,
    /// 1,024 texts are stored already, and none has this path.
    SourcesFull,
    /// The scope has no entry of this name.
    UnknownName,
    /// The text isn't a number, or the number doesn't fit.
    BadValue,
}

impl fmt::Display for EventFault {
    fn fmt<W: fmt::Write>(&self, f: &mut fmt::Formatter<W>) -> fmt::Result {
        let text = match self {
            EventFault::OutOfMemory => "out of memory",
            EventFault::NotRunning => "no program runs",
            EventFault::NotStopped => "no program is stopped",
            EventFault::Busy => "a program runs",
            EventFault::SourceNameTaken => "the path has another text",
            EventFault::NoSource => "no text has this path",
            EventFault::Latched => "a request is latched already",
            EventFault::BadFrame => "there is no such frame",
            EventFault::BadReference => "no scope for this has the reference",
            EventFault::Assembly(fault) => return fmt::Display::fmt(fault, f),
            EventFault::NotAttached => "no debugger is attached",
            EventFault::Vector => "there are the buttons 0 to 7",
            EventFault::SourcesFull => "there are 1,024 sources",
            EventFault::UnknownName => "there is no such register or address",
            EventFault::BadValue => "the value is no number that fits there",
        };
        f.write_str(text)
    }
}

impl fmt::Debug for EventFault {
    fn fmt<W: fmt::Write>(&self, f: &mut fmt::Formatter<W>) -> fmt::Result {
        fmt::Display::fmt(self, f)
    }
}

impl From<AllocError> for EventFault {
    ghost use Rattle.std.specs.Prelude.{◌≡◌};
    ghost use Rattle.lab_core.specs.declared.fault.EventFault.TheVariants.{OutOfMemory};

    ghost from_gives = { λ _ refused. refused ≡ OutOfMemory };

    fn from(_: AllocError) -> EventFault {
        EventFault::OutOfMemory
    }
}

impl From<AsmFault> for EventFault {
    ghost use Rattle.std.specs.Prelude.{◌≡◌};
    ghost use Rattle.lab_core.specs.Refusals.{refused_for};

    ghost from_gives = { λ fault refused. refused ≡ refused_for fault };

    fn from(fault: AsmFault) -> EventFault {
        match fault {
            AsmFault::OutOfMemory => EventFault::OutOfMemory,
            AsmFault::At { .. } => EventFault::Assembly(fault),
        }
    }
}

impl From<PressFault> for EventFault {
    ghost use Rattle.std.specs.Prelude.{◌≡◌};
    ghost use Rattle.lab_core.specs.Refusals.{refused_press};

    ghost from_gives = { λ press refused. refused ≡ refused_press press };

    fn from(press: PressFault) -> EventFault {
        match press {
            PressFault::Latched => EventFault::Latched,
            PressFault::Vector => EventFault::Vector,
        }
    }
}

impl From<SourceFault> for EventFault {
    ghost use Rattle.std.specs.Prelude.{◌≡◌};
    ghost use Rattle.lab_core.specs.Refusals.{refused_source};

    ghost from_gives = { λ fault refused. refused ≡ refused_source fault };

    fn from(fault: SourceFault) -> EventFault {
        match fault {
            SourceFault::NameTaken => EventFault::SourceNameTaken,
            SourceFault::Full => EventFault::SourcesFull,
        }
    }
}

impl From<ViewFault> for EventFault {
    ghost use Rattle.std.specs.Prelude.{◌≡◌};
    ghost use Rattle.lab_core.specs.Refusals.{refused_view};

    ghost from_gives = { λ fault refused. refused ≡ refused_view fault };

    fn from(fault: ViewFault) -> EventFault {
        match fault {
            ViewFault::OutOfMemory => EventFault::OutOfMemory,
            ViewFault::NotStopped => EventFault::NotStopped,
            ViewFault::BadFrame => EventFault::BadFrame,
            ViewFault::BadReference => EventFault::BadReference,
            ViewFault::NoSource => EventFault::NoSource,
        }
    }
}

impl From<PokeFault> for EventFault {
    ghost use Rattle.std.specs.Prelude.{◌≡◌};
    ghost use Rattle.lab_core.specs.Refusals.{refused_poke};

    ghost from_gives = { λ fault refused. refused ≡ refused_poke fault };

    fn from(fault: PokeFault) -> EventFault {
        match fault {
            PokeFault::BadReference => EventFault::BadReference,
            PokeFault::UnknownName => EventFault::UnknownName,
            PokeFault::BadValue => EventFault::BadValue,
        }
    }
}
