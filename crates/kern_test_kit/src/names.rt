//! The names of replies and faults.

use kern_core::call::Reply;
use kern_core::fault::KernelFault;

/// The name of a reply.
pub fn reply_name(reply: &Reply) -> &'static str {
    match reply {
        Reply::Joined { .. } => "Joined",
        Reply::Left => "Left",
        Reply::Subscribed => "Subscribed",
        Reply::Arrived => "Arrived",
        Reply::More => "More",
        Reply::Idle => "Idle",
        Reply::Ended => "Ended",
        Reply::Fetched { .. } => "Fetched",
    }
}

/// The name of a fault.
pub fn fault_name(fault: KernelFault) -> &'static str {
    match fault {
        KernelFault::OutOfMemory => "OutOfMemory",
        KernelFault::Full => "Full",
        KernelFault::Lagged { .. } => "Lagged",
        KernelFault::JournalFull => "JournalFull",
        KernelFault::NoConnection => "NoConnection",
    }
}
