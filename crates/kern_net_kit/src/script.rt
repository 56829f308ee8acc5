//! What tests know of a kernel's guests.

use crate::bytes::{GREETING, PUB, ROUTER};
use jup_wire::channel::Channel;

/// A request: the number in its header, its type, and its content as JSON in which `'` stands for `"`.
#[derive(Clone, Copy)]
pub struct Ask(pub &'static str, pub &'static str, pub &'static str);

/// What a guest does.
pub trait Scripted {
    fn channel(&self) -> Channel;

    /// The requests that it sends, in their order.
    fn asks(&self) -> &'static [Ask];
}

/// The kernel's READY on a channel.
pub fn ready_on(channel: Channel) -> &'static [u8] {
    if channel == Channel::Iopub {
        return PUB;
    }
    ROUTER
}

/// Whether the bytes are the kernel's whole handshake on a channel.
pub fn is_handshake(bytes: &[u8], channel: Channel) -> bool {
    bytes.starts_with(GREETING) && bytes.get(GREETING.len()..) == Some(ready_on(channel))
}
