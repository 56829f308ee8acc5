//! The channels of a kernel.

/// A channel between frontends and the kernel (Jupyter messaging, "Introduction"). The heartbeat is no such
/// channel, since it carries no messages.
#[derive(Clone, Copy, PartialEq, Eq)]
pub enum Channel {
    /// Requests to run and inspect code, and their replies.
    Shell,
    /// Requests that don't wait for those on shell.
    Control,
    /// Requests of a program for input, and the user's replies.
    Stdin,
    /// What the kernel publishes to all subscribers.
    Iopub,
}
