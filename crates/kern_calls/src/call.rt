//! Calls on a kernel, and their replies.

use base_text::boxed::Boxed;
use base_text::sequence::Bytes;
use jup_wire::channel::Channel;
use kern_post::post::Posts;
use kern_request::request::Request;

/// A subscription to the posts whose topic begins with a prefix, or its cancellation.
#[derive(Drop)]
pub struct Subscription {
    /// False if the subscription is cancelled.
    pub wants: bool,
    pub prefix: Bytes,
    /// When it came, in seconds since 1970.
    pub unix_seconds: u64,
}

/// A request, and when it came.
#[derive(Drop)]
pub struct Arrival {
    pub request: Request,
    /// In seconds since 1970.
    pub unix_seconds: u64,
}

/// A call, as it stands in the journal. Moments are in seconds since 1970.
///
/// A running cell makes tens of thousands of slices a second, so a call is 16 bytes long: what is longer is
/// behind a pointer.
#[derive(Drop)]
pub enum Call {
    /// A connection joins a channel. Its identity may be empty.
    Join {
        channel: Channel,
        identity: Boxed<Bytes>,
    },
    /// A connection leaves.
    Leave {
        connection: u32,
    },
    /// An iopub connection subscribes, or cancels a subscription.
    Subscribe {
        connection: u32,
        subscription: Boxed<Subscription>,
    },
    /// A request arrives on a connection.
    Arrive {
        connection: u32,
        arrival: Boxed<Arrival>,
    },
    /// The kernel makes the next slice of the run, starts it, or loads the next cell.
    Slice {
        unix_seconds: u64,
    },
    /// A connection fetches its posts among the 64 numbers from this one on.
    Fetch {
        connection: u32,
        from: u64,
    },
}

/// The reply to a call.
#[derive(Drop)]
pub enum Reply {
    /// The connection's number, and the number of the next post.
    Joined {
        connection: u32,
        from: u64,
    },
    Left,
    Subscribed,
    Arrived,
    /// A slice did something, and there may be more to do.
    More,
    /// A slice had nothing to do, or the run waits for an interrupt.
    Idle,
    /// The kernel was shut down, and a slice did nothing.
    Ended,
    /// The posts that were fetched, the number from which to fetch next, and whether the kernel was shut
    /// down.
    Fetched {
        posts: Posts,
        next: u64,
        ended: bool,
    },
}
