//! The outcomes of calls, as plain data.

use kern_core::call::Reply;
use kern_core::fault::KernelFault;
use kern_post::content::{Cause, Content, Ending};
use kern_post::post::{Post, Posts};

// Of how many fetched posts an outcome has the numbers.
const NUMBERED: usize = 6;

/// The outcome of a call.
#[derive(Clone, Copy, PartialEq, Eq)]
pub enum Outcome {
    /// The connection's number, and the number of the next post.
    Joined(u32, u64),
    Left,
    Subscribed,
    Arrived,
    More,
    Idle,
    Ended,
    /// How many posts were fetched; the numbers of the first six, followed by zeros if there are fewer; how
    /// many say that a cell was interrupted; from which number to fetch next; and whether the kernel was
    /// shut down.
    Fetched(usize, [u64; NUMBERED], usize, u64, bool),
    Refused(KernelFault),
}

/// The outcome of a call with this answer.
pub fn outcome_of(answer: &Result<Reply, KernelFault>) -> Outcome {
    match answer {
        Ok(reply) => outcome_of_reply(reply),
        Err(fault) => Outcome::Refused(*fault),
    }
}

fn outcome_of_reply(reply: &Reply) -> Outcome {
    match reply {
        Reply::Joined { connection, from } => Outcome::Joined(*connection, *from),
        Reply::Left => Outcome::Left,
        Reply::Subscribed => Outcome::Subscribed,
        Reply::Arrived => Outcome::Arrived,
        Reply::More => Outcome::More,
        Reply::Idle => Outcome::Idle,
        Reply::Ended => Outcome::Ended,
        Reply::Fetched { posts, next, ended } => batch_of(posts, *next, *ended),
    }
}

fn batch_of(posts: &Posts, next: u64, ended: bool) -> Outcome {
    let posts = posts.as_slice();
    Outcome::Fetched(
        posts.len(),
        numbers_of(posts),
        interrupts_of(posts),
        next,
        ended,
    )
}

fn number_at(posts: &[Post], place: usize) -> u64 {
    match posts.get(place) {
        Some(post) => post.number,
        None => 0,
    }
}

fn numbers_of(posts: &[Post]) -> [u64; NUMBERED] {
    [
        number_at(posts, 0),
        number_at(posts, 1),
        number_at(posts, 2),
        number_at(posts, 3),
        number_at(posts, 4),
        number_at(posts, 5),
    ]
}

fn interrupts_of(posts: &[Post]) -> usize {
    let mut interrupted = 0usize;
    for post in posts {
        if tells_interrupt(post) {
            interrupted = interrupted.saturating_add(1);
        }
    }
    interrupted
}

fn tells_interrupt(post: &Post) -> bool {
    match &post.letter.content {
        Content::Error(cause) => is_interrupt(*cause),
        Content::ExecuteReply { ending, .. } => match ending {
            Ending::Failed(cause) => is_interrupt(*cause),
            Ending::Done => false,
        },
        _ => false,
    }
}

fn is_interrupt(cause: Cause) -> bool {
    matches!(cause, Cause::Interrupted)
}
