//! The replies of a session.

use crate::fault::SessionFault;
use crate::members::{has_number, has_text, has_truth, is_number, items};
use kern_core::call::Reply;
use kern_core::fault::KernelFault;
use kern_post::post::{Post, Posts};
use kern_test_kit::names::{fault_name, reply_name};
use serde_json::Value;

/// Compares an answer with the expected reply.
pub fn compare_reply(
    expected: &Value,
    answer: &Result<Reply, KernelFault>,
) -> Result<(), SessionFault> {
    let is_same = match answer {
        Ok(reply) => is_reply(expected, reply),
        Err(KernelFault::OutOfMemory) => return Err(SessionFault::OutOfMemory),
        Err(fault) => is_refusal(expected, *fault),
    };
    if is_same {
        return Ok(());
    }
    Err(SessionFault::Reply)
}

fn is_reply(expected: &Value, reply: &Reply) -> bool {
    if expected.get("refused").is_some() || !has_text(expected, "kind", reply_name(reply)) {
        return false;
    }
    match reply {
        Reply::Joined { connection, from } => is_joined(expected, *connection, *from),
        Reply::Fetched { posts, next, ended } => is_fetched(expected, posts, *next, *ended),
        _ => true,
    }
}

fn is_joined(expected: &Value, connection: u32, from: u64) -> bool {
    has_number(expected, "connection", u64::from(connection)) && has_number(expected, "from", from)
}

fn is_fetched(expected: &Value, posts: &Posts, next: u64, ended: bool) -> bool {
    has_number(expected, "next", next)
        && has_truth(expected, "ended", ended)
        && are_numbers(expected, posts.as_slice())
}

// Whether the expected numbers are those of the posts, in their order.
fn are_numbers(expected: &Value, posts: &[Post]) -> bool {
    let Some(numbers) = items(expected, "posts") else {
        return false;
    };
    if numbers.len() != posts.len() {
        return false;
    }
    for (number, post) in numbers.iter().zip(posts) {
        if !is_number(number, post.number) {
            return false;
        }
    }
    true
}

fn is_refusal(expected: &Value, fault: KernelFault) -> bool {
    match fault {
        KernelFault::Lagged { first } => is_lagged(expected, first),
        _ => has_text(expected, "refused", fault_name(fault)),
    }
}

fn is_lagged(expected: &Value, first: u64) -> bool {
    has_text(expected, "refused", "Lagged") && has_number(expected, "first", first)
}
