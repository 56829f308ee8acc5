// What a kernel sends: contents with their types, letters, and posts, which are numbered letters.
// `Content::topic` is the type of a content; a copy of a post, a letter or an envelope equals the original.
// `Store` numbers letters from 1 in their order and keeps the last 4,096. Posting allocates nothing.
// `Store::fetch` returns exactly the kept posts to a connection among 64 numbers, in their order.
// `Letters` holds at most eight letters, and allocates room for all of them at once.
#![tactic(auto)]

pub mod content;
pub mod letters;
pub mod post;
pub mod store;
