// Requests to a kernel: reads a message (Jupyter messaging 5.4) as a typed request.
// What `body_of` returns depends on the message's channel, type and content alone, unless memory runs out.
// A type that the channel doesn't have becomes Unknown, and a content with a required member missing or
// wrong BadContent. A debug request that can't be carried out becomes the response that refuses it.
// `request_of` adds what the reply repeats: the identities and the header, moved out of the message.
#![tactic(auto)]

mod content;
pub mod message_type;
pub mod reading;
pub mod request;
