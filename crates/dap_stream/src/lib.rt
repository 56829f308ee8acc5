// The base protocol of the Debug Adapter Protocol over any byte stream: a header, an empty line, a body.
// `Decoder::feed` takes the next bytes, however the stream is cut, and returns the bodies that they complete:
// those that a grammar of whole messages gives for all bytes so far, and that grammar has one reading.
// A fault is found at the first byte with which no header can go on, after the bodies before it, and stays.
// A decoder keeps only the bytes of the message that has begun. What `put_message` writes is read back.
#![tactic(auto)]

pub mod bodies;
pub mod decoder;
pub mod fault;
mod header;
pub mod laws;
mod length;
mod line;
mod reading;
mod span;
pub mod writing;
