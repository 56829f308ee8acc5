// Jupyter messages on the wire, their dates, and the connection file (Jupyter messaging 5.4). `open_message`
// returns a message exactly if the frames are one under the key. It checks, in this order, the delimiter, the
// number of frames, the signature (HMAC-SHA256, RFC 2104, compared in constant time), the JSON and the
// header. A message from `seal_message` opens under the same key. `date_text` is a moment's civil date and
// time in UTC. `ConnectionFile::read` returns the values of a connection file, or why the bytes are none.
#![tactic(auto)]

pub mod channel;
pub mod connection_file;
pub mod date;
pub mod header;
pub mod laws;
pub mod message;
pub mod opening;
pub mod sealing;
pub mod signature;
