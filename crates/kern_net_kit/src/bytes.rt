//! What clients write, by the rules of RFC 23, RFC 37, Jupyter messaging 5.4 and the Debug Adapter Protocol,
//! and what the kernel writes in its handshake. Each frame is a byte of flags, with 1 if more frames follow,
//! its size and its bytes. No request is signed.

/// The greeting and the READY of a client of shell or control.
pub const DEALER: &[u8] = b"\xFF\0\0\0\0\0\0\0\x01\x7F\x03\0NULL\
    \0\0\0\0\0\0\0\0\0\0\0\0\0\0\0\0\0\0\0\0\0\0\0\0\0\0\0\0\0\0\0\0\0\0\0\0\0\0\0\0\0\0\0\0\0\0\0\0\
    \x04\x1C\x05READY\x0BSocket-Type\0\0\0\x06DEALER";

/// Those of a client of iopub.
pub const SUB: &[u8] = b"\xFF\0\0\0\0\0\0\0\x01\x7F\x03\0NULL\
    \0\0\0\0\0\0\0\0\0\0\0\0\0\0\0\0\0\0\0\0\0\0\0\0\0\0\0\0\0\0\0\0\0\0\0\0\0\0\0\0\0\0\0\0\0\0\0\0\
    \x04\x19\x05READY\x0BSocket-Type\0\0\0\x03SUB";

/// Bytes that aren't a greeting.
pub const STRANGE: &[u8] =
    b"GET / HTTP/1.0\r\n\r\nGET / HTTP/1.0\r\n\r\nGET / HTTP/1.0\r\n\r\nGET / HTTP/1.0\r\n\r\n";

/// A subscription to all topics.
pub const HEARS: &[u8] = b"\0\x01\x01";

/// A kernel_info_request, of 99 bytes, and an execute_request.
pub const RUNS: &[u8] = b"\x01\x04anna\x01\x09<IDS|MSG>\x01\0\
    \x01\x42{\"msg_id\":\"m-1\",\"msg_type\":\"kernel_info_request\",\"session\":\"anna\"}\
    \x01\x02{}\x01\x02{}\0\x02{}\
    \x01\x04anna\x01\x09<IDS|MSG>\x01\0\
    \x01\x3E{\"msg_id\":\"m-2\",\"msg_type\":\"execute_request\",\"session\":\"anna\"}\
    \x01\x02{}\x01\x02{}\0\x1C{\"code\":\"MVI A,7\\nHLT\\nEND\"}";

/// A comm_info_request.
pub const ASKS: &[u8] = b"\x01\x04anna\x01\x09<IDS|MSG>\x01\0\
    \x01\x40{\"msg_id\":\"m-1\",\"msg_type\":\"comm_info_request\",\"session\":\"anna\"}\
    \x01\x02{}\x01\x02{}\0\x02{}";

/// A shutdown_request.
pub const SHUTS: &[u8] = b"\x01\x04anna\x01\x09<IDS|MSG>\x01\0\
    \x01\x3F{\"msg_id\":\"m-1\",\"msg_type\":\"shutdown_request\",\"session\":\"anna\"}\
    \x01\x02{}\x01\x02{}\0\x11{\"restart\":false}";

/// A debug_request that attaches a debugger.
pub const ATTACHES: &[u8] = b"\x01\x04anna\x01\x09<IDS|MSG>\x01\0\
    \x01\x3C{\"msg_id\":\"m-1\",\"msg_type\":\"debug_request\",\"session\":\"anna\"}\
    \x01\x02{}\x01\x02{}\0\x2D{\"type\":\"request\",\"seq\":1,\"command\":\"attach\"}";

/// One that pauses the program.
pub const PAUSES: &[u8] = b"\x01\x04anna\x01\x09<IDS|MSG>\x01\0\
    \x01\x3C{\"msg_id\":\"m-2\",\"msg_type\":\"debug_request\",\"session\":\"anna\"}\
    \x01\x02{}\x01\x02{}\0\x2C{\"type\":\"request\",\"seq\":2,\"command\":\"pause\"}";

/// An execute_request of a program that never ends.
pub const LOOPS: &[u8] = b"\x01\x04anna\x01\x09<IDS|MSG>\x01\0\
    \x01\x3E{\"msg_id\":\"m-1\",\"msg_type\":\"execute_request\",\"session\":\"anna\"}\
    \x01\x02{}\x01\x02{}\0\x1A{\"code\":\"X: JMP X\\nEND X\"}";

/// A kernel_info_request and a comm_info_request.
pub const ASKS_BOTH: &[u8] = b"\x01\x04anna\x01\x09<IDS|MSG>\x01\0\
    \x01\x42{\"msg_id\":\"m-1\",\"msg_type\":\"kernel_info_request\",\"session\":\"anna\"}\
    \x01\x02{}\x01\x02{}\0\x02{}\
    \x01\x04anna\x01\x09<IDS|MSG>\x01\0\
    \x01\x40{\"msg_id\":\"m-1\",\"msg_type\":\"comm_info_request\",\"session\":\"anna\"}\
    \x01\x02{}\x01\x02{}\0\x02{}";

/// Three requests.
pub const ASKS_A: &[u8] = b"\x01\x04anna\x01\x09<IDS|MSG>\x01\0\
    \x01\x42{\"msg_id\":\"a-1\",\"msg_type\":\"kernel_info_request\",\"session\":\"anna\"}\
    \x01\x02{}\x01\x02{}\0\x02{}\
    \x01\x04anna\x01\x09<IDS|MSG>\x01\0\
    \x01\x40{\"msg_id\":\"a-2\",\"msg_type\":\"comm_info_request\",\"session\":\"anna\"}\
    \x01\x02{}\x01\x02{}\0\x02{}\
    \x01\x04anna\x01\x09<IDS|MSG>\x01\0\
    \x01\x42{\"msg_id\":\"a-3\",\"msg_type\":\"kernel_info_request\",\"session\":\"anna\"}\
    \x01\x02{}\x01\x02{}\0\x02{}";

/// Three others.
pub const ASKS_B: &[u8] = b"\x01\x04anna\x01\x09<IDS|MSG>\x01\0\
    \x01\x42{\"msg_id\":\"b-1\",\"msg_type\":\"kernel_info_request\",\"session\":\"anna\"}\
    \x01\x02{}\x01\x02{}\0\x02{}\
    \x01\x04anna\x01\x09<IDS|MSG>\x01\0\
    \x01\x40{\"msg_id\":\"b-2\",\"msg_type\":\"comm_info_request\",\"session\":\"anna\"}\
    \x01\x02{}\x01\x02{}\0\x02{}\
    \x01\x04anna\x01\x09<IDS|MSG>\x01\0\
    \x01\x42{\"msg_id\":\"b-3\",\"msg_type\":\"kernel_info_request\",\"session\":\"anna\"}\
    \x01\x02{}\x01\x02{}\0\x02{}";

/// Three more.
pub const ASKS_C: &[u8] = b"\x01\x04anna\x01\x09<IDS|MSG>\x01\0\
    \x01\x42{\"msg_id\":\"c-1\",\"msg_type\":\"kernel_info_request\",\"session\":\"anna\"}\
    \x01\x02{}\x01\x02{}\0\x02{}\
    \x01\x04anna\x01\x09<IDS|MSG>\x01\0\
    \x01\x40{\"msg_id\":\"c-2\",\"msg_type\":\"comm_info_request\",\"session\":\"anna\"}\
    \x01\x02{}\x01\x02{}\0\x02{}\
    \x01\x04anna\x01\x09<IDS|MSG>\x01\0\
    \x01\x42{\"msg_id\":\"c-3\",\"msg_type\":\"kernel_info_request\",\"session\":\"anna\"}\
    \x01\x02{}\x01\x02{}\0\x02{}";

/// And three more.
pub const ASKS_D: &[u8] = b"\x01\x04anna\x01\x09<IDS|MSG>\x01\0\
    \x01\x42{\"msg_id\":\"d-1\",\"msg_type\":\"kernel_info_request\",\"session\":\"anna\"}\
    \x01\x02{}\x01\x02{}\0\x02{}\
    \x01\x04anna\x01\x09<IDS|MSG>\x01\0\
    \x01\x40{\"msg_id\":\"d-2\",\"msg_type\":\"comm_info_request\",\"session\":\"anna\"}\
    \x01\x02{}\x01\x02{}\0\x02{}\
    \x01\x04anna\x01\x09<IDS|MSG>\x01\0\
    \x01\x42{\"msg_id\":\"d-3\",\"msg_type\":\"kernel_info_request\",\"session\":\"anna\"}\
    \x01\x02{}\x01\x02{}\0\x02{}";

/// The kernel's greeting.
pub const GREETING: &[u8] = b"\xFF\0\0\0\0\0\0\0\0\x7F\x03\0NULL\
    \0\0\0\0\0\0\0\0\0\0\0\0\0\0\0\0\0\0\0\0\0\0\0\0\0\0\0\0\0\0\0\0\0\0\0\0\0\0\0\0\0\0\0\0\0\0\0\0";

/// Its READY on shell and on control.
pub const ROUTER: &[u8] = b"\x04\x1C\x05READY\x0BSocket-Type\0\0\0\x06ROUTER";

/// Its READY on iopub.
pub const PUB: &[u8] = b"\x04\x19\x05READY\x0BSocket-Type\0\0\0\x03PUB";

/// The part of a status on iopub that says that a request is done.
pub const IDLE: &[u8] = b"\"execution_state\":\"idle\"";

/// A part of the answer to the pause.
pub const PAUSED: &[u8] = b"\"command\":\"pause\",\"request_seq\":2";

/// A part of each answer to a debug_request that refuses it.
pub const REFUSED: &[u8] = b"\"success\":false";

/// The end of each request's header, which the answer repeats.
pub const SESSION: &[u8] = b"\"session\":\"anna\"}";

/// How often a text occurs in bytes.
pub fn count_of(bytes: &[u8], text: &[u8]) -> u32 {
    let mut count = 0u32;
    for place in 0..bytes.len() {
        if bytes[place..].starts_with(text) {
            count = count.saturating_add(1);
        }
    }
    count
}

/// The bytes after a text, where it first occurs.
pub fn after<'a>(bytes: &'a [u8], text: &[u8]) -> Option<&'a [u8]> {
    for place in 0..bytes.len() {
        let rest = &bytes[place..];
        if rest.starts_with(text) {
            return rest.get(text.len()..);
        }
    }
    None
}
