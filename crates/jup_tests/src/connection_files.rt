//! Connection files as Jupyter messaging 5.4 describes them, each member in turn missing or wrong.
use crate::checks::expect_row;
use jup_wire::connection_file::{ConnectionFile, FileFault};
use std::alloc::Global;
use std::net::Ipv4Addr;
use std::process::Abort;
use std::test::Fail;

const MEMBERS: [(&str, &str); 9] = [
    ("ip", "\"127.0.0.1\""),
    ("transport", "\"tcp\""),
    ("key", "\"secret\""),
    ("signature_scheme", "\"hmac-sha256\""),
    ("shell_port", "41001"),
    ("iopub_port", "41002"),
    ("stdin_port", "41003"),
    ("control_port", "41004"),
    ("hb_port", "41005"),
];

// A member after others; none if the value is empty.
fn push_member(text: &mut String, name: &str, value: &str) -> Result<(), Fail> {
    if value.is_empty() {
        return Ok(());
    }
    write!(text, ",\"{name}\":{value}")?;
    Ok(())
}

// A connection file in which the member of this name has this value, or is missing if the value is empty.
fn file_with(alloc: Global, name: &str, value: &str) -> Result<String, Fail> {
    let mut text = String::from_str(alloc, "{\"kernel_name\":[1,2.5]")?;
    for (member, usual) in &MEMBERS {
        let given = if *member == name { value } else { usual };
        push_member(&mut text, member, given)?;
    }
    text.push_str("}")?;
    Ok(text)
}

fn fault_of(read: &Result<ConnectionFile, FileFault>) -> Option<FileFault> {
    match read {
        Ok(_) => None,
        Err(fault) => Some(*fault),
    }
}

fn reading_fault(alloc: Global, bytes: &[u8]) -> Option<FileFault> {
    let read = ConnectionFile::read(alloc, bytes);
    let fault = fault_of(&read);
    drop(read);
    fault
}

fn fault_with(alloc: Global, name: &str, value: &str) -> Result<Option<FileFault>, Fail> {
    let text = file_with(alloc, name, value)?;
    Ok(reading_fault(alloc, text.as_bytes()))
}

fn ports(file: &ConnectionFile) -> [u16; 5] {
    [
        file.shell_port,
        file.iopub_port,
        file.stdin_port,
        file.control_port,
        file.hb_port,
    ]
}

#[test]
fn a_file_gives_its_values(rt: HostRuntime) -> Result<(), Fail> {
    let text = file_with(rt.alloc(), "", "")?;
    let file = ConnectionFile::read(rt.alloc(), text.as_bytes()).expect(&rt, "a file");
    let (ip, ports) = (file.ip, ports(&file));
    let is_secret = file.key.as_str() == "secret";
    drop(file);
    assert!(rt; ip == Ipv4Addr::new(127, 0, 0, 1) && is_secret);
    assert!(rt; ports == [41001, 41002, 41003, 41004, 41005]);
    Ok(())
}

// The text of a member's value, and the fault of the file.
type Value = (&'static str, Option<FileFault>);

// No member may be missing or have one of these values.
const NO_VALUES: [Value; 7] = [
    ("", Some(FileFault::Field)),
    ("null", Some(FileFault::Field)),
    ("true", Some(FileFault::Field)),
    ("[]", Some(FileFault::Field)),
    ("{}", Some(FileFault::Field)),
    ("-1", Some(FileFault::Field)),
    ("1.5", Some(FileFault::Field)),
];

const PORTS: [Value; 8] = [
    ("1", None),
    ("65535", None),
    ("0", Some(FileFault::Field)),
    ("65536", Some(FileFault::Field)),
    ("1.0", Some(FileFault::Field)),
    ("1e0", Some(FileFault::Field)),
    ("-0", Some(FileFault::Field)),
    ("18446744073709551616", Some(FileFault::Field)),
];

const ADDRESSES: [Value; 12] = [
    ("\"0.0.0.0\"", None),
    ("\"255.255.255.255\"", None),
    ("\"10.0.0.7\"", None),
    ("\"127.0.0.01\"", Some(FileFault::Field)),
    ("\"127.0.0\"", Some(FileFault::Field)),
    ("\"127.0.0.1.1\"", Some(FileFault::Field)),
    ("\"256.0.0.1\"", Some(FileFault::Field)),
    ("\" 127.0.0.1\"", Some(FileFault::Field)),
    ("\"localhost\"", Some(FileFault::Field)),
    ("\"::1\"", Some(FileFault::Field)),
    ("\"*\"", Some(FileFault::Field)),
    ("2130706433", Some(FileFault::Field)),
];

const PORT_NAMES: &[&str] = &[
    "shell_port",
    "iopub_port",
    "stdin_port",
    "control_port",
    "hb_port",
];

const NAMES: [&str; 9] = [
    "ip",
    "transport",
    "key",
    "signature_scheme",
    "shell_port",
    "iopub_port",
    "stdin_port",
    "control_port",
    "hb_port",
];

const NO_TEXT: [Value; 1] = [("\"x\"", Some(FileFault::Field))];

// Any text may be the key, the empty one too.
const KEYS: [Value; 2] = [("\"x\"", None), ("\"\"", None)];

const SCHEMES: [Value; 2] = [
    ("\"\"", Some(FileFault::Field)),
    ("\"hmac-sha512\"", Some(FileFault::Field)),
];

const TRANSPORTS: [Value; 2] = [
    ("\"ipc\"", Some(FileFault::Field)),
    ("\"TCP\"", Some(FileFault::Field)),
];

// Members, and values for each of them in turn.
const MEMBER_VALUES: [(&[&str], &[Value]); 8] = [
    (&NAMES, &NO_VALUES),
    (&["ip", "transport", "signature_scheme"], &NO_TEXT),
    (PORT_NAMES, &NO_TEXT),
    (PORT_NAMES, &PORTS),
    (&["ip"], &ADDRESSES),
    (&["key"], &KEYS),
    (&["signature_scheme"], &SCHEMES),
    (&["transport"], &TRANSPORTS),
];

fn expect_values(
    rt: &(impl Abort + AllocGlobal),
    name: &str,
    values: &[Value],
) -> Result<(), Fail> {
    for (value, fault) in values {
        let found = fault_with(rt.alloc(), name, value)?;
        assert!(rt; found == *fault, "{name} {value}");
    }
    Ok(())
}

// Ports are whole numbers from 1 to 65535, addresses four decimals, and keys may be empty.
#[test]
fn members_are_checked(rt: HostRuntime) -> Result<(), Fail> {
    for (names, values) in &MEMBER_VALUES {
        for name in *names {
            expect_values(&rt, name, values)?;
        }
    }
    Ok(())
}

// Bytes that are no JSON, and JSON that is no connection file.
const BYTES: [(&[u8], FileFault); 13] = [
    (b"", FileFault::Json),
    (b"[", FileFault::Json),
    (b"{", FileFault::Json),
    (b"{\"ip\":}", FileFault::Json),
    (b"\xef\xbb\xbf{}", FileFault::Json),
    (b"{} {}", FileFault::Json),
    (b"nil", FileFault::Json),
    (b"{\"ip\":\"\xff\"}", FileFault::Json),
    (b"{}", FileFault::Field),
    (b"[]", FileFault::Field),
    (b"7", FileFault::Field),
    (b"null", FileFault::Field),
    (b"\"ip\"", FileFault::Field),
];

#[test]
fn bytes_that_are_no_json(rt: HostRuntime) {
    for (place, (bytes, fault)) in BYTES.iter().enumerate() {
        let found = reading_fault(rt.alloc(), bytes);
        expect_row(&rt, found == Some(*fault), place);
    }
}
