//! RFC 4231's vectors, and frames as Jupyter messaging 5.4 lays them out.
use crate::checks::expect_row;
use base_text::sequence::{Bytes, Frames};
use base_text::text::Text;
use jup_wire::message::{Message, WireFault};
use jup_wire::opening::open_message;
use jup_wire::sealing::{Draft, seal_message};
use jup_wire::signature::sign;
use serde_json::Value;
use std::alloc::{AllocError, Global};
use std::process::Abort;
use std::test::Fail;

const DIGITS: &str = "5bdcc146bf60754e6a042426089575c75a003f089d2739839dec58b964ec3843";

const UPPER: &str = "5BDCC146BF60754E6A042426089575C75A003F089D2739839DEC58B964EC3843";

const HEADER: &str = "{\"msg_id\":\"1\",\"msg_type\":\"execute_request\",\"session\":\"s\"}";

const CONTENT: &str = "{\"code\":\"HLT\"}";
// The signature under the key `secret` of HEADER, `{}`, `{}` and CONTENT, made by another program.
const SEAL: &str = "91fc5ecb5dfde4503eca82114b44497973bdcb8718b29ec0bdab8e2e0efa1223";

const STATUS: &str = "{\"date\":\"2000-02-29T00:00:00Z\",\"msg_id\":\"S_1\",\
\"msg_type\":\"status\",\"session\":\"S\",\"username\":\"kernel\",\"version\":\"5.4\"}";

const IDLE: &str = "{\"execution_state\":\"idle\"}";
// The signature under the key `secret` of STATUS, `{}`, `{}` and IDLE, made by another program.
const STATUS_SEAL: &str = "65eb76a94efee1c6b8e2e5f846376272ef9a69741f9d7df9e6d86e4aac7ab9cb";

/// Frames of these texts.
pub(crate) fn frames(alloc: Global, texts: &[&str]) -> Result<Frames, AllocError> {
    let mut all = Frames::new(alloc);
    for text in texts {
        all.push(Bytes::copy_of(alloc, text.as_bytes())?)?;
    }
    Ok(all)
}

// The fault of the frames, or None if they open. Out of memory fails the test.
fn fault_of(opened: &Result<Message, WireFault>) -> Result<Option<WireFault>, Fail> {
    match opened {
        Ok(_) => Ok(None),
        Err(WireFault::OutOfMemory) => Err(Fail::new("out of memory")),
        Err(fault) => Ok(Some(*fault)),
    }
}

fn opening_fault(alloc: Global, all: Frames, key: &str) -> Result<Option<WireFault>, Fail> {
    let opened = open_message(alloc, all, key.as_bytes());
    let fault = fault_of(&opened);
    drop(opened);
    fault
}

fn fault_in(alloc: Global, key: &str, texts: &[&str]) -> Result<Option<WireFault>, Fail> {
    let all = frames(alloc, texts)?;
    opening_fault(alloc, all, key)
}

fn only(alloc: Global, data: &[u8]) -> Result<Frames, AllocError> {
    let mut all = Frames::new(alloc);
    all.push(Bytes::copy_of(alloc, data)?)?;
    Ok(all)
}

fn signature(alloc: Global, key: &[u8], data: &[u8]) -> Result<Text, AllocError> {
    let all = only(alloc, data)?;
    let text = sign(alloc, key, all.as_slice());
    drop(all);
    text
}

fn has_signature(alloc: Global, key: &[u8], data: &[u8], digits: &str) -> Result<bool, AllocError> {
    let text = signature(alloc, key, data)?;
    Ok(text.as_str().len() == 64 && text.as_str().starts_with(digits))
}

// Keys, data, and the first digits of their signatures: the seven of RFC 4231, the fifth cut to 128 bits.
const VECTORS: [(&[u8], &[u8], &str); 7] = [
    (
        &[0x0b; 20],
        b"Hi There",
        "b0344c61d8db38535ca8afceaf0bf12b881dc200c9833da726e9376c2e32cff7",
    ),
    (b"Jefe", b"what do ya want for nothing?", DIGITS),
    (
        &[0xaa; 20],
        &[0xdd; 50],
        "773ea91e36800e46854db8ebd09181a72959098b3ef8c122d9635514ced565fe",
    ),
    (
        b"\x01\x02\x03\x04\x05\x06\x07\x08\x09\x0a\x0b\x0c\x0d\x0e\x0f\x10\x11\x12\x13\
          \x14\x15\x16\x17\x18\x19",
        &[0xcd; 50],
        "82558a389a443c0ea4cc819899f2083a85f0faa3e578f8077a2e3ff46729665b",
    ),
    (
        &[0x0c; 20],
        b"Test With Truncation",
        "a3b6167473100ee06e0c796c2955552b",
    ),
    (
        &[0xaa; 131],
        b"Test Using Larger Than Block-Size Key - Hash Key First",
        "60e431591ee0b67f0d8a26aacbf5b77f8e0bc6213728c5140546040f0ee37f54",
    ),
    (
        &[0xaa; 131],
        b"This is a test using a larger than block-size key and a larger than block-size data. \
The key needs to be hashed before being used by the HMAC algorithm.",
        "9b09ffa71b942fcb27635fbcd5b0e944bfdc63644f0713938a7f51535c3a35e2",
    ),
];

#[test]
fn signs_the_vectors_of_rfc_4231(rt: HostRuntime) -> Result<(), AllocError> {
    for (key, data, digits) in &VECTORS {
        assert!(rt; has_signature(rt.alloc(), key, data, digits)?, "{digits}");
    }
    Ok(())
}

fn fault_under(alloc: Global, seal: &str) -> Result<Option<WireFault>, Fail> {
    let texts = [
        "<IDS|MSG>",
        seal,
        "what do ya ",
        "want ",
        "for ",
        "nothing?",
    ];
    fault_in(alloc, "Jefe", texts.as_slice())
}

// The signature with another digit at one place.
fn alter_digit(alloc: Global, place: usize) -> Result<String, AllocError> {
    let mut seal = String::new(alloc);
    for (at, digit) in DIGITS.chars().enumerate() {
        let other = if digit == '4' { '3' } else { '4' };
        seal.push(if at == place { other } else { digit })?;
    }
    Ok(seal)
}

fn fault_of_altered(alloc: Global, place: usize) -> Result<Option<WireFault>, Fail> {
    let seal = alter_digit(alloc, place)?;
    fault_under(alloc, seal.as_str())
}

#[test]
fn each_digit_of_a_signature_counts(rt: HostRuntime) -> Result<(), Fail> {
    for place in 0..64usize {
        let found = fault_of_altered(rt.alloc(), place)?;
        assert!(rt; found == Some(WireFault::Signature), "digit {place}");
    }
    Ok(())
}

// Frames under the key `secret`, and their fault.
const MESSAGES: [(&[&str], Option<WireFault>); 7] = [
    (&[], Some(WireFault::Delimiter)),
    (&["a", "<ids|msg>"], Some(WireFault::Delimiter)),
    (&["<IDS|MSG>", SEAL, "{", "{", "{"], Some(WireFault::Count)),
    (
        &["<IDS|MSG>", "", "{", "{", "{", "{"],
        Some(WireFault::Signature),
    ),
    (
        &["<IDS|MSG>", "<IDS|MSG>", SEAL, HEADER, "{}", "{}", CONTENT],
        Some(WireFault::Signature),
    ),
    (
        &["<IDS|MSG>", SEAL, "{}", HEADER, "{}", CONTENT],
        Some(WireFault::Signature),
    ),
    (&["<IDS|MSG>", SEAL, HEADER, "{}", "{}", CONTENT], None),
];

#[test]
fn refuses_in_order(rt: HostRuntime) -> Result<(), Fail> {
    for (place, (texts, fault)) in MESSAGES.iter().enumerate() {
        assert!(rt;
            fault_in(rt.alloc(), "secret", texts)? == *fault,
            "row {place}"
        );
    }
    Ok(())
}

// Signatures for RFC 4231's second vector in four frames, wrong ones and its own, and the faults.
const SEALS: [(&str, WireFault); 4] = [
    (UPPER, WireFault::Signature),
    ("5bdcc146", WireFault::Signature),
    ("", WireFault::Signature),
    (DIGITS, WireFault::Json),
];

#[test]
fn a_signature_is_64_lower_case_digits(rt: HostRuntime) -> Result<(), Fail> {
    for (seal, fault) in &SEALS {
        assert!(rt; fault_under(rt.alloc(), seal)? == Some(*fault), "{seal}");
    }
    Ok(())
}

fn fault_unsigned(alloc: Global, header: &str, content: &str) -> Result<Option<WireFault>, Fail> {
    let texts = ["<IDS|MSG>", "", header, "{}", "{}", content];
    fault_in(alloc, "", texts.as_slice())
}

// Headers and contents of messages with no signature, and their fault. If a key comes twice, the last value
// counts.
const UNSIGNED: [(&str, &str, Option<WireFault>); 12] = [
    (HEADER, "1e400", Some(WireFault::Json)),
    (HEADER, "\"\\ud800\"", Some(WireFault::Json)),
    (HEADER, "\u{feff}{}", Some(WireFault::Json)),
    (HEADER, "", Some(WireFault::Json)),
    (HEADER, "{} {}", Some(WireFault::Json)),
    ("[]", "{", Some(WireFault::Json)),
    (HEADER, " 1.5 ", None),
    ("[]", "{}", Some(WireFault::Header)),
    (
        "{\"msg_id\":\"1\",\"msg_type\":\"t\"}",
        "{}",
        Some(WireFault::Header),
    ),
    (
        "{\"msg_id\":\"1\",\"msg_type\":\"t\",\"session\":1}",
        "{}",
        Some(WireFault::Header),
    ),
    (
        "{\"msg_id\":\"1\",\"msg_type\":\"t\",\"session\":\"s\",\"session\":1}",
        "{}",
        Some(WireFault::Header),
    ),
    (
        "{\"msg_id\":\"1\",\"msg_type\":\"t\",\"session\":1,\"session\":\"s\"}",
        "{}",
        None,
    ),
];

#[test]
fn reads_headers_and_contents(rt: HostRuntime) -> Result<(), Fail> {
    for (place, (header, content, fault)) in UNSIGNED.iter().enumerate() {
        let found = fault_unsigned(rt.alloc(), header, content)?;
        expect_row(&rt, found == *fault, place);
    }
    Ok(())
}

// A header whose msg_id has this many bytes.
fn header_with_id_of(alloc: Global, length: usize) -> Result<String, AllocError> {
    let mut text = String::from_str(alloc, "{\"msg_id\":\"")?;
    for _ in 0..length {
        text.push('x')?;
    }
    text.push_str("\",\"msg_type\":\"t\",\"session\":\"s\"}")?;
    Ok(text)
}

fn nested_lists(alloc: Global, depth: usize) -> Result<String, AllocError> {
    let mut text = String::new(alloc);
    for _ in 0..depth {
        text.push('[')?;
    }
    for _ in 0..depth {
        text.push(']')?;
    }
    Ok(text)
}

// The length of a msg_id, the depth of a content, and the fault.
const SIZES: [(usize, usize, Option<WireFault>); 5] = [
    (300, 1, None),
    (70_000, 1, None),
    (1, 127, None),
    (1, 128, Some(WireFault::Json)),
    (1, 100_000, Some(WireFault::Json)),
];

fn fault_of_size(alloc: Global, length: usize, depth: usize) -> Result<Option<WireFault>, Fail> {
    let header = header_with_id_of(alloc, length)?;
    let content = nested_lists(alloc, depth)?;
    fault_unsigned(alloc, header.as_str(), content.as_str())
}

#[test]
fn opens_long_texts_and_127_levels(rt: HostRuntime) -> Result<(), Fail> {
    for (length, depth, fault) in &SIZES {
        let found = fault_of_size(rt.alloc(), *length, *depth)?;
        assert!(rt; found == *fault, "{length} bytes, {depth} levels");
    }
    Ok(())
}

fn are_frames(all: &[Bytes], texts: &[&str]) -> bool {
    for (place, frame) in all.iter().enumerate() {
        match texts.get(place) {
            Some(text) if frame.as_slice() == text.as_bytes() => {}
            _ => return false,
        }
    }
    all.len() == texts.len()
}

fn code_of(content: &Value) -> Option<&str> {
    content.get("code")?.as_str()
}

fn expect_message(rt: &impl Abort, message: &Message) {
    let (parts, header) = (&message.parts, &message.header);
    let frames = [
        (parts.header.as_slice(), HEADER),
        (parts.parent_header.as_slice(), "{}"),
        (parts.content.as_slice(), CONTENT),
        (header.msg_id.as_str().as_bytes(), "1"),
        (header.msg_type.as_str().as_bytes(), "execute_request"),
        (header.session.as_str().as_bytes(), "s"),
    ];
    for (found, text) in frames {
        assert!(rt; found == text.as_bytes(), "{text}");
    }
    assert!(rt; code_of(&message.content) == Some("HLT"));
}

#[test]
fn a_message_keeps_its_frames(rt: HostRuntime) -> Result<(), Fail> {
    let texts = [
        "a",
        "b",
        "<IDS|MSG>",
        SEAL,
        HEADER,
        "{}",
        "{}",
        CONTENT,
        "<IDS|MSG>",
        "buffer",
    ];
    let all = frames(rt.alloc(), texts.as_slice())?;
    let message = open_message(rt.alloc(), all, b"secret")?;
    expect_message(&rt, &message);
    assert!(rt; are_frames(message.parts.identities.as_slice(), &["a", "b"]));
    drop(message);
    Ok(())
}

fn value(rt: &impl Abort, alloc: Global, text: &str) -> Value {
    Value::from_str(alloc, text).expect(rt, "a value")
}

fn draft(rt: &impl Abort, alloc: Global, identity: &str) -> Draft {
    let header = "{\"version\": \"5.4\", \"username\": \"kernel\", \"session\": \"S\", \
\"msg_type\": \"status\", \"msg_id\": \"S_1\", \"date\": \"2000-02-29T00:00:00Z\"}";
    Draft {
        identities: only(alloc, identity.as_bytes()).expect(rt, "memory"),
        header: value(rt, alloc, header),
        parent_header: Bytes::copy_of(alloc, b"{}").expect(rt, "memory"),
        metadata: value(rt, alloc, "{}"),
        content: value(rt, alloc, "{\"execution_state\": \"idle\"}"),
    }
}

fn seal_draft(rt: &impl Abort, alloc: Global, identity: &str, key: &str) -> Frames {
    let draft = draft(rt, alloc, identity);
    let frames = seal_message(alloc, draft, key.as_bytes());
    frames.expect(rt, "memory")
}

fn expect_sealed(rt: &(impl Abort + AllocGlobal), key: &str, signature: &str) -> Result<(), Fail> {
    let sealed = seal_draft(rt, rt.alloc(), "status", key);
    let texts = ["status", "<IDS|MSG>", signature, STATUS, "{}", "{}", IDLE];
    assert!(rt; are_frames(sealed.as_slice(), &texts), "{key}");
    let found = opening_fault(rt.alloc(), sealed, key)?;
    assert!(rt; found == None, "{key}");
    Ok(())
}

#[test]
fn seals_what_opens_again(rt: HostRuntime) -> Result<(), Fail> {
    expect_sealed(&rt, "", "")?;
    expect_sealed(&rt, "secret", STATUS_SEAL)?;
    let sealed = seal_draft(&rt, rt.alloc(), "<IDS|MSG>", "secret");
    let found = opening_fault(rt.alloc(), sealed, "secret")?;
    assert!(rt; found == Some(WireFault::Signature));
    Ok(())
}
