//! Texts and sequences that give back what they hold, and digits of base 16.
use base_text::hexadecimal::{digit_value, push_byte, push_lower_word, push_word, read_word};
use base_text::sequence::{Bytes, Sequence};
use base_text::text::Text;
use std::alloc::{AllocError, Global};

fn text_gives_back(alloc: Global, shown: &str) -> Result<bool, AllocError> {
    let text = Text::copy_of(alloc, shown)?.clone()?;
    let is_shown = text.as_str() == shown;
    Ok(is_shown && text.into_string().as_str() == shown)
}

fn bytes_give_back(alloc: Global, held: &[u8]) -> Result<bool, AllocError> {
    let bytes = Bytes::copy_of(alloc, held)?.clone()?;
    Ok(bytes.into_vec().as_slice() == held)
}

fn three_items(alloc: Global) -> Result<Sequence<u32>, AllocError> {
    let mut items = Sequence::new(alloc);
    for item in [1u32, 2, 3] {
        items.push(item)?;
    }
    Ok(items)
}

fn items_are_cut(alloc: Global) -> Result<bool, AllocError> {
    let mut items = three_items(alloc)?;
    items.truncate(5);
    let are_three = items.len() == 3;
    items.truncate(2);
    Ok(are_three && items.as_slice() == [1u32, 2].as_slice())
}

#[test]
fn texts_and_sequences_give_back_what_they_hold(rt: HostRuntime) {
    let alloc = rt.alloc();
    assert!(rt;
        matches!(text_gives_back(alloc, "h\u{e4}"), Ok(true)),
        "a text"
    );
    assert!(rt;
        matches!(bytes_give_back(alloc, b"\x00\xff"), Ok(true)),
        "bytes"
    );
    assert!(rt; matches!(items_are_cut(alloc), Ok(true)), "items");
}

const DIGITS: [(u8, Option<u8>); 12] = [
    (b'0', Some(0)),
    (b'9', Some(9)),
    (b'A', Some(10)),
    (b'F', Some(15)),
    (b'a', Some(10)),
    (b'f', Some(15)),
    (b'/', None),
    (b':', None),
    (b'@', None),
    (b'G', None),
    (b'`', None),
    (b'g', None),
];

const WORDS: [(&str, Option<u16>); 7] = [
    ("12aF", Some(0x12af)),
    ("0000", Some(0)),
    ("FFFF", Some(0xffff)),
    ("123", None),
    ("12345", None),
    ("12 4", None),
    ("", None),
];

#[test]
fn digits_are_read_in_either_case(rt: HostRuntime) {
    for (byte, value) in DIGITS {
        assert!(rt; digit_value(byte) == value, "{byte}");
    }
    for (text, word) in WORDS {
        assert!(rt; read_word(text.as_bytes()) == word, "{text}");
    }
}

// A word with upper-case and with lower-case digits, and a byte.
fn digits_of(alloc: Global, word: u16, byte: u8) -> Result<String, AllocError> {
    let mut text = String::from_str(alloc, "=")?;
    push_word(&mut text, word)?;
    text.push_str(",")?;
    push_lower_word(&mut text, word)?;
    text.push_str(",")?;
    push_byte(&mut text, byte)?;
    Ok(text)
}

fn is_written(alloc: Global, word: u16, byte: u8, wanted: &str) -> Result<bool, AllocError> {
    Ok(digits_of(alloc, word, byte)?.as_str() == wanted)
}

#[test]
fn words_and_bytes_are_written_with_all_digits(rt: HostRuntime) {
    for (word, byte, wanted) in [
        (0u16, 0u8, "=0000,0000,00"),
        (0x0a9f, 0x9f, "=0A9F,0a9f,9F"),
        (0xfedc, 0xdc, "=FEDC,fedc,DC"),
    ] {
        let is_written = is_written(rt.alloc(), word, byte, wanted);
        assert!(rt; matches!(is_written, Ok(true)), "{wanted}");
    }
}
