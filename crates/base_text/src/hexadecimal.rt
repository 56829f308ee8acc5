//! Digits of base 16. They are read in either case.
ghost use Rattle.std.specs.Prelude.{◌≡◌, ◌<◌, ◌++◌, IfSome, OnOk, string_bytes};
ghost use Rattle.base_text.specs.Hexadecimal.{digit_value, word_spelled, upper_byte, upper_word};
ghost use Rattle.base_text.specs.Hexadecimal.{lower_byte, lower_word};

use std::alloc::AllocError;

/// The value of a digit, in either case.
pub fn digit_value(byte: u8) -> Option<u8>
    ensures small { IfSome result (λ value. value < 16) }
    ensures value { result ≡ digit_value byte }
{
    match byte {
        b'0'..=b'9' => Some(byte - b'0'),
        b'A'..=b'F' => Some(byte - b'A' + 10),
        b'a'..=b'f' => Some(byte - b'a' + 10),
        _ => None,
    }
}

/// The word that exactly four digits spell, the most significant first.
pub fn read_word(digits: &[u8]) -> Option<u16>
    ensures { result ≡ word_spelled digits.now }
{
    let [first, second, third, fourth] = digits else {
        return None;
    };
    let first = u16::from(digit_value(*first)?);
    let second = u16::from(digit_value(*second)?);
    let third = u16::from(digit_value(*third)?);
    let fourth = u16::from(digit_value(*fourth)?);
    let number = first * 16 + second;
    let number = number * 16 + third;
    Some(number * 16 + fourth)
}

/// Appends a byte as two upper-case digits.
pub fn push_byte(text: &mut String, byte: u8) -> Result<(), AllocError>
    ensures { OnOk result (string_bytes text.new ≡ string_bytes text.old ++ upper_byte byte) }
{
    write!(text, "{byte:02X}")?;
    Ok(())
}

/// Appends a word as four upper-case digits.
pub fn push_word(text: &mut String, word: u16) -> Result<(), AllocError>
    ensures { OnOk result (string_bytes text.new ≡ string_bytes text.old ++ upper_word word) }
{
    let [high, low] = word.to_be_bytes();
    push_byte(text, high)?;
    push_byte(text, low)?;
    Ok(())
}

fn push_lower_byte(text: &mut String, byte: u8) -> Result<(), AllocError>
    ensures { OnOk result (string_bytes text.new ≡ string_bytes text.old ++ lower_byte byte) }
{
    write!(text, "{byte:02x}")?;
    Ok(())
}

/// Appends a word as four lower-case digits.
pub fn push_lower_word(text: &mut String, word: u16) -> Result<(), AllocError>
    ensures { OnOk result (string_bytes text.new ≡ string_bytes text.old ++ lower_word word) }
{
    let [high, low] = word.to_be_bytes();
    push_lower_byte(text, high)?;
    push_lower_byte(text, low)?;
    Ok(())
}
