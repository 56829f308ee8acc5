//! Numbers (8080/8085 Assembly Language Programming Manual, chapter 2).
ghost use Rattle.std.specs.Prelude.{◌≡◌, ◌<◌, ◌≤◌, length, IfSome};
ghost use Rattle.std.specs.Char.{digit_value};
ghost use Rattle.asm_lex.specs.Numbers.{number_of, in_base};

// The value of a digit of base 36, in either case, and 36 for anything else.
fn digit(b: u8) -> u32
    ensures { result ≡ digit_value b }
{
    match b {
        b'0'..=b'9' => u32::from(b - b'0'),
        b'A'..=b'Z' => u32::from(b - b'A') + 10,
        b'a'..=b'z' => u32::from(b - b'a') + 10,
        _ => 36,
    }
}

// The number of these digits, if it is below 65,536 and each is a digit of the base.
fn in_base(base: u32, digits: &[u8]) -> Option<u16>
    requires low { 2 ≤ base }
    requires high { base ≤ 16 }
    ensures { result ≡ in_base base digits.now }
{
    let mut n: u32 = 0;
    for d in digits {
        let v = digit(*d);
        if v >= base {
            return None;
        }
        n = n * base + v;
        if n > 0xffff {
            return None;
        }
    }
    Some(n as u16)
}

/// The number that letters and digits spell, if they do.
pub fn number_of(digits: &[u8]) -> Option<u16>
    requires { 0 < length digits.now }
    ensures { result ≡ number_of digits.now }
{
    let (front, last) = digits.split_at(digits.len() - 1);
    match last[0].to_ascii_uppercase() {
        b'H' => in_base(16, front),
        b'D' => in_base(10, front),
        b'O' | b'Q' => in_base(8, front),
        b'B' => in_base(2, front),
        _ => in_base(10, digits),
    }
}
