//! Classes of characters.
ghost use Rattle.std.specs.Prelude.{◌≡◌};
ghost use Rattle.asm_lex.specs.Characters.{is_blank, is_word_part, is_printed};

pub fn is_blank(b: u8) -> bool
    ensures { result ≡ is_blank b }
{
    b == b' ' || b == b'\t'
}

pub fn is_word_part(b: u8) -> bool
    ensures { result ≡ is_word_part b }
{
    b.is_ascii_alphanumeric() || b == b'?' || b == b'@'
}

pub fn is_printed(b: u8) -> bool
    ensures { result ≡ is_printed b }
{
    b' ' <= b && b <= b'~'
}
