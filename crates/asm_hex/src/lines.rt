//! The lines of a text.
ghost use Rattle.std.specs.Prelude.{◌≡◌, ◌≢◌, ◌<◌, ◌∷◌, [], length, reverse};
ghost use Rattle.asm_hex.specs.Contents.{is_blank, without_blanks, trim, lines_of};
ghost use Rattle.asm_hex.specs.Lines.{line_length};

fn is_blank(byte: u8) -> bool
    ensures { result ≡ is_blank byte }
{
    matches!(byte, b' ' | b'\t' | b'\r')
}

fn trim_start(line: &[u8]) -> &[u8]
    ensures { result.now ≡ without_blanks line.now }
{
    let mut rest = line;
    while let Some((first, others)) = rest.split_first() {
        if !is_blank(*first) {
            return rest;
        }
        rest = others;
    }
    rest
}

fn trim_end(line: &[u8]) -> &[u8]
    ensures { result.now ≡ reverse (without_blanks (reverse line.now)) }
{
    let mut rest = line;
    while let Some((last, others)) = rest.split_last() {
        if !is_blank(*last) {
            return rest;
        }
        rest = others;
    }
    rest
}

/// A line without the blanks at both ends.
#[tactic(auto, unfolding(crate::specs::Contents::trim))]
pub(crate) fn trim(line: &[u8]) -> &[u8]
    ensures { result.now ≡ trim line.now }
{
    trim_end(trim_start(line))
}

/// The number of bytes before the first line feed, or of all.
fn line_length(text: &[u8]) -> usize
    ensures { result ≡ line_length text.now }
{
    let mut length = 0;
    for byte in text {
        if *byte == b'\n' {
            return length;
        }
        length += 1;
    }
    length
}

/// The first line of a text that isn't empty, and the text behind it.
pub(crate) fn cut_line(text: &[u8]) -> (&[u8], &[u8])
    requires { text.now ≢ [] }
    ensures lines { lines_of text.now ≡ result.0.now ∷ lines_of result.1.now }
    ensures less { length result.1.now < length text.now }
{
    let (line, rest) = text.split_at(line_length(text));
    match rest.split_first() {
        Some((_, behind)) => (line, behind),
        None => (line, rest),
    }
}
