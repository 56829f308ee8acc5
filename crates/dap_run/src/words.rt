//! The word at a fault in a program's text.
ghost use Rattle.std.specs.Prelude.{◌≡◌, ◌<◌, ◌-◌, [], ◌∷◌, ◌++◌, IsTrue, IfOk, OnOk, string_bytes};
ghost use Rattle.std.specs.Prelude.{drop, map, slice_get, unwrap_or};
ghost use Rattle.std.specs.List.{take_while};
ghost use Rattle.std.specs.Str.Lines.{lines};
ghost use Rattle.asm_lex.specs.Characters.{is_word_part};
ghost use Rattle.dap_run.specs.Words.{word_in, sign_in, word_or_sign, has_mark, told_at};

use asm_syntax::fault::FaultKind;
use base_text::text::Text;
use std::alloc::{AllocError, Global};

/// The most characters of a word that are told.
const MOST: usize = 32;

/// The bytes with which some editors begin a text (RFC 3629, section 6).
const MARK: [u8; 3] = [0xEF, 0xBB, 0xBF];

fn is_word_part(b: u8) -> bool
    ensures value { result ≡ is_word_part b }
    ensures ascii { IsTrue result → b < 128 }
{
    b.is_ascii_alphanumeric() || b == b'?' || b == b'@'
}

fn lines_of<'a>(alloc: Global, text: &'a str) -> Result<Vec<&'a str>, AllocError>
    ensures { IfOk result (λ v. map (λ line. line.now) v.items ≡ lines text.now) }
{
    text.lines().collect(alloc)
}

// The line with this number, from 1; an empty one if there is none.
fn line_in<'a>(lines: &[&'a str], number: usize) -> &'a str
    ensures { result.now ≡ unwrap_or (slice_get (map (λ line. line.now) lines.now) (number - 1)) [] }
{
    match lines.get(number.saturating_sub(1)) {
        Some(line) => line,
        None => "",
    }
}

// What is there from a column on, which is counted from 1.
fn rest_from(line: &str, column: usize) -> &[u8]
    ensures { result.now ≡ drop (column - 1) line.now }
{
    let bytes = line.as_bytes();
    bytes.split_at(column.saturating_sub(1).min(bytes.len())).1
}

fn push_ascii(word: &mut String, b: u8) -> Result<(), AllocError>
    requires { b < 128 }
    ensures { OnOk result (string_bytes word.new ≡ string_bytes word.old ++ b ∷ []) }
{
    word.push(char::from(b))
}

// Appends what these bytes begin with that can be part of a word.
#[tactic(auto, using(crate::proofs::WordLemmas::ends))]
fn push_word(word: &mut String, bytes: &[u8]) -> Result<(), AllocError>
    ensures { OnOk result
        (string_bytes word.new ≡ string_bytes word.old ++ take_while is_word_part bytes.now) }
{
    let mut left = bytes;
    while let Some((b, later)) = left.split_first() {
        if !is_word_part(*b) {
            return Ok(());
        }
        push_ascii(word, *b)?;
        left = later;
    }
    Ok(())
}

// The word at the front of these bytes, which may be empty.
#[tactic(auto, using(std::proofs::lemmas::List::take_min))]
fn word_in(alloc: Global, rest: &[u8]) -> Result<Text, AllocError>
    ensures { IfOk result (λ word. word ≡ word_in rest.now) }
{
    let mut word = String::new(alloc);
    push_word(&mut word, rest.split_at(MOST.min(rest.len())).0)?;
    Ok(Text::from(word))
}

fn sign_in(alloc: Global, rest: &[u8]) -> Result<Text, AllocError>
    ensures { IfOk result (λ sign. sign ≡ sign_in rest.now) }
{
    let mut sign = String::new(alloc);
    match rest.first() {
        Some(b) if b.is_ascii_graphic() => push_ascii(&mut sign, *b)?,
        _ => {}
    }
    Ok(Text::from(sign))
}

#[tactic(auto, using(crate::proofs::WordLemmas::told_word))]
fn word_at(alloc: Global, rest: &[u8]) -> Result<Text, AllocError>
    ensures { IfOk result (λ word. word ≡ word_or_sign (word_in rest.now) rest.now) }
{
    let word = word_in(alloc, rest)?;
    if word.as_str().is_empty() {
        return sign_in(alloc, rest);
    }
    Ok(word)
}

fn has_mark(text: &str) -> bool
    ensures { result ≡ has_mark text.now }
{
    text.as_bytes().starts_with(&MARK)
}

/// What a fault at this place in a text is told with: the word or the sign there, if there is one.
pub fn told_at(
    alloc: Global,
    text: &str,
    line: usize,
    column: usize,
    kind: FaultKind,
) -> Result<Text, AllocError>
    ensures { IfOk result (λ word. word ≡ told_at line column kind text.now) }
{
    if matches!(kind, FaultKind::TooLong) {
        return Ok(Text::from(String::new(alloc)));
    }
    if has_mark(text) && line == 1 && column == 1 {
        return Text::copy_of(alloc, "a byte order mark");
    }
    let lines = lines_of(alloc, text)?;
    word_at(alloc, rest_from(line_in(&lines, line), column))
}
