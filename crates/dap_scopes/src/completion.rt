//! Completions of the word before a column of a text.
ghost use Rattle.std.specs.Prelude.{◌≡◌, ◌≤◌, ◌∷◌, [], length, map, IfOk, OnOk};
ghost use Rattle.std.specs.List.{list_all};
ghost use Rattle.lab_core.specs.Board.{Board};
ghost use Rattle.lab_core.specs.Labs.{RepresentsBoard};
ghost use Rattle.dap_scopes.specs.Completions as completions;
ghost use Rattle.dap_scopes.specs.Completions.{Completes, completions_on};

use asm_build::symbols::Symbols;
use base_text::sequence::Sequence;
use base_text::text::Text;
use dap_messages::message::{Completion, CompletionKind};
use lab_core::lab::Lab;
use lab_views::names::symbol_at;
use std::alloc::{AllocError, Global};

/// The most completions that are given.
const MOST: usize = 256;

/// The parts of the machine.
const PARTS: [&str; 19] = [
    "A", "B", "C", "D", "E", "H", "L", "M", "SP", "PSW", "BC", "DE", "HL", "PC", "S", "Z", "P",
    "CY", "AC",
];

/// The words with which a line of the prompt begins.
const WORDS: [&str; 5] = ["switches", "press", "type", "back", "symbols"];

/// Completions of a word, and where it is.
#[derive(Drop)]
pub struct Completions {
    pub items: Sequence<Completion>,
    /// The column where the word begins, from 1.
    pub start: u32,
    /// The word's length.
    pub length: u32,
}

// ---- the word before a column

fn is_word_character(c: u8) -> bool
    ensures { result ≡ completions.is_word_character c }
{
    c.is_ascii_alphanumeric() || c == b'?' || c == b'@' || c == b'$'
}

fn is_blank(c: u8) -> bool
    ensures { result ≡ completions.is_blank c }
{
    c == b' ' || c == b'\t'
}

fn are_blank(bytes: &[u8]) -> bool
    ensures { result ≡ list_all completions.is_blank bytes.now }
{
    bytes.iter().all(|c| is_blank(*c))
}

fn text_before(text: &str, column: u32) -> &[u8]
    ensures text { result.now ≡ completions.text_before text.now column }
    ensures few { length result.now ≤ column }
{
    let bytes = text.as_bytes();
    bytes
        .split_at((column.saturating_sub(1) as usize).min(bytes.len()))
        .0
}

/// Where the word begins that ends with a text.
fn word_start(before: &[u8]) -> usize
    ensures start { result ≡ completions.word_start before.now }
    ensures within { result ≤ length before.now }
{
    let mut start = before.len();
    while start > 0 && is_word_character(before[start - 1]) {
        start -= 1;
    }
    start
}

// ---- one more completion

pub(crate) fn begins_with(name: &[u8], word: &[u8]) -> bool
    ensures { result ≡ completions.begins_with name.now word.now }
{
    let (front, _) = name.split_at(word.len().min(name.len()));
    front.eq_ignore_ascii_case(word)
}

/// Appends a completion if it begins with the word, and there is room.
fn push(
    items: &mut Sequence<Completion>,
    word: &[u8],
    completion: Completion,
) -> Result<(), AllocError>
    ensures { OnOk result (Completes word.now (completion ∷ []) items.old items.new) }
{
    if items.len() >= MOST {
        return Ok(());
    }
    if !begins_with(completion.label.as_str().as_bytes(), word) {
        return Ok(());
    }
    items.push(completion)
}

/// The same for a name of a kind, behind a text.
fn push_name(
    alloc: Global,
    items: &mut Sequence<Completion>,
    word: &[u8],
    front: &str,
    kind: CompletionKind,
    name: &str,
) -> Result<(), AllocError>
    ensures { OnOk result (Completes word.now (completions.completion_named front.now kind name.now ∷ [])
        items.old items.new) }
{
    let mut label = String::from_str(alloc, front)?;
    label.push_str(name)?;
    let label = Text::from(label);
    push(items, word, Completion { label, kind })
}

// ---- all of a kind

fn push_names(
    alloc: Global,
    items: &mut Sequence<Completion>,
    word: &[u8],
    front: &str,
    kind: CompletionKind,
    names: &[&str],
) -> Result<(), AllocError>
    ensures { OnOk result (Completes word.now
        (map (λ name. completions.completion_named front.now kind name.now) names.now) items.old items.new) }
{
    for name in names {
        push_name(alloc, items, word, front, kind, name)?;
    }
    Ok(())
}

fn push_symbols(
    alloc: Global,
    items: &mut Sequence<Completion>,
    word: &[u8],
    symbols: &Symbols,
) -> Result<(), AllocError>
    ensures { OnOk result (Completes word.now (completions.symbol_completions symbols.now)
        items.old items.new) }
{
    for index in 0..symbols.len() {
        let (name, _) = symbol_at(symbols, index);
        push_name(alloc, items, word, "", CompletionKind::Symbol, name)?;
    }
    Ok(())
}

/// The `$` that a word begins with.
fn dollar_text(word: &[u8]) -> &'static str
    ensures { result.now ≡ completions.dollar_text word.now }
{
    match word.split_first() {
        Some((first, _)) if *first == b'$' => "$",
        _ => "",
    }
}

fn push_values(
    alloc: Global,
    items: &mut Sequence<Completion>,
    word: &[u8],
    symbols: &Symbols,
) -> Result<(), AllocError>
    ensures { OnOk result (Completes word.now (completions.value_names word.now symbols.now)
        items.old items.new) }
{
    if word.is_empty() {
        return Ok(());
    }
    let front = dollar_text(word);
    push_names(alloc, items, word, front, CompletionKind::Part, &PARTS)?;
    push_symbols(alloc, items, word, symbols)
}

fn push_first_words(
    alloc: Global,
    items: &mut Sequence<Completion>,
    word: &[u8],
    is_first: bool,
) -> Result<(), AllocError>
    ensures { OnOk result (Completes word.now (completions.first_words is_first) items.old items.new) }
{
    if is_first {
        return push_names(alloc, items, word, "", CompletionKind::Word, &WORDS);
    }
    Ok(())
}

// ---- together

fn completions_for(
    alloc: Global,
    word: &[u8],
    symbols: &Symbols,
    is_first: bool,
) -> Result<Sequence<Completion>, AllocError>
    ensures { IfOk result (λ items. items ≡ completions.completions_for word.now
        (completions.candidates word.now symbols.now is_first)) }
{
    let mut items = Sequence::new(alloc);
    push_values(alloc, &mut items, word, symbols)?;
    push_first_words(alloc, &mut items, word, is_first)?;
    Ok(items)
}

/// The completions of the word before a column of a text, at most 256: the machine's parts, with a `$` before
/// their names if the word begins with it, then the symbols in order of definition, and then, if the word is
/// the first in the text, the words of the prompt. Upper and lower case are the same. An empty word is only
/// completed to the words of the prompt.
///
/// A word is letters, digits, `?`, `@` and `$`. Columns count from 1, and each is a byte, as it is a
/// character of an ASCII text.
pub fn complete(
    alloc: Global,
    lab: &Lab,
    text: &str,
    column: u32,
) -> Result<Completions, AllocError>
    ensures { (b : Board) → RepresentsBoard lab.now b
        → IfOk result (λ found. found ≡ completions_on b text.now column) }
{
    let before = text_before(text, column);
    let start = word_start(before);
    let (outside, word) = before.split_at(start);
    let items = completions_for(alloc, word, lab.symbols(), are_blank(outside))?;
    Ok(Completions {
        items,
        start: start as u32 + 1,
        length: word.len() as u32,
    })
}
