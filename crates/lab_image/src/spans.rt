//! Sorted spans of addresses, each of them what is left of a row.
ghost use Rattle.std.specs.Prelude.{◌≡◌, ◌≤◌, ◌<◌, ◌∷◌, ◌++◌, ℕ, [], length, take, IsTrue, OnOk, IfOk};
ghost use Rattle.std.specs.Prelude.{IfSome};
ghost use Rattle.lab_image.specs.Loads.{Tells, Fronts};
ghost use Rattle.lab_image.specs.Spans.{AreSpans, EndBy, between, origin_in, overlay, span_of};

use crate::origin::Origin;
use asm_build::built::Row;
use i80_base::memory::MEMORY_SIZE;
use std::alloc::{AllocError, Global};

/// The number of addresses.
const ADDRESSES: u32 = MEMORY_SIZE as u32;

/// Consecutive addresses of a row.
#[derive(Clone, Copy)]
pub(crate) struct Span {
    /// The first of them.
    pub(crate) from: u32,
    /// One more than the last of them.
    pub(crate) to: u32,
    /// The address of the row, which stays when the span is cut.
    pub(crate) start: u16,
    pub(crate) source: u32,
    pub(crate) line: usize,
}

// The number of spans that end at or below an address.
fn count_ended(spans: &[Span], address: u32) -> usize
    requires { AreSpans 0 spans.now 65536 }
    ensures { EndBy spans.now address result }
{
    let mut low = 0;
    let mut high = spans.len();
    while low < high {
        let middle = low + (high - low) / 2;
        if spans[middle].to <= address {
            low = middle + 1;
        } else {
            high = middle;
        }
    }
    low
}

/// The origin of an address.
pub(crate) fn origin_in(spans: &[Span], address: u16) -> Option<Origin>
    requires { AreSpans 0 spans.now 65536 }
    ensures { result ≡ origin_in spans.now address }
{
    let place = count_ended(spans, u32::from(address));
    if place == spans.len() {
        return None;
    }
    let span = spans[place];
    if u32::from(address) < span.from {
        return None;
    }
    Some(Origin {
        source: span.source,
        line: span.line,
        is_first: address == span.start,
    })
}

// Whether all of the spans lie beyond an address.
fn lie_beyond(spans: &[Span], address: u32) -> bool
    requires { AreSpans 0 spans.now 65536 }
    ensures { IsTrue result → (low : ℕ) → between low address spans.now ≡ [] }
{
    if spans.is_empty() {
        return true;
    }
    address <= spans[0].from
}

// Appends what the spans have of the addresses from `low` on and below `high`.
fn push_between(all: &mut Vec<Span>, spans: &[Span], low: u32, high: u32) -> Result<(), AllocError>
    requires { AreSpans 0 spans.now 65536 }
    ensures { OnOk result (all.new.items ≡ all.old.items ++ between low high spans.now) }
{
    // New spans below all old ones need no search.
    if lie_beyond(spans, high) {
        return Ok(());
    }
    let (_, rest) = spans.split_at(count_ended(spans, low));
    for span in rest {
        let from = low.max(span.from);
        let to = span.to.min(high);
        if from >= to {
            return Ok(());
        }
        all.push(Span {
            from,
            to,
            start: span.start,
            source: span.source,
            line: span.line,
        })?;
    }
    Ok(())
}

// Appends the new spans, and between them what the old ones have left, in one pass over both.
fn push_overlaid(all: &mut Vec<Span>, old: &[Span], new: &[Span]) -> Result<(), AllocError>
    requires { AreSpans 0 old.now 65536 }
    ensures { OnOk result (all.new.items ≡ all.old.items ++ overlay 0 old.now new.now) }
{
    let mut low = 0;
    for span in new {
        push_between(all, old, low, span.from)?;
        all.push(*span)?;
        low = span.to;
    }
    push_between(all, old, low, ADDRESSES)
}

/// The new spans, and between them what the old ones have left.
pub(crate) fn overlaid(alloc: Global, old: &[Span], new: &[Span]) -> Result<Vec<Span>, AllocError>
    requires { AreSpans 0 old.now 65536 }
    ensures { IfOk result (λ all. all.items ≡ overlay 0 old.now new.now) }
{
    let mut all = Vec::with_capacity(alloc, old.len().saturating_add(new.len()))?;
    push_overlaid(&mut all, old, new)?;
    Ok(all)
}

// Puts a span in the place of what the others have of its addresses.
fn put(alloc: Global, spans: &mut Vec<Span>, span: Span) -> Result<(), AllocError>
    requires sorted { AreSpans 0 spans.old.items 65536 }
    requires order { span.from < span.to }
    ensures { OnOk result (spans.new.items ≡ overlay 0 spans.old.items (span ∷ [])) }
{
    // Rows mostly come in the order of their addresses, and then nothing is copied.
    if count_ended(spans, span.from) == spans.len() {
        spans.push(span)?;
        return Ok(());
    }
    *spans = overlaid(alloc, spans, &[span])?;
    Ok(())
}

// The addresses that a row covers, if it covers any. None lies past the last one of memory.
fn span_of(source: u32, row: &Row) -> Option<Span>
    ensures value { result ≡ span_of source row.now }
    ensures order { IfSome result (λ span. (span.from < span.to) × (span.to ≤ 65536)) }
{
    if row.length == 0 {
        return None;
    }
    let from = u32::from(row.address);
    let space = ADDRESSES - from;
    let length = u32::try_from(row.length).unwrap_or(space).min(space);
    Some(Span {
        from,
        to: from + length,
        start: row.address,
        source,
        line: row.line,
    })
}

// Puts the span of a row, if it has one.
fn put_row(alloc: Global, spans: &mut Vec<Span>, source: u32, row: &Row) -> Result<(), AllocError>
    requires { AreSpans 0 spans.old.items 65536 }
    ensures sorted { OnOk result (AreSpans 0 spans.new.items 65536) }
    ensures origins { OnOk result (Tells source (row.now ∷ []) spans.old.items spans.new.items) }
{
    match span_of(source, row) {
        Some(span) => put(alloc, spans, span),
        None => Ok(()),
    }
}

// Puts the rows at the front, as long as each lies behind those before it. Returns how many these are.
fn put_in_order(
    alloc: Global,
    spans: &mut Vec<Span>,
    source: u32,
    rows: &[Row],
) -> Result<usize, AllocError>
    requires { AreSpans 0 spans.old.items 65536 }
    ensures within { IfOk result (λ count. count ≤ length rows.now) }
    ensures sorted { OnOk result (AreSpans 0 spans.new.items 65536) }
    ensures origins { IfOk result (λ count.
        Tells source (take count rows.now) spans.old.items spans.new.items) }
{
    for (i, row) in rows.iter().enumerate() {
        if count_ended(spans, u32::from(row.address)) < spans.len() {
            return Ok(i);
        }
        put_row(alloc, spans, source, row)?;
    }
    Ok(rows.len())
}

// Puts the rows at the front that come in order, and the one after them. Returns the rows after these.
fn put_front<'a>(
    alloc: Global,
    spans: &mut Vec<Span>,
    source: u32,
    rows: &'a [Row],
) -> Result<&'a [Row], AllocError>
    requires { AreSpans 0 spans.old.items 65536 }
    ensures { IfOk result (λ later. Fronts source rows.now later.now spans.old.items spans.new.items) }
{
    let count = put_in_order(alloc, spans, source, rows)?;
    let (_, rest) = rows.split_at(count);
    let Some((row, later)) = rest.split_first() else {
        return Ok(rest);
    };
    put_row(alloc, spans, source, row)?;
    Ok(later)
}

// The first spans over the old ones, and the second ones over both.
fn overlaid_twice(
    alloc: Global,
    old: &[Span],
    first: &[Span],
    second: &[Span],
) -> Result<Vec<Span>, AllocError>
    requires old { AreSpans 0 old.now 65536 }
    requires first { AreSpans 0 first.now 65536 }
    ensures { IfOk result (λ all. all.items ≡ overlay 0 (overlay 0 old.now first.now) second.now) }
{
    let all = overlaid(alloc, old, first)?;
    overlaid(alloc, &all, second)
}

/// The spans of the rows of a source, put in order.
///
/// Rows in the order of their addresses are put one by one. Of the others, the later half is laid over
/// the earlier one, so that no row is copied more often than the rows can be halved.
pub(crate) fn spans_of_rows(
    alloc: Global,
    source: u32,
    rows: &[Row],
) -> Result<Vec<Span>, AllocError>
    ensures sorted { IfOk result (λ all. AreSpans 0 all.items 65536) }
    ensures origins { IfOk result (λ all. Tells source rows.now [] all.items) }
{
    let mut all = Vec::new(alloc);
    let later = put_front(alloc, &mut all, source, rows)?;
    if later.is_empty() {
        return Ok(all);
    }
    let (first, second) = later.split_at(later.len() / 2);
    let first = spans_of_rows(alloc, source, first)?;
    let second = spans_of_rows(alloc, source, second)?;
    overlaid_twice(alloc, &all, &first, &second)
}
