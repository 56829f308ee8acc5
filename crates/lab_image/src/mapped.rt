//! The addresses at which the statements in memory begin.
ghost use Rattle.std.specs.Prelude.{◌≡◌, IfSome, MatchOption, ◌∷◌, []};
ghost use Rattle.std.specs.Iterator.{YieldsFirst, item_count};
ghost use Rattle.lab_image.specs.Mapped.{first_of, firsts_of};

use crate::spans::Span;
use std::marker::Model;

/// An address whose byte is the first of its statement.
#[derive(Clone, Copy)]
pub struct MappedAddress {
    pub address: u16,
    /// The number that the load gave the statement's source.
    pub source: u32,
    /// The line of the statement in its source, from 1.
    pub line: usize,
}

/// An iterator over mapped addresses, seen as the list of those that are left.
/// It allocates nothing, and looks at each span of addresses once.
#[derive(Drop)]
pub struct MappedAddresses<'a> {
    spans: &'a [Span],
}

impl<'a> Model for MappedAddresses<'a> {
    ghost use Rattle.std.specs.Prelude.{List};
    ghost use Rattle.lab_image.specs.declared.mapped.MappedAddress.{MappedAddress};
    ghost use Rattle.lab_image.specs.Mapped.{firsts_of};

    ghost Value = { List MappedAddress };

    ghost view = { λ w. firsts_of w.spans.now };
}

impl<'a> MappedAddresses<'a> {
    /// An iterator over the mapped addresses of these spans.
    pub(crate) fn new(spans: &'a [Span]) -> MappedAddresses<'a>
        ensures { result ≡ firsts_of spans.now }
    {
        MappedAddresses { spans }
    }
}

impl<'a> Iterator for MappedAddresses<'a> {
    type Item = MappedAddress;

    ghost next_gives = { YieldsFirst (λ w. w) };

    ghost remaining = { item_count (λ w. w) };

    fn next(&mut self) -> Option<MappedAddress> {
        let (mapped, later) = next_mapped(self.spans)?;
        self.spans = later;
        Some(mapped)
    }
}

// The first address that these spans map, and the spans after its own.
fn next_mapped(spans: &[Span]) -> Option<(MappedAddress, &[Span])>
    ensures { MatchOption result (firsts_of spans.now ≡ [])
        (λ next. firsts_of spans.now ≡ next.0 ∷ firsts_of next.1.now) }
{
    let mut left = spans;
    while let Some((span, later)) = left.split_first() {
        if let Some(mapped) = mapped_in(span) {
            return Some((mapped, later));
        }
        left = later;
    }
    None
}

// The address that a span maps, unless the first byte of its row was cut off.
fn mapped_in(span: &Span) -> Option<MappedAddress>
    ensures { result ≡ first_of span.now }
{
    let address = u32::from(span.start);
    if address < span.from || span.to <= address {
        return None;
    }
    Some(MappedAddress {
        address: span.start,
        source: span.source,
        line: span.line,
    })
}
