//! The longest front of bytes of one kind.
ghost use Rattle.std.specs.Prelude.{◌≡◌};
ghost use Rattle.dap_stream.specs.Spans.{is_of, IsSplit};

/// A kind of bytes in a header.
#[derive(Clone, Copy)]
pub enum Kind {
    /// A byte of a field's name.
    Name,
    /// A byte of a field's value.
    Value,
}

impl Kind {
    fn has(self, byte: u8) -> bool
        ensures { result ≡ is_of self byte }
    {
        match self {
            Kind::Name => matches!(byte, b'!'..=b'9' | b';'..=b'~'),
            Kind::Value => matches!(byte, b'\t' | b' '..=b'~'),
        }
    }
}

/// Bytes of a kind, and the bytes after them, the first of which isn't of that kind.
#[derive(Drop)]
pub struct Split<'a> {
    pub front: &'a [u8],
    pub others: &'a [u8],
}

/// Splits bytes before the first that isn't of this kind.
#[tactic(auto, using(crate::proofs::SpanLemmas::split_none))]
pub fn split_off(kind: Kind, bytes: &[u8]) -> Split<'_>
    ensures { IsSplit (is_of kind) bytes.now result.front.now result.others.now }
{
    for (place, byte) in bytes.iter().enumerate() {
        if !kind.has(*byte) {
            let (front, others) = bytes.split_at(place);
            return Split { front, others };
        }
    }
    Split {
        front: bytes,
        others: &[],
    }
}
