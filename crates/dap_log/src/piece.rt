//! The pieces of a message.
ghost use Rattle.std.specs.Prelude.{◌≡◌, ◌<◌, ◌∷◌, length};
ghost use Rattle.std.specs.List.{prefix_len};
ghost use Rattle.dap_log.specs.Pieces as pieces;

/// A piece of a message.
#[derive(Clone, Copy)]
pub(crate) enum Piece<'a> {
    /// Characters that stand for themselves.
    Plain(&'a str),
    /// A brace that is written twice.
    Doubled(&'a str),
    /// An expression in braces.
    Expression(&'a str),
    /// A brace that isn't closed.
    Unclosed,
}

/// The piece at the front of a text, and what follows it.
#[derive(Clone, Copy)]
pub(crate) struct Front<'a> {
    pub(crate) piece: Piece<'a>,
    pub(crate) rest: &'a str,
}

fn is_plain(byte: u8) -> bool
    ensures { result ≡ pieces.is_plain byte }
{
    byte != b'{' && byte != b'}'
}

/// The number of bytes before the first brace.
fn plain_len(text: &[u8]) -> usize
    ensures { result ≡ prefix_len pieces.is_plain text.now }
{
    for (index, byte) in text.iter().enumerate() {
        if !is_plain(*byte) {
            return index;
        }
    }
    text.len()
}

/// The piece after an opening brace.
fn after_open(rest: &str) -> Front<'_>
    ensures { pieces.IsFront (pieces.open_piece rest.now) (pieces.open_brace ∷ rest.now) result }
{
    if let Some(rest) = rest.strip_prefix('{') {
        return Front {
            piece: Piece::Doubled("{"),
            rest,
        };
    }
    match rest.split_once('}') {
        Some((expression, rest)) => Front {
            piece: Piece::Expression(expression),
            rest,
        },
        None => Front {
            piece: Piece::Unclosed,
            rest,
        },
    }
}

/// The piece after a closing brace.
fn after_close(rest: &str) -> Front<'_>
    ensures { pieces.IsFront (pieces.close_piece rest.now) (pieces.close_brace ∷ rest.now) result }
{
    match rest.strip_prefix('}') {
        Some(rest) => Front {
            piece: Piece::Doubled("}"),
            rest,
        },
        None => Front {
            piece: Piece::Plain("}"),
            rest,
        },
    }
}

/// The piece at the front of a text that isn't empty.
pub(crate) fn piece_at(text: &str) -> Front<'_>
    requires { 0 < length text.now }
    ensures piece { pieces.IsFront (pieces.piece_at text.now) text.now result }
    ensures less { length result.rest.now < length text.now }
{
    if let Some(rest) = text.strip_prefix('{') {
        return after_open(rest);
    }
    if let Some(rest) = text.strip_prefix('}') {
        return after_close(rest);
    }
    let (plain, rest) = text.split_at(plain_len(text.as_bytes()));
    Front {
        piece: Piece::Plain(plain),
        rest,
    }
}
