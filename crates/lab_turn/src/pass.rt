//! The passes of a turnstile.
ghost use Rattle.lab_turn.specs.Turns.{IsIdleTokenOf};

use crate::journaled::Journaled;
use crate::rule::Token;
use std::fmt;
use std::marker::Model;

/// The right of one seat to make calls on the turnstile that it was opened with.
///
/// Contracts see its turnstile, its seat, the beginning of the history that it has seen, its own calls, and
/// whether it found all tickets drawn. It can be sent to any thread. If a pass is dropped, its calls stay in
/// the history, but the turnstile can't be closed any more.
pub struct Pass<J: Journaled> {
    pub(crate) seat: u32,
    pub(crate) token: Token<J>,
}

impl<J: Journaled> Model for Pass<J> {
    ghost use Rattle.std.specs.Prelude.{◌≡◌};
    ghost use Rattle.lab_turn.specs.History.{PassState};

    ghost Value = { PassState J.Call };

    ghost use Rattle.lab_turn.specs.Turns.{pass_of, IsIdle};

    ghost view = { λ p. pass_of p.token.table_id p.token.me.0 };

    ghost invariant = { λ p. (p.seat ≡ p.token.me.0.seat) × IsIdle p.token.me };
}

impl<J: Journaled> Drop for Pass<J> {
    fn drop(self) {
        let Self { seat: _, token: _ } = self;
    }
}

impl<J: Journaled> fmt::Debug for Pass<J> {
    fn fmt<W: fmt::Write>(&self, f: &mut fmt::Formatter<W>) -> fmt::Result {
        f.debug_struct("Pass").field("seat", &self.seat).finish()
    }
}

impl<J: Journaled> Pass<J> {
    pub(crate) fn into_token(self) -> Token<J>
        ensures { IsIdleTokenOf self result }
    {
        let Self { seat: _, token } = self;
        token
    }
}
