//! Letters that are about to be posted.
ghost use Rattle.std.specs.Prelude.{◌≡◌, ◌↔◌, ◌<◌, ◌≤◌, ◌++◌, ◌∷◌, [], length, IfOk, IsTrue, MatchOption};

use crate::post::Letter;
use std::alloc::{AllocError, Global};
use std::collections::VecDeque;
use std::marker::Model;

/// How many letters are posted at once, at most.
pub const MOST_LETTERS: usize = 8;

/// A list of at most eight letters, with room allocated for eight.
#[derive(Drop)]
pub struct Letters {
    letters: VecDeque<Letter>,
}

impl Model for Letters {
    ghost use Rattle.std.specs.Prelude.{◌≤◌, length, List};
    ghost use Rattle.std.specs.VecDeque.{deque_capacity};
    ghost use Rattle.kern_post.specs.declared.post.Letter.{Letter};

    ghost Value = { List Letter };

    ghost view = { λ l. l.letters.items };

    ghost invariant = { λ l. (length l.letters.items ≤ 8) × (8 ≤ deque_capacity l.letters) };
}

impl Letters {
    /// No letters. Allocates room for eight.
    pub fn new(alloc: Global) -> Result<Letters, AllocError>
        ensures { IfOk result (λ letters. letters ≡ []) }
    {
        let letters = VecDeque::with_capacity(alloc, MOST_LETTERS)?;
        Ok(Letters { letters })
    }

    /// How many letters there are.
    pub fn len(&self) -> usize
        ensures count { result ≡ length self.now }
        ensures bound { result ≤ 8 }
    {
        self.letters.len()
    }

    /// Whether there are no letters.
    pub fn is_empty(&self) -> bool
        ensures { IsTrue result ↔ (self.now ≡ []) }
    {
        self.letters.is_empty()
    }

    /// Adds a letter at the end, without allocating.
    pub fn push(&mut self, letter: Letter)
        requires { length self.old < 8 }
        ensures { self.new ≡ self.old ++ letter ∷ [] }
    {
        self.letters.push_back_reserved(letter);
    }

    /// Removes the first letter and returns it.
    pub fn pop(&mut self) -> Option<Letter>
        ensures { MatchOption result (self.old ≡ []) (λ l. self.old ≡ l ∷ self.new) }
    {
        self.letters.pop_front()
    }
}
