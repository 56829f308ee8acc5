//! A value that keeps a journal of the calls made on it.
ghost use Rattle.std.specs.Prelude.{◌≡◌, ◌<◌, ℕ, Bool, true, false, List, [], ◌∷◌, ◌++◌, length};

/// A value that records each call that it accepts in a journal, with the seat that made the call.
///
/// The reply to a call is a function of the entries before it, `answer`, so that a history of calls
/// determines all their replies.
pub trait Journaled {
    /// A call, as the journal records it.
    type Call: Drop;

    type Reply;

    // Each entry: the seat that made the call, and the call.
    ghost entries: { Self → List (ℕ × Self.Call) };
    // The most entries that the journal may have.
    ghost limit: { Self → ℕ };
    // The reply to a call that follows these entries.
    ghost answer: { List (ℕ × Self.Call) → Self.Call → Self.Reply };
    // Whether a reply is to a call that was recorded. Any other reply says why the call wasn't.
    ghost is_entry: { Self.Reply → Bool };
    // Whether a reply says that the journal is full.
    ghost is_full: { Self.Reply → Bool };

    /// Makes a call for a seat. The call becomes the last entry; or it is refused, because memory ran out or
    /// the journal is full, and then the value doesn't change.
    fn act(&mut self, seat: u32, call: Self::Call) -> Self::Reply
        ensures limit { limit self.new ≡ limit self.old }
        ensures entered { is_entry result ≡ true
            → entries self.new ≡ entries self.old ++ (seat, call) ∷ [] }
        ensures answered { is_entry result ≡ true → result ≡ answer (entries self.old) call }
        ensures room { is_entry result ≡ true → length (entries self.old) < limit self.old }
        ensures refused { is_entry result ≡ false → self.new ≡ self.old }
        ensures full { is_full result ≡ true
            → (is_entry result ≡ false) × (length (entries self.old) ≡ limit self.old) };
}
