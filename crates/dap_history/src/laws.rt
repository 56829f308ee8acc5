//! Theorems about the definitions.
ghost use Rattle.std.specs.Prelude.{◌≡◌, ◌≤◌, ◌<◌, ◌-◌, ◌*◌, ◌^◌, ℕ, List, [], ◌++◌, IsTrue};
ghost use Rattle.lab_core.specs.Board.{Board};
ghost use Rattle.lab_core.specs.Moments.{put_back, after_hold};
ghost use Rattle.dap_history.specs.declared.input.Recorded.{Recorded};
ghost use Rattle.dap_history.specs.Logs.{Ascends, latest, later_than};
ghost use Rattle.dap_history.specs.Spacing.{stays_in};
ghost use Rattle.dap_history.specs.Runs.{at_from, board_at, after_rewind};

/// A run made again from one of its boards, on another board, comes to the board that it had: all of the run
/// is as it was, and all else as on the other board.
pub fn run_is_made_again()
    ensures { (log : List Recorded) (c n : ℕ) (was now : Board)
        → after_hold (at_from c (put_back was now) log n) ≡ after_rewind (at_from c was log n) now }
{}

/// A run may be split after any number of steps: its board after n steps is the one that it has if it goes on
/// from its board after c steps, with the inputs that come later.
pub fn run_goes_on()
    ensures { (start : Board) (log : List Recorded) (c n : ℕ) → Ascends 0 log → c ≤ n
        → board_at start log n ≡ at_from c (board_at start log c) (later_than c log) n }
{}

/// A log may be split too: its first part leads to the board after c steps, the rest on from there.
pub fn log_splits()
    ensures { (start : Board) (first rest : List Recorded) (c n : ℕ) → Ascends 0 first → latest first ≤ c
        → Ascends c rest → c ≤ n
        → board_at start (first ++ rest) n ≡ at_from c (board_at start first c) rest n }
{}

/// Which moments stay, if one was saved in every unit of 1,048,576 steps: for each unit before now there is
/// one in it or before, no farther from it than an eighth of its distance from now. Unit 0 stands for the
/// start, which always stays. A moment that stays later stayed until then, so none is missed.
pub fn moments_are_near()
    ensures near { (unit now : ℕ) → unit ≤ now
        → (k : ℕ) × (k ≤ unit) × IsTrue (stays_in k now) × (8 * (unit - k) ≤ now - unit) }
    ensures stayed { (unit now later : ℕ) → now ≤ later → later < 2 ^ 44
        → IsTrue (stays_in unit later) → IsTrue (stays_in unit now) }
{}

/// Going back and forth is nothing: where the run was before doesn't matter.
pub fn back_and_forth()
    ensures { (start now : Board) (log : List Recorded) (m n : ℕ)
        → after_rewind (board_at start log n) (after_rewind (board_at start log m) now)
        ≡ after_rewind (board_at start log n) now }
{}
