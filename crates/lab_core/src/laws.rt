//! Theorems about the definitions.
ghost use Rattle.std.specs.Prelude.{◌≡◌, ◌≤◌, ℕ, List, Result};
ghost use Rattle.lab_core.specs.declared.event.Event.{Event};
ghost use Rattle.lab_core.specs.declared.answer.Answer.{Answer};
ghost use Rattle.lab_core.specs.declared.fault.EventFault.{EventFault};
ghost use Rattle.lab_core.specs.Board.{Board};
ghost use Rattle.lab_core.specs.Events.{Applies, Gives, Runs, result_of};
ghost use Rattle.lab_core.specs.Marks.{MarksState, IsFirstMark, first_mark};

/// `Applies` and the function `result_of` agree, so every event on every board has exactly one answer.
pub fn applies_as_given()
    ensures only { (b new : Board) (event : Event) (reply : Result Answer EventFault)
        → Applies b event reply new → Gives b (result_of event b) reply new }
    ensures all { (b new : Board) (event : Event) (reply : Result Answer EventFault)
        → Gives b (result_of event b) reply new → Applies b event reply new }
{}

/// A list of events has at most one list of answers on a board, and leaves one board.
pub fn one_answer()
    ensures { (b : Board) (events : List Event) (replies replies' : List (Result Answer EventFault))
        (new new' : Board) → Runs b events replies new → Runs b events replies' new'
        → (replies ≡ replies') × (new ≡ new') }
{}

/// `first_mark` is the least step count from 1 to n at which there is a mark, or n if there is none. A
/// slice up to a mark is an ordinary slice of that many steps, so marks only change where a run's slices
/// end.
pub fn first_mark_is_least()
    ensures { (marks : MarksState) (n : ℕ) (b : Board) → 1 ≤ n
        → IsFirstMark marks n b (first_mark marks n b) }
{}
