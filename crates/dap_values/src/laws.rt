//! Laws of the definitions.
ghost use Rattle.std.specs.Prelude.{◌≡◌, ℕ, Some, Ok};
ghost use Rattle.lab_views.specs.Law.{IsWhole};
ghost use Rattle.lab_core.specs.Board.{Board};
ghost use Rattle.dap_expr.specs.declared.expression.Expression.{Expression};
ghost use Rattle.dap_expr.specs.Values.{value_on};
ghost use Rattle.dap_history.specs.declared.input.Input.{Input};
ghost use Rattle.dap_history.specs.Runs.{after_input};
ghost use Rattle.dap_values.specs.declared.target.Target.{Target};
ghost use Rattle.dap_values.specs.Targets.{target_on, value_at};
ghost use Rattle.dap_values.specs.Changes.{with_value, value_taken, input_of};
ghost use Rattle.dap_messages.specs.declared.message.ValueFormat.{ValueFormat};
ghost use Rattle.dap_values.specs.declared.assignment.SetValue.{SetValue};
ghost use Rattle.dap_values.specs.Shown.{shown_as, shown_at};
ghost use Rattle.dap_values.specs.Evaluation.{expression_shown};
ghost use Rattle.dap_values.specs.Assignments.{set_to};

/// A place holds the value of the expression that names it.
#[tactic(auto, using(crate::proofs::ValueLemmas::target_has_value))]
pub fn target_has_value()
    ensures { (b : Board) (e : Expression) (t : Target) → target_on b e ≡ Some t
        → value_on b e ≡ Ok (value_at b.machine t) }
{}

/// The input for a place changes the place, and nothing else of the machine.
#[tactic(auto, using(crate::proofs::ChangeLemmas::others_stay))]
pub fn others_stay()
    ensures { (b : Board) (t : Target) (value : ℕ) (i : Input) → input_of b.machine.regs t value ≡ Ok i
        → (after_input i b).machine ≡ with_value b.machine t value }
{}

/// The place holds the value afterwards.
#[tactic(auto, using(crate::proofs::ChangeLemmas::change_is_there))]
pub fn change_is_there()
    ensures { (b : Board) (t : Target) (value : ℕ) (i : Input) → IsWhole b.machine
        → input_of b.machine.regs t value ≡ Ok i
        → value_at (after_input i b).machine t ≡ value_taken t value }
{}

/// An expression that is a place is shown as the place, with its own value.
pub fn value_is_shown()
    ensures { (b : Board) (e : Expression) (t : Target) (value : ℕ) (format : ValueFormat)
        → target_on b e ≡ Some t → value_on b e ≡ Ok value
        → expression_shown b e format ≡ Ok (shown_as b.machine.regs t value format) }
{}

/// A place that is changed is shown as it is on the board after the change.
pub fn change_is_shown()
    ensures { (b : Board) (t : Target) (value : ℕ) (s : SetValue) (format : ValueFormat)
        → IsWhole b.machine → set_to b.machine.regs t value format ≡ Ok s
        → s.shown ≡ shown_at (after_input s.input b).machine t format }
{}
