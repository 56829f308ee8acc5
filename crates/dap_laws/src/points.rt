//! What holds of a program's breakpoints (dap_points, dap_breakpoints).
ghost use Rattle.std.specs.Prelude.{◌⊎◌, ℕ};
ghost use Rattle.std.specs.List.{Contains};
ghost use Rattle.lab_core.specs.Board.{Board};
ghost use Rattle.dap_run.specs.declared.program.Program.{Program};
ghost use Rattle.dap_messages.specs.declared.message.PlacedBreakpoint.{PlacedBreakpoint};
ghost use Rattle.dap_slice.specs.declared.conditions.ConditionalBreakpoint.{ConditionalBreakpoint};
ghost use Rattle.dap_breakpoints.specs.Arming.{ProgramLists, conditional_for};
ghost use Rattle.dap_laws.specs.Points.{IsVerified, BeginsOn, IsMetByBoard, IsMetInSlices, told_on, AsksFor};

/// A breakpoint without options that an editor is told of as verified is met wherever a statement on its line
/// begins, since the board has a breakpoint there; or, where the board's 256 are taken, by the slices of a
/// debugged run, at the first statement on its line: by a launch, and by each request that sets breakpoints.
pub fn verified_is_met()
    ensures { (p : Program) (w : ProgramLists) (b : Board) (line : ℕ) (v : IsVerified w b line) (address : ℕ)
        → BeginsOn p line b address → IsMetByBoard p w b v address ⊎ IsMetInSlices p w b v }
{}

/// A breakpoint with options that an editor is told of is one of those at which the slices of a debugged run
/// look, where the first statement on its line begins, with the number that the editor is told.
pub fn options_are_kept()
    ensures { (p : Program) (w : ProgramLists) (b : Board) (point : PlacedBreakpoint)
        (kept : ConditionalBreakpoint) → Contains (told_on b w) point → AsksFor p b point kept
        → Contains (conditional_for p w b) kept }
{}
