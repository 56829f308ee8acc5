//! Laws of the definitions.
ghost use Rattle.std.specs.Prelude.{◌≡◌, ◌≤◌, ◌<◌, ℕ, List, ◌++◌, true, Some};
ghost use Rattle.std.specs.List.{Contains};
ghost use Rattle.dap_messages.specs.declared.message.BreakpointKind.TheVariants as kind;
ghost use Rattle.dap_messages.specs.declared.message.PlacedBreakpoint.{PlacedBreakpoint};
ghost use Rattle.dap_points.specs.Placed.{id_at};
ghost use Rattle.dap_points.specs.Boards.{is_plain, wanted_lines};
ghost use Rattle.dap_points.specs.Kinds.{kind_at};

/// A board is to stop at the line of each verified breakpoint without options.
pub fn verified_is_wanted()
    ensures { (lines labels : List PlacedBreakpoint) (point : PlacedBreakpoint) (line : ℕ)
        → Contains (lines ++ labels) point → point.is_verified ≡ true → is_plain point.options ≡ true
        → point.line ≡ Some line → Contains (wanted_lines lines labels) line }
{}

/// A breakpoint's number says what it is on: a label, a line of one of at most 1,024 sources, or an
/// instruction.
pub fn numbers_tell_kinds()
    ensures label { (index : ℕ) → index < 256 → kind_at (id_at 0 index) ≡ kind.Label }
    ensures line { (number index : ℕ) → 1 ≤ number → number ≤ 1024 → index < 256
        → kind_at (id_at number index) ≡ kind.Line }
    ensures instruction { (index : ℕ) → index < 256 → kind_at (id_at 1026 index) ≡ kind.Instruction }
{}
