//! Laws of the definitions.
ghost use Rattle.std.specs.Prelude.{◌≡◌, ◌≢◌, ℕ, List, Some, true};
ghost use Rattle.base_text.specs.Bytes.{Text};
ghost use Rattle.lab_image.specs.declared.lists.BreakpointList.{BreakpointList};
ghost use Rattle.lab_image.specs.Breakpoints.{has_breakpoint, is_met};
ghost use Rattle.lab_shown.specs.declared.shown.CodeLine.{CodeLine};
ghost use Rattle.lab_views.specs.Code.{line_at};
ghost use Rattle.lab_core.specs.Board.{Board};
ghost use Rattle.dap_disassembly.specs.declared.label.SourceLine.{SourceLine};
ghost use Rattle.dap_disassembly.specs.Disassembly.{NamesOperand, label_text};
ghost use Rattle.dap_disassembly.specs.Labels.{label_value, line_of_label};

/// A breakpoint on the line of a label is hit at the label's value.
pub fn breakpoint_is_met_at_label()
    ensures { (b : Board) (name : Text) (at : SourceLine) (address : ℕ) (lists : List BreakpointList)
        → label_value b name ≡ Some address → line_of_label b name ≡ Some at
        → has_breakpoint lists at.source at.line ≡ true → is_met lists b.loads address ≡ true }
{}

/// Where the text of a line with labels isn't the plain one, it has the name of a label in place of the
/// number at its end, which is the label's value and the instruction's operand.
pub fn operand_is_named()
    ensures { (b : Board) (address : ℕ) (line : CodeLine)
        → line_at b.machine address ≡ line → label_text b.symbols line ≢ line.text
        → NamesOperand b.symbols line (label_text b.symbols line) }
{}
