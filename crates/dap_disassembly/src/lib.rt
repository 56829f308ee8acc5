// The code of a program on its board, as an editor shows it. `instructions` lists code, with labels and
// lines; `before_instructions` goes back over it, by the statements that are known to begin before.
// `code_lines` says on which lines statements with bytes begin, `target` to which of them PC can be set, and
// `line_of_label` on which a symbol's statement is. `laws` says that a breakpoint on the line of a label is
// hit at its value, and that a label in an instruction is its operand.
#![tactic(auto)]

pub mod before;
pub mod code_line_laws;
pub mod code_lines;
pub mod disassembly;
pub mod label;
pub mod laws;
pub mod target;
