// Laws of the assembly language: the tokens of a line, the expression of an operand, the statements of a text
// and the bytes of a cell, and which fault each has, by conditions on them. They are about the definitions
// that the contracts of asm_lex, asm_text and asm_build cite. Nothing here is called; lab_core and dap_expr
// use what is proved here.
#![tactic(auto)]

pub mod cells;
pub mod operands;
pub mod texts;
pub mod tokens;
