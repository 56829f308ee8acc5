//! Where a statement is laid out.

/// The place of a statement, whether it is assembled, and the value of the operand that the layout
/// depends on.
#[derive(Clone, Copy)]
pub struct Laid {
    /// The location counter before the statement, from 0 to 65,536.
    pub place: u32,
    /// Whether the IFs around the statement select it, and there is no END before it.
    pub is_assembled: bool,
    /// The operand's value in an assembled ORG, DS, EQU, SET or IF, else 0.
    pub value: u16,
}
