//! Lines and columns as an editor counts them.
ghost use Rattle.std.specs.Prelude.{◌≡◌};
ghost use Rattle.dap_messages.specs.Numbering as numbering;

use crate::message::{EditorBody, EditorOutcome, Message, Numbering};

/// Of an editor that doesn't say how it counts.
pub const FROM_1: Numbering = Numbering {
    lines_start_at_1: true,
    columns_start_at_1: true,
};

fn number_told(starts_at_1: bool, number: u64) -> u64
    ensures { result ≡ numbering.number_told starts_at_1 number }
{
    if starts_at_1 {
        number
    } else {
        number.saturating_sub(1)
    }
}

fn number_meant(starts_at_1: bool, number: u32) -> u32
    ensures { result ≡ numbering.number_meant starts_at_1 number }
{
    if starts_at_1 {
        number
    } else {
        number.saturating_add(1)
    }
}

impl Numbering {
    /// A line that counts from 1, as the editor counts it. 0, which stands for no line, stays 0.
    pub fn line_told(self, line: u64) -> u64
        ensures { result ≡ numbering.line_told self line }
    {
        number_told(self.lines_start_at_1, line)
    }

    /// The same of a column.
    pub fn column_told(self, column: u64) -> u64
        ensures { result ≡ numbering.column_told self column }
    {
        number_told(self.columns_start_at_1, column)
    }

    /// The line, counted from 1, that the editor means by a number. No line is above 4,294,967,295.
    pub fn line_meant(self, line: u32) -> u32
        ensures { result ≡ numbering.line_meant self line }
    {
        number_meant(self.lines_start_at_1, line)
    }

    /// The same of a column.
    pub fn column_meant(self, column: u32) -> u32
        ensures { result ≡ numbering.column_meant self column }
    {
        number_meant(self.columns_start_at_1, column)
    }

    /// How the editor counts after a message: as it asked to in `initialize`, once that is answered.
    pub fn after(self, message: &Message) -> Numbering
        ensures { result ≡ numbering.numbering_after self message.now }
    {
        match message {
            Message::Response(response) => match &response.outcome {
                EditorOutcome::Success(EditorBody::Capabilities(numbering)) => *numbering,
                _ => self,
            },
            Message::Event(_) => self,
        }
    }
}
