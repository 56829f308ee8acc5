//! Log messages of breakpoints.
ghost use Rattle.std.specs.Prelude.{◌≡◌, ◌++◌, IfOk, OnOk, option_to_list};
ghost use Rattle.lab_core.specs.Board.{Board};
ghost use Rattle.lab_core.specs.Labs.{RepresentsBoard};
ghost use Rattle.dap_slice.specs.Logs.{line_on, log_on, logs_on};

use crate::conditions::{ConditionalBreakpoint, ConditionalBreakpoints, LogPoint, acts};
use base_text::sequence::Sequence;
use base_text::text::Text;
use lab_core::lab::Lab;
use std::alloc::{AllocError, Global};

/// What a breakpoint tells, and the line where it stands.
#[derive(Drop)]
pub struct LogLine {
    pub text: Text,
    pub path: Text,
    pub line: u32,
}

fn line_on(alloc: Global, lab: &Lab, log: &LogPoint) -> Result<LogLine, AllocError>
    ensures { (b : Board) → RepresentsBoard lab.now b → IfOk result (λ line. line ≡ line_on b log.now) }
{
    let text = log.message.text(alloc, lab)?;
    let path = log.path.clone()?;
    Ok(LogLine {
        text,
        path,
        line: log.line,
    })
}

fn log_on(
    alloc: Global,
    lab: &Lab,
    point: &ConditionalBreakpoint,
) -> Result<Option<LogLine>, AllocError>
    ensures { (b : Board) → RepresentsBoard lab.now b → IfOk result (λ line. line ≡ log_on b point.now) }
{
    match &point.log {
        Some(log) if acts(lab, point) => Ok(Some(line_on(alloc, lab, log)?)),
        _ => Ok(None),
    }
}

fn push_line(lines: &mut Sequence<LogLine>, line: Option<LogLine>) -> Result<(), AllocError>
    ensures { OnOk result (lines.new ≡ lines.old ++ option_to_list line) }
{
    match line {
        None => Ok(()),
        Some(line) => lines.push(line),
    }
}

impl ConditionalBreakpoints {
    /// What the breakpoints at PC tell, in their order, before the instruction there is executed.
    pub fn logs(&self, alloc: Global, lab: &Lab) -> Result<Sequence<LogLine>, AllocError>
        ensures { (b : Board) → RepresentsBoard lab.now b
            → IfOk result (λ lines. lines ≡ logs_on self.now b) }
    {
        let mut lines = Sequence::new(alloc);
        let mut left = self.points.as_slice();
        while let Some((point, later)) = left.split_first() {
            push_line(&mut lines, log_on(alloc, lab, point)?)?;
            left = later;
        }
        Ok(lines)
    }
}
