//! Breakpoints as an editor is told of them.
ghost use Rattle.std.specs.Prelude.{◌≡◌, ◌<◌, ◌≤◌, ◌+◌, ℕ, length, IfOk};
ghost use Rattle.dap_messages.specs.declared.message.PlacedBreakpoint.{PlacedBreakpoint};
ghost use Rattle.dap_points.specs.Placed.{id_at, met_at, unmet_at, moved_note, landed_point, line_point};
ghost use Rattle.dap_points.specs.Placed.{line_points};
ghost use Rattle.dap_points.specs.Placed.{why_unmet, other_points, label_point, label_points};
ghost use Rattle.dap_points.specs.Placed.{met_where, points_by};
ghost use Rattle.dap_points.specs.Placed.{data_point, data_points, instruction_point, instruction_points};
ghost use Rattle.dap_points.specs.Placed.{unlaunched_at, unlaunched_label, unlaunched_labels};
ghost use Rattle.dap_points.specs.Placed.{unlaunched_datum, unlaunched_data};
ghost use Rattle.dap_points.specs.Placed.{unlaunched_instruction, unlaunched_instructions};

use base_text::sequence::Sequence;
use dap_messages::message::{BreakpointNote, BreakpointOptions, PlacedBreakpoint};
use dap_requests::request::{
    DataBreakpoint, FunctionBreakpoint, InstructionBreakpoint, LineBreakpoint,
};
use std::alloc::{AllocError, Global};

/// A breakpoint on a line of the program, and the first line with code at or below it, if there is one.
#[derive(Drop)]
pub struct LandedLine {
    pub line: u32,
    pub options: BreakpointOptions,
    /// What there is to object to it, wherever it lands.
    pub objection: Option<BreakpointNote>,
    pub landing: Option<u32>,
}

/// A breakpoint at a label, and the label's line, if the program has it.
#[derive(Drop)]
pub struct FoundLabel {
    pub line: Option<u32>,
    pub options: BreakpointOptions,
    /// What there is to object to it, wherever the label is.
    pub objection: Option<BreakpointNote>,
}

/// A breakpoint on data.
#[derive(Drop)]
pub struct CheckedData {
    pub options: BreakpointOptions,
    /// What there is to object to it.
    pub objection: Option<BreakpointNote>,
}

/// A breakpoint at an instruction.
#[derive(Drop)]
pub struct CheckedInstruction {
    pub address: Option<u16>,
    pub options: BreakpointOptions,
    /// What there is to object to it.
    pub objection: Option<BreakpointNote>,
}

/// The number of the list of labels, where a source has its own.
pub const LABEL_NUMBER: u32 = 0;

/// The number of the list of breakpoints on data.
pub const DATA_NUMBER: u32 = 1025;

/// The number of the list of breakpoints at instructions.
pub const INSTRUCTION_NUMBER: u32 = 1026;

/// How many places at most are watched: the first ones of a request.
const MOST_DATA: usize = 16;

/// Of a breakpoint that is never met.
const NO_OPTIONS: BreakpointOptions = BreakpointOptions {
    condition: None,
    hit_condition: None,
    log_message: None,
};

fn id_at(number: u32, index: usize) -> u32
    requires number { number ≤ 1026 }
    requires index { index < 256 }
    ensures { result ≡ id_at number index }
{
    256 * number + (index as u32 + 1)
}

// A breakpoint that is met on this line.
fn met_at(
    id: u32,
    line: u32,
    options: BreakpointOptions,
    note: Option<BreakpointNote>,
) -> PlacedBreakpoint
    ensures { result ≡ met_at id line options note }
{
    PlacedBreakpoint {
        id,
        line: Some(line),
        address: None,
        options,
        is_verified: true,
        note,
    }
}

// A breakpoint that is never met.
fn unmet_at(id: u32, line: Option<u32>, why: BreakpointNote) -> PlacedBreakpoint
    ensures { result ≡ unmet_at id line why }
{
    PlacedBreakpoint {
        id,
        line,
        address: None,
        options: NO_OPTIONS,
        is_verified: false,
        note: Some(why),
    }
}

fn moved_note(from: u32, line: u32) -> Option<BreakpointNote>
    ensures { result ≡ moved_note from line }
{
    if from == line {
        None
    } else {
        Some(BreakpointNote::Moved { from })
    }
}

fn landed_point(id: u32, landed: &LandedLine) -> Result<PlacedBreakpoint, AllocError>
    ensures { IfOk result (λ point. point ≡ landed_point id landed.now landed.now.landing) }
{
    let line = landed.line;
    match landed.landing {
        None => Ok(unmet_at(id, Some(line), BreakpointNote::NoCode { line })),
        Some(landing) => {
            let options = landed.options.clone()?;
            Ok(met_at(id, landing, options, moved_note(line, landing)))
        }
    }
}

fn line_point(id: u32, landed: &LandedLine) -> Result<PlacedBreakpoint, AllocError>
    ensures { IfOk result (λ point. point ≡ line_point id landed.now) }
{
    match &landed.objection {
        None => landed_point(id, landed),
        Some(why) => Ok(unmet_at(id, Some(landed.line), why.clone()?)),
    }
}

/// The breakpoints on these lines of the program, which is the source with this number.
pub fn line_points(
    alloc: Global,
    number: u32,
    lines: &[LandedLine],
) -> Result<Sequence<PlacedBreakpoint>, AllocError>
    requires number { number ≤ 1025 }
    requires few { length lines.now ≤ 256 }
    ensures { IfOk result (λ points. points ≡ line_points number 0 lines.now) }
{
    let mut points = Sequence::new(alloc);
    let mut index = 0;
    let mut left = lines;
    while let Some((line, later)) = left.split_first() {
        points.push(line_point(id_at(number, index), line)?)?;
        index += 1;
        left = later;
    }
    Ok(points)
}

fn why_unmet(why: &BreakpointNote, has_texts: bool) -> Result<BreakpointNote, AllocError>
    ensures { IfOk result (λ note. note ≡ why_unmet why.now has_texts) }
{
    if has_texts {
        Ok(why.clone()?)
    } else {
        Ok(BreakpointNote::NotText)
    }
}

/// The breakpoints on these lines of the source with this number, which isn't the program. `why` says why
/// they aren't met.
pub fn other_points(
    alloc: Global,
    why: &BreakpointNote,
    number: u32,
    lines: &[LineBreakpoint],
) -> Result<Sequence<PlacedBreakpoint>, AllocError>
    requires number { number ≤ 1025 }
    requires few { length lines.now ≤ 256 }
    ensures { IfOk result (λ points. points ≡ other_points why.now number 0 lines.now) }
{
    let mut points = Sequence::new(alloc);
    let mut index = 0;
    let mut left = lines;
    while let Some((line, later)) = left.split_first() {
        let note = why_unmet(why, line.has_texts)?;
        points.push(unmet_at(id_at(number, index), Some(line.line), note))?;
        index += 1;
        left = later;
    }
    Ok(points)
}

// ---- breakpoints beside the lines

// A breakpoint that is met at this address, or on data.
fn met_where(id: u32, address: Option<u16>, options: BreakpointOptions) -> PlacedBreakpoint
    ensures { result ≡ met_where id address options }
{
    PlacedBreakpoint {
        id,
        line: None,
        address,
        options,
        is_verified: true,
        note: None,
    }
}

// A breakpoint of a list, in which its place alone says its number.
trait Listed {
    // As an editor is told of it at this place.
    ghost point: { ℕ → Self → PlacedBreakpoint };

    fn point(&self, index: usize) -> Result<PlacedBreakpoint, AllocError>
        requires { index < 256 }
        ensures { IfOk result (λ placed. placed ≡ point index self.now) };
}

fn listed_points<T: Listed>(
    alloc: Global,
    breakpoints: &[T],
) -> Result<Sequence<PlacedBreakpoint>, AllocError>
    requires { length breakpoints.now ≤ 256 }
    ensures { IfOk result (λ points. points ≡ points_by T.point 0 breakpoints.now) }
{
    let mut points = Sequence::new(alloc);
    let mut index = 0;
    let mut left = breakpoints;
    while let Some((first, later)) = left.split_first() {
        points.push(first.point(index)?)?;
        index += 1;
        left = later;
    }
    Ok(points)
}

impl Listed for FoundLabel {
    ghost point = { label_point };

    fn point(&self, index: usize) -> Result<PlacedBreakpoint, AllocError> {
        let id = id_at(LABEL_NUMBER, index);
        match (&self.objection, self.line) {
            (Some(why), line) => Ok(unmet_at(id, line, why.clone()?)),
            (None, None) => Ok(unmet_at(id, None, BreakpointNote::NoLabel)),
            (None, Some(line)) => Ok(met_at(id, line, self.options.clone()?, None)),
        }
    }
}

/// The breakpoints at labels of the program.
pub fn label_points(
    alloc: Global,
    labels: &[FoundLabel],
) -> Result<Sequence<PlacedBreakpoint>, AllocError>
    requires { length labels.now ≤ 256 }
    ensures { IfOk result (λ points. points ≡ label_points 0 labels.now) }
{
    listed_points(alloc, labels)
}

impl Listed for CheckedData {
    ghost point = { data_point };

    fn point(&self, index: usize) -> Result<PlacedBreakpoint, AllocError> {
        let id = id_at(DATA_NUMBER, index);
        match &self.objection {
            Some(why) => Ok(unmet_at(id, None, why.clone()?)),
            None if index < MOST_DATA => Ok(met_where(id, None, self.options.clone()?)),
            None => Ok(unmet_at(id, None, BreakpointNote::TooManyData)),
        }
    }
}

/// The breakpoints on data of a program.
pub fn data_points(
    alloc: Global,
    checked: &[CheckedData],
) -> Result<Sequence<PlacedBreakpoint>, AllocError>
    requires { length checked.now ≤ 256 }
    ensures { IfOk result (λ points. points ≡ data_points 0 checked.now) }
{
    listed_points(alloc, checked)
}

impl Listed for CheckedInstruction {
    ghost point = { instruction_point };

    fn point(&self, index: usize) -> Result<PlacedBreakpoint, AllocError> {
        let id = id_at(INSTRUCTION_NUMBER, index);
        match (&self.objection, self.address) {
            (Some(why), _) => Ok(unmet_at(id, None, why.clone()?)),
            (None, None) => Ok(unmet_at(id, None, BreakpointNote::NoAddress)),
            (None, Some(address)) => Ok(met_where(id, Some(address), self.options.clone()?)),
        }
    }
}

/// The breakpoints at instructions of a program.
pub fn instruction_points(
    alloc: Global,
    checked: &[CheckedInstruction],
) -> Result<Sequence<PlacedBreakpoint>, AllocError>
    requires { length checked.now ≤ 256 }
    ensures { IfOk result (λ points. points ≡ instruction_points 0 checked.now) }
{
    listed_points(alloc, checked)
}

// ---- as long as there is no program

fn unlaunched_at(id: u32, has_texts: bool) -> Result<PlacedBreakpoint, AllocError>
    ensures { IfOk result (λ point. point ≡ unlaunched_at id has_texts) }
{
    let why = why_unmet(&BreakpointNote::NotLaunched, has_texts)?;
    Ok(unmet_at(id, None, why))
}

impl Listed for FunctionBreakpoint {
    ghost point = { unlaunched_label };

    fn point(&self, index: usize) -> Result<PlacedBreakpoint, AllocError> {
        unlaunched_at(id_at(LABEL_NUMBER, index), self.has_texts)
    }
}

/// The breakpoints at labels, as long as there is no program.
pub fn unlaunched_labels(
    alloc: Global,
    labels: &[FunctionBreakpoint],
) -> Result<Sequence<PlacedBreakpoint>, AllocError>
    requires { length labels.now ≤ 256 }
    ensures { IfOk result (λ points. points ≡ unlaunched_labels 0 labels.now) }
{
    listed_points(alloc, labels)
}

impl Listed for DataBreakpoint {
    ghost point = { unlaunched_datum };

    fn point(&self, index: usize) -> Result<PlacedBreakpoint, AllocError> {
        unlaunched_at(id_at(DATA_NUMBER, index), self.has_texts)
    }
}

/// The breakpoints on data, as long as there is no program.
pub fn unlaunched_data(
    alloc: Global,
    breakpoints: &[DataBreakpoint],
) -> Result<Sequence<PlacedBreakpoint>, AllocError>
    requires { length breakpoints.now ≤ 256 }
    ensures { IfOk result (λ points. points ≡ unlaunched_data 0 breakpoints.now) }
{
    listed_points(alloc, breakpoints)
}

impl Listed for InstructionBreakpoint {
    ghost point = { unlaunched_instruction };

    fn point(&self, index: usize) -> Result<PlacedBreakpoint, AllocError> {
        unlaunched_at(id_at(INSTRUCTION_NUMBER, index), self.has_texts)
    }
}

/// The breakpoints at instructions, as long as there is no program.
pub fn unlaunched_instructions(
    alloc: Global,
    breakpoints: &[InstructionBreakpoint],
) -> Result<Sequence<PlacedBreakpoint>, AllocError>
    requires { length breakpoints.now ≤ 256 }
    ensures { IfOk result (λ points. points ≡ unlaunched_instructions 0 breakpoints.now) }
{
    listed_points(alloc, breakpoints)
}
