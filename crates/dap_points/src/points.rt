//! The breakpoints that an editor has set.
ghost use Rattle.std.specs.Prelude.{◌≡◌, ◌<◌, ◌≤◌, length, take, true, IfOk, IfSome};
ghost use Rattle.dap_points.specs.Points.{no_points, place_of, number_of, has_place, lines_at, with_lines};

use base_text::sequence::Sequence;
use base_text::text::Text;
use dap_requests::request::{
    DataBreakpoint, FunctionBreakpoint, InstructionBreakpoint, LineBreakpoint,
};
use std::alloc::{AllocError, Global};
use std::marker::Model;

/// The most sources whose breakpoints are kept.
pub const MOST_SOURCES: usize = 1024;

/// The most breakpoints that are used of a request: on lines, at labels, on data or at instructions.
pub const MOST_POINTS: usize = 256;

/// The breakpoints of a source, in the order of the request.
#[derive(Drop)]
pub struct SourceLines {
    pub path: Text,
    pub lines: Sequence<LineBreakpoint>,
}

impl SourceLines {
    /// The breakpoints that are used: the first 256.
    pub fn used(&self) -> &[LineBreakpoint]
        ensures lines { result.now ≡ take 256 self.now.lines }
        ensures few { length result.now ≤ 256 }
    {
        first(self.lines.as_slice())
    }
}

/// The breakpoints that an editor has set: on the lines of each source, at labels, on data, and at
/// instructions. A source whose breakpoints are removed keeps its place.
#[derive(Drop)]
pub struct WantedBreakpoints {
    lists: Vec<SourceLines>,
    functions: Sequence<FunctionBreakpoint>,
    on_data: Sequence<DataBreakpoint>,
    instructions: Sequence<InstructionBreakpoint>,
}

impl Model for WantedBreakpoints {
    ghost use Rattle.std.specs.Prelude.{◌≤◌, length, vec_capacity};
    ghost use Rattle.dap_points.specs.Points.{WantedBreakpointsState};

    ghost Value = { WantedBreakpointsState };

    ghost view = { λ p. record {
      lists = p.lists.items;
      functions = p.functions;
      on_data = p.on_data;
      instructions = p.instructions;
    } };

    // Room for all is made at the start.
    ghost invariant = { λ p. (length p.lists.items ≤ 1024) × (1024 ≤ vec_capacity p.lists) };
}

// The place of a source, if it has one.
fn place_of(lists: &[SourceLines], path: &str) -> Option<usize>
    ensures place { result ≡ place_of path.now lists.now }
    ensures within { IfSome result (λ place. place < length lists.now) }
{
    lists.iter().position(|list| list.path.as_str() == path)
}

// The items that are used: the first 256.
fn first<T>(items: &[T]) -> &[T]
    ensures first { result.now ≡ take 256 items.now }
    ensures few { length result.now ≤ 256 }
{
    if items.len() <= MOST_POINTS {
        return items;
    }
    let (first, _) = items.split_at(MOST_POINTS);
    first
}

impl WantedBreakpoints {
    /// No breakpoints, with room for the lines of 1,024 sources.
    pub fn new(alloc: Global) -> Result<WantedBreakpoints, AllocError>
        ensures { IfOk result (λ points. points ≡ no_points) }
    {
        let lists = Vec::with_capacity(alloc, MOST_SOURCES)?;
        Ok(WantedBreakpoints {
            lists,
            functions: Sequence::new(alloc),
            on_data: Sequence::new(alloc),
            instructions: Sequence::new(alloc),
        })
    }

    /// The number of a source, from 1; for a new source the number that it will get.
    pub fn number_of(&self, path: &str) -> u32
        ensures number { result ≡ number_of path.now self.now.lists }
        ensures few { result ≤ 1025 }
    {
        match place_of(&self.lists, path) {
            Some(place) => place as u32 + 1,
            None => self.lists.len() as u32 + 1,
        }
    }

    /// Whether there is room for the lines of this source.
    pub fn has_place(&self, path: &str) -> bool
        ensures { result ≡ has_place path.now self.now.lists }
    {
        match place_of(&self.lists, path) {
            Some(_) => true,
            None => self.lists.len() < MOST_SOURCES,
        }
    }

    /// All sources, of which the first has the number 1.
    pub fn sources(&self) -> &[SourceLines]
        ensures sources { result.now ≡ self.now.lists }
        ensures few { length result.now ≤ 1024 }
    {
        &self.lists
    }

    /// The breakpoints of a source.
    pub fn lines_at(&self, path: &str) -> &[LineBreakpoint]
        ensures lines { result.now ≡ lines_at path.now self.now.lists }
        ensures few { length result.now ≤ 256 }
    {
        match place_of(&self.lists, path) {
            Some(place) => self.lists[place].used(),
            None => &[],
        }
    }

    /// The breakpoints at labels.
    pub fn functions(&self) -> &[FunctionBreakpoint]
        ensures labels { result.now ≡ take 256 self.now.functions }
        ensures few { length result.now ≤ 256 }
    {
        first(self.functions.as_slice())
    }

    /// The breakpoints on data.
    pub fn on_data(&self) -> &[DataBreakpoint]
        ensures points { result.now ≡ take 256 self.now.on_data }
        ensures few { length result.now ≤ 256 }
    {
        first(self.on_data.as_slice())
    }

    /// The breakpoints at instructions.
    pub fn instructions(&self) -> &[InstructionBreakpoint]
        ensures points { result.now ≡ take 256 self.now.instructions }
        ensures few { length result.now ≤ 256 }
    {
        first(self.instructions.as_slice())
    }

    /// Gives a source these breakpoints, without allocating.
    pub fn set_lines(&mut self, path: Text, lines: Sequence<LineBreakpoint>)
        requires { has_place path self.old.lists ≡ true }
        ensures { self.new ≡ with_lines path lines self.old }
    {
        let place = place_of(&self.lists, path.as_str());
        let list = SourceLines { path, lines };
        match place {
            Some(place) => self.lists[place] = list,
            None => self.lists.push_reserved(list),
        }
    }

    /// Replaces the breakpoints at labels by these.
    pub fn set_functions(&mut self, functions: Sequence<FunctionBreakpoint>)
        ensures { self.new ≡ record self.old { functions = functions } }
    {
        self.functions = functions;
    }

    /// Replaces the breakpoints on data by these.
    pub fn set_data(&mut self, points: Sequence<DataBreakpoint>)
        ensures { self.new ≡ record self.old { on_data = points } }
    {
        self.on_data = points;
    }

    /// Replaces the breakpoints at instructions by these.
    pub fn set_instructions(&mut self, points: Sequence<InstructionBreakpoint>)
        ensures { self.new ≡ record self.old { instructions = points } }
    {
        self.instructions = points;
    }
}
