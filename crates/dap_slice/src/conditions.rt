//! Breakpoints with conditions or log messages.
ghost use Rattle.std.specs.Prelude.{◌≡◌, ◌++◌, ◌∷◌, [], List, IfOk, OnOk, OnErr};
ghost use Rattle.std.specs.List.{list_any};
ghost use Rattle.asm_expr.specs.declared.evaluation.ExprFault.{ExprFault};
ghost use Rattle.lab_core.specs.Board.{Board};
ghost use Rattle.lab_core.specs.Labs.{RepresentsBoard};
ghost use Rattle.dap_slice.specs.declared.conditions.ConditionalBreakpoint.{ConditionalBreakpoint};
ghost use Rattle.dap_slice.specs.Conditions.{is_reached, is_true, holds_on, is_met_on, acts_on, stops_on};
ghost use Rattle.dap_slice.specs.Conditions.{stops_back, is_looked_for, is_any_looked_for, IsMarked};

use crate::hits::{Hits, is_wanted};
use asm_expr::evaluation::ExprFault;
use base_text::text::Text;
use dap_expr::expression::Expression;
use dap_log::message::LogMessage;
use lab_core::lab::Lab;
use lab_core::marks::Marks;
use lab_shown::place::Place;
use std::alloc::{AllocError, Global};
use std::marker::Model;

/// A log message, and the line where it stands.
#[derive(Drop)]
pub struct LogPoint {
    pub message: LogMessage,
    pub path: Text,
    pub line: u32,
}

/// Where a breakpoint is met.
#[derive(Clone, Copy)]
pub enum Trigger {
    /// Where PC comes to this address.
    Address(u16),
    /// Where an instruction has just changed this place.
    Change(Place),
    /// Where the board itself stops the run: before a statement on this line.
    Line(u32),
}

/// A breakpoint that is met only where its condition is true, if it has one. It stops the run there, or, if
/// it is at an address, tells its log message; with a hit condition only at the hits that this names. One of
/// the board's own, on a line, has neither.
#[derive(Drop)]
pub struct ConditionalBreakpoint {
    /// Its number. Those for the places of one data breakpoint have the same.
    pub id: u32,
    pub trigger: Trigger,
    pub condition: Option<Expression>,
    pub hits: Option<Hits>,
    pub log: Option<LogPoint>,
}

/// Such breakpoints, with marks at their addresses and watches of their places.
#[derive(Drop)]
pub struct ConditionalBreakpoints {
    pub(crate) points: Vec<ConditionalBreakpoint>,
    pub(crate) marks: Marks,
}

impl Model for ConditionalBreakpoints {
    ghost use Rattle.std.specs.Prelude.{List};
    ghost use Rattle.dap_slice.specs.declared.conditions.ConditionalBreakpoint.{ConditionalBreakpoint};
    ghost use Rattle.dap_slice.specs.Conditions.{IsMarked};
    ghost use Rattle.std.specs.Coded.{codes};
    ghost use Rattle.asm_expr.specs.contracts.expression.Expr as expr;

    ghost Value = { List ConditionalBreakpoint };

    ghost coded = { Prim.hlevel (codes, expr.the_row.coded) };

    ghost view = { λ b. b.points.items };

    ghost invariant = { λ b. IsMarked b.points.items b.marks };
}

fn is_true(value: Result<u16, ExprFault>) -> bool
    ensures { result ≡ is_true value }
{
    match value {
        Ok(value) => value != 0,
        Err(_) => true,
    }
}

/// Whether a breakpoint's condition is true.
pub(crate) fn holds(lab: &Lab, condition: &Option<Expression>) -> bool
    ensures { (b : Board) → RepresentsBoard lab.now b → result ≡ holds_on b condition.now }
{
    match condition {
        None => true,
        Some(condition) => is_true(condition.value(lab)),
    }
}

// Whether PC is to come to this address.
fn is_reached(address: u16, trigger: Trigger) -> bool
    ensures { result ≡ is_reached address trigger }
{
    match trigger {
        Trigger::Address(there) => there == address,
        Trigger::Change(_) | Trigger::Line(_) => false,
    }
}

fn is_looked_for(trigger: Trigger) -> bool
    ensures { result ≡ is_looked_for trigger }
{
    match trigger {
        Trigger::Address(_) | Trigger::Change(_) => true,
        Trigger::Line(_) => false,
    }
}

/// Whether a slice looks for one of these: at lines the board itself stops.
pub(crate) fn is_any_looked_for(points: &[ConditionalBreakpoint]) -> bool
    ensures { result ≡ is_any_looked_for points.now }
{
    for point in points {
        if is_looked_for(point.trigger) {
            return true;
        }
    }
    false
}

// Whether a breakpoint is at PC and its condition is true.
fn is_met(lab: &Lab, point: &ConditionalBreakpoint) -> bool
    ensures { (b : Board) → RepresentsBoard lab.now b → result ≡ is_met_on b point.now }
{
    is_reached(lab.regs().pc, point.trigger) && holds(lab, &point.condition)
}

/// Whether a breakpoint is met, and at a hit that it names.
pub(crate) fn acts(lab: &Lab, point: &ConditionalBreakpoint) -> bool
    ensures { (b : Board) → RepresentsBoard lab.now b → result ≡ acts_on b point.now }
{
    is_wanted(point.hits) && is_met(lab, point)
}

fn stops(lab: &Lab, point: &ConditionalBreakpoint) -> bool
    ensures { (b : Board) → RepresentsBoard lab.now b → result ≡ stops_on b point.now }
{
    point.log.is_none() && acts(lab, point)
}

/// Whether a breakpoint stops a run that goes back.
pub(crate) fn stops_back(lab: &Lab, point: &ConditionalBreakpoint) -> bool
    ensures { (b : Board) → RepresentsBoard lab.now b → result ≡ stops_back b point.now }
{
    point.hits.is_none() && stops(lab, point)
}

/// Whether a breakpoint without a log message is met.
pub(crate) fn is_any_met(lab: &Lab, points: &[ConditionalBreakpoint]) -> bool
    ensures { (b : Board) → RepresentsBoard lab.now b → result ≡ list_any (stops_on b) points.now }
{
    for point in points {
        if stops(lab, point) {
            return true;
        }
    }
    false
}

// Marks where a breakpoint may be met.
fn mark(marks: &mut Marks, trigger: Trigger) -> Result<(), AllocError>
    ensures ok { (points : List ConditionalBreakpoint) (p : ConditionalBreakpoint) → p.trigger ≡ trigger
        → IsMarked points marks.old → OnOk result (IsMarked (points ++ p ∷ []) marks.new) }
    ensures err { OnErr result (marks.new ≡ marks.old) }
{
    match trigger {
        Trigger::Address(address) => {
            marks.add_address(address);
            Ok(())
        }
        Trigger::Change(place) => marks.watch(place),
        Trigger::Line(_) => Ok(()),
    }
}

impl ConditionalBreakpoints {
    /// No breakpoints.
    pub fn new(alloc: Global) -> Result<ConditionalBreakpoints, AllocError>
        ensures { IfOk result (λ points. points ≡ []) }
    {
        let marks = Marks::new(alloc)?;
        Ok(ConditionalBreakpoints {
            points: Vec::new(alloc),
            marks,
        })
    }

    /// The breakpoints, in their order.
    pub fn points(&self) -> &[ConditionalBreakpoint]
        ensures { result.now ≡ self.now }
    {
        &self.points
    }

    /// New marks where these breakpoints may be met, for slices that are made apart from theirs.
    pub fn new_marks(&self, alloc: Global) -> Result<Marks, AllocError>
        ensures { IfOk result (IsMarked self.now) }
    {
        let mut marks = Marks::new(alloc)?;
        for point in &self.points {
            mark(&mut marks, point.trigger)?;
        }
        Ok(marks)
    }

    /// Whether one of those at addresses stops a run that goes back to where the board is.
    pub fn is_any_met_back(&self, lab: &Lab) -> bool
        ensures { (b : Board) → RepresentsBoard lab.now b → result ≡ list_any (stops_back b) self.now }
    {
        for point in &self.points {
            if stops_back(lab, point) {
                return true;
            }
        }
        false
    }

    /// Adds a breakpoint. If memory runs out nothing changes.
    pub fn push(&mut self, point: ConditionalBreakpoint) -> Result<(), AllocError>
        ensures ok { OnOk result (self.new ≡ self.old ++ point ∷ []) }
        ensures err { OnErr result (self.new ≡ self.old) }
    {
        self.points.reserve(1)?;
        mark(&mut self.marks, point.trigger)?;
        self.points.push_reserved(point);
        Ok(())
    }
}
