//! Lines to which PC can be set.
ghost use Rattle.std.specs.Prelude.{◌≡◌};
ghost use Rattle.lab_core.specs.Board.{Board};
ghost use Rattle.lab_core.specs.Labs.{RepresentsBoard};
ghost use Rattle.dap_disassembly.specs.Targets as targets;

use dap_messages::message::GotoTarget;
use lab_core::lab::Lab;
use lab_image::origin::Origin;

/// The number of addresses.
pub(crate) const ADDRESSES: u32 = 65_536;

fn target_of(origin: Origin, line: u32, address: u16) -> Option<GotoTarget>
    ensures { result ≡ targets.target_of line address origin }
{
    let found = u32::try_from(origin.line).ok()?;
    if origin.is_first && line <= found {
        Some(GotoTarget {
            address,
            line: found,
        })
    } else {
        None
    }
}

pub(crate) fn target_at(lab: &Lab, line: u32, address: u16) -> Option<GotoTarget>
    ensures { (b : Board) → RepresentsBoard lab.now b → result ≡ targets.target_at b line address }
{
    target_of(lab.origin_at(address)?, line, address)
}

// That on the earlier line, and of one line the first.
fn earlier(first: Option<GotoTarget>, second: Option<GotoTarget>) -> Option<GotoTarget>
    ensures { result ≡ targets.earlier first second }
{
    match (first, second) {
        (None, _) => second,
        (Some(_), None) => first,
        (Some(t), Some(u)) => if u.line < t.line { second } else { first },
    }
}

/// The first line at or below this one on which a statement with bytes begins, if there is one. Every
/// statement on a program's board is the program's own.
#[tactic(auto, unfolding(crate::specs::Targets::first_target))]
pub fn first_target(lab: &Lab, line: u32) -> Option<GotoTarget>
    ensures { (b : Board) → RepresentsBoard lab.now b → result ≡ targets.first_target b line }
{
    let mut best = None;
    for address in 0..ADDRESSES {
        best = earlier(best, target_at(lab, line, address as u16));
    }
    best
}
