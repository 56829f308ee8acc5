//! The frames of a stopped run.
ghost use Rattle.std.specs.Prelude.{◌≡◌, ◌≤◌, ◌+◌, ◌∷◌, List, length, map, reverse};
ghost use Rattle.std.specs.Prelude.{option_map, unwrap_or, slice_get, IfOk, Some, codes};
ghost use Rattle.i80_devs.specs.Past.{Operation};
ghost use Rattle.lab_image.specs.Loads.{Load, GivesOrigins};
ghost use Rattle.lab_views.specs.Paging.{asked_for, page};
ghost use Rattle.lab_views.specs.Parts.{parts_with};
ghost use Rattle.lab_views.specs.Frames as frames;

use crate::names::routine_name;
use crate::paging::{asked_for, end_of};
use crate::parts::Parts;
use base_text::sequence::Sequence;
use base_text::text::Text;
use lab_image::sources::Sources;
use lab_shown::shown::StackFrame;
use std::alloc::{AllocError, Global};

/// The most frames that are shown at once.
const MOST_FRAMES: u32 = 64;

/// The path of a source, by its number.
pub(crate) fn path_of(
    alloc: Global,
    sources: &Sources,
    number: u32,
) -> Result<Option<Text>, AllocError>
    ensures { IfOk result (λ path. path ≡ frames.path_of sources.now number) }
{
    match sources.get(number as usize) {
        Some(source) => {
            let path = Text::copy_of(alloc, source.path.as_str())?;
            Ok(Some(path))
        }
        None => Ok(None),
    }
}

fn frame_at(
    alloc: Global,
    parts: &Parts,
    id: u32,
    name: Text,
    address: u16,
) -> Result<StackFrame, AllocError>
    ensures { (past : List Operation) (loads : List Load) → GivesOrigins parts.now.origins.now loads
        → IfOk result (λ frame. frame
        ≡ frames.frame_at (parts_with parts.now past loads) id name address) }
{
    match parts.origins.at(address) {
        Some(origin) => {
            let source = path_of(alloc, parts.sources, origin.source)?;
            Ok(StackFrame {
                id,
                name,
                source,
                line: origin.line,
                address,
            })
        }
        None => Ok(StackFrame {
            id,
            name,
            source: None,
            line: 0,
            address,
        }),
    }
}

/// The address at which a frame stands, by its index.
fn address_of(parts: &Parts, index: usize) -> u16
    requires { index ≤ length parts.now.frames.now }
    ensures { slice_get (parts.now.machine.now.regs.pc
        ∷ map (λ f. f.site) (reverse parts.now.frames.now)) index ≡ Some result }
{
    if index == 0 {
        return parts.machine.regs().pc;
    }
    match parts.frames.get(index - 1) {
        Some(frame) => frame.site,
        None => unreachable!(),
    }
}

fn name_of(alloc: Global, parts: &Parts, index: usize) -> Result<Text, AllocError>
    ensures { IfOk result (λ name. name ≡ unwrap_or (option_map
        (λ f. frames.routine_name parts.now.symbols.now f.target)
        (slice_get (reverse parts.now.frames.now) index)) (codes "main")) }
{
    match parts.frames.get(index) {
        Some(frame) => routine_name(alloc, parts.symbols, frame.target),
        None => Text::copy_of(alloc, "main"),
    }
}

/// A frame by its index, from 0 for the innermost to the number of live frames.
fn frame(alloc: Global, parts: &Parts, index: usize) -> Result<StackFrame, AllocError>
    requires inside { index ≤ length parts.now.frames.now }
    requires few { index ≤ 65536 }
    ensures { (past : List Operation) (loads : List Load) → GivesOrigins parts.now.origins.now loads
        → IfOk result (λ frame. slice_get
        (frames.all_frames (parts_with parts.now past loads)) index ≡ Some frame) }
{
    let address = address_of(parts, index);
    let name = name_of(alloc, parts, index)?;
    let frame = frame_at(alloc, parts, index as u32 + 1, name, address)?;
    Ok(frame)
}

/// The number of frames.
pub(crate) fn frame_count(parts: &Parts) -> u32
    ensures { result ≡ length parts.now.frames.now + 1 }
{
    parts.frames.len() as u32 + 1
}

/// The frames from one on, where 0 is the innermost: at most `levels`, and at most 64. 0 levels mean 64.
pub(crate) fn frames(
    alloc: Global,
    parts: &Parts,
    start: u32,
    levels: u32,
) -> Result<Sequence<StackFrame>, AllocError>
    ensures { (past : List Operation) (loads : List Load) → GivesOrigins parts.now.origins.now loads
        → IfOk result (λ shown. shown ≡ page start (asked_for 64 64 levels)
        (frames.all_frames (parts_with parts.now past loads))) }
{
    let most = asked_for(MOST_FRAMES, MOST_FRAMES, levels);
    let end = end_of(start, most, parts.frames.len() + 1);
    let mut frames = Sequence::new(alloc);
    for index in start as usize..end {
        let frame = frame(alloc, parts, index)?;
        frames.push(frame)?;
    }
    Ok(frames)
}
