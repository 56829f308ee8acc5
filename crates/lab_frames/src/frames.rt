//! The live frames, kept as a stack that each step pops and pushes.
ghost use Rattle.std.specs.Prelude.{◌≡◌, ℕ, ◌+◌, ◌<◌, ◌≤◌, ◌++◌, [], length, reverse, IfOk};
ghost use Rattle.std.specs.Prelude.{slice_get, vec_len, vec_capacity};
ghost use Rattle.lab_frames.specs.Live.{made_by, ended_by};
ghost use Rattle.lab_frames.specs.Frames.{survivors, FollowsStep, Falls, AtLeast};
ghost use Rattle.lab_frames.specs.Frames.{CallsAt, is_from_above, frame_floor_of};

use crate::frame::Frame;
use i80_base::memory::MEMORY_SIZE;
use i80_exec::registers::Stepped;
use std::alloc::{AllocError, Global};
use std::marker::Model;

/// The most frames that can be live at once: one for each slot.
const ROOM: usize = MEMORY_SIZE;

/// The live frames of a run. A contract sees them as a list, oldest first.
#[derive(Drop)]
pub struct Frames {
    frames: Vec<Frame>,
}

impl Model for Frames {
    ghost use Rattle.std.specs.Prelude.{◌≤◌, List, vec_capacity};
    ghost use Rattle.lab_frames.specs.declared.frame.Frame.{Frame};
    ghost use Rattle.lab_frames.specs.Frames.{Falls};

    ghost Value = { List Frame };

    ghost view = { λ f. f.frames.items };

    // Each slot is below the older ones, and there is room for a frame at every slot.
    ghost invariant = { λ f. Falls 65536 f.frames.items × (65536 ≤ vec_capacity f.frames) };
}

impl Frames {
    /// No frames, as before the first step of a run, with room for all that can be live at once.
    pub fn new(alloc: Global) -> Result<Frames, AllocError>
        ensures { IfOk result (λ frames. frames ≡ []) }
    {
        let frames = Vec::with_capacity(alloc, ROOM)?;
        Ok(Frames { frames })
    }

    /// A copy of the frames, with room for all that can be live at once.
    pub fn copy(&self, alloc: Global) -> Result<Frames, AllocError>
        ensures { IfOk result (λ frames. frames ≡ self.now) }
    {
        let mut frames = Vec::with_capacity(alloc, ROOM)?;
        frames.extend_from_slice(self.frames.as_slice())?;
        Ok(Frames { frames })
    }

    /// Follows one more step, which reported `answer`, with PC at `site` before it and SP at `sp` after it:
    /// drops the frames that it ends, and adds the one that it makes, if any. Returns how many of the frames
    /// before it are left.
    #[inline]
    pub fn advance(&mut self, answer: Stepped, site: u16, sp: u16) -> usize
        // This holds of each instruction and each accepted request (proofs/StepLemmas.antt). Where SP was
        // before the step doesn't matter: it may have been changed by hand, with live slots below it.
        requires calls { CallsAt answer sp }
        ensures { FollowsStep answer site sp (self.old, self.new) result }
    {
        drop_ended(&mut self.frames, answer, sp);
        let left = self.frames.len();
        push_made(&mut self.frames, answer, site);
        left
    }

    /// Drops every frame, as a new run does.
    pub fn clear(&mut self)
        ensures { self.new ≡ [] }
    {
        self.frames.clear();
    }

    /// The number of live frames.
    pub fn len(&self) -> usize
        ensures len { result ≡ length self.now }
        ensures few { result ≤ 65536 }
    {
        self.frames.len()
    }

    /// The innermost frame.
    #[inline]
    pub fn newest(&self) -> Option<Frame>
        ensures { result ≡ slice_get (reverse self.now) 0 }
    {
        self.frames.last().copied()
    }

    /// One above the newest slot, or 65536 if no frame is live. A step that neither calls nor returns and
    /// leaves SP below this ends no frame.
    #[inline]
    pub fn frame_floor(&self) -> u32
        ensures frame_floor { result ≡ frame_floor_of (slice_get (reverse self.now) 0) }
        ensures above { (sp : ℕ) → sp < result → AtLeast sp self.now }
    {
        match self.frames.last() {
            Some(frame) => frame.slot as u32 + 1,
            None => MEMORY_SIZE as u32,
        }
    }

    /// A frame by its age, where 0 is the innermost. `None` from `len` on.
    pub fn get(&self, age: usize) -> Option<Frame>
        ensures { result ≡ slice_get (reverse self.now) age }
    {
        if age >= self.frames.len() {
            return None;
        }
        Some(self.frames[self.frames.len() - 1 - age])
    }
}

/// Whether a step that reported `answer` and left SP at `sp` ends a frame of this slot: it is a
/// return from the slot, a call with a slot at or above it, or it leaves SP above it.
#[inline]
pub fn is_ended(answer: Stepped, sp: u16, slot: u16) -> bool
    ensures { result ≡ ended_by answer sp slot }
{
    let returned_or_covered = match answer {
        Stepped::Called { slot: called, .. } => slot <= called,
        Stepped::Returned { slot: from } => slot == from,
        _ => false,
    };
    slot < sp || returned_or_covered
}

#[inline]
fn returns_from_above(answer: Stepped, slot: u16) -> bool
    ensures { result ≡ is_from_above answer slot }
{
    match answer {
        Stepped::Returned { slot: from } => slot < from,
        _ => false,
    }
}

// Since slots fall, the frames that a step ends are the newest ones: those below SP after it, and those that
// a call covers. A return also ends the frame of its slot. This one lies among frames that stay only if SP
// was changed by hand and wraps: a return from FFFEh or FFFFh leaves SP at 0 or 1.
#[inline]
fn drop_ended(frames: &mut Vec<Frame>, answer: Stepped, sp: u16)
    requires falls { Falls 65536 frames.old.items }
    ensures left { frames.new.items ≡ survivors answer sp frames.old.items }
    ensures room { vec_capacity frames.new ≡ vec_capacity frames.old }
{
    while let Some(newest) = frames.last() {
        let slot = newest.slot;
        if !is_ended(answer, sp, slot) {
            if !returns_from_above(answer, slot) {
                return;
            }
            drop_among(frames, answer, sp);
            return;
        }
        let _ = frames.pop();
    }
}

// The same, wherever the ended frames are. It is a function of its own, so that the usual path is one
// comparison with the newest slot.
#[cold]
#[inline(never)]
fn drop_among(frames: &mut Vec<Frame>, answer: Stepped, sp: u16)
    ensures left { frames.new.items ≡ survivors answer sp frames.old.items }
    ensures room { vec_capacity frames.new ≡ vec_capacity frames.old }
{
    frames.retain(move |frame| !is_ended(answer, sp, frame.slot));
}

#[inline]
fn push_made(frames: &mut Vec<Frame>, answer: Stepped, site: u16)
    requires { vec_len frames.old + length (made_by answer site) ≤ vec_capacity frames.old }
    ensures pushed { frames.new.items ≡ frames.old.items ++ made_by answer site }
    ensures room { vec_capacity frames.new ≡ vec_capacity frames.old }
{
    match answer {
        Stepped::Called { slot, target } => frames.push_reserved(Frame { slot, target, site }),
        _ => {}
    }
}
