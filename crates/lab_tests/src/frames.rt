//! Live frames over a few steps.
use crate::told::expect_told;
use i80_exec::registers::Stepped;
use lab_frames::frame::Frame;
use lab_frames::frames::{Frames, is_ended};
use std::alloc::{AllocError, Global};

/// A step.
#[derive(Clone, Copy)]
enum Act {
    /// The call that makes this frame.
    Call(Frame),
    /// A return from this slot, with PC before it and SP after it.
    Return(u16, u16, u16),
    /// Another step, with PC before it and SP after it.
    Done(u16, u16),
    /// No step: all frames go.
    Clear,
}

const OUTER: Frame = Frame {
    slot: 0xfffe,
    target: 0x0200,
    site: 0x0100,
};

const INNER: Frame = Frame {
    slot: 0xfffc,
    target: 0x0300,
    site: 0x0203,
};

/// Makes a step, and gives how many of the frames before it are left.
fn follow(frames: &mut Frames, act: Act) -> usize {
    match act {
        Act::Call(Frame { slot, target, site }) => {
            frames.advance(Stepped::Called { slot, target }, site, slot)
        }
        Act::Return(slot, site, sp) => frames.advance(Stepped::Returned { slot }, site, sp),
        Act::Done(site, sp) => frames.advance(Stepped::Done, site, sp),
        Act::Clear => {
            frames.clear();
            0
        }
    }
}

fn put_frame(frames: &Frames, age: usize, told: &mut String) -> Result<(), AllocError> {
    match frames.get(age) {
        Some(frame) => write!(
            told,
            " {:04X} {:04X} {:04X}",
            frame.slot, frame.target, frame.site
        ),
        None => told.push_str(" none"),
    }
}

/// Adds the frames that are live, the innermost first, and that none is behind them.
fn put_frames(frames: &Frames, told: &mut String) -> Result<(), AllocError> {
    if frames.newest() != frames.get(0) {
        told.push_str(" not the newest")?;
    }
    for age in 0..frames.len() {
        put_frame(frames, age, told)?;
    }
    put_frame(frames, frames.len(), told)?;
    told.push('\n')
}

fn tell_all(frames: &mut Frames, acts: &[Act], told: &mut String) -> Result<(), AllocError> {
    for act in acts {
        let left = follow(frames, *act);
        write!(told, "{left}")?;
        put_frames(frames, told)?;
    }
    Ok(())
}

fn tell_play(alloc: Global, acts: &[Act], told: &mut String) -> Result<(), AllocError> {
    let mut frames = Frames::new(alloc)?;
    let put = match put_frames(&frames, told) {
        Ok(()) => tell_all(&mut frames, acts, told),
        Err(fault) => Err(fault),
    };
    drop(frames);
    put
}

/// What each play is about, its steps, and the live frames at first and after each step: slot, target and
/// site, the innermost first, behind how many of the frames before the step are left.
const PLAYS: [(&str, &[Act], &str); 3] = [
    // At last SP wraps to 0, which is not above the slot: the return alone ends this frame.
    (
        "nested calls return innermost first",
        &[
            Act::Call(OUTER),
            Act::Call(INNER),
            Act::Return(0xfffc, 0x0300, 0xfffe),
            Act::Return(0xfffe, 0x0206, 0),
        ],
        " none
0 FFFE 0200 0100 none
1 FFFC 0300 0203 FFFE 0200 0100 none
1 FFFE 0200 0100 none
0 none
",
    ),
    // POP H takes the return address of the inner call.
    (
        "a frame goes where SP is left above it",
        &[
            Act::Call(Frame {
                slot: 0x23fe,
                target: 0x0200,
                site: 0x0100,
            }),
            Act::Call(Frame {
                slot: 0x23fc,
                target: 0x0300,
                site: 0x0203,
            }),
            Act::Done(0x0300, 0x23fe),
            Act::Clear,
        ],
        " none
0 23FE 0200 0100 none
1 23FC 0300 0203 23FE 0200 0100 none
1 23FE 0200 0100 none
0 none
",
    ),
    // LXI SP,0: no slot is below it, as SP counts from 0.
    (
        "a later call covers an older slot",
        &[
            Act::Call(OUTER),
            Act::Done(0x0200, 0),
            Act::Call(Frame {
                slot: 0xfffe,
                target: 0x0300,
                site: 0x0203,
            }),
        ],
        " none
0 FFFE 0200 0100 none
1 FFFE 0200 0100 none
0 FFFE 0300 0203 none
",
    ),
];

#[test]
fn frames_follow_the_steps(rt: HostRuntime) {
    for (about, acts, wanted) in PLAYS {
        let mut told = String::new(rt.alloc());
        let put = tell_play(rt.alloc(), acts, &mut told);
        expect_told(&rt, about, put, told, wanted);
    }
}

#[test]
fn a_call_ends_the_frame_of_its_slot(rt: HostRuntime) {
    let covering = Stepped::Called {
        slot: 0xfffe,
        target: 0x0300,
    };
    assert!(rt; is_ended(covering, 0xfffe, OUTER.slot));
}

/// What a step after SP was changed by hand is about; the slots of two live frames, the older one first; the
/// step; and the frames that are live after it, as above. All have the same target and site.
const CHANGED: [(&str, [u16; 2], Act, &str); 9] = [
    // What lies below SP is ended.
    (
        "SP between the slots",
        [0x2000, 0x1000],
        Act::Done(0x0100, 0x1800),
        "1 2000 0200 0100 none\n",
    ),
    (
        "SP below both",
        [0x2000, 0x1000],
        Act::Done(0x0100, 0x0800),
        "2 1000 0200 0100 2000 0200 0100 none\n",
    ),
    (
        "SP above both",
        [0x2000, 0x1000],
        Act::Done(0x0100, 0x3000),
        "0 none\n",
    ),
    // It leaves SP above both.
    (
        "a return from the outer slot",
        [0x2000, 0x1000],
        Act::Return(0x2000, 0x0100, 0x2002),
        "0 none\n",
    ),
    (
        "a return from between the slots",
        [0x2000, 0x1000],
        Act::Return(0x1800, 0x0100, 0x1802),
        "1 2000 0200 0100 none\n",
    ),
    // Returns from the last two addresses end the frame of their slot alone,
    (
        "a return that leaves SP at 0",
        [0xfffe, 0x0100],
        Act::Return(0xfffe, 0x0100, 0x0000),
        "1 0100 0200 0100 none\n",
    ),
    (
        "a return that leaves SP at 1",
        [0xffff, 0x0100],
        Act::Return(0xffff, 0x0100, 0x0001),
        "1 0100 0200 0100 none\n",
    ),
    // and none, where no frame is there;
    (
        "a return from where no frame is",
        [0xfffe, 0x0100],
        Act::Return(0xffff, 0x0100, 0x0001),
        "2 0100 0200 0100 FFFE 0200 0100 none\n",
    ),
    // but one at 0 is below SP.
    (
        "a return that leaves SP above a slot at 0",
        [0xffff, 0x0000],
        Act::Return(0xffff, 0x0100, 0x0001),
        "0 none\n",
    ),
];

fn call_from_outer(frames: &mut Frames, slot: u16) {
    let target = OUTER.target;
    let _ = frames.advance(Stepped::Called { slot, target }, OUTER.site, slot);
}

fn tell_changed(
    alloc: Global,
    [outer, inner]: [u16; 2],
    act: Act,
    told: &mut String,
) -> Result<(), AllocError> {
    let mut frames = Frames::new(alloc)?;
    call_from_outer(&mut frames, outer);
    call_from_outer(&mut frames, inner);
    let put = tell_all(&mut frames, &[act], told);
    drop(frames);
    put
}

#[test]
fn frames_end_by_rule_wherever_sp_was_put(rt: HostRuntime) {
    for (about, slots, act, wanted) in CHANGED {
        let mut told = String::new(rt.alloc());
        let put = tell_changed(rt.alloc(), slots, act, &mut told);
        expect_told(&rt, about, put, told, wanted);
    }
}
