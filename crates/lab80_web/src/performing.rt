//! What items do to the kernel.
ghost use Rattle.std.specs.Prelude.{[], ◌∷◌, OnOk};
ghost use Rattle.base_streams.specs.States.{IsWritable};
ghost use Rattle.kern_calls.specs.declared.call.Call.TheVariants.{Slice};
ghost use Rattle.lab80_web.specs.declared.items.Item.TheVariants as item;
ghost use Rattle.lab80_web.specs.Steps.{server, effect_of_call, effect_of_item, ActsOn, HasEffect};
ghost use Rattle.lab80_web.specs.Steps.{AnswersMessages};

use crate::answer::{Answer, answer_of, lacks_memory};
use crate::items::{Item, read_item};
use crate::outputs::{send_answer, send_posts};
use base_streams::ports::Outlet;
use base_text::sequence::Frames;
use kern_core::bare::BareKernel;
use kern_core::call::Call;
use std::alloc::{AllocError, Global};
use zmtp_wire::messages::Messages;
use zmtp_wire::peer_fault::PeerFault;

// Makes a call. Returns the answer to it, unless memory runs out.
fn act(kernel: &mut BareKernel, call: &Call) -> Result<Answer, AllocError>
    ensures { ActsOn call.now kernel.old result kernel.new }
{
    let reply = kernel.act(call);
    if lacks_memory(&reply) {
        return Err(AllocError);
    }
    Ok(answer_of(&reply))
}

// Makes a call, and writes the posts that it makes.
fn make<W: Outlet>(
    alloc: Global,
    kernel: &mut BareKernel,
    to: &mut W,
    call: &Call,
) -> Result<Answer, PeerFault>
    requires { IsWritable (W.state to.old) }
    ensures good { OnOk result (IsWritable (W.state to.new)) }
    ensures effect { HasEffect (effect_of_call call.now) (server kernel.old (W.state to.old))
        (server kernel.new (W.state to.new)) result }
{
    let before = kernel.post_count();
    let Ok(answer) = act(kernel, call) else {
        return Err(PeerFault::OutOfMemory);
    };
    match send_posts(alloc, to, kernel, before) {
        Ok(()) => Ok(answer),
        Err(fault) => Err(fault),
    }
}

// Makes a Slice, and writes the posts that it makes.
fn slice<W: Outlet>(
    alloc: Global,
    kernel: &mut BareKernel,
    to: &mut W,
    unix_seconds: u64,
) -> Result<Answer, PeerFault>
    requires { IsWritable (W.state to.old) }
    ensures good { OnOk result (IsWritable (W.state to.new)) }
    ensures effect { HasEffect (effect_of_call (Slice unix_seconds)) (server kernel.old (W.state to.old))
        (server kernel.new (W.state to.new)) result }
{
    make(alloc, kernel, to, &Call::Slice { unix_seconds })
}

// Makes at most so many Slices, up to the first that isn't answered that there is more, and writes the posts
// of each as soon as it is made.
fn run<W: Outlet>(
    alloc: Global,
    kernel: &mut BareKernel,
    to: &mut W,
    unix_seconds: u64,
    count: u64,
) -> Result<Answer, PeerFault>
    requires { IsWritable (W.state to.old) }
    ensures good { OnOk result (IsWritable (W.state to.new)) }
    ensures effect { HasEffect (effect_of_item (item.Run unix_seconds count))
        (server kernel.old (W.state to.old)) (server kernel.new (W.state to.new)) result }
{
    for _ in 0..count {
        match slice(alloc, kernel, to, unix_seconds) {
            Ok(answer) => {
                if !answer.is_more() {
                    return Ok(answer);
                }
            }
            Err(fault) => return Err(fault),
        }
    }
    Ok(Answer::More)
}

// Does what an item asks for, and writes the posts that it makes. Returns the answer to it.
fn perform<W: Outlet>(
    alloc: Global,
    kernel: &mut BareKernel,
    to: &mut W,
    item: Item,
) -> Result<Answer, PeerFault>
    requires { IsWritable (W.state to.old) }
    ensures good { OnOk result (IsWritable (W.state to.new)) }
    ensures effect { HasEffect (effect_of_item item) (server kernel.old (W.state to.old))
        (server kernel.new (W.state to.new)) result }
{
    match item {
        Item::Call(call) => make(alloc, kernel, to, &call),
        Item::Run {
            unix_seconds,
            count,
        } => run(alloc, kernel, to, unix_seconds, count),
        Item::Refused(refusal) => Ok(Answer::Refused(refusal)),
    }
}

// Does what a message asks for, and writes the posts that it makes and its answer.
fn answer_message<W: Outlet>(
    alloc: Global,
    kernel: &mut BareKernel,
    to: &mut W,
    frames: Frames,
) -> Result<(), PeerFault>
    requires { IsWritable (W.state to.old) }
    ensures good { OnOk result (IsWritable (W.state to.new)) }
    ensures answers { AnswersMessages (frames ∷ []) (server kernel.old (W.state to.old))
        (server kernel.new (W.state to.new)) result }
{
    let Ok(item) = read_item(alloc, frames) else {
        return Err(PeerFault::OutOfMemory);
    };
    match perform(alloc, kernel, to, item) {
        Ok(answer) => send_answer(alloc, to, answer),
        Err(fault) => Err(fault),
    }
}

/// Does what messages ask for, and writes for each the posts that it makes and its answer.
pub fn answer_messages<W: Outlet>(
    alloc: Global,
    kernel: &mut BareKernel,
    to: &mut W,
    messages: Messages,
) -> Result<(), PeerFault>
    requires { IsWritable (W.state to.old) }
    ensures good { OnOk result (IsWritable (W.state to.new)) }
    ensures answers { AnswersMessages messages (server kernel.old (W.state to.old))
        (server kernel.new (W.state to.new)) result }
{
    for frames in messages.into_vec() {
        match answer_message(alloc, kernel, to, frames) {
            Ok(()) => {}
            Err(fault) => return Err(fault),
        }
    }
    Ok(())
}
