//! Gates: the hooks that tell the worker or a pump whether to go on, block it while there is nothing to do,
//! and wake the others. A gate isn't polled again once it has answered false.
ghost use Rattle.std.specs.Prelude.{◌≡◌, ◌≤◌, ◌+◌, true, false};
ghost use Rattle.kern_net.specs.Gates.{WorkerPolls, ReaderPolls, WriterPolls, after_idle};
ghost use Rattle.kern_net.specs.Gates.{before_polled, idle_polled, with_wake, after_wake, with_moment};
ghost use Rattle.kern_net.specs.Gates.{HasWoken, IsToWake};
ghost use Rattle.kern_net.specs.Out.{HasCaughtUp};

use base_streams::ports::Outlet;
use kern_desk::seated::Pass;
use std::sync::Wait;

/// What the worker polls before each Slice and after one that found nothing to do.
pub trait WorkerGate {
    /// How often `before` and `idle` have answered yes and no, and how often `wake` was called.
    ghost polls: { Self → WorkerPolls };

    /// Whether another Slice may be made. `slices` is how many it has let through so far, and others were
    /// woken for each of them. It may wait before it answers.
    fn before<R: Wait>(&mut self, rt: &R, slices: u64) -> bool
        requires slices { slices ≡ (polls self.old).before.yes }
        requires woke { slices ≡ (polls self.old).wakes }
        ensures { polls self.new ≡ before_polled result (polls self.old) };

    /// Waits until there may be something to do, and returns whether to go on.
    fn idle<R: Wait>(&mut self, rt: &R) -> bool
        ensures { polls self.new ≡ idle_polled result (polls self.old) };

    /// Wakes the threads that wait for what a Slice may have changed.
    fn wake<R: Wait>(&mut self, rt: &R)
        ensures { polls self.new ≡ with_wake (polls self.old) };

    /// Whole seconds since 1970-01-01T00:00:00Z, for the Slice that was let through last. A time after
    /// 2100-01-01T00:00:00Z counts as that.
    fn unix_seconds<R: Wait>(&mut self, rt: &R) -> u64
        requires { (polls self.old).before.yes ≡ (polls self.old).wakes + 1 }
        ensures polls { polls self.new ≡ polls self.old }
        ensures bound { result ≤ 4102444800 };
}

/// How a reader wakes others.
pub trait ReaderGate {
    /// How often `wake` and `wake_own_writers` were called, and the moment told since, if there is one.
    ghost polls: { Self → ReaderPolls };

    /// Wakes the worker and all writers, after a call that may have given the worker something to do: the
    /// last call of the pass, made at the moment that was told for it.
    fn wake<R: Wait>(&mut self, rt: &R, pass: &Pass)
        requires { IsToWake true (polls self.old) pass.now }
        ensures { polls self.new ≡ after_wake true (polls self.old) };

    /// Wakes only the writer of the reader's own connection and those of iopub, after a call that gave the
    /// worker nothing to do: it can only have posted to them.
    fn wake_own_writers<R: Wait>(&mut self, rt: &R, pass: &Pass)
        requires { IsToWake false (polls self.old) pass.now }
        ensures { polls self.new ≡ after_wake false (polls self.old) };

    /// The moment of the next call, in whole seconds since 1970-01-01T00:00:00Z. A time after
    /// 2100-01-01T00:00:00Z counts as that. Others were woken for each call whose moment it told.
    fn unix_seconds<R: Wait>(&mut self, rt: &R) -> u64
        requires { HasWoken (polls self.old) }
        ensures polls { polls self.new ≡ with_moment result (polls self.old) }
        ensures bound { result ≤ 4102444800 };
}

/// Where a writer waits.
pub trait WriterGate {
    /// How often `idle` has answered yes and no, and up to which number posts were written then.
    ghost polls: { Self → WriterPolls };

    /// Notes that posts are written from number `from` on.
    fn begin<R: Wait>(&mut self, rt: &R, from: u64)
        ensures { polls self.new ≡ record (polls self.old) { next = from } };

    /// Waits until something may have been posted, and returns whether to go on. The pass has fetched all
    /// posts below number `next`, there were no others at that time, and all are written that weren't when it
    /// was called last.
    fn idle<R: Wait, W: Outlet>(&mut self, rt: &R, pass: &Pass, to: &W, next: u64) -> bool
        requires { HasCaughtUp pass.now (W.state to.now) (polls self.old).next next }
        ensures { polls self.new ≡ after_idle result next (polls self.old) };
}
