//! The call Slice: the next slice of the run, its start, or loading the next cell.
ghost use Rattle.std.specs.Prelude.{◌≡◌, ◌<◌, ◌≤◌, ◌+◌, [], ◌∷◌, List, length, vec_capacity, IfOk};
ghost use Rattle.std.specs.Prelude.{IfSome, Ok};
ghost use Rattle.lab_core.specs.declared.run_state.RunState.TheVariants.{NoRun, Running};
ghost use Rattle.kern_post.specs.Posts.{Keeps, with_posts};
ghost use Rattle.kern_post.specs.declared.post.Post.{Post};
ghost use Rattle.kern_exec.specs.declared.execution.Current.{Current};
ghost use Rattle.kern_exec.specs.declared.execution.Execution.{Execution};
ghost use Rattle.kern_exec.specs.Executions.{load_first};
ghost use Rattle.kern_exec.specs.Ends.{loading_letters as loading_letters_of};
ghost use Rattle.kern_exec.specs.Prepared.{IsPreparedLoading};
ghost use Rattle.kern_core.specs.Slices.{letters_of as slice_letters_of, work_after, reply_of, running};
ghost use Rattle.kern_core.specs.Slices.{beginning, by_start, loading, slicing};
ghost use Rattle.kern_core.specs.Running.{IsPreparedFor};
ghost use Rattle.kern_core.specs.States.{KernelState as KernelStateOf};
ghost use Rattle.kern_core.specs.Represents.{RepresentsSomeState, TakesTurn, TakesTurnIn, HasRoom};

use crate::state::KernelState;
use i80_devs::traffic::Traffic;
use kern_calls::call::Reply;
use kern_calls::fault::KernelFault;
use kern_exec::cells::{PreparedLoading, letters_of as loading_letters, load, prepare_loading};
use kern_exec::executions::count_with;
use kern_exec::loading::Loading;
use kern_exec::runs::start;
use kern_exec::slices::{PreparedSlice, letters_of, prepare_slice};
use lab_core::answer::SliceOutcome;
use lab_core::run_slice::run_slice;
use lab_core::run_state::RunState;
use std::alloc::AllocError;

impl KernelState {
    pub(super) fn slice(&mut self, unix_seconds: u64) -> Result<Reply, KernelFault>
        requires room { HasRoom self.old }
        requires represents { RepresentsSomeState self.old }
        ensures { TakesTurn (slicing unix_seconds) self.old result self.new }
    {
        if self.is_shut {
            return Ok(Reply::Ended);
        }
        match self.lab.run_state() {
            RunState::Running => self.run(unix_seconds),
            RunState::Stopped => Ok(Reply::Idle),
            RunState::NoRun => self.go_on(unix_seconds),
        }
    }

    fn go_on(&mut self, unix_seconds: u64) -> Result<Reply, KernelFault>
        requires { HasRoom self.old }
        ensures { TakesTurnIn NoRun (λ s. by_start s.work.pending unix_seconds s) self.old result self.new }
    {
        match self.executions.pending_start() {
            None => self.load(unix_seconds),
            Some(address) => Ok(self.begin(address)),
        }
    }

    fn begin(&mut self, address: u16) -> Reply
        ensures { TakesTurnIn NoRun (beginning address) self.old (Ok result) self.new }
    {
        start(&mut self.lab, address);
        self.executions.begin();
        Reply::More
    }

    fn load(&mut self, unix_seconds: u64) -> Result<Reply, KernelFault>
        requires { HasRoom self.old }
        ensures { TakesTurnIn NoRun (λ s. loading unix_seconds s.work.queue s) self.old result self.new }
    {
        let Some(execution) = self.executions.first() else {
            return Ok(Reply::Idle);
        };
        let count = count_with(execution, self.executions.count());
        let prepared = prepare_loading(self.alloc, &self.peers, execution, count)?;
        match load(self.alloc, &mut self.lab, &execution.request.code) {
            Ok(loading) => {
                self.post_loading(unix_seconds, prepared, loading);
                Ok(Reply::More)
            }
            Err(_) => {
                drop(prepared);
                Err(KernelFault::OutOfMemory)
            }
        }
    }

    // Takes the first execution from the queue, whose cell was loaded, and posts the letters of that.
    fn post_loading(&mut self, unix_seconds: u64, prepared: PreparedLoading, loading: Loading)
        requires room { HasRoom self.old }
        requires bound { length prepared.letters ≤ 2 }
        requires nonempty { 0 < length self.old.work.queue }
        ensures posts { (c : Current) → IsPreparedLoading self.old.connections c prepared
            → (posts : List Post) → Keeps posts self.old.store
            → Keeps (with_posts unix_seconds (loading_letters_of self.old.connections c loading) posts)
            self.new.store }
        ensures rest { self.new ≡ record self.old { work = self.new.work; store = self.new.store } }
        ensures work { (x : Execution) (rest : List Execution) → self.old.work.queue ≡ x ∷ rest
            → self.new.work ≡ load_first x rest loading self.old.work }
        ensures made { self.new.store.made ≤ self.old.store.made + 8 }
    {
        self.executions.take(loading);
        self.store
            .push_all(unix_seconds, loading_letters(prepared, loading));
    }

    // Allocates all that posting after a slice of the current execution needs.
    fn prepare_current_slice(&self) -> Result<Option<PreparedSlice>, AllocError>
        ensures { IfOk result (IsPreparedFor self.now.connections self.now.work.current) }
    {
        match self.executions.current() {
            None => Ok(None),
            Some(current) => {
                let prepared = prepare_slice(self.alloc, &self.peers, current)?;
                Ok(Some(prepared))
            }
        }
    }

    fn run(&mut self, unix_seconds: u64) -> Result<Reply, KernelFault>
        requires room { HasRoom self.old }
        requires represents { RepresentsSomeState self.old }
        ensures { TakesTurnIn Running (running unix_seconds) self.old result self.new }
    {
        let prepared = self.prepare_current_slice()?;
        match run_slice(&mut self.lab) {
            Ok((traffic, outcome)) => {
                self.post_slice(unix_seconds, prepared, &traffic, outcome);
                Ok(self.leave_run(outcome))
            }
            Err(_) => {
                drop(prepared);
                Err(KernelFault::OutOfMemory)
            }
        }
    }

    fn post_slice(
        &mut self,
        unix_seconds: u64,
        prepared: Option<PreparedSlice>,
        traffic: &Traffic,
        outcome: SliceOutcome,
    )
        requires room { HasRoom self.old }
        requires text { IfSome prepared (λ k. length traffic.now ≤ vec_capacity k.text) }
        requires empty { IfSome prepared (λ k. (k.text.items ≡ []) × (k.letters ≡ [])) }
        ensures posts { (s : KernelStateOf) → IsPreparedFor s.connections s.work.current prepared
            → Keeps s.posts self.old.store
            → Keeps (with_posts unix_seconds
            (slice_letters_of s.connections s.work.current traffic.now outcome) s.posts) self.new.store }
        ensures rest { self.new ≡ record self.old { store = self.new.store } }
        ensures made { self.new.store.made ≤ self.old.store.made + 8 }
    {
        match prepared {
            None => {}
            Some(prepared) => {
                let letters = letters_of(prepared, traffic.as_slice(), outcome);
                self.store.push_all(unix_seconds, letters);
            }
        }
    }

    fn leave_run(&mut self, outcome: SliceOutcome) -> Reply
        ensures reply { result ≡ reply_of outcome }
        ensures state { self.new ≡ record self.old { work = work_after outcome self.old.work } }
    {
        match outcome {
            SliceOutcome::More => Reply::More,
            SliceOutcome::Waiting => Reply::Idle,
            SliceOutcome::Stop(_) => Reply::More,
            SliceOutcome::End(_) => {
                self.executions.end();
                Reply::More
            }
        }
    }
}
