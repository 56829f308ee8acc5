//! Going back.
ghost use Rattle.std.specs.Prelude.{◌≡◌, ℕ, IfOk};
ghost use Rattle.dap_history.specs.Runs.{board_at};
ghost use Rattle.dap_session.specs.States.{SessionState};
ghost use Rattle.dap_session.specs.Represents.{RepresentsSession};
ghost use Rattle.dap_session.specs.Rewinds.{rewound};
ghost use Rattle.dap_record.specs.Recordings.{Recording};
ghost use Rattle.dap_record.specs.Backward as backward;
ghost use Rattle.dap_search.specs.Searches.{counts_hits};
ghost use Rattle.dap_record.specs.Backward.{body_for, goal_if, stop_at_count};
ghost use Rattle.dap_record.specs.Represents.{RepresentsRecording, IsRecorded, GoesBack};

use crate::back::Back;
use crate::recording::RunRecording;
use crate::search::GoalSearch;
use dap_answers::answer::{Body, StopReason};
use dap_messages::message::{EditorBody, EditorStop};
use dap_prompt::answer::done_value;
use dap_run::messages::FollowUp;
use dap_run::reply::{Reply, succeed};
use dap_search::goal::Goal;
use dap_session::session::Session;
use lab_shown::step::Granularity;
use std::alloc::{AllocError, Global};

/// The reply to a request that goes back, and the search that begins with it, if the place must be found.
#[derive(Drop)]
pub(crate) struct Departure {
    pub reply: Reply,
    pub search: Option<GoalSearch>,
}

// The body of the response; a line of the prompt is answered by a text.
fn body_for(alloc: Global, back: Back) -> Result<EditorBody, AllocError>
    ensures { IfOk result (λ body. body ≡ body_for back) }
{
    match back {
        Back::Steps(_) | Back::Start => {
            let done = done_value(alloc)?;
            Ok(EditorBody::Evaluation(done))
        }
        Back::Step(_) | Back::Continue | Back::Unclear => Ok(EditorBody::Board(Body::Empty)),
    }
}

// The count to which this leads from another.
fn count_to(back: Back, count: u64) -> u64
    ensures { result ≡ backward.count_to back count }
{
    match back {
        Back::Step(_) => count.saturating_sub(1),
        Back::Steps(n) => count.saturating_sub(n),
        Back::Start => 0,
        Back::Continue | Back::Unclear => count,
    }
}

// A search for this count, if a breakpoint counts the hits of the steps between.
fn goal_if(session: &Session, count: u64) -> Option<Goal>
    ensures { (s : SessionState) → RepresentsSession session.now s
        → result ≡ goal_if (counts_hits s.settings.conditional) count }
{
    if session.counts_hits() {
        Some(Goal::Count(count))
    } else {
        None
    }
}

// What must be searched for, from a count of steps.
fn goal_of(session: &Session, back: Back, count: u64) -> Option<Goal>
    ensures { (s : SessionState) → RepresentsSession session.now s
        → result ≡ backward.goal_of back count s }
{
    match back {
        Back::Step(Granularity::Line) => {
            let depth = session.depth();
            Some(Goal::Statement { depth })
        }
        Back::Continue => Some(Goal::Breakpoint),
        Back::Step(Granularity::Instruction) | Back::Steps(_) => {
            goal_if(session, count_to(back, count))
        }
        Back::Start | Back::Unclear => None,
    }
}

fn stop_at_count(back: Back) -> EditorStop
    ensures { result ≡ stop_at_count back }
{
    match back {
        Back::Start => EditorStop::Entry,
        _ => EditorStop::Board(StopReason::Step),
    }
}

// Puts the run to this count.
fn arrive(
    alloc: Global,
    session: &mut Session,
    recording: &mut RunRecording,
    back: Back,
) -> Result<Departure, AllocError>
    requires { IsRecorded recording.old session.old }
    ensures { (r : Recording) (s : SessionState) → RepresentsSession session.old s
        → RepresentsRecording recording.old r s → backward.goal_of back r.count s ≡ None
        → IfOk result (λ d. GoesBack back r s d recording.new session.new) }
{
    let body = body_for(alloc, back)?;
    let count = count_to(back, recording.count);
    session.rewind(&mut recording.history, count)?;
    recording.count = count;
    let stop = stop_at_count(back);
    Ok(Departure {
        reply: succeed(body, FollowUp::Stopped(stop)),
        search: None,
    })
}

// Begins a search for this goal.
fn begin_search(
    alloc: Global,
    session: &mut Session,
    recording: &mut RunRecording,
    back: Back,
    goal: Goal,
) -> Result<Departure, AllocError>
    requires { IsRecorded recording.old session.old }
    ensures { (r : Recording) (s : SessionState) → RepresentsSession session.old s
        → RepresentsRecording recording.old r s → backward.goal_of back r.count s ≡ Some goal
        → IfOk result (λ d. GoesBack back r s d recording.new session.new) }
{
    let body = body_for(alloc, back)?;
    let search = session.begin_search(alloc, goal, recording.count)?;
    Ok(Departure {
        reply: succeed(body, FollowUp::Nothing),
        search: Some(GoalSearch { goal, search }),
    })
}

/// Goes back from where a recorded run is, or begins to search for the place.
pub(crate) fn go_back(
    alloc: Global,
    session: &mut Session,
    recording: &mut RunRecording,
    back: Back,
) -> Result<Departure, AllocError>
    requires { IsRecorded recording.old session.old }
    ensures { (r : Recording) (s : SessionState) → RepresentsSession session.old s
        → RepresentsRecording recording.old r s
        → IfOk result (λ d. GoesBack back r s d recording.new session.new) }
{
    match goal_of(session, back, recording.count) {
        Some(goal) => begin_search(alloc, session, recording, back, goal),
        None => arrive(alloc, session, recording, back),
    }
}
