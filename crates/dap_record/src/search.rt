//! Parts of a search backward.
ghost use Rattle.std.specs.Prelude.{◌≡◌, [], ◌∷◌, IfOk};
ghost use Rattle.dap_run.specs.Messages.{as_messages};
ghost use Rattle.dap_session.specs.States.{SessionState};
ghost use Rattle.dap_session.specs.Represents.{RepresentsSession};
ghost use Rattle.dap_record.specs.Recordings.{Recording};
ghost use Rattle.dap_record.specs.Backward.{found_event};
ghost use Rattle.dap_record.specs.Represents.{RepresentsRecording, IsSearchFor, IsSearched, MakesSearchPart};

use crate::recording::RunRecording;
use base_text::sequence::Sequence;
use dap_answers::answer::StopReason;
use dap_messages::message::{EditorEvent, EditorStop, Message};
use dap_run::messages::Messages;
use dap_run::slice::met_event;
use dap_search::goal::Goal;
use dap_search::search::Search;
use dap_session::session::Session;
use std::alloc::{AllocError, Global};
use std::marker::Model;

/// A search for where a run is to go, and what it is for.
#[derive(Drop)]
pub struct GoalSearch {
    pub goal: Goal,
    pub search: Search,
}

impl Model for GoalSearch {
    ghost use Rattle.dap_record.specs.Fields.{GoalSearchFields};

    ghost Value = { GoalSearchFields };

    ghost view = { λ s. record { goal = s.goal; search = s.search } };
}

/// What is told of a part of a search, and the search if it goes on.
#[derive(Drop)]
pub(crate) struct SearchPart {
    pub messages: Sequence<Message>,
    pub search: Option<GoalSearch>,
}

fn met_or_entry(alloc: Global, session: &Session) -> Result<EditorEvent, AllocError>
    ensures { (s : SessionState) → RepresentsSession session.now s
        → IfOk result (λ event. event ≡ found_event Goal.Breakpoint s) }
{
    if session.is_at_breakpoint() {
        let ids = session.back_ids(alloc)?;
        Ok(met_event(None, ids))
    } else {
        Ok(EditorEvent::Stopped(EditorStop::Entry))
    }
}

// What is told where a search found its goal.
fn found_event(alloc: Global, session: &Session, goal: Goal) -> Result<EditorEvent, AllocError>
    ensures { (s : SessionState) → RepresentsSession session.now s
        → IfOk result (λ event. event ≡ found_event goal s) }
{
    match goal {
        Goal::Statement { .. } | Goal::Count(_) => {
            Ok(EditorEvent::Stopped(EditorStop::Board(StopReason::Step)))
        }
        Goal::Breakpoint => met_or_entry(alloc, session),
    }
}

fn found_messages(
    alloc: Global,
    session: &Session,
    goal: Goal,
) -> Result<Sequence<Message>, AllocError>
    ensures { (s : SessionState) → RepresentsSession session.now s
        → IfOk result (λ messages. messages ≡ as_messages (found_event goal s ∷ [])) }
{
    let event = found_event(alloc, session, goal)?;
    let mut messages = Messages::new(alloc)?;
    messages.push_event(event);
    Ok(messages.into_sequence())
}

/// Searches on for a time. Where the goal is found, the run is stopped.
pub(crate) fn search_on(
    alloc: Global,
    session: &mut Session,
    recording: &mut RunRecording,
    ongoing: GoalSearch,
) -> Result<SearchPart, AllocError>
    requires { IsSearched recording.old ongoing session.old }
    ensures { (goal : Goal) (r : Recording) (s : SessionState) → RepresentsSession session.old s
        → RepresentsRecording recording.old r s → IsSearchFor goal r s ongoing
        → IfOk result (λ part. MakesSearchPart goal r s part recording.new session.new) }
{
    let GoalSearch { goal, mut search } = ongoing;
    match session.search_on(&mut search, &mut recording.history)? {
        None => Ok(SearchPart {
            messages: Sequence::new(alloc),
            search: Some(GoalSearch { goal, search }),
        }),
        Some(count) => {
            recording.count = count;
            drop(search);
            Ok(SearchPart {
                messages: found_messages(alloc, session, goal)?,
                search: None,
            })
        }
    }
}
