// Debug commands on a board. One definition says for each command and board what the result is.
// `perform` returns the body of the response, or why the board refuses the command.
// The board stays as it was if the command is refused or memory runs out.
// `refusal_name` is the message of each refusal, and `outcome_of` the outcome that carries it.
// `event_after` is the event that follows the response once a command is done.
#![tactic(auto)]

mod body;
mod event;
mod far;
mod look;
pub mod names;
pub mod perform;
