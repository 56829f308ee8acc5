// For the crates that test boards: plays, which are events as tests write them and the lines that a new board
// shows of them; what is answered and what is shown, as lines of text; and a cell that is too long to write
// out. It promises only that its events fit what a board may be handed. Nothing but tests stands on it.
#![tactic(auto)]

pub mod ask;
pub mod cells;
pub mod script;
pub mod told;
