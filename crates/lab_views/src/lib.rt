// What a board shows: the frames of its run, its variables, its code, its texts and its breakpoints; and the
// places of a machine that can be changed by hand, which are those that Registers and Memory show.
// `show` returns a view, which is a function of the board's parts, however the code represents them.
// `place_of` finds a place by its name in a scope, and `put` changes that place alone: by `laws` its row then
// shows the value, and all other rows what they showed before. Only what is shown as text allocates.
#![tactic(auto)]

pub mod change;
mod code;
pub mod fault;
mod frames;
mod info;
pub mod laws;
pub mod names;
pub mod paging;
pub mod parts;
pub mod place;
pub mod poke_fault;
pub mod texts;
pub mod value;
mod variables;
pub mod view;
pub mod views;
