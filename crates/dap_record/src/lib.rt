// A debugger's session whose run goes back. What is typed, switched, pressed and changed by hand is recorded,
// each with the count of steps at which it came; so the run can be put back to any of its boards, and what
// lies ahead is made again on the way forward. Of every list of requests and slices, each of which says
// whether a search ends in it, the messages are a stated function (`play_all`); at every moment the board is
// the one of the recorded run (`RepresentsRecording`). After an error a session can't be used any more.
#![tactic(auto)]

pub mod back;
mod input;
mod note;
pub mod recorded;
pub mod recording;
pub mod search;
mod slice;
mod travel;
