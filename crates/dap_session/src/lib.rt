// The debugger for editors as a value over a board (Debug Adapter Protocol). `Session::take` answers a
// request and says what that did, and `Session::run` makes a slice of the run: for every list of both, what
// goes out is a stated function of them (`play_all`). Each request has one response, which goes out before
// the events that it causes. If memory runs out the session stays as it was. A value with many parts is
// dropped by a call: where the end of a block drops it, each part is one more case of the function's proof.
#![tactic(auto)]

pub mod session;
pub mod settings;
