// A kernel with all its connections. `host` runs it from the first call to the last, and its contract is the
// project's main theorem: there is one history of all calls; each connection asked for what its bytes ask
// for, and was sent the posts that the specified kernel makes for it, none left out; the worker's calls
// are Slices; and each thread ended for a stated cause. `visit` serves one connection, from its handshake to
// its Leave, whatever other threads do at the desk; the server's connection threads call it too, with hooks
// that wait, wake other threads and close sockets. `laws` say the same of each pump alone.
#![tactic(auto)]

pub mod end;
pub mod guest;
pub mod hooks;
pub mod host;
pub mod laws;
mod leaving;
mod seating;
pub mod server;
mod talking;
pub mod visiting;
