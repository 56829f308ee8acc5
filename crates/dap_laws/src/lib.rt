// Laws of the debugger for editors: what holds of all its sessions, whatever is asked. They are about the
// definitions that the contracts of dap_session and dap_record cite, in the words of the Debug Adapter
// Protocol: each request has one response, what is told of stops and ends is so, and the board is the one
// that the recorded run has. Nothing here is called.
#![tactic(auto)]

pub mod points;
pub mod recorded;
pub mod session;
