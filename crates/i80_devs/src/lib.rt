// The devices of the board at the processor's ports: console, switches, lamps, request button.
// Every answer is a function of the list of all operations so far, by the program, at the console
// and at the panel; the code keeps only what that function needs.
// `take_out` returns the port operations since its last call, each IN and OUT once and in order.
// `reserve_out` makes room for them beforehand, so that no IN or OUT can fail.
#![tactic(auto)]

pub mod console;
pub mod devices;
pub mod laws;
mod panel;
pub mod traffic;
