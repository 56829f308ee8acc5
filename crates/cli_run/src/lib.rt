// A computer, which is a machine with the past of its devices, and the run of a program on it up to its end
// or a limit of steps, as text (Computer.antt, RunText.antt); and the engine of the word `step`, over any
// inlet and outlet (StepText.antt).
#![tactic(auto)]

pub mod ending;
pub mod printing;
pub mod runner;
pub mod step;
