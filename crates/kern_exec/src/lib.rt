// Executions: the queue, the current one, and all that they post. Each letter is the stated one: its
// recipients, its envelope and its content. Envelopes and buffers are allocated before the board runs, so
// that posting afterwards can't fail. `load` and `start` are what executions ask of the board; if `load`
// runs out of memory, the board is unchanged. A value with many parts that isn't needed is dropped by a
// call: if the end of a block drops it, each of its parts is one more case of the function's proof.
#![tactic(auto)]

mod board;
pub mod cells;
pub mod ends;
pub mod execution;
pub mod executions;
pub mod letters;
pub mod loading;
pub mod runs;
pub mod slices;
