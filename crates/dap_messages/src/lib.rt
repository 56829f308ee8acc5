// Messages of the debugger to an editor (Debug Adapter Protocol): responses with their bodies, and events;
// how an editor counts lines and columns (`numbering`), and what a program's file has in it by its path
// (`file_kind`). `laws` says that a line or a column that an editor sends back is the one that it was told.
#![tactic(auto)]

pub mod file_kind;
pub mod laws;
pub mod message;
pub mod numbering;
