// A program that an editor launches (Debug Adapter Protocol, `launch` and `restart`), until it begins.
// `file` has the text of its file, or why there is none; `load` puts the program on a board of its own, or
// says why it can't; `program` begins it; `opening` and `failure` have the messages about it. By `laws` a
// program without source is launched with all its bytes.
#![tactic(auto)]

pub mod failure;
pub mod file;
pub mod laws;
pub mod load;
pub mod opening;
pub mod program;
