// The answers of a debugger (Debug Adapter Protocol) as typed values, and the JSON of each.
// `response` and `event` return the JSON value of a typed answer; `refusal_of` is the response that refuses
// a request.
// `Object` builds a JSON object member by member, for the crates above too.
// Nothing here fails, except if memory runs out.
// `cell_path` is the path under which a frontend knows a cell: the MurmurHash2 of its text.
#![tactic(auto)]

pub mod answer;
pub mod bodies;
pub mod cell;
pub mod json;
pub mod object;
pub mod refusal;
pub mod sending;
