// How a server paces its work, as values with no threads and no clocks. `Bucket` holds the slices that run at
// full speed: 524,288 at first, and some 130 more for each second that the worker waits. `slice_pause` slows
// down those beyond it so that the journal lasts. `Throttle` delays connections while many unauthenticated
// peers come, `Budget` unsigned bytes; `can_leave` says which connections lose their slots to others.
// `next_gap` says how often a running cell's posts are looked for, `is_full` how full a journal is.
#![tactic(auto)]

pub mod bucket;
pub mod budget;
pub mod eviction;
pub mod pace;
pub mod throttle;
