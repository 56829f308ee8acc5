// Laws of listings, and what the listing of a memory with gaps is. The lines of bytes are those that the
// table of instructions gives, and no others; their listing assembles without a fault, over any kept symbols,
// to the bytes at their places. So does that of a memory with gaps, of runs that are as long as they can be,
// with its start, if it has no more lines than a cell may have; without a start it never has more. With no
// gap it is the listing of `i80_dis`. Nothing here is called.
#![tactic(auto)]

pub mod laws;
pub mod listing;
