// The listing of a memory with gaps: for each run of addresses that have a byte its listing after an ORG, and
// last, if there is a start, an END with it. `listings` returns the text that Text.antt of i80_listings_laws
// defines, in time that is linear in the number of cells; that crate's laws say what the text assembles to.
#![tactic(auto)]

pub mod listings;
