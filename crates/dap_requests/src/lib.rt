// The requests of editors (Debug Adapter Protocol), apart from their JSON: the commands of editors beside
// those that the kernel has too (`request`, `board`), what each is whatever its arguments are (`traits`), and
// offsets that may be negative (`offset`).
#![tactic(auto)]

pub mod board;
pub mod offset;
pub mod request;
pub mod traits;
