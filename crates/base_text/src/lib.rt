// Values that contracts see as plain lists, for all crates above: a text as its bytes in UTF-8, a sequence as
// its items. Each converts from and into a `String` or a `Vec` without allocating, and if it can't grow, it
// doesn't change. `hexadecimal` reads and writes digits of base 16: two for a byte, four for a word. `latin`
// reads and writes ISO 8859-1. `Boxed` is a value on the heap, which contracts see as the value.
#![tactic(auto)]

pub mod boxed;
pub mod hexadecimal;
pub mod latin;
pub mod laws;
pub mod sequence;
pub mod text;
