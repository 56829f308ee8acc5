//! Rows of text.

/// The parts of a row before and after the text between them. A row without it is all before.
pub fn parts<'a>(row: &'a str, between: &str) -> (&'a str, &'a str) {
    row.split_once(between).unwrap_or((row, ""))
}
