//! Counting reads.
ghost use Rattle.base_streams.specs.Told.{CountsOn};

/// Counts one more read. More than 2^64 - 1 aren't counted.
pub(crate) fn one_more(reads: Option<u64>) -> Option<u64>
    ensures { CountsOn reads result 1 }
{
    match reads {
        Some(count) => count.checked_add(1),
        None => None,
    }
}
