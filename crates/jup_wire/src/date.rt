//! Dates.
ghost use Rattle.std.specs.Prelude.{◌≤◌, IfOk};
ghost use Rattle.jup_wire.specs.Dates.{IsDate, last_moment};

use base_text::text::Text;
use jiff::Timestamp;
use jiff_fmt::temporal::DateTimePrinter;
use std::alloc::{AllocError, Global};

/// 2100-01-01T00:00:00Z in seconds since 1970, the last moment that `date_text` takes.
pub const LAST_MOMENT: u64 = 4_102_444_800;

/// The civil date and time in UTC of a moment, which is given in seconds since 1970, in the form of RFC 3339.
/// For 0 it is `1970-01-01T00:00:00Z`.
pub fn date_text(alloc: Global, unix_seconds: u64) -> Result<Text, AllocError>
    requires { unix_seconds ≤ last_moment }
    ensures { IfOk result (IsDate unix_seconds) }
{
    let Ok(instant) = Timestamp::from_second(unix_seconds as i64) else {
        unreachable!()
    };
    let text = DateTimePrinter::new().timestamp_text(instant.to_plain());
    Text::copy_of(alloc, text.as_str())
}
