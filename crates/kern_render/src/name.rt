//! The names of sessions.
ghost use Rattle.std.specs.Prelude.{◌≡◌, IfOk};
ghost use Rattle.kern_render.specs.Names.{session_name};

use base_text::text::Text;
use std::alloc::{AllocError, Global};
use uuid::{Builder, Uuid};

/// A name for a session: the UUID of version 4 of 16 random bytes, in lower case and with hyphens
/// (RFC 9562, sections 4 and 5.4).
pub fn session_name(alloc: Global, bytes: [u8; 16]) -> Result<Text, AllocError>
    ensures { IfOk result (λ name. name ≡ session_name bytes) }
{
    let id = Builder::from_random_bytes(bytes).into_uuid();
    let mut buffer = Uuid::encode_buffer();
    let text = id.hyphenated().encode_lower(&mut buffer);
    Text::copy_of(alloc, text)
}
