//! Random identifiers of sessions.
use crate::fault::ServerFault;
use base_text::text::Text;
use kern_render::name::session_name;
use std::alloc::Global;
use std::random::RandomSource;

/// A random identifier for a session.
pub fn new_session(alloc: Global, rt: &impl RandomSource) -> Result<Text, ServerFault> {
    let mut random = [0u8; 16];
    if rt.fill_bytes(&mut random).is_err() {
        return Err(ServerFault::NoRandom);
    }
    match session_name(alloc, random) {
        Ok(name) => Ok(name),
        Err(_) => Err(ServerFault::OutOfMemory),
    }
}
