//! The signature of frames: HMAC with SHA-256 (RFC 2104), in lower-case hexadecimal.
ghost use Rattle.std.specs.Prelude.{◌≡◌, ◌≤◌, ◌↔◌, ◌++◌, [], length, IsTrue, IfOk};
ghost use Rattle.std.specs.List.{concat};
ghost use Rattle.base_text.specs.Bytes.{Bytes};
ghost use Rattle.hex.specs.Hex.{encode_lower};
ghost use Rattle.jup_wire.specs.Wire.{json_frames};
ghost use Rattle.jup_wire.specs.Signature.{zero_filled, block_of, xor_each, hmac, signature};

use crate::message::Parts;
use base_text::sequence::Bytes;
use base_text::text::Text;
use sha2::{Digest, Sha256};
use std::alloc::{AllocError, Global};

// The size of a block of SHA-256, in bytes.
const BLOCK: usize = 64;
// The number of digits of a signature.
const LENGTH: usize = 64;

const INNER_PAD: u8 = 0x36;

const OUTER_PAD: u8 = 0x5c;

/// The signature of the concatenated frames: 64 lower-case hexadecimal digits. The key may be empty.
#[tactic(auto, unfolding(crate::specs::Signature::signature))]
pub fn sign(alloc: Global, key: &[u8], frames: &[Bytes]) -> Result<Text, AllocError>
    ensures { IfOk result (λ text. text ≡ signature key.now frames.now) }
{
    Ok(Text::from(hex::encode(alloc, code_of(key, frames))?))
}

/// Whether this is the signature of the four frames.
pub(crate) fn is_signed(key: &[u8], digits: &[u8], parts: &Parts) -> bool
    ensures { IsTrue result ↔ (digits.now ≡ signature key.now (json_frames parts.now)) }
{
    same_bytes(digits, &signature_of(key, parts))
}

/// The signature of the four frames.
#[tactic(auto, unfolding(crate::specs::Signature::signature))]
pub(crate) fn signature_of(key: &[u8], parts: &Parts) -> [u8; LENGTH]
    ensures { result ≡ signature key.now (json_frames parts.now) }
{
    let mut hasher = Hmac::new(key);
    hasher.update(parts.header.as_slice());
    hasher.update(parts.parent_header.as_slice());
    hasher.update(parts.metadata.as_slice());
    hasher.update(parts.content.as_slice());
    digits_of(hasher.finalize())
}

fn code_of(key: &[u8], frames: &[Bytes]) -> [u8; 32]
    ensures { result ≡ hmac key.now (concat frames.now) }
{
    let mut hasher = Hmac::new(key);
    for frame in frames {
        hasher.update(frame.as_slice());
    }
    hasher.finalize()
}

// Compares all bytes, so that the time taken doesn't show where they differ.
fn same_bytes(a: &[u8], b: &[u8]) -> bool
    ensures { IsTrue result ↔ (a.now ≡ b.now) }
{
    if a.len() != b.len() {
        return false;
    }
    let mut difference = 0u8;
    for (i, byte) in a.iter().enumerate() {
        difference |= *byte ^ b[i];
    }
    difference == 0
}

/// The HMAC of a text that is hashed in pieces.
#[derive(Drop)]
struct Hmac {
    inner: Sha256,
    outer: Sha256,
}

impl Hmac {
    ghost use Rattle.jup_wire.specs.Keyed.{HasTaken};

    fn new(key: &[u8]) -> Hmac
        ensures { HasTaken result key.now [] }
    {
        let block = block_of(key);
        Hmac {
            inner: Sha256::new_with_prefix(xor_pad(block, INNER_PAD)),
            outer: Sha256::new_with_prefix(xor_pad(block, OUTER_PAD)),
        }
    }

    fn update(&mut self, bytes: &[u8])
        ensures { (key text : Bytes) → HasTaken self.old key text
            → HasTaken self.new key (text ++ bytes.now) }
    {
        self.inner.update(bytes);
    }

    fn finalize(self) -> [u8; 32]
        ensures { (key text : Bytes) → HasTaken self key text → result ≡ hmac key text }
    {
        let Hmac { inner, mut outer } = self;
        outer.update(inner.finalize());
        outer.finalize()
    }
}

fn block_of(key: &[u8]) -> [u8; BLOCK]
    ensures { result ≡ block_of key.now }
{
    if key.len() > BLOCK {
        zero_fill(&Sha256::digest(key))
    } else {
        zero_fill(key)
    }
}

fn zero_fill(key: &[u8]) -> [u8; BLOCK]
    requires { length key.now ≤ 64 }
    ensures { result ≡ zero_filled key.now }
{
    let mut block = [0u8; BLOCK];
    for (i, byte) in key.iter().enumerate() {
        block[i] = *byte;
    }
    block
}

fn xor_pad(mut block: [u8; BLOCK], pad: u8) -> [u8; BLOCK]
    ensures { result ≡ xor_each pad block }
{
    for byte in block.iter_mut() {
        *byte ^= pad;
    }
    block
}

fn digits_of(code: [u8; 32]) -> [u8; LENGTH]
    ensures { result ≡ encode_lower code }
{
    let mut digits = [0u8; LENGTH];
    hex::encode_to_slice(&code, &mut digits).unwrap();
    digits
}
