//! The path by which a frontend names a cell's text.
ghost use Rattle.std.specs.Prelude.{◌≡◌, ◌<◌, length, IfOk};
ghost use Rattle.dap_answers.specs.Murmur.{times_m, mix_word, low_first, hash_from, final_mix, murmur2};
ghost use Rattle.dap_answers.specs.Murmur.{cell_path};

use base_text::text::Text;
use std::alloc::{AllocError, Global};

/// The beginning of each cell's path, before its number.
pub const PREFIX: &str = "/tmp/i8080_lab/";
/// The end of each cell's path.
pub const SUFFIX: &str = ".asm";

const M: u32 = 0x5bd1_e995;

#[tactic(auto, unfolding(crate::specs::Murmur::times_m))]
fn times_m(n: u32) -> u32
    ensures { result ≡ times_m n }
{
    n.wrapping_mul(M)
}

#[tactic(auto, unfolding(crate::specs::Murmur::mix_word))]
fn mix(k: u32) -> u32
    ensures { result ≡ mix_word k }
{
    let k = times_m(k);
    times_m(k ^ (k >> 24))
}

#[tactic(auto, unfolding(crate::specs::Murmur::final_mix))]
fn finalize(h: u32) -> u32
    ensures { result ≡ final_mix h }
{
    let h = times_m(h ^ (h >> 13));
    h ^ (h >> 15)
}

fn low_first(bytes: &[u8]) -> u32
    requires { length bytes.now < 5 }
    ensures { result ≡ low_first bytes.now }
{
    match bytes {
        [] => 0,
        [a] => u32::from(*a),
        [a, b] => u32::from(*a) + 256 * u32::from(*b),
        [a, b, c] => u32::from(*a) + 256 * (u32::from(*b) + 256 * u32::from(*c)),
        [a, b, c, d] => {
            u32::from(*a) + 256 * (u32::from(*b) + 256 * (u32::from(*c) + 256 * u32::from(*d)))
        }
        _ => unreachable!(),
    }
}

fn with_tail(h: u32, bytes: &[u8]) -> u32
    requires { length bytes.now < 4 }
    ensures { result ≡ hash_from h bytes.now }
{
    if bytes.is_empty() {
        return h;
    }
    times_m(h ^ low_first(bytes))
}

#[tactic(auto, using(crate::proofs::MurmurLemmas::hash_from_four))]
fn murmur2(bytes: &[u8]) -> u32
    ensures { result ≡ murmur2 bytes.now }
{
    let mut h = (bytes.len() % (1 << 32)) as u32;
    let mut left = bytes;
    while left.len() >= 4 {
        let (word, others) = left.split_at(4);
        h = times_m(h) ^ mix(low_first(word));
        left = others;
    }
    finalize(with_tail(h, left))
}

/// The path of a cell's text, as Jupyter's `debugInfo` lets a frontend compute it: the prefix, the
/// MurmurHash2 of its UTF-8 with the seed 0 in decimal, and the suffix.
pub fn cell_path(alloc: Global, code: &str) -> Result<Text, AllocError>
    ensures { IfOk result (λ path. path ≡ cell_path code.now) }
{
    let number = murmur2(code.as_bytes());
    Ok(Text::from(format!(in alloc; "{PREFIX}{number}{SUFFIX}")?))
}
