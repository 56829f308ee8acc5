//! Laws of the definitions.
ghost use Rattle.std.specs.Prelude.{◌≡◌, ◌<◌};
ghost use Rattle.std.specs.List.{All};
ghost use Rattle.base_text.specs.Bytes.{Bytes};
ghost use Rattle.base_text.specs.Latin.{latin_bytes, latin_text};

/// Bytes that are converted to a text and back are the same.
#[tactic(auto, using(crate::proofs::LatinLemmas::read_back))]
pub fn bytes_come_back()
    ensures { (bytes : Bytes) → All (λ byte. byte < 256) bytes → latin_bytes (latin_text bytes) ≡ bytes }
{}
