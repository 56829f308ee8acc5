//! The number of lines of a text.
ghost use Rattle.std.specs.Prelude.{◌≡◌};
ghost use Rattle.lab_image.specs.Sources.{line_count};

/// The number of lines of a text: one more than it has LFs.
#[tactic(auto, using(crate::proofs::LineLemmas::one_more, crate::proofs::LineLemmas::all_lines))]
pub fn line_count(text: &str) -> usize
    ensures { result ≡ line_count text.now }
{
    let bytes = text.as_bytes();
    let mut count = 1;
    for (index, byte) in bytes.iter().enumerate() {
        if *byte == b'\n' {
            count += 1;
        }
    }
    count
}
