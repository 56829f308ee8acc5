//! Laws of the definitions.
ghost use Rattle.std.specs.Prelude.{◌≡◌, ◌≤◌, [], length, All};
ghost use Rattle.dap_stream.specs.Stream.{DecoderState, HasReadBodies, Reads};
ghost use Rattle.dap_stream.specs.Wire.{Bytes, Bodies};
ghost use Rattle.dap_stream.specs.Writing.{bytes_of_messages};

/// A stream has one reading, however it was cut into pieces: the same bodies, and the same state or fault.
pub fn one_reading()
    ensures { (s t : DecoderState) (stream : Bytes) (m n : Bodies)
        → HasReadBodies s stream m → HasReadBodies t stream n → (m ≡ n) × (s ≡ t) }
{}

/// What is written is read as these messages and nothing more.
#[tactic(auto, using(crate::proofs::WritingLemmas::written_reads))]
pub fn written_is_read()
    ensures { (bodies : Bodies) → All (λ body. length body ≤ 1048576) bodies
        → Reads (bytes_of_messages bodies) bodies [] }
{}
