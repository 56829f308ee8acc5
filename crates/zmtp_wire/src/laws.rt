//! Laws of the definitions.
ghost use Rattle.std.specs.Prelude.{◌≡◌};
ghost use Rattle.zmtp_wire.specs.Stream.{DecoderState, HasReadMessages};
ghost use Rattle.zmtp_wire.specs.Wire.{Bytes, Messages};

/// A stream has one reading, however it was cut into pieces: the same messages, and the same state or fault.
pub fn one_reading()
    ensures { (s t : DecoderState) (stream : Bytes) (m n : Messages) → s.role ≡ t.role
        → HasReadMessages s stream m → HasReadMessages t stream n → (m ≡ n) × (s ≡ t) }
{}
