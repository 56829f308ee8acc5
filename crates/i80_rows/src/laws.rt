//! Laws of the definitions.
ghost use Rattle.std.specs.Prelude.{◌≡◌, ◌<◌, ◌↔◌, ℕ, List};
ghost use Rattle.std.specs.List.{All};
ghost use Rattle.i80_base.specs.declared.instruction.Instr.{Instr};
ghost use Rattle.i80_rows.specs.Encoding.{Encodes, encoding_of};

/// An instruction has exactly one encoding: the bytes that `encoding_of` computes encode it by the
/// opcode table, and no other bytes do.
pub fn encoding_is_one()
    ensures some { (i : Instr) → Encodes i (encoding_of i) }
    ensures only { (i : Instr) (bytes : List ℕ) → All (λ b. b < 256) bytes
        → Encodes i bytes ↔ (bytes ≡ encoding_of i) }
{}
