//! Laws of the definitions.
ghost use Rattle.std.specs.Prelude.{◌≡◌, ◌≤◌, ◌↔◌, ℕ, Some, false};
ghost use Rattle.base_text.specs.Bytes.{Bytes, Text};
ghost use Rattle.base64.specs.GeneralPurpose.{IsBytes};
ghost use Rattle.serde_json.specs.Data.{depth};
ghost use Rattle.serde_json.specs.Written.{has_float};
ghost use Rattle.dap_messages.specs.declared.message.Message.{Message};
ghost use Rattle.dap_messages.specs.declared.message.Numbering.{Numbering};
ghost use Rattle.dap_messages.specs.Base64.{bytes_of};
ghost use Rattle.dap_json.specs.Json.{base64_text, message_json};

/// No number in a message is a float, so that the message has one compact text.
#[tactic(auto, using(crate::proofs::FloatLemmas::message_has_no_float))]
pub fn has_no_float()
    ensures { (numbering : Numbering) (seq : ℕ) (message : Message)
        → has_float (message_json numbering seq message) ≡ false }
{}

/// A message nests at most 6 deep, so that its text can be read again.
#[tactic(auto, using(crate::proofs::DepthLemmas::message_is_shallow))]
pub fn is_shallow()
    ensures { (numbering : Numbering) (seq : ℕ) (message : Message)
        → depth (message_json numbering seq message) ≤ 6 }
{}

/// What is read as bytes in base64 is exactly what these bytes are written as.
#[tactic(auto, using(crate::proofs::Base64Lemmas::reads_what_is_written))]
pub fn reads_what_is_written()
    ensures { (text : Text) (bytes : Bytes) → IsBytes text → IsBytes bytes
        → (bytes_of text ≡ Some bytes) ↔ (text ≡ base64_text bytes) }
{}
