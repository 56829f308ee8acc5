//! Theorems about the definitions.
ghost use Rattle.std.specs.Prelude.{◌≡◌, ℕ, List, Some, Ok};
ghost use Rattle.base_text.specs.Bytes.{Text};
ghost use Rattle.dap_requests.specs.declared.request.Launch.{Launch};
ghost use Rattle.dap_messages.specs.declared.file_kind.ImageKind.{ImageKind};
ghost use Rattle.dap_image.specs.Images.{Cells};
ghost use Rattle.dap_image.specs.Law.{AreInRange};
ghost use Rattle.dap_image.specs.Texts.{program_for};
ghost use Rattle.dap_launch.specs.declared.file.FileText.TheVariants as file;
ghost use Rattle.dap_launch.specs.Files.{place_of, program_text};
ghost use Rattle.dap_launch.specs.Laws.{LaunchesProgram};

/// A program without source is launched, with its start, on a machine that has each of its bytes at its
/// address and is otherwise as after power-on, with the launch's treatment of undefined opcodes.
pub fn image_is_launched()
    ensures { (l : Launch) (kind : ImageKind) (bytes : List ℕ) (text : Text)
        → AreInRange bytes (place_of l) → program_text l (Some (file.Image kind bytes)) ≡ Ok text
        → (cells : Cells) (start : ℕ) → program_for kind bytes (place_of l) ≡ Ok (cells, start)
        → LaunchesProgram l text cells start }
{}
