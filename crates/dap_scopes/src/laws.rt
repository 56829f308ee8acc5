//! Laws of the definitions.
ghost use Rattle.std.specs.Prelude.{◌≡◌, ◌<◌, ◌≤◌, ◌-◌, ℕ, List, All, Ok, IsOkAnd, IsTrue};
ghost use Rattle.std.specs.Prelude.{length, min};
ghost use Rattle.base_text.specs.Bytes.{Text};
ghost use Rattle.i80_exec.specs.State.{MachineState};
ghost use Rattle.asm_build.specs.Reading.{Entries};
ghost use Rattle.lab_shown.specs.declared.shown.Variable.{Variable};
ghost use Rattle.lab_views.specs.Variables.{variables_of};
ghost use Rattle.lab_core.specs.Board.{Board};
ghost use Rattle.lab_core.specs.Events.{parts_of};
ghost use Rattle.dap_messages.specs.declared.message.ValueFormat.{ValueFormat};
ghost use Rattle.dap_messages.specs.declared.message.ValueFormat.TheVariants.{Hexadecimal};
ghost use Rattle.dap_scopes.specs.Rows.{memory_rows};
ghost use Rattle.dap_scopes.specs.Stack.{stack_address, stack_rows, stack_words};
ghost use Rattle.dap_scopes.specs.Scopes.{variables_on};
ghost use Rattle.dap_scopes.specs.Completions.{begins_with, completions_before, word_of};
ghost use Rattle.dap_scopes.specs.Symbols.{entries_with, has_part};
ghost use Rattle.dap_scopes.specs.Laws.{AreWordsFrom, LeadsToNamed, ShowsView, without_texts};

/// A scope that the board has a view of begins with the rows of the view, by their names and values, if
/// numbers are hexadecimal as they are there. Only the registers have more: their pairs.
pub fn views_are_shown()
    ensures { (b : Board) (reference start count : ℕ) (rows : List Variable)
        → variables_of (parts_of b) reference start count ≡ Ok rows
        → IsOkAnd (variables_on b reference start count Hexadecimal) (ShowsView rows) }
{}

/// The stack has the words from SP on, two bytes apart: as many as were asked for, but none that begins past
/// the last address.
pub fn stack_has_the_words()
    ensures count { (format : ValueFormat) (b : Board) (start count : ℕ)
        → length (stack_rows format b start count) ≡ min count (stack_words b.machine.regs.sp - start) }
    ensures words { (format : ValueFormat) (b : Board) (start count : ℕ)
        → AreWordsFrom start format b (stack_rows format b start count) }
{}

/// Each of them is at an address that there is.
pub fn stack_is_in_memory()
    ensures { (sp i : ℕ) → sp < 65536 → i < stack_words sp → stack_address sp i < 65536 }
{}

/// A memory window on a byte or a word begins at the address that is the name of its row.
pub fn windows_begin_at_names()
    ensures memory { (format : ValueFormat) (m : MachineState) (start count : ℕ)
        → All LeadsToNamed (memory_rows format m start count) }
    ensures stack { (format : ValueFormat) (b : Board) (start count : ℕ) → b.machine.regs.sp < 65536
        → All LeadsToNamed (stack_rows format b start count) }
{}

/// Only the texts of values depend on the format.
pub fn formats_are_of_texts()
    ensures { (b : Board) (reference start count : ℕ) (format other : ValueFormat)
        → without_texts (variables_on b reference start count format)
        ≡ without_texts (variables_on b reference start count other) }
{}

/// Each completion begins with the word that it completes, in either case, and there are at most 256.
pub fn completions_begin_with_the_word()
    ensures begin { (before : Text) (symbols : Entries)
        → All (λ c. IsTrue (begins_with c.label (word_of before))) (completions_before before symbols).items }
    ensures few { (before : Text) (symbols : Entries)
        → length (completions_before before symbols).items ≤ 256 }
{}

/// The symbols that are shown have the part in their names, in either case, and there are at most 256.
pub fn symbols_have_the_part()
    ensures part { (symbols : Entries) (part : Text)
        → All (λ e. IsTrue (has_part e.0 part)) (entries_with symbols part) }
    ensures few { (symbols : Entries) (part : Text) → length (entries_with symbols part) ≤ 256 }
{}
