//! Laws of the listing of a memory with gaps.
ghost use Rattle.std.specs.Prelude.{◌≡◌, ◌≤◌, ◌+◌, ◌++◌, ◌⊎◌, ◌↔◌, ℕ, List, Option, Some, None, length, map};
ghost use Rattle.std.specs.Prelude.{replicate};
ghost use Rattle.std.specs.Str.Lines.{lines};
ghost use Rattle.asm_build.specs.Reading.{Entries};
ghost use Rattle.i80_dis.specs.Text.{listing_of};
ghost use Rattle.i80_listings_laws.specs.Runs.{Run, present, runs_of, AreRuns};
ghost use Rattle.i80_listings_laws.specs.Text.{listings_of};
ghost use Rattle.i80_listings_laws.specs.Law.{HaveBytes, IsStart, AssemblesWith};

/// The runs of a memory are the one list of runs that has its bytes, ascending, at least one in each run,
/// and between two runs at least one address without a byte.
pub fn runs_are()
    ensures { (cells : List (Option ℕ)) (runs : List Run)
        → AreRuns runs (present cells) ↔ (runs ≡ runs_of cells) }
{}

/// The listing of a memory is a cell, if it has no more lines than a cell may have. Over any kept symbols
/// it has a consistent reading and no fault; and each of its consistent readings gives the bytes of the
/// memory at their addresses, ascending, the start, and the symbols that were kept.
pub fn listings_assemble()
    ensures { (kept : Entries) (cells : List (Option ℕ)) (start : Option ℕ)
        → HaveBytes cells → IsStart start → length cells ≤ 65536
        → length (lines (listings_of cells start)) ≤ 65537
        → AssemblesWith kept (listings_of cells start) (present cells) start }
{}

/// It has no more lines than a cell may have if there is no start, or if bytes and runs together are at
/// most 65,536. They are more only if the first and the last of 65,536 addresses have bytes and no two
/// addresses next to each other have none: 65,536 times NOP and a start are one line too many.
pub fn lines_are_few()
    ensures { (cells : List (Option ℕ)) (start : Option ℕ)
        → HaveBytes cells → IsStart start → length cells ≤ 65536
        → (start ≡ None) ⊎ (length (present cells) + length (runs_of cells) ≤ 65536)
        → length (lines (listings_of cells start)) ≤ 65537 }
{}

/// The listing of bytes with no gap between them is that of `i80_dis`.
pub fn one_run()
    ensures { (before after : ℕ) (bytes : List ℕ)
        → listings_of (replicate before None ++ (map Some bytes ++ replicate after None)) None
        ≡ listing_of before bytes }
{}
