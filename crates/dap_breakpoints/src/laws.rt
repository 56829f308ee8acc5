//! Laws of the definitions.
ghost use Rattle.std.specs.Prelude.{◌≡◌, ◌++◌, ◌≤◌, ◌+◌, ℕ, List, All, Contains, Some};
ghost use Rattle.base_text.specs.Bytes.{Text};
ghost use Rattle.lab_core.specs.Board.{Board};
ghost use Rattle.dap_slice.specs.declared.conditions.ConditionalBreakpoint.{ConditionalBreakpoint};
ghost use Rattle.dap_requests.specs.declared.request.DataQuery.{DataQuery};
ghost use Rattle.dap_requests.specs.declared.request.DataBreakpoint.{DataBreakpoint};
ghost use Rattle.dap_requests.specs.declared.request.InstructionBreakpoint.{InstructionBreakpoint};
ghost use Rattle.dap_breakpoints.specs.declared.place.DataPlace.TheVariants.{Bytes};
ghost use Rattle.dap_breakpoints.specs.Places.{registers, pairs, id_of, data_named};
ghost use Rattle.dap_breakpoints.specs.Info.{data_info};
ghost use Rattle.dap_breakpoints.specs.Data.{points_on, watches_on};
ghost use Rattle.dap_breakpoints.specs.Instructions.{instructions_on, breaks_on};
ghost use Rattle.dap_breakpoints.specs.Laws.{SetsDescribed, HoldsOfVerified, HoldsOfEachVerified};
ghost use Rattle.dap_breakpoints.specs.Laws.{AreAllWatched, IsWatchOf, IsMetAsTold, IsBreakOf};

/// Each register, each pair, and 1 to 16 bytes that are in memory are set by their text.
pub fn ids_are_read()
    ensures registers { All (λ d. data_named (id_of d) ≡ Some d) (registers ++ pairs) }
    ensures bytes { (a n : ℕ) → 1 ≤ n → n ≤ 16 → a + n ≤ 65536
        → data_named (id_of (Bytes a n)) ≡ Some (Bytes a n) }
{}

/// The text of data that an editor is told of sets the very data that is described.
#[tactic(auto, using(crate::proofs::InfoLemmas::told_is_set))]
pub fn told_data_is_set()
    ensures { (b : Board) (q : DataQuery) (id : Text) → (data_info b q).data_id ≡ Some id
        → SetsDescribed id (data_info b q) }
{}

/// A breakpoint of which an editor is told that it is verified is watched at each of its places under its
/// conditions, with the number that the editor is told; and only such breakpoints are watched.
pub fn verified_is_watched()
    ensures verified { (b : Board) (ds : List DataBreakpoint)
        → HoldsOfEachVerified ds (points_on b ds) (AreAllWatched (watches_on b ds)) }
    ensures others { (b : Board) (ds : List DataBreakpoint) (w : ConditionalBreakpoint)
        → Contains (watches_on b ds) w → HoldsOfVerified ds (points_on b ds) (IsWatchOf w) }
{}

/// A breakpoint at an instruction of which an editor is told that it is verified is met at the address that
/// the editor is told, under its conditions and with its number; and only such breakpoints are met.
pub fn verified_is_met_at()
    ensures verified { (b : Board) (asked : List InstructionBreakpoint)
        → HoldsOfEachVerified asked (instructions_on b asked) (IsMetAsTold (breaks_on b asked)) }
    ensures others { (b : Board) (asked : List InstructionBreakpoint) (w : ConditionalBreakpoint)
        → Contains (breaks_on b asked) w → HoldsOfVerified asked (instructions_on b asked) (IsBreakOf w) }
{}
