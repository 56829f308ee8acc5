//! Laws of the definitions.
ghost use Rattle.std.specs.Prelude.{◌≡◌, ◌∷◌, ◌++◌, [], List};
ghost use Rattle.i80_devs.specs.Past.{Operation, panel_after, panel_next};

/// The panel after a past and one more operation is the panel after the past, changed by that
/// operation: so the panel is all that the code has to keep.
#[inline(always)]
#[tactic(auto, using(crate::proofs::PastLemmas::panel_more))]
pub fn panel_after_one_more()
    ensures { (past : List Operation) (operation : Operation)
        → panel_after (past ++ operation ∷ []) ≡ panel_next (panel_after past) operation }
{}
