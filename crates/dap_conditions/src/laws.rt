//! Laws of the definitions.
ghost use Rattle.std.specs.Prelude.{◌≡◌, Some, true};
ghost use Rattle.std.specs.Int.{is_in_range};
ghost use Rattle.dap_slice.specs.declared.hits.HitCondition.{HitCondition};
ghost use Rattle.dap_conditions.specs.HitConditions.{hit_condition_of, spelling, number_in};

/// A hit condition is read as it is written.
#[tactic(auto, using(crate::proofs::HitLawLemmas::read_as_written))]
pub fn hit_condition_is_read_as_written()
    ensures { (condition : HitCondition) → is_in_range 1 4294967295 (number_in condition) ≡ true
        → hit_condition_of (spelling condition) ≡ Some condition }
{}
