//! Laws that state values of `IsTourOf` in `specs/Problems.antt`, worked out by hand: which cycles
//! use the fixed edges of a TSP, and which those of an ATSP. No code calls them. If someone makes
//! the same mistake in the definition and in the code, every contract still holds, but one of these
//! laws fails.

ghost use Rattle.std.specs.Prelude.{[], ◌∷◌};
ghost use Rattle.tsp_format.specs.declared.kinds.Kind.TheVariants as kinds;
ghost use Rattle.tsp_theory.specs.Examples.{three, four};
ghost use Rattle.tsp_cost.specs.Problems.{IsTourOf};
ghost use Rattle.tsp_cost.specs.Examples.{with_fixed};

/// Which cycles use a fixed pair: for an ATSP those that go from its first node to its second,
/// otherwise those that go either way.
pub fn examples_of_tours()
    ensures arc { IsTourOf (with_fixed kinds.Atsp 3 ((2, 1) ∷ [])) (three 1 3 2) }
    ensures arc_in_reverse { ¬ IsTourOf (with_fixed kinds.Atsp 3 ((2, 1) ∷ [])) (three 1 2 3) }
    ensures pair { IsTourOf (with_fixed kinds.Tsp 4 ((1, 3) ∷ [])) (four 1 3 4 2) }
    ensures pair_in_reverse { IsTourOf (with_fixed kinds.Tsp 4 ((3, 1) ∷ [])) (four 1 3 4 2) }
    ensures pair_at_the_end { IsTourOf (with_fixed kinds.Tsp 4 ((1, 2) ∷ [])) (four 1 3 4 2) }
    ensures unused { ¬ IsTourOf (with_fixed kinds.Tsp 4 ((1, 3) ∷ [])) (four 1 2 3 4) }
    ensures second_unused { ¬ IsTourOf (with_fixed kinds.Tsp 4 ((1, 2) ∷ (1, 3) ∷ [])) (four 1 2 3 4) }
{}
