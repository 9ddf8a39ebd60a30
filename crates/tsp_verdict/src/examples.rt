//! Laws that state values of the definitions in `specs/`, worked out by hand: which reasons apply
//! to small instances, tours, routes and certificates, in which order, and with which bounds. No
//! code calls them. If someone makes the same mistake in a definition and in the code, every
//! contract still holds, but one of these laws fails.

ghost use Rattle.tsp_verdict.specs.Prelude.{[], None, Some, true, false, pos, negsuc, ℕ, Option, ℤ, Branch, Leaf, cost, scale_in, Fields, nodes_of, IsAdjustedBound, entry, is_directed, depot_of, capacity_of, routing_of, IsPlanOf, decided_number, IsLeastRoutes, plan_length, CertificateKind};
ghost use Rattle.std.specs.Prelude.{◌≡◌, ◌∷◌, ◌+◌, ◌*◌, ◌<◌, ◌+ℤ◌, ◌*ℤ◌, ◌<ℤ◌};
ghost use Rattle.tsp_format.specs.declared.keyword.Field.TheVariants as fields;
ghost use Rattle.tsp_format.specs.declared.kinds.Kind.TheVariants as kinds;
ghost use Rattle.tsp_cases.specs.CaseTrees.{IsCaseTreeBound};
ghost use Rattle.tsp_cases.specs.Examples.{with_pair};
ghost use Rattle.tsp_routing.specs.PlanVerdicts.{HasTooManyLoads, IsBoundFound};
ghost use Rattle.tsp_verdict.specs.SolutionVerdict.{IsLeastKnownBy, IsAsClaimed, IsOtherClaimed, IsOfLength, IsVerdictOn, IsVerdictWith, HasLength, HasNoLength};
ghost use Rattle.tsp_verdict.specs.Certified.{AppliesToInstance, AppliesToTouring, AppliesToRouting, AppliesToCertificate, NoneWithoutMemory, IsCertifiedTourVerdict, IsCertifiedRoutesVerdict};
ghost use Rattle.tsp_verdict.specs.Certificates.{given_in, unit_in, by_runs_in, AppliesToBranches, AppliesToQRoutes, HasBoundByBranches, HasBoundByQRoutes, case_steps_in, AppliesToPotentials, IsBoundByNodes, IsBoundByDuals};
ghost use Rattle.tsp_verdict.specs.Examples.{instance_with, of_nodes, of_rows, of_both, multiplying, vehicles, carrying, solution, sized, lone, both, branching, two_leaves, three_leaves, node_twice, IsJudgedBefore, halves_of_nodes, halves_of_rows, halves_of_leaf, by_fives, remembering, pair_row, bad_leaves};
ghost use Rattle.tsp_theory.specs.Examples.{two, three, four};
ghost use Rattle.tsp_verdict.specs.SolutionReasons.{total_of, AppliesToRoutes, NoneOfRoutesBeforeRepeats, IsRoutesVerdict, AppliesToTour, NoneOfTourBeforeRepeats, IsTourVerdict};
ghost use Rattle.tsp_report.specs.declared.task.CertificateKind.TheVariants as certificates;
ghost use Rattle.tsp_report.specs.declared.verdict.Reason.TheVariants as reasons;
ghost use Rattle.tsp_report.specs.declared.verdict.Verdict.TheVariants as verdicts;

/// A claim above the length, and one below it, are both other claims.
pub fn examples_of_other_claims()
    ensures above { ¬ IsAsClaimed (Some (pos 15)) (pos 14) }
    ensures below { ¬ IsAsClaimed (Some (pos 13)) (pos 14) }
    ensures above_is_other { IsOtherClaimed (Some (pos 15)) (pos 14) }
    ensures below_is_other { IsOtherClaimed (Some (pos 13)) (pos 14) }
    ensures below_zero { ¬ IsAsClaimed (Some (negsuc 13)) (pos 14) }
{}

/// The verdict on a solution whose length is 14. The reason tells that length, not the claim.
pub fn examples_of_claimed_verdicts()
    ensures above { (instance solution : Fields)
        → IsOfLength instance solution (pos 14) → IsVerdictWith None
        (Some (pos 15)) instance solution (verdicts.No (reasons.LengthClaimed (pos 14))) }
    ensures below { (instance solution : Fields)
        → IsOfLength instance solution (pos 14) → IsVerdictWith None
        (Some (pos 13)) instance solution (verdicts.No (reasons.LengthClaimed (pos 14))) }
    ensures same { (instance solution : Fields)
        → IsVerdictOn instance solution (verdicts.Tour (pos 14) None)
        → IsVerdictWith None (Some (pos 14)) instance solution (verdicts.Tour (pos 14) None) }
    ensures not_above { (instance solution : Fields)
        → ¬ IsVerdictWith None (Some (pos 15)) instance solution (verdicts.Tour (pos 14) None) }
    ensures not_below { (instance solution : Fields)
        → ¬ IsVerdictWith None (Some (pos 13)) instance solution (verdicts.Routes (pos 14) 3 2 None) }
    ensures unclaimed { (instance solution : Fields)
        → IsVerdictOn instance solution (verdicts.Tour (pos 14) None)
        → IsVerdictWith None None instance solution (verdicts.Tour (pos 14) None) }
{}

/// Two fixed arcs in opposite directions are two decisions, and two fixed edges are one.
pub fn examples_of_fixed_arcs()
    ensures arcs { given_in (instance_with kinds.Atsp 4 ((1, 2) ∷ (2, 1) ∷ []))
        ≡ with_pair 1 2 ∷ with_pair 2 1 ∷ [] }
    ensures same_arc { given_in (instance_with kinds.Atsp 4 ((1, 2) ∷ (1, 2) ∷ [])) ≡ with_pair 1 2 ∷ [] }
    ensures one_head { given_in (instance_with kinds.Atsp 4 ((1, 2) ∷ (3, 2) ∷ []))
        ≡ with_pair 1 2 ∷ with_pair 3 2 ∷ [] }
    ensures edges { given_in (instance_with kinds.Tsp 4 ((1, 2) ∷ (2, 1) ∷ [])) ≡ with_pair 1 2 ∷ [] }
{}

/// The order in which reasons against a tour, and then against its certificate, are judged: each
/// pair of neighbours.
pub fn examples_of_order()
    ensures nodes { IsJudgedBefore reasons.NotASolution reasons.TooFewNodes }
    ensures even { IsJudgedBefore reasons.TooFewNodes (reasons.NotSymmetric 1 2) }
    ensures dimension { IsJudgedBefore (reasons.NotSymmetric 1 2) reasons.Dimension }
    ensures count { IsJudgedBefore reasons.Dimension reasons.TourCount }
    ensures length { IsJudgedBefore reasons.TourCount reasons.TourLength }
    ensures range { IsJudgedBefore reasons.TourLength (reasons.NodeOutOfRange 1) }
    ensures repeated { IsJudgedBefore (reasons.NodeOutOfRange 9) (reasons.RepeatedNode 1) }
    ensures fixed { IsJudgedBefore (reasons.RepeatedNode 9) (reasons.FixedEdgeUnused 1) }
    ensures claimed { IsJudgedBefore (reasons.FixedEdgeUnused 9) (reasons.LengthClaimed (pos 1)) }
    ensures potentials { IsJudgedBefore (reasons.LengthClaimed (pos 9)) reasons.NotPotentials }
    ensures their_dimension { IsJudgedBefore reasons.NotPotentials reasons.PotentialsDimension }
    ensures their_kind { IsJudgedBefore reasons.PotentialsDimension reasons.PotentialsKind }
    ensures not_fixed { IsJudgedBefore reasons.PotentialsKind (reasons.MultiplierNotFixed 1) }
    ensures multiplied_twice { IsJudgedBefore (reasons.MultiplierNotFixed 9)
        (reasons.MultiplierRepeated 1) }
    ensures duals { IsJudgedBefore (reasons.MultiplierRepeated 9) (reasons.DualInfeasible 1 2) }
    ensures branches { IsJudgedBefore (reasons.LengthClaimed (pos 9)) reasons.NotBranches }
    ensures number_of_nodes { IsJudgedBefore reasons.NotBranches reasons.BranchesDimension }
    ensures families { IsJudgedBefore reasons.BranchesDimension (reasons.BadFamily 1) }
    ensures memory { IsJudgedBefore (reasons.BadFamily 9) (reasons.BadMemory 1) }
    ensures row { IsJudgedBefore (reasons.BadMemory 9) (reasons.BadRow 1) }
    ensures on_a_family { IsJudgedBefore (reasons.BadRow 9) (reasons.BadBranch 1) }
    ensures decided_twice { IsJudgedBefore (reasons.BadBranch 9) (reasons.BranchTwice 1) }
    ensures leaves { IsJudgedBefore (reasons.BranchTwice 9) (reasons.BadLeaf 1) }
    ensures loads { IsJudgedBefore (reasons.BadLeaf 9) reasons.TooManyLoads }
    ensures states { IsJudgedBefore reasons.TooManyLoads (reasons.TooManyStates 1) }
    ensures unjudged { IsJudgedBefore (reasons.TooManyStates 9) reasons.NotJudged }
    ensures unused { IsJudgedBefore reasons.NotJudged (reasons.NotUsed fields.CapacityKey) }
{}

/// The order in which reasons against routes are judged: each pair of neighbours.
pub fn examples_of_order_of_routes()
    ensures nodes { IsJudgedBefore reasons.NotASolution reasons.TooFewNodes }
    ensures dimension { IsJudgedBefore reasons.TooFewNodes reasons.Dimension }
    ensures depots { IsJudgedBefore reasons.Dimension reasons.DepotCount }
    ensures demand { IsJudgedBefore reasons.DepotCount reasons.DepotDemand }
    ensures fixed { IsJudgedBefore reasons.DepotDemand reasons.FixedEdgesInRoutes }
    ensures depot { IsJudgedBefore reasons.FixedEdgesInRoutes (reasons.DepotInRoute 1) }
    ensures range { IsJudgedBefore (reasons.DepotInRoute 9) (reasons.NodeOutOfRange 1) }
    ensures repeated { IsJudgedBefore (reasons.NodeOutOfRange 9) (reasons.RepeatedNode 1) }
    ensures unserved { IsJudgedBefore (reasons.RepeatedNode 9) (reasons.Unserved 2) }
    ensures overload { IsJudgedBefore (reasons.Unserved 9) (reasons.Overload 1) }
    ensures claimed { IsJudgedBefore (reasons.Overload 9) (reasons.LengthClaimed (pos 1)) }
{}

/// When the two reasons against an instance apply, whatever the tour.
pub fn examples_against_instances()
    ensures two_nodes { AppliesToInstance (instance_with kinds.Atsp 2 []) reasons.TooFewNodes }
    ensures three_nodes { ¬ AppliesToInstance (instance_with kinds.Atsp 3 []) reasons.TooFewNodes }
    ensures no_solution { ¬ AppliesToInstance (instance_with kinds.Tsp 4 []) reasons.NotASolution }
    ensures directed { ¬ AppliesToInstance (instance_with kinds.Atsp 4 []) (reasons.NotSymmetric 1 2) }
{}

/// Which length is claimed, and of which verdict.
pub fn examples_of_claims()
    ensures none { IsAsClaimed None (pos 14) }
    ensures same { IsAsClaimed (Some (pos 14)) (pos 14) }
    ensures another { ¬ IsAsClaimed (Some (pos 13)) (pos 14) }
    ensures none_is_no_other { ¬ IsOtherClaimed None (pos 14) }
    ensures same_is_no_other { ¬ IsOtherClaimed (Some (pos 14)) (pos 14) }
    ensures other { IsOtherClaimed (Some (negsuc 33)) (pos 34) }
    ensures tour { HasLength (verdicts.Tour (pos 14) (Some (pos 10))) (pos 14) }
    ensures not_its_bound { ¬ HasLength (verdicts.Tour (pos 14) (Some (pos 10))) (pos 10) }
    ensures routes { HasLength (verdicts.Routes (pos 20) 3 2 None) (pos 20) }
    ensures no { ¬ HasLength (verdicts.No reasons.TourCount) (pos 0) }
    ensures no_length { HasNoLength (verdicts.No reasons.TourCount) }
    ensures a_length { ¬ HasNoLength (verdicts.Tour (pos 14) None) }
{}

/// When the reasons against a tour apply.
pub fn examples_against_tours()
    ensures no_solution { AppliesToTour (instance_with kinds.Tsp 4 [])
        (instance_with kinds.Potentials 4 []) reasons.NotASolution }
    ensures two_nodes { AppliesToTour (instance_with kinds.Tsp 2 [])
        (lone (two 1 2)) reasons.TooFewNodes }
    ensures three_nodes { ¬ AppliesToTour
        (instance_with kinds.Tsp 3 []) (lone (two 1 2)) reasons.TooFewNodes }
    ensures dimension { AppliesToTour (instance_with kinds.Tsp 4 []) (sized 5 []) reasons.Dimension }
    ensures same_dimension { ¬ AppliesToTour
        (instance_with kinds.Tsp 4 []) (sized 4 []) reasons.Dimension }
    ensures no_dimension { ¬ AppliesToTour
        (instance_with kinds.Tsp 4 []) (solution []) reasons.Dimension }
    ensures no_tour { AppliesToTour (instance_with kinds.Tsp 4 []) (solution []) reasons.TourCount }
    ensures two_tours { AppliesToTour (instance_with kinds.Tsp 4 [])
        (both (two 1 2) (two 3 4)) reasons.TourCount }
    ensures one_tour { ¬ AppliesToTour
        (instance_with kinds.Tsp 4 []) (lone (two 1 2)) reasons.TourCount }
    ensures short { AppliesToTour (instance_with kinds.Tsp 4 [])
        (lone (three 1 2 3)) reasons.TourLength }
    ensures past_the_last { AppliesToTour (instance_with kinds.Tsp 4 [])
        (lone (four 1 2 3 5)) (reasons.NodeOutOfRange 4) }
    ensures the_last { ¬ AppliesToTour
        (instance_with kinds.Tsp 4 []) (lone (four 1 2 3 4)) (reasons.NodeOutOfRange 4) }
    ensures first_past { ¬ AppliesToTour
        (instance_with kinds.Tsp 4 []) (lone (four 1 2 5 6)) (reasons.NodeOutOfRange 4) }
    ensures repeated { AppliesToTour (instance_with kinds.Tsp 4 [])
        (lone (four 1 2 2 3)) (reasons.RepeatedNode 3) }
    ensures first_repeated { AppliesToTour (instance_with kinds.Tsp 4 [])
        (lone (four 1 1 4 4)) (reasons.RepeatedNode 2) }
    ensures not_the_second { ¬ AppliesToTour
        (instance_with kinds.Tsp 4 []) (lone (four 1 1 4 4)) (reasons.RepeatedNode 4) }
    ensures unused { AppliesToTour (instance_with kinds.Tsp 4 ((1, 3) ∷ [])) (lone (four 1 2 3 4))
        (reasons.FixedEdgeUnused 1) }
    ensures arc { AppliesToTour (instance_with kinds.Atsp 3 ((2, 1) ∷ [])) (lone (three 1 2 3))
        (reasons.FixedEdgeUnused 1) }
    ensures no_arc { ¬ AppliesToTour
        (instance_with kinds.Tsp 3 ((2, 1) ∷ [])) (lone (three 1 2 3)) (reasons.FixedEdgeUnused 1) }
{}

/// When the reasons against a certificate apply. None is broken here by its numbers.
pub fn examples_against_certificates()
    ensures scale { scale_in (of_nodes 4) ≡ pos 1 }
    ensures no_potentials { AppliesToPotentials (instance_with kinds.Tsp 4 [])
        (solution []) reasons.NotPotentials }
    ensures potentials { ¬ AppliesToPotentials
        (instance_with kinds.Tsp 4 []) (of_nodes 4) reasons.NotPotentials }
    ensures dimension { AppliesToPotentials (instance_with kinds.Tsp 4 [])
        (of_nodes 3) reasons.PotentialsDimension }
    ensures same_dimension { ¬ AppliesToPotentials
        (instance_with kinds.Tsp 4 []) (of_nodes 4) reasons.PotentialsDimension }
    ensures tsp { ¬ AppliesToPotentials
        (instance_with kinds.Tsp 4 []) (of_nodes 4) reasons.PotentialsKind }
    ensures tsp_by_rows { AppliesToPotentials (instance_with kinds.Tsp 4 [])
        (of_both 4) reasons.PotentialsKind }
    ensures atsp { ¬ AppliesToPotentials
        (instance_with kinds.Atsp 4 []) (of_both 4) reasons.PotentialsKind }
    ensures atsp_by_nodes { AppliesToPotentials (instance_with kinds.Atsp 4 [])
        (of_nodes 4) reasons.PotentialsKind }
    ensures atsp_by_rows { AppliesToPotentials (instance_with kinds.Atsp 4 [])
        (of_rows 4) reasons.PotentialsKind }
{}

/// When the reasons against a certificate by branching apply, and which pairs are decided in all of
/// its cases.
pub fn examples_against_trees()
    ensures no_tree { AppliesToBranches (instance_with kinds.Tsp 4 []) (of_nodes 4) reasons.NotBranches }
    ensures tree { ¬ AppliesToBranches
        (instance_with kinds.Tsp 4 []) (branching 4 [] (Leaf [] ∷ [])) reasons.NotBranches }
    ensures dimension { AppliesToBranches (instance_with kinds.Tsp 4 [])
        (branching 3 [] (Leaf [] ∷ [])) reasons.BranchesDimension }
    ensures same_dimension { ¬ AppliesToBranches (instance_with kinds.Tsp 4 [])
        (branching 4 [] (Leaf [] ∷ [])) reasons.BranchesDimension }
    ensures node_twice { AppliesToBranches (instance_with kinds.Tsp 4 [])
        (branching 4 (node_twice ∷ []) (Leaf [] ∷ [])) (reasons.BadFamily 1) }
    ensures again { AppliesToBranches (instance_with kinds.Tsp 4 [])
        (branching 4 [] (Branch 1 2 ∷ Branch 1 2 ∷ three_leaves)) (reasons.BranchTwice 2) }
    ensures fixed { AppliesToBranches (instance_with kinds.Tsp 4 ((2, 1) ∷ []))
        (branching 4 [] (Branch 1 2 ∷ two_leaves)) (reasons.BranchTwice 1) }
    ensures past_the_nodes { AppliesToBranches (instance_with kinds.Tsp 4 [])
        (branching 4 [] (Leaf ((5, pos 1) ∷ []) ∷ [])) (reasons.BadLeaf 1) }
    ensures memory { AppliesToBranches (instance_with kinds.Tsp 4 [])
        (remembering ((3 ∷ 2 ∷ []) ∷ (4 ∷ []) ∷ []) []) (reasons.BadMemory 3) }
    ensures one_memory { AppliesToBranches (instance_with kinds.Tsp 4 [])
        (remembering ((3 ∷ 2 ∷ []) ∷ []) []) (reasons.BadMemory 3) }
    ensures not_the_remembered { ¬ AppliesToBranches (instance_with kinds.Tsp 4 [])
        (remembering ((3 ∷ 2 ∷ []) ∷ []) []) (reasons.BadMemory 2) }
    ensures no_memory { ¬ AppliesToBranches
        (instance_with kinds.Tsp 4 []) (remembering [] []) (reasons.BadMemory 3) }
    ensures row { AppliesToBranches (instance_with kinds.Tsp 4 [])
        (remembering [] (pair_row ∷ pair_row ∷ [])) (reasons.BadRow 1) }
    ensures one_row { AppliesToBranches (instance_with kinds.Tsp 4 [])
        (remembering [] (pair_row ∷ [])) (reasons.BadRow 1) }
    ensures first_row { ¬ AppliesToBranches (instance_with kinds.Tsp 4 [])
        (remembering [] (pair_row ∷ pair_row ∷ [])) (reasons.BadRow 2) }
    ensures no_row { ¬ AppliesToBranches
        (instance_with kinds.Tsp 4 []) (remembering [] []) (reasons.BadRow 1) }
    ensures given_once { given_in (instance_with kinds.Tsp 4 ((1, 2) ∷ (3, 4) ∷ (2, 1) ∷ []))
        ≡ with_pair 1 2 ∷ with_pair 3 4 ∷ [] }
{}

/// When the reasons against routes apply. Node 1 is the depot.
pub fn examples_against_routes()
    ensures one_node { AppliesToRoutes (instance_with kinds.Cvrp 1 [])
        (solution []) reasons.TooFewNodes }
    ensures two_nodes { ¬ AppliesToRoutes
        (instance_with kinds.Cvrp 2 []) (solution []) reasons.TooFewNodes }
    ensures no_depot { AppliesToRoutes (vehicles [] (pos 0) (pos 4) (pos 8))
        (solution []) reasons.DepotCount }
    ensures two_depots { AppliesToRoutes (vehicles (two 1 1) (pos 0) (pos 4) (pos 8))
        (solution []) reasons.DepotCount }
    ensures one_depot { ¬ AppliesToRoutes (carrying (pos 8)) (solution []) reasons.DepotCount }
    ensures demand { AppliesToRoutes (vehicles (1 ∷ []) (pos 1) (pos 4) (pos 8))
        (solution []) reasons.DepotDemand }
    ensures no_demand { ¬ AppliesToRoutes (carrying (pos 8)) (solution []) reasons.DepotDemand }
    ensures fixed { AppliesToRoutes (instance_with kinds.Cvrp 4 ((2, 3) ∷ [])) (solution [])
        reasons.FixedEdgesInRoutes }
    ensures depot { AppliesToRoutes (carrying (pos 8))
        (lone (three 2 1 3)) (reasons.DepotInRoute 2) }
    ensures repeated { AppliesToRoutes (carrying (pos 8))
        (both (two 2 3) (3 ∷ [])) (reasons.RepeatedNode 3) }
    ensures unserved { AppliesToRoutes (carrying (pos 8))
        (lone (two 2 3)) (reasons.Unserved 4) }
    ensures past_capacity { AppliesToRoutes (carrying (pos 7))
        (both (two 2 3) (4 ∷ [])) (reasons.Overload 1) }
    ensures at_capacity { ¬ AppliesToRoutes
        (carrying (pos 8)) (both (two 2 3) (4 ∷ [])) (reasons.Overload 1) }
{}

/// What plans are, how long they are, how many routes are the least.
#[tactic(auto, unfolding(tsp_format::specs::Nodes::nodes_to))]
pub fn examples_of_plans()
    ensures at_capacity { IsPlanOf (carrying (pos 8)) (two 2 3 ∷ (4 ∷ []) ∷ []) }
    ensures past_capacity { ¬ IsPlanOf (carrying (pos 7)) (two 2 3 ∷ (4 ∷ []) ∷ []) }
    ensures unserved { ¬ IsPlanOf (carrying (pos 8)) (two 2 3 ∷ []) }
    ensures twice { ¬ IsPlanOf (carrying (pos 8)) (two 2 3 ∷ two 3 4 ∷ []) }
    ensures depot { ¬ IsPlanOf (carrying (pos 8)) (two 2 3 ∷ two 1 4 ∷ []) }
    ensures length { plan_length (λ i j. pos (10 * i + j)) 1 (two 2 3 ∷ (4 ∷ []) ∷ [])
        ≡ pos (12 + 23 + 31 + 14 + 41) }
    ensures direction { plan_length (λ i j. pos (i * i + j)) 1 (two 3 2 ∷ []) ≡ pos (4 + 11 + 5) }
    ensures total { total_of (carrying (pos 8)) ≡ pos 12 }
    ensures least { IsLeastRoutes (pos 12) (pos 8) 2 }
    ensures full { IsLeastRoutes (pos 16) (pos 8) 2 }
    ensures one_more { IsLeastRoutes (pos 17) (pos 8) 3 }
    ensures nothing { IsLeastRoutes (pos 0) (pos 8) 0 }
{}

/// What is known if memory runs out: no reason applies that is found without memory. Here are the
/// last of these reasons, and one before it.
pub fn examples_of_reasons_before_memory()
    ensures length { (inst sol : Fields)
        → AppliesToTour inst sol reasons.TourLength → ¬ NoneOfTourBeforeRepeats inst sol }
    ensures range { (inst sol : Fields) (place : ℕ) → AppliesToTour inst sol
        (reasons.NodeOutOfRange place) → ¬ NoneOfTourBeforeRepeats inst sol }
    ensures depots { (inst sol : Fields)
        → AppliesToRoutes inst sol reasons.DepotCount → ¬ NoneOfRoutesBeforeRepeats inst sol }
    ensures range_of_routes { (inst sol : Fields) (place : ℕ) → AppliesToRoutes inst sol
        (reasons.NodeOutOfRange place) → ¬ NoneOfRoutesBeforeRepeats inst sol }
    ensures kind_of_potentials { (inst cert : Fields) → AppliesToPotentials inst
        cert reasons.PotentialsKind → ¬ NoneWithoutMemory certificates.Potentials inst cert }
    ensures no_potentials { (inst cert : Fields) → AppliesToPotentials inst
        cert reasons.NotPotentials → ¬ NoneWithoutMemory certificates.Potentials inst cert }
    ensures nodes_of_branches { (inst cert : Fields) → AppliesToCertificate certificates.Branches inst
        cert reasons.BranchesDimension → ¬ NoneWithoutMemory certificates.Branches inst cert }
    ensures no_branches { (inst cert : Fields)
        → AppliesToCertificate certificates.Branches inst cert reasons.NotBranches
        → ¬ NoneWithoutMemory certificates.Branches inst cert }
{}

/// When the DIMENSION of routes differs from the instance's.
pub fn examples_of_dimensions_of_routes()
    ensures below { AppliesToRoutes (carrying (pos 8)) (sized 3 []) reasons.Dimension }
    ensures above { AppliesToRoutes (carrying (pos 8)) (sized 5 []) reasons.Dimension }
    ensures same { ¬ AppliesToRoutes (carrying (pos 8)) (sized 4 []) reasons.Dimension }
    ensures none { ¬ AppliesToRoutes (carrying (pos 8)) (solution []) reasons.Dimension }
    ensures of_tours { AppliesToTour (instance_with kinds.Tsp 4 []) (sized 3 []) reasons.Dimension }
{}

/// Which multipliers aren't on a fixed pair, or on that of an earlier one.
pub fn examples_of_multipliers()
    ensures fixed { ¬ AppliesToPotentials (instance_with kinds.Tsp 4
        ((1, 2) ∷ [])) (multiplying ((1, 2, pos 5) ∷ [])) (reasons.MultiplierNotFixed 1) }
    ensures turned_round { ¬ AppliesToPotentials (instance_with kinds.Tsp 4
        ((1, 2) ∷ [])) (multiplying ((2, 1, pos 5) ∷ [])) (reasons.MultiplierNotFixed 1) }
    ensures not_fixed { AppliesToPotentials (instance_with kinds.Tsp 4
        ((1, 2) ∷ [])) (multiplying ((1, 3, pos 5) ∷ [])) (reasons.MultiplierNotFixed 1) }
    ensures twice { AppliesToPotentials (instance_with kinds.Tsp 4 ((1, 2)
        ∷ [])) (multiplying ((1, 2, pos 5) ∷ (1, 2, pos 5) ∷ [])) (reasons.MultiplierRepeated 2) }
    ensures twice_turned_round { AppliesToPotentials (instance_with kinds.Tsp 4 ((1, 2) ∷ []))
        (multiplying ((1, 2, pos 5) ∷ (2, 1, pos 7) ∷ [])) (reasons.MultiplierRepeated 2) }
    ensures of_an_atsp { ¬ AppliesToPotentials (instance_with kinds.Atsp 4
        ((1, 2) ∷ [])) (multiplying ((1, 3, pos 5) ∷ [])) (reasons.MultiplierNotFixed 1) }
{}

/// The length of an accepted tour of three nodes, with a certificate and without one, and that of
/// two routes from node 2, with their number.
pub fn examples_of_accepted()
    ensures tour { (inst : Fields) (found : ℤ) (bound : Option ℤ)
        → IsTourVerdict inst (lone (three 1 2 3)) (verdicts.Tour found bound)
        → found ≡ cost inst 1 2 +ℤ cost inst 2 3 +ℤ cost inst 3 1 }
    ensures certified { (by : CertificateKind) (inst cert : Fields) (found : ℤ) (bound : Option ℤ)
        → IsCertifiedTourVerdict by inst (lone (three 1 2 3)) cert (verdicts.Tour found bound)
        → found ≡ cost inst 1 2 +ℤ cost inst 2 3 +ℤ cost inst 3 1 }
    ensures routes { (inst : Fields) (found : ℤ) (routes least : ℕ) → depot_of inst ≡ 2
        → IsRoutesVerdict inst (both (two 3 1) (4 ∷ [])) (verdicts.Routes found routes least None)
        → found ≡ cost inst 2 3 +ℤ cost inst 3 1 +ℤ cost inst 1 2 +ℤ cost inst 2 4 +ℤ cost inst 4 2 }
    ensures certified_routes { (by : CertificateKind) (inst cert : Fields) (found : ℤ) (routes least : ℕ)
        (bound : Option ℤ) → depot_of inst ≡ 2
        → IsCertifiedRoutesVerdict by inst (both (two 3 1) (4 ∷ [])) cert (verdicts.Routes found routes least bound)
        → found ≡ cost inst 2 3 +ℤ cost inst 3 1 +ℤ cost inst 1 2 +ℤ cost inst 2 4 +ℤ cost inst 4 2 }
    ensures number { (inst : Fields) (found : ℤ) (routes least : ℕ)
        → IsRoutesVerdict inst (both (two 3 1) (4 ∷ [])) (verdicts.Routes found routes least None)
        → routes ≡ 2 }
    ensures least { (inst : Fields) (found : ℤ) (routes least : ℕ)
        → total_of inst ≡ pos 12 → capacity_of inst ≡ pos 8
        → IsRoutesVerdict inst (both (two 3 1) (4 ∷ [])) (verdicts.Routes found routes least None)
        → least ≡ 2 }
{}

/// When the reasons against routes apply if the depot is node 2.
pub fn examples_of_depots()
    ensures demand { AppliesToRoutes (vehicles (2 ∷ []) (pos 0) (pos 4) (pos 8))
        (solution []) reasons.DepotDemand }
    ensures demand_of_node_1 { ¬ AppliesToRoutes (vehicles (2 ∷ []) (pos 4) (pos 0) (pos 8))
        (solution []) reasons.DepotDemand }
    ensures in_a_route { AppliesToRoutes (vehicles (2 ∷ []) (pos 4) (pos 0) (pos 8))
        (lone (three 1 2 3)) (reasons.DepotInRoute 2) }
    ensures node_1_in_a_route { ¬ AppliesToRoutes
        (vehicles (2 ∷ []) (pos 4) (pos 0) (pos 8)) (lone (three 1 2 3)) (reasons.DepotInRoute 1) }
    ensures unserved { AppliesToRoutes (vehicles (2 ∷ []) (pos 4) (pos 0) (pos 8))
        (lone (two 3 4)) (reasons.Unserved 1) }
{}

/// When the reasons against a CVRP apply, whatever the routes.
pub fn examples_against_routing()
    ensures one_node { AppliesToRouting (instance_with kinds.Cvrp 1 []) reasons.TooFewNodes }
    ensures two_nodes { ¬ AppliesToRouting (instance_with kinds.Cvrp 2 []) reasons.TooFewNodes }
    ensures no_depot { AppliesToRouting (vehicles [] (pos 0) (pos 4) (pos 8)) reasons.DepotCount }
    ensures two_depots { AppliesToRouting (vehicles (two 1 1) (pos 0) (pos 4) (pos 8))
        reasons.DepotCount }
    ensures one_depot { ¬ AppliesToRouting (carrying (pos 8)) reasons.DepotCount }
    ensures demand { AppliesToRouting (vehicles (2 ∷ []) (pos 0) (pos 4) (pos 8))
        reasons.DepotDemand }
    ensures demand_of_node_1 { ¬ AppliesToRouting (vehicles (2 ∷ []) (pos 4) (pos 0) (pos 8))
        reasons.DepotDemand }
    ensures fixed { AppliesToRouting (instance_with kinds.Cvrp 4 ((2, 3) ∷ [])) reasons.FixedEdgesInRoutes }
    ensures not_fixed { ¬ AppliesToRouting (instance_with kinds.Cvrp 4 []) reasons.FixedEdgesInRoutes }
    ensures no_solution { ¬ AppliesToRouting (instance_with kinds.Cvrp 4 []) reasons.NotASolution }
    ensures least { (inst : Fields) (least : ℕ) → total_of inst ≡ pos 12 → capacity_of inst ≡ pos 8
        → IsLeastKnownBy (Some kinds.Cvrp) inst (Some least) → least ≡ 2 }
{}

/// Which of two nodes a reason names first: the smaller one of a pair with two costs, and the row
/// of duals that sum to more than a cost.
pub fn examples_of_pairs()
    ensures of_a_tour { (inst sol : Fields) (i j : ℕ)
        → AppliesToTour inst sol (reasons.NotSymmetric i j) → i < j }
    ensures of_an_instance { (inst : Fields) (i j : ℕ)
        → AppliesToTouring inst (reasons.NotSymmetric i j) → i < j }
    ensures of_duals { (inst : Fields) (i j : ℕ)
        → AppliesToPotentials inst halves_of_rows (reasons.DualInfeasible i j)
        → (pos 2 *ℤ cost inst i j) <ℤ (entry (pos 1 ∷ pos 2 ∷ pos 4 ∷ []) i
        +ℤ entry (pos 0 ∷ pos 1 ∷ pos 1 ∷ []) j) }
{}

/// The bound that a certificate gives: its scale, its numbers and its multipliers count. Duals of
/// 1, 2 and 4 halves by rows, and of 0, 1 and 1 by columns, sum to 9 halves.
pub fn examples_of_bounds()
    ensures nodes { (inst : Fields) (bound : ℤ) → IsBoundByNodes inst halves_of_nodes bound
        → IsAdjustedBound (nodes_of inst) (cost inst) (pos 2) (pos 1 ∷ pos 0 ∷ pos 3 ∷ [])
        ((1, 2, pos 5) ∷ []) [] bound }
    ensures duals { (inst : Fields) (bound : ℤ) → IsBoundByDuals inst halves_of_rows bound
        → bound ≡ pos 5 }
    ensures branches { (inst : Fields) (found : Option ℤ) → HasBoundByBranches inst halves_of_leaf found
        → IsCaseTreeBound (is_directed inst.kind) (nodes_of inst) (cost inst) (pos 2)
        decided_number [] (given_in inst) (case_steps_in inst halves_of_leaf (Leaf [] ∷ [])) found }
{}

/// The unit in which a certificate counts loads: LOAD_UNIT, and 1 without one. Its bound and the
/// reason that there are too many loads are by that unit.
pub fn examples_of_load_units()
    ensures fives { unit_in by_fives ≡ 5 }
    ensures missing { unit_in (branching 4 [] (Leaf [] ∷ [])) ≡ 1 }
    ensures beside_a_scale { unit_in halves_of_leaf ≡ 1 }
    ensures too_many { AppliesToQRoutes (carrying (pos 8)) by_fives reasons.TooManyLoads
        → HasTooManyLoads (routing_of (carrying (pos 8))) 5 }
    ensures bound { (found : Option ℤ) → HasBoundByQRoutes (carrying (pos 8)) by_fives found
        → IsBoundFound (routing_of (carrying (pos 8))) (pos 1) 5 [] (Leaf [] ∷ []) found }
{}

/// Whether a certificate for routes has its leaves bounded by runs: if it has a memory or a row.
pub fn examples_of_runs()
    ensures neither { by_runs_in (branching 4 [] (Leaf [] ∷ [])) ≡ false }
    ensures empty { by_runs_in (remembering [] []) ≡ false }
    ensures memory { by_runs_in (remembering ((3 ∷ 2 ∷ []) ∷ []) []) ≡ true }
    ensures row { by_runs_in (remembering [] (pair_row ∷ [])) ≡ true }
{}

/// The first of two customers that no route serves, and the first of two bad leaves.
pub fn examples_of_first_reasons()
    ensures unserved { AppliesToRoutes (carrying (pos 8)) (lone (2 ∷ [])) (reasons.Unserved 3) }
    ensures unserved_later { ¬ AppliesToRoutes
        (carrying (pos 8)) (lone (2 ∷ [])) (reasons.Unserved 4) }
    ensures leaf { AppliesToBranches (instance_with kinds.Tsp 4 []) (branching 4 [] bad_leaves) (reasons.BadLeaf 1) }
    ensures leaf_later { ¬ AppliesToBranches
        (instance_with kinds.Tsp 4 []) (branching 4 [] bad_leaves) (reasons.BadLeaf 2) }
{}
