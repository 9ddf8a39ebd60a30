//! Laws that state values of the definitions in `specs/`, worked out by hand: cycles, trees, duals
//! and multipliers on a few nodes. For each definition of a bound in `specs/Bounds.antt`, some law
//! fails if the definition is wrong. No code calls them.

ghost use Rattle.std.specs.Prelude.{◌≡◌, [], ◌∷◌, pos, negsuc};
ghost use Rattle.tsp_theory.specs.Bounds.{adjusted, UsesEach, UsesNone, IsAdjustedBoundOf, AreGood, IsFirstBroken, IsDualBound, entry, total, IsLeastBound, weight_between, IsNodeBound};
ghost use Rattle.tsp_theory.specs.Tour.{IsCycle, links};
ghost use Rattle.tsp_theory.specs.Examples.{two, three, four, HasDirectedLength, rectangle, star, star_below_zero, directed, with_loops, three_zeros, three_numbers, four_numbers, zeros, one_on_two, pairs_of, on_diagonals};
ghost use Rattle.tsp_theory.specs.Forest.{IsWholeForest};
ghost use Rattle.tsp_theory.specs.Tree.{tree_of, IsOneTree, weight_of, IsLeastOneTree};

/// What a cycle is, what comes next on it, and how long some lists of nodes are.
pub fn examples_of_cycles()
    ensures links { links (three 1 3 2) ≡ (1, 3) ∷ (3, 2) ∷ (2, 1) ∷ [] }
    ensures one_node { links (1 ∷ []) ≡ (1, 1) ∷ [] }
    ensures onward { HasDirectedLength (three 1 2 3) (pos 6) }
    ensures backward { HasDirectedLength (three 1 3 2) (pos 30) }
    ensures from_another_node { HasDirectedLength (three 2 3 1) (pos 6) }
    ensures there_and_back { HasDirectedLength (two 1 2) (pos 11) }
    ensures cycle { IsCycle 3 (three 1 3 2) }
    ensures too_short { ¬ IsCycle 3 (two 1 2) }
    ensures too_long { ¬ IsCycle 3 (four 1 2 3 1) }
    ensures twice { ¬ IsCycle 3 (three 1 2 2) }
    ensures past_the_last { ¬ IsCycle 3 (three 1 2 4) }
    ensures before_the_first { ¬ IsCycle 3 (three 0 1 2) }
{}

/// The numbers of nodes, their sums, and the least whole number that, times the scale, is no less.
pub fn examples_of_numbers()
    ensures first { entry (three_numbers (pos 10) (pos 20) (pos 30)) 1 ≡ pos 10 }
    ensures last { entry (three_numbers (pos 10) (pos 20) (pos 30)) 3 ≡ pos 30 }
    ensures sum { total (three_numbers (pos 10) (negsuc 4) (pos 30)) ≡ pos 35 }
    ensures above_a_half { IsLeastBound (pos 2) (pos 7) (pos 4) }
    ensures below_zero { IsLeastBound (pos 2) (negsuc 6) (negsuc 2) }
    ensures whole { IsLeastBound (pos 2) (pos 4) (pos 2) }
    ensures not_below { ¬ IsLeastBound (pos 2) (pos 7) (pos 3) }
    ensures not_above { ¬ IsLeastBound (pos 2) (pos 4) (pos 3) }
{}

/// Which duals are good for three nodes whose costs depend on the direction, the first pair that
/// others violate, and the bounds that duals give.
pub fn examples_of_duals()
    ensures good { AreGood 3 directed (pos 1) (three_numbers (pos 1) (pos 2) (pos 3)) three_zeros }
    ensures columns { AreGood 3 directed
        (pos 1) three_zeros (three_numbers (pos 3) (pos 1) (pos 2)) }
    ensures halves { AreGood 3 directed
        (pos 2) (three_numbers (pos 2) (pos 4) (pos 5)) three_zeros }
    ensures no_loops { AreGood 2 with_loops (pos 1) three_zeros three_zeros }
    ensures broken_in_row_1 { IsFirstBroken 3 directed
        (pos 1) (three_numbers (pos 2) (pos 3) (pos 3)) three_zeros 1 2 }
    ensures broken_in_row_3 { IsFirstBroken 3 directed
        (pos 1) three_zeros (three_numbers (pos 4) (pos 1) (pos 2)) 3 1 }
    ensures bound { IsDualBound (pos 1)
        (three_numbers (pos 1) (pos 2) (pos 3)) three_zeros (pos 6) }
    ensures bound_of_columns { IsDualBound (pos 1) three_zeros
        (three_numbers (pos 3) (pos 1) (pos 2)) (pos 6) }
    ensures bound_of_halves { IsDualBound (pos 2)
        (three_numbers (pos 2) (pos 4) (pos 5)) three_zeros (pos 6) }
    ensures bound_below_zero { IsDualBound (pos 2)
        (three_numbers (negsuc 2) (pos 0) (pos 0)) three_zeros (negsuc 0) }
{}

/// Which lists are 1-trees of four nodes, what they weigh, which is the least, and the bounds that
/// potentials give.
pub fn examples_of_trees()
    ensures tree { IsOneTree 4 (pairs_of 2 4 (2, 3) (3, 4)) }
    ensures one_node_left_out { ¬ IsOneTree 4 (pairs_of 2 4 (2, 3) (2, 3)) }
    ensures three_at_node_1 { ¬ IsOneTree 4 (pairs_of 2 4 (1, 3) (3, 4)) }
    ensures same_twice_at_node_1 { ¬ IsOneTree 4 (pairs_of 2 2 (2, 3) (3, 4)) }
    ensures weight { weight_of rectangle (pairs_of 2 4 (2, 3) (3, 4)) ≡ pos 14 }
    ensures least { IsLeastOneTree 4 rectangle (pairs_of 2 4 (2, 3) (3, 4)) }
    ensures both_potentials { weight_between (pos 2)
        (four_numbers (pos 0) (pos 10) (pos 100) (pos 0)) star 2 3 ≡ pos 112 }
    ensures rectangle_at_zero { IsNodeBound 4 rectangle (pos 1) zeros (pos 14) }
    ensures star_at_zero { IsNodeBound 4 star (pos 1) zeros (pos 5) }
    ensures star_at_ones { IsNodeBound 4 star
        (pos 1) (four_numbers (pos 1) (pos 1) (pos 1) (pos 1)) (pos 5) }
    ensures star_at_a_half { IsNodeBound 4 star (pos 2) one_on_two (pos 6) }
    ensures below_zero { IsNodeBound 4 star_below_zero (pos 2) zeros (negsuc 34) }
    ensures below_zero_at_a_half { IsNodeBound 4 star_below_zero (pos 2) one_on_two (negsuc 33) }
{}

/// The least joins of the nodes 2 to 4 of the rectangle, whatever part each of them leaves.
pub fn examples_of_forests()
    ensures from_both_ends { IsWholeForest 4 rectangle ((4, 3) ∷ (2, 3) ∷ []) }
    ensures least { IsLeastOneTree 4 rectangle (tree_of 2 4 ((4, 3) ∷ (2, 3) ∷ [])) }
    ensures heavier { ¬ IsWholeForest 4 rectangle ((2, 4) ∷ (4, 3) ∷ []) }
    ensures same_twice { ¬ IsWholeForest 4 rectangle ((4, 3) ∷ (3, 4) ∷ []) }
    ensures from_node_1 { ¬ IsWholeForest 4 rectangle ((1, 2) ∷ (4, 3) ∷ []) }
    ensures to_node_1 { ¬ IsWholeForest 4 rectangle ((2, 1) ∷ (4, 3) ∷ []) }
    ensures one_missing { ¬ IsWholeForest 4 rectangle ((4, 3) ∷ []) }
{}

/// Weights with numbers on the diagonals of the rectangle, which cycles use them, and the bound.
pub fn examples_of_multipliers()
    ensures taken { adjusted (on_diagonals (pos 2) (pos 1)) [] rectangle 1 3 ≡ pos 3 }
    ensures taken_in_reverse { adjusted (on_diagonals (pos 2) (pos 1)) [] rectangle 2 4 ≡ pos 4 }
    ensures avoided { adjusted [] (on_diagonals (pos 2) (pos 1)) rectangle 3 1 ≡ pos 7 }
    ensures elsewhere { adjusted (on_diagonals (pos 2) (pos 1))
        (on_diagonals (pos 7) (pos 7)) rectangle 1 4 ≡ pos 4 }
    ensures used { UsesEach (on_diagonals (pos 2) (pos 1)) (1 ∷ 3 ∷ 2 ∷ 4 ∷ []) }
    ensures not_used { ¬ UsesEach (on_diagonals (pos 2) (pos 1)) (1 ∷ 2 ∷ 3 ∷ 4 ∷ []) }
    ensures none_used { UsesNone (on_diagonals (pos 2) (pos 1)) (1 ∷ 2 ∷ 3 ∷ 4 ∷ []) }
    ensures given_back { IsAdjustedBoundOf (pos 2) one_on_two
        (on_diagonals (pos 2) (pos 1)) (pos 10) (pos 6) }
{}
