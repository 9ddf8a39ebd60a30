//! Laws that state values of the definitions in `specs/`, worked out by hand from docs/format.md:
//! which values are valid, the first fault, costs, layouts, canonical lines. No code calls them. If
//! someone makes the same mistake in a definition and in the code, every contract still holds, but
//! one of these laws fails.

ghost use Rattle.tsp_file.specs.Prelude.{true, false, [], None, Some, pos, negsuc, codes, replicate, map, length, List, ℕ, list_all, sum_by, SubsetRow, row_size, Step, are_whole, branch_count, change_count, fields_in_order, decimal, euc_2d_of, ceil_2d_of, man_2d_of, max_2d_of, att_of, euc_3d_of, man_3d_of, max_3d_of, Point, most_coordinate};
ghost use Rattle.std.specs.List.{filter};
ghost use Rattle.std.specs.Prelude.{◌≡◌, ◌+◌, ◌-◌, ◌*◌, ◌^◌, ◌∷◌, ◌++◌};
ghost use Rattle.tsp_format.specs.declared.keyword.Field.TheVariants as fields;
ghost use Rattle.tsp_format.specs.declared.kinds.WeightKind.TheVariants as weight_kinds;
ghost use Rattle.tsp_format.specs.declared.layout.Layout.TheVariants as layouts;
ghost use Rattle.tsp_file.specs.CanonicalText.{text_of, text_of_field};
ghost use Rattle.tsp_file.specs.Cost.{cost, distance, load_unit_in, scale_in};
ghost use Rattle.tsp_file.specs.Examples.{directed_matrix, plane, no_nodes, one_weight, bare_routes, routing_nodes, routing_listed, routing_full, routing_capacity, routing_weights, routing_demands, routing_depots, routing_plane, bare_tours, touring_weights, touring_whole, touring_function, touring_surplus, bare_potentials, with_node_numbers, with_column_numbers, with_row_numbers, with_both_numbers, with_all_numbers, with_both_and_pairs, with_all_and_weights, bare_tree, CostIs, LaysOutAs, six, IsSmallText, small, small_text, spatial_node, row, two_tours, three_weights, lone_fields, standing_in, without_families, without_memory};
ghost use Rattle.tsp_file.specs.Rules.{end_fault_text, draft_fault_text, fault_of, end_fault, standing_of};
ghost use Rattle.tsp_file.specs.Fields.{blank_fields, stands_in};
ghost use Rattle.tsp_file.specs.Relayout.{lists_diagonal, IsFirstOnDiagonal, IsRefused, relayout_fault_text};
ghost use Rattle.tsp_file.specs.Validity.{is_kept, are_comments, are_others, is_within, is_third, is_demand, is_node, is_pair_of, fit_matrix, are_depots, are_fixed, is_triple_of, are_triples, are_tours, are_family_lists, is_node_list, is_set_of, are_sets, are_memory_lists, is_row_of, are_subset_rows, is_branch_of, is_change, is_step, are_tree_steps};
ghost use Rattle.tsp_file.specs.declared.relayout.RelayoutFault.TheVariants as faults;
ghost use Rattle.tsp_file.specs.declared.rules.DraftFault.TheVariants as drafts;
ghost use Rattle.tsp_file.specs.declared.rules.EndFault.TheVariants as ends;

/// Values at their limits, and past them by one.
pub fn examples_of_validity()
    ensures longest_name { is_kept (codes "NAME") (replicate 3996 120) ≡ true }
    ensures longer_name { is_kept (codes "NAME") (replicate 3997 120) ≡ false }
    ensures empty_name { is_kept (codes "NAME") [] ≡ true }
    ensures blank_first { is_kept (codes "NAME") (codes " x") ≡ false }
    ensures blank_last { is_kept (codes "NAME") (codes "x ") ≡ false }
    ensures blank_inside { is_kept (codes "NAME") (codes "x y") ≡ true }
    ensures line_end_inside { is_kept (codes "NAME") (codes "x\ny") ≡ false }
    ensures most_comments { are_comments (replicate 1000 (codes "x")) ≡ true }
    ensures more_comments { are_comments (replicate 1001 (codes "x")) ≡ false }
    ensures most_others { are_others (replicate 1000 (codes "FOO", codes "x")) ≡ true }
    ensures more_others { are_others (replicate 1001 (codes "FOO", codes "x")) ≡ false }
    ensures known_keyword { are_others ((codes "NAME", codes "x") ∷ []) ≡ false }
    ensures largest_coordinate { is_within most_coordinate (pos (10 ^ 18)) ≡ true }
    ensures larger_coordinate { is_within most_coordinate (pos (10 ^ 18 + 1)) ≡ false }
    ensures smallest_coordinate { is_within most_coordinate (negsuc (10 ^ 18 - 1)) ≡ true }
    ensures smaller_coordinate { is_within most_coordinate (negsuc (10 ^ 18)) ≡ false }
    ensures third_in_space { is_third true (pos 1) ≡ true }
    ensures third_in_the_plane { is_third false (pos 1) ≡ false }
    ensures none_in_the_plane { is_third false (pos 0) ≡ true }
    ensures largest_demand { is_demand (pos (10 ^ 9)) ≡ true }
    ensures larger_demand { is_demand (pos (10 ^ 9 + 1)) ≡ false }
    ensures demand_below_zero { is_demand (negsuc 0) ≡ false }
    ensures most_nodes_of_a_matrix { fit_matrix 5000 [] ≡ true }
    ensures more_nodes_of_a_matrix { fit_matrix 5001 [] ≡ false }
    ensures largest_weights { fit_matrix 3 (pos (10 ^ 12) ∷ negsuc (10 ^ 12 - 1) ∷ []) ≡ true }
    ensures larger_weight { fit_matrix 3 (pos (10 ^ 12 + 1) ∷ []) ≡ false }
    ensures smaller_weight { fit_matrix 3 (negsuc (10 ^ 12) ∷ []) ≡ false }
    ensures most_depots { are_depots 3 (replicate 100000 2) ≡ true }
    ensures more_depots { are_depots 3 (replicate 100001 2) ≡ false }
    ensures most_pairs { are_fixed 3 (replicate 100000 (1, 2)) ≡ true }
    ensures more_pairs { are_fixed 3 (replicate 100001 (1, 2)) ≡ false }
    ensures most_triples { are_triples 3 (replicate 100000 (1, 2, pos 5)) ≡ true }
    ensures more_triples { are_triples 3 (replicate 100001 (1, 2, pos 5)) ≡ false }
    ensures largest_multiplier { is_triple_of 3 (1, 2, pos (10 ^ 15)) ≡ true }
    ensures larger_multiplier { is_triple_of 3 (1, 2, pos (10 ^ 15 + 1)) ≡ false }
    ensures largest_difference { is_change 3 (20003, pos (2 * 10 ^ 15)) ≡ true }
    ensures larger_difference { is_change 3 (20003, pos (2 * 10 ^ 15 + 1)) ≡ false }
    ensures past_the_indices { is_change 3 (20004, pos 1) ≡ false }
    ensures branch_on_the_last_family { is_branch_of 3 (10003, 1) ≡ true }
    ensures branch_on_a_row { is_branch_of 3 (10004, 1) ≡ false }
    ensures last_node { is_node 3 3 ≡ true }
    ensures past_the_nodes { is_node 3 4 ≡ false }
    ensures node_zero { is_node 3 0 ≡ false }
    ensures node_with_itself { is_pair_of 3 (2, 2) ≡ false }
    ensures tour_of_one { is_node_list (1 ∷ []) ≡ true }
    ensures empty_tour { is_node_list [] ≡ false }
    ensures set_of_one { is_set_of 3 (3 ∷ []) ≡ true }
    ensures empty_set { is_set_of 3 [] ≡ false }
    ensures family_of_a_set { are_sets 3 ((3 ∷ []) ∷ []) ≡ true }
    ensures empty_family { are_sets 3 [] ≡ false }
    ensures memory_of_one { are_memory_lists 3 ((3 ∷ []) ∷ []) ≡ true }
    ensures empty_list { are_memory_lists 3 ([] ∷ []) ≡ false }
    ensures list_past_the_nodes { are_memory_lists 3 ((3 ∷ 4 ∷ []) ∷ []) ≡ false }
    ensures row_of_a_set { is_row_of 3 (row (3 ∷ []) []) ≡ true }
    ensures row_without_a_set { is_row_of 3 (row [] (3 ∷ [])) ≡ false }
    ensures further_past_the_nodes { is_row_of 3 (row (3 ∷ []) (4 ∷ [])) ≡ false }
    ensures most_rows { are_subset_rows 3 (replicate 10000 (row (3 ∷ []) [])) ≡ true }
    ensures more_rows { are_subset_rows 3 (replicate 10001 (row (3 ∷ []) [])) ≡ false }
{}

/// The first faults of small files.
#[tactic(auto, unfolding(tsp_format::specs::Nodes::cells, tsp_format::specs::Nodes::nodes_to))]
pub fn examples_of_faults()
    ensures valid { fault_of directed_matrix ≡ None }
    ensures nothing { fault_of blank_fields ≡ Some (drafts.Rule (ends.Missing fields.TypeKey)) }
    ensures no_points { fault_of plane ≡ Some (drafts.Rule (ends.Missing fields.NodeCoordPart)) }
    ensures no_nodes { fault_of no_nodes ≡ Some (drafts.BadField fields.DimensionKey) }
    ensures one_weight { fault_of one_weight ≡ Some (drafts.Rule ends.WrongCount) }
{}

/// The end table: each row, on a file to which the next one applies, too.
#[tactic(auto, unfolding(tsp_format::specs::Nodes::cells, tsp_format::specs::Nodes::nodes_to))]
pub fn examples_of_the_end_table()
    ensures dimension { end_fault (standing_of bare_routes) None
        ≡ Some (ends.Missing fields.DimensionKey) }
    ensures weight_type { end_fault (standing_of routing_nodes) None
        ≡ Some (ends.Missing fields.EdgeWeightTypeKey) }
    ensures weight_format { end_fault (standing_of routing_listed) None
        ≡ Some (ends.Missing fields.EdgeWeightFormatKey) }
    ensures capacity { end_fault (standing_of routing_full) None
        ≡ Some (ends.Missing fields.CapacityKey) }
    ensures weights { end_fault (standing_of routing_capacity) None
        ≡ Some (ends.Missing fields.EdgeWeightPart) }
    ensures points { end_fault (standing_of routing_plane) None
        ≡ Some (ends.Missing fields.NodeCoordPart) }
    ensures demands { end_fault (standing_of routing_weights) None
        ≡ Some (ends.Missing fields.DemandPart) }
    ensures depots { end_fault (standing_of routing_demands) None
        ≡ Some (ends.Missing fields.DepotPart) }
    ensures routes { end_fault (standing_of routing_depots) None ≡ None }
    ensures tours { end_fault (standing_of bare_tours) None ≡ Some (ends.Missing fields.TourPart) }
    ensures format_before_tours { end_fault (standing_of touring_weights) None
        ≡ Some (ends.Missing fields.EdgeWeightFormatKey) }
    ensures tours_without_nodes { end_fault (standing_of touring_whole) None ≡ None }
    ensures node_numbers { end_fault (standing_of bare_potentials) None
        ≡ Some (ends.Missing fields.NodePotentialPart) }
    ensures rows { end_fault (standing_of with_column_numbers) None
        ≡ Some (ends.Missing fields.RowPotentialPart) }
    ensures columns { end_fault (standing_of with_row_numbers) None
        ≡ Some (ends.Missing fields.ColumnPotentialPart) }
    ensures numbers { end_fault (standing_of with_node_numbers) None ≡ None }
    ensures duals { end_fault (standing_of with_both_numbers) None ≡ None }
    ensures both_sorts { end_fault (standing_of with_all_numbers) None ≡ Some ends.WrongFormat }
    ensures multipliers_with_duals { end_fault (standing_of with_both_and_pairs) None
        ≡ Some ends.WrongFormat }
    ensures steps { end_fault (standing_of bare_tree) None ≡ Some (ends.Missing fields.BranchPart) }
    ensures function { end_fault (standing_of touring_function) None ≡ Some ends.WrongFormat }
    ensures count { end_fault (standing_of touring_surplus) None ≡ Some ends.WrongCount }
    ensures format_before_count { end_fault (standing_of with_all_and_weights) None
        ≡ Some ends.WrongFormat }
    ensures missing_before_incomplete { end_fault (standing_of bare_tours)
        (Some fields.EdgeWeightPart) ≡ Some (ends.Missing fields.TourPart) }
    ensures incomplete_before_format { end_fault (standing_of with_all_numbers)
        (Some fields.FamilyPart) ≡ Some (ends.Incomplete fields.FamilyPart) }
    ensures incomplete_before_count { end_fault (standing_of touring_surplus)
        (Some fields.EdgeWeightPart) ≡ Some (ends.Incomplete fields.EdgeWeightPart) }
{}

/// The most families of a file, the most nodes of its tours, families, memories or rows in all, and
/// the most branches and changes of its tree.
pub fn examples_of_limits()
    ensures most_families { are_family_lists 3 (replicate 10000 ((1 ∷ []) ∷ [])) ≡ true }
    ensures more_families { are_family_lists 3 (replicate 10001 ((1 ∷ []) ∷ [])) ≡ false }
    ensures most_nodes_of_tours { (tours : List (List ℕ)) → list_all is_node_list tours ≡ true
        → sum_by length tours ≡ 1000000 → are_tours tours ≡ true }
    ensures more_nodes_of_tours { (tours : List (List ℕ)) → list_all is_node_list tours ≡ true
        → sum_by length tours ≡ 1000001 → are_tours tours ≡ false }
    ensures most_nodes_of_memories { (lists : List (List ℕ)) → list_all (is_set_of 3) lists ≡ true
        → sum_by length lists ≡ 1000000 → are_memory_lists 3 lists ≡ true }
    ensures more_nodes_of_memories { (lists : List (List ℕ)) → list_all (is_set_of 3) lists ≡ true
        → sum_by length lists ≡ 1000001 → are_memory_lists 3 lists ≡ false }
    ensures more_nodes_of_families { (families : List (List (List ℕ))) → length families ≡ 1
        → list_all (are_sets 3) families ≡ true → sum_by (sum_by length) families ≡ 1000001
        → are_family_lists 3 families ≡ false }
    ensures more_nodes_of_rows { (rows : List SubsetRow) → length rows ≡ 1
        → list_all (is_row_of 3) rows ≡ true → sum_by row_size rows ≡ 1000001
        → are_subset_rows 3 rows ≡ false }
    ensures more_branches { (steps : List Step) → list_all (is_step 3) steps ≡ true
        → branch_count steps ≡ 1000001 → are_tree_steps 3 steps ≡ false }
    ensures most_branches { (steps : List Step) → list_all (is_step 3) steps ≡ true
        → branch_count steps ≡ 1000000 → change_count steps ≡ 10000000 → are_whole 1 steps ≡ true
        → are_tree_steps 3 steps ≡ true }
    ensures more_changes { (steps : List Step) → list_all (is_step 3) steps ≡ true
        → branch_count steps ≡ 1 → change_count steps ≡ 10000001 → are_tree_steps 3 steps ≡ false }
{}

/// Which fields a file has. Those of comments and of unknown keywords are always there.
pub fn examples_of_standing()
    ensures none { filter (stands_in blank_fields) fields_in_order
        ≡ fields.CommentKey ∷ fields.OtherKey ∷ [] }
    ensures each_alone { map standing_in lone_fields ≡ map (λ field. field ∷ []) (fields.NameKey
        ∷ fields.TypeKey ∷ fields.DimensionKey ∷ fields.CapacityKey ∷ fields.ScaleKey
        ∷ fields.LoadUnitKey ∷ fields.EdgeWeightTypeKey ∷ fields.EdgeWeightFormatKey
        ∷ fields.NodeCoordTypeKey ∷ fields.DisplayDataTypeKey ∷ fields.NodeCoordPart
        ∷ fields.DisplayDataPart ∷ fields.DemandPart ∷ fields.DepotPart ∷ fields.FixedEdgesPart
        ∷ fields.EdgeWeightPart ∷ fields.TourPart ∷ fields.NodePotentialPart
        ∷ fields.RowPotentialPart ∷ fields.ColumnPotentialPart ∷ fields.FixedEdgePotentialPart
        ∷ fields.FamilyPart ∷ fields.MemoryPart ∷ fields.SubsetRowPart ∷ fields.BranchPart ∷ []) }
{}

/// The scale and the load unit of a file with these keywords, and of a file without them.
pub fn examples_of_units()
    ensures scale { scale_in small ≡ pos 3 }
    ensures no_scale { scale_in blank_fields ≡ pos 1 }
    ensures load_unit { load_unit_in small ≡ pos 5 }
    ensures beside_a_scale { load_unit_in (record blank_fields { scale = Some (pos 3) }) ≡ pos 1 }
{}

/// The text of each fault.
pub fn examples_of_draft_fault_texts()
    ensures missing { end_fault_text (ends.Missing fields.TypeKey) ≡ codes "Missing TYPE" }
    ensures incomplete { end_fault_text (ends.Incomplete fields.TourPart)
        ≡ codes "Incomplete TOUR_SECTION" }
    ensures wrong_format { end_fault_text ends.WrongFormat ≡ codes "WrongFormat" }
    ensures wrong_count { end_fault_text ends.WrongCount ≡ codes "WrongCount" }
    ensures bad_field { draft_fault_text (drafts.BadField fields.NameKey) ≡ codes "BadField NAME" }
    ensures rule { draft_fault_text (drafts.Rule ends.WrongCount) ≡ codes "WrongCount" }
{}

/// The costs of two nodes under the layouts, and which layouts list the diagonal.
#[tactic(auto, unfolding(crate::specs::Cost::listed_cost, tsp_format::specs::Place::place_of, tsp_format::specs::Nodes::cells, tsp_format::specs::Nodes::nodes_to))]
pub fn examples_of_costs()
    ensures upper_row { CostIs layouts.UpperRow 1 4 (pos 3) }
    ensures lower_row { CostIs layouts.LowerRow 1 4 (pos 4) }
    ensures upper_col { CostIs layouts.UpperCol 1 4 (pos 4) }
    ensures lower_col { CostIs layouts.LowerCol 1 4 (pos 3) }
    ensures other_half { CostIs layouts.UpperRow 4 1 (pos 3) }
    ensures itself { CostIs layouts.UpperRow 2 2 (pos 0) }
    ensures diagonal_of_rows { CostIs layouts.LowerDiagRow 2 2 (pos 3) }
    ensures diagonal_of_columns { CostIs layouts.LowerDiagCol 2 2 (pos 5) }
    ensures full { lists_diagonal layouts.FullMatrix ≡ true }
    ensures with_diagonal { lists_diagonal layouts.UpperDiagCol ≡ true }
    ensures without { lists_diagonal layouts.UpperCol ≡ false }
{}

/// The weights in another layout.
#[tactic(auto, unfolding(crate::specs::Cost::listed_cost, tsp_format::specs::Place::place_of, tsp_format::specs::Nodes::cells, tsp_format::specs::Nodes::nodes_to))]
pub fn examples_of_relayouts()
    ensures the_same { LaysOutAs layouts.UpperDiagRow layouts.UpperDiagRow
        (six (pos 1) (pos 2) (pos 3) (pos 4) (pos 5) (pos 6)) }
    ensures diagonal { LaysOutAs layouts.UpperDiagRow layouts.LowerDiagRow
        (six (pos 1) (pos 2) (pos 4) (pos 3) (pos 5) (pos 6)) }
    ensures by_columns { LaysOutAs layouts.UpperDiagRow layouts.UpperDiagCol
        (six (pos 1) (pos 2) (pos 4) (pos 3) (pos 5) (pos 6)) }
    ensures without_diagonal { LaysOutAs layouts.UpperDiagRow layouts.LowerCol
        (pos 2 ∷ pos 3 ∷ pos 5 ∷ []) }
    ensures zeros { LaysOutAs layouts.UpperRow layouts.LowerDiagRow
        (six (pos 0) (pos 1) (pos 0) (pos 2) (pos 3) (pos 0)) }
{}

/// Why weights aren't put into another layout.
#[tactic(auto, unfolding(crate::specs::Cost::cost, crate::specs::Cost::listed_cost, tsp_format::specs::Place::place_of, tsp_format::specs::Nodes::cells, tsp_format::specs::Nodes::nodes_to))]
pub fn examples_of_lost_costs()
    ensures uneven { IsRefused directed_matrix layouts.UpperRow (faults.NotSymmetric 1 2) }
    ensures not_listed { IsRefused plane layouts.UpperRow faults.NotExplicit }
    ensures diagonal { IsFirstOnDiagonal 3 (cost directed_matrix) 1 }
    ensures onward { cost directed_matrix 2 3 ≡ pos 2 }
    ensures backward { cost directed_matrix 3 2 ≡ pos 10 }
    ensures itself { cost directed_matrix 2 2 ≡ pos 9999 }
{}

/// Which distance each weight type means.
#[tactic(auto, unfolding(crate::specs::Cost::distance))]
pub fn examples_of_distances_by_type()
    ensures euc { (a b : Point) → distance weight_kinds.Euc2d a b ≡ pos (euc_2d_of a b) }
    ensures ceil { (a b : Point) → distance weight_kinds.Ceil2d a b ≡ pos (ceil_2d_of a b) }
    ensures man { (a b : Point) → distance weight_kinds.Man2d a b ≡ pos (man_2d_of a b) }
    ensures max { (a b : Point) → distance weight_kinds.Max2d a b ≡ pos (max_2d_of a b) }
    ensures att { (a b : Point) → distance weight_kinds.Att a b ≡ pos (att_of a b) }
    ensures euc_in_space { (a b : Point) → distance weight_kinds.Euc3d a b ≡ pos (euc_3d_of a b) }
    ensures man_in_space { (a b : Point) → distance weight_kinds.Man3d a b ≡ pos (man_3d_of a b) }
    ensures max_in_space { (a b : Point) → distance weight_kinds.Max3d a b ≡ pos (max_3d_of a b) }
    ensures explicit { (a b : Point) → distance weight_kinds.Explicit a b ≡ pos 0 }
{}

/// The canonical text of each keyword, on small files.
pub fn examples_of_lines()
    ensures name { IsSmallText fields.NameKey (codes "NAME : x y\n") }
    ensures kind { IsSmallText fields.TypeKey (codes "TYPE : TSP\n") }
    ensures comments { IsSmallText fields.CommentKey (codes "COMMENT : a\nCOMMENT :\n") }
    ensures others { IsSmallText fields.OtherKey (codes "FOO : BAR\n") }
    ensures dimension { IsSmallText fields.DimensionKey (codes "DIMENSION : 2\n") }
    ensures capacity { IsSmallText fields.CapacityKey (codes "CAPACITY : 8\n") }
    ensures scale { IsSmallText fields.ScaleKey (codes "SCALE : 3\n") }
    ensures load_unit { IsSmallText fields.LoadUnitKey (codes "LOAD_UNIT : 5\n") }
    ensures weight_type { IsSmallText fields.EdgeWeightTypeKey
        (codes "EDGE_WEIGHT_TYPE : EXPLICIT\n") }
    ensures weight_format { IsSmallText fields.EdgeWeightFormatKey
        (codes "EDGE_WEIGHT_FORMAT : LOWER_DIAG_ROW\n") }
    ensures coord_type { IsSmallText fields.NodeCoordTypeKey
        (codes "NODE_COORD_TYPE : TWOD_COORDS\n") }
    ensures display_type { IsSmallText fields.DisplayDataTypeKey
        (codes "DISPLAY_DATA_TYPE : TWOD_DISPLAY\n") }
    ensures missing { text_of_field blank_fields fields.NameKey ≡ [] }
{}

/// The canonical text of each section, on small files.
pub fn examples_of_sections()
    ensures coords { IsSmallText fields.NodeCoordPart
        (codes "NODE_COORD_SECTION\n1 1.5 0\n2 -0.000000001 4\n") }
    ensures display { IsSmallText fields.DisplayDataPart
        (codes "DISPLAY_DATA_SECTION\n1 0 0\n2 0 1\n") }
    ensures demands { IsSmallText fields.DemandPart (codes "DEMAND_SECTION\n1 0\n2 5\n") }
    ensures depots { IsSmallText fields.DepotPart (codes "DEPOT_SECTION\n1\n-1\n") }
    ensures fixed { IsSmallText fields.FixedEdgesPart (codes "FIXED_EDGES_SECTION\n1 2\n-1\n") }
    ensures weights { IsSmallText fields.EdgeWeightPart (codes "EDGE_WEIGHT_SECTION\n0\n-7 9\n") }
    ensures no_line_without_weights { text_of_field three_weights fields.EdgeWeightPart
        ≡ codes "EDGE_WEIGHT_SECTION\n1 2\n3\n" }
    ensures tours { IsSmallText fields.TourPart (codes "TOUR_SECTION\n2\n1\n-1\n1\n-1\n") }
    ensures node_potentials { IsSmallText fields.NodePotentialPart
        (codes "NODE_POTENTIAL_SECTION\n1 0\n2 -2\n") }
    ensures row_potentials { IsSmallText fields.RowPotentialPart
        (codes "ROW_POTENTIAL_SECTION\n1 1\n2 2\n") }
    ensures column_potentials { IsSmallText fields.ColumnPotentialPart
        (codes "COLUMN_POTENTIAL_SECTION\n1 3\n2 4\n") }
    ensures fixed_potentials { IsSmallText fields.FixedEdgePotentialPart
        (codes "FIXED_EDGE_POTENTIAL_SECTION\n1 2 7\n-1\n") }
    ensures families { IsSmallText fields.FamilyPart
        (codes "COMB_SECTION\n1 2 3 -1\n1 4 -1\n-1\n2 -1\n-1\n-1\n") }
    ensures memories { IsSmallText fields.MemoryPart
        (codes "MEMORY_SECTION\n3 4 5 -1\n2 -1\n-1\n") }
    ensures subset_rows { IsSmallText fields.SubsetRowPart
        (codes "SUBSET_ROW_SECTION\n2 3 -1\n-1\n4 -1\n2 5 -1\n-1\n") }
    ensures branches { IsSmallText fields.BranchPart
        (codes "BRANCH_SECTION\n1 2\n0 2 1 7 -3 -1\n0 -1\n") }
    ensures no_families { text_of_field without_families fields.FamilyPart ≡ codes "COMB_SECTION\n-1\n" }
    ensures no_memories { text_of_field without_memory fields.MemoryPart ≡ codes "MEMORY_SECTION\n-1\n" }
    ensures no_rows { text_of_field without_memory fields.SubsetRowPart
        ≡ codes "SUBSET_ROW_SECTION\n-1\n" }
    ensures in_space { text_of_field spatial_node fields.NodeCoordPart
        ≡ codes "NODE_COORD_SECTION\n1 1.5 0 -2\n" }
    ensures shown { text_of_field spatial_node fields.DisplayDataPart
        ≡ codes "DISPLAY_DATA_SECTION\n1 0 1\n" }
    ensures missing { text_of_field blank_fields fields.TourPart ≡ [] }
    ensures whole { text_of two_tours
        ≡ codes "TYPE : TOUR\nDIMENSION : 2\nTOUR_SECTION\n2\n1\n-1\n1\n-1\nEOF\n" }
    ensures all_fields { text_of small ≡ small_text }
    ensures nothing { text_of blank_fields ≡ codes "EOF\n" }
{}

/// The text of each fault of weights that are put into another layout. Digits are as `decimal`
/// writes them.
pub fn examples_of_fault_texts()
    ensures not_explicit { relayout_fault_text faults.NotExplicit ≡ codes "NotExplicit" }
    ensures not_symmetric { relayout_fault_text (faults.NotSymmetric 1 2)
        ≡ codes "NotSymmetric " ++ (decimal 1 ++ (codes " " ++ decimal 2)) }
    ensures diagonal_lost { relayout_fault_text (faults.DiagonalLost 3)
        ≡ codes "DiagonalLost " ++ decimal 3 }
    ensures out_of_memory { relayout_fault_text faults.OutOfMemory ≡ codes "OutOfMemory" }
{}
