//! Laws that state for small texts, worked out by hand from docs/format.md, which file each is or
//! which first fault it has. No code calls them. If someone makes the same mistake in a definition
//! and in the code, every contract still holds, but one of these laws fails, so a new fault or
//! limit needs a row here.

ghost use Rattle.tsp_text.specs.Prelude.{[], codes, decimal, ℕ, List, filter, length, replicate, IsTrue, true, false, IsShort, most_coordinate, most_word_bytes};
ghost use Rattle.std.specs.Prelude.{◌≡◌, ◌≤◌, ◌∷◌, ◌++◌, None, Some, pos};
ghost use Rattle.tsp_number.specs.Decimal.{most_count};
ghost use Rattle.tsp_number.specs.declared.number_word.NumberFault.TheVariants as numbers;
ghost use Rattle.tsp_format.specs.Words.{fields_in_order};
ghost use Rattle.tsp_format.specs.declared.keyword.Field.TheVariants as fields;
ghost use Rattle.tsp_format.specs.declared.keyword.Shape.TheVariants as shapes;
ghost use Rattle.tsp_file.specs.declared.rules.EndFault.TheVariants as ends;
ghost use Rattle.tsp_text.specs.declared.fault.LineFault.TheVariants as faults;
ghost use Rattle.tsp_text.specs.declared.fault.ReadFault.TheVariants as reads;
ghost use Rattle.tsp_text.specs.Groups.{has_groups, nodes_by};
ghost use Rattle.tsp_text.specs.Items.{line_item};
ghost use Rattle.tsp_text.specs.ParsesTo.{is_of_text, is_too_long, line_fault_text, read_fault_text};
ghost use Rattle.tsp_text.specs.Examples.{FaultAt, IsNumberFault, MissingAtEnd, EndsWithFault, OthersAre, ToursAre, DepotsAre, PairsAre, TriplesAre, FamilyIs, MemoryIs, RowsAre, TreeIs, DemandsAre, HasSpacePoint, HasPlanePoint, quad, longest_line, long_line, long_unknown_line, long_second_line, long_word, filled_line, filled_words, may_come_twice, IsLimit, IsLimitOfLines};
ghost use Rattle.tsp_text.specs.FaultRows.{is_surplus_at, row_of, word_fault};
ghost use Rattle.tsp_text.specs.SectionWords.{DepotAfter, FirstAfter, TourNode, SetNode, StepAfter, IndexAfter};

/// The first faults of some texts of word lines. In the texts, `/` separates lines.
#[tactic(auto, unfolding(tsp_number::specs::NumberWord::decimal_of, tsp_number::specs::NumberWord::whole_of))]
pub fn faults_of_word_lines()
    ensures unknown { FaultAt (codes "TYPE : TSP/FOO") 2 0 faults.UnknownLine }
    ensures second_word_no_colon { FaultAt (codes "FOO BAR : 1") 1 0 faults.UnknownLine }
    ensures left_out { FaultAt (codes "TYPE : HCP") 1 0 faults.Outside }
    ensures left_out_order { FaultAt (codes "TYPE : SOP") 1 0 faults.Outside }
    ensures left_out_sphere { FaultAt (codes "EDGE_WEIGHT_TYPE : XRAY1") 1 0 faults.Outside }
    ensures left_out_sphere_too { FaultAt (codes "EDGE_WEIGHT_TYPE : XRAY2") 1 0 faults.Outside }
    ensures left_out_special { FaultAt (codes "EDGE_WEIGHT_TYPE : SPECIAL") 1 0 faults.Outside }
    ensures left_out_of_another { FaultAt (codes "TYPE : SPECIAL") 1 0 faults.BadValue }
    ensures left_out_of_weights { FaultAt (codes "EDGE_WEIGHT_TYPE : SOP") 1 0 faults.BadValue }
    ensures refused_section { FaultAt (codes "EDGE_DATA_SECTION") 1 0 faults.Outside }
    ensures not_accepted { FaultAt (codes "TYPE : FOO") 1 0 faults.BadValue }
    ensures no_value { FaultAt (codes "TYPE") 1 0 faults.BadValue }
    ensures longer_word { FaultAt (codes "TYPE : TSPX") 1 0 faults.BadValue }
    ensures shorter_word { FaultAt (codes "TYPE : TS") 1 0 faults.BadValue }
    ensures no_layout { FaultAt (codes "EDGE_WEIGHT_FORMAT : FULL") 1 0 faults.BadValue }
    ensures no_coordinates { FaultAt (codes "NODE_COORD_TYPE : NONE") 1 0 faults.BadValue }
    ensures no_display { FaultAt (codes "DISPLAY_DATA_TYPE : GRID") 1 0 faults.BadValue }
    ensures twice { FaultAt (codes "TYPE : TOUR/TYPE : HCP") 2 0 faults.Repeated }
    ensures no_number { IsNumberFault (codes "DIMENSION : x") 1 0 numbers.BadNumber }
    ensures empty_number { FaultAt (codes "DIMENSION :") 1 0 faults.BadValue }
    ensures valued_section { FaultAt (codes "NODE_COORD_SECTION x") 1 0 faults.SectionValue }
    ensures early_section { FaultAt (codes "NODE_COORD_SECTION") 1 0 faults.SectionEarly }
    ensures refused_keyword { FaultAt (codes "EDGE_DATA_FORMAT :") 1 0 faults.Outside }
    ensures two_names_of_one_section { FaultAt
        (codes "DIMENSION : 2/FIXED_EDGES/1 2/FIXED_EDGES_SECTION") 4 0 faults.Repeated }
    ensures twice_and_valued { FaultAt
        (codes "DIMENSION : 2/FIXED_EDGES/1 2/FIXED_EDGES x") 4 0 faults.Repeated }
    ensures refused_and_valued { FaultAt (codes "EDGE_DATA_SECTION x") 1 0 faults.Outside }
    ensures long { FaultAt long_line 1 0 faults.LongLine }
    ensures long_and_unknown { FaultAt long_unknown_line 1 0 faults.LongLine }
    ensures long_and_twice { FaultAt long_second_line 2 0 faults.LongLine }
    ensures unknown_and_too_long { FaultAt (filled_words 3998) 1 0 faults.UnknownLine }
    ensures too_long_past_the_limit { row_of (replicate 1000 (line_item (filled_line 1)))
        (line_item (filled_line 3998)) ≡ Some faults.BadValue }
    ensures twice_at_most { filter may_come_twice fields_in_order
        ≡ fields.CommentKey ∷ fields.OtherKey ∷ [] }
    ensures late { FaultAt
        (codes "TYPE : TSP/DIMENSION : 1/NODE_COORD_SECTION/1 0 0/EDGE_WEIGHT_TYPE : EUC_3D")
        5 0 faults.LateSpace }
    ensures late_after_none { FaultAt (codes
        "DIMENSION : 1/NODE_COORD_SECTION/NODE_COORD_TYPE : THREED_COORDS") 3 0 faults.LateSpace }
    ensures twice_and_late { FaultAt (codes
        "EDGE_WEIGHT_TYPE : ATT/DIMENSION : 1/NODE_COORD_SECTION/1 0 0/EDGE_WEIGHT_TYPE : EUC_3D")
        5 0 faults.Repeated }
    ensures outside_still { FaultAt (codes "EDGE_WEIGHT_TYPE : GEO") 1 0 faults.Outside }
    ensures no_word { FaultAt (codes "EDGE_WEIGHT_TYPE : CEIL_3D") 1 0 faults.BadValue }
{}

/// The first faults of some texts of numbers.
#[tactic(auto, unfolding(tsp_number::specs::NumberWord::decimal_of, tsp_number::specs::NumberWord::whole_of))]
pub fn faults_of_words()
    ensures stray { FaultAt (codes "1 2") 1 1 faults.StrayNumber }
    ensures stray_after_comment { FaultAt (codes "TOUR_SECTION/1/COMMENT : x/2")
        4 1 faults.StrayNumber }
    ensures self_edge { FaultAt (codes "DIMENSION : 3/FIXED_EDGES/1 1") 3 2 faults.SelfEdge }
    ensures after_end { FaultAt (codes "DIMENSION : 3/FIXED_EDGES/1 2 -1 5") 3 4 faults.AfterEnd }
    ensures zero { IsNumberFault (codes "DIMENSION : 3/FIXED_EDGES/0 1") 3 1 numbers.OutOfRange }
    ensures end_in_second_place { IsNumberFault (codes "DIMENSION : 3/FIXED_EDGES/1 -1")
        3 2 numbers.OutOfRange }
    ensures other_spelling_after_end { FaultAt
        (codes "DIMENSION : 3/FIXED_EDGES/1 2 -1 -1.0") 3 4 faults.AfterEnd }
    ensures triple_of_a_node_with_itself { FaultAt
        (codes "DIMENSION : 3/FIXED_EDGE_POTENTIAL_SECTION/2 2") 3 2 faults.SelfEdge }
    ensures triple_past_the_end { FaultAt
        (codes "DIMENSION : 3/FIXED_EDGE_POTENTIAL_SECTION/1 2 5 -1 -1 3") 3 6 faults.AfterEnd }
    ensures multiplier_too_large { IsNumberFault (codes
        "DIMENSION : 3/FIXED_EDGE_POTENTIAL_SECTION/1 2 1000000000000000 1 3 1000000000000001")
        3 6 numbers.OutOfRange }
    ensures multiplier_below_zero { IsNumberFault
        (codes "DIMENSION : 3/FIXED_EDGE_POTENTIAL_SECTION/1 2 -1") 3 3 numbers.OutOfRange }
    ensures zero_in_a_set { IsNumberFault (codes "DIMENSION : 3/COMB_SECTION/1 0")
        3 2 numbers.OutOfRange }
    ensures past_the_families { FaultAt
        (codes "DIMENSION : 3/COMB_SECTION/1 2 -1 -1 -1 -1 3") 3 7 faults.AfterEnd }
    ensures other_spelling_past_the_families { FaultAt
        (codes "DIMENSION : 3/COMB_SECTION/-1 -1.0") 3 2 faults.AfterEnd }
    ensures zero_in_a_list { IsNumberFault (codes "DIMENSION : 3/MEMORY_SECTION/1 0")
        3 2 numbers.OutOfRange }
    ensures past_the_lists { FaultAt
        (codes "DIMENSION : 3/MEMORY_SECTION/1 2 -1 -1 -1 3") 3 6 faults.AfterEnd }
    ensures node_past_all_in_a_row { IsNumberFault (codes "DIMENSION : 3/SUBSET_ROW_SECTION/1 -1 4")
        3 3 numbers.OutOfRange }
    ensures past_the_rows { FaultAt
        (codes "DIMENSION : 3/SUBSET_ROW_SECTION/1 2 -1 -1 -1 -1 3") 3 7 faults.AfterEnd }
    ensures branch_of_a_node_with_itself { FaultAt
        (codes "DIMENSION : 4/BRANCH_SECTION/2 2") 3 2 faults.SelfEdge }
    ensures first_number_past_all_families { IsNumberFault
        (codes "DIMENSION : 4/BRANCH_SECTION/10004 4 10005") 3 3 numbers.OutOfRange }
    ensures limit_past_the_nodes { IsNumberFault
        (codes "DIMENSION : 4/BRANCH_SECTION/5 5") 3 2 numbers.OutOfRange }
    ensures limit_zero { IsNumberFault
        (codes "DIMENSION : 4/BRANCH_SECTION/5 0") 3 2 numbers.OutOfRange }
    ensures end_in_the_second_place { IsNumberFault (codes "DIMENSION : 4/BRANCH_SECTION/2 -1")
        3 2 numbers.OutOfRange }
    ensures end_before_the_tree { IsNumberFault (codes "DIMENSION : 4/BRANCH_SECTION/1 2 0 -1 -1")
        3 5 numbers.OutOfRange }
    ensures index_zero { IsNumberFault (codes "DIMENSION : 4/BRANCH_SECTION/0 0")
        3 2 numbers.OutOfRange }
    ensures branch_on_a_row { IsNumberFault (codes "DIMENSION : 4/BRANCH_SECTION/10005 1")
        3 1 numbers.OutOfRange }
    ensures index_past_all_rows { IsNumberFault (codes "DIMENSION : 4/BRANCH_SECTION/0 20004 1 20005")
        3 4 numbers.OutOfRange }
    ensures difference_too_large { IsNumberFault
        (codes "DIMENSION : 4/BRANCH_SECTION/0 1 2000000000000000 1 2000000000000001")
        3 5 numbers.OutOfRange }
    ensures past_the_tree { FaultAt
        (codes "DIMENSION : 4/BRANCH_SECTION/0 -1 -1 0") 3 4 faults.Surplus }
    ensures repeated_node { FaultAt (codes "DIMENSION : 2/DEMAND_SECTION/1 0 1 5")
        3 3 faults.RepeatedNode }
    ensures past_the_groups { FaultAt
        (codes "DIMENSION : 2/DEMAND_SECTION/1 0 2 5 7") 3 5 faults.Surplus }
    ensures other_spelling_past_the_groups { FaultAt
        (codes "DIMENSION : 2/DEMAND_SECTION/1 0 2 5 -1.0") 3 5 faults.Surplus }
    ensures zero_in_a_tour { IsNumberFault (codes "TOUR_SECTION/1 0 2") 2 2 numbers.OutOfRange }
    ensures third_in_the_plane { FaultAt
        (codes "DIMENSION : 1/NODE_COORD_SECTION/1 0 0 5") 3 4 faults.Surplus }
    ensures fourth_in_space { FaultAt
        (codes "DIMENSION : 1/NODE_COORD_TYPE : THREED_COORDS/NODE_COORD_SECTION/1 0 0 5 6")
        4 5 faults.Surplus }
    ensures third_of_display { FaultAt (codes
        "DIMENSION : 1/EDGE_WEIGHT_TYPE : MAN_3D/DISPLAY_DATA_SECTION/1 0 0 5") 4 4 faults.Surplus }
    ensures long_word { IsNumberFault (codes "TOUR_SECTION/1 " ++ long_word) 2 2 numbers.LongWord }
    ensures past_the_weights { FaultAt (quad (codes "UPPER_ROW")
        (codes "1 2 3 4 5 6 7 8 9 10 11 12 13 14 15 16 17")) 6 17 faults.Surplus }
{}

/// The faults at the end of some texts.
#[tactic(auto, unfolding(tsp_number::specs::NumberWord::decimal_of, tsp_number::specs::NumberWord::whole_of, tsp_format::specs::Nodes::cells, tsp_format::specs::Nodes::nodes_to))]
pub fn faults_at_the_end()
    ensures no_type { MissingAtEnd (codes "DIMENSION 3") fields.TypeKey }
    ensures small_letters { MissingAtEnd (codes "dimension : 3") fields.TypeKey }
    ensures ended_by_any_spelling { MissingAtEnd
        (codes "DIMENSION : 3/FIXED_EDGES/1 2 -1.0 -1 -1") fields.TypeKey }
    ensures ignored_words { MissingAtEnd
        (codes "DIMENSION : 2/DEMAND_SECTION/1 0 2 5 -1") fields.TypeKey }
    ensures after_the_end_line { MissingAtEnd (codes "TYPE : TSP/EOF/FOO") fields.DimensionKey }
    ensures end_line_with_a_value { MissingAtEnd (codes " EOF : x/FOO") fields.TypeKey }
    ensures words_after_the_first { MissingAtEnd
        (codes "TYPE : TOUR (a route)/DIMENSION : 3 nodes/SCALE 5 5") fields.TourPart }
    ensures first_of_two { EndsWithFault
        (codes "TYPE : TOUR/DIMENSION : 3/COMB_SECTION/1 2/FIXED_EDGES_SECTION/1/TOUR_SECTION")
        (ends.Incomplete fields.FixedEdgesPart) }
    ensures cut_pair { EndsWithFault
        (codes "TYPE : TOUR/DIMENSION : 3/FIXED_EDGES_SECTION/1 2 3/TOUR_SECTION")
        (ends.Incomplete fields.FixedEdgesPart) }
    ensures cut_triple { EndsWithFault
        (codes "TYPE : TOUR/DIMENSION : 3/FIXED_EDGE_POTENTIAL_SECTION/1 2 5 3 1/TOUR_SECTION")
        (ends.Incomplete fields.FixedEdgePotentialPart) }
    ensures triple_of_one_word { EndsWithFault
        (codes "TYPE : TOUR/DIMENSION : 3/FIXED_EDGE_POTENTIAL_SECTION/1/TOUR_SECTION")
        (ends.Incomplete fields.FixedEdgePotentialPart) }
    ensures cut_set { EndsWithFault (codes "TYPE : TOUR/DIMENSION : 3/COMB_SECTION/1 2/TOUR_SECTION")
        (ends.Incomplete fields.FamilyPart) }
    ensures cut_family { EndsWithFault
        (codes "TYPE : TOUR/DIMENSION : 3/COMB_SECTION/1 2 -1/TOUR_SECTION")
        (ends.Incomplete fields.FamilyPart) }
    ensures families_alone { MissingAtEnd
        (codes "TYPE : BRANCHES/DIMENSION : 3/COMB_SECTION/1 2 -1 -1") fields.BranchPart }
    ensures cut_list { EndsWithFault
        (codes "TYPE : TOUR/DIMENSION : 3/MEMORY_SECTION/1 -1 2/TOUR_SECTION")
        (ends.Incomplete fields.MemoryPart) }
    ensures cut_row_set { EndsWithFault
        (codes "TYPE : TOUR/DIMENSION : 3/SUBSET_ROW_SECTION/1 2/TOUR_SECTION")
        (ends.Incomplete fields.SubsetRowPart) }
    ensures cut_row { EndsWithFault
        (codes "TYPE : TOUR/DIMENSION : 3/SUBSET_ROW_SECTION/1 2 -1/TOUR_SECTION")
        (ends.Incomplete fields.SubsetRowPart) }
    ensures cut_tree { EndsWithFault
        (codes "TYPE : BRANCHES/DIMENSION : 4/BRANCH_SECTION/1 2 0 2 1 -1")
        (ends.Incomplete fields.BranchPart) }
    ensures no_steps { EndsWithFault (codes "TYPE : BRANCHES/DIMENSION : 4/BRANCH_SECTION")
        (ends.Incomplete fields.BranchPart) }
    ensures triples_alone { MissingAtEnd
        (codes "TYPE : POTENTIALS/DIMENSION : 3/FIXED_EDGE_POTENTIAL_SECTION/1 3 2 -1")
        fields.NodePotentialPart }
    ensures triples_with_rows { MissingAtEnd (codes
        "TYPE : POTENTIALS/DIMENSION : 1/ROW_POTENTIAL_SECTION/1 0/FIXED_EDGE_POTENTIAL_SECTION")
        fields.ColumnPotentialPart }
    ensures triples_with_duals { EndsWithFault (codes
        "TYPE : POTENTIALS/DIMENSION : 1/ROW_POTENTIAL_SECTION/1 0/COLUMN_POTENTIAL_SECTION/1 0/FIXED_EDGE_POTENTIAL_SECTION")
        ends.WrongFormat }
    ensures rows_alone { MissingAtEnd (codes
        "TYPE : POTENTIALS/DIMENSION : 1/ROW_POTENTIAL_SECTION/1 0") fields.ColumnPotentialPart }
    ensures space_said_again { MissingAtEnd (codes
        "DIMENSION : 1/EDGE_WEIGHT_TYPE : MAX_3D/NODE_COORD_SECTION/1 0 0 5/NODE_COORD_TYPE : THREED_COORDS")
        fields.TypeKey }
    ensures two_of_three { EndsWithFault
        (codes "TYPE : TSP/DIMENSION : 1/EDGE_WEIGHT_TYPE : EUC_3D/NODE_COORD_SECTION/1 0 0")
        (ends.Incomplete fields.NodeCoordPart) }
    ensures too_few { EndsWithFault (quad (codes "UPPER_ROW") (codes "1 2 3 4 5")) ends.WrongCount }
    ensures too_many { EndsWithFault (quad (codes "UPPER_ROW")
        (codes "1 2 3 4 5 6 7")) ends.WrongCount }
    ensures by_function { EndsWithFault (quad (codes "FUNCTION")
        (codes "1 2 3 4 5")) ends.WrongFormat }
{}

/// Numbers and lines at their limits, and past them by one.
#[tactic(auto, unfolding(tsp_number::specs::NumberWord::decimal_of, tsp_number::specs::NumberWord::whole_of, tsp_format::specs::Nodes::cells, tsp_format::specs::Nodes::nodes_to))]
pub fn limits_of_lines()
    ensures most_nodes { MissingAtEnd (codes "DIMENSION : 100000") fields.TypeKey }
    ensures more_nodes { IsNumberFault (codes "DIMENSION : 100001") 1 0 numbers.OutOfRange }
    ensures no_nodes { IsNumberFault (codes "DIMENSION : 0") 1 0 numbers.OutOfRange }
    ensures most_nodes_of_a_matrix { MissingAtEnd
        (codes "DIMENSION : 5000/EDGE_WEIGHT_SECTION") fields.TypeKey }
    ensures more_nodes_of_a_matrix { FaultAt (codes "DIMENSION : 5001/EDGE_WEIGHT_SECTION")
        2 0 faults.TooManyNodes }
    ensures largest_capacity { MissingAtEnd (codes "CAPACITY : 1000000000000") fields.TypeKey }
    ensures larger_capacity { IsNumberFault (codes "CAPACITY : 1000000000001") 1 0 numbers.OutOfRange }
    ensures largest_scale { MissingAtEnd (codes "SCALE : 1000000") fields.TypeKey }
    ensures larger_scale { IsNumberFault (codes "SCALE : 1000001") 1 0 numbers.OutOfRange }
    ensures largest_load_unit { MissingAtEnd (codes "LOAD_UNIT : 1000000000000") fields.TypeKey }
    ensures larger_load_unit { IsNumberFault
        (codes "LOAD_UNIT : 1000000000001") 1 0 numbers.OutOfRange }
    ensures no_load_unit { IsNumberFault (codes "LOAD_UNIT : 0") 1 0 numbers.OutOfRange }
    ensures largest_coordinates { MissingAtEnd
        (codes "DIMENSION : 1/NODE_COORD_SECTION/1 1000000000 -1000000000") fields.TypeKey }
    ensures larger_coordinate { IsNumberFault
        (codes "DIMENSION : 1/NODE_COORD_SECTION/1 0 1000000000.000000001") 3 3 numbers.OutOfRange }
    ensures largest_demand { MissingAtEnd
        (codes "DIMENSION : 1/DEMAND_SECTION/1 1000000000") fields.TypeKey }
    ensures larger_demand { IsNumberFault (codes "DIMENSION : 1/DEMAND_SECTION/1 1000000001")
        3 2 numbers.OutOfRange }
    ensures largest_weights { EndsWithFault (quad (codes "UPPER_ROW")
        (codes "1000000000000 -1000000000000")) ends.WrongCount }
    ensures larger_weight { IsNumberFault (quad (codes "UPPER_ROW") (codes "1 1000000000001"))
        6 2 numbers.OutOfRange }
    ensures smaller_weight { IsNumberFault (quad (codes "UPPER_ROW") (codes "1 2 -1000000000001"))
        6 3 numbers.OutOfRange }
    ensures longest { MissingAtEnd longest_line fields.TypeKey }
    ensures longest_kept { MissingAtEnd (filled_line 3997) fields.TypeKey }
    ensures longer_kept { FaultAt (filled_line 3998) 1 0 faults.BadValue }
    ensures comments { IsLimitOfLines 1000 999 (codes "COMMENT : x") }
    ensures others { IsLimitOfLines 1000 999 (codes "FOO : x") }
{}

/// The last word within the limit of a list, and the first beyond it.
#[tactic(auto, unfolding(tsp_number::specs::NumberWord::decimal_of, tsp_number::specs::NumberWord::whole_of))]
pub fn limits_of_sections()
    ensures depots { IsLimit (DepotAfter 100000) (DepotAfter 99999) (codes "1") }
    ensures pairs { IsLimit (FirstAfter 100000) (FirstAfter 99999) (codes "1") }
    ensures nodes_of_tours { IsLimit (TourNode 1000000) (TourNode 999999) (codes "1") }
    ensures nodes_of_families { IsLimit (SetNode true 1 1000000) (SetNode true 1 999999) (codes "1") }
    ensures families { IsLimit (SetNode false 10000 5) (SetNode false 9999 5) (codes "1") }
    ensures nodes_of_memories { IsLimit (SetNode false 0 1000000) (SetNode false 0 999999) (codes "1") }
    ensures branches { IsLimit (StepAfter 1000000) (StepAfter 999999) (codes "1") }
    ensures indices { IsLimit (IndexAfter 10000000) (IndexAfter 9999999) (codes "1") }
    ensures bad_number_past_the_depots { word_fault 3 (DepotAfter 100000) (codes "4")
        ≡ Some (faults.Number numbers.OutOfRange) }
    ensures bad_number_past_the_indices { word_fault 3 (IndexAfter 10000000) (codes "0")
        ≡ Some (faults.Number numbers.OutOfRange) }
    ensures end_of_depots { is_surplus_at 3 (DepotAfter 100000) (codes "-1") ≡ false }
    ensures end_of_pairs { is_surplus_at 3 (FirstAfter 100000) (codes "-1") ≡ false }
    ensures end_of_tours { is_surplus_at 3 (TourNode 1000000) (codes "-1") ≡ false }
    ensures end_of_families { is_surplus_at 3 (SetNode false 10000 1000000) (codes "-1") ≡ false }
    ensures last_family { is_surplus_at 3 (SetNode true 10000 5) (codes "1") ≡ false }
    ensures leaf { is_surplus_at 3 (StepAfter 1000000) (codes "0") ≡ false }
    ensures end_of_leaf { is_surplus_at 3 (IndexAfter 10000000) (codes "-1") ≡ false }
{}

/// The fields of the files that some texts parse to.
#[tactic(auto, unfolding(tsp_number::specs::NumberWord::decimal_of, tsp_number::specs::NumberWord::whole_of, tsp_format::specs::Nodes::nodes_to))]
pub fn fields_of_texts()
    ensures value { OthersAre (codes "FOO : BAR") (codes "FOO") (codes "BAR") }
    ensures no_value { OthersAre (codes "FOO: ") (codes "FOO") (codes "") }
    ensures colon_in_value { OthersAre (codes "FOO :BAR : X ") (codes "FOO") (codes "BAR : X") }
    ensures tours { ToursAre (codes "TYPE:TOUR/TOUR_SECTION/3 -1 -1/4 5/EOF") }
    ensures depots { DepotsAre
        (codes "TYPE:TOUR/DIMENSION 3/DEPOT_SECTION/2 +3 -1.0/TOUR_SECTION") }
    ensures depots_without_an_end { DepotsAre
        (codes "TYPE:TOUR/DIMENSION 3/DEPOT_SECTION/2/3/TOUR_SECTION") }
    ensures pairs_without_an_end { PairsAre
        (codes "TYPE:TOUR/DIMENSION 3/FIXED_EDGES/1 2/3 1/TOUR_SECTION") }
    ensures pairs { PairsAre
        (codes "TYPE:TOUR/DIMENSION 3/FIXED_EDGES/1 2 +3 1.0 -1/TOUR_SECTION") }
    ensures triples { TriplesAre (codes
        "TYPE:TOUR/DIMENSION 3/FIXED_EDGE_POTENTIAL_SECTION/1 2 5 +3/1 0 -1.0 -1/TOUR_SECTION") }
    ensures family { FamilyIs
        (codes "TYPE:BRANCHES/DIMENSION 6/COMB_SECTION/1 2 3 -1 1 4 -1/2 5 -1 3 6 -1.0 -1 -1 -1/BRANCH_SECTION/0 -1") }
    ensures family_without_an_end { FamilyIs
        (codes "TYPE:BRANCHES/DIMENSION 6/COMB_SECTION/1 2 3 -1 1 4 -1 2 5 -1 3 6 -1 -1/BRANCH_SECTION/0 -1") }
    ensures memory { MemoryIs
        (codes "TYPE:BRANCHES/DIMENSION 4/MEMORY_SECTION/1 2/3 -1.0 4 -1 -1 -1/BRANCH_SECTION/0 -1") }
    ensures memory_without_an_end { MemoryIs
        (codes "TYPE:BRANCHES/DIMENSION 4/MEMORY_SECTION/1 2 3 -1/4 -1/BRANCH_SECTION/0 -1") }
    ensures rows { RowsAre
        (codes "TYPE:BRANCHES/DIMENSION 4/SUBSET_ROW_SECTION/1 2 -1 -1/3 -1 4 1 -1 -1/BRANCH_SECTION/0 -1") }
    ensures rows_without_an_end { RowsAre
        (codes "TYPE:BRANCHES/DIMENSION 4/SUBSET_ROW_SECTION/1 2 -1 -1 3 -1 4 1 -1/BRANCH_SECTION/0 -1") }
    ensures tree { TreeIs
        (codes "TYPE:BRANCHES/DIMENSION 4/BRANCH_SECTION/1 2/0 +2 1 -1.0/0 -1 -1") }
    ensures demands { DemandsAre (codes "DIMENSION : 3/DEMAND_SECTION/2 7/3 9 1/5") }
    ensures by_its_type { HasSpacePoint
        (codes "DIMENSION : 1/EDGE_WEIGHT_TYPE : MAN_3D/NODE_COORD_SECTION/1 1.5 0 -2") }
    ensures by_its_coordinates { HasSpacePoint
        (codes "NODE_COORD_TYPE:THREED_COORDS/DIMENSION 1/NODE_COORD_SECTION/1 1.5 0/-2") }
    ensures on_plane { HasPlanePoint
        (codes "DIMENSION : 1/EDGE_WEIGHT_TYPE : MAN_2D/NODE_COORD_SECTION/1 1.5 -2") }
{}

/// The limits that tsp_number has are those of a file: the most bytes of a number word, and the
/// largest coordinate. A text of 2^30 bytes isn't too long, and one of a byte more is.
pub fn limits_agree()
    ensures coordinate { most_count ≡ most_coordinate }
    ensures longest_text { (bytes : List ℕ) → length bytes ≡ 1073741824 → is_too_long bytes ≡ false }
    ensures longer_text { (bytes : List ℕ) → length bytes ≡ 1073741825 → is_too_long bytes ≡ true }
    ensures no_more_bytes { (word : List ℕ) → IsShort word → length word ≤ most_word_bytes }
    ensures no_fewer_bytes { (word : List ℕ) → length word ≤ most_word_bytes → IsShort word }
{}

/// The text of each fault. Digits are as `decimal` writes them.
pub fn examples_of_fault_texts()
    ensures long_line { line_fault_text faults.LongLine ≡ codes "LongLine" }
    ensures unknown_line { line_fault_text faults.UnknownLine ≡ codes "UnknownLine" }
    ensures repeated { line_fault_text faults.Repeated ≡ codes "Repeated" }
    ensures outside { line_fault_text faults.Outside ≡ codes "Outside" }
    ensures bad_value { line_fault_text faults.BadValue ≡ codes "BadValue" }
    ensures section_value { line_fault_text faults.SectionValue ≡ codes "SectionValue" }
    ensures section_early { line_fault_text faults.SectionEarly ≡ codes "SectionEarly" }
    ensures too_many_nodes { line_fault_text faults.TooManyNodes ≡ codes "TooManyNodes" }
    ensures stray_number { line_fault_text faults.StrayNumber ≡ codes "StrayNumber" }
    ensures repeated_node { line_fault_text faults.RepeatedNode ≡ codes "RepeatedNode" }
    ensures self_edge { line_fault_text faults.SelfEdge ≡ codes "SelfEdge" }
    ensures surplus { line_fault_text faults.Surplus ≡ codes "Surplus" }
    ensures after_end { line_fault_text faults.AfterEnd ≡ codes "AfterEnd" }
    ensures late_space { line_fault_text faults.LateSpace ≡ codes "LateSpace" }
    ensures number { line_fault_text (faults.Number numbers.TooFine) ≡ codes "Number TooFine" }
    ensures line { read_fault_text (reads.Line 3 4 faults.Surplus)
        ≡ codes "line " ++ (decimal 3 ++ (codes " word " ++ (decimal 4 ++ codes ": Surplus"))) }
    ensures end { read_fault_text (reads.End ends.WrongCount) ≡ codes "end: WrongCount" }
    ensures out_of_memory { read_fault_text reads.OutOfMemory ≡ codes "out of memory" }
    ensures device { read_fault_text reads.Device ≡ codes "device" }
    ensures too_long { read_fault_text reads.TooLong ≡ codes "too long" }
{}

/// Which shapes of sections have a group for each node, and the nodes of groups in the order of the
/// text. A group that isn't complete is left out, and so are words after n groups.
#[tactic(auto, unfolding(tsp_number::specs::NumberWord::decimal_of, tsp_number::specs::NumberWord::whole_of))]
pub fn examples_of_groups()
    ensures numbers { has_groups (Some (shapes.Numbers (pos 0) (pos 9))) ≡ true }
    ensures points { has_groups (Some shapes.Points) ≡ true }
    ensures points_in_space { has_groups (Some shapes.SpacePoints) ≡ true }
    ensures weights { has_groups (Some shapes.Weights) ≡ false }
    ensures tours { has_groups (Some shapes.Tours) ≡ false }
    ensures keyword { has_groups None ≡ false }
    ensures nodes_of_numbers { nodes_by (Some (shapes.Numbers (pos 0) (pos 9))) 2
        (codes "2" ∷ codes "7" ∷ codes "1" ∷ codes "0" ∷ []) ≡ pos 2 ∷ pos 1 ∷ [] }
    ensures nodes_of_points { nodes_by (Some shapes.Points) 2
        (codes "2" ∷ codes "7" ∷ codes "5" ∷ codes "1" ∷ codes "0" ∷ codes "0" ∷ []) ≡ pos 2 ∷ pos 1 ∷ [] }
    ensures nodes_in_space { nodes_by (Some shapes.SpacePoints) 2
        (codes "2" ∷ codes "7" ∷ codes "5" ∷ codes "1" ∷ []) ≡ pos 2 ∷ [] }
    ensures past_the_groups { nodes_by (Some (shapes.Numbers (pos 0) (pos 9))) 1
        (codes "1" ∷ codes "7" ∷ codes "1" ∷ codes "0" ∷ []) ≡ pos 1 ∷ [] }
    ensures no_groups { nodes_by (Some shapes.Tours) 2 (codes "2" ∷ codes "1" ∷ []) ≡ [] }
{}

/// Which faults are those of a text: not that memory was refused, or that a reader failed.
pub fn examples_of_faults_of_texts()
    ensures line { is_of_text (reads.Line 1 0 faults.UnknownLine) ≡ true }
    ensures end { is_of_text (reads.End ends.WrongCount) ≡ true }
    ensures too_long { is_of_text reads.TooLong ≡ true }
    ensures memory { is_of_text reads.OutOfMemory ≡ false }
    ensures device { is_of_text reads.Device ≡ false }
{}
