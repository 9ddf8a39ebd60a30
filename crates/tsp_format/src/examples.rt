//! Laws that state values of the definitions in `specs/`, worked out by hand: words, blanks, cells
//! of small layouts, and limits. No code calls them. If someone makes the same mistake in a
//! definition and in the code, every contract still holds, but one of these laws fails, so a new
//! word or layout needs a row here.

ghost use Rattle.std.specs.Prelude.{◌≡◌, ◌-◌, ◌*◌, ◌^◌, true, false, [], ◌∷◌, length, None, Some, pos, negsuc, codes};
ghost use Rattle.tsp_format.specs.declared.keyword.Field.TheVariants as fields;
ghost use Rattle.tsp_format.specs.declared.keyword.Shape.TheVariants as shapes;
ghost use Rattle.tsp_format.specs.declared.keyword.ValueShape.TheVariants as values;
ghost use Rattle.tsp_format.specs.declared.keyword.Keyword.TheVariants as keywords;
ghost use Rattle.tsp_format.specs.declared.kinds.Kind.TheVariants as kinds;
ghost use Rattle.tsp_format.specs.declared.kinds.WeightKind.TheVariants as weight_kinds;
ghost use Rattle.tsp_format.specs.declared.kinds.WeightFormat.TheVariants as formats;
ghost use Rattle.tsp_format.specs.declared.kinds.CoordKind.TheVariants as coord_kinds;
ghost use Rattle.tsp_format.specs.declared.kinds.DisplayKind.TheVariants as display_kinds;
ghost use Rattle.tsp_format.specs.declared.layout.Layout.TheVariants as layouts;
ghost use Rattle.tsp_format.specs.Words.{is_blank, is_letter, is_keyword_byte, IsFirstAsymmetric, layout_word, is_spatial, field_word, kind_word, weight_kind_word, weight_format_word, coord_kind_word, display_kind_word, fields_in_order};
ghost use Rattle.tsp_format.specs.Limits.{keyword_of, shape_of, value_shape_of};
ghost use Rattle.tsp_format.specs.Limits as limits;
ghost use Rattle.tsp_format.specs.Examples.{StandsAt, CellsAre, by_rows};

/// The fields in canonical order, and their words.
pub fn examples_of_fields()
    ensures name { StandsAt 1 fields.NameKey (codes "NAME") }
    ensures kind { StandsAt 2 fields.TypeKey (codes "TYPE") }
    ensures comment { StandsAt 3 fields.CommentKey (codes "COMMENT") }
    ensures others { field_word fields.OtherKey ≡ codes "others" }
    ensures dimension { StandsAt 5 fields.DimensionKey (codes "DIMENSION") }
    ensures capacity { StandsAt 6 fields.CapacityKey (codes "CAPACITY") }
    ensures scale { StandsAt 7 fields.ScaleKey (codes "SCALE") }
    ensures load_unit { StandsAt 8 fields.LoadUnitKey (codes "LOAD_UNIT") }
    ensures weight_type { StandsAt 9 fields.EdgeWeightTypeKey (codes "EDGE_WEIGHT_TYPE") }
    ensures weight_format { StandsAt 10 fields.EdgeWeightFormatKey (codes "EDGE_WEIGHT_FORMAT") }
    ensures coord_type { StandsAt 11 fields.NodeCoordTypeKey (codes "NODE_COORD_TYPE") }
    ensures display_type { StandsAt 12 fields.DisplayDataTypeKey (codes "DISPLAY_DATA_TYPE") }
    ensures coords { StandsAt 13 fields.NodeCoordPart (codes "NODE_COORD_SECTION") }
    ensures display { StandsAt 14 fields.DisplayDataPart (codes "DISPLAY_DATA_SECTION") }
    ensures demands { StandsAt 15 fields.DemandPart (codes "DEMAND_SECTION") }
    ensures depots { StandsAt 16 fields.DepotPart (codes "DEPOT_SECTION") }
    ensures fixed { StandsAt 17 fields.FixedEdgesPart (codes "FIXED_EDGES_SECTION") }
    ensures weights { StandsAt 18 fields.EdgeWeightPart (codes "EDGE_WEIGHT_SECTION") }
    ensures tours { StandsAt 19 fields.TourPart (codes "TOUR_SECTION") }
    ensures node_potentials { StandsAt 20 fields.NodePotentialPart
        (codes "NODE_POTENTIAL_SECTION") }
    ensures row_potentials { StandsAt 21 fields.RowPotentialPart (codes "ROW_POTENTIAL_SECTION") }
    ensures column_potentials { StandsAt 22 fields.ColumnPotentialPart
        (codes "COLUMN_POTENTIAL_SECTION") }
    ensures fixed_potentials { StandsAt 23 fields.FixedEdgePotentialPart
        (codes "FIXED_EDGE_POTENTIAL_SECTION") }
    ensures families { StandsAt 24 fields.FamilyPart (codes "COMB_SECTION") }
    ensures memories { StandsAt 25 fields.MemoryPart (codes "MEMORY_SECTION") }
    ensures subset_rows { StandsAt 26 fields.SubsetRowPart (codes "SUBSET_ROW_SECTION") }
    ensures branches { StandsAt 27 fields.BranchPart (codes "BRANCH_SECTION") }
    ensures no_more { length fields_in_order ≡ 27 }
{}

/// What keywords mean that aren't the word of a field, and what bytes are.
pub fn examples_of_bytes()
    ensures other_word { keyword_of (codes "FIXED_EDGES") ≡ keywords.Known fields.FixedEdgesPart }
    ensures data_format { keyword_of (codes "EDGE_DATA_FORMAT") ≡ keywords.EdgeDataFormat }
    ensures data { keyword_of (codes "EDGE_DATA_SECTION") ≡ keywords.EdgeDataSection }
    ensures end { keyword_of (codes "EOF") ≡ keywords.Eof }
    ensures no_word_of_fields { keyword_of (codes "others") ≡ keywords.Unknown }
    ensures small_letters { keyword_of (codes "name") ≡ keywords.Unknown }
    ensures no_word { keyword_of (codes "NAM") ≡ keywords.Unknown }
    ensures tab { is_blank 9 ≡ true }
    ensures line_end { is_blank 10 ≡ false }
    ensures line_tab { is_blank 11 ≡ true }
    ensures form_feed { is_blank 12 ≡ true }
    ensures return_byte { is_blank 13 ≡ true }
    ensures blank { is_blank 32 ≡ true }
    ensures zero_byte { is_blank 0 ≡ false }
    ensures before_letters { is_letter 64 ≡ false }
    ensures first_letter { is_letter 65 ≡ true }
    ensures last_letter { is_letter 90 ≡ true }
    ensures between_letters { is_letter 91 ≡ false }
    ensures before_small_letters { is_letter 96 ≡ false }
    ensures first_small_letter { is_letter 97 ≡ true }
    ensures last_small_letter { is_letter 122 ≡ true }
    ensures after_letters { is_letter 123 ≡ false }
    ensures colon { is_keyword_byte 58 ≡ false }
    ensures end_of_keyword { is_keyword_byte 10 ≡ false }
    ensures blank_in_keyword { is_keyword_byte 12 ≡ false }
    ensures digit_in_keyword { is_keyword_byte 48 ≡ true }
{}

/// The words of the values of keywords.
pub fn examples_of_words()
    ensures tsp { kind_word kinds.Tsp ≡ codes "TSP" }
    ensures atsp { kind_word kinds.Atsp ≡ codes "ATSP" }
    ensures cvrp { kind_word kinds.Cvrp ≡ codes "CVRP" }
    ensures tour { kind_word kinds.Tour ≡ codes "TOUR" }
    ensures potentials { kind_word kinds.Potentials ≡ codes "POTENTIALS" }
    ensures branches { kind_word kinds.Branches ≡ codes "BRANCHES" }
    ensures explicit { weight_kind_word weight_kinds.Explicit ≡ codes "EXPLICIT" }
    ensures euc { weight_kind_word weight_kinds.Euc2d ≡ codes "EUC_2D" }
    ensures ceil { weight_kind_word weight_kinds.Ceil2d ≡ codes "CEIL_2D" }
    ensures man { weight_kind_word weight_kinds.Man2d ≡ codes "MAN_2D" }
    ensures max { weight_kind_word weight_kinds.Max2d ≡ codes "MAX_2D" }
    ensures att { weight_kind_word weight_kinds.Att ≡ codes "ATT" }
    ensures euc_in_space { weight_kind_word weight_kinds.Euc3d ≡ codes "EUC_3D" }
    ensures man_in_space { weight_kind_word weight_kinds.Man3d ≡ codes "MAN_3D" }
    ensures max_in_space { weight_kind_word weight_kinds.Max3d ≡ codes "MAX_3D" }
    ensures function { weight_format_word formats.ByFunction ≡ codes "FUNCTION" }
    ensures listed { weight_format_word (formats.Listed layouts.UpperCol) ≡ codes "UPPER_COL" }
    ensures full { layout_word layouts.FullMatrix ≡ codes "FULL_MATRIX" }
    ensures upper_row { layout_word layouts.UpperRow ≡ codes "UPPER_ROW" }
    ensures lower_row { layout_word layouts.LowerRow ≡ codes "LOWER_ROW" }
    ensures upper_diag_row { layout_word layouts.UpperDiagRow ≡ codes "UPPER_DIAG_ROW" }
    ensures lower_diag_row { layout_word layouts.LowerDiagRow ≡ codes "LOWER_DIAG_ROW" }
    ensures upper_col { layout_word layouts.UpperCol ≡ codes "UPPER_COL" }
    ensures lower_col { layout_word layouts.LowerCol ≡ codes "LOWER_COL" }
    ensures upper_diag_col { layout_word layouts.UpperDiagCol ≡ codes "UPPER_DIAG_COL" }
    ensures lower_diag_col { layout_word layouts.LowerDiagCol ≡ codes "LOWER_DIAG_COL" }
    ensures two_numbers { coord_kind_word coord_kinds.TwoD ≡ codes "TWOD_COORDS" }
    ensures three_numbers { coord_kind_word coord_kinds.ThreeD ≡ codes "THREED_COORDS" }
    ensures no_coords { coord_kind_word coord_kinds.NoCoords ≡ codes "NO_COORDS" }
    ensures shown_by_coords { display_kind_word display_kinds.Coord ≡ codes "COORD_DISPLAY" }
    ensures shown_in_plane { display_kind_word display_kinds.TwoD ≡ codes "TWOD_DISPLAY" }
    ensures not_shown { display_kind_word display_kinds.NoDisplay ≡ codes "NO_DISPLAY" }
{}

/// Which pairs the layouts list, in which order, and the first pair whose costs differ.
#[tactic(auto, unfolding(crate::specs::Nodes::cells, crate::specs::Nodes::nodes_to))]
pub fn examples_of_cells()
    ensures full { CellsAre layouts.FullMatrix 2 (11 ∷ 12 ∷ 21 ∷ 22 ∷ []) }
    ensures upper_row { CellsAre layouts.UpperRow 4 (12 ∷ 13 ∷ 14 ∷ 23 ∷ 24 ∷ 34 ∷ []) }
    ensures lower_row { CellsAre layouts.LowerRow 4 (21 ∷ 31 ∷ 32 ∷ 41 ∷ 42 ∷ 43 ∷ []) }
    ensures upper_col { CellsAre layouts.UpperCol 4 (12 ∷ 13 ∷ 23 ∷ 14 ∷ 24 ∷ 34 ∷ []) }
    ensures lower_col { CellsAre layouts.LowerCol 4 (21 ∷ 31 ∷ 41 ∷ 32 ∷ 42 ∷ 43 ∷ []) }
    ensures upper_diag_row { CellsAre layouts.UpperDiagRow 3 (11 ∷ 12 ∷ 13 ∷ 22 ∷ 23 ∷ 33 ∷ []) }
    ensures lower_diag_row { CellsAre layouts.LowerDiagRow 3 (11 ∷ 21 ∷ 22 ∷ 31 ∷ 32 ∷ 33 ∷ []) }
    ensures upper_diag_col { CellsAre layouts.UpperDiagCol 3 (11 ∷ 12 ∷ 22 ∷ 13 ∷ 23 ∷ 33 ∷ []) }
    ensures lower_diag_col { CellsAre layouts.LowerDiagCol 3 (11 ∷ 21 ∷ 31 ∷ 22 ∷ 32 ∷ 33 ∷ []) }
{}

/// The limits, as powers of ten and of two.
pub fn examples_of_limits()
    ensures nodes { limits.most_nodes ≡ 10 ^ 5 }
    ensures matrix_nodes { limits.most_matrix_nodes ≡ 5 * 10 ^ 3 }
    ensures coordinate { limits.most_coordinate ≡ 10 ^ 18 }
    ensures weight { limits.most_weight ≡ 10 ^ 12 }
    ensures demand { limits.most_demand ≡ 10 ^ 9 }
    ensures capacity { limits.most_capacity ≡ 10 ^ 12 }
    ensures scale { limits.most_scale ≡ 10 ^ 6 }
    ensures load_unit { limits.most_load_unit ≡ 10 ^ 12 }
    ensures potential { limits.most_potential ≡ 10 ^ 15 }
    ensures word_bytes { limits.most_word_bytes ≡ 2 ^ 6 }
    ensures line_bytes { limits.most_line_bytes ≡ 2 ^ 12 }
    ensures kept_bytes { limits.most_kept_bytes ≡ 4 * 10 ^ 3 }
    ensures comments { limits.most_comments ≡ 10 ^ 3 }
    ensures others { limits.most_others ≡ 10 ^ 3 }
    ensures depots { limits.most_depots ≡ 10 ^ 5 }
    ensures fixed { limits.most_fixed ≡ 10 ^ 5 }
    ensures multipliers { limits.most_triples ≡ 10 ^ 5 }
    ensures multiplier { limits.most_multiplier ≡ 10 ^ 15 }
    ensures tour_nodes { limits.most_tour_nodes ≡ 10 ^ 6 }
    ensures families { limits.most_families ≡ 10 ^ 4 }
    ensures family_nodes { limits.most_family_nodes ≡ 10 ^ 6 }
    ensures rows { limits.most_rows ≡ 10 ^ 4 }
    ensures branches { limits.most_branches ≡ 10 ^ 6 }
    ensures changes { limits.most_changes ≡ 10 ^ 7 }
    ensures difference { limits.most_difference ≡ 2 * 10 ^ 15 }
    ensures file_bytes { limits.most_file_bytes ≡ 2 ^ 30 }
    ensures demands_from_zero { shape_of false fields.DemandPart
        ≡ Some (shapes.Numbers (pos 0) (pos (10 ^ 9))) }
    ensures potentials_both_ways { shape_of false fields.NodePotentialPart
        ≡ Some (shapes.Numbers (negsuc (10 ^ 15 - 1)) (pos (10 ^ 15))) }
    ensures rows_both_ways { shape_of false fields.RowPotentialPart
        ≡ Some (shapes.Numbers (negsuc (10 ^ 15 - 1)) (pos (10 ^ 15))) }
    ensures columns_both_ways { shape_of false fields.ColumnPotentialPart
        ≡ Some (shapes.Numbers (negsuc (10 ^ 15 - 1)) (pos (10 ^ 15))) }
    ensures lists_of_nodes { shape_of true fields.MemoryPart ≡ Some shapes.Memories }
    ensures rows_of_nodes { shape_of false fields.SubsetRowPart ≡ Some shapes.SubsetRows }
    ensures no_shape { shape_of true fields.ScaleKey ≡ None }
    ensures nodes_from_one { value_shape_of fields.DimensionKey
        ≡ Some (values.Number (pos 1) (pos (10 ^ 5))) }
    ensures capacity_from_one { value_shape_of fields.CapacityKey
        ≡ Some (values.Number (pos 1) (pos (10 ^ 12))) }
    ensures scale_from_one { value_shape_of fields.ScaleKey
        ≡ Some (values.Number (pos 1) (pos (10 ^ 6))) }
    ensures load_unit_from_one { value_shape_of fields.LoadUnitKey
        ≡ Some (values.Number (pos 1) (pos (10 ^ 12))) }
    ensures one_name { value_shape_of fields.NameKey ≡ Some values.Kept }
    ensures each_comment { value_shape_of fields.CommentKey ≡ Some values.KeptEach }
    ensures type_by_word { value_shape_of fields.TypeKey ≡ Some values.Word }
    ensures no_value { value_shape_of fields.DemandPart ≡ None }
{}

/// When a file is spatial, and which of its sections then has points with three coordinates.
pub fn examples_of_space()
    ensures by_coords { is_spatial (Some coord_kinds.ThreeD) (Some weight_kinds.Euc2d) ≡ true }
    ensures by_straight_way { is_spatial None (Some weight_kinds.Euc3d) ≡ true }
    ensures by_sum { is_spatial (Some coord_kinds.NoCoords) (Some weight_kinds.Man3d) ≡ true }
    ensures by_longest_way { is_spatial (Some coord_kinds.TwoD) (Some weight_kinds.Max3d) ≡ true }
    ensures in_plane { is_spatial (Some coord_kinds.TwoD) (Some weight_kinds.Att) ≡ false }
    ensures listed { is_spatial (Some coord_kinds.NoCoords) (Some weight_kinds.Explicit) ≡ false }
    ensures nothing_said { is_spatial None None ≡ false }
    ensures nodes_in_space { shape_of true fields.NodeCoordPart ≡ Some shapes.SpacePoints }
    ensures nodes_in_plane { shape_of false fields.NodeCoordPart ≡ Some shapes.Points }
    ensures display_in_plane { shape_of true fields.DisplayDataPart ≡ Some shapes.Points }
{}

/// The first pair of three nodes whose two costs differ.
pub fn examples_of_asymmetric_costs()
    ensures first_pair { IsFirstAsymmetric 3
        (by_rows (pos 0 ∷ pos 1 ∷ pos 3 ∷ pos 2 ∷ pos 0 ∷ pos 4 ∷ pos 3 ∷ pos 5 ∷ [])) (1, 2) }
    ensures last_pair { IsFirstAsymmetric 3
        (by_rows (pos 0 ∷ pos 1 ∷ pos 3 ∷ pos 1 ∷ pos 0 ∷ pos 4 ∷ pos 3 ∷ pos 5 ∷ [])) (2, 3) }
    ensures rows_first { IsFirstAsymmetric 3
        (by_rows (pos 0 ∷ pos 1 ∷ pos 3 ∷ pos 1 ∷ pos 0 ∷ pos 4 ∷ pos 4 ∷ pos 5 ∷ [])) (1, 3) }
{}
