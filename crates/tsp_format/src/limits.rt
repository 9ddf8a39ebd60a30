//! How large a file, its sections and its numbers may be. These limits are this project's own, not
//! TSPLIB's; docs/format.md promises them to users. `specs/Limits.antt` pins them, by the law at
//! the end. Proofs against overflow rest on them, so raising a limit can cost work in any crate.

ghost use Rattle.std.specs.Prelude.{◌≡◌, pos};
ghost use Rattle.tsp_format.specs.Limits.{most_nodes, most_matrix_nodes, most_coordinate, most_weight, most_demand, most_capacity, most_scale, most_load_unit, most_potential, most_word_bytes, most_line_bytes, most_kept_bytes, most_comments, most_others, most_depots, most_fixed, most_triples, most_multiplier, most_tour_nodes, most_families, most_family_nodes, most_rows, most_branches, most_changes, most_difference, most_file_bytes};
ghost use Rattle.tsp_format.specs.declared.limits.TheConstants.{MOST_NODES, MOST_MATRIX_NODES, MOST_COORDINATE, MOST_WEIGHT, MOST_DEMAND, MOST_CAPACITY, MOST_SCALE, MOST_LOAD_UNIT, MOST_POTENTIAL, MOST_WORD_BYTES, MOST_LINE_BYTES, MOST_KEPT_BYTES, MOST_COMMENTS, MOST_OTHERS, MOST_DEPOTS, MOST_FIXED, MOST_MULTIPLIERS, MOST_MULTIPLIER, MOST_TOUR_NODES, MOST_FAMILIES, MOST_FAMILY_NODES, MOST_ROWS, MOST_BRANCHES, MOST_CHANGES, MOST_DIFFERENCE, MOST_FILE_BYTES};

/// The most nodes of a file: DIMENSION is from 1 to this.
pub const MOST_NODES: u32 = 100_000;

/// The most nodes of a file with an EDGE_WEIGHT_SECTION.
pub const MOST_MATRIX_NODES: u32 = 5_000;

/// The largest size of a coordinate, as a count of 10^-9.
pub const MOST_COORDINATE: i128 = 1_000_000_000_000_000_000;

/// The largest size of a weight.
pub const MOST_WEIGHT: i64 = 1_000_000_000_000;

/// The largest demand; the smallest is 0.
pub const MOST_DEMAND: i64 = 1_000_000_000;

/// The largest CAPACITY; the smallest is 1.
pub const MOST_CAPACITY: i64 = 1_000_000_000_000;

/// The largest SCALE; the smallest is 1.
pub const MOST_SCALE: i64 = 1_000_000;

/// The largest LOAD_UNIT; the smallest is 1.
pub const MOST_LOAD_UNIT: i64 = 1_000_000_000_000;

/// The largest size of a potential.
pub const MOST_POTENTIAL: i64 = 1_000_000_000_000_000;

/// The most bytes of a number word.
pub const MOST_WORD_BYTES: usize = 64;

/// The most bytes of a word line, from its first byte that isn't blank.
pub const MOST_LINE_BYTES: usize = 4_096;

/// The most bytes of a kept value together with its keyword.
pub const MOST_KEPT_BYTES: usize = 4_000;

/// The most COMMENT lines.
pub const MOST_COMMENTS: usize = 1_000;

/// The most lines of unknown keywords.
pub const MOST_OTHERS: usize = 1_000;

/// The most depots.
pub const MOST_DEPOTS: usize = 100_000;

/// The most fixed pairs.
pub const MOST_FIXED: usize = 100_000;

/// The most multipliers of fixed edges.
pub const MOST_MULTIPLIERS: usize = 100_000;

/// The largest multiplier; the smallest is 0.
pub const MOST_MULTIPLIER: i64 = 1_000_000_000_000_000;

/// The most nodes in all tours of a file together.
pub const MOST_TOUR_NODES: usize = 1_000_000;

/// The most families.
pub const MOST_FAMILIES: usize = 10_000;

/// The most nodes in all families of a file together. The same limit holds for its memory and for
/// its subset rows.
pub const MOST_FAMILY_NODES: usize = 1_000_000;

/// The most subset rows.
pub const MOST_ROWS: usize = 10_000;

/// The most branches of a tree of cases.
pub const MOST_BRANCHES: usize = 1_000_000;

/// The most differences in all leaves of a tree of cases together.
pub const MOST_CHANGES: usize = 10_000_000;

/// The largest size of a difference.
pub const MOST_DIFFERENCE: i64 = 2_000_000_000_000_000;

/// The most bytes of a file: 2^30.
pub const MOST_FILE_BYTES: usize = 1_073_741_824;

/// Each limit equals its definition.
///
/// No code calls it. If you change a limit only here, the prover refuses the difference from
/// `specs/Limits.antt`.
pub fn limits_are_those_of_the_profile()
    ensures nodes { MOST_NODES ≡ most_nodes }
    ensures matrix_nodes { MOST_MATRIX_NODES ≡ most_matrix_nodes }
    ensures coordinate { MOST_COORDINATE ≡ pos most_coordinate }
    ensures weight { MOST_WEIGHT ≡ pos most_weight }
    ensures demand { MOST_DEMAND ≡ pos most_demand }
    ensures capacity { MOST_CAPACITY ≡ pos most_capacity }
    ensures scale { MOST_SCALE ≡ pos most_scale }
    ensures load_unit { MOST_LOAD_UNIT ≡ pos most_load_unit }
    ensures potential { MOST_POTENTIAL ≡ pos most_potential }
    ensures word_bytes { MOST_WORD_BYTES ≡ most_word_bytes }
    ensures line_bytes { MOST_LINE_BYTES ≡ most_line_bytes }
    ensures kept_bytes { MOST_KEPT_BYTES ≡ most_kept_bytes }
    ensures comments { MOST_COMMENTS ≡ most_comments }
    ensures others { MOST_OTHERS ≡ most_others }
    ensures depots { MOST_DEPOTS ≡ most_depots }
    ensures fixed { MOST_FIXED ≡ most_fixed }
    ensures multipliers { MOST_MULTIPLIERS ≡ most_triples }
    ensures multiplier { MOST_MULTIPLIER ≡ pos most_multiplier }
    ensures tour_nodes { MOST_TOUR_NODES ≡ most_tour_nodes }
    ensures families { MOST_FAMILIES ≡ most_families }
    ensures family_nodes { MOST_FAMILY_NODES ≡ most_family_nodes }
    ensures rows { MOST_ROWS ≡ most_rows }
    ensures branches { MOST_BRANCHES ≡ most_branches }
    ensures changes { MOST_CHANGES ≡ most_changes }
    ensures difference { MOST_DIFFERENCE ≡ pos most_difference }
    ensures file_bytes { MOST_FILE_BYTES ≡ most_file_bytes }
{}
