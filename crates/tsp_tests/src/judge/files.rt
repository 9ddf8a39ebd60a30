//! Texts of instances, tours and certificates, with their reports, for the tests of `src/judge/`.

/// An instance of three nodes whose costs depend on the direction.
pub(crate) const THREE_NODES: &str = "\
TYPE : ATSP
DIMENSION : 3
EDGE_WEIGHT_TYPE : EXPLICIT
EDGE_WEIGHT_FORMAT : FULL_MATRIX
EDGE_WEIGHT_SECTION
9999 1 10
10 9999 2
3 10 9999
EOF
";

/// A tour of it, along its cheapest edges.
pub(crate) const TOUR: &str = "TYPE : TOUR\nTOUR_SECTION\n1 2 3 -1\nEOF\n";

/// What the check reports on the two.
pub(crate) const REPORT: &str = "type ATSP\nnodes 3\nlength 6\nyes\n";

/// Duals that show that no tour of it is shorter.
pub(crate) const DUALS: &str = "\
TYPE : POTENTIALS
DIMENSION : 3
SCALE : 1
ROW_POTENTIAL_SECTION
1 1
2 2
3 3
COLUMN_POTENTIAL_SECTION
1 0
2 0
3 0
EOF
";

/// What the check reports on the three.
pub(crate) const BOUND_REPORT: &str = "type ATSP\nnodes 3\nlength 6\nbound 6\noptimal\nyes\n";

/// A potential of 0 for each of three nodes.
pub(crate) const POTENTIALS: &str =
    "TYPE : POTENTIALS\nDIMENSION : 3\nNODE_POTENTIAL_SECTION\n1 0\n2 0\n3 0\nEOF\n";

/// The rectangle with the sides 3 and 4.
pub(crate) const RECTANGLE: &str = "\
NAME : rectangle
TYPE : TSP
DIMENSION : 4
EDGE_WEIGHT_TYPE : EUC_2D
NODE_COORD_SECTION
1 0 0
2 3 0
3 3 4
4 0 4
EOF
";

/// The lines of `show` for the rectangle: around it is 3 + 4 + 3 + 4.
pub(crate) const RECTANGLE_SHOWN: &str =
    "name rectangle\ntype TSP\nnodes 4\nweights EUC_2D\ncanonical 14\n";

/// A tour around the rectangle.
pub(crate) const AROUND: &str = "TYPE : TOUR\nTOUR_SECTION\n1 2 3 4 -1\nEOF\n";

/// A potential of 0 for each of four nodes.
pub(crate) const ZEROS: &str = "\
TYPE : POTENTIALS
DIMENSION : 4
SCALE : 1
NODE_POTENTIAL_SECTION
1 0
2 0
3 0
4 0
EOF
";

/// A tree of two cases for it, one with its diagonal 1-3 and one without.
pub(crate) const CASES: &str =
    "TYPE : BRANCHES\nDIMENSION : 4\nBRANCH_SECTION\n1 3\n0 -1\n0 -1\nEOF\n";

/// What the check reports on the rectangle, the tour around it and potentials of 0, in one case or
/// in two.
pub(crate) const AROUND_REPORT: &str = "type TSP\nnodes 4\nlength 14\nbound 14\noptimal\nyes\n";

/// An instance of routes.
pub(crate) const ROUTES: &str = "\
TYPE : CVRP
DIMENSION : 4
CAPACITY : 8
EDGE_WEIGHT_TYPE : EUC_2D
NODE_COORD_SECTION
1 0 0
2 3 0
3 3 4
4 0 4
DEMAND_SECTION
1 0
2 4
3 4
4 4
DEPOT_SECTION
1
-1
EOF
";

/// Four nodes: node 2 is at 1 from all, the others are at 2 from each other.
pub(crate) const STAR: &str = "\
TYPE : TSP
DIMENSION : 4
EDGE_WEIGHT_TYPE : EXPLICIT
EDGE_WEIGHT_FORMAT : UPPER_ROW
EDGE_WEIGHT_SECTION
1 2 2 1 1 2
EOF
";

/// The star with all of its matrix.
pub(crate) const WHOLE_STAR: &str = "\
TYPE : TSP
DIMENSION : 4
EDGE_WEIGHT_TYPE : EXPLICIT
EDGE_WEIGHT_FORMAT : FULL_MATRIX
EDGE_WEIGHT_SECTION
0 1 2 2
1 0 1 1
2 1 0 2
2 1 2 0
EOF
";
