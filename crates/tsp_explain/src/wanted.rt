//! The sentences of `--explain` on what each keyword and each section takes, with the limits of
//! docs/format.md. `file_fault.rt` prints them. A new field needs its sentence here.

use tsp_format::{Field, Shape};

/// What a keyword or a section takes.
pub(crate) fn wanted(field: Field) -> &'static str {
    match field {
        Field::NameKey => NAME,
        Field::CommentKey => COMMENT,
        Field::OtherKey => OTHER,
        Field::TypeKey => TYPE,
        Field::DimensionKey => DIMENSION_RANGE,
        Field::CapacityKey => CAPACITY,
        Field::ScaleKey => SCALE,
        Field::LoadUnitKey => LOAD_UNIT,
        Field::EdgeWeightTypeKey => EDGE_WEIGHT_TYPE,
        Field::EdgeWeightFormatKey => EDGE_WEIGHT_FORMAT,
        Field::NodeCoordTypeKey => NODE_COORD_TYPE,
        Field::DisplayDataTypeKey => DISPLAY_DATA_TYPE,
        Field::NodeCoordPart => NODE_COORD,
        Field::DisplayDataPart => DISPLAY_DATA,
        Field::DemandPart => DEMAND,
        Field::DepotPart => DEPOT,
        Field::FixedEdgesPart => FIXED_EDGES,
        Field::EdgeWeightPart => EDGE_WEIGHT,
        Field::TourPart => TOUR_NODES,
        Field::NodePotentialPart => NODE_POTENTIAL,
        Field::RowPotentialPart => ROW_POTENTIAL,
        Field::ColumnPotentialPart => COLUMN_POTENTIAL,
        Field::FixedEdgePotentialPart => FIXED_EDGE_POTENTIAL,
        Field::FamilyPart => COMB,
        Field::MemoryPart => MEMORY,
        Field::SubsetRowPart => SUBSET_ROW,
        Field::BranchPart => BRANCH,
    }
}

const NAME: &str = "NAME keeps its whole value. With the keyword, it may have at most 4,000 bytes.";

const COMMENT: &str =
    "COMMENT keeps its whole value. With the keyword, it may have at most 4,000 bytes.\n\
    A file may have at most 1,000 such lines.";

const OTHER: &str =
    "An unknown keyword keeps its whole value. With the keyword, it may have at most 4,000 bytes.\n\
    A file may have at most 1,000 such lines.";

const TYPE: &str = "TYPE is TSP, ATSP, CVRP, TOUR, POTENTIALS or BRANCHES.\n\
    tsp doesn't read TSPLIB 95's HCP and SOP.";

const DIMENSION_RANGE: &str = "DIMENSION is the number of nodes: a whole number from 1 to 100,000.";

const CAPACITY: &str = "CAPACITY is a whole number from 1 to 1,000,000,000,000.";

const SCALE: &str = "SCALE is a whole number from 1 to 1,000,000.";

const LOAD_UNIT: &str = "LOAD_UNIT is a whole number from 1 to 1,000,000,000,000.";

const EDGE_WEIGHT_TYPE: &str =
    "EDGE_WEIGHT_TYPE is EXPLICIT, EUC_2D, CEIL_2D, MAN_2D, MAX_2D, ATT, EUC_3D, MAN_3D or MAX_3D.\n\
    tsp doesn't read the other types of TSPLIB 95.\n\
    It does read an EXPLICIT matrix of the distances, in whole numbers, for up to 5,000 nodes.";

const EDGE_WEIGHT_FORMAT: &str =
    "EDGE_WEIGHT_FORMAT is FUNCTION, FULL_MATRIX, UPPER_ROW, LOWER_ROW, UPPER_DIAG_ROW, LOWER_DIAG_ROW,\n\
    UPPER_COL, LOWER_COL, UPPER_DIAG_COL or LOWER_DIAG_COL.";

const NODE_COORD_TYPE: &str = "NODE_COORD_TYPE is TWOD_COORDS, THREED_COORDS or NO_COORDS.";

const DISPLAY_DATA_TYPE: &str = "DISPLAY_DATA_TYPE is COORD_DISPLAY, TWOD_DISPLAY or NO_DISPLAY.";

const NODE_COORD: &str =
    "NODE_COORD_SECTION has a group for each node from 1 to DIMENSION: the node, x and y, and\n\
    also z if an earlier line says THREED_COORDS, EUC_3D, MAN_3D or MAX_3D.\n\
    Coordinates are from -1,000,000,000 to 1,000,000,000, with at most 9 decimals.";

const DISPLAY_DATA: &str =
    "DISPLAY_DATA_SECTION has a group for each node from 1 to DIMENSION: the node, x and y.\n\
    Coordinates are from -1,000,000,000 to 1,000,000,000, with at most 9 decimals.";

const DEMAND: &str =
    "DEMAND_SECTION has a group for each node from 1 to DIMENSION: the node and its demand,\n\
    a whole number from 0 to 1,000,000,000.";

const DEPOT: &str =
    "DEPOT_SECTION lists at most 100,000 nodes from 1 to DIMENSION, and ends with -1.\n\
    The recipe tidy.awk replaces a depot's coordinates with its node.";

const FIXED_EDGES: &str =
    "FIXED_EDGES_SECTION lists at most 100,000 pairs of different nodes from 1 to DIMENSION,\n\
    and ends with -1.";

const EDGE_WEIGHT: &str =
    "EDGE_WEIGHT_SECTION lists whole numbers from -1,000,000,000,000 to 1,000,000,000,000,\n\
    at most DIMENSION * DIMENSION of them.";

const TOUR_NODES: &str =
    "TOUR_SECTION lists at most 1,000,000 nodes from 1 to 100,000, and a -1 ends each tour.";

const NODE_POTENTIAL: &str =
    "NODE_POTENTIAL_SECTION has a group for each node from 1 to DIMENSION: the node and\n\
    its potential, a whole number from -1,000,000,000,000,000 to 1,000,000,000,000,000.";

const ROW_POTENTIAL: &str =
    "ROW_POTENTIAL_SECTION has a group for each node from 1 to DIMENSION: the node and\n\
    its potential, a whole number from -1,000,000,000,000,000 to 1,000,000,000,000,000.";

const COLUMN_POTENTIAL: &str =
    "COLUMN_POTENTIAL_SECTION has a group for each node from 1 to DIMENSION: the node and\n\
    its potential, a whole number from -1,000,000,000,000,000 to 1,000,000,000,000,000.";

const FIXED_EDGE_POTENTIAL: &str =
    "FIXED_EDGE_POTENTIAL_SECTION lists at most 100,000 triples, and ends with -1. A triple is\n\
    two different nodes from 1 to DIMENSION and their multiplier, a whole number from 0 to\n\
    1,000,000,000,000,000.";

const COMB: &str =
    "COMB_SECTION lists at most 10,000 combs, with 1,000,000 nodes from 1 to DIMENSION in all.\n\
    A comb is a handle and its teeth. A -1 ends each of these, one more -1 ends a comb,\n\
    and another ends the section.";

const MEMORY: &str =
    "MEMORY_SECTION lists what customers remember: a customer, the customers that it remembers,\n\
    and -1. One more -1 ends the section. It has at most 1,000,000 nodes from 1 to DIMENSION.";

const SUBSET_ROW: &str =
    "SUBSET_ROW_SECTION lists subset rows: the nodes of a set, -1, further nodes if any, and -1.\n\
    One more -1 ends the section. It has at most 10,000 rows, with 1,000,000 nodes from 1 to\n\
    DIMENSION in all.";

const BRANCH: &str =
    "BRANCH_SECTION lists the steps of one tree. Two different nodes from 1 to DIMENSION are a\n\
    branch: the subtree for the tours that use this pair follows, and then the one for the\n\
    others. For routes, a branch is DIMENSION + k, with k from 1 to 10,000, and t from 1 to\n\
    DIMENSION: first come the routes that cross family k at most 2 * t times, then the others.\n\
    0 begins a leaf: pairs of an index from 1 to DIMENSION + 20,000 and a whole difference from\n\
    -2,000,000,000,000,000 to 2,000,000,000,000,000, and -1 at the end.\n\
    There are at most 1,000,000 branches and 10,000,000 differences.";

/// Which files have to have a keyword or a section.
pub(crate) fn asked(field: Field) -> &'static str {
    match field {
        Field::TypeKey => "Every file has a line TYPE.",
        Field::DimensionKey => "Every file except one of TYPE TOUR has a line DIMENSION.",
        Field::EdgeWeightTypeKey => {
            "A file of TYPE TSP, ATSP or CVRP has a line EDGE_WEIGHT_TYPE."
        }
        Field::EdgeWeightFormatKey => {
            "A file with EXPLICIT weights has a line EDGE_WEIGHT_FORMAT, which says how they are listed."
        }
        Field::CapacityKey => "A file of TYPE CVRP has a line CAPACITY.",
        Field::NodeCoordPart => {
            "A TSP, ATSP or CVRP whose weights are distances has a NODE_COORD_SECTION."
        }
        Field::EdgeWeightPart => {
            "A TSP, ATSP or CVRP with EXPLICIT weights has an EDGE_WEIGHT_SECTION."
        }
        Field::DemandPart => "A file of TYPE CVRP has a DEMAND_SECTION.",
        Field::DepotPart => "A file of TYPE CVRP has a DEPOT_SECTION.",
        Field::TourPart => "A file of TYPE TOUR has a TOUR_SECTION.",
        Field::NodePotentialPart => {
            "A file of TYPE POTENTIALS has a NODE_POTENTIAL_SECTION, or a ROW_POTENTIAL_SECTION\n\
             and a COLUMN_POTENTIAL_SECTION."
        }
        Field::RowPotentialPart | Field::ColumnPotentialPart => {
            "Row potentials need column potentials, and column potentials need row potentials."
        }
        Field::BranchPart => "A file of TYPE BRANCHES has a BRANCH_SECTION.",
        Field::NameKey
        | Field::CommentKey
        | Field::OtherKey
        | Field::ScaleKey
        | Field::LoadUnitKey
        | Field::NodeCoordTypeKey
        | Field::DisplayDataTypeKey
        | Field::DisplayDataPart
        | Field::FixedEdgesPart
        | Field::FixedEdgePotentialPart
        | Field::FamilyPart
        | Field::MemoryPart
        | Field::SubsetRowPart => "No file needs it.",
    }
}

/// How many words a group of a section has, in a spatial file or in another, or `None` if it has
/// no groups.
pub(crate) fn group(field: Field, is_spatial: bool) -> Option<u64> {
    match field.shape(is_spatial) {
        Some(Shape::SpacePoints) => Some(4),
        Some(Shape::Points) => Some(3),
        Some(Shape::Numbers { low: _, high: _ }) => Some(2),
        _ => None,
    }
}
