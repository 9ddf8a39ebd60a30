//! The sentences of `--explain`: what each fault and each reason means, as a rule with its numbers.
//! The other files of this crate print them, and tsp_judge prints two of them.
//!
//! Each function is a `match` that names every variant, so that a new variant needs its sentence.

ghost use Rattle.std.specs.Prelude.{◌≤◌, length};

use tsp_file::{EndFault, RelayoutFault};
use tsp_io::WriteFault;
use tsp_number::NumberFault;
use tsp_report::Reason;
use tsp_text::LineFault;

/// What is wrong with a line.
pub(crate) fn line_sentence(fault: LineFault) -> &'static str {
    match fault {
        LineFault::LongLine => {
            "A line that begins with a letter may have at most 4,096 bytes from there on."
        }
        LineFault::UnknownLine => {
            "The line begins with a word that is no keyword of TSPLIB 95, and no colon follows that word.\n\
             With a colon, the line would be kept, but not judged."
        }
        LineFault::Repeated => {
            "An earlier line has this keyword or section, which may not be repeated."
        }
        LineFault::Outside => "This is part of TSPLIB 95, but tsp doesn't read it.",
        LineFault::BadValue => {
            "The value is missing, isn't one that this keyword takes, or is too long."
        }
        LineFault::SectionValue => {
            "The line that opens a section takes no value. Move the rest to the next line."
        }
        LineFault::SectionEarly => {
            "DIMENSION has to come before this section. Only TOUR_SECTION may come first."
        }
        LineFault::TooManyNodes => {
            "A matrix of weights may have at most 5,000 nodes, but DIMENSION is larger."
        }
        LineFault::StrayNumber => "This number is outside any section.",
        LineFault::Number(fault) => number_sentence(fault),
        LineFault::RepeatedNode => {
            "An earlier group in this section has the same node. Each node from 1 to DIMENSION\n\
             has one group."
        }
        LineFault::SelfEdge => "Both nodes of this pair are the same.",
        LineFault::Surplus => "This is more than a file may contain.",
        LineFault::AfterEnd => {
            "A -1 before this word ended the list. Only further -1s may follow."
        }
        LineFault::LateSpace => {
            "The line says that nodes have three coordinates, but NODE_COORD_SECTION above it\n\
             has two for each. Move the line before that section."
        }
    }
}

/// What is wrong with a word that is read as a number.
pub(crate) fn number_sentence(fault: NumberFault) -> &'static str {
    match fault {
        NumberFault::LongWord => "A number has at most 64 bytes.",
        NumberFault::BadNumber => {
            "This isn't a number. A number has an optional sign, digits with at most one point,\n\
             and optionally e or E with a whole exponent."
        }
        NumberFault::TooFine => {
            "The number has more than 9 decimals, not counting zeros at its end."
        }
        NumberFault::OutOfRange => "The number is out of range.",
        NumberFault::NotWhole => "A whole number is required here. 12.0 and 1.2e1 are whole too.",
    }
}

/// What is wrong with the lines of a file together.
pub(crate) fn end_sentence(fault: EndFault) -> &'static str {
    match fault {
        EndFault::Missing(_) => "A required line or section is missing.",
        EndFault::Incomplete(_) => "A section ends before it is complete.",
        EndFault::WrongFormat => {
            "EDGE_WEIGHT_FORMAT is FUNCTION, but the weights are EXPLICIT or listed. Name the\n\
             layout of the list instead. Or a file of TYPE POTENTIALS mixes sections for a TSP\n\
             (NODE_POTENTIAL_SECTION, FIXED_EDGE_POTENTIAL_SECTION) with sections for an ATSP\n\
             (ROW_POTENTIAL_SECTION, COLUMN_POTENTIAL_SECTION)."
        }
        EndFault::WrongCount => {
            "The layout needs another number of weights. For n nodes, FULL_MATRIX lists n * n,\n\
             UPPER_ROW, LOWER_ROW, UPPER_COL and LOWER_COL list n * (n - 1) / 2,\n\
             and those with DIAG list n * (n + 1) / 2."
        }
    }
}

/// Why weights can't go into a layout.
pub fn relayout_sentence(fault: RelayoutFault) -> &'static str
    ensures { length result.now ≤ 160 }
{
    match fault {
        RelayoutFault::NotExplicit => {
            "Only listed weights have a layout: EDGE_WEIGHT_TYPE has to be EXPLICIT."
        }
        RelayoutFault::NotSymmetric { i: _, j: _ } => {
            "The layout lists half of a matrix, but these two nodes have two weights, one for\n\
             each direction. FULL_MATRIX can hold both."
        }
        RelayoutFault::DiagonalLost { i: _ } => {
            "The layout has no diagonal, but the weight from this node to itself isn't 0.\n\
             FULL_MATRIX and the layouts with DIAG can hold it."
        }
        RelayoutFault::OutOfMemory =>
            "There isn't enough memory for the weights in the new layout.",
    }
}

/// Why nothing, or only a front part, was written.
pub fn write_sentence(fault: WriteFault) -> &'static str
    ensures { length result.now ≤ 160 }
{
    match fault {
        WriteFault::Device => {
            "Writing to standard output failed. It holds the beginning of the text, or nothing."
        }
        WriteFault::OutOfMemory => "There isn't enough memory for the text.",
    }
}

/// Why a solution is refused.
pub(crate) fn reason_sentence(reason: Reason) -> &'static str {
    match reason {
        Reason::NotASolution => NOT_A_SOLUTION,
        Reason::TooFewNodes => TOO_FEW_NODES,
        Reason::NotSymmetric { .. } => NOT_SYMMETRIC,
        Reason::Dimension => DIMENSION,
        Reason::TourCount => TOUR_COUNT,
        Reason::TourLength => TOUR_LENGTH,
        Reason::NodeOutOfRange { .. } => NODE_OUT_OF_RANGE,
        Reason::RepeatedNode { .. } => REPEATED_NODE,
        Reason::FixedEdgeUnused { .. } => FIXED_EDGE_UNUSED,
        Reason::NotPotentials => NOT_POTENTIALS,
        Reason::PotentialsDimension => POTENTIALS_DIMENSION,
        Reason::PotentialsKind => POTENTIALS_KIND,
        Reason::MultiplierNotFixed { .. } => MULTIPLIER_NOT_FIXED,
        Reason::MultiplierRepeated { .. } => MULTIPLIER_REPEATED,
        Reason::DualInfeasible { .. } => DUAL_INFEASIBLE,
        Reason::DepotCount => DEPOT_COUNT,
        Reason::DepotDemand => DEPOT_DEMAND,
        Reason::FixedEdgesInRoutes => FIXED_EDGES_IN_ROUTES,
        Reason::DepotInRoute { .. } => DEPOT_IN_ROUTE,
        Reason::Unserved { .. } => UNSERVED,
        Reason::Overload { .. } => OVERLOAD,
        Reason::LengthClaimed { .. } => LENGTH_CLAIMED,
        Reason::NotBranches => NOT_BRANCHES,
        Reason::BranchesDimension => BRANCHES_DIMENSION,
        Reason::BadFamily { .. } => BAD_FAMILY,
        Reason::BadMemory { .. } => BAD_MEMORY,
        Reason::BadRow { .. } => BAD_ROW,
        Reason::BadBranch { .. } => BAD_BRANCH,
        Reason::BranchTwice { .. } => BRANCH_TWICE,
        Reason::BadLeaf { .. } => BAD_LEAF,
        Reason::TooManyLoads => TOO_MANY_LOADS,
        Reason::TooManyStates { .. } => TOO_MANY_STATES,
        Reason::NotJudged => NOT_JUDGED,
        Reason::NotUsed { .. } => NOT_USED,
    }
}

const NOT_A_SOLUTION: &str = "The second file has to be of TYPE TOUR.";

const TOO_FEW_NODES: &str =
    "A tour needs at least 3 nodes, and routes need a depot and at least 1 customer.";

const NOT_SYMMETRIC: &str = "In a TSP, the cost between two nodes is the same in both directions.\n\
    If it isn't, the TYPE should be ATSP.";

const DIMENSION: &str =
    "The solution's DIMENSION isn't the instance's. In LKH-3's tour for a CVRP, the additional\n\
    nodes are copies of the depot: with --form auto, tsp check reads such a tour as routes.";

const TOUR_COUNT: &str = "The second file has to contain exactly one tour, with -1 at its end.";

const TOUR_LENGTH: &str = "A tour lists each node of the instance once.";

const NODE_OUT_OF_RANGE: &str = "The instance's nodes are 1 to DIMENSION.";

const REPEATED_NODE: &str =
    "A tour contains each node once, and routes contain each customer once.";

const FIXED_EDGE_UNUSED: &str =
    "The two nodes of each pair in FIXED_EDGES_SECTION have to be neighbours in the tour.\n\
    For an ATSP, the second has to come directly after the first.";

const NOT_POTENTIALS: &str = "The certificate has to be of TYPE POTENTIALS.";

const POTENTIALS_DIMENSION: &str = "The potentials' DIMENSION isn't the instance's.";

const POTENTIALS_KIND: &str = "A TSP needs a NODE_POTENTIAL_SECTION.\n\
    An ATSP needs a ROW_POTENTIAL_SECTION and a COLUMN_POTENTIAL_SECTION.";

const MULTIPLIER_NOT_FIXED: &str =
    "A multiplier has to be on a pair of the instance's FIXED_EDGES_SECTION, in either direction.\n\
    A tour needn't use any other pair, so a multiplier on one bounds nothing.";

const MULTIPLIER_REPEATED: &str =
    "FIXED_EDGE_POTENTIAL_SECTION may list each pair only once, whichever node comes first.";

const DUAL_INFEASIBLE: &str =
    "The potentials of a row and a column may add up to at most SCALE times the cost from the\n\
    row's node to the column's. Here they add up to more, so they bound nothing.";

const DEPOT_COUNT: &str = "The instance's DEPOT_SECTION has to list exactly one depot.";

const DEPOT_DEMAND: &str = "The depot's demand has to be 0.";

const FIXED_EDGES_IN_ROUTES: &str = "If an instance lists fixed edges, its routes aren't judged.";

const DEPOT_IN_ROUTE: &str =
    "A route lists only its customers. It begins and ends at the depot, which isn't listed.";

const UNSERVED: &str = "Every node except the depot has to be in a route.";

const OVERLOAD: &str = "The demands in a route may add up to at most CAPACITY.";

const LENGTH_CLAIMED: &str =
    "The solution is valid, but its length isn't the one that --length claims.";

const NOT_BRANCHES: &str = "The certificate has to be of TYPE BRANCHES.";

const BRANCHES_DIMENSION: &str = "The DIMENSION of the tree of cases isn't the instance's.";

const BAD_FAMILY: &str =
    "This family of COMB_SECTION isn't allowed. No set may list a node twice. A family is a lone\n\
    set, which doesn't contain all nodes; or a comb, which is a handle and an odd number of\n\
    disjoint teeth, 3 or more, each with a node inside the handle and one outside;\n\
    or up to 63 other sets, whose nodes form 2 to 14 parts.\n\
    Two nodes are in the same part if they are in the same sets. The nodes in no set are a part\n\
    too. For a CVRP, each family is one set of customers.";

const BAD_MEMORY: &str =
    "This node's list of MEMORY_SECTION isn't allowed. Only a certificate for a CVRP may have lists.\n\
    A list consists of different customers, and each customer begins at most one list. The\n\
    customers that a customer remembers and the rows that it keeps are at most 64 together.";

const BAD_ROW: &str =
    "This row of SUBSET_ROW_SECTION isn't allowed. Only a certificate for a CVRP may have rows. A row\n\
    consists of different customers, at least two of them in its set.";

const BAD_BRANCH: &str =
    "For a TSP or an ATSP, a branch is on a pair of nodes. For a CVRP, it is on a family of\n\
    COMB_SECTION: its first number is DIMENSION plus the number of the family.";

const BRANCH_TWICE: &str =
    "This branch is on a pair that a branch above it has already decided, or that is a fixed edge\n\
    of the instance, whichever node comes first. For an ATSP, a pair is the arc from its first\n\
    node to its second.";

const BAD_LEAF: &str =
    "This leaf of BRANCH_SECTION has an index or a number that isn't allowed. The indices 1 to\n\
    DIMENSION stand for the potentials of the nodes, and the next ones for the multipliers of the\n\
    families, in the order of COMB_SECTION. A potential is at most 1,000,000,000,000,000 in\n\
    absolute value. Multipliers aren't below 0, and sum to at most 300,000,000,000,000,000 if all\n\
    families are lone sets or combs. For another family, a multiplier counts c / 3 times in this\n\
    sum, where c is the largest number of the family's sets that two nodes cross.\n\
    For a CVRP, multipliers may be below 0, and their absolute values sum to at most\n\
    300,000,000,000,000,000 along with the charges of subset rows, which may not be below 0. Subset\n\
    row r has the index DIMENSION + 10,000 + r. The file lists the differences from the leaf before.";

const TOO_MANY_LOADS: &str =
    "DIMENSION * (load limit + 1) exceeds 10,000,000. A larger LOAD_UNIT lowers the load limit,\n\
    which is CAPACITY / LOAD_UNIT, but may also lower the bound.";

const TOO_MANY_STATES: &str =
    "This leaf of BRANCH_SECTION keeps more than 10,000,000 states. Shorter lists, fewer subset rows\n\
    or a larger LOAD_UNIT reduce them, but may also lower the bound.";

const NOT_JUDGED: &str =
    "No other reason applies, but the instance has a keyword that tsp doesn't know, and --strict\n\
    rejects that. A yes wouldn't mean that the solution does what the line asks for.";

const NOT_USED: &str =
    "No other reason applies, but the instance has a field that its TYPE or its EDGE_WEIGHT_TYPE\n\
    doesn't use, and --strict rejects that. Is the TYPE right? If so, remove the field:\n\
    the verdict doesn't depend on it.";
