//! The verdict on a solution, the verdict on a bound, and the reasons against them, in the order in
//! which they are judged. tsp_verdict finds them, this crate prints them, and tsp_explain explains
//! them. Names, ranks and numbers are here, in `specs/Verdicts.antt` (circle 2) and in
//! `bindings/reasons.tsv`: change all three, but never a number for C.

ghost use Rattle.std.specs.Prelude.{◌≡◌, None, Some, pos};
ghost use Rattle.tsp_report.specs.Verdicts.{row_of_reason, number_of_reason};
ghost use Rattle.tsp_report.specs.declared.task.Role.TheVariants.{Potentials};

use crate::task::Role::{self, Branches, Instance, Potentials, Solution};
use tsp_format::Field;

/// Why a solution is rejected, or why there is no bound, in the order in which reasons are judged.
///
/// Places, routes, fixed pairs, multipliers, families, rows, branches and leaves count from 1: places
/// through all tours of the solution, one after the other, branches and leaves through their
/// section.
#[derive(Clone, Copy, Debug, PartialEq, Eq)]
pub enum Reason {
    /// The solution is not a file of TYPE TOUR.
    NotASolution,
    /// The instance has fewer than 3 nodes or, if routes are judged, fewer than 2.
    TooFewNodes,
    /// The instance is of TYPE TSP, and this is the first pair, the smaller node first, by rows,
    /// whose two costs differ.
    NotSymmetric { i: u32, j: u32 },
    /// The solution has a DIMENSION other than that of the instance.
    Dimension,
    /// The solution does not hold exactly one tour.
    TourCount,
    /// The tour does not have as many nodes as the instance.
    TourLength,
    /// The instance does not list exactly one depot.
    DepotCount,
    /// The depot has a demand other than 0.
    DepotDemand,
    /// The instance lists a fixed pair.
    FixedEdgesInRoutes,
    /// The node at this place is the first one that is the depot.
    DepotInRoute { place: u32 },
    /// The node at this place is the first one larger than the number of nodes.
    NodeOutOfRange { place: u32 },
    /// The node at this place is the first one that is at an earlier place too.
    RepeatedNode { place: u32 },
    /// This fixed pair is the first one that the tour does not use: as neighbours in either
    /// direction, and under TYPE ATSP from its first to its second node alone.
    FixedEdgeUnused { index: u32 },
    /// This node is the least one, the depot aside, that is in no route.
    Unserved { node: u32 },
    /// This route is the first one whose demands sum to more than the capacity.
    Overload { route: u32 },
    /// No other reason applies to the solution, but its length, which is this one, isn't the
    /// claimed one.
    LengthClaimed { length: i64 },
    /// The certificate is not a file of TYPE POTENTIALS.
    NotPotentials,
    /// The certificate has a DIMENSION other than that of the instance.
    PotentialsDimension,
    /// The certificate has no potentials of nodes, which a TSP requires, or none of rows and
    /// columns, which an ATSP requires.
    PotentialsKind,
    /// The instance is of TYPE TSP, and this multiplier is the first one whose pair isn't among the
    /// fixed pairs of the instance, in either direction.
    MultiplierNotFixed { index: u32 },
    /// The instance is of TYPE TSP, and this multiplier is the first one whose pair an earlier one
    /// has, in either direction.
    MultiplierRepeated { index: u32 },
    /// The instance is of TYPE ATSP, and this is the first pair of different nodes, by rows, whose
    /// potentials of row and column sum to more than the cost at the scale.
    DualInfeasible { i: u32, j: u32 },
    /// The certificate is not a file of TYPE BRANCHES.
    NotBranches,
    /// The certificate by branching has a DIMENSION other than that of the instance.
    BranchesDimension,
    /// This family is the first one that isn't good. For tours it has a node twice in a set, or is
    /// neither a lone set nor a comb and has more than 63 sets, or sets that divide the nodes into
    /// more than 14 parts, or into one. For routes it isn't a single set of customers, each once.
    ///
    /// Reports call it `BadComb`, as they did when combs were the only families.
    BadFamily { index: u32 },
    /// This customer has the first bad list of those that say what customers remember: one with a
    /// node that isn't a customer, with a customer twice, or whose customer has an earlier list. If
    /// all lists and subset rows are good, the first customer that keeps more than 64 customers and
    /// rows. If tours are judged, the first node of the first list.
    BadMemory { node: u32 },
    /// This subset row is the first one with fewer than two nodes in its set, with a node that isn't
    /// a customer, or with a node twice. If tours are judged, the first row.
    BadRow { index: u32 },
    /// This branch is the first one of the wrong kind: on a family if tours are judged, or if
    /// routes are judged on something else than one of the certificate's families.
    BadBranch { index: u32 },
    /// This branch is the first one whose pair is decided above it or fixed: for a TSP in either
    /// direction, for an ATSP the same arc.
    BranchTwice { index: u32 },
    /// This leaf is the first one that isn't good: it has an index past those of the nodes and the
    /// families, a potential above 10^15 in size, or multipliers that are too large. For tours
    /// these are at least 0 and sum to at most 9 * 10^17, each times the most sets of its family
    /// that two nodes cross. For routes they may be negative, and their sizes sum to at most 3 *
    /// 10^17. If the certificate lists memories or subset rows, the indexes of rows are taken too,
    /// their charges are in that sum, and no charge is negative.
    BadLeaf { index: u32 },
    /// Routes are judged, and the number of nodes times one more than the capacity, which is
    /// counted in loads, is more than 10^7.
    TooManyLoads,
    /// Routes are judged, the certificate lists memories or subset rows, and this leaf is the first
    /// one whose runs have more than 10^7 kept states.
    TooManyStates { index: u32 },
    /// No other reason applies, a line of the instance has an unknown keyword, and the check asked
    /// for this reason. The report names the first such keyword.
    NotJudged,
    /// No other reason applies, this field is the first one of the instance that its TYPE or its
    /// weight type doesn't use, and the check asked for this reason.
    NotUsed { field: Field },
}

/// The verdict on a solution: accepted with its length, or rejected with the first reason that
/// applies.
#[derive(Clone, Copy, Debug, PartialEq, Eq)]
pub enum Verdict {
    /// Accepted: the solution is a tour of this length. If a certificate was judged, too, no tour
    /// of the instance is shorter than the bound.
    Tour {
        length: i64,
        bound: Option<i128>,
    },
    /// Accepted: the solution is a plan with this many routes and this total length. No plan of the
    /// instance has fewer than `least` routes. If a certificate was judged, too, no plan without
    /// empty routes is shorter than the bound.
    Routes {
        length: i64,
        routes: u32,
        least: u64,
        bound: Option<i128>,
    },
    /// Rejected, with the first reason that applies to the solution.
    No(Reason),
}

impl Verdict {
    ghost use Rattle.std.specs.Prelude.{◌≡◌};
    ghost use Rattle.tsp_report.specs.Verdicts.{is_yes};

    /// Whether the solution is accepted.
    pub fn is_yes(self) -> bool
        ensures { result ≡ is_yes self }
    {
        match self {
            Verdict::Tour { .. } | Verdict::Routes { .. } => true,
            Verdict::No(_) => false,
        }
    }
}

/// The verdict on an instance with a certificate, without a solution: the bound, below which there
/// is no tour or, for a CVRP, no plan without empty routes; `None` if the instance has no such
/// solution; or the first reason that applies to the instance or the certificate.
pub type BoundVerdict = Result<Option<i128>, Reason>;

// ---- what is known about all solutions of an instance, before any is read

/// What is known about all solutions of an instance, before any is read.
#[derive(Clone, Copy, Debug, PartialEq, Eq)]
pub struct KnownBound {
    /// For TYPE CVRP, the least number of routes: no plan of the instance has fewer.
    pub least: Option<u64>,
    /// What the certificate gives, or the first reason that applies to the instance or the
    /// certificate. Without a certificate it is `None` if no reason applies to the instance.
    pub found: Option<BoundVerdict>,
}

impl KnownBound {
    ghost use Rattle.std.specs.Prelude.{◌≡◌};
    ghost use Rattle.tsp_report.specs.Verdicts.{is_clear};

    /// Whether solutions are judged one by one: no reason applies to the instance or the
    /// certificate.
    pub fn is_clear(self) -> bool
        ensures { result ≡ is_clear self }
    {
        match self.found {
            None => true,
            Some(found) => found.is_ok(),
        }
    }
}

// ---- the table of reasons, a row each: name, rank, file and numbers

/// The row of a reason: its name, its rank, the file that it is about, and its numbers.
#[derive(Clone, Copy, Debug)]
pub struct ReasonRow {
    /// Its name in a report.
    pub name: &'static str,
    /// Its place in the order in which reasons are judged, from 1.
    pub rank: u32,
    /// The file that it is about.
    pub role: Role,
    /// Its numbers, of which it has two at most.
    pub numbers: (Option<i64>, Option<i64>),
}

/// The name, rank, file and numbers of a reason, as reports print them.
pub fn row_of_reason(reason: Reason) -> ReasonRow
    ensures name { result.name.now ≡ (row_of_reason reason).name }
    ensures rank { result.rank ≡ (row_of_reason reason).rank }
    ensures role { result.role ≡ (row_of_reason reason).role }
    ensures numbers { result.numbers ≡ (row_of_reason reason).numbers }
{
    match reason {
        Reason::NotASolution => row("NotASolution", 1, Solution, NONE),
        Reason::TooFewNodes => row("TooFewNodes", 2, Instance, NONE),
        Reason::NotSymmetric { i, j } => row("NotSymmetric", 3, Instance, two(i, j)),
        Reason::Dimension => row("Dimension", 4, Solution, NONE),
        Reason::TourCount => row("TourCount", 5, Solution, NONE),
        Reason::TourLength => row("TourLength", 6, Solution, NONE),
        Reason::DepotCount => row("DepotCount", 7, Instance, NONE),
        Reason::DepotDemand => row("DepotDemand", 8, Instance, NONE),
        Reason::FixedEdgesInRoutes => row("FixedEdgesInRoutes", 9, Instance, NONE),
        Reason::DepotInRoute { place } => row("DepotInRoute", 10, Solution, one(place)),
        Reason::NodeOutOfRange { place } => row("NodeOutOfRange", 11, Solution, one(place)),
        Reason::RepeatedNode { place } => row("RepeatedNode", 12, Solution, one(place)),
        Reason::FixedEdgeUnused { index } => row("FixedEdgeUnused", 13, Solution, one(index)),
        Reason::Unserved { node } => row("Unserved", 14, Solution, one(node)),
        Reason::Overload { route } => row("Overload", 15, Solution, one(route)),
        Reason::LengthClaimed { length } => row("LengthClaimed", 16, Solution, signed(length)),
        Reason::NotPotentials => row("NotPotentials", 17, Potentials, NONE),
        Reason::PotentialsDimension => row("PotentialsDimension", 18, Potentials, NONE),
        Reason::PotentialsKind => row("PotentialsKind", 19, Potentials, NONE),
        Reason::MultiplierNotFixed { index } => of_potentials("MultiplierNotFixed", 20, one(index)),
        Reason::MultiplierRepeated { index } => of_potentials("MultiplierRepeated", 21, one(index)),
        Reason::DualInfeasible { i, j } => row("DualInfeasible", 22, Potentials, two(i, j)),
        Reason::NotBranches => row("NotBranches", 23, Branches, NONE),
        Reason::BranchesDimension => row("BranchesDimension", 24, Branches, NONE),
        Reason::BadFamily { index } => row("BadComb", 25, Branches, one(index)),
        Reason::BadMemory { node } => row("BadMemory", 26, Branches, one(node)),
        Reason::BadRow { index } => row("BadRow", 27, Branches, one(index)),
        Reason::BadBranch { index } => row("BadBranch", 28, Branches, one(index)),
        Reason::BranchTwice { index } => row("BranchTwice", 29, Branches, one(index)),
        Reason::BadLeaf { index } => row("BadLeaf", 30, Branches, one(index)),
        Reason::TooManyLoads => row("TooManyLoads", 31, Branches, NONE),
        Reason::TooManyStates { index } => row("TooManyStates", 32, Branches, one(index)),
        Reason::NotJudged => row("NotJudged", 33, Instance, NONE),
        Reason::NotUsed { .. } => row("NotUsed", 34, Instance, NONE),
    }
}

/// The number of a reason for C. Unlike the rank, it never changes when a reason is added.
pub fn number_of_reason(reason: Reason) -> u32
    ensures { result ≡ number_of_reason reason }
{
    match reason {
        Reason::BadBranch { .. } => 26,
        Reason::BranchTwice { .. } => 27,
        Reason::BadLeaf { .. } => 28,
        Reason::TooManyLoads => 29,
        Reason::NotJudged => 30,
        Reason::BadMemory { .. } => 31,
        Reason::BadRow { .. } => 32,
        Reason::TooManyStates { .. } => 33,
        _ => row_of_reason(reason).rank,
    }
}

/// The numbers of a reason that has none.
const NONE: (Option<i64>, Option<i64>) = (None, None);

/// The numbers of a reason that has one.
fn one(number: u32) -> (Option<i64>, Option<i64>)
    ensures { result ≡ (Some (pos number), None) }
{
    (Some(i64::from(number)), None)
}

/// The number of a reason that has one, which may be below 0.
fn signed(number: i64) -> (Option<i64>, Option<i64>)
    ensures { result ≡ (Some number, None) }
{
    (Some(number), None)
}

/// The numbers of a reason that has two.
fn two(first: u32, second: u32) -> (Option<i64>, Option<i64>)
    ensures { result ≡ (Some (pos first), Some (pos second)) }
{
    (Some(i64::from(first)), Some(i64::from(second)))
}

/// The row of a reason about potentials.
fn of_potentials(name: &'static str, rank: u32, numbers: (Option<i64>, Option<i64>)) -> ReasonRow
    ensures name { result.name.now ≡ name.now }
    ensures rank { result.rank ≡ rank }
    ensures role { result.role ≡ Potentials }
    ensures numbers { result.numbers ≡ numbers }
{
    row(name, rank, Potentials, numbers)
}

/// A row of these.
fn row(name: &'static str, rank: u32, role: Role, numbers: (Option<i64>, Option<i64>)) -> ReasonRow
    ensures name { result.name.now ≡ name.now }
    ensures rank { result.rank ≡ rank }
    ensures role { result.role ≡ role }
    ensures numbers { result.numbers ≡ numbers }
{
    ReasonRow {
        name,
        rank,
        role,
        numbers,
    }
}
