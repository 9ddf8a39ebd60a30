//! What the judges of families, branches and leaves return: the good ones, or the number of the
//! first bad one, which becomes a reason in the report. Also `CheckedTree`, a tree of cases whose
//! branches are all good. tsp_branch and tsp_routing make a `TreeVerdict`, and tsp_verdict reads
//! it.

ghost use Rattle.tsp_cases.specs.Prelude.{All, ℕ, [], true, length, are_whole, steps_of, IsScale};
ghost use Rattle.std.specs.Prelude.{◌≡◌, ◌<◌, ◌-◌, ◌^◌, ◌∷◌};
ghost use Rattle.tsp_cases.specs.Cases.{DecideOnce, cases_of, leaves_of};
ghost use Rattle.tsp_cases.specs.ListedCases.{IsStepOf, listed_steps};
ghost use Rattle.tsp_cases.specs.states.OpenCases.{IsDecision};

use crate::decision::Decision;
use crate::family::Families;
use tsp_format::TreeStep;

/// The judgement on the families of a certificate: all of them, or the first bad one.
#[derive(Drop)]
pub enum JudgedFamilies<'a> {
    /// All are good.
    Good(Families<'a>),
    /// The first bad family, counted from 1.
    Bad(usize),
}

/// The judgement on the cases of a tree.
#[derive(Drop)]
pub enum JudgedCases<'a> {
    /// Each branch is on two nodes, and no case decides a pair twice.
    Good(CheckedTree<'a>),
    /// The first branch that isn't on two nodes, counted from 1.
    BadBranch(usize),
    /// The first branch on a pair that is decided above it or given, counted from 1.
    Twice(usize),
}

/// The verdict on a tree of cases, for tours and for routes: its bound, or its first fault.
/// Families, rows, branches and leaves count from 1.
#[derive(Drop)]
pub enum TreeVerdict {
    /// The least bound of a leaf: no solution that keeps the given decisions is shorter. `None` if
    /// no leaf has one: then no solution keeps them. For routes, a solution is a plan without empty
    /// routes.
    Bound(Option<i128>),
    /// The first bad family. For routes, a good one is a single set of customers.
    BadFamily(usize),
    /// The customer of the first bad list: one with a node that isn't a customer, with a customer
    /// twice, or whose first customer has an earlier list. If all lists and rows are good, the
    /// first customer that keeps more than 64 customers and rows. Only routes have lists.
    BadMemory(u32),
    /// The first row with fewer than two customers in its set, or with a node that isn't a customer
    /// or comes twice. Only routes have rows.
    BadRow(usize),
    /// The first branch that isn't on two nodes, or for routes on one of the families.
    BadBranch(usize),
    /// The first branch on a pair that is decided above it or given. Only tours have it.
    BranchTwice(usize),
    /// The first leaf that isn't good.
    BadLeaf(usize),
    /// A table by node and load would have more than 10,000,000 entries. Only routes have it.
    TooManyLoads,
    /// The first leaf whose runs have more than 10,000,000 kept states. Only routes have it.
    TooManyStates(usize),
}

/// The judgement on a leaf: its bound, or that it is bad.
#[derive(Drop)]
pub enum JudgedLeaf {
    /// The leaf is good, and this is its bound. `None` if it has none: then no solution keeps its
    /// decisions.
    Found(Option<i128>),
    /// The leaf is bad: a number is, or, if tsp_routing judges it by runs, there are too many kept
    /// states.
    Bad,
}

// ---- the steps of a tree of cases in which no case decides a pair twice, with its scale

/// The cases of one whole tree of branches on pairs of nodes, over given decisions, in which no
/// case decides a pair twice; and a scale for the numbers of its leaves.
///
/// [`judge_cases`](crate::judge_cases) makes this value.
#[derive(Drop)]
pub struct CheckedTree<'a> {
    pub nodes: u32,
    pub directed: bool,
    pub scale: i64,
    pub given: &'a [Decision],
    pub steps: &'a [TreeStep],
    pub ghost few_nodes: { nodes < 2 ^ 32 - 1 },
    pub ghost scaled: { IsScale scale },
    pub ghost few_given: { length given.now < 2 ^ 32 },
    pub ghost few_steps: { length steps.now < 2 ^ 32 },
    pub ghost given_are: { All (IsDecision nodes) given.now },
    pub ghost steps_are: { ∥ All (IsStepOf nodes) (steps_of steps.now) ∥₁ },
    pub ghost whole: { are_whole 1 (steps_of steps.now) ≡ true },
    pub ghost once: { (n family_count : ℕ) → All (DecideOnce directed)
        (cases_of (leaves_of (given.now ∷ []) (listed_steps n family_count (steps_of steps.now)))) },
}
