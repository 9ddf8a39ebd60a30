//! One leaf of a branches file for tours and its bound: a minimum 1-tree for a TSP, least arcs for
//! an ATSP. `tour_verdict.rt` makes a `CaseLeaf` for each leaf. `IsFoundAt` in tsp_cases (by
//! `IsLeafBound` and `IsRowLeafBound`) pins the bound.

ghost use Rattle.tsp_branch.specs.Prelude.{All, filter, length, pos, neg_ℤ, ℕ, List, true, ℤ, IsNode, triples_total, total, IsScale, IsFromTo, least_at, IsMoved, multiplied, least_of, Allows, DecideOnce, on_taken, decided_number, AreFewCrossings, lent_in, good_in, marks_in, IsOnPlaces, IsChanged, change_of, changes, stack_of, IsOpenCase, decisions_in, bears_on};
ghost use Rattle.std.specs.Int.{w64, int_wrap};
ghost use Rattle.std.specs.Prelude.{◌≡◌, ◌+◌, ◌<◌, ◌^◌, ◌-ℤ◌, ◌*ℤ◌, ◌≤◌, ◌⊎◌, ◌≤ℤ◌, ◌≢◌};
ghost use Rattle.tsp_cases.specs.ListedCases.{AreGoodNumbers, as_leaf_numbers};
ghost use Rattle.tsp_cases.specs.declared.decision.Decision.{Decision};
ghost use Rattle.tsp_cases.specs.states.Sets.{AreMoved};
ghost use Rattle.tsp_branch.specs.states.KeptRows.{AreRowsIfAny, kept_weight};
ghost use Rattle.tsp_branch.specs.states.LeafRows.{no_link, IsOpenRow, IsShut};

use crate::boxed::bound_of_trees;
use crate::kept_rows::LeafContext;
use crate::leaf_numbers::sum_with;
use std::alloc::Global;
use tsp_cases::{DECIDED, Decision, Multipliers, OpenCase, sum_left};
use tsp_io::Refused;
use tsp_theory::{Costs, Weights, add_at, least_bound};

/// A leaf with good numbers.
#[derive(Drop)]
pub(crate) struct CaseLeaf<'a, C: Costs> {
    /// What it shares with all other leaves.
    pub(crate) context: &'a LeafContext<'a, C>,
    /// Its decisions.
    pub(crate) case: &'a OpenCase<'a>,
    pub(crate) potentials: &'a [i64],
    pub(crate) multipliers: &'a [i64],
    /// For each node, its potential less the multipliers of its sets; place 0 is unused.
    pub(crate) moved: &'a [i64],
    /// The kept rows, one of weights without potentials for each node; empty if none are kept.
    pub(crate) kept: &'a [Vec<i64>],
    ghost is_case: { IsOpenCase (C.nodes context.now.costs.now) case.now },
    ghost direction: { case.now.by_node.directed ≡ context.now.cases.now.directed },
    ghost once: { DecideOnce context.now.cases.now.directed (decisions_in case.now) },
    ghost few: { length (decisions_in case.now) < 2 ^ 33 },
    ghost numbers: { AreGoodNumbers (C.nodes context.now.costs.now) context.now.families.now.crossed.items
        (as_leaf_numbers potentials.now multipliers.now) },
    ghost crossed: { AreFewCrossings (C.nodes context.now.costs.now) multipliers.now (lent_in context.now.families.now) },
    ghost places: { length moved.now ≡ C.nodes context.now.costs.now + 1 },
    ghost are_moved: { AreMoved (C.nodes context.now.costs.now) potentials.now multipliers.now
        (lent_in context.now.families.now) moved.now },
    ghost are_kept: { AreRowsIfAny (C.nodes context.now.costs.now) (C.at context.now.costs.now)
        (kept_weight context.now.cases.now.scale (lent_in context.now.families.now) (C.at context.now.costs.now)
        (marks_in context.now.cases.now.directed (decisions_in case.now)) multipliers.now) kept.now },
}

impl<C: Costs> CaseLeaf<'_, C> {
    ghost use Rattle.tsp_branch.specs.Prelude.{true, false, length, Some, IfOk, IfSome, IsBoundSized, decided_number, IsFoundAt, good_in, decisions_in};
    ghost use Rattle.std.specs.Prelude.{◌≡◌, ◌+◌};
    ghost use Rattle.tsp_cases.specs.ListedCases.{as_leaf_numbers};

    /// The bound of the leaf; `None` if its decisions allow no arc from some node, so that no cycle
    /// keeps them. `row` is scratch space.
    ///
    /// # Errors
    ///
    /// Out of memory.
    pub(crate) fn bound(&self, alloc: Global, row: &mut [i64]) -> Result<Option<i128>, Refused>
        requires { length row.old ≡ C.nodes self.now.context.now.costs.now + 1 }
        ensures bound { IfOk result (IsFoundAt self.now.context.now.cases.now.directed
            (C.nodes self.now.context.now.costs.now)
            (C.at self.now.context.now.costs.now) self.now.context.now.cases.now.scale decided_number
            (good_in self.now.context.now.families.now)
            (decisions_in self.now.case.now, as_leaf_numbers self.now.potentials.now self.now.multipliers.now)) }
        ensures size { IfOk result (λ bound. IfSome bound IsBoundSized) }
    {
        if self.context.cases.directed {
            return Ok(self.bound_by_rows(row));
        }
        let bound = self.bound_by_trees(alloc, row)?;
        Ok(Some(bound))
    }

    /// The bound of a leaf of a TSP: the minimum 1-tree grows over kept rows if there are any,
    /// otherwise over boxes if nodes have places.
    ///
    /// # Errors
    ///
    /// Out of memory.
    fn bound_by_trees(&self, alloc: Global, row: &mut [i64]) -> Result<i128, Refused>
        requires undirected { self.now.context.now.cases.now.directed ≡ false }
        requires row { length row.old ≡ C.nodes self.now.context.now.costs.now + 1 }
        ensures bound { IfOk result (λ bound. IsFoundAt false (C.nodes self.now.context.now.costs.now)
            (C.at self.now.context.now.costs.now) self.now.context.now.cases.now.scale decided_number
            (good_in self.now.context.now.families.now)
            (decisions_in self.now.case.now, as_leaf_numbers self.now.potentials.now self.now.multipliers.now)
            (Some bound)) }
        ensures size { IfOk result (λ bound. IsBoundSized bound) }
    {
        // For the contract of `count`: there are at most 100,000 nodes.
        self.context.costs.count();
        let taken = taken_back(&self.case.by_node.taken);
        let sum = LeafSum {
            scale: self.context.cases.scale,
            given_back: taken + given_back(self),
        };
        bound_of_trees(alloc, self, row, sum)
    }

    /// The bound of a leaf of an ATSP, by the least arc from each node; `None` if the decisions
    /// allow no arc from some node.
    fn bound_by_rows(&self, row: &mut [i64]) -> Option<i128>
        requires directed { self.now.context.now.cases.now.directed ≡ true }
        requires row { length row.old ≡ C.nodes self.now.context.now.costs.now + 1 }
        ensures bound { IsFoundAt true (C.nodes self.now.context.now.costs.now)
            (C.at self.now.context.now.costs.now) self.now.context.now.cases.now.scale decided_number
            (good_in self.now.context.now.families.now)
            (decisions_in self.now.case.now, as_leaf_numbers self.now.potentials.now self.now.multipliers.now)
            result }
        ensures size { IfSome result IsBoundSized }
    {
        // The contract of `count` says that there are at most 100,000 nodes.
        self.context.costs.count();
        let rows = AllowedRows {
            weights: self,
            case: self.case,
        };
        let sum = LeafSum {
            scale: self.context.cases.scale,
            given_back: given_back(self),
        };
        rows.bound(row, sum)
    }
}

// ---- the sum that a leaf adds to its bound

/// What a leaf adds to its bound: for each family the least number of crossings times its
/// multiplier, less each potential twice. At most 2^98 in size.
fn given_back<C: Costs>(leaf: &CaseLeaf<C>) -> i128
    ensures value { result ≡ least_of (multiplied (good_in leaf.now.context.now.families.now) leaf.now.multipliers.now)
        -ℤ (pos 2 *ℤ total leaf.now.potentials.now) }
    ensures size { IsFromTo (neg_ℤ (pos (2 ^ 98))) (pos (2 ^ 98)) result }
{
    let multipliers = Multipliers {
        families: leaf.context.families,
        numbers: leaf.multipliers,
    };
    sum_with(false, &multipliers) - 2 * total(leaf)
}

/// The sum of a leaf's potentials.
fn total<C: Costs>(leaf: &CaseLeaf<C>) -> i128
    ensures value { result ≡ total leaf.now.potentials.now }
    ensures size { IsFromTo (neg_ℤ (pos (2 ^ 95))) (pos (2 ^ 95)) result }
{
    let mut sum = 0;
    'numbers: for number in leaf.potentials {
        sum += i128::from(*number);
    }
    sum
}

/// The sum of the taken pairs' numbers.
fn taken_back(taken: &[Decision]) -> i128
    requires { length taken.now < 2 ^ 33 }
    ensures value { result ≡ triples_total (on_taken decided_number taken.now) }
    ensures size { IsFromTo (pos 0) (pos (2 ^ 95)) result }
{
    let mut sum = 0;
    'decisions: for decision in taken {
        if decision.taken {
            sum += i128::from(DECIDED);
        }
    }
    sum
}

// ---- the change of a pair's weight by the decisions of a case

/// Applies decisions to the row of a node.
pub(crate) fn change_row(row: &mut [i64], decisions: &[Decision], from: u32)
    requires { All (IsOnPlaces (length row.old)) decisions.now }
    ensures { (x : ℕ) → IsMoved (changes decisions.now from x) (least_at row.old x) (least_at row.new x) }
{
    'decisions: for decision in decisions {
        change(row, *decision, from);
    }
}

/// Applies a decision to the row of a node, if its pair contains the node.
///
/// Two decisions on one pair may add up to more than 64 bits on the way, so sums wrap around.
fn change(row: &mut [i64], decision: Decision, from: u32)
    requires { IsOnPlaces (length row.old) decision }
    ensures { (x : ℕ) → IsChanged decision from x (least_at row.old x) (least_at row.new x) }
{
    let (first, second) = decision.pair;
    let number = if decision.taken { -DECIDED } else { DECIDED };
    // For the row of another node this adds 0, because a branch would be slower: it is seldom
    // predicted right.
    let other = if first == from { second } else { first };
    let is_at = first == from || second == from;
    add_at(row, other, if is_at { number } else { 0 });
}

/// What a decision adds to the weight between two nodes.
fn change_of(decision: Decision, from: u32, to: u32) -> i64
    ensures { result ≡ change_of decision from to }
{
    let (first, second) = decision.pair;
    if !((first == from && second == to) || (second == from && first == to)) {
        return 0;
    }
    if decision.taken { -DECIDED } else { DECIDED }
}

/// What decisions add to the weight between two nodes, wrapped to 64 bits.
pub(crate) fn change_between(decisions: &[Decision], from: u32, to: u32) -> i64
    ensures { int_wrap w64 result ≡ int_wrap w64 (changes decisions.now from to) }
{
    let mut sum = 0;
    'decisions: for decision in decisions {
        sum = sum_left(sum, change_of(*decision, from, to));
    }
    sum
}

// ---- the sum that a leaf adds to its bound, with the scale

/// What a leaf adds to the weight of a minimum 1-tree or of the least arcs, and the scale by which
/// their sum is divided to get its bound.
#[derive(Clone, Copy)]
pub(crate) struct LeafSum {
    pub(crate) scale: i64,
    /// At most 2^99 in size.
    pub(crate) given_back: i128,
    ghost scaled: { IsScale scale },
    ghost size: { IsFromTo (neg_ℤ (pos (2 ^ 99))) (pos (2 ^ 99)) given_back },
}

// ---- the bound of a leaf of an ATSP, by the least arc from each node

/// The weights of a leaf of an ATSP, by rows, and its decisions, which say which arcs are allowed.
#[derive(Drop)]
pub(crate) struct AllowedRows<'a, W: Weights> {
    pub(crate) weights: &'a W,
    pub(crate) case: &'a OpenCase<'a>,
    ghost is_case: { IsOpenCase (W.nodes weights.now) case.now },
    ghost direction: { case.now.by_node.directed ≡ true },
}

impl<W: Weights> AllowedRows<'_, W> {
    ghost use Rattle.tsp_branch.specs.Prelude.{ℕ, length, MatchOption, IfSome, IsNode, IsBoundSized, IsSumSized, decisions_in, IsAllowed, HasNoLink, IsLeastFrom, IsSumOfLeast, IsRowBound};
    ghost use Rattle.std.specs.Prelude.{◌≡◌, ◌+◌};
    ghost use Rattle.tsp_format.specs.Limits.{most_nodes};

    /// The bound of a leaf: the least integer that, times the scale, is at least the sum of the
    /// least allowed weights from all nodes plus `sum`. `None` if the decisions allow no arc from
    /// some node: then no cycle keeps them.
    ///
    /// # Requires
    ///
    /// A row with one place more than there are nodes. It is overwritten.
    pub(crate) fn bound(&self, row: &mut [i64], sum: LeafSum) -> Option<i128>
        requires room { length row.old ≡ W.nodes self.now.weights.now + 1 }
        ensures bound { MatchOption result (HasNoLink (W.nodes self.now.weights.now) (decisions_in self.now.case.now))
            (λ bound. IsRowBound (W.nodes self.now.weights.now) (W.at self.now.weights.now)
            (decisions_in self.now.case.now) sum.scale sum.given_back bound) }
        ensures size { IfSome result IsBoundSized }
    {
        let least = self.sum_of_least(row)?;
        Some(least_bound(sum.scale, least + sum.given_back))
    }

    /// The sum of the least weights of the allowed links from each node.
    fn sum_of_least(&self, row: &mut [i64]) -> Option<i128>
        requires { length row.old ≡ W.nodes self.now.weights.now + 1 }
        ensures sum { MatchOption result (HasNoLink (W.nodes self.now.weights.now) (decisions_in self.now.case.now))
            (λ sum. IsSumOfLeast (W.nodes self.now.weights.now) (W.at self.now.weights.now)
            (decisions_in self.now.case.now) (W.nodes self.now.weights.now) sum) }
        ensures size { IfSome result (IsSumSized most_nodes) }
    {
        let mut sum = 0;
        'nodes: for index in 0..self.weights.count() {
            let Some(least) = self.least_from(index + 1, row) else {
                return None;
            };
            sum += i128::from(least);
        }
        Some(sum)
    }

    /// The least weight of the allowed links from a node; `None` if no link is allowed.
    fn least_from(&self, from: u32, row: &mut [i64]) -> Option<i64>
        requires from { IsNode (W.nodes self.now.weights.now) from }
        requires room { length row.old ≡ W.nodes self.now.weights.now + 1 }
        ensures { MatchOption result
            ((x : ℕ) → IsAllowed (W.nodes self.now.weights.now) (decisions_in self.now.case.now) from x → ⊥)
            (λ least. IsLeastFrom (W.nodes self.now.weights.now) (W.at self.now.weights.now)
            (decisions_in self.now.case.now) from least) }
    {
        self.weights.fill(from, row);
        close_row(row, self.case.at(from), &self.case.by_node.taken, from);
        let least = least_in(row);
        if least == CLOSED {
            return None;
        }
        Some(least)
    }
}

/// Closes the node's own place in its row, and each link that some decision doesn't allow. The
/// decisions that matter begin at the node, or take a pair.
fn close_row(row: &mut [i64], own: &[Decision], taken: &[Decision], from: u32)
    requires own { All (λ decision. decision.pair.1 < length row.old) own.now }
    requires taken { All (λ decision. decision.pair.1 < length row.old) taken.now }
    requires from { from < length row.old }
    ensures { (n : ℕ) (w : ℕ → ℕ → ℤ) (case : List Decision) → n < length row.old
        → ((x : ℕ) → IsNode n x → least_at row.old x ≡ w from x)
        → stack_of own.now ≡ filter (bears_on true from) case
        → stack_of taken.now ≡ filter (λ decision. decision.taken) case → IsOpenRow n w case from row.new }
{
    shut(row, from);
    close_all(row, own, from);
    close_all(row, taken, from);
}

/// The least number of a row from place 1 on.
fn least_in(row: &[i64]) -> i64
    requires { 1 ≤ length row.now }
    ensures below { (x : ℕ) → 1 ≤ x → x < length row.now → result ≤ℤ least_at row.now x }
    ensures reached { (result ≡ no_link)
        ⊎ ((x : ℕ) × (1 ≤ x) × (x < length row.now) × (result ≡ least_at row.now x)) }
{
    let mut least = CLOSED;
    'places: for place in 1..row.len() {
        if row[place] < least {
            least = row[place];
        }
    }
    least
}

// ---- the row of a node's weights in which the arcs that decisions don't allow are closed

/// The weight of a closed link. All other weights are below it.
const CLOSED: i64 = i64::MAX;

/// Closes each link in the row of a node that some decision doesn't allow.
fn close_all(row: &mut [i64], decisions: &[Decision], from: u32)
    requires { All (λ decision. decision.pair.1 < length row.old) decisions.now }
    ensures { (x : ℕ) → x < length row.old
        → IsShut (All (Allows from x) decisions.now) (least_at row.old x) (least_at row.new x) }
{
    'decisions: for decision in decisions {
        close(row, *decision, from);
    }
}

/// Closes the links in the row of a node that a decision doesn't allow. A taken pair that begins at
/// the node leaves only its own link, one that begins elsewhere closes the link to its second node,
/// and an avoided pair that begins at the node closes that link.
fn close(row: &mut [i64], decision: Decision, from: u32)
    requires { decision.pair.1 < length row.old }
    ensures { (x : ℕ) → x < length row.old
        → IsShut (Allows from x decision) (least_at row.old x) (least_at row.new x) }
{
    let (first, second) = decision.pair;
    if !decision.taken {
        if first == from {
            shut(row, second);
        }
    } else if first == from {
        shut_others(row, second);
    } else {
        shut(row, second);
    }
}

/// Closes the link to a node in a row.
fn shut(row: &mut [i64], node: u32)
    requires { node < length row.old }
    ensures here { least_at row.new node ≡ no_link }
    ensures others { (x : ℕ) → x ≢ node → least_at row.new x ≡ least_at row.old x }
{
    row[node as usize] = CLOSED;
}

/// Closes all links but one.
fn shut_others(row: &mut [i64], node: u32)
    requires { node < length row.old }
    ensures here { least_at row.new node ≡ least_at row.old node }
    ensures others { (x : ℕ) → x < length row.old → x ≢ node → least_at row.new x ≡ no_link }
{
    let kept = row[node as usize];
    row.fill(CLOSED);
    row[node as usize] = kept;
}
