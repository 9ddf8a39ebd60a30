//! What the leaves of a branches file for tours share: `LeafContext`, which doesn't change;
//! `Scratch`, which each leaf overwrites; and `KeptRows`, rows of weights without potentials, which
//! a leaf only updates. `tour_verdict.rt` judges leaves with them. Keeping rows affects only speed:
//! without them, a leaf has the same bound.

ghost use Rattle.tsp_branch.specs.Prelude.{Vec, w64, int_wrap, All, ℕ, ℤ, length, slice_index_or, IfOk, neg_ℤ, false, IsNode, IsFromTo, IsMoved, IsSymmetric, least_at};
ghost use Rattle.std.specs.Prelude.{◌≡◌, ◌≤◌, ◌<◌, ◌+◌, ◌-◌, ◌≢◌, ◌+ℤ◌, ◌*ℤ◌};
ghost use Rattle.tsp_cases.specs.Cases.{decided_number};
ghost use Rattle.tsp_cases.specs.states.Sets.{AreSmallDifferences, inside_both, lent_in, IsPlaceIn, IsSetTable};
ghost use Rattle.tsp_cases.specs.states.OpenCases.{signed};
ghost use Rattle.tsp_branch.specs.states.KeptRows.{IsKeptRow, AreRows, AreRowsIfAny, AreAdded, IsAddedAt, AreDifferences};

use std::alloc::Global;
use tsp_cases::{
    CheckedTree, DECIDED, Decision, Families, MultipliedFamilies, Multipliers, SetPlace, add_sets,
    scale_row, take_multipliers,
};
use tsp_io::{Refused, filled, push, with_capacity};
use tsp_theory::{Costs, add_at};

/// Rows are kept for at most this many nodes. They take 32 MB.
const MOST_KEPT: u32 = 2_000;

/// A row of weights for each node, without potentials: the costs at the scale, what sets that
/// contain both nodes add, and, if pairs have no direction, the numbers of decided pairs.
///
/// Most leaves change only potentials, so they share these rows. A decision is marked once, at its
/// branch, and unmarked when its case ends. No rows are kept if boxes are expected to be faster, if
/// there are more than 2,000 nodes, or if there is no memory for them.
#[derive(Drop)]
pub(crate) struct KeptRows {
    /// A row for each node, or none at all.
    pub(crate) rows: Vec<Vec<i64>>,
    /// For each node, how much the multipliers of its sets lower its potential.
    pub(crate) ends: Vec<i64>,
    /// The multipliers that `rows` and `ends` are up to date with.
    pub(crate) multipliers: Vec<i64>,
    /// Scratch space for the differences to the multipliers of the next leaf.
    pub(crate) differences: Vec<i64>,
}

impl KeptRows {
    ghost use Rattle.std.specs.Prelude.{◌≡◌, ◌+ℤ◌, ◌++◌, ◌∷◌, [], ℕ, ℤ, Bool, false, List, length, IfOk};
    ghost use Rattle.std.specs.List.{All};
    ghost use Rattle.tsp_cases.specs.states.Sets.{IsSetTable, lent_in};
    ghost use Rattle.tsp_cases.specs.declared.decision.Decision.{Decision};
    ghost use Rattle.tsp_cases.specs.states.OpenCases.{IsDecision, IsNextStack, marks_in, stack_of};
    ghost use Rattle.tsp_branch.specs.states.KeptRows.{HoldsRows, AreTwoNodes, added_between};

    /// The rows for multipliers that are all 0 and the given decisions, if rows are to be kept.
    ///
    /// # Errors
    ///
    /// Out of memory for the numbers of combs and nodes. Without memory for the rows, none are
    /// kept.
    pub(crate) fn new<C: Costs>(
        alloc: Global,
        context: &LeafContext<C>,
        are_kept: bool,
    ) -> Result<KeptRows, Refused>
        ensures { IfOk result (HoldsRows (C.nodes context.now.costs.now) (length context.now.families.now.crossed.items)
            context.now.cases.now.scale (lent_in context.now.families.now) (C.at context.now.costs.now)
            (marks_in context.now.cases.now.directed context.now.cases.now.given.now)) }
    {
        let family_count = context.families.crossed.len();
        let multipliers = filled(alloc, 0, family_count)?;
        let differences = filled(alloc, 0, family_count)?;
        let ends = filled(alloc, 0, context.costs.count() as usize + 1)?;
        let mut kept = KeptRows {
            rows: rows_if_any(alloc, context, are_kept),
            ends,
            multipliers,
            differences,
        };
        kept.mark_given(context.cases);
        Ok(kept)
    }

    /// Marks the decisions that are given for all cases.
    fn mark_given(&mut self, cases: &CheckedTree)
        requires { (n : ℕ) × (family_count : ℕ) × (scale : ℤ) × (families : List (List (List ℕ))) × (cost : ℕ → ℕ → ℤ)
            × HoldsRows n family_count scale families cost (marks_in cases.now.directed []) self.old
            × All (IsDecision n) cases.now.given.now }
        ensures { (n family_count : ℕ) (scale : ℤ) (families : List (List (List ℕ))) (cost : ℕ → ℕ → ℤ)
            → HoldsRows n family_count scale families cost (marks_in cases.now.directed []) self.old
            → All (IsDecision n) cases.now.given.now
            → HoldsRows n family_count scale families cost (marks_in cases.now.directed cases.now.given.now) self.new }
    {
        let mut left = cases.given.len();
        'given: while left > 0 {
            left -= 1;
            self.mark(cases.directed, cases.given[left]);
        }
    }

    /// Marks a decision by adding its number between its nodes, if pairs have no direction.
    pub(crate) fn mark(&mut self, directed: bool, decision: Decision)
        requires { (n : ℕ) × (family_count : ℕ) × (scale : ℤ) × (families : List (List (List ℕ))) × (cost : ℕ → ℕ → ℤ)
            × (case : List Decision) × HoldsRows n family_count scale families cost (marks_in directed case) self.old
            × IsDecision n decision }
        ensures { (n family_count : ℕ) (scale : ℤ) (families : List (List (List ℕ))) (cost : ℕ → ℕ → ℤ) (case : List Decision)
            → HoldsRows n family_count scale families cost (marks_in directed case) self.old → IsDecision n decision
            → HoldsRows n family_count scale families cost (marks_in directed (decision ∷ case)) self.new }
    {
        if directed {
            return;
        }
        self.add_between(decision.pair, number_of(decision));
    }

    /// Removes the mark of a decision.
    fn unmark(&mut self, decision: Decision)
        requires { (n : ℕ) × (family_count : ℕ) × (scale : ℤ) × (families : List (List (List ℕ))) × (cost : ℕ → ℕ → ℤ)
            × (case : List Decision) × HoldsRows n family_count scale families cost (marks_in false (decision ∷ case)) self.old
            × IsDecision n decision }
        ensures { (n family_count : ℕ) (scale : ℤ) (families : List (List (List ℕ))) (cost : ℕ → ℕ → ℤ) (case : List Decision)
            → HoldsRows n family_count scale families cost (marks_in false (decision ∷ case)) self.old → IsDecision n decision
            → HoldsRows n family_count scale families cost (marks_in false case) self.new }
    {
        self.add_between(decision.pair, -number_of(decision));
    }

    /// Undoes the marks of decisions that the next open case doesn't have.
    ///
    /// These are the decisions above the last taken pair on the stack. That pair is then marked as
    /// avoided.
    pub(crate) fn leave(&mut self, directed: bool, stack: &[Decision])
        requires { (n : ℕ) × (family_count : ℕ) × (scale : ℤ) × (families : List (List (List ℕ))) × (cost : ℕ → ℕ → ℤ)
            × (given : List Decision)
            × HoldsRows n family_count scale families cost (marks_in directed (stack_of stack.now ++ given)) self.old
            × All (IsDecision n) (stack_of stack.now ++ given) }
        ensures { (n family_count : ℕ) (scale : ℤ) (families : List (List (List ℕ))) (cost : ℕ → ℕ → ℤ) (given : List Decision)
            (is_open : Bool) (next : List Decision)
            → HoldsRows n family_count scale families cost (marks_in directed (stack_of stack.now ++ given)) self.old
            → All (IsDecision n) (stack_of stack.now ++ given) → IsNextStack stack.now is_open next
            → HoldsRows n family_count scale families cost (marks_in directed (stack_of next ++ given)) self.new }
    {
        if directed {
            return;
        }
        let mut left = stack.len();
        'leave: while left > 0 {
            left -= 1;
            let last = stack[left];
            self.unmark(last);
            if last.taken {
                let turned = Decision {
                    pair: last.pair,
                    taken: false,
                };
                self.mark(directed, turned);
                return;
            }
        }
    }

    /// Adds a number to the weight between two nodes, in the rows of both.
    fn add_between(&mut self, pair: (u32, u32), number: i64)
        requires { (n : ℕ) × (family_count : ℕ) × (scale : ℤ) × (families : List (List (List ℕ))) × (cost : ℕ → ℕ → ℤ)
            × (marks : ℕ → ℕ → ℤ) × HoldsRows n family_count scale families cost marks self.old × AreTwoNodes n pair }
        ensures { (n family_count : ℕ) (scale : ℤ) (families : List (List (List ℕ))) (cost marks : ℕ → ℕ → ℤ)
            → HoldsRows n family_count scale families cost marks self.old → AreTwoNodes n pair
            → HoldsRows n family_count scale families cost (λ i x. added_between pair number i x +ℤ marks i x) self.new }
    {
        if self.rows.is_empty() {
            return;
        }
        let (first, second) = pair;
        add_in_row(&mut self.rows, first, second, number);
        add_in_row(&mut self.rows, second, first, number);
    }

    /// Brings the rows up to date with the multipliers of another leaf.
    pub(crate) fn bring_to(&mut self, multipliers: &Multipliers, by_node: &[Vec<SetPlace>])
        requires kept { (n : ℕ) × (scale : ℤ) × (cost : ℕ → ℕ → ℤ) × (marks : ℕ → ℕ → ℤ)
            × HoldsRows n (length multipliers.now.numbers.now) scale (lent_in multipliers.now.families.now) cost marks self.old
            × (multipliers.now.families.now.nodes ≡ n) × IsSetTable n (lent_in multipliers.now.families.now) by_node.now }
        ensures kept { (n : ℕ) (scale : ℤ) (cost marks : ℕ → ℕ → ℤ)
            → HoldsRows n (length multipliers.now.numbers.now) scale (lent_in multipliers.now.families.now) cost marks self.old
            → IsSetTable n (lent_in multipliers.now.families.now) by_node.now
            → HoldsRows n (length multipliers.now.numbers.now) scale (lent_in multipliers.now.families.now) cost marks self.new }
        ensures multipliers { self.new.multipliers.items ≡ multipliers.now.numbers.now }
    {
        if self.multipliers.as_slice() == multipliers.numbers {
            return;
        }
        let old = Multipliers {
            families: multipliers.families,
            numbers: &self.multipliers,
        };
        write_differences(&mut self.differences, &old, multipliers);
        self.multipliers.copy_from_slice(multipliers.numbers);
        let changed = MultipliedFamilies {
            families: multipliers.families,
            numbers: &self.differences,
        };
        take_multipliers(&mut self.ends, &changed);
        add_to_rows(&mut self.rows, by_node, &changed);
    }
}

/// The rows of all nodes without combs; empty if none are wanted, if there are too many nodes, or
/// if there is too little memory.
fn rows_if_any<C: Costs>(alloc: Global, context: &LeafContext<C>, are_kept: bool) -> Vec<Vec<i64>>
    ensures { AreRowsIfAny (C.nodes context.now.costs.now) (C.at context.now.costs.now)
        (λ i x. context.now.cases.now.scale *ℤ C.at context.now.costs.now i x) result.items }
{
    if !are_kept || context.costs.count() > MOST_KEPT {
        return Vec::new(alloc);
    }
    match rows_of(alloc, context) {
        Ok(rows) => rows,
        Err(_) => Vec::new(alloc),
    }
}

/// The rows of all nodes without combs.
///
/// # Errors
///
/// Out of memory.
#[tactic(auto, using(crate::proofs::RowsKept::rows_more))]
fn rows_of<C: Costs>(alloc: Global, context: &LeafContext<C>) -> Result<Vec<Vec<i64>>, Refused>
    ensures { IfOk result (λ rows. AreRows (C.nodes context.now.costs.now) (C.at context.now.costs.now)
        (λ i x. context.now.cases.now.scale *ℤ C.at context.now.costs.now i x) (C.nodes context.now.costs.now) rows.items) }
{
    let count = context.costs.count();
    let mut rows = with_capacity(alloc, count as usize)?;
    'rows: for index in 0..count {
        push(&mut rows, row_of(alloc, context, index + 1)?)?;
    }
    Ok(rows)
}

/// The costs from a node to every node, times the scale, each at the place of its node.
///
/// # Errors
///
/// Out of memory.
fn row_of<C: Costs>(alloc: Global, context: &LeafContext<C>, from: u32) -> Result<Vec<i64>, Refused>
    requires { IsNode (C.nodes context.now.costs.now) from }
    ensures { IfOk result (λ row. IsKeptRow (C.nodes context.now.costs.now) (C.at context.now.costs.now from)
        (λ x. context.now.cases.now.scale *ℤ C.at context.now.costs.now from x) row.items) }
{
    let mut row = filled(alloc, 0, context.costs.count() as usize + 1)?;
    context.costs.costs_from(from, &mut row);
    scale_row(&mut row, context.cases.scale);
    Ok(row)
}

/// Writes by how much each multiplier has grown.
fn write_differences(differences: &mut [i64], old: &Multipliers, new: &Multipliers)
    requires differences { length differences.old ≡ length new.now.numbers.now }
    requires old { length old.now.numbers.now ≡ length new.now.numbers.now }
    ensures differences { AreDifferences old.now.numbers.now new.now.numbers.now differences.new }
    ensures small { AreSmallDifferences differences.new }
{
    'numbers: for index in 0..new.numbers.len() {
        differences[index] = new.numbers[index] - old.numbers[index];
    }
}

/// Adds to the row of each node, at every node that shares a set with it, twice the number of the
/// set's family.
fn add_to_rows(rows: &mut [Vec<i64>], by_node: &[Vec<SetPlace>], multiplied: &MultipliedFamilies)
    requires table { length rows.old < length by_node.now }
    requires places { All (λ list. All (IsPlaceIn (lent_in multiplied.now.families.now)) list.items) by_node.now }
    requires rows { All (λ row. length row.items ≡ multiplied.now.families.now.nodes + 1) rows.old }
    ensures { AreAdded multiplied.now.numbers.now (lent_in multiplied.now.families.now) by_node.now rows.old rows.new }
{
    'rows: for index in 0..rows.len() {
        add_to_row(&mut rows[index], &by_node[index + 1], multiplied);
    }
}

/// Adds to one row what `add_to_rows` adds to the row of its node.
fn add_to_row(row: &mut Vec<i64>, places: &[SetPlace], multiplied: &MultipliedFamilies)
    requires places { All (IsPlaceIn (lent_in multiplied.now.families.now)) places.now }
    requires row { length row.old.items ≡ multiplied.now.families.now.nodes + 1 }
    ensures moved { (x : ℕ) → IsMoved (inside_both multiplied.now.numbers.now (lent_in multiplied.now.families.now) places.now x)
        (least_at row.old.items x) (least_at row.new.items x) }
    ensures long { length row.new.items ≡ length row.old.items }
{
    add_sets(row, places, multiplied);
}

/// What a decision adds to the weight of its pair.
fn number_of(decision: Decision) -> i64
    ensures value { result ≡ signed decision.taken }
    ensures size { IsFromTo (neg_ℤ decided_number) decided_number result }
{
    if decision.taken { -DECIDED } else { DECIDED }
}

/// Adds a number to the row of a node, at the place of another.
fn add_in_row(rows: &mut Vec<Vec<i64>>, of: u32, place: u32, number: i64)
    requires of { 1 ≤ of }
    requires row { of - 1 < length rows.old.items }
    requires place { (row : Vec ℤ) → place < length (slice_index_or rows.old.items (of - 1) row).items }
    ensures { IsAddedAt (of - 1) place number rows.old.items rows.new.items }
{
    add_to_place(&mut rows[of as usize - 1], place, number);
}

/// Adds a number to a row at a place.
fn add_to_place(row: &mut Vec<i64>, place: u32, number: i64)
    requires { place < length row.old.items }
    ensures here { least_at row.new.items place ≡ int_wrap w64 (least_at row.old.items place +ℤ number) }
    ensures others { (x : ℕ) → x ≢ place → least_at row.new.items x ≡ least_at row.old.items x }
    ensures long { length row.new.items ≡ length row.old.items }
{
    add_at(row, place, number);
}

// ---- the memory that each leaf for tours overwrites

/// The rows as the leaf before left them, and scratch space for the numbers of a leaf and two rows
/// of its weights.
#[derive(Drop)]
pub(crate) struct Scratch {
    /// The number of each node.
    pub(crate) potentials: Vec<i64>,
    /// The number of each family.
    pub(crate) multipliers: Vec<i64>,
    /// A row of weights.
    pub(crate) row: Vec<i64>,
    /// By node, its potential less the multipliers of its sets, as `fill_moved` writes it.
    pub(crate) moved: Vec<i64>,
    /// The rows that leaves share.
    pub(crate) kept: KeptRows,
}

impl Scratch {
    ghost use Rattle.std.specs.Prelude.{◌≡◌, length, IfOk};
    ghost use Rattle.tsp_cases.specs.states.Sets.{lent_in};
    ghost use Rattle.tsp_cases.specs.states.OpenCases.{marks_in};
    ghost use Rattle.tsp_branch.specs.states.KeptRows.{HoldsRows, IsScratch};

    /// Scratch space for the leaves of a certificate, with kept rows if `are_kept` is set.
    ///
    /// There are never any kept rows if there are too many nodes or too little memory.
    ///
    /// # Errors
    ///
    /// Out of memory.
    pub(crate) fn new<C: Costs>(
        alloc: Global,
        context: &LeafContext<C>,
        are_kept: bool,
    ) -> Result<Scratch, Refused>
        ensures room { IfOk result (IsScratch (C.nodes context.now.costs.now) (length context.now.families.now.crossed.items)) }
        ensures kept { IfOk result (λ room. HoldsRows (C.nodes context.now.costs.now)
            (length context.now.families.now.crossed.items) context.now.cases.now.scale
            (lent_in context.now.families.now) (C.at context.now.costs.now)
            (marks_in context.now.cases.now.directed context.now.cases.now.given.now) room.kept) }
    {
        let nodes = context.costs.count() as usize;
        let family_count = context.families.crossed.len();
        Ok(Scratch {
            potentials: filled(alloc, 0, nodes)?,
            multipliers: filled(alloc, 0, family_count)?,
            row: filled(alloc, 0, nodes + 1)?,
            moved: filled(alloc, 0, nodes + 1)?,
            kept: KeptRows::new(alloc, context, are_kept)?,
        })
    }
}

// ---- what all leaves of a certificate for tours share: costs, cases, families

/// What all leaves of a certificate for tours have in common.
///
/// If pairs have no direction, the costs are symmetric, and the bound of a leaf is that of a
/// minimum 1-tree. If they have a direction, it is the sum of the least arcs from each node.
#[derive(Drop)]
pub(crate) struct LeafContext<'a, C: Costs> {
    pub(crate) costs: &'a C,
    /// The tree of cases, with its scale.
    pub(crate) cases: &'a CheckedTree<'a>,
    pub(crate) families: &'a Families<'a>,
    /// For each node from 0 on, the sets that contain it.
    pub(crate) by_node: &'a [Vec<SetPlace>],
    ghost some: { 3 ≤ C.nodes costs.now },
    ghost even: { cases.now.directed ≡ false → IsSymmetric (C.at costs.now) },
    ghost own: { cases.now.nodes ≡ C.nodes costs.now },
    ghost same: { families.now.nodes ≡ C.nodes costs.now },
    ghost table: { IsSetTable (C.nodes costs.now) (lent_in families.now) by_node.now },
}
