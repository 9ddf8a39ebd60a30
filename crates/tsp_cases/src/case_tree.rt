//! Judges a tree of cases: first its branches, then its leaves. `judge_cases` finds the first branch
//! that isn't on two nodes, otherwise the first on a pair that is decided already; the report names
//! its number, as `AreCasesJudged` in `specs/JudgedTrees.antt` counts it. `judge_leaves` passes once
//! over BRANCH_SECTION and judges each leaf by a `LeafJudge`: tsp_branch has one for tours,
//! tsp_routing has some for routes. The result is the least bound or the first bad leaf, which
//! `AreJudgedBy` in `specs/JudgedLeaves.antt` pins.

ghost use Rattle.std.specs.Prelude.{◌≡◌, ◌≤◌, ◌<◌, ◌^◌, ◌+◌, ◌∷◌, ◌++◌, ◌↔◌};
ghost use Rattle.tsp_cases.specs.Cases.{DecideOnce, cases_of, leaves_of, LeafNumbers};
ghost use Rattle.tsp_cases.specs.Crossings.{AreFamiliesOf};
ghost use Rattle.tsp_cases.specs.Families.{};
ghost use Rattle.tsp_cases.specs.JudgedLeaves.{AreJudgedBy, IsSizedVerdict, IsJudgedLeaf, IsSizedLeaf, IsFoundOfCase, IsLowest};
ghost use Rattle.tsp_cases.specs.JudgedTrees.{AreCasesJudged};
ghost use Rattle.tsp_cases.specs.ListedCases.{AreBranchesWithin, IsStepOf, IsListedStep, AreBranchesJudged, listed_steps, all_grown};
ghost use Rattle.tsp_cases.specs.Prelude.{All, IfOk, true, false, length, are_whole, steps_of, IsScale, IsSymmetric, [], ℕ, ℤ, Bool, List, Option, IsTrue, pos, neg_ℤ, take, IsNode, IsFromTo};
ghost use Rattle.tsp_cases.specs.declared.decision.Decision.{Decision};
ghost use Rattle.tsp_cases.specs.states.OpenCases.{AreSmall, IsDecision, IsNextStack, stack_of, IsOpenCase, decisions_in};

use crate::decision::Decision;
use crate::judged::{CheckedTree, JudgedCases, JudgedLeaf, TreeVerdict};
use crate::open_case::OpenCase;
use std::alloc::Global;
use tsp_format::TreeStep;
use tsp_io::{Refused, filled};
use tsp_theory::Costs;

/// The cases of a tree, or its first bad branch.
///
/// A branch is bad if it isn't on two nodes. If none is, the first branch on a pair that is given,
/// or decided above it, is returned. Branches count from 1.
///
/// # Errors
///
/// Out of memory. It allocates memory for each node, each decision of a case and each given
/// decision.
pub fn judge_cases<'a, C: Costs>(
    alloc: Global,
    tree: &BranchingCertificate<'a, C>,
) -> Result<JudgedCases<'a>, Refused>
    ensures { IfOk result (AreCasesJudged (C.nodes tree.now.costs.now) tree.now.directed tree.now.scale tree.now.given.now
        tree.now.steps.now) }
{
    let nodes = tree.costs.count();
    if let Some(branch) = first_bad_branch(tree.steps, 1, nodes) {
        return Ok(JudgedCases::BadBranch(branch));
    }
    if let Some(branch) = first_twice(alloc, tree)? {
        return Ok(JudgedCases::Twice(branch));
    }
    Ok(JudgedCases::Good(CheckedTree {
        nodes,
        directed: tree.directed,
        scale: tree.scale,
        given: tree.given,
        steps: tree.steps,
    }))
}

/// The first branch on a pair that is given, or decided above it, counted from 1. `None` if every
/// case decides a pair at most once. Two pairs are the same in the same order of nodes if pairs are
/// directed, and in either order if they aren't.
///
/// # Errors
///
/// Out of memory.
fn first_twice<C: Costs>(
    alloc: Global,
    tree: &BranchingCertificate<C>,
) -> Result<Option<usize>, Refused>
    requires { ∥ All (IsStepOf (C.nodes tree.now.costs.now)) (steps_of tree.now.steps.now) ∥₁ }
    ensures { IfOk result (AreBranchesJudged tree.now.directed tree.now.given.now (steps_of tree.now.steps.now)) }
{
    let nodes = tree.costs.count();
    let mut case = OpenCase::new(alloc, nodes, tree.directed, tree.given)?;
    let mut count = 0;
    'steps: for step in tree.steps {
        match step {
            TreeStep::Branch(first, second) => {
                count += 1;
                let pair = (*first, *second);
                if case.decides(pair) {
                    return Ok(Some(count));
                }
                case.take(pair)?;
            }
            TreeStep::Leaf(_) => {
                if !case.next()? {
                    return Ok(None);
                }
            }
        }
    }
    Ok(None)
}

// ---- the first branch of a tree of cases whose first number is out of range

/// The first branch whose first number is out of range. Branches count from 1.
pub fn first_bad_branch(steps: &[TreeStep], least: u32, most: u32) -> Option<usize>
    ensures { AreBranchesWithin least most (steps_of steps.now) result }
{
    let mut count = 0;
    'branches: for step in steps {
        if let TreeStep::Branch(first, _) = step {
            count += 1;
            if *first < least || most < *first {
                return Some(count);
            }
        }
    }
    None
}

// ---- a certificate by branching for tours

/// A tree of cases and the costs that it is for.
///
/// There are three or more nodes, and the costs are symmetric if pairs have no direction. Sets,
/// decisions and branches that begin at a node are of these nodes. No pair is given twice, and the
/// steps are one whole tree.
#[derive(Drop)]
pub struct BranchingCertificate<'a, C: Costs> {
    pub costs: &'a C,
    /// Whether pairs have a direction.
    pub directed: bool,
    /// Potentials and multipliers are counts of 1 / scale.
    pub scale: i64,
    /// The families, each as its sets: for a comb the handle, then the teeth. A lone set is a
    /// handle without teeth.
    pub families: &'a [Vec<Vec<u32>>],
    /// The decisions that hold in all cases.
    pub given: &'a [Decision],
    /// The branches and leaves.
    pub steps: &'a [TreeStep],
    pub ghost some: { 3 ≤ C.nodes costs.now },
    pub ghost even: { directed ≡ false → IsSymmetric (C.at costs.now) },
    pub ghost scaled: { IsScale scale },
    pub ghost few_families: { length families.now < 2 ^ 32 },
    pub ghost few_sets: { All (λ sets. length sets.items < 2 ^ 32) families.now },
    pub ghost few_given: { length given.now < 2 ^ 32 },
    pub ghost few_steps: { length steps.now < 2 ^ 32 },
    pub ghost sets_are: { AreFamiliesOf (C.nodes costs.now) families.now },
    pub ghost given_are: { All (IsDecision (C.nodes costs.now)) given.now },
    pub ghost given_once: { DecideOnce directed given.now },
    pub ghost steps_are: { ∥ All (IsListedStep (C.nodes costs.now)) (steps_of steps.now) ∥₁ },
    pub ghost whole: { are_whole 1 (steps_of steps.now) ≡ true },
}

// ---- one pass that judges each leaf

/// Judges the leaves of a tree, in order: the least bound, or the first bad leaf.
///
/// A leaf is bad if one of its indexes is past the `count` numbers, or if its numbers aren't good.
/// The first bad leaf is counted from 1. `memory` begins in the state for the given decisions.
///
/// # Errors
///
/// If memory runs out. It allocates an entry for each place, each number, and each decision of a
/// case.
pub fn judge_leaves<J: LeafJudge>(
    alloc: Global,
    judge: &J,
    tree: &WholeTree,
    memory: &mut J::Memory,
    count: usize,
) -> Result<TreeVerdict, Refused>
    requires places { tree.now.places ≡ J.places judge.now }
    requires direction { tree.now.directed ≡ J.directed judge.now }
    requires count { count ≡ J.nodes judge.now + J.family_count judge.now }
    requires memory { J.holds judge.now memory.old tree.now.given.now }
    requires fits { All (J.fits judge.now) (cases_of (leaves_of (tree.now.given.now ∷ [])
        (listed_steps (J.nodes judge.now) (J.family_count judge.now) (steps_of tree.now.steps.now)))) }
    ensures judged { IfOk result (AreJudgedBy (J.found judge.now) (J.good judge.now) (J.nodes judge.now) (J.family_count judge.now)
        tree.now.given.now (steps_of tree.now.steps.now)) }
    ensures size { IfOk result IsSizedVerdict }
{
    let mut numbers = filled(alloc, 0, count)?;
    let mut case = OpenCase::new(alloc, tree.places, tree.directed, tree.given)?;
    let mut lowest = None;
    let mut leaf = 0;
    'steps: for step in tree.steps {
        match step {
            TreeStep::Branch(first, second) => {
                let pair = (*first, *second);
                case.take(pair)?;
                judge.enter(&mut *memory, Decision { pair, taken: true });
            }
            TreeStep::Leaf(changes) => {
                leaf += 1;
                let judged = judge_next_leaf(
                    alloc,
                    judge,
                    &case,
                    changes,
                    &mut numbers,
                    &mut *memory,
                )?;
                let JudgedLeaf::Found(own) = judged else {
                    return Ok(TreeVerdict::BadLeaf(leaf));
                };
                lowest = lesser_bound(lowest, own);
                judge.leave(&mut *memory, &case.stack);
                case.next()?;
            }
        }
    }
    Ok(TreeVerdict::Bound(lowest))
}

/// Judges a leaf. Its numbers are those of the leaf before it, plus its `changes`.
///
/// # Errors
///
/// Out of memory.
fn judge_next_leaf<J: LeafJudge>(
    alloc: Global,
    judge: &J,
    case: &OpenCase,
    changes: &[(u32, i64)],
    numbers: &mut [i128],
    memory: &mut J::Memory,
) -> Result<JudgedLeaf, Refused>
    requires few_changes { length changes.now < 2 ^ 32 }
    requires small { AreSmall numbers.old }
    requires case { IsOpenCase (J.places judge.now) case.now }
    requires direction { case.now.by_node.directed ≡ J.directed judge.now }
    requires fits { J.fits judge.now (decisions_in case.now) }
    requires few { length (decisions_in case.now) < 2 ^ 33 }
    requires numbers { length numbers.old ≡ J.nodes judge.now + J.family_count judge.now }
    requires memory { J.holds judge.now memory.old (decisions_in case.now) }
    ensures judged { IfOk result (IsJudgedLeaf (J.found judge.now) (J.good judge.now) (J.nodes judge.now) (J.family_count judge.now)
        (decisions_in case.now) numbers.old changes.now numbers.new) }
    ensures memory { IfOk result (λ judged. J.holds judge.now memory.new (decisions_in case.now)) }
    ensures numbers { length numbers.new ≡ length numbers.old }
    ensures size { IfOk result IsSizedLeaf }
{
    if !add_differences(&mut *numbers, changes) {
        return Ok(JudgedLeaf::Bad);
    }
    judge.judge(alloc, case, &*numbers, memory)
}

// ---- the trait `LeafJudge`

/// Judges the leaves of a tree of cases: [`judge_leaves`](crate::judge_leaves) calls it for one
/// leaf after the other.
///
/// A leaf has a number for each node, followed by one for each family. The decisions of a case are
/// listed with the last one first.
pub trait LeafJudge {
    /// What the judge keeps from leaf to leaf, and overwrites.
    type Memory;

    ghost nodes: { Self → ℕ };

    ghost family_count: { Self → ℕ };

    // Decisions are on pairs of 1 to this number.
    ghost places: { Self → ℕ };

    ghost directed: { Self → Bool };

    // This is known about the case of each leaf.
    ghost fits: { Self → List Decision → Type 0 };

    // The numbers of a leaf are good.
    ghost good: { Self → LeafNumbers → Type 0 };

    // This is found for a leaf.
    ghost found: { Self → List Decision × LeafNumbers → Option ℤ → Type 0 };

    // The memory is that of the case with these decisions.
    ghost holds: { Self → Self.Memory → List Decision → Type 0 };

    /// Goes on to the case with one decision more.
    fn enter(&self, memory: &mut Self::Memory, decision: Decision)
        requires decision { IsDecision (places self.now) decision }
        requires memory { (case : List Decision) × holds self.now memory.old case }
        ensures { (case : List Decision) → holds self.now memory.old case → holds self.now memory.new (decision ∷ case) };

    /// Leaves a leaf for the next open case, as the stack of decisions does: the decisions after
    /// the last taken pair are dropped, and this pair is avoided.
    fn leave(&self, memory: &mut Self::Memory, stack: &[Decision])
        requires { (given : List Decision) × holds self.now memory.old (stack_of stack.now ++ given)
            × All (IsDecision (places self.now)) (stack_of stack.now ++ given) }
        ensures { (given : List Decision) (is_open : Bool) (next : List Decision)
            → holds self.now memory.old (stack_of stack.now ++ given)
            → All (IsDecision (places self.now)) (stack_of stack.now ++ given) → IsNextStack stack.now is_open next
            → holds self.now memory.new (stack_of next ++ given) };

    /// Judges a leaf of the open case: its bound, or that it is bad.
    ///
    /// # Errors
    ///
    /// Out of memory.
    fn judge(
        &self,
        alloc: Global,
        case: &OpenCase,
        numbers: &[i128],
        memory: &mut Self::Memory,
    ) -> Result<JudgedLeaf, Refused>
        requires case { IsOpenCase (places self.now) case.now }
        requires direction { case.now.by_node.directed ≡ directed self.now }
        requires fits { fits self.now (decisions_in case.now) }
        requires few { length (decisions_in case.now) < 2 ^ 33 }
        requires numbers { length numbers.now ≡ nodes self.now + family_count self.now }
        requires memory { holds self.now memory.old (decisions_in case.now) }
        ensures found { IfOk result (IsFoundOfCase (found self.now) (good self.now) (nodes self.now)
            (decisions_in case.now) numbers.now) }
        ensures memory { IfOk result (λ judged. holds self.now memory.new (decisions_in case.now)) }
        ensures size { IfOk result IsSizedLeaf };
}

// ---- the steps of one whole tree of cases, with the decisions of all cases

/// The steps of one whole tree, and the decisions that hold in all its cases. A branch has two
/// different numbers from 1 to `places`: two nodes for tours, and for routes n + k, which stands
/// for family k, and a limit.
#[derive(Drop)]
pub struct WholeTree<'a> {
    pub places: u32,
    /// Whether pairs have a direction.
    pub directed: bool,
    pub given: &'a [Decision],
    pub steps: &'a [TreeStep],
    pub ghost few_given: { length given.now < 2 ^ 32 },
    pub ghost few_steps: { length steps.now < 2 ^ 32 },
    pub ghost given_are: { All (IsDecision places) given.now },
    pub ghost steps_are: { ∥ All (IsStepOf places) (steps_of steps.now) ∥₁ },
    pub ghost whole: { are_whole 1 (steps_of steps.now) ≡ true },
}

// ---- the numbers of a leaf

/// Adds differences to the numbers at their indexes, counted from 1. `false` if an index is out of
/// range.
pub fn add_differences(numbers: &mut [i128], changes: &[(u32, i64)]) -> bool
    requires few { length changes.now < 2 ^ 32 }
    requires sizes { All (IsFromTo (neg_ℤ (pos (2 ^ 64))) (pos (2 ^ 64))) numbers.old }
    ensures inside { IsTrue result ↔ All (λ change. IsNode (length numbers.old) change.0) changes.now }
    ensures grown { result ≡ true → numbers.new ≡ all_grown changes.now numbers.old }
    ensures length { length numbers.new ≡ length numbers.old }
{
    'changes: for change in changes {
        let index = change.0 as usize;
        if index == 0 || numbers.len() < index {
            return false;
        }
        numbers[index - 1] += i128::from(change.1);
    }
    true
}

/// Copies numbers if all of them are from `least` to `most`. `false` if one isn't.
pub fn copy_within(numbers: &[i128], least: i64, most: i64, copy: &mut [i64]) -> bool
    requires { length copy.old ≡ length numbers.now }
    ensures inside { IsTrue result ↔ All (IsFromTo least most) numbers.now }
    ensures copied { result ≡ true → copy.new ≡ numbers.now }
    ensures length { length copy.new ≡ length copy.old }
{
    'numbers: for index in 0..numbers.len() {
        let number = numbers[index];
        if number < i128::from(least) || i128::from(most) < number {
            return false;
        }
        copy[index] = number as i64;
    }
    true
}

// ---- the lesser of two bounds, each of which may be missing

/// The lesser of two bounds, each of which may be missing.
fn lesser_bound(lowest: Option<i128>, own: Option<i128>) -> Option<i128>
    ensures { IsLowest lowest own result }
{
    let Some(low) = lowest else {
        return own;
    };
    let Some(bound) = own else {
        return lowest;
    };
    Some(if low < bound { low } else { bound })
}
