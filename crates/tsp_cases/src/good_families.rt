//! Judges the COMB_SECTION of a branches file for tours: finds the first bad family, or how often
//! cycles cross each. Lone sets and combs have known numbers; `family.rt` counts for other
//! families. tsp_branch calls it. `specs/Families.antt` pins which families are good.

ghost use Rattle.tsp_cases.specs.Prelude.{All, Any, ℕ, IsTrue, [], length, true, IfOk, IfSome, false, IsNode};
ghost use Rattle.std.specs.Prelude.{◌≡◌, ◌≤◌, ◌<◌, ◌-◌, ◌+◌, ◌^◌, ◌↔◌};
ghost use Rattle.tsp_cases.specs.Families.{IsTooth, comb_of, IsLoneSet, least_crossings_of, IsGoodComb, IsToothCount, HasEachOnce};
ghost use Rattle.tsp_cases.specs.Crossings.{has, AreSetsOf, lists_of};
ghost use Rattle.tsp_cases.specs.JudgedTrees.{AreFamiliesJudged};
ghost use Rattle.tsp_cases.specs.states.GoodFamilies.{AreFamilyNumbers, IsSmall, is_marked, AreUnmarked, HavePlaces, AddsNoOther, AreTeeth};

use crate::case_tree::BranchingCertificate;
use crate::family::{Crossings, Families, NodeSets, family_crossings};
use crate::judged::JudgedFamilies;
use crate::laws::most_costs_are_unique;
use crate::sets::mark_nodes;
use std::alloc::Global;
use tsp_io::{Refused, filled, push};
use tsp_theory::Costs;

/// The families of a tree with their crossings, or the first bad family.
///
/// Two nodes are in the same part if they are in the same sets. A family is bad if it has a node
/// twice in a set; or if it is neither a lone set nor a comb and has more than 63 sets, more than
/// 14 parts, or only one. The first bad family is counted from 1.
///
/// # Errors
///
/// If memory runs out. It allocates an entry for each node and for each family.
pub fn judge_families<'a, C: Costs>(
    alloc: Global,
    tree: &BranchingCertificate<'a, C>,
) -> Result<JudgedFamilies<'a>, Refused>
    ensures { IfOk result (AreFamiliesJudged (C.nodes tree.now.costs.now) tree.now.families.now) }
{
    let nodes = tree.costs.count();
    let mut handles = filled(alloc, 0, nodes as usize + 1)?;
    let mut teeth = filled(alloc, 0, nodes as usize + 1)?;
    let mut crossed = Vec::new(alloc);
    'families: for number in 0..tree.families.len() {
        // Marks from 1 on, because 0 means no mark.
        let mark = number as u32 + 1;
        let own = NodeSets {
            nodes,
            sets: &tree.families[number],
        };
        let found = crossings_of(alloc, &mut handles, &mut teeth, mark, &own)?;
        let Some(numbers) = found else {
            return Ok(JudgedFamilies::Bad(number + 1));
        };
        push(&mut crossed, numbers)?;
    }
    Ok(JudgedFamilies::Good(Families {
        nodes,
        lent: tree.families,
        crossed,
    }))
}

/// The crossings of a family with these sets, the handle first; `None` if the family isn't good.
///
/// # Errors
///
/// Out of memory.
fn crossings_of(
    alloc: Global,
    handles: &mut [u32],
    used: &mut [u32],
    mark: u32,
    family: &NodeSets,
) -> Result<Option<Crossings>, Refused>
    requires handle_places { length handles.old ≡ family.now.nodes + 1 }
    requires tooth_places { length used.old ≡ family.now.nodes + 1 }
    requires fresh_handle { AreUnmarked handles.old mark }
    requires fresh_teeth { AreUnmarked used.old mark }
    ensures found { IfOk result (AreFamilyNumbers family.now.nodes (lists_of family.now.sets.now)) }
    ensures small { IfOk result (λ found. IfSome found IsSmall) }
    ensures handle_others { AddsNoOther mark handles.old handles.new }
    ensures tooth_others { AddsNoOther mark used.old used.new }
    ensures handle_length { length handles.new ≡ length handles.old }
    ensures tooth_length { length used.new ≡ length used.old }
{
    if is_comb(handles, used, mark, family.sets) {
        return Ok(Some(known_crossings(family.sets.len())));
    }
    other_crossings(alloc, family)
}

/// The crossings of a lone set or a comb with this many sets: every cycle crosses a lone set at
/// least twice, and the handle and the k teeth of a comb at least 3k + 1 times.
fn known_crossings(sets: usize) -> Crossings
    requires { sets < 2 ^ 32 }
    ensures least { result.least ≡ least_crossings_of (sets - 1) }
    ensures most { result.most ≡ 3 }
    ensures small { IsSmall result }
{
    let least = if sets <= 1 { 2 } else { 3 * sets as u64 - 2 };
    Crossings { least, most: 3 }
}

/// Whether the sets, the handle first, are a lone set or a comb, without a node twice in a set.
///
/// The nodes of the handle get the mark in `handles`, and those of the teeth get it in `used`. No
/// node has this mark before.
fn is_comb(handles: &mut [u32], used: &mut [u32], mark: u32, sets: &[Vec<u32>]) -> bool
    requires handle_places { HavePlaces handles.old sets.now }
    requires tooth_places { HavePlaces used.old sets.now }
    requires fresh_handle { AreUnmarked handles.old mark }
    requires fresh_teeth { AreUnmarked used.old mark }
    ensures comb { (n : ℕ) → length handles.old ≡ n + 1 → AreSetsOf n sets.now
        → (IsTrue result ↔ IsGoodComb n (lists_of sets.now)) }
    ensures handle_others { AddsNoOther mark handles.old handles.new }
    ensures tooth_others { AddsNoOther mark used.old used.new }
    ensures handle_length { length handles.new ≡ length handles.old }
    ensures tooth_length { length used.new ≡ length used.old }
{
    let Some((handle, teeth)) = sets.split_first() else {
        return false;
    };
    if !mark_nodes(handles, mark, handle) {
        return false;
    }
    if teeth.is_empty() {
        return is_lone_set(handles, mark, handle);
    }
    if !is_tooth_count(teeth.len()) {
        return false;
    }
    are_teeth(handles, used, mark, teeth)
}

/// Whether the nodes with the mark are a lone set: at least one node, but not all.
fn is_lone_set(handles: &[u32], mark: u32, nodes: &[u32]) -> bool
    ensures { (n : ℕ) → length handles.now ≡ n + 1 → All (IsNode n) nodes.now
        → ((x : ℕ) → is_marked handles.now mark x ≡ has nodes.now x)
        → (IsTrue result ↔ IsLoneSet n (comb_of nodes.now [])) }
{
    !nodes.is_empty() && leaves_one_out(handles, mark)
}

/// Whether a comb can have this many teeth.
fn is_tooth_count(count: usize) -> bool
    ensures { IsTrue result ↔ IsToothCount count }
{
    count >= 3 && count % 2 == 1
}

/// Whether the sets are disjoint teeth of the handle, whose nodes have the mark in `handles`. Their
/// own nodes get the mark in `used`, which none of them may have before.
fn are_teeth(handles: &[u32], used: &mut [u32], mark: u32, teeth: &[Vec<u32>]) -> bool
    requires handle_places { HavePlaces handles.now teeth.now }
    requires tooth_places { HavePlaces used.old teeth.now }
    ensures teeth { (n : ℕ) → AreSetsOf n teeth.now → (IsTrue result
        ↔ AreTeeth n (is_marked handles.now mark) (is_marked used.old mark) (lists_of teeth.now)) }
    ensures others { AddsNoOther mark used.old used.new }
    ensures length { length used.new ≡ length used.old }
{
    'teeth: for tooth in teeth {
        let nodes: &[u32] = tooth;
        if !mark_nodes(used, mark, nodes) {
            return false;
        }
        if !is_tooth(handles, mark, nodes) {
            return false;
        }
    }
    true
}

/// Whether the nodes are a tooth of the handle, whose nodes have the mark: some inside it, some
/// outside.
fn is_tooth(handles: &[u32], mark: u32, nodes: &[u32]) -> bool
    requires { All (λ node. node < length handles.now) nodes.now }
    ensures { (n : ℕ) → All (IsNode n) nodes.now
        → (IsTrue result ↔ IsTooth n (is_marked handles.now mark) (has nodes.now)) }
{
    has_node(handles, mark, nodes, true) && has_node(handles, mark, nodes, false)
}

// ---- the crossings of families that are neither a lone set nor a comb

/// The crossings of sets that are neither a lone set nor a comb. `None` if a set has a node twice,
/// if there are more than 63 sets, or if they make more than 14 parts or only one.
///
/// # Errors
///
/// If memory runs out. It allocates an entry for each node.
fn other_crossings(alloc: Global, family: &NodeSets) -> Result<Option<Crossings>, Refused>
    ensures found { (IsGoodComb family.now.nodes (lists_of family.now.sets.now) → ⊥)
        → IfOk result (AreFamilyNumbers family.now.nodes (lists_of family.now.sets.now)) }
    ensures small { IfOk result (λ found. IfSome found IsSmall) }
{
    let once = have_each_once(alloc, family)?;
    if !once {
        return Ok(None);
    }
    let found = family_crossings(alloc, family)?;
    let Some(own) = found else {
        return Ok(None);
    };
    most_costs_are_unique();
    // If no edge crosses a set, all nodes are in one part.
    if own.most == 0 {
        return Ok(None);
    }
    Ok(Some(own))
}

/// Whether no set has a node twice.
///
/// # Errors
///
/// If memory runs out. It allocates an entry for each node.
fn have_each_once(alloc: Global, family: &NodeSets) -> Result<bool, Refused>
    ensures { IfOk result (λ once. IsTrue once ↔ All HasEachOnce (lists_of family.now.sets.now)) }
{
    let mut marks = filled(alloc, 0, family.nodes as usize + 1)?;
    'sets: for index in 0..family.sets.len() {
        // Marks from 1 on, because 0 means no mark.
        if !mark_nodes(&mut marks, index as u32 + 1, &family.sets[index]) {
            return Ok(false);
        }
    }
    Ok(true)
}

// ---- which nodes have a mark

/// Whether one of the nodes has the mark, or if `wanted` is false, whether one hasn't got it.
fn has_node(marks: &[u32], mark: u32, nodes: &[u32], wanted: bool) -> bool
    requires { All (λ node. node < length marks.now) nodes.now }
    ensures { IsTrue result ↔ Any (λ node. is_marked marks.now mark node ≡ wanted) nodes.now }
{
    'nodes: for node in nodes {
        let marked = marks[*node as usize] == mark;
        if marked == wanted {
            return true;
        }
    }
    false
}

/// Whether some node hasn't got the mark. It looks at no more than one node beyond the number of
/// marked ones.
fn leaves_one_out(marks: &[u32], mark: u32) -> bool
    ensures { IsTrue result ↔ ((node : ℕ) × (1 ≤ node) × (node < length marks.now)
        × (is_marked marks.now mark node ≡ false)) }
{
    'places: for place in 1..marks.len() {
        if marks[place] != mark {
            return true;
        }
    }
    false
}
