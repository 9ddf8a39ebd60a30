//! `SectionBuilder`, the list that the open section fills: a variant for each shape of section, and
//! the one `match` by which `reading.rt` and `plain_numbers.rt` pass words on. Also reading a word
//! as a node or an index, which all lists share, and the list for FIXED_EDGE_POTENTIAL_SECTION.
//! Contracts here and in `specs/states/Parts.antt` pin the lists.

ghost use Rattle.tsp_read.specs.Prelude.{ForSome, [], ℕ, List, IfOk, IfErr, pos, true, false, length, slice_index_or, Ok, None, IfSome, MatchResult, Some, whole_of, node, node_or_end, is_minus_one, IsWhole};
ghost use Rattle.std.specs.Prelude.{◌≡◌, ◌≤◌, ◌∷◌, ◌++◌, ◌<◌, ◌-◌, ◌^◌};
ghost use Rattle.tsp_read.specs.states.Parts.{as_number, as_node_or_end, as_index_or_leaf, IsNodeOf, IsNewNode};

use crate::list_sections::{DepotList, FixedList, TourList, WeightList};
use crate::memory_lists::{MemoryList, RowList};
use crate::node_sections::{NumberList, PointList};
use crate::step_fault::StepFault;
use crate::tree_sections::{FamilyList, TreeList};
use std::alloc::Global;
use std::mem;
use tsp_format::{MOST_MATRIX_NODES, MOST_MULTIPLIER, MOST_MULTIPLIERS, MOST_NODES, Shape};
use tsp_io::{Refused, push};
use tsp_number::{NumberFault, parse_whole};
use tsp_text::LineFault;

/// A section so far, by its shape.
#[derive(Drop)]
pub enum SectionBuilder {
    Numbers(NumberList),
    Points(PointList),
    Depots(DepotList),
    Pairs(FixedList),
    Weights(WeightList),
    Tours(TourList),
    Triples(TripleList),
    Families(FamilyList),
    Memories(MemoryList),
    SubsetRows(RowList),
    Steps(TreeList),
}

impl SectionBuilder {
    ghost use Rattle.tsp_format.specs.declared.keyword.Shape.TheVariants as shapes;
    ghost use Rattle.tsp_text.specs.Earlier.{place_by};
    ghost use Rattle.tsp_read.specs.states.Parts.{Takes};
    ghost use Rattle.tsp_read.specs.states.HeldParts.{shape_by, HoldsPart, HoldsShape};

    /// An empty list for a section of this shape, in a file of `n` nodes.
    ///
    /// `n` is at most the limit on the nodes of a file.
    ///
    /// # Errors
    ///
    /// Out of memory.
    pub fn open(alloc: Global, shape: Shape, n: u32) -> Result<SectionBuilder, Refused>
        requires { shape ≡ shapes.Weights → n ≤ MOST_MATRIX_NODES }
        ensures { IfOk result (λ part. n ≤ MOST_NODES → HoldsShape shape part n []) }
    {
        Ok(match shape {
            Shape::Numbers { low, high } => SectionBuilder::Numbers(NumberList::open(
                alloc, n, low, high,
            )?),
            Shape::Points => SectionBuilder::Points(PointList::open(alloc, n, false)?),
            Shape::SpacePoints => SectionBuilder::Points(PointList::open(alloc, n, true)?),
            Shape::Depots => SectionBuilder::Depots(DepotList::open(alloc, n)),
            Shape::Pairs => SectionBuilder::Pairs(FixedList::open(alloc, n)),
            Shape::Weights => SectionBuilder::Weights(WeightList::open(alloc, n)),
            Shape::Tours => SectionBuilder::Tours(TourList::open(alloc)),
            Shape::Triples => SectionBuilder::Triples(TripleList::open(alloc, n)),
            Shape::Families => SectionBuilder::Families(FamilyList::open(alloc, n)),
            Shape::Memories => SectionBuilder::Memories(MemoryList::open(alloc, n)),
            Shape::SubsetRows => SectionBuilder::SubsetRows(RowList::open(alloc, n)),
            Shape::Steps => SectionBuilder::Steps(TreeList::open(alloc, n)),
        })
    }

    /// Takes the next word of the section.
    ///
    /// # Errors
    ///
    /// - `Fault`: the first fault of the word at its place, in the order of `specs/FaultRows.antt`
    ///   in tsp_text.
    /// - `Memory`: out of memory.
    ///
    /// The list then has the words from before.
    pub fn push(&mut self, alloc: Global, word: &[u8]) -> Result<(), StepFault>
        ensures takes { (n : ℕ) (words : List (List ℕ)) → HoldsPart self.old n words
            → Takes n (place_by (shape_by self.old) n words) word.now
            (HoldsShape (shape_by self.old) self.new n (words ++ word.now ∷ [])) result }
        ensures kept { IfErr result (λ _. (n : ℕ) (words : List (List ℕ))
            → HoldsPart self.old n words → HoldsShape (shape_by self.old) self.new n words) }
    {
        match self {
            SectionBuilder::Numbers(part) => part.push(word),
            SectionBuilder::Points(part) => part.push(word),
            SectionBuilder::Depots(part) => part.push(word),
            SectionBuilder::Pairs(part) => part.push(word),
            SectionBuilder::Weights(part) => part.push(word),
            SectionBuilder::Tours(part) => part.push(alloc, word),
            SectionBuilder::Triples(part) => part.push(word),
            SectionBuilder::Families(part) => part.push(alloc, word),
            SectionBuilder::Memories(part) => part.push(alloc, word),
            SectionBuilder::SubsetRows(part) => part.push(alloc, word),
            SectionBuilder::Steps(part) => part.push(alloc, word),
        }
    }
}

// ---- reads a word of a section as a node

/// A node of 1..n.
pub(crate) fn read_node(word: &[u8], n: u32) -> Result<u32, NumberFault>
    ensures read { node n word.now ≡ as_number result }
    ensures within { IfOk result (λ k. IsNodeOf n k) }
{
    let node = parse_whole(word, 1, i64::from(n))?;
    Ok(node as u32)
}

/// A node of 1..n, or `None` for the -1 that ends a list.
pub(crate) fn read_node_or_end(word: &[u8], n: u32) -> Result<Option<u32>, NumberFault>
    ensures read { node_or_end n word.now ≡ as_node_or_end result }
    ensures within { IfOk result (λ found. ForSome found (λ k. IsNodeOf n k)) }
{
    match parse_whole(word, -1, i64::from(n))? {
        -1 => Ok(None),
        0 => Err(NumberFault::OutOfRange),
        node => Ok(Some(node as u32)),
    }
}

/// An index of 1..last, or `None` for the 0 that begins a leaf.
pub(crate) fn read_index_or_leaf(word: &[u8], last: u32) -> Result<Option<u32>, NumberFault>
    ensures read { whole_of word.now (pos 0) (pos last) ≡ as_index_or_leaf result }
    ensures within { IfOk result (λ found. ForSome found (λ k. IsNodeOf last k)) }
{
    match parse_whole(word, 0, i64::from(last))? {
        0 => Ok(None),
        index => Ok(Some(index as u32)),
    }
}

/// The node of a new group, read from a word: a node without a mark.
pub(crate) fn new_node(seen: &[bool], word: &[u8]) -> Result<u32, LineFault>
    requires { length seen.now < 2 ^ 32 }
    ensures { IsNewNode seen.now word.now result }
{
    match read_node(word, seen.len() as u32) {
        Ok(node) => {
            if seen[node as usize - 1] {
                return Err(LineFault::RepeatedNode);
            }
            Ok(node)
        }
        Err(fault) => Err(LineFault::Number(fault)),
    }
}

/// The node of a new group, given as a number: `None` if there is no such node without a mark.
#[inline(always)]
pub(crate) fn unmarked_node(seen: &[bool], number: i64) -> Option<u32>
    requires { length seen.now < 2 ^ 32 }
    ensures new { IfSome result (λ node. (word : List ℕ) → IsWhole word number
        → IsNewNode seen.now word (Ok node)) }
    ensures within { IfSome result (λ node. IsNodeOf (length seen.now) node) }
    ensures none { result ≡ None → (k : ℕ) → number ≡ pos k → IsNodeOf (length seen.now) k
        → slice_index_or seen.now (k - 1) false ≡ true }
{
    let Ok(node) = u32::try_from(number) else {
        return None;
    };
    if node < 1 || node as usize > seen.len() || seen[node as usize - 1] {
        return None;
    }
    Some(node)
}

/// Whether a word is the two bytes `-1`.
pub(crate) fn is_minus_one(word: &[u8]) -> bool
    ensures { result ≡ is_minus_one word.now }
{
    word == b"-1".as_slice()
}

// ---- moves a finished list into a list of lists

/// Moves a list to the end of a list of lists, and leaves an empty one in its place.
///
/// Room is made first, so nothing has moved if memory is refused.
///
/// # Errors
///
/// Out of memory; both lists stay as they were.
pub(crate) fn move_to_end<T: Drop>(
    alloc: Global,
    lists: &mut Vec<Vec<T>>,
    list: &mut Vec<T>,
) -> Result<(), Refused>
    ensures lists { MatchResult result
        (λ done. lists.new.items ≡ lists.old.items ++ list.old ∷ [])
        (λ refused. lists.new.items ≡ lists.old.items) }
    ensures list { MatchResult result (λ done. list.new.items ≡ [])
        (λ refused. list.new ≡ list.old) }
{
    push(lists, Vec::new(alloc))?;
    let last = lists.len() - 1;
    lists[last] = mem::replace(list, Vec::new(alloc));
    Ok(())
}

// ---- the list that takes the words of FIXED_EDGE_POTENTIAL_SECTION

/// FIXED_EDGE_POTENTIAL_SECTION so far: triples of two nodes and the multiplier of their edge.
#[derive(Drop)]
pub struct TripleList {
    n: u32,
    triples: Vec<(u32, u32, i64)>,
    first: Option<u32>,
    second: Option<u32>,
    ended: bool,
}

impl TripleList {
    ghost use Rattle.tsp_read.specs.Prelude.{place_of_triple, fixed_triples_in, wants_more};
    ghost use Rattle.tsp_read.specs.states.Parts.{Takes};
    ghost use Rattle.tsp_read.specs.states.HeldParts.{HoldsTriples};

    /// The list at the opening of the section, in a file of `n` nodes.
    pub fn open(alloc: Global, n: u32) -> TripleList
        ensures { HoldsTriples result n [] }
    {
        TripleList {
            n,
            triples: Vec::new(alloc),
            first: None,
            second: None,
            ended: false,
        }
    }

    /// Takes the next word.
    ///
    /// # Errors
    ///
    /// - `Fault`: the word isn't a node, a -1 where the list may end, or a number that a multiplier
    ///   may have (`Number`); the triple joins a node to itself (`SelfEdge`); there are as many
    ///   triples as a file may have (`Surplus`); or the list has ended (`AfterEnd`).
    /// - `Memory`: out of memory.
    ///
    /// The list then has the words from before.
    pub fn push(&mut self, word: &[u8]) -> Result<(), StepFault>
        ensures takes { (n : ℕ) (words : List (List ℕ)) → HoldsTriples self.old n words
            → Takes n (place_of_triple n words) word.now
            (HoldsTriples self.new n (words ++ word.now ∷ [])) result }
        ensures kept { IfErr result (λ _. (n : ℕ) (words : List (List ℕ))
            → HoldsTriples self.old n words → HoldsTriples self.new n words) }
    {
        if self.ended {
            if is_minus_one(word) {
                return Ok(());
            }
            return Err(StepFault::Fault(LineFault::AfterEnd));
        }
        match (self.first, self.second) {
            (None, _) => self.push_first(word),
            (Some(first), None) => self.push_second(first, word),
            (Some(first), Some(second)) => self.push_multiplier(first, second, word),
        }
    }

    /// Takes the first node of a triple, or the -1 that ends the list.
    fn push_first(&mut self, word: &[u8]) -> Result<(), StepFault>
        ensures takes { (n : ℕ) (words : List (List ℕ)) → HoldsTriples self.old n words
            → self.old.ended ≡ false → self.old.first ≡ None
            → Takes n (place_of_triple n words) word.now
            (HoldsTriples self.new n (words ++ word.now ∷ [])) result }
        ensures kept { IfErr result (λ _. (n : ℕ) (words : List (List ℕ))
            → HoldsTriples self.old n words → HoldsTriples self.new n words) }
    {
        let Some(node) = read_node_or_end(word, self.n)? else {
            self.ended = true;
            return Ok(());
        };
        if self.triples.len() >= MOST_MULTIPLIERS {
            return Err(StepFault::Fault(LineFault::Surplus));
        }
        self.first = Some(node);
        Ok(())
    }

    /// Takes the second node of a triple.
    fn push_second(&mut self, first: u32, word: &[u8]) -> Result<(), StepFault>
        ensures takes { (n : ℕ) (words : List (List ℕ)) → HoldsTriples self.old n words
            → self.old.ended ≡ false → self.old.first ≡ Some first → self.old.second ≡ None
            → Takes n (place_of_triple n words) word.now
            (HoldsTriples self.new n (words ++ word.now ∷ [])) result }
        ensures kept { IfErr result (λ _. (n : ℕ) (words : List (List ℕ))
            → HoldsTriples self.old n words → HoldsTriples self.new n words) }
    {
        let second = read_node(word, self.n)?;
        if second == first {
            return Err(StepFault::Fault(LineFault::SelfEdge));
        }
        self.second = Some(second);
        Ok(())
    }

    /// Takes the multiplier, which ends a triple.
    fn push_multiplier(&mut self, first: u32, second: u32, word: &[u8]) -> Result<(), StepFault>
        ensures takes { (n : ℕ) (words : List (List ℕ)) → HoldsTriples self.old n words
            → self.old.ended ≡ false → self.old.first ≡ Some first → self.old.second ≡ Some second
            → Takes n (place_of_triple n words) word.now
            (HoldsTriples self.new n (words ++ word.now ∷ [])) result }
        ensures kept { IfErr result (λ _. (n : ℕ) (words : List (List ℕ))
            → HoldsTriples self.old n words → HoldsTriples self.new n words) }
    {
        let multiplier = parse_whole(word, 0, MOST_MULTIPLIER)?;
        push(&mut self.triples, (first, second, multiplier))?;
        self.first = None;
        self.second = None;
        Ok(())
    }

    /// The triples, and whether the last one is incomplete.
    pub fn finish(self) -> (Vec<(u32, u32, i64)>, bool)
        ensures { (n : ℕ) (words : List (List ℕ)) → HoldsTriples self n words
            → (result.0.items ≡ fixed_triples_in n words)
            × (result.1 ≡ wants_more (place_of_triple n words)) }
    {
        let wants_more = self.first.is_some();
        (self.triples, wants_more)
    }
}
