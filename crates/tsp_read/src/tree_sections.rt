//! Reads COMB_SECTION, families of sets of nodes (`FamilyList`), and BRANCH_SECTION, the steps of a
//! tree of cases (`TreeList`). `section_builder.rt` passes the words in. Only words, limits and the
//! end of each list are tested here, which tsp_text defines; tsp_verdict judges the tree and the
//! families.

ghost use Rattle.std.specs.Prelude.{◌≡◌, [], ℕ, List, ◌∷◌, ◌++◌, ◌<◌, length, OnOk, IfErr, false, ◌≢◌, ◌+◌, ◌≤◌, None, Some, true};

use crate::section_builder::{
    is_minus_one, move_to_end, read_index_or_leaf, read_node, read_node_or_end,
};
use crate::step_fault::StepFault;
use std::alloc::Global;
use std::mem;
use tsp_format::{
    MOST_BRANCHES, MOST_CHANGES, MOST_DIFFERENCE, MOST_FAMILIES, MOST_FAMILY_NODES, MOST_NODES,
    MOST_ROWS, TreeStep,
};
use tsp_io::{Refused, push};
use tsp_number::parse_whole;
use tsp_text::LineFault;

/// COMB_SECTION so far: the families that have ended, the sets of the family that has begun, the
/// nodes of the set that has begun, and how many nodes have come in all.
#[derive(Drop)]
pub struct FamilyList {
    n: u32,
    families: Vec<Vec<Vec<u32>>>,
    sets: Vec<Vec<u32>>,
    nodes: Vec<u32>,
    count: usize,
    ended: bool,
}

impl FamilyList {
    ghost use Rattle.tsp_read.specs.Prelude.{families_of, whole_families, with_set, with_family, with_end, has_begun_family, place_of_family, is_past_families, wants_more};
    ghost use Rattle.tsp_read.specs.states.Parts.{Takes};
    ghost use Rattle.tsp_read.specs.states.HeldParts.{families_held, HoldsFamilies};

    /// The list at the opening of the section, in a file of `n` nodes.
    pub fn open(alloc: Global, n: u32) -> FamilyList
        ensures { HoldsFamilies result n [] }
    {
        FamilyList {
            n,
            families: Vec::new(alloc),
            sets: Vec::new(alloc),
            nodes: Vec::new(alloc),
            count: 0,
            ended: false,
        }
    }

    /// Takes the next word.
    ///
    /// # Errors
    ///
    /// - `Fault`: the word is neither a node nor a -1 (`Number`); the families have as many nodes
    ///   as a file may have, or the word would begin one family too many (`Surplus`); or the
    ///   section has ended (`AfterEnd`).
    /// - `Memory`: out of memory.
    ///
    /// The list then has the words from before.
    pub fn push(&mut self, alloc: Global, word: &[u8]) -> Result<(), StepFault>
        ensures takes { (n : ℕ) (words : List (List ℕ)) → HoldsFamilies self.old n words
            → Takes n (place_of_family n words) word.now
            (HoldsFamilies self.new n (words ++ word.now ∷ [])) result }
        ensures kept { IfErr result (λ _. (n : ℕ) (words : List (List ℕ))
            → HoldsFamilies self.old n words → HoldsFamilies self.new n words) }
    {
        if self.ended {
            if is_minus_one(word) {
                return Ok(());
            }
            return Err(StepFault::Fault(LineFault::AfterEnd));
        }
        let Some(node) = read_node_or_end(word, self.n)? else {
            self.push_end(alloc)?;
            return Ok(());
        };
        if self.is_full() {
            return Err(StepFault::Fault(LineFault::Surplus));
        }
        push(&mut self.nodes, node)?;
        self.count += 1;
        Ok(())
    }

    /// Whether a family has begun.
    fn has_begun(&self) -> bool
        ensures { result ≡ has_begun_family (families_held self.now) }
    {
        !self.nodes.is_empty() || !self.sets.is_empty()
    }

    /// Whether the limit allows no more nodes.
    fn is_full(&self) -> bool
        ensures full { result ≡ is_past_families (has_begun_family (families_held self.now))
            (length (families_held self.now).families) self.now.count }
        ensures room { result ≡ false → self.now.count < MOST_FAMILY_NODES }
    {
        self.count >= MOST_FAMILY_NODES
            || (!self.has_begun() && self.families.len() >= MOST_FAMILIES)
    }

    /// Takes a -1, which ends the set that has begun, or else the family, or else the section.
    fn push_end(&mut self, alloc: Global) -> Result<(), Refused>
        ensures done { OnOk result (families_held self.new ≡ with_end (families_held self.old)) }
        ensures kept { IfErr result (λ _. families_held self.new ≡ families_held self.old) }
        ensures n { self.new.n ≡ self.old.n }
    {
        if !self.nodes.is_empty() {
            return self.end_set(alloc);
        }
        if !self.sets.is_empty() {
            return self.end_family(alloc);
        }
        self.ended = true;
        Ok(())
    }

    /// Ends the set that has begun.
    fn end_set(&mut self, alloc: Global) -> Result<(), Refused>
        ensures done { OnOk result (families_held self.new ≡ with_set (families_held self.old)) }
        ensures kept { IfErr result (λ _. families_held self.new ≡ families_held self.old) }
        ensures n { self.new.n ≡ self.old.n }
    {
        move_to_end(alloc, &mut self.sets, &mut self.nodes)
    }

    /// Ends the family that has begun.
    fn end_family(&mut self, alloc: Global) -> Result<(), Refused>
        ensures done { OnOk result (families_held self.new ≡ with_family (families_held self.old)) }
        ensures kept { IfErr result (λ _. families_held self.new ≡ families_held self.old) }
        ensures n { self.new.n ≡ self.old.n }
    {
        move_to_end(alloc, &mut self.families, &mut self.sets)
    }

    /// The families, and whether the last one is incomplete.
    pub fn finish(self) -> (Vec<Vec<Vec<u32>>>, bool)
        ensures { (n : ℕ) (words : List (List ℕ)) → HoldsFamilies self n words
            → (families_of result.0.items ≡ whole_families n words)
            × (result.1 ≡ wants_more (place_of_family n words)) }
    {
        let wants_more = !self.ended && self.has_begun();
        (self.families, wants_more)
    }
}

// ---- the list that takes the words of BRANCH_SECTION

/// BRANCH_SECTION so far: the steps that have ended, the first number of a branch or difference
/// that has begun, whether a leaf has begun and its differences, how many trees are still missing,
/// and how many branches and differences have begun in all.
#[derive(Drop)]
pub struct TreeList {
    n: u32,
    last_family: u32,
    last_index: u32,
    steps: Vec<TreeStep>,
    first: Option<u32>,
    in_leaf: bool,
    leaf: Vec<(u32, i64)>,
    to_come: usize,
    branches: usize,
    changes: usize,
}

impl TreeList {
    ghost use Rattle.tsp_read.specs.Prelude.{whole_steps, with_leaf, place_of_step, wants_more};
    ghost use Rattle.tsp_format.specs.states.TreeSteps.{steps_of};
    ghost use Rattle.tsp_read.specs.states.Parts.{Takes};
    ghost use Rattle.tsp_read.specs.states.HeldParts.{tree_held, HoldsTree};

    /// The list at the opening of the section, in a file of `n` nodes, which is within the limit on
    /// the nodes of a file.
    pub fn open(alloc: Global, n: u32) -> TreeList
        ensures { n ≤ MOST_NODES → HoldsTree result n [] }
    {
        TreeList {
            n,
            last_family: n.saturating_add(MOST_FAMILIES as u32),
            last_index: n.saturating_add((MOST_FAMILIES + MOST_ROWS) as u32),
            steps: Vec::new(alloc),
            first: None,
            in_leaf: false,
            leaf: Vec::new(alloc),
            to_come: 1,
            branches: 0,
            changes: 0,
        }
    }

    /// Takes the next word.
    ///
    /// # Errors
    ///
    /// - `Fault`: the word isn't a number that its place requires (`Number`); a branch joins a node
    ///   to itself (`SelfEdge`); there are as many branches or differences as a file may have, or
    ///   the tree is complete (`Surplus`).
    /// - `Memory`: out of memory.
    ///
    /// The list then has the words from before.
    pub fn push(&mut self, alloc: Global, word: &[u8]) -> Result<(), StepFault>
        ensures takes { (n : ℕ) (words : List (List ℕ)) → HoldsTree self.old n words
            → Takes n (place_of_step n words) word.now
            (HoldsTree self.new n (words ++ word.now ∷ [])) result }
        ensures kept { IfErr result (λ _. (n : ℕ) (words : List (List ℕ))
            → HoldsTree self.old n words → HoldsTree self.new n words) }
    {
        if self.to_come == 0 {
            if is_minus_one(word) {
                return Ok(());
            }
            return Err(StepFault::Fault(LineFault::Surplus));
        }
        match (self.in_leaf, self.first) {
            (false, None) => self.push_first(word),
            (false, Some(first)) => self.push_second(first, word),
            (true, None) => self.push_index(alloc, word),
            (true, Some(index)) => self.push_difference(index, word),
        }
    }

    /// Takes the first number of a branch, or the 0 that begins a leaf.
    fn push_first(&mut self, word: &[u8]) -> Result<(), StepFault>
        ensures takes { (n : ℕ) (words : List (List ℕ)) → HoldsTree self.old n words
            → self.old.to_come ≢ 0 → self.old.in_leaf ≡ false → self.old.first ≡ None
            → Takes n (place_of_step n words) word.now
            (HoldsTree self.new n (words ++ word.now ∷ [])) result }
        ensures kept { IfErr result (λ _. (n : ℕ) (words : List (List ℕ))
            → HoldsTree self.old n words → HoldsTree self.new n words) }
    {
        let Some(first) = read_index_or_leaf(word, self.last_family)? else {
            self.in_leaf = true;
            return Ok(());
        };
        if self.branches >= MOST_BRANCHES {
            return Err(StepFault::Fault(LineFault::Surplus));
        }
        self.first = Some(first);
        self.branches += 1;
        Ok(())
    }

    /// Takes the second number of a branch: a node, or the limit of a family.
    fn push_second(&mut self, first: u32, word: &[u8]) -> Result<(), StepFault>
        ensures takes { (n : ℕ) (words : List (List ℕ)) → HoldsTree self.old n words
            → self.old.to_come ≢ 0 → self.old.in_leaf ≡ false → self.old.first ≡ Some first
            → Takes n (place_of_step n words) word.now
            (HoldsTree self.new n (words ++ word.now ∷ [])) result }
        ensures kept { IfErr result (λ _. (n : ℕ) (words : List (List ℕ))
            → HoldsTree self.old n words → HoldsTree self.new n words) }
    {
        let second = read_node(word, self.n)?;
        if second == first {
            return Err(StepFault::Fault(LineFault::SelfEdge));
        }
        push(&mut self.steps, TreeStep::Branch(first, second))?;
        self.first = None;
        self.to_come = self.to_come.saturating_add(1);
        Ok(())
    }

    /// Takes an index of a leaf, or the -1 that ends it.
    fn push_index(&mut self, alloc: Global, word: &[u8]) -> Result<(), StepFault>
        ensures takes { (n : ℕ) (words : List (List ℕ)) → HoldsTree self.old n words
            → self.old.to_come ≢ 0 → self.old.in_leaf ≡ true → self.old.first ≡ None
            → Takes n (place_of_step n words) word.now
            (HoldsTree self.new n (words ++ word.now ∷ [])) result }
        ensures kept { IfErr result (λ _. (n : ℕ) (words : List (List ℕ))
            → HoldsTree self.old n words → HoldsTree self.new n words) }
    {
        let Some(index) = read_node_or_end(word, self.last_index)? else {
            self.end_leaf(alloc)?;
            return Ok(());
        };
        if self.changes >= MOST_CHANGES {
            return Err(StepFault::Fault(LineFault::Surplus));
        }
        self.first = Some(index);
        self.changes += 1;
        Ok(())
    }

    /// Ends the leaf that has begun, and with it one of the missing trees.
    fn end_leaf(&mut self, alloc: Global) -> Result<(), Refused>
        ensures done { OnOk result (tree_held self.new ≡ with_leaf (tree_held self.old)) }
        ensures few { OnOk result ((n : ℕ) (words : List (List ℕ)) → HoldsTree self.old n words
            → self.new.to_come ≤ length self.new.steps.items + 1) }
        ensures kept { IfErr result (λ _. tree_held self.new ≡ tree_held self.old) }
        ensures n { (self.new.n ≡ self.old.n) × (self.new.last_family ≡ self.old.last_family)
            × (self.new.last_index ≡ self.old.last_index) }
    {
        push(&mut self.steps, TreeStep::Leaf(Vec::new(alloc)))?;
        let last = self.steps.len() - 1;
        let leaf = mem::replace(&mut self.leaf, Vec::new(alloc));
        self.steps[last] = TreeStep::Leaf(leaf);
        self.in_leaf = false;
        self.to_come = self.to_come.saturating_sub(1);
        Ok(())
    }

    /// Takes the difference of an index.
    fn push_difference(&mut self, index: u32, word: &[u8]) -> Result<(), StepFault>
        ensures takes { (n : ℕ) (words : List (List ℕ)) → HoldsTree self.old n words
            → self.old.to_come ≢ 0 → self.old.in_leaf ≡ true → self.old.first ≡ Some index
            → Takes n (place_of_step n words) word.now
            (HoldsTree self.new n (words ++ word.now ∷ [])) result }
        ensures kept { IfErr result (λ _. (n : ℕ) (words : List (List ℕ))
            → HoldsTree self.old n words → HoldsTree self.new n words) }
    {
        let difference = parse_whole(word, -MOST_DIFFERENCE, MOST_DIFFERENCE)?;
        push(&mut self.leaf, (index, difference))?;
        self.first = None;
        Ok(())
    }

    /// The steps, and whether the tree is incomplete.
    pub fn finish(self) -> (Vec<TreeStep>, bool)
        ensures { (n : ℕ) (words : List (List ℕ)) → HoldsTree self n words
            → (steps_of result.0.items ≡ whole_steps n words)
            × (result.1 ≡ wants_more (place_of_step n words)) }
    {
        let wants_more = self.to_come != 0;
        (self.steps, wants_more)
    }
}
