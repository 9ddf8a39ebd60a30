//! Reads MEMORY_SECTION, lists of nodes, and SUBSET_ROW_SECTION, two lists of nodes for each row.
//! Both are this project's own sections, for certificates for routes. `section_builder.rt` passes
//! the words in, and `specs/MemoryWords.antt` in tsp_text pins which words may come.

ghost use Rattle.std.specs.Prelude.{◌≡◌, [], ℕ, List, ◌∷◌, ◌++◌, ◌<◌, length, OnOk, IfErr, false};

use crate::section_builder::{is_minus_one, move_to_end, read_node_or_end};
use crate::step_fault::StepFault;
use std::alloc::Global;
use std::mem;
use tsp_format::{MOST_FAMILY_NODES, MOST_ROWS, RowSets};
use tsp_io::{Refused, push};
use tsp_text::LineFault;

/// MEMORY_SECTION so far: the lists that have ended, the nodes of the one that has begun, and how
/// many nodes have come in all.
#[derive(Drop)]
pub struct MemoryList {
    n: u32,
    lists: Vec<Vec<u32>>,
    nodes: Vec<u32>,
    count: usize,
    ended: bool,
}

impl MemoryList {
    ghost use Rattle.tsp_read.specs.Prelude.{map, is_not_empty, whole_memories, with_list, with_list_end, place_of_memory, is_past_families, wants_more};
    ghost use Rattle.tsp_read.specs.states.Parts.{Takes};
    ghost use Rattle.tsp_read.specs.states.HeldParts.{memories_held, HoldsMemories};

    /// The list at the opening of the section, in a file of `n` nodes.
    pub fn open(alloc: Global, n: u32) -> MemoryList
        ensures { HoldsMemories result n [] }
    {
        MemoryList {
            n,
            lists: Vec::new(alloc),
            nodes: Vec::new(alloc),
            count: 0,
            ended: false,
        }
    }

    /// Takes the next word.
    ///
    /// # Errors
    ///
    /// - `Fault`: the word is neither a node nor a -1 (`Number`), there are as many nodes as a file
    ///   may have (`Surplus`), or the section has ended (`AfterEnd`).
    /// - `Memory`: out of memory.
    ///
    /// The list then has the words from before.
    pub fn push(&mut self, alloc: Global, word: &[u8]) -> Result<(), StepFault>
        ensures takes { (n : ℕ) (words : List (List ℕ)) → HoldsMemories self.old n words
            → Takes n (place_of_memory n words) word.now
            (HoldsMemories self.new n (words ++ word.now ∷ [])) result }
        ensures kept { IfErr result (λ _. (n : ℕ) (words : List (List ℕ))
            → HoldsMemories self.old n words → HoldsMemories self.new n words) }
    {
        if self.ended {
            if is_minus_one(word) {
                return Ok(());
            }
            return Err(StepFault::Fault(LineFault::AfterEnd));
        }
        let Some(node) = read_node_or_end(word, self.n)? else {
            self.push_end(alloc)?;
            return Ok(());
        };
        if self.is_full() {
            return Err(StepFault::Fault(LineFault::Surplus));
        }
        push(&mut self.nodes, node)?;
        self.count += 1;
        Ok(())
    }

    /// Whether the limit allows no more nodes.
    fn is_full(&self) -> bool
        ensures full { result ≡ is_past_families (is_not_empty self.now.nodes.items) 0 self.now.count }
        ensures room { result ≡ false → self.now.count < MOST_FAMILY_NODES }
    {
        self.count >= MOST_FAMILY_NODES
    }

    /// Takes a -1, which ends the list that has begun, or else the section.
    fn push_end(&mut self, alloc: Global) -> Result<(), Refused>
        ensures done { OnOk result (memories_held self.new ≡ with_list_end (memories_held self.old)) }
        ensures kept { IfErr result (λ _. memories_held self.new ≡ memories_held self.old) }
        ensures n { self.new.n ≡ self.old.n }
    {
        if !self.nodes.is_empty() {
            return self.end_list(alloc);
        }
        self.ended = true;
        Ok(())
    }

    /// Ends the list that has begun.
    fn end_list(&mut self, alloc: Global) -> Result<(), Refused>
        ensures done { OnOk result (memories_held self.new ≡ with_list (memories_held self.old)) }
        ensures kept { IfErr result (λ _. memories_held self.new ≡ memories_held self.old) }
        ensures n { self.new.n ≡ self.old.n }
    {
        move_to_end(alloc, &mut self.lists, &mut self.nodes)
    }

    /// The lists, and whether the last one is incomplete.
    pub fn finish(self) -> (Vec<Vec<u32>>, bool)
        ensures { (n : ℕ) (words : List (List ℕ)) → HoldsMemories self n words
            → (map (λ list. list.items) result.0.items ≡ whole_memories n words)
            × (result.1 ≡ wants_more (place_of_memory n words)) }
    {
        let wants_more = !self.ended && !self.nodes.is_empty();
        (self.lists, wants_more)
    }
}

// ---- the list that takes the words of SUBSET_ROW_SECTION

/// SUBSET_ROW_SECTION so far: the rows that have ended; the set of a row that has begun, empty
/// until it has ended; the nodes of the list that has begun; and how many nodes have come in all.
#[derive(Drop)]
pub struct RowList {
    n: u32,
    rows: Vec<RowSets>,
    set: Vec<u32>,
    nodes: Vec<u32>,
    count: usize,
    ended: bool,
}

impl RowList {
    ghost use Rattle.tsp_read.specs.Prelude.{subset_rows_of, whole_rows, with_row, with_row_set, with_row_end, has_begun_row, place_of_row, is_past_families, wants_more};
    ghost use Rattle.tsp_read.specs.states.Parts.{Takes};
    ghost use Rattle.tsp_read.specs.states.HeldParts.{rows_held, HoldsSubsetRows};

    /// The list at the opening of the section, in a file of `n` nodes.
    pub fn open(alloc: Global, n: u32) -> RowList
        ensures { HoldsSubsetRows result n [] }
    {
        RowList {
            n,
            rows: Vec::new(alloc),
            set: Vec::new(alloc),
            nodes: Vec::new(alloc),
            count: 0,
            ended: false,
        }
    }

    /// Takes the next word.
    ///
    /// # Errors
    ///
    /// - `Fault`: the word is neither a node nor a -1 (`Number`); the rows have as many nodes as a
    ///   file may have, or the word would begin one row too many (`Surplus`); or the section has
    ///   ended (`AfterEnd`).
    /// - `Memory`: out of memory.
    ///
    /// The list then has the words from before.
    pub fn push(&mut self, alloc: Global, word: &[u8]) -> Result<(), StepFault>
        ensures takes { (n : ℕ) (words : List (List ℕ)) → HoldsSubsetRows self.old n words
            → Takes n (place_of_row n words) word.now
            (HoldsSubsetRows self.new n (words ++ word.now ∷ [])) result }
        ensures kept { IfErr result (λ _. (n : ℕ) (words : List (List ℕ))
            → HoldsSubsetRows self.old n words → HoldsSubsetRows self.new n words) }
    {
        if self.ended {
            if is_minus_one(word) {
                return Ok(());
            }
            return Err(StepFault::Fault(LineFault::AfterEnd));
        }
        let Some(node) = read_node_or_end(word, self.n)? else {
            self.push_end(alloc)?;
            return Ok(());
        };
        if self.is_full() {
            return Err(StepFault::Fault(LineFault::Surplus));
        }
        push(&mut self.nodes, node)?;
        self.count += 1;
        Ok(())
    }

    /// Whether a row has begun.
    fn has_begun(&self) -> bool
        ensures { result ≡ has_begun_row (rows_held self.now) }
    {
        !self.set.is_empty() || !self.nodes.is_empty()
    }

    /// Whether the limit allows no more nodes.
    fn is_full(&self) -> bool
        ensures full { result ≡ is_past_families (has_begun_row (rows_held self.now))
            (length (rows_held self.now).rows) self.now.count }
        ensures room { result ≡ false → self.now.count < MOST_FAMILY_NODES }
    {
        self.count >= MOST_FAMILY_NODES || (!self.has_begun() && self.rows.len() >= MOST_ROWS)
    }

    /// Takes a -1, which ends the row if its set has ended, or the set that has begun, or else the
    /// section.
    fn push_end(&mut self, alloc: Global) -> Result<(), Refused>
        ensures done { OnOk result (rows_held self.new ≡ with_row_end (rows_held self.old)) }
        ensures kept { IfErr result (λ _. rows_held self.new ≡ rows_held self.old) }
        ensures n { self.new.n ≡ self.old.n }
    {
        if !self.set.is_empty() {
            return self.end_row(alloc);
        }
        if !self.nodes.is_empty() {
            self.end_set(alloc);
            return Ok(());
        }
        self.ended = true;
        Ok(())
    }

    /// Ends the set that has begun.
    fn end_set(&mut self, alloc: Global)
        ensures done { rows_held self.new ≡ with_row_set (rows_held self.old) }
        ensures n { self.new.n ≡ self.old.n }
    {
        self.set = mem::replace(&mut self.nodes, Vec::new(alloc));
    }

    /// Ends the row that has begun.
    fn end_row(&mut self, alloc: Global) -> Result<(), Refused>
        ensures done { OnOk result (rows_held self.new ≡ with_row (rows_held self.old)) }
        ensures kept { IfErr result (λ _. rows_held self.new ≡ rows_held self.old) }
        ensures n { self.new.n ≡ self.old.n }
    {
        push(&mut self.rows, empty_row(alloc))?;
        let last = self.rows.len() - 1;
        let set = mem::replace(&mut self.set, Vec::new(alloc));
        let further = mem::replace(&mut self.nodes, Vec::new(alloc));
        self.rows[last] = RowSets { set, further };
        Ok(())
    }

    /// The rows, and whether the last one is incomplete.
    pub fn finish(self) -> (Vec<RowSets>, bool)
        ensures { (n : ℕ) (words : List (List ℕ)) → HoldsSubsetRows self n words
            → (subset_rows_of result.0.items ≡ whole_rows n words)
            × (result.1 ≡ wants_more (place_of_row n words)) }
    {
        let wants_more = !self.ended && self.has_begun();
        (self.rows, wants_more)
    }
}

/// A row without nodes.
fn empty_row(alloc: Global) -> RowSets {
    RowSets {
        set: Vec::new(alloc),
        further: Vec::new(alloc),
    }
}
