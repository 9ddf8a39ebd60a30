//! Reads the lists of a section: DEPOT_SECTION and FIXED_EDGES_SECTION word by word, up to the -1
//! that ends the list; TOUR_SECTION and EDGE_WEIGHT_SECTION, which can have millions of words.
//! `section_builder.rt` passes single words in; for the last two, `gather` also lends the list to a
//! run of plain numbers (`plain_numbers.rt`), and `put_back` takes it back. `specs/FaultRows.antt`
//! in tsp_text pins every fault.

ghost use Rattle.std.specs.Prelude.{◌≡◌, [], ℕ, List, ◌∷◌, ◌++◌, IfErr, false, None, Some, ◌+◌, ◌-◌, ◌≤◌};
ghost use Rattle.tsp_read.specs.Prelude.{Ok, OnOk, IfOk, map, vec_len, vec_capacity, true, most_tour_nodes, IsWhole};

use crate::section_builder::{is_minus_one, move_to_end, read_node, read_node_or_end};
use crate::step_fault::StepFault;
use std::alloc::Global;
use std::mem;
use tsp_format::{
    MOST_DEPOTS, MOST_FIXED, MOST_MATRIX_NODES, MOST_NODES, MOST_TOUR_NODES, MOST_WEIGHT,
};
use tsp_io::{Refused, push};
use tsp_number::parse_whole;
use tsp_text::LineFault;

/// DEPOT_SECTION so far.
#[derive(Drop)]
pub struct DepotList {
    n: u32,
    depots: Vec<u32>,
    ended: bool,
}

impl DepotList {
    ghost use Rattle.tsp_text.specs.Groups.{place_of_depot, depots_in};
    ghost use Rattle.tsp_read.specs.states.Parts.{Takes};
    ghost use Rattle.tsp_read.specs.states.HeldParts.{HoldsDepots};

    /// The list at the opening of the section, in a file of `n` nodes.
    pub fn open(alloc: Global, n: u32) -> DepotList
        ensures { HoldsDepots result n [] }
    {
        DepotList {
            n,
            depots: Vec::new(alloc),
            ended: false,
        }
    }

    /// Takes the next word.
    ///
    /// # Errors
    ///
    /// - `Fault`: the word is neither a node nor a -1 (`Number`), there are as many depots as a
    ///   file may have (`Surplus`), or the list has ended (`AfterEnd`).
    /// - `Memory`: out of memory.
    ///
    /// The list then has the words from before.
    pub fn push(&mut self, word: &[u8]) -> Result<(), StepFault>
        ensures takes { (n : ℕ) (words : List (List ℕ)) → HoldsDepots self.old n words
            → Takes n (place_of_depot n words) word.now
            (HoldsDepots self.new n (words ++ word.now ∷ [])) result }
        ensures kept { IfErr result (λ _. (n : ℕ) (words : List (List ℕ))
            → HoldsDepots self.old n words → HoldsDepots self.new n words) }
    {
        if self.ended {
            if is_minus_one(word) {
                return Ok(());
            }
            return Err(StepFault::Fault(LineFault::AfterEnd));
        }
        let Some(node) = read_node_or_end(word, self.n)? else {
            self.ended = true;
            return Ok(());
        };
        if self.depots.len() >= MOST_DEPOTS {
            return Err(StepFault::Fault(LineFault::Surplus));
        }
        push(&mut self.depots, node)?;
        Ok(())
    }

    /// The depots.
    pub fn finish(self) -> Vec<u32>
        ensures { (n : ℕ) (words : List (List ℕ)) → HoldsDepots self n words
            → result.items ≡ depots_in n words }
    {
        self.depots
    }
}

// ---- the list that takes the words of FIXED_EDGES_SECTION: pairs of nodes

/// FIXED_EDGES_SECTION so far.
#[derive(Drop)]
pub struct FixedList {
    n: u32,
    pairs: Vec<(u32, u32)>,
    first: Option<u32>,
    ended: bool,
}

impl FixedList {
    ghost use Rattle.tsp_read.specs.Prelude.{place_of_fixed, fixed_in, wants_more};
    ghost use Rattle.tsp_read.specs.states.Parts.{Takes};
    ghost use Rattle.tsp_read.specs.states.HeldParts.{HoldsFixed};

    /// The list at the opening of the section, in a file of `n` nodes.
    pub fn open(alloc: Global, n: u32) -> FixedList
        ensures { HoldsFixed result n [] }
    {
        FixedList {
            n,
            pairs: Vec::new(alloc),
            first: None,
            ended: false,
        }
    }

    /// Takes the next word.
    ///
    /// # Errors
    ///
    /// - `Fault`: the word isn't a node, nor a -1 where the list may end (`Number`); the pair joins
    ///   a node to itself (`SelfEdge`); there are as many pairs as a file may have (`Surplus`); or
    ///   the list has ended (`AfterEnd`).
    /// - `Memory`: out of memory.
    ///
    /// The list then has the words from before.
    pub fn push(&mut self, word: &[u8]) -> Result<(), StepFault>
        ensures takes { (n : ℕ) (words : List (List ℕ)) → HoldsFixed self.old n words
            → Takes n (place_of_fixed n words) word.now
            (HoldsFixed self.new n (words ++ word.now ∷ [])) result }
        ensures kept { IfErr result (λ _. (n : ℕ) (words : List (List ℕ))
            → HoldsFixed self.old n words → HoldsFixed self.new n words) }
    {
        if self.ended {
            if is_minus_one(word) {
                return Ok(());
            }
            return Err(StepFault::Fault(LineFault::AfterEnd));
        }
        match self.first {
            None => self.push_first(word),
            Some(first) => self.push_second(first, word),
        }
    }

    /// Takes the first node of a pair, or the -1 that ends the list.
    fn push_first(&mut self, word: &[u8]) -> Result<(), StepFault>
        ensures takes { (n : ℕ) (words : List (List ℕ)) → HoldsFixed self.old n words
            → self.old.ended ≡ false → self.old.first ≡ None
            → Takes n (place_of_fixed n words) word.now
            (HoldsFixed self.new n (words ++ word.now ∷ [])) result }
        ensures kept { IfErr result (λ _. (n : ℕ) (words : List (List ℕ))
            → HoldsFixed self.old n words → HoldsFixed self.new n words) }
    {
        let Some(node) = read_node_or_end(word, self.n)? else {
            self.ended = true;
            return Ok(());
        };
        if self.pairs.len() >= MOST_FIXED {
            return Err(StepFault::Fault(LineFault::Surplus));
        }
        self.first = Some(node);
        Ok(())
    }

    /// Takes the second node of a pair.
    fn push_second(&mut self, first: u32, word: &[u8]) -> Result<(), StepFault>
        ensures takes { (n : ℕ) (words : List (List ℕ)) → HoldsFixed self.old n words
            → self.old.ended ≡ false → self.old.first ≡ Some first
            → Takes n (place_of_fixed n words) word.now
            (HoldsFixed self.new n (words ++ word.now ∷ [])) result }
        ensures kept { IfErr result (λ _. (n : ℕ) (words : List (List ℕ))
            → HoldsFixed self.old n words → HoldsFixed self.new n words) }
    {
        let second = read_node(word, self.n)?;
        if second == first {
            return Err(StepFault::Fault(LineFault::SelfEdge));
        }
        push(&mut self.pairs, (first, second))?;
        self.first = None;
        Ok(())
    }

    /// The pairs, and whether the last one is incomplete.
    pub fn finish(self) -> (Vec<(u32, u32)>, bool)
        ensures { (n : ℕ) (words : List (List ℕ)) → HoldsFixed self n words
            → (result.0.items ≡ fixed_in n words)
            × (result.1 ≡ wants_more (place_of_fixed n words)) }
    {
        let wants_more = self.first.is_some();
        (self.pairs, wants_more)
    }
}

// ---- the list that takes the words of TOUR_SECTION

/// A run reserves memory for at least this many nodes.
const FEWEST: usize = 8;

/// TOUR_SECTION so far: the tours that have ended, the run of nodes that is open, and how many
/// nodes have come in all.
#[derive(Drop)]
pub struct TourList {
    done: Vec<Vec<u32>>,
    run: Vec<u32>,
    count: usize,
}

impl TourList {
    ghost use Rattle.tsp_text.specs.SectionWords.{place_of_tour, tours_in};
    ghost use Rattle.tsp_read.specs.states.Parts.{Takes};
    ghost use Rattle.tsp_read.specs.states.HeldParts.{HoldsTours, EndsRunOf};

    /// The list at the opening of the section.
    pub fn open(alloc: Global) -> TourList
        ensures { HoldsTours result [] }
    {
        TourList {
            done: Vec::new(alloc),
            run: Vec::new(alloc),
            count: 0,
        }
    }

    /// Takes the next word. The number of nodes of the file doesn't matter.
    ///
    /// # Errors
    ///
    /// - `Fault`: the word is neither a node that some file can have nor a -1 (`Number`), or the
    ///   tours have as many nodes as the tours of a file may have (`Surplus`).
    /// - `Memory`: out of memory.
    ///
    /// The list then has the words from before.
    pub fn push(&mut self, alloc: Global, word: &[u8]) -> Result<(), StepFault>
        ensures takes { (n : ℕ) (words : List (List ℕ)) → HoldsTours self.old words
            → Takes n (place_of_tour words) word.now
            (HoldsTours self.new (words ++ word.now ∷ [])) result }
        ensures kept { IfErr result (λ _. (words : List (List ℕ)) → HoldsTours self.old words
            → HoldsTours self.new words) }
    {
        let Some(node) = read_node_or_end(word, MOST_NODES)? else {
            return Ok(self.end_run(alloc)?);
        };
        if self.count >= MOST_TOUR_NODES {
            return Err(StepFault::Fault(LineFault::Surplus));
        }
        push(&mut self.run, node)?;
        self.count += 1;
        Ok(())
    }

    /// Lends the list to a run of words, with room for some more nodes; for none if memory was
    /// refused, or if the tours have as many nodes as a file may have.
    #[inline(always)]
    pub fn gather(&mut self, alloc: Global) -> GatheredNodes
        ensures { (words : List (List ℕ)) → HoldsTours self.old words
            → HoldsTours result.list words }
    {
        GatheredNodes::of(mem::replace(self, TourList::open(alloc)))
    }

    /// Takes the list back from a run.
    #[inline(always)]
    pub fn put_back(&mut self, gathered: GatheredNodes)
        ensures { self.new ≡ gathered.list }
    {
        let GatheredNodes { list, room: _ } = gathered;
        let before = mem::replace(self, list);
        drop(before);
    }

    /// Ends the open run, if there is one.
    fn end_run(&mut self, alloc: Global) -> Result<(), Refused>
        ensures done { OnOk result ((words : List (List ℕ)) → HoldsTours self.old words
            → EndsRunOf self.new words) }
        ensures kept { IfErr result (λ _. (words : List (List ℕ)) → HoldsTours self.old words
            → HoldsTours self.new words) }
        ensures count { self.new.count ≡ self.old.count }
    {
        if self.run.is_empty() {
            return Ok(());
        }
        move_to_end(alloc, &mut self.done, &mut self.run)
    }

    /// The tours.
    ///
    /// # Errors
    ///
    /// Out of memory. The tours are then dropped.
    pub fn finish(mut self, alloc: Global) -> Result<Vec<Vec<u32>>, Refused>
        ensures tours { (words : List (List ℕ)) → HoldsTours self words
            → IfOk result (λ tours. map (λ tour. tour.items) tours.items ≡ tours_in words) }
    {
        self.end_run(alloc)?;
        Ok(self.done)
    }
}

/// The nodes of TOUR_SECTION during a run of words, with memory reserved for several more.
///
/// It owns its vector, so that a push is a store and three counts.
#[derive(Drop)]
pub struct GatheredNodes {
    list: TourList,
    /// How many more nodes fit, in the memory and into the limit on tours.
    room: usize,
    ghost reserved: { vec_len list.run + room ≤ vec_capacity list.run },
    ghost within: { room ≤ most_tour_nodes - list.count },
}

impl GatheredNodes {
    ghost use Rattle.tsp_text.specs.SectionWords.{place_of_tour};
    ghost use Rattle.tsp_read.specs.states.Parts.{Takes};
    ghost use Rattle.tsp_read.specs.states.HeldParts.{HoldsTours};

    /// The list with room for some more nodes; for none if memory was refused.
    ///
    /// If it grows, it doubles, as it does when words come one by one.
    #[inline(always)]
    fn of(mut list: TourList) -> GatheredNodes
        ensures { (words : List (List ℕ)) → HoldsTours list words → HoldsTours result.list words }
    {
        let left = MOST_TOUR_NODES.saturating_sub(list.count);
        let len = list.run.len();
        if list.run.capacity() == len {
            let growth = left.min(len.max(FEWEST));
            if list.run.reserve_exact(growth).is_err() {
                return GatheredNodes { list, room: 0 };
            }
        }
        let room = left.min(list.run.capacity() - len);
        GatheredNodes { list, room }
    }

    /// Takes a number as a node, if there is room, and returns whether it did.
    #[inline(always)]
    pub fn push_read(&mut self, number: i64) -> bool
        ensures taken { result ≡ true → (n : ℕ) (words : List (List ℕ)) (word : List ℕ)
            → IsWhole word number → HoldsTours self.old.list words → Takes n
            (place_of_tour words) word (HoldsTours self.new.list (words ++ word ∷ [])) (Ok tt) }
        ensures kept { result ≡ false → (words : List (List ℕ)) → HoldsTours self.old.list words
            → HoldsTours self.new.list words }
    {
        let Ok(node) = u32::try_from(number) else {
            return false;
        };
        if node < 1 || node > MOST_NODES || self.room == 0 {
            return false;
        }
        self.room -= 1;
        self.list.count += 1;
        self.list.run.push_reserved(node);
        true
    }
}

// ---- the list that takes the words of EDGE_WEIGHT_SECTION

/// EDGE_WEIGHT_SECTION so far.
#[derive(Drop)]
pub struct WeightList {
    weights: Vec<i64>,
    most: usize,
    ghost few: { vec_len weights ≤ most },
}

impl WeightList {
    ghost use Rattle.tsp_text.specs.SectionWords.{place_of_weight, weights_in};
    ghost use Rattle.tsp_read.specs.states.Parts.{Takes};
    ghost use Rattle.tsp_read.specs.states.HeldParts.{HoldsWeights};

    /// The list at the opening of the section, in a file of `n` nodes.
    pub fn open(alloc: Global, n: u32) -> WeightList
        requires { n ≤ MOST_MATRIX_NODES }
        ensures { HoldsWeights result n [] }
    {
        WeightList {
            weights: Vec::new(alloc),
            most: n as usize * n as usize,
        }
    }

    /// Takes the next word.
    ///
    /// # Errors
    ///
    /// - `Fault`: the word isn't a weight (`Number`), or there are `n * n` weights (`Surplus`).
    /// - `Memory`: out of memory.
    ///
    /// The list then has the words from before.
    pub fn push(&mut self, word: &[u8]) -> Result<(), StepFault>
        ensures takes { (n : ℕ) (words : List (List ℕ)) → HoldsWeights self.old n words
            → Takes n (place_of_weight n words) word.now
            (HoldsWeights self.new n (words ++ word.now ∷ [])) result }
        ensures kept { IfErr result (λ _. (n : ℕ) (words : List (List ℕ))
            → HoldsWeights self.old n words → HoldsWeights self.new n words) }
    {
        if self.weights.len() >= self.most {
            return Err(StepFault::Fault(LineFault::Surplus));
        }
        let weight = parse_whole(word, -MOST_WEIGHT, MOST_WEIGHT)?;
        push(&mut self.weights, weight)?;
        Ok(())
    }

    /// Lends the list to a run of weights, with memory reserved for `more` of them.
    ///
    /// It reserves no more than the matrix still needs, and nothing if memory was refused.
    #[inline(always)]
    pub fn gather(&mut self, alloc: Global, more: usize) -> Gathered
        ensures { (n : ℕ) (words : List (List ℕ)) → HoldsWeights self.old n words
            → HoldsWeights result.list n words }
    {
        let empty = WeightList {
            weights: Vec::new(alloc),
            most: 0,
        };
        Gathered::of(mem::replace(self, empty), more)
    }

    /// Takes the list back from a run.
    #[inline(always)]
    pub fn put_back(&mut self, gathered: Gathered)
        ensures { self.new ≡ gathered.list }
    {
        let Gathered { list, room: _ } = gathered;
        let before = mem::replace(self, list);
        drop(before);
    }

    /// The weights.
    pub fn finish(self) -> Vec<i64>
        ensures { (n : ℕ) (words : List (List ℕ)) → HoldsWeights self n words
            → result.items ≡ weights_in words }
    {
        self.weights
    }
}

/// The weights of EDGE_WEIGHT_SECTION during a run of words, with memory reserved for many more.
///
/// It owns its vector, so that a push is a store and two counts.
#[derive(Drop)]
pub struct Gathered {
    list: WeightList,
    /// How many more weights fit, in the memory and into the matrix.
    room: usize,
    ghost reserved: { vec_len list.weights + room ≤ vec_capacity list.weights },
    ghost within: { vec_len list.weights + room ≤ list.most },
}

impl Gathered {
    ghost use Rattle.tsp_read.specs.Prelude.{unsigned_abs, most_weight, place_of_weight};
    ghost use Rattle.std.specs.Prelude.{◌<◌};
    ghost use Rattle.tsp_read.specs.states.Parts.{Takes};
    ghost use Rattle.tsp_read.specs.states.HeldParts.{HoldsWeights};

    /// The list with room for this many more weights, or for all that the matrix still needs; for
    /// none if memory was refused.
    ///
    /// If it grows, it doubles, but not beyond the size of the matrix. So a request depends on the
    /// weights that have come and on `more`, and DIMENSION alone can't make it large.
    #[inline(always)]
    fn of(mut list: WeightList, more: usize) -> Gathered
        ensures { (n : ℕ) (words : List (List ℕ)) → HoldsWeights list n words
            → HoldsWeights result.list n words }
    {
        let len = list.weights.len();
        let left = list.most.saturating_sub(len);
        let room = more.min(left);
        if list.weights.capacity() < len + room {
            let growth = room.max(len.min(left));
            if list.weights.reserve_exact(growth).is_err() {
                return Gathered { list, room: 0 };
            }
        }
        Gathered { list, room }
    }

    /// Takes a number as a weight, if there is room, and returns whether it did.
    #[inline(always)]
    pub fn push_read(&mut self, weight: i64) -> bool
        ensures taken { result ≡ true → (n : ℕ) (words : List (List ℕ)) (word : List ℕ)
            → IsWhole word weight → HoldsWeights self.old.list n words
            → Takes n (place_of_weight n words) word
            (HoldsWeights self.new.list n (words ++ word ∷ [])) (Ok tt) }
        ensures kept { result ≡ false → (n : ℕ) (words : List (List ℕ))
            → HoldsWeights self.old.list n words → HoldsWeights self.new.list n words }
        ensures refused { result ≡ false → 0 < self.old.room → most_weight < unsigned_abs weight }
    {
        if self.room == 0 || weight < -MOST_WEIGHT || weight > MOST_WEIGHT {
            return false;
        }
        self.room -= 1;
        self.list.weights.push_reserved(weight);
        true
    }
}
