//! Reads the sections with a line for each node: NODE_COORD_SECTION and DISPLAY_DATA_SECTION as
//! points, DEMAND_SECTION and the sections of potentials as integers. `section_builder.rt` passes
//! the words in. Nodes may come in any order, so each value is stored at the place of its node;
//! `HoldsPoints` and `HoldsNumbers` in `specs/states/HeldParts.antt` pin the lists.

ghost use Rattle.tsp_read.specs.Prelude.{ForSome, None, Some, Ok, [], ℕ, List, length, vec_len, IfOk, IfErr, Err, is_some, true, false, pos, slice_index_or, replicate, Bool, ℤ, points_of};
ghost use Rattle.std.specs.Prelude.{◌≡◌, ◌<◌, ◌≤◌, ◌^◌, ◌∷◌, ◌++◌, ◌≢◌, ◌-◌, ◌≤ℤ◌};
ghost use Rattle.tsp_file.specs.Cost.{origin};
ghost use Rattle.tsp_read.specs.states.Parts.{are_in_space};

use crate::section_builder::{is_minus_one, new_node, unmarked_node};
use crate::step_fault::StepFault;
use std::alloc::Global;
use tsp_file::Coords;
use tsp_io::{Refused, filled};
use tsp_number::{Decimal, PlanePoint, Point, parse_decimal, parse_whole};
use tsp_text::LineFault;

/// A section of points so far: its words come in groups of a node and its two or three coordinates.
#[derive(Drop)]
pub struct PointList {
    seen: Vec<bool>,
    entries: Coords,
    left: u32,
    begun: Option<u32>,
    x: Option<Decimal>,
    y: Option<Decimal>,
    ghost same: { length (points_of entries) ≡ vec_len seen },
    ghost narrow: { vec_len seen < 2 ^ 32 },
    ghost within: { ForSome begun (λ k. (1 ≤ k) × (k ≤ vec_len seen)) },
}

/// `n` points, all with coordinates 0.
///
/// # Errors
///
/// Out of memory.
fn at_origin(alloc: Global, n: u32, in_space: bool) -> Result<Coords, Refused>
    ensures { IfOk result (λ coords. (are_in_space coords ≡ in_space)
        × (points_of coords ≡ replicate n origin)) }
{
    let zero = Decimal::of_nanos(0);
    if in_space {
        let point = Point {
            x: zero,
            y: zero,
            z: zero,
        };
        return Ok(Coords::Space(filled(alloc, point, n as usize)?));
    }
    let point = PlanePoint { x: zero, y: zero };
    Ok(Coords::Plane(filled(alloc, point, n as usize)?))
}

impl PointList {
    ghost use Rattle.tsp_read.specs.Prelude.{decimal_of, IsWhole, coords_by_node, place_by, wants_more, word_fault};
    ghost use Rattle.tsp_read.specs.declared.step_fault.StepFault.TheVariants.{Memory};
    ghost use Rattle.tsp_read.specs.states.Parts.{Takes, IsNodeOf};
    ghost use Rattle.tsp_read.specs.states.HeldParts.{shape_of_points, HoldsPoints};

    /// An empty list for a section of points, in a file of `n` nodes.
    ///
    /// # Errors
    ///
    /// Out of memory.
    pub fn open(alloc: Global, n: u32, in_space: bool) -> Result<PointList, Refused>
        ensures { IfOk result (λ part. HoldsPoints part in_space n []) }
    {
        Ok(PointList {
            seen: filled(alloc, false, n as usize)?,
            entries: at_origin(alloc, n, in_space)?,
            left: n,
            begun: None,
            x: None,
            y: None,
        })
    }

    /// Takes the next word.
    ///
    /// # Errors
    ///
    /// `Fault`: the word isn't a node, or isn't a coordinate (`Number`); the node already has a
    /// group (`RepeatedNode`); or every node has one (`Surplus`). The list then has the words from
    /// before. No memory is taken.
    pub fn push(&mut self, word: &[u8]) -> Result<(), StepFault>
        ensures takes { (in_space : Bool) (n : ℕ) (words : List (List ℕ))
            → HoldsPoints self.old in_space n words → Takes n (place_by (shape_of_points in_space)
            n words) word.now (HoldsPoints self.new in_space n (words ++ word.now ∷ [])) result }
        ensures kept { IfErr result (λ _. (in_space : Bool) (n : ℕ) (words : List (List ℕ))
            → HoldsPoints self.old in_space n words → HoldsPoints self.new in_space n words) }
        ensures memory { (refused : Refused) → result ≢ Err (Memory refused) }
    {
        if self.left == 0 {
            if is_minus_one(word) {
                return Ok(());
            }
            return Err(StepFault::Fault(LineFault::Surplus));
        }
        match self.begun {
            None => match new_node(self.seen.as_slice(), word) {
                Ok(node) => {
                    self.begun = Some(node);
                    Ok(())
                }
                Err(fault) => Err(StepFault::Fault(fault)),
            },
            Some(node) => match parse_decimal(word) {
                Ok(coordinate) => {
                    self.put(node, coordinate);
                    Ok(())
                }
                Err(fault) => Err(StepFault::Fault(LineFault::Number(fault))),
            },
        }
    }

    /// Takes the next coordinate of the group that has begun.
    #[inline(always)]
    fn put(&mut self, node: u32, coordinate: Decimal)
        requires to_come { 0 < self.old.left }
        requires begun { self.old.begun ≡ Some node }
        ensures { (in_space : Bool) (n : ℕ) (words : List (List ℕ)) (word : List ℕ)
            → HoldsPoints self.old in_space n words → decimal_of word ≡ Ok coordinate
            → (word_fault n (place_by (shape_of_points in_space) n words) word ≡ None)
            × HoldsPoints self.new in_space n (words ++ word ∷ []) }
    {
        let Some(x) = self.x else {
            self.x = Some(coordinate);
            return;
        };
        let y = self.y;
        match &mut self.entries {
            Coords::Plane(points) => {
                points[node as usize - 1] = PlanePoint { x, y: coordinate };
            }
            Coords::Space(points) => {
                let Some(y) = y else {
                    self.y = Some(coordinate);
                    return;
                };
                points[node as usize - 1] = Point {
                    x,
                    y,
                    z: coordinate,
                };
            }
        }
        self.seen[node as usize - 1] = true;
        self.left -= 1;
        self.begun = None;
        self.x = None;
        self.y = None;
    }

    /// Whether a group has begun, so that the next word is a coordinate.
    #[inline(always)]
    pub fn wants_coordinate(&self) -> bool
        ensures { result ≡ is_some self.now.begun }
    {
        self.begun.is_some()
    }

    /// Takes a number as the node of a new group, if possible, and returns whether it did.
    #[inline(always)]
    pub fn push_read(&mut self, number: i64) -> bool
        ensures taken { result ≡ true → (in_space : Bool) (n : ℕ) (words : List (List ℕ))
            (word : List ℕ) → IsWhole word number → HoldsPoints self.old in_space n words
            → Takes n (place_by (shape_of_points in_space) n words) word
            (HoldsPoints self.new in_space n (words ++ word ∷ [])) (Ok tt) }
        ensures kept { result ≡ false → (in_space : Bool) (n : ℕ) (words : List (List ℕ))
            → HoldsPoints self.old in_space n words → HoldsPoints self.new in_space n words }
        ensures refused { result ≡ false → 0 < self.old.left → self.old.begun ≡ None
            → (k : ℕ) → number ≡ pos k → IsNodeOf (length self.old.seen.items) k
            → slice_index_or self.old.seen.items (k - 1) false ≡ true }
    {
        match self.begun {
            None if self.left > 0 => match unmarked_node(self.seen.as_slice(), number) {
                Some(node) => {
                    self.begun = Some(node);
                    true
                }
                None => false,
            },
            _ => false,
        }
    }

    /// Takes a coordinate of the open group, if there is one, and returns whether it did.
    #[inline(always)]
    pub fn push_coordinate(&mut self, coordinate: Decimal) -> bool
        ensures taken { result ≡ true
            → (in_space : Bool) (n : ℕ) (words : List (List ℕ)) (word : List ℕ)
            → decimal_of word ≡ Ok coordinate → HoldsPoints self.old in_space n words
            → Takes n (place_by (shape_of_points in_space) n words) word
            (HoldsPoints self.new in_space n (words ++ word ∷ [])) (Ok tt) }
        ensures kept { result ≡ false → (in_space : Bool) (n : ℕ) (words : List (List ℕ))
            → HoldsPoints self.old in_space n words → HoldsPoints self.new in_space n words }
        ensures refused { result ≡ false → 0 < self.old.left → self.old.begun ≡ None }
    {
        match self.begun {
            Some(node) if self.left > 0 => {
                self.put(node, coordinate);
                true
            }
            _ => false,
        }
    }

    /// The list by node, and whether a group is still missing.
    pub fn finish(self) -> (Coords, bool)
        ensures { (in_space : Bool) (n : ℕ) (words : List (List ℕ)) → HoldsPoints self
            in_space n words → (points_of result.0 ≡ coords_by_node in_space n words)
            × (result.1 ≡ wants_more (place_by (shape_of_points in_space) n words)) }
    {
        let wants_more = self.left > 0;
        (self.entries, wants_more)
    }
}

// ---- the list that takes the words of a section with a whole number for each node

/// A section of numbers so far: its words come in groups of a node and a whole number.
#[derive(Drop)]
pub struct NumberList {
    seen: Vec<bool>,
    entries: Vec<i64>,
    left: u32,
    begun: Option<u32>,
    low: i64,
    high: i64,
    ghost same: { vec_len entries ≡ vec_len seen },
    ghost narrow: { vec_len seen < 2 ^ 32 },
    ghost within: { ForSome begun (λ k. (1 ≤ k) × (k ≤ vec_len seen)) },
}

impl NumberList {
    ghost use Rattle.tsp_read.specs.Prelude.{place_of_number, numbers_by_node, IsWhole, wants_more};
    ghost use Rattle.tsp_read.specs.declared.step_fault.StepFault.TheVariants.{Memory};
    ghost use Rattle.tsp_read.specs.states.Parts.{Takes, IsNodeOf};
    ghost use Rattle.tsp_read.specs.states.HeldParts.{HoldsNumbers};

    /// The list at the opening of the section, in a file of `n` nodes. Its numbers are from `low`
    /// to `high`.
    ///
    /// # Errors
    ///
    /// Out of memory.
    pub fn open(alloc: Global, n: u32, low: i64, high: i64) -> Result<NumberList, Refused>
        ensures { IfOk result (λ part. HoldsNumbers part low high n []) }
    {
        Ok(NumberList {
            seen: filled(alloc, false, n as usize)?,
            entries: filled(alloc, 0, n as usize)?,
            left: n,
            begun: None,
            low,
            high,
        })
    }

    /// Takes the next word.
    ///
    /// # Errors
    ///
    /// `Fault`: the word isn't a node, or isn't a number from `low` to `high` (`Number`); the node
    /// already has a group (`RepeatedNode`); or every node has one (`Surplus`). The list then has
    /// the words from before. No memory is taken.
    pub fn push(&mut self, word: &[u8]) -> Result<(), StepFault>
        ensures takes { (low high : ℤ) (n : ℕ) (words : List (List ℕ))
            → HoldsNumbers self.old low high n words
            → Takes n (place_of_number low high n words) word.now
            (HoldsNumbers self.new low high n (words ++ word.now ∷ [])) result }
        ensures kept { IfErr result (λ _. (low high : ℤ) (n : ℕ) (words : List (List ℕ))
            → HoldsNumbers self.old low high n words → HoldsNumbers self.new low high n words) }
        ensures memory { (refused : Refused) → result ≢ Err (Memory refused) }
    {
        if self.left == 0 {
            if is_minus_one(word) {
                return Ok(());
            }
            return Err(StepFault::Fault(LineFault::Surplus));
        }
        match self.begun {
            None => match new_node(self.seen.as_slice(), word) {
                Ok(node) => {
                    self.begun = Some(node);
                    Ok(())
                }
                Err(fault) => Err(StepFault::Fault(fault)),
            },
            Some(node) => match parse_whole(word, self.low, self.high) {
                Ok(number) => {
                    self.seen[node as usize - 1] = true;
                    self.entries[node as usize - 1] = number;
                    self.left -= 1;
                    self.begun = None;
                    Ok(())
                }
                Err(fault) => Err(StepFault::Fault(LineFault::Number(fault))),
            },
        }
    }

    /// Takes a number as the node or the value of a group, if possible, and returns whether it did.
    #[inline(always)]
    pub fn push_read(&mut self, number: i64) -> bool
        ensures taken { result ≡ true
            → (low high : ℤ) (n : ℕ) (words : List (List ℕ)) (word : List ℕ) → IsWhole word number
            → HoldsNumbers self.old low high n words → Takes n (place_of_number low high n words)
            word (HoldsNumbers self.new low high n (words ++ word ∷ [])) (Ok tt) }
        ensures kept { result ≡ false → self.new ≡ self.old }
        ensures node { result ≡ false → 0 < self.old.left → self.old.begun ≡ None
            → (k : ℕ) → number ≡ pos k → IsNodeOf (length self.old.seen.items) k
            → slice_index_or self.old.seen.items (k - 1) false ≡ true }
        ensures amount { result ≡ false → 0 < self.old.left → (node : ℕ)
            → self.old.begun ≡ Some node → self.old.low ≤ℤ number → number ≤ℤ self.old.high → ⊥ }
    {
        if self.left == 0 {
            return false;
        }
        match self.begun {
            None => match unmarked_node(self.seen.as_slice(), number) {
                Some(node) => {
                    self.begun = Some(node);
                    true
                }
                None => false,
            },
            Some(node) => {
                if number < self.low || number > self.high {
                    return false;
                }
                self.seen[node as usize - 1] = true;
                self.entries[node as usize - 1] = number;
                self.left -= 1;
                self.begun = None;
                true
            }
        }
    }

    /// The list by node, and whether a group is still missing.
    pub fn finish(self) -> (Vec<i64>, bool)
        ensures { (low high : ℤ) (n : ℕ) (words : List (List ℕ)) → HoldsNumbers self
            low high n words → (result.0.items ≡ numbers_by_node low high n words)
            × (result.1 ≡ wants_more (place_of_number low high n words)) }
    {
        let wants_more = self.left > 0;
        (self.entries, wants_more)
    }
}
