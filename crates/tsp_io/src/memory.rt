//! The calls that take memory for lists and sets, for all crates above. Only this crate can make
//! their error `Refused`, and only after std has refused memory, so an error that carries one
//! proves that memory was refused. A new call must keep to this.

ghost use Rattle.std.specs.BTreeSet.{contains, Updates, IsUnchanged};
ghost use Rattle.std.specs.Prelude.{◌≡◌, ◌+◌, ◌++◌, [], ◌∷◌, IfOk, OnErr, OnOk, MatchResult, length, vec_len, vec_capacity, replicate, false, true, not};

use std::alloc::{AllocError, Global};
use std::collections::BTreeSet;

/// Out of memory. Only this crate makes this token, and only if std has refused memory.
#[derive(Clone, Copy, Debug, Drop)]
pub struct Refused {
    error: AllocError,
}

impl Refused {
    /// The token for an error of std that refused memory.
    pub(crate) fn of(error: AllocError) -> Refused {
        Refused { error }
    }
}

impl From<Refused> for AllocError {
    fn from(refused: Refused) -> AllocError {
        refused.error
    }
}

// ---- calls that make, fill, lengthen and copy a vector

/// An empty list with memory for this many elements.
///
/// # Errors
///
/// Out of memory.
pub fn with_capacity<T>(alloc: Global, capacity: usize) -> Result<Vec<T>, Refused>
    ensures items { IfOk result (λ list. list.items ≡ []) }
    ensures len { IfOk result (λ list. vec_len list ≡ 0) }
    ensures exact { IfOk result (λ list. vec_capacity list ≡ capacity) }
{
    match Vec::with_capacity(alloc, capacity) {
        Ok(list) => Ok(list),
        Err(error) => Err(Refused::of(error)),
    }
}

/// A list with this many equal elements.
///
/// # Errors
///
/// Out of memory.
pub fn filled<T: Copy + Clone>(alloc: Global, element: T, count: usize) -> Result<Vec<T>, Refused>
    ensures len { IfOk result (λ list. vec_len list ≡ count) }
    ensures items_if_clones_equal { IfOk result
        (λ list. ((other : T) → T.is_clone element other → other ≡ element)
        → list.items ≡ replicate count element) }
{
    match vec![in alloc; element; count] {
        Ok(list) => Ok(list),
        Err(error) => Err(Refused::of(error)),
    }
}

/// Adds an element at the end.
///
/// # Errors
///
/// Out of memory. The list is then unchanged.
pub fn push<T: Drop>(list: &mut Vec<T>, element: T) -> Result<(), Refused>
    ensures items { MatchResult result
        (λ done. list.new.items ≡ list.old.items ++ element ∷ [])
        (λ refused. list.new.items ≡ list.old.items) }
    ensures len { MatchResult result
        (λ done. vec_len list.new ≡ vec_len list.old + 1)
        (λ refused. vec_len list.new ≡ vec_len list.old) }
{
    match list.push(element) {
        Ok(()) => Ok(()),
        Err(failed) => Err(Refused::of(AllocError::from(failed))),
    }
}

/// A copy of a list.
///
/// # Errors
///
/// Out of memory.
pub fn copied<T: Copy + Clone>(alloc: Global, elements: &[T]) -> Result<Vec<T>, Refused>
    ensures len { IfOk result (λ list. vec_len list ≡ length elements.now) }
    ensures items_if_clones_equal { IfOk result
        (λ list. ((element other : T) → T.is_clone element other → other ≡ element)
        → list.items ≡ elements.now) }
{
    match elements.to_vec(alloc) {
        Ok(list) => Ok(list),
        Err(error) => Err(Refused::of(error)),
    }
}

// ---- the call that adds a key to an ordered set, or returns `Refused`

/// Adds a key to a set, and returns whether it is new.
///
/// # Errors
///
/// Out of memory, which can only happen for a new key. The set is then unchanged.
pub fn insert<K: Ord + Drop>(set: &mut BTreeSet<K>, key: K) -> Result<bool, Refused>
    ensures added { IfOk result (λ added. added ≡ not (contains K.cmp set.old key)) }
    ensures updates { OnOk result (Updates K.cmp set.old set.new key true) }
    ensures absent { OnErr result (contains K.cmp set.old key ≡ false) }
    ensures unchanged { OnErr result (IsUnchanged set.old set.new) }
{
    match set.insert(key) {
        Ok(added) => Ok(added),
        Err(failed) => Err(Refused::of(AllocError::from(failed))),
    }
}
