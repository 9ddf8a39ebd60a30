//! Laws about every valid file: its fields are in their ranges, it has the sections that its TYPE
//! requires, and its costs obey the inequalities of their weight type. They let a reader of
//! docs/trust.md check `specs/Valid.antt` and `specs/ByInequalities.antt` instead of the tests in
//! the code. The law on the length of a text is called by `round_trip.rt` in tsp_read; no code calls
//! the others.

ghost use Rattle.tsp_file.specs.Prelude.{None, IsTrue, IsSome, ℕ, [], length, Some, unwrap_or, pos, unsigned_abs, WeightKind, Explicit};
ghost use Rattle.std.specs.Prelude.{◌≡◌, ◌≢◌, ◌<◌};
ghost use Rattle.tsp_file.specs.ByInequalities.{IsDistanceBy};
ghost use Rattle.tsp_file.specs.CanonicalText.{text_of};
ghost use Rattle.tsp_file.specs.Cost.{cost, point_of};
ghost use Rattle.tsp_file.specs.Fields.{Fields};
ghost use Rattle.tsp_file.specs.Rules.{fault_of, is_instance, is_routing, is_tour_file, is_potentials_file, is_branches_file};
ghost use Rattle.tsp_file.specs.Valid.{IsInRange, HasInstance, HasRouting, HasPotentials, HasBranches};

use tsp_number::distance_laws;

/// The fields of a valid file are in their ranges: the number of nodes, the lists by node, the
/// nodes in other lists, and the sizes of numbers. There are as many weights as the layout has
/// cells.
pub fn valid_fields_are_in_range()
    ensures { (f : Fields) → fault_of f ≡ None → IsInRange f }
{}

/// A valid file has the fields that its TYPE requires.
pub fn valid_files_are_complete()
    ensures kind { (f : Fields) → fault_of f ≡ None → IsSome f.kind }
    ensures instance { (f : Fields)
        → fault_of f ≡ None → IsTrue (is_instance f.kind) → HasInstance f }
    ensures routing { (f : Fields) → fault_of f ≡ None → IsTrue (is_routing f.kind) → HasRouting f }
    ensures tours { (f : Fields) → fault_of f ≡ None → IsTrue (is_tour_file f.kind) → IsSome f.tours }
    ensures potentials { (f : Fields) → fault_of f ≡ None → IsTrue (is_potentials_file f.kind)
        → HasPotentials f }
    ensures branches { (f : Fields) → fault_of f ≡ None → IsTrue (is_branches_file f.kind) → HasBranches f }
{}

/// A cost by coordinates is the one number that satisfies the inequalities of the weight type's
/// distance between the points of both nodes.
pub fn costs_are_by_inequalities()
    ensures defined { (f : Fields) (kind : WeightKind) (i j : ℕ) → f.weight_kind ≡ Some kind
        → kind ≢ Explicit → IsDistanceBy kind (point_of (unwrap_or f.coords []) i)
        (point_of (unwrap_or f.coords []) j) (unsigned_abs (cost f i j)) }
    ensures unique { (f : Fields) (kind : WeightKind) (i j k : ℕ)
        → f.weight_kind ≡ Some kind → IsDistanceBy kind (point_of (unwrap_or f.coords []) i)
        (point_of (unwrap_or f.coords []) j) k → cost f i j ≡ pos k }
{
    distance_laws();
}

/// The canonical text of every valid file has fewer than 750,000,000 bytes. This follows from the
/// limits of this project's profile. The largest file has a matrix of 5,000 * 5,000 weights, each
/// of at most 14 bytes and one after it, and a tree with 10,000,000 differences, each of which
/// takes at most 25 bytes with its index. Without families and branches the text has fewer than
/// 500,000,000 bytes.
pub fn a_valid_text_is_short()
    ensures whole { (f : Fields) → fault_of f ≡ None → length (text_of f) < 750000000 }
    ensures without_trees { (f : Fields) → fault_of f ≡ None → f.families ≡ None → f.branches ≡ None
        → length (text_of f) < 500000000 }
{}
