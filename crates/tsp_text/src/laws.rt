//! Laws that say why a text may be read in pieces: it has exactly one answer, its file or its first
//! fault, and what is settled stays settled, whatever bytes follow. Proofs in tsp_read rest on
//! them.

ghost use Rattle.tsp_text.specs.Prelude.{ℕ, List, Some, true, None, false, Field, BranchPart};
ghost use Rattle.std.specs.Prelude.{◌≡◌, ◌≢◌, ◌++◌};
ghost use Rattle.tsp_file.specs.Fields.{Fields};
ghost use Rattle.tsp_file.specs.Rules.{fault_of};
ghost use Rattle.tsp_file.specs.Validity.{bad_field};
ghost use Rattle.tsp_text.specs.Earlier.{has_line, words_of, spatial_after, dimension_in};
ghost use Rattle.tsp_text.specs.Groups.{is_by_node_field, group_nodes, HasEachNodeOnce};
ghost use Rattle.tsp_text.specs.Items.{Item, AreCut, has_end_line};
ghost use Rattle.tsp_text.specs.ParsesTo.{fault_in, IsClean, IsFirstFault, fault, ParsesTo, NoneHasRow, HasOneAnswer, is_of_text, spelled, is_incomplete, fault_at_end, part, settled_part, settled_fault};
ghost use Rattle.tsp_text.specs.declared.fault.ReadFault.{ReadFault};

/// The first fault of a list of items belongs to the first item to which a row applies, and to the
/// first such row.
///
/// No code calls it. It is here for readers: `fault_in`, which computes a fault, finds the first
/// one.
pub fn first_faults()
    ensures found { (items : List Item) (found : ReadFault)
        → fault_in items ≡ Some found → IsFirstFault items found }
    ensures first { (items : List Item) (found : ReadFault)
        → IsFirstFault items found → fault_in items ≡ Some found }
    ensures clean { (items : List Item) → IsClean items → NoneHasRow items }
    ensures none { (items : List Item) → NoneHasRow items → IsClean items }
{}

/// Every text has exactly one answer: the file that it parses to, or its first fault. So it never
/// has both, and parses to at most one file.
pub fn texts_have_one_answer()
    ensures one { (bytes : List ℕ) → HasOneAnswer bytes }
    ensures never_both { (bytes : List ℕ) (file : Fields) (found : ReadFault)
        → ParsesTo bytes file → fault bytes ≢ Some found }
    ensures one_file { (bytes : List ℕ) (file other : Fields)
        → ParsesTo bytes file → ParsesTo bytes other → file ≡ other }
    ensures of_text { (bytes : List ℕ) (found : ReadFault)
        → fault bytes ≡ Some found → is_of_text found ≡ true }
{}

/// The fields of items without a fault are valid, field by field, provided that the tree of cases,
/// if there is one, is whole.
///
/// No code calls it. It is here for readers: a text whose lines have no fault has no invalid field.
pub fn clean_fields_are_valid()
    ensures of_items { (items : List Item) → AreCut items → IsClean items
        → is_incomplete items BranchPart ≡ false → bad_field (spelled items) ≡ None }
    ensures of_text { (bytes : List ℕ) → IsClean (part bytes)
        → is_incomplete (part bytes) BranchPart ≡ false → bad_field (spelled (part bytes)) ≡ None }
{}

/// The fields that a text parses to are a file: neither a field nor the fields together have a
/// fault.
pub fn spelled_files_are_valid()
    ensures of_items { (items : List Item) → AreCut items
        → IsClean items → fault_at_end items ≡ None → fault_of (spelled items) ≡ None }
    ensures of_text { (bytes : List ℕ) (file : Fields) → ParsesTo bytes file → fault_of file ≡ None }
{}

/// A settled fault is the fault of every longer text, and stays settled.
pub fn settled_faults_stay()
    ensures stays { (bytes more : List ℕ) (found : ReadFault)
        → settled_fault bytes ≡ Some found → fault (bytes ++ more) ≡ Some found }
    ensures settled { (bytes more : List ℕ) (found : ReadFault)
        → settled_fault bytes ≡ Some found → settled_fault (bytes ++ more) ≡ Some found }
{}

/// A settled end line ends every longer text, if no line before it has a fault.
pub fn settled_ends_stay()
    ensures part { (bytes more : List ℕ)
        → IsClean (settled_part bytes) → has_end_line (settled_part bytes) ≡ true
        → part (bytes ++ more) ≡ settled_part bytes }
    ensures fault { (bytes more : List ℕ)
        → IsClean (settled_part bytes) → has_end_line (settled_part bytes) ≡ true
        → fault (bytes ++ more) ≡ fault bytes }
{}

/// A section by node that is present, complete and without a fault has one group for each node.
pub fn each_node_has_one_group()
    ensures { (items : List Item) (field : Field)
        → IsClean items → is_by_node_field field ≡ true → has_line field items ≡ true
        → is_incomplete items field ≡ false → HasEachNodeOnce (dimension_in items)
        (group_nodes (spatial_after items) field (dimension_in items) (words_of field items)) }
{}
