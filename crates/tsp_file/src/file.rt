//! `File`, a valid file that can't be changed, with a method for each field. All crates above use
//! it. `fault_of` in `specs/Rules.antt` pins which files are valid.

use crate::coords::Coords;
use crate::draft::Draft;
use crate::relayout::{keep_half, make_whole};
use crate::rules::{DraftFault, end_fault};
use crate::table::bad_field;
use std::marker::Model;
use tsp_format::{
    CoordKind, DisplayKind, Kind, Layout, RowSets, TreeStep, WeightFormat, WeightKind,
};

/// A valid TSPLIB 95 file.
///
/// [`File::of`] makes it from a draft, and tsp_read from a text. It has a method for each field,
/// which returns a reference.
#[derive(Debug)]
pub struct File {
    draft: Draft,
}

/// Drops each field, as a derive would.
impl Drop for File {
    fn drop(self) {
        let File { draft: _ } = self;
    }
}

impl Model for File {
    ghost use Rattle.std.specs.Prelude.{◌≡◌, None};
    ghost use Rattle.tsp_file.specs.Fields.{Fields};
    ghost use Rattle.tsp_file.specs.states.Drafts.{fields_of};
    ghost use Rattle.tsp_file.specs.Rules.{fault_of};

    ghost Value = { Fields };

    ghost view = { λ f. fields_of f.draft };

    ghost invariant = { λ f. fault_of (fields_of f.draft) ≡ None };
}

impl File {
    ghost use Rattle.tsp_file.specs.Prelude.{Some, None, IsSome, length, map, MatchResult, All, option_map, cells, most_weight, FullMatrix, Listed, steps_of};
    ghost use Rattle.std.specs.Prelude.{◌≡◌, ◌≢◌};
    ghost use Rattle.tsp_file.specs.states.Drafts.{points_of, fields_of, families_of};
    ghost use Rattle.tsp_file.specs.Valid.{IsWithin};
    ghost use Rattle.tsp_file.specs.Cost.{cost};
    ghost use Rattle.tsp_file.specs.Relayout.{CanGo, with_weights, costs_in};
    ghost use Rattle.tsp_file.specs.Fields.{nodes_of};
    ghost use Rattle.tsp_file.specs.Cost.{HoldsItsType};
    ghost use Rattle.tsp_file.specs.Rules.{fault_of};

    /// The fields of this file, as a draft without a fault: all that its TYPE requires are present,
    /// and each is in its range.
    pub fn fields(&self) -> &Draft
        ensures value { fields_of result.now ≡ self.now }
        ensures valid { fault_of self.now ≡ None }
        ensures held { HoldsItsType self.now }
    {
        &self.draft
    }

    /// The file with the fields of a draft, or the draft's first fault along with the draft,
    /// unchanged.
    ///
    /// # Errors
    ///
    /// `BadField` with the first field, in canonical order, that isn't valid on its own; otherwise
    /// `Rule` with the first rule over several fields that fails. No memory is taken.
    pub fn of(d: Draft) -> Result<File, (DraftFault, Draft)>
        ensures { MatchResult result
            (λ file. (file ≡ fields_of d) × (fault_of (fields_of d) ≡ None))
            (λ refused. (fault_of (fields_of d) ≡ Some refused.0) × (refused.1 ≡ d)) }
    {
        if let Some(field) = bad_field(&d) {
            return Err((DraftFault::BadField(field), d));
        }
        if let Some(rule) = end_fault(&d, None) {
            return Err((DraftFault::Rule(rule), d));
        }
        Ok(File { draft: d })
    }

    /// The file of a draft without a fault. Nothing is checked: the caller must know that there is
    /// no fault.
    pub fn of_valid(d: Draft) -> File
        requires { fault_of (fields_of d) ≡ None }
        ensures { result ≡ fields_of d }
    {
        File { draft: d }
    }

    /// This file with other weights, in a layout. Every other field stays as it is.
    ///
    /// # Requires
    ///
    /// A file that has weights, and as many new ones as the layout has cells.
    pub(crate) fn with_weights(self, layout: Layout, weights: Vec<i64>) -> File
        requires stand { IsSome self.weights }
        requires count { length weights.items ≡ length (cells layout (nodes_of self)) }
        requires sizes { All (IsWithin most_weight) weights.items }
        ensures { result ≡ with_weights self layout weights.items }
    {
        let File { mut draft } = self;
        draft.weight_format = Some(WeightFormat::Listed(layout));
        draft.weights = Some(weights);
        File { draft }
    }

    /// This file with its weights, a full matrix, in another layout that can hold their costs.
    pub(crate) fn with_half(self, to: Layout) -> File
        requires full { self.weight_format ≡ Some (Listed FullMatrix) }
        requires can_go { CanGo self to }
        ensures { result ≡ with_weights self to (costs_in to (nodes_of self) (cost self)) }
    {
        let File { mut draft } = self;
        let nodes = draft.dimension.unwrap();
        let mut weights = draft.weights.take().unwrap();
        keep_half(to, nodes, &mut weights);
        draft.weight_format = Some(WeightFormat::Listed(to));
        draft.weights = Some(weights);
        File { draft }
    }

    /// This file with a full matrix in place of half of one.
    ///
    /// # Errors
    ///
    /// Out of memory, along with the unchanged file.
    pub(crate) fn with_whole(self, from: Layout) -> Result<File, File>
        requires half { from ≢ FullMatrix }
        requires format { self.weight_format ≡ Some (Listed from) }
        requires can_go { CanGo self FullMatrix }
        ensures { MatchResult result (λ file. file ≡ with_weights self FullMatrix
            (costs_in FullMatrix (nodes_of self) (cost self))) (λ back. back ≡ self) }
    {
        let File { mut draft } = self;
        let nodes = draft.dimension.unwrap();
        let mut weights = draft.weights.take().unwrap();
        if make_whole(from, nodes, &mut weights).is_err() {
            draft.weights = Some(weights);
            return Err(File { draft });
        }
        draft.weight_format = Some(WeightFormat::Listed(Layout::FullMatrix));
        draft.weights = Some(weights);
        Ok(File { draft })
    }

    /// NAME, as bytes.
    pub fn name(&self) -> Option<&[u8]>
        ensures { option_map (λ entries. entries.now) result ≡ self.now.name }
    {
        self.draft.name.as_deref()
    }

    /// TYPE, which every file has.
    pub fn kind(&self) -> Kind
        ensures { Some result ≡ self.now.kind }
    {
        self.draft.kind.unwrap()
    }

    /// The COMMENT lines, in order.
    pub fn comments(&self) -> &[Vec<u8>]
        ensures { map (λ comment. comment.items) result.now ≡ self.now.comments }
    {
        self.draft.comments.as_slice()
    }

    /// The lines of unknown keywords, in order: keyword and value.
    pub fn others(&self) -> &[(Vec<u8>, Vec<u8>)]
        ensures { map (λ line. (line.0.items, line.1.items)) result.now ≡ self.now.others }
    {
        self.draft.others.as_slice()
    }

    /// DIMENSION: the number of nodes, 1 to 100,000.
    pub fn dimension(&self) -> Option<u32>
        ensures { result ≡ self.now.dimension }
    {
        self.draft.dimension
    }

    /// CAPACITY of a vehicle, 1 to 10^12.
    pub fn capacity(&self) -> Option<i64>
        ensures { result ≡ self.now.capacity }
    {
        self.draft.capacity
    }

    /// SCALE of the potentials, 1 to 1,000,000. A file without it means 1.
    pub fn scale(&self) -> Option<i64>
        ensures { result ≡ self.now.scale }
    {
        self.draft.scale
    }

    /// LOAD_UNIT of a certificate for routes, 1 to 1,000,000,000,000. A file without it means 1.
    pub fn load_unit(&self) -> Option<i64>
        ensures { result ≡ self.now.load_unit }
    {
        self.draft.load_unit
    }

    /// EDGE_WEIGHT_TYPE.
    pub fn weight_kind(&self) -> Option<WeightKind>
        ensures { result ≡ self.now.weight_kind }
    {
        self.draft.weight_kind
    }

    /// EDGE_WEIGHT_FORMAT.
    pub fn weight_format(&self) -> Option<WeightFormat>
        ensures { result ≡ self.now.weight_format }
    {
        self.draft.weight_format
    }

    /// NODE_COORD_TYPE.
    pub fn coord_kind(&self) -> Option<CoordKind>
        ensures { result ≡ self.now.coord_kind }
    {
        self.draft.coord_kind
    }

    /// DISPLAY_DATA_TYPE.
    pub fn display_kind(&self) -> Option<DisplayKind>
        ensures { result ≡ self.now.display_kind }
    {
        self.draft.display_kind
    }

    /// NODE_COORD_SECTION: a point for each node.
    pub fn coords(&self) -> Option<&Coords>
        ensures { option_map (λ points. points_of points.now) result ≡ self.now.coords }
    {
        self.draft.coords.as_ref()
    }

    /// DISPLAY_DATA_SECTION: a point for each node.
    pub fn display(&self) -> Option<&Coords>
        ensures { option_map (λ points. points_of points.now) result ≡ self.now.display }
    {
        self.draft.display.as_ref()
    }

    /// DEMAND_SECTION: a demand for each node.
    pub fn demands(&self) -> Option<&[i64]>
        ensures { option_map (λ entries. entries.now) result ≡ self.now.demands }
    {
        self.draft.demands.as_deref()
    }

    /// DEPOT_SECTION: nodes.
    pub fn depots(&self) -> Option<&[u32]>
        ensures { option_map (λ entries. entries.now) result ≡ self.now.depots }
    {
        self.draft.depots.as_deref()
    }

    /// FIXED_EDGES_SECTION: pairs of different nodes.
    pub fn fixed(&self) -> Option<&[(u32, u32)]>
        ensures { option_map (λ entries. entries.now) result ≡ self.now.fixed }
    {
        self.draft.fixed.as_deref()
    }

    /// EDGE_WEIGHT_SECTION: the weights, in the order of the layout.
    pub fn weights(&self) -> Option<&[i64]>
        ensures { option_map (λ entries. entries.now) result ≡ self.now.weights }
    {
        self.draft.weights.as_deref()
    }

    /// TOUR_SECTION: tours, none of them empty.
    pub fn tours(&self) -> Option<&[Vec<u32>]>
        ensures { option_map (λ tours. map (λ tour. tour.items) tours.now) result ≡ self.now.tours }
    {
        self.draft.tours.as_deref()
    }

    /// NODE_POTENTIAL_SECTION: a potential for each node.
    pub fn node_potentials(&self) -> Option<&[i64]>
        ensures { option_map (λ entries. entries.now) result ≡ self.now.node_potentials }
    {
        self.draft.node_potentials.as_deref()
    }

    /// ROW_POTENTIAL_SECTION: a potential for each row.
    pub fn row_potentials(&self) -> Option<&[i64]>
        ensures { option_map (λ entries. entries.now) result ≡ self.now.row_potentials }
    {
        self.draft.row_potentials.as_deref()
    }

    /// COLUMN_POTENTIAL_SECTION: a potential for each column.
    pub fn column_potentials(&self) -> Option<&[i64]>
        ensures { option_map (λ entries. entries.now) result ≡ self.now.column_potentials }
    {
        self.draft.column_potentials.as_deref()
    }

    /// FIXED_EDGE_POTENTIAL_SECTION: two different nodes and the multiplier of their edge, a count
    /// of 1 / scale.
    pub fn fixed_potentials(&self) -> Option<&[(u32, u32, i64)]>
        ensures { option_map (λ entries. entries.now) result ≡ self.now.fixed_potentials }
    {
        self.draft.fixed_potentials.as_deref()
    }
    /// COMB_SECTION: families, each as its sets of nodes, a comb with its handle first. A judge
    /// decides whether they are good.
    pub fn families(&self) -> Option<&[Vec<Vec<u32>>]>
        ensures { option_map (λ families. families_of families.now) result ≡ self.now.families }
    {
        self.draft.families.as_deref()
    }

    /// BRANCH_SECTION: the steps of one tree of cases.
    pub fn branches(&self) -> Option<&[TreeStep]>
        ensures { option_map (λ steps. steps_of steps.now) result ≡ self.now.branches }
    {
        self.draft.branches.as_deref()
    }
}

// ---- what customers remember, and subset rows

// `AreSomeLists` and `AreSomeRows` in `specs/Cost.antt` pin what a valid file contains.

impl File {
    ghost use Rattle.tsp_file.specs.Prelude.{[], map, option_map, subset_rows_of, unwrap_or};
    ghost use Rattle.std.specs.Prelude.{◌≡◌};
    ghost use Rattle.tsp_file.specs.Fields.{nodes_of};
    ghost use Rattle.tsp_file.specs.Cost.{AreSomeLists, AreSomeRows};

    /// MEMORY_SECTION: lists of nodes, none of them empty. The first node of each list remembers
    /// the others. Judges decide whether they are customers.
    pub fn memories(&self) -> Option<&[Vec<u32>]>
        ensures { option_map (λ lists. map (λ list. list.items) lists.now) result
            ≡ self.now.memories }
    {
        self.fields().memories.as_deref()
    }

    /// SUBSET_ROW_SECTION: rows, each with a set that isn't empty. Judges decide whether its nodes
    /// are customers.
    pub fn subset_rows(&self) -> Option<&[RowSets]>
        ensures { option_map (λ rows. subset_rows_of rows.now) result ≡ self.now.subset_rows }
    {
        self.fields().subset_rows.as_deref()
    }

    /// The lists of what customers remember; empty if no section has them.
    pub(crate) fn memories_or_none(&self) -> &[Vec<u32>]
        ensures value { map (λ list. list.items) result.now ≡ unwrap_or self.now.memories [] }
        ensures are { AreSomeLists (nodes_of self.now) (map (λ list. list.items) result.now) }
    {
        match &self.fields().memories {
            Some(lists) => lists.as_slice(),
            None => &[],
        }
    }

    /// The subset rows; empty if no section has them.
    pub(crate) fn rows_or_none(&self) -> &[RowSets]
        ensures value { subset_rows_of result.now ≡ unwrap_or self.now.subset_rows [] }
        ensures are { AreSomeRows (nodes_of self.now) (subset_rows_of result.now) }
    {
        match &self.fields().subset_rows {
            Some(rows) => rows.as_slice(),
            None => &[],
        }
    }
}
