//! What a file of each TYPE certainly has, without `Option`: tours, routing data, potentials,
//! duals, a tree of cases. tsp_verdict reads certificates and solutions through it. Also
//! `ListedWeights`, the costs of a listed matrix, and the search for a cost that another layout
//! would lose. `specs/Cost.antt` pins the values.

ghost use Rattle.tsp_file.specs.Prelude.{All, length, cells, most_matrix_nodes, most_weight, FindsAsymmetric, FullMatrix};
ghost use Rattle.std.specs.Prelude.{◌≡◌, ◌≤◌};
ghost use Rattle.tsp_file.specs.Cost.{listed_cost};
ghost use Rattle.tsp_file.specs.Valid.{IsWithin};

use crate::file::File;
use std::alloc::{AllocError, Global};
use tsp_format::{Kind, Layout, RowSets, TreeStep, WeightFormat, WeightKind};

/// The demands, depots and capacity of a file of TYPE CVRP.
#[derive(Clone, Copy, Debug)]
pub struct RoutingData<'a> {
    /// CAPACITY of a vehicle.
    pub capacity: i64,
    /// DEMAND_SECTION: a demand for each node.
    pub demands: &'a [i64],
    /// DEPOT_SECTION: nodes.
    pub depots: &'a [u32],
}

/// Potentials of nodes, along with the multipliers of fixed edges.
#[derive(Clone, Copy, Debug)]
pub struct NodeData<'a> {
    /// SCALE, which is 1 if it is missing.
    pub scale: i64,
    /// NODE_POTENTIAL_SECTION: a potential for each node.
    pub numbers: &'a [i64],
    /// FIXED_EDGE_POTENTIAL_SECTION: two nodes and a number each; empty if it is missing.
    pub multipliers: &'a [(u32, u32, i64)],
}

/// Potentials of rows and of columns.
#[derive(Clone, Copy, Debug)]
pub struct DualData<'a> {
    /// SCALE, which is 1 if it is missing.
    pub scale: i64,
    /// ROW_POTENTIAL_SECTION: a potential for each row.
    pub rows: &'a [i64],
    /// COLUMN_POTENTIAL_SECTION: a potential for each column.
    pub columns: &'a [i64],
}

/// The families, memories, subset rows, steps, scale and load unit of a file of TYPE BRANCHES.
#[derive(Clone, Copy, Debug)]
pub struct TreeData<'a> {
    /// SCALE, which is 1 if it is missing.
    pub scale: i64,
    /// LOAD_UNIT, which is 1 if it is missing.
    pub load_unit: i64,
    /// COMB_SECTION: families, each as its sets of nodes; empty if it is missing.
    pub families: &'a [Vec<Vec<u32>>],
    /// MEMORY_SECTION: lists of nodes, the first of which remembers the others; empty if it is
    /// missing.
    pub memories: &'a [Vec<u32>],
    /// SUBSET_ROW_SECTION: subset rows; empty if it is missing.
    pub subset_rows: &'a [RowSets],
    /// BRANCH_SECTION: the steps of one tree of cases.
    pub steps: &'a [TreeStep],
}

impl File {
    ghost use Rattle.tsp_file.specs.Prelude.{[], Some, IsSome, unwrap_or, pos, map, IfSome, MatchOption, Explicit, most_scale, most_load_unit, subset_rows_of, steps_of, IsFromTo};
    ghost use Rattle.std.specs.Prelude.{◌≡◌, ◌≢◌};
    ghost use Rattle.tsp_format.specs.declared.kinds.Kind.TheVariants as kinds;
    ghost use Rattle.tsp_file.specs.states.Drafts.{families_of};
    ghost use Rattle.tsp_file.specs.Valid.{AreTours};
    ghost use Rattle.tsp_file.specs.Cost.{ListsWeights};
    ghost use Rattle.tsp_file.specs.Relayout.{HasListedWeights};
    ghost use Rattle.tsp_file.specs.Fields.{nodes_of};
    ghost use Rattle.tsp_file.specs.Cost.{HoldsNodeNumbers, HoldsDuals, HoldsCases, HoldsMemory, AreMultipliersIn, AreSomeSets};

    /// The weights of this file with their layout; `None` if its weights aren't listed.
    #[inline]
    pub fn as_matrix(&self) -> Option<ListedWeights<'_>>
        ensures { MatchOption result (¬ HasListedWeights self.now)
            (λ listed. (self.now.weight_kind ≡ Some Explicit)
            × ListsWeights self.now listed.layout listed.nodes listed.weights.now) }
    {
        let fields = self.fields();
        if !matches!(fields.weight_kind, Some(WeightKind::Explicit)) {
            return None;
        }
        let weights = self.weights()?;
        let nodes = fields.dimension.unwrap();
        match self.weight_format() {
            Some(WeightFormat::Listed(layout)) => Some(ListedWeights::of(layout, nodes, weights)),
            Some(WeightFormat::ByFunction) => None,
            None => None,
        }
    }

    /// The tours of a file of TYPE TOUR; `None` for any other file.
    pub fn as_tours(&self) -> Option<&[Vec<u32>]>
        ensures { MatchOption result (self.now.kind ≢ Some kinds.Tour)
            (λ tours. (self.now.kind ≡ Some kinds.Tour)
            × (self.now.tours ≡ Some (map (λ tour. tour.items) tours.now))
            × AreTours (map (λ tour. tour.items) tours.now)) }
    {
        let Some(Kind::Tour) = self.fields().kind else {
            return None;
        };
        self.tours()
    }

    /// The potentials of nodes in a file of TYPE POTENTIALS; `None` if it has none, and for any
    /// other file.
    pub fn as_node_potentials(&self) -> Option<NodeData<'_>>
        ensures { MatchOption result
            (self.now.kind ≡ Some kinds.Potentials → IsSome self.now.node_potentials → ⊥)
            (λ held. HoldsNodeNumbers self.now held.scale held.numbers.now held.multipliers.now) }
    {
        let Some(Kind::Potentials) = self.fields().kind else {
            return None;
        };
        Some(NodeData {
            scale: self.scale_or_one(),
            numbers: self.node_potentials()?,
            multipliers: self.multipliers(),
        })
    }

    /// The potentials of rows and of columns in a file of TYPE POTENTIALS; `None` if it has none,
    /// and for any other file.
    pub fn as_duals(&self) -> Option<DualData<'_>>
        ensures { MatchOption result
            (self.now.kind ≡ Some kinds.Potentials → IsSome self.now.row_potentials
            → IsSome self.now.column_potentials → ⊥)
            (λ held. HoldsDuals self.now held.scale held.rows.now held.columns.now) }
    {
        let Some(Kind::Potentials) = self.fields().kind else {
            return None;
        };
        Some(DualData {
            scale: self.scale_or_one(),
            rows: self.row_potentials()?,
            columns: self.column_potentials()?,
        })
    }

    /// The families, memories, subset rows, steps, scale and load unit of a file of TYPE BRANCHES;
    /// `None` for any other file.
    pub fn as_tree(&self) -> Option<TreeData<'_>>
        ensures cases { MatchOption result (self.now.kind ≢ Some kinds.Branches) (λ held. HoldsCases
            self.now held.scale held.load_unit (families_of held.families.now) (steps_of held.steps.now)) }
        ensures memory { IfSome result (λ held. HoldsMemory self.now
            (map (λ list. list.items) held.memories.now) (subset_rows_of held.subset_rows.now)) }
    {
        let Some(Kind::Branches) = self.fields().kind else {
            return None;
        };
        Some(TreeData {
            scale: self.scale_or_one(),
            load_unit: self.load_unit_or_one(),
            families: self.families_or_none(),
            memories: self.memories_or_none(),
            subset_rows: self.rows_or_none(),
            steps: self.branches()?,
        })
    }

    /// SCALE, which is 1 if it is missing.
    fn scale_or_one(&self) -> i64
        ensures value { result ≡ unwrap_or self.now.scale (pos 1) }
        ensures range { IsFromTo (pos 1) (pos most_scale) result }
    {
        self.fields().scale.unwrap_or(1)
    }

    /// LOAD_UNIT, which is 1 if it is missing.
    fn load_unit_or_one(&self) -> i64
        ensures value { result ≡ unwrap_or self.now.load_unit (pos 1) }
        ensures range { IsFromTo (pos 1) (pos most_load_unit) result }
    {
        self.fields().load_unit.unwrap_or(1)
    }

    /// The multipliers of fixed edges; empty if no section lists them.
    fn multipliers(&self) -> &[(u32, u32, i64)]
        ensures value { result.now ≡ unwrap_or self.now.fixed_potentials [] }
        ensures are { AreMultipliersIn self.now result.now }
    {
        match &self.fields().fixed_potentials {
            Some(triples) => triples.as_slice(),
            None => &[],
        }
    }

    /// The families; empty if no section lists them.
    fn families_or_none(&self) -> &[Vec<Vec<u32>>]
        ensures value { families_of result.now ≡ unwrap_or self.now.families [] }
        ensures are { AreSomeSets (nodes_of self.now) (families_of result.now) }
    {
        match &self.fields().families {
            Some(families) => families.as_slice(),
            None => &[],
        }
    }
}

// ---- the weights that a file lists, their costs, and the costs that another layout can't hold

/// How many rows and columns a block of cells has. A block and its mirror image fit the cache
/// together.
const BLOCK: u32 = 64;

/// The first pair of a full matrix whose two costs differ.
///
/// The smaller node comes first; pairs are in the order of rows. No memory is taken.
///
/// # Requires
///
/// 1 to 5,000 nodes, and the weights of a full matrix over them, each in its range.
pub fn first_asymmetric(nodes: u32, weights: &[i64]) -> Option<(u32, u32)>
    requires some { 1 ≤ nodes }
    requires most { nodes ≤ most_matrix_nodes }
    requires filled { length weights.now ≡ length (cells FullMatrix nodes) }
    requires sizes { All (IsWithin most_weight) weights.now }
    ensures { FindsAsymmetric nodes (λ i j. listed_cost FullMatrix nodes weights.now i j) result }
{
    let full = ListedWeights {
        layout: Layout::FullMatrix,
        nodes,
        weights,
    };
    full.first_asymmetric()
}

/// The weights of a matrix over some nodes, as a layout lists them.
#[derive(Clone, Copy, Debug)]
pub struct ListedWeights<'a> {
    /// EDGE_WEIGHT_FORMAT.
    pub layout: Layout,
    /// DIMENSION.
    pub nodes: u32,
    /// EDGE_WEIGHT_SECTION: the weights, in the order of the layout.
    pub weights: &'a [i64],
    ghost some: { 1 ≤ nodes },
    ghost most: { nodes ≤ most_matrix_nodes },
    ghost filled: { length weights.now ≡ length (cells layout nodes) },
    ghost sizes: { All (IsWithin most_weight) weights.now },
}

impl<'a> ListedWeights<'a> {
    ghost use Rattle.tsp_file.specs.Prelude.{ℕ, false, map, pos, IsTrue, MatchOption, IfOk, OnOk, IsNode, cells_of_line, IsFirstAsymmetric};
    ghost use Rattle.std.specs.Prelude.{◌<◌, ◌+◌, ◌*◌, ◌≢◌, ◌++◌, ◌↔◌, ◌-◌};
    ghost use Rattle.tsp_file.specs.Fields.{Fields};
    ghost use Rattle.tsp_file.specs.Cost.{ListsWeights};
    ghost use Rattle.tsp_file.specs.Relayout.{HoldsPairs, HoldsDiagonal, lists_diagonal, IsFirstOnDiagonal, costs_in};
    ghost use Rattle.tsp_file.specs.states.Weights.{costs_of};

    /// These weights over this many nodes in this layout.
    pub(crate) fn of(layout: Layout, nodes: u32, weights: &'a [i64]) -> ListedWeights<'a>
        requires { (f : Fields) × ListsWeights f layout nodes weights.now }
        ensures layout { result.layout ≡ layout }
        ensures nodes { result.nodes ≡ nodes }
        ensures weights { result.weights.now ≡ weights.now }
    {
        ListedWeights {
            layout,
            nodes,
            weights,
        }
    }

    /// Whether the weights are listed in this layout.
    pub(crate) fn are_in(&self, layout: Layout) -> bool
        ensures { IsTrue result ↔ (self.now.layout ≡ layout) }
    {
        self.layout == layout
    }

    /// The cost from one node to another: the weight of the pair, that of the reverse pair if only
    /// this is listed, or else 0.
    #[inline]
    fn cost(&self, i: u32, j: u32) -> i64
        requires from { IsNode self.now.nodes i }
        requires to { IsNode self.now.nodes j }
        ensures { result ≡ costs_of self.now i j }
    {
        if self.layout.lists(i, j) {
            return self.weights[self.layout.place(self.nodes, i, j)];
        }
        if self.layout.lists(j, i) {
            return self.weights[self.layout.place(self.nodes, j, i)];
        }
        0
    }

    /// The weight of the pair, which is its cost in a full matrix.
    #[inline]
    fn weight(&self, i: u32, j: u32) -> i64
        requires full { self.now.layout ≡ FullMatrix }
        requires from { IsNode self.now.nodes i }
        requires to { IsNode self.now.nodes j }
        ensures { result ≡ costs_of self.now i j }
    {
        self.weights[Layout::FullMatrix.place(self.nodes, i, j)]
    }

    /// The first pair of nodes whose two costs differ, if another layout can hold only one of them.
    ///
    /// The smaller node comes first; pairs are in the order of rows.
    pub(crate) fn lost_pair(&self, to: Layout) -> Option<(u32, u32)>
        ensures { MatchOption result (HoldsPairs to (costs_of self.now)) (λ pair. (to ≢ FullMatrix)
            × IsFirstAsymmetric self.now.nodes (costs_of self.now) pair) }
    {
        if to == Layout::FullMatrix {
            return None;
        }
        match self.layout {
            Layout::FullMatrix => self.first_asymmetric(),
            // The costs of half a matrix are symmetric.
            _ => None,
        }
    }

    /// The first node whose cost to itself isn't 0, if another layout can't hold it.
    pub(crate) fn lost_diagonal(&self, to: Layout) -> Option<u32>
        ensures { MatchOption result
            (HoldsDiagonal to (costs_of self.now))
            (λ i. (lists_diagonal to ≡ false)
            × IsFirstOnDiagonal self.now.nodes (costs_of self.now) i) }
    {
        if to.lists(1, 1) {
            return None;
        }
        self.first_on_diagonal()
    }

    /// The first pair, the smaller node first, by rows, whose two costs differ.
    ///
    /// Most matrices that come here are symmetric, which is tested block by block. Only for the
    /// others is the pair searched by rows, which is slow because each step goes down a column of
    /// the whole matrix.
    fn first_asymmetric(&self) -> Option<(u32, u32)>
        requires { self.now.layout ≡ FullMatrix }
        ensures { FindsAsymmetric self.now.nodes (costs_of self.now) result }
    {
        if self.is_symmetric() {
            return None;
        }
        self.first_asymmetric_by_rows()
    }

    /// The result of `first_asymmetric`, found pair by pair.
    fn first_asymmetric_by_rows(&self) -> Option<(u32, u32)>
        ensures { FindsAsymmetric self.now.nodes (costs_of self.now) result }
    {
        'rows: for i in 1..self.nodes {
            if let Some(j) = self.first_asymmetric_of_row(i) {
                return Some((i, j));
            }
        }
        None
    }

    /// Whether the two costs of each pair are the same, block by block.
    fn is_symmetric(&self) -> bool
        requires { self.now.layout ≡ FullMatrix }
        ensures { IsTrue result ↔ ((i j : ℕ) → IsNode (self.now.nodes) i
            → IsNode (self.now.nodes) j → i < j
            → costs_of self.now i j ≡ costs_of self.now j i) }
    {
        'bands: for band in 0..self.nodes / BLOCK + 1 {
            if !self.is_symmetric_band(band) {
                return false;
            }
        }
        true
    }

    /// Whether the two costs of each pair are the same in a band of rows, counted from 0, starting
    /// at its block on the diagonal.
    fn is_symmetric_band(&self, band: u32) -> bool
        requires full { self.now.layout ≡ FullMatrix }
        requires band { band * 64 ≤ self.now.nodes }
        ensures { IsTrue result ↔ ((i j : ℕ) → band * 64 < i → i ≤ band * 64 + 64
            → band * 64 < j → i ≤ self.now.nodes → j ≤ self.now.nodes
            → costs_of self.now i j ≡ costs_of self.now j i) }
    {
        'across: for block in band..self.nodes / BLOCK + 1 {
            if !self.is_symmetric_block(band * BLOCK + 1, block * BLOCK + 1) {
                return false;
            }
        }
        true
    }

    /// Whether the two costs of each pair are the same in the block of cells that begins with the
    /// cell (top, left).
    fn is_symmetric_block(&self, top: u32, left: u32) -> bool
        requires full { self.now.layout ≡ FullMatrix }
        requires top { 1 ≤ top }
        requires left { 1 ≤ left }
        requires top_most { top ≤ self.now.nodes + 1 }
        requires left_most { left ≤ self.now.nodes + 1 }
        ensures { IsTrue result ↔ ((i j : ℕ) → top ≤ i → i < top + 64
            → left ≤ j → j < left + 64 → i ≤ self.now.nodes → j ≤ self.now.nodes
            → costs_of self.now i j ≡ costs_of self.now j i) }
    {
        let past = self.block_end(top);
        'rows: for i in top..past {
            if !self.is_symmetric_in_block(i, left) {
                return false;
            }
        }
        true
    }

    /// Whether the two costs of each pair are the same in one row of the block whose first column
    /// is `left`.
    #[inline]
    fn is_symmetric_in_block(&self, i: u32, left: u32) -> bool
        requires full { self.now.layout ≡ FullMatrix }
        requires row { IsNode (self.now.nodes) i }
        requires left { 1 ≤ left }
        requires left_most { left ≤ self.now.nodes + 1 }
        ensures { IsTrue result ↔ ((j : ℕ) → left ≤ j → j < left + 64
            → j ≤ self.now.nodes
            → costs_of self.now i j ≡ costs_of self.now j i) }
    {
        let past = self.block_end(left);
        let mut same = true;
        'columns: for j in left..past {
            same &= self.weight(i, j) == self.weight(j, i);
        }
        same
    }

    /// The first row or column after the block that begins with this one.
    #[inline]
    fn block_end(&self, first: u32) -> u32
        requires { first ≤ self.now.nodes + 1 }
        ensures within { result ≤ self.now.nodes + 1 }
        ensures short { result ≤ first + 64 }
        ensures all { (j : ℕ) → j < first + 64 → j ≤ self.now.nodes → j < result }
    {
        if first + BLOCK <= self.nodes {
            first + BLOCK
        } else {
            self.nodes + 1
        }
    }

    /// The first node after i whose two costs with i differ.
    fn first_asymmetric_of_row(&self, i: u32) -> Option<u32>
        requires { IsNode self.now.nodes i }
        ensures { MatchOption result
            ((j : ℕ) → i < j → j ≤ self.now.nodes → costs_of self.now i j ≡ costs_of self.now j i)
            (λ j. IsNode self.now.nodes j × (i < j)
            × (costs_of self.now i j ≢ costs_of self.now j i)
            × ((b : ℕ) → i < b → b < j → costs_of self.now i b ≡ costs_of self.now b i)) }
    {
        'columns: for j in i + 1..self.nodes + 1 {
            if self.cost(i, j) != self.cost(j, i) {
                return Some(j);
            }
        }
        None
    }

    /// The first node whose cost to itself isn't 0.
    fn first_on_diagonal(&self) -> Option<u32>
        ensures { MatchOption result
            ((i : ℕ) → costs_of self.now i i ≡ pos 0)
            (λ i. IsFirstOnDiagonal self.now.nodes (costs_of self.now) i) }
    {
        'nodes: for i in 1..self.nodes + 1 {
            if self.cost(i, i) != 0 {
                return Some(i);
            }
        }
        None
    }

    /// The costs of the cells of another layout, in their order.
    ///
    /// # Errors
    ///
    /// Out of memory.
    pub(crate) fn laid_out(&self, alloc: Global, to: Layout) -> Result<Vec<i64>, AllocError>
        ensures value { IfOk result (λ weights.
            weights.items ≡ costs_in to self.now.nodes (costs_of self.now)) }
        ensures sizes { IfOk result (λ weights. All (IsWithin most_weight) weights.items) }
    {
        let mut weights = Vec::with_capacity(alloc, to.cell_count(self.nodes) as usize)?;
        'lines: for line in 1..self.nodes + 1 {
            self.lay_line(to, line, &mut weights)?;
        }
        Ok(weights)
    }

    /// Adds the costs of the cells of one line of another layout.
    ///
    /// # Errors
    ///
    /// Out of memory.
    fn lay_line(&self, to: Layout, line: u32, weights: &mut Vec<i64>) -> Result<(), AllocError>
        requires { IsNode self.now.nodes line }
        ensures { OnOk result (weights.new.items ≡ weights.old.items ++ map
            (λ cell. costs_of self.now cell.0 cell.1) (cells_of_line to self.now.nodes line)) }
    {
        'cells: for index in 0..to.line_len(self.nodes, line) {
            let (i, j) = to.line_cell(self.nodes, line, index);
            weights.push(self.cost(i, j))?;
        }
        Ok(())
    }
}
