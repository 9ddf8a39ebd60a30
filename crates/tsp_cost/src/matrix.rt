//! Costs that a file lists: a full matrix (`Matrix`, or `EvenMatrix` once it is known to be
//! symmetric), or one half (`Triangle`). `instance.rt` makes them. Also the search for the first
//! pair whose two costs differ, which a report names. `cost` in tsp_file pins the costs.

ghost use Rattle.tsp_cost.specs.Prelude.{length, IsTrue, cells, is_listed, listed_cost, UnlistedHaveNoPlace};
ghost use Rattle.std.specs.List.{All};
ghost use Rattle.std.specs.Prelude.{◌≡◌, ◌≤◌, ◌≢◌, ◌⊎◌};
ghost use Rattle.tsp_format.specs.Limits.{most_matrix_nodes, most_weight};
ghost use Rattle.tsp_format.specs.declared.layout.Layout.TheVariants.{FullMatrix};
ghost use Rattle.tsp_file.specs.Valid.{IsWithin};
ghost use Rattle.tsp_format.specs.Words.{IsSymmetric};

use tsp_file::first_asymmetric;
use tsp_format::{Layout, cells_are_the_listed_pairs, only_cells_have_places};
use tsp_theory::{Costs, Symmetric};

/// The costs of an instance whose weights are a full matrix.
#[derive(Clone, Copy, Debug)]
pub struct Matrix<'a> {
    nodes: u32,
    weights: &'a [i64],
    ghost some: { 1 ≤ nodes },
    ghost most: { nodes ≤ most_matrix_nodes },
    ghost full: { length weights.now ≡ length (cells FullMatrix nodes) },
    ghost sizes: { All (IsWithin most_weight) weights.now },
}

/// The costs of a full matrix that are symmetric between different nodes.
#[derive(Clone, Copy, Debug)]
pub struct EvenMatrix<'a> {
    matrix: Matrix<'a>,
    ghost even: { IsSymmetric (λ i j. listed_cost FullMatrix matrix.nodes matrix.weights.now i j) },
}

impl<'a> Matrix<'a> {
    ghost use Rattle.std.specs.Prelude.{ℕ, MatchResult};
    ghost use Rattle.tsp_format.specs.Words.{IsFirstAsymmetric, FindsAsymmetric};
    ghost use Rattle.tsp_cost.specs.states.Views.{matrix_nodes, matrix_cost, even_nodes, even_cost};

    /// The costs of this many nodes that these weights list.
    pub(crate) fn of(nodes: u32, weights: &'a [i64]) -> Matrix<'a>
        requires some { 1 ≤ nodes }
        requires most { nodes ≤ most_matrix_nodes }
        requires full { length weights.now ≡ length (cells FullMatrix nodes) }
        requires sizes { All (IsWithin most_weight) weights.now }
        ensures nodes { matrix_nodes result ≡ nodes }
        ensures costs { (i j : ℕ) → matrix_cost result i j
            ≡ listed_cost FullMatrix nodes weights.now i j }
    {
        Matrix { nodes, weights }
    }

    /// These costs as symmetric ones, if they are. Costs from a node to itself aren't compared.
    ///
    /// # Errors
    ///
    /// The first pair, the smaller node first, by rows, whose two costs differ.
    pub fn even(self) -> Result<EvenMatrix<'a>, (u32, u32)>
        ensures { MatchResult result
            (λ even. (even_nodes even ≡ matrix_nodes self.entry)
            × ((i j : ℕ) → even_cost even i j ≡ matrix_cost self.entry i j)
            × IsSymmetric (matrix_cost self.entry))
            (λ pair. IsFirstAsymmetric (matrix_nodes self.entry) (matrix_cost self.entry) pair) }
    {
        match self.first_asymmetric() {
            Some(pair) => Err(pair),
            None => Ok(EvenMatrix { matrix: self }),
        }
    }

    /// The first pair, the smaller node first, by rows, whose two costs differ.
    pub(crate) fn first_asymmetric(&self) -> Option<(u32, u32)>
        ensures { FindsAsymmetric (matrix_nodes self.now) (matrix_cost self.now) result }
    {
        first_asymmetric(self.nodes, self.weights)
    }
}

impl Costs for Matrix<'_> {
    ghost use Rattle.tsp_cost.specs.states.Views.{matrix_nodes, matrix_cost};

    ghost nodes = { matrix_nodes };

    ghost at = { matrix_cost };

    #[inline]
    fn count(&self) -> u32 {
        self.nodes
    }

    #[inline]
    fn cost(&self, i: u32, j: u32) -> i64 {
        self.weights[Layout::FullMatrix.place(self.nodes, i, j)]
    }

    fn has_rows(&self) -> bool {
        true
    }
}

impl Costs for EvenMatrix<'_> {
    ghost use Rattle.tsp_cost.specs.states.Views.{even_nodes, even_cost};

    ghost nodes = { even_nodes };

    ghost at = { even_cost };

    #[inline]
    fn count(&self) -> u32 {
        self.matrix.count()
    }

    #[inline]
    fn cost(&self, i: u32, j: u32) -> i64 {
        self.matrix.cost(i, j)
    }

    fn has_rows(&self) -> bool {
        self.matrix.has_rows()
    }
}

impl Symmetric for EvenMatrix<'_> {
    ghost even = { λ matrix. matrix.even };
}

// ---- costs of which a layout lists one half of the matrix

/// The costs of an instance whose weights are one half of a matrix, with the diagonal or without.
#[derive(Clone, Copy, Debug)]
pub struct Triangle<'a> {
    layout: Layout,
    nodes: u32,
    weights: &'a [i64],
    upper: bool,
    diagonal: bool,
    ghost half: { layout ≢ FullMatrix },
    ghost some: { 1 ≤ nodes },
    ghost most: { nodes ≤ most_matrix_nodes },
    ghost filled: { length weights.now ≡ length (cells layout nodes) },
    ghost sizes: { All (IsWithin most_weight) weights.now },
    ghost upper_is: { upper ≡ is_listed layout (1, 2) },
    ghost diagonal_is: { diagonal ≡ is_listed layout (1, 1) },
    ghost unlisted: { UnlistedHaveNoPlace layout nodes },
    ghost even: { IsSymmetric (λ i j. listed_cost layout nodes weights.now i j) },
}

impl<'a> Triangle<'a> {
    ghost use Rattle.std.specs.Prelude.{ℕ};
    ghost use Rattle.tsp_cost.specs.states.Views.{triangle_nodes, triangle_cost};

    /// The costs of this many nodes that these weights list in a layout.
    pub(crate) fn of(layout: Layout, nodes: u32, weights: &'a [i64]) -> Triangle<'a>
        requires half { layout ≢ FullMatrix }
        requires some { 1 ≤ nodes }
        requires most { nodes ≤ most_matrix_nodes }
        requires filled { length weights.now ≡ length (cells layout nodes) }
        requires sizes { All (IsWithin most_weight) weights.now }
        ensures nodes { triangle_nodes result ≡ nodes }
        ensures costs { (i j : ℕ) → triangle_cost result i j
            ≡ listed_cost layout nodes weights.now i j }
    {
        cells_are_the_listed_pairs();
        only_cells_have_places();
        Triangle {
            layout,
            nodes,
            weights,
            upper: layout.lists(1, 2),
            diagonal: layout.lists(1, 1),
        }
    }

    /// Whichever of (i, j) and (j, i) the layout lists.
    #[inline]
    fn cell(&self, i: u32, j: u32) -> (u32, u32)
        requires { i ≡ j → IsTrue self.now.diagonal }
        ensures listed { IsTrue (is_listed self.now.layout result) }
        ensures pair { (result ≡ (i, j)) ⊎ (result ≡ (j, i)) }
    {
        if (i < j) == self.upper {
            (i, j)
        } else {
            (j, i)
        }
    }
}

impl Costs for Triangle<'_> {
    ghost use Rattle.tsp_cost.specs.states.Views.{triangle_nodes, triangle_cost};

    ghost nodes = { triangle_nodes };

    ghost at = { triangle_cost };

    #[inline]
    fn count(&self) -> u32 {
        self.nodes
    }

    #[inline]
    fn cost(&self, i: u32, j: u32) -> i64 {
        if i == j && !self.diagonal {
            return 0;
        }
        let (row, column) = self.cell(i, j);
        self.weights[self.layout.place(self.nodes, row, column)]
    }
}

impl Symmetric for Triangle<'_> {
    ghost even = { λ triangle. triangle.even };
}
