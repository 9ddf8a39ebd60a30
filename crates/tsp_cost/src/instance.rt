//! `Instance`: a file of TYPE TSP, ATSP or CVRP with its costs, where every judgement begins. Its
//! views (`View`, `SymmetricView`) are a type for each source of costs, such as points or a matrix,
//! so that loops are compiled for it. `cost` in `specs/Cost.antt` of tsp_file pins the costs.

ghost use Rattle.tsp_cost.specs.Prelude.{IsTrue, unwrap_or, MatchResult, pos, neg_ℤ, IsNode, cost, nodes_of};
ghost use Rattle.std.specs.Prelude.{◌≡◌, ◌≤ℤ◌};
ghost use Rattle.tsp_format.specs.Limits.{most_weight};
ghost use Rattle.tsp_file.specs.Rules.{is_instance};
ghost use Rattle.tsp_format.specs.Words.{IsSymmetric, IsFirstAsymmetric, FindsAsymmetric};
ghost use Rattle.tsp_cost.specs.states.Views.{HasFound, ShowsSymmetric};

use crate::laws::instances_are_problems;
use crate::matrix::{EvenMatrix, Matrix, Triangle};
use crate::metric::Metric;
use crate::points::Points;
use std::marker::Model;
use thiserror::Error;
use tsp_file::{Coords, File, RoutingData};
use tsp_format::{Kind, Layout};
use tsp_number::{PlanePoint, Point};
use tsp_theory::Costs;

/// A valid file of TYPE TSP, ATSP or CVRP, with the costs between its nodes.
///
/// The number of its nodes and the source of its costs are determined once, when it is made.
#[derive(Debug, Drop)]
pub struct Instance {
    file: File,
    nodes: u32,
    source: CostSource,
}

impl Model for Instance {
    ghost use Rattle.tsp_file.specs.Fields.{Fields};
    ghost use Rattle.tsp_cost.specs.states.Views.{HasFound};

    ghost Value = { Fields };

    ghost view = { λ inst. inst.file };

    ghost invariant = { λ inst. HasFound inst.file inst.nodes inst.source };
}

impl Instance {
    ghost use Rattle.tsp_cost.specs.Prelude.{false, Some, IsTrue, length, MatchOption, MatchResult, nodes_of, fixed_of, HoldsRouting};
    ghost use Rattle.std.specs.Prelude.{◌≡◌, ◌≤◌, ◌⊎◌};
    ghost use Rattle.std.specs.List.{All};
    ghost use Rattle.tsp_file.specs.Rules.{is_instance};
    ghost use Rattle.tsp_file.specs.Valid.{IsPairOf};
    ghost use Rattle.tsp_format.specs.declared.kinds.Kind.TheVariants as kinds;
    ghost use Rattle.tsp_format.specs.Limits.{most_fixed};
    ghost use Rattle.tsp_cost.specs.declared.instance.CostFault.TheVariants.{NotInstance};
    ghost use Rattle.tsp_cost.specs.declared.instance.CostSource.TheVariants.{Distances, Weights};
    ghost use Rattle.tsp_cost.specs.Problems.{IsProblem};
    ghost use Rattle.tsp_cost.specs.states.Views.{ComesFrom};
    ghost use Rattle.tsp_cost.specs.states.Views.{IsViewOf};

    /// The instance that a file of TYPE TSP, ATSP or CVRP holds. No memory is taken.
    ///
    /// # Errors
    ///
    /// `NotInstance` for a file of TYPE TOUR, POTENTIALS or BRANCHES, along with the file.
    pub fn of(f: File) -> Result<Instance, (CostFault, File)>
        ensures { MatchResult result
            (λ inst. (inst ≡ f) × IsTrue (is_instance f.kind) × IsProblem f)
            (λ refused. (refused.0 ≡ NotInstance) × (refused.1 ≡ f) × (is_instance f.kind ≡ false)) }
    {
        let Some(Kind::Tsp | Kind::Atsp | Kind::Cvrp) = f.fields().kind else {
            return Err((CostFault::NotInstance, f));
        };
        instances_are_problems();
        let (nodes, source) = found(&f);
        Ok(Instance {
            file: f,
            nodes,
            source,
        })
    }

    /// The file behind this instance.
    pub fn file(&self) -> &File
        ensures value { result.now ≡ self.now }
        ensures instance { IsTrue (is_instance self.now.kind) }
    {
        &self.file
    }

    /// Gives up the instance, and returns its file.
    pub fn into_file(self) -> File
        ensures value { result ≡ self }
        ensures instance { IsTrue (is_instance result.kind) }
    {
        let Instance { file, .. } = self;
        file
    }

    /// TYPE: TSP, ATSP or CVRP.
    pub fn kind(&self) -> Kind
        ensures value { Some result ≡ self.now.kind }
        ensures instance { IsTrue (is_instance (Some result)) }
    {
        self.file.kind()
    }

    /// The fixed pairs, each of two different nodes; empty without FIXED_EDGES_SECTION.
    pub fn fixed(&self) -> &[(u32, u32)]
        ensures value { result.now ≡ fixed_of self.now }
        ensures few { length result.now ≤ most_fixed }
        ensures range { All (IsPairOf (nodes_of self.now)) result.now }
    {
        match self.file.fixed() {
            Some(pairs) => pairs,
            None => &[],
        }
    }

    /// The depots, demands and capacity of an instance of TYPE CVRP; `None` for TYPE TSP or ATSP.
    pub fn routing(&self) -> Option<RoutingData<'_>>
        ensures { MatchOption result
            ((self.now.kind ≡ Some kinds.Tsp) ⊎ (self.now.kind ≡ Some kinds.Atsp))
            (λ held. HoldsRouting self.now held.capacity held.demands.now held.depots.now) }
    {
        if self.file.kind() != Kind::Cvrp {
            return None;
        }
        Some(RoutingData {
            capacity: self.file.capacity().unwrap(),
            demands: self.file.demands().unwrap(),
            depots: self.file.depots().unwrap(),
        })
    }

    /// The costs by the type that has them: points if the weight type is a distance, whatever the
    /// format; otherwise a matrix for FULL_MATRIX, and a triangle for every other layout.
    #[inline]
    pub fn view(&self) -> View<'_>
        ensures { IsViewOf self.now result }
    {
        match self.source {
            CostSource::Distances(metric) => self.distance_view(metric),
            CostSource::Weights(layout) => self.listed_view(layout),
        }
    }

    /// The points of an instance whose weight type is a distance.
    #[inline]
    fn distance_view(&self, metric: Metric) -> View<'_>
        requires { ComesFrom self.now (Distances metric) }
        ensures { IsViewOf self.now result }
    {
        match self.file.coords().unwrap() {
            Coords::Plane(points) => View::Plane(Points::of(metric, points)),
            Coords::Space(points) => View::Space(Points::of(metric, points)),
        }
    }

    /// The matrix or the triangle of an instance whose weights are listed.
    #[inline]
    fn listed_view(&self, layout: Layout) -> View<'_>
        requires { ComesFrom self.now (Weights layout) }
        ensures { IsViewOf self.now result }
    {
        let weights = self.file.weights().unwrap();
        match layout {
            Layout::FullMatrix => View::Matrix(Matrix::of(self.nodes, weights)),
            layout => View::Triangle(Triangle::of(layout, self.nodes, weights)),
        }
    }
}

/// How many nodes an instance has, and where its costs come from.
fn found(f: &File) -> (u32, CostSource)
    requires { IsTrue (is_instance f.now.kind) }
    ensures { HasFound f.now result.0 result.1 }
{
    let fields = f.fields();
    let source = match Metric::of(fields.weight_kind.unwrap()) {
        Some(metric) => CostSource::Distances(metric),
        None => CostSource::Weights(f.as_matrix().unwrap().layout),
    };
    (fields.dimension.unwrap(), source)
}

/// The cost from one node of an instance to another, by its view.
#[inline(never)]
fn viewed_cost(inst: &Instance, i: u32, j: u32) -> i64
    requires from { IsNode (nodes_of inst.now) i }
    requires to { IsNode (nodes_of inst.now) j }
    ensures value { result ≡ cost inst.now i j }
    ensures low { neg_ℤ (pos most_weight) ≤ℤ result }
    ensures high { result ≤ℤ pos most_weight }
{
    match inst.view() {
        View::Plane(points) => points.cost(i, j),
        View::Space(points) => points.cost(i, j),
        View::Matrix(matrix) => matrix.cost(i, j),
        View::Triangle(triangle) => triangle.cost(i, j),
    }
}

impl Costs for Instance {
    ghost use Rattle.tsp_cost.specs.Prelude.{unwrap_or, cost};

    ghost nodes = { λ f. unwrap_or f.dimension 0 };

    ghost at = { cost };

    fn count(&self) -> u32 {
        self.nodes
    }

    // (when the loop handled distances, too, a pair of a matrix took four times as many
    // instructions)
    #[inline]
    fn cost(&self, i: u32, j: u32) -> i64 {
        match self.source {
            CostSource::Weights(layout) => match self.listed_view(layout) {
                View::Matrix(matrix) => matrix.cost(i, j),
                _ => viewed_cost(self, i, j),
            },
            CostSource::Distances(_) => viewed_cost(self, i, j),
        }
    }

    fn length(&self, tour: &[u32]) -> i64 {
        match self.view() {
            View::Plane(points) => points.length(tour),
            View::Space(points) => points.length(tour),
            View::Matrix(matrix) => matrix.length(tour),
            View::Triangle(triangle) => triangle.length(tour),
        }
    }
}

/// The costs of an instance, if they are symmetric.
///
/// Costs from a node to itself aren't compared. Distances and triangles need no comparison at all.
///
/// # Errors
///
/// The first pair of nodes, the smaller one first, by rows, whose two costs differ.
pub fn symmetric_view(inst: &Instance) -> Result<SymmetricView<'_>, (u32, u32)>
    ensures { MatchResult result
        (λ view. ShowsSymmetric inst.now view × IsSymmetric (cost inst.now))
        (λ pair. IsFirstAsymmetric (unwrap_or inst.now.dimension 0) (cost inst.now) pair) }
{
    match inst.view() {
        View::Plane(points) => Ok(SymmetricView::Plane(points)),
        View::Space(points) => Ok(SymmetricView::Space(points)),
        View::Triangle(triangle) => Ok(SymmetricView::Triangle(triangle)),
        View::Matrix(matrix) => match matrix.even() {
            Ok(even) => Ok(SymmetricView::Matrix(even)),
            Err(pair) => Err(pair),
        },
    }
}

/// The first pair of nodes, the smaller one first, by rows, whose two costs differ.
///
/// Costs from a node to itself aren't compared. For distances and triangles, no pair is looked at.
pub fn symmetric_fault(inst: &Instance) -> Option<(u32, u32)>
    ensures { FindsAsymmetric (unwrap_or inst.now.dimension 0) (cost inst.now) result }
{
    match symmetric_view(inst) {
        Ok(_) => None,
        Err(pair) => Some(pair),
    }
}

// ---- the costs of an instance as one of four types

/// The costs of an instance, by the type that has them.
#[derive(Clone, Copy, Debug)]
pub enum View<'a> {
    /// Distances of points in the plane.
    Plane(Points<'a, PlanePoint>),
    /// Distances of points in space.
    Space(Points<'a, Point>),
    /// A full matrix.
    Matrix(Matrix<'a>),
    /// One half of a matrix.
    Triangle(Triangle<'a>),
}

/// The costs of an instance, by the type that has them, if they are symmetric.
#[derive(Clone, Copy, Debug)]
pub enum SymmetricView<'a> {
    /// Distances of points in the plane.
    Plane(Points<'a, PlanePoint>),
    /// Distances of points in space.
    Space(Points<'a, Point>),
    /// A full matrix.
    Matrix(EvenMatrix<'a>),
    /// One half of a matrix.
    Triangle(Triangle<'a>),
}

// ---- whether the costs of an instance are distances

/// Where the costs of an instance come from.
#[derive(Clone, Copy, Debug)]
pub(crate) enum CostSource {
    /// Distances of its points, by this metric.
    Distances(Metric),
    /// Weights that it lists in this layout.
    Weights(Layout),
}

// ---- the fault of a file that has no costs

/// Why a file has no costs.
#[derive(Clone, Copy, Debug, PartialEq, Eq, Error)]
pub enum CostFault {
    /// It contains tours, potentials, or a tree of cases.
    #[error("NotInstance")]
    NotInstance,
}
