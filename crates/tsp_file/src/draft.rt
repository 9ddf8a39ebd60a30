//! `Draft`, a file in the making: every field of a TSPLIB 95 file, whether valid or not. tsp_read
//! fills it from a text, `table.rt` and `rules.rt` judge it, and a draft without a fault becomes a
//! `File`. Contracts see it as `Fields` (`specs/Fields.antt`); add a new field to both.

use crate::coords::Coords;
use std::alloc::Global;
use tsp_format::{
    CoordKind, DisplayKind, Field, Kind, RowSets, TreeStep, WeightFormat, WeightKind, is_spatial,
};

/// The fields of a file, in canonical order. A list by node has one entry for each node, in order.
#[derive(Debug)]
pub struct Draft {
    /// NAME: bytes as they are.
    pub name: Option<Vec<u8>>,
    /// TYPE.
    pub kind: Option<Kind>,
    /// The COMMENT lines, in order.
    pub comments: Vec<Vec<u8>>,
    /// The lines of unknown keywords, in order: keyword and value.
    pub others: Vec<(Vec<u8>, Vec<u8>)>,
    /// DIMENSION: the number of nodes.
    pub dimension: Option<u32>,
    /// CAPACITY of a vehicle.
    pub capacity: Option<i64>,
    /// SCALE of the potentials.
    pub scale: Option<i64>,
    /// LOAD_UNIT of a certificate for routes.
    pub load_unit: Option<i64>,
    /// EDGE_WEIGHT_TYPE.
    pub weight_kind: Option<WeightKind>,
    /// EDGE_WEIGHT_FORMAT.
    pub weight_format: Option<WeightFormat>,
    /// NODE_COORD_TYPE.
    pub coord_kind: Option<CoordKind>,
    /// DISPLAY_DATA_TYPE.
    pub display_kind: Option<DisplayKind>,
    /// NODE_COORD_SECTION, by node.
    pub coords: Option<Coords>,
    /// DISPLAY_DATA_SECTION, by node.
    pub display: Option<Coords>,
    /// DEMAND_SECTION, by node.
    pub demands: Option<Vec<i64>>,
    /// DEPOT_SECTION.
    pub depots: Option<Vec<u32>>,
    /// FIXED_EDGES_SECTION: pairs of nodes.
    pub fixed: Option<Vec<(u32, u32)>>,
    /// EDGE_WEIGHT_SECTION, in the order of the layout.
    pub weights: Option<Vec<i64>>,
    /// TOUR_SECTION: tours, none of them empty.
    pub tours: Option<Vec<Vec<u32>>>,
    /// NODE_POTENTIAL_SECTION, by node.
    pub node_potentials: Option<Vec<i64>>,
    /// ROW_POTENTIAL_SECTION, by node.
    pub row_potentials: Option<Vec<i64>>,
    /// COLUMN_POTENTIAL_SECTION, by node.
    pub column_potentials: Option<Vec<i64>>,
    /// FIXED_EDGE_POTENTIAL_SECTION: two nodes and the multiplier of their edge.
    pub fixed_potentials: Option<Vec<(u32, u32, i64)>>,
    /// COMB_SECTION: combs, each as its sets of nodes, the handle first.
    pub families: Option<Vec<Vec<Vec<u32>>>>,
    /// MEMORY_SECTION: lists of nodes, none of them empty. The first node of each list remembers the
    /// others.
    pub memories: Option<Vec<Vec<u32>>>,
    /// SUBSET_ROW_SECTION: rows, each with a set that isn't empty.
    pub subset_rows: Option<Vec<RowSets>>,
    /// BRANCH_SECTION: the steps of one tree of cases.
    pub branches: Option<Vec<TreeStep>>,
}

/// Drops each field, as a derive would. Functions that drop a draft call this function, because
/// that makes their proofs faster.
impl Drop for Draft {
    fn drop(self) {
        let Draft {
            name: _,
            kind: _,
            comments: _,
            others: _,
            dimension: _,
            capacity: _,
            scale: _,
            load_unit: _,
            weight_kind: _,
            weight_format: _,
            coord_kind: _,
            display_kind: _,
            coords: _,
            display: _,
            demands: _,
            depots: _,
            fixed: _,
            weights: _,
            tours: _,
            node_potentials: _,
            row_potentials: _,
            column_potentials: _,
            fixed_potentials: _,
            families: _,
            memories: _,
            subset_rows: _,
            branches: _,
        } = self;
    }
}

impl Draft {
    ghost use Rattle.tsp_file.specs.Prelude.{option_map, value_shape_of, IsNumberOf};
    ghost use Rattle.std.specs.Prelude.{◌≡◌};
    ghost use Rattle.tsp_file.specs.states.Drafts.{points_of, fields_of};
    ghost use Rattle.tsp_file.specs.Fields.{blank_fields, spatial, stands_in, one_number_in, with_one_number, numbers_in, with_numbers, points_in, with_points};

    /// A draft in which no field is set: each is `None` or an empty list. No memory is taken.
    pub fn new(alloc: Global) -> Draft
        ensures { fields_of result ≡ blank_fields }
    {
        Draft {
            name: None,
            kind: None,
            comments: Vec::new(alloc),
            others: Vec::new(alloc),
            dimension: None,
            capacity: None,
            scale: None,
            load_unit: None,
            weight_kind: None,
            weight_format: None,
            coord_kind: None,
            display_kind: None,
            coords: None,
            display: None,
            demands: None,
            depots: None,
            fixed: None,
            weights: None,
            tours: None,
            node_potentials: None,
            row_potentials: None,
            column_potentials: None,
            fixed_potentials: None,
            families: None,
            memories: None,
            subset_rows: None,
            branches: None,
        }
    }

    /// Whether the nodes have three coordinates each, by NODE_COORD_TYPE or EDGE_WEIGHT_TYPE.
    pub fn is_spatial(&self) -> bool
        ensures { result ≡ spatial (fields_of self.now) }
    {
        is_spatial(self.coord_kind, self.weight_kind)
    }

    /// Whether a field is present. The lists of comments and of unknown keywords always are, but
    /// may be empty.
    pub fn stands(&self, field: Field) -> bool
        ensures { result ≡ stands_in (fields_of self.now) field }
    {
        match field {
            Field::NameKey => self.name.is_some(),
            Field::TypeKey => self.kind.is_some(),
            Field::CommentKey | Field::OtherKey => true,
            Field::DimensionKey => self.dimension.is_some(),
            Field::CapacityKey => self.capacity.is_some(),
            Field::ScaleKey => self.scale.is_some(),
            Field::LoadUnitKey => self.load_unit.is_some(),
            Field::EdgeWeightTypeKey => self.weight_kind.is_some(),
            Field::EdgeWeightFormatKey => self.weight_format.is_some(),
            Field::NodeCoordTypeKey => self.coord_kind.is_some(),
            Field::DisplayDataTypeKey => self.display_kind.is_some(),
            Field::NodeCoordPart => self.coords.is_some(),
            Field::DisplayDataPart => self.display.is_some(),
            Field::DemandPart => self.demands.is_some(),
            Field::DepotPart => self.depots.is_some(),
            Field::FixedEdgesPart => self.fixed.is_some(),
            Field::EdgeWeightPart => self.weights.is_some(),
            Field::TourPart => self.tours.is_some(),
            Field::NodePotentialPart => self.node_potentials.is_some(),
            Field::RowPotentialPart => self.row_potentials.is_some(),
            Field::ColumnPotentialPart => self.column_potentials.is_some(),
            Field::FixedEdgePotentialPart => self.fixed_potentials.is_some(),
            Field::FamilyPart => self.families.is_some(),
            Field::MemoryPart => self.memories.is_some(),
            Field::SubsetRowPart => self.subset_rows.is_some(),
            Field::BranchPart => self.branches.is_some(),
        }
    }

    /// The number of a keyword that has one; `None` if it is missing, and for any other field.
    pub fn number(&self, field: Field) -> Option<i64>
        ensures { result ≡ one_number_in (fields_of self.now) field }
    {
        match field {
            Field::DimensionKey => self.dimension.map(i64::from),
            Field::CapacityKey => self.capacity,
            Field::ScaleKey => self.scale,
            Field::LoadUnitKey => self.load_unit,
            _ => None,
        }
    }

    /// Sets the number of a keyword that has one. The number is in its range. For any other field
    /// nothing happens.
    pub fn set_number(&mut self, field: Field, number: i64)
        requires { IsNumberOf (value_shape_of field) number }
        ensures { fields_of self.new ≡ with_one_number field number (fields_of self.old) }
    {
        match field {
            Field::DimensionKey => self.dimension = Some(number as u32),
            Field::CapacityKey => self.capacity = Some(number),
            Field::ScaleKey => self.scale = Some(number),
            Field::LoadUnitKey => self.load_unit = Some(number),
            _ => {}
        }
    }

    /// The numbers of a section that has one for each node; `None` if it is missing, and for any
    /// other field.
    pub fn numbers(&self, field: Field) -> Option<&[i64]>
        ensures { option_map (λ entries. entries.now) result
            ≡ numbers_in (fields_of self.now) field }
    {
        let numbers = match field {
            Field::DemandPart => &self.demands,
            Field::NodePotentialPart => &self.node_potentials,
            Field::RowPotentialPart => &self.row_potentials,
            Field::ColumnPotentialPart => &self.column_potentials,
            _ => return None,
        };
        numbers.as_deref()
    }

    /// Sets the numbers of such a section. For any other field they are dropped.
    pub fn set_numbers(&mut self, field: Field, numbers: Vec<i64>)
        ensures { fields_of self.new ≡ with_numbers field numbers.items (fields_of self.old) }
    {
        match field {
            Field::DemandPart => self.demands = Some(numbers),
            Field::NodePotentialPart => self.node_potentials = Some(numbers),
            Field::RowPotentialPart => self.row_potentials = Some(numbers),
            Field::ColumnPotentialPart => self.column_potentials = Some(numbers),
            _ => drop(numbers),
        }
    }

    /// The points of a section that has one for each node; `None` if it is missing, and for any
    /// other field.
    pub fn points(&self, field: Field) -> Option<&Coords>
        ensures { option_map (λ points. points_of points.now) result
            ≡ points_in (fields_of self.now) field }
    {
        match field {
            Field::NodeCoordPart => self.coords.as_ref(),
            Field::DisplayDataPart => self.display.as_ref(),
            _ => None,
        }
    }

    /// Sets the points of such a section. For any other field they are dropped.
    pub fn set_points(&mut self, field: Field, points: Coords)
        ensures { fields_of self.new ≡ with_points field (points_of points) (fields_of self.old) }
    {
        match field {
            Field::NodeCoordPart => self.coords = Some(points),
            Field::DisplayDataPart => self.display = Some(points),
            _ => drop(points),
        }
    }
}
