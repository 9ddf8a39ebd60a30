//! Every keyword and section of a file, as the enum `Field`, along with the shape of what follows
//! it; and `Keyword`, which the first word of a line names. `specs/Words.antt` pins the spellings,
//! and `specs/Limits.antt` the shapes. A new field begins here (docs/ARCHITECTURE.md, "How a field
//! is added").

ghost use Rattle.std.specs.Prelude.{◌≡◌};
ghost use Rattle.tsp_format.specs.Limits.{keyword_of, field_of, known_or_not, shape_of, value_shape_of};
ghost use Rattle.tsp_format.specs.Words.{field_word, fields_in_order, field_found};
ghost use Rattle.tsp_format.specs.declared.limits.TheConstants.{MOST_NODES, MOST_DEMAND, MOST_CAPACITY, MOST_SCALE, MOST_LOAD_UNIT, MOST_POTENTIAL};

use crate::limits::{
    MOST_CAPACITY, MOST_DEMAND, MOST_LOAD_UNIT, MOST_NODES, MOST_POTENTIAL, MOST_SCALE,
};
use crate::word::{Word, value_of};
use std::fmt;

/// What the first word of a line means as a keyword.
#[derive(Clone, Copy, Debug, PartialEq, Eq)]
pub enum Keyword {
    /// A field's keyword or section, by its own word or, for fixed edges, by another one.
    Known(Field),
    /// EDGE_DATA_FORMAT, which is refused.
    EdgeDataFormat,
    /// EDGE_DATA_SECTION, which is refused.
    EdgeDataSection,
    /// The end of the file.
    Eof,
    /// Any other word.
    Unknown,
}

impl Keyword {
    /// What a word means. Upper and lower case differ.
    ///
    /// `FIXED_EDGES` and `FIXED_EDGES_SECTION` are the same section.
    pub fn of(word: &[u8]) -> Keyword
        ensures { result ≡ keyword_of word.now }
    {
        if word == b"FIXED_EDGES".as_slice() {
            Keyword::Known(Field::FixedEdgesPart)
        } else if word == b"EDGE_DATA_FORMAT".as_slice() {
            Keyword::EdgeDataFormat
        } else if word == b"EDGE_DATA_SECTION".as_slice() {
            Keyword::EdgeDataSection
        } else if word == b"EOF".as_slice() {
            Keyword::Eof
        } else {
            known_or_not(field_of(word))
        }
    }
}

/// The field with this word.
fn field_of(word: &[u8]) -> Option<Field>
    ensures { result ≡ field_of word.now }
{
    value_of(word)
}

/// The keyword of a field, if there is one.
fn known_or_not(field: Option<Field>) -> Keyword
    ensures { result ≡ known_or_not field }
{
    match field {
        None | Some(Field::OtherKey) => Keyword::Unknown,
        Some(field) => Keyword::Known(field),
    }
}

// ---- the keywords and sections of a file

/// A keyword or a section of a file, in canonical order. It is displayed as its TSPLIB word.
#[derive(Clone, Copy, Debug, PartialEq, Eq)]
pub enum Field {
    NameKey,
    TypeKey,
    CommentKey,
    /// The unknown keywords, displayed as `others`.
    OtherKey,
    DimensionKey,
    CapacityKey,
    ScaleKey,
    LoadUnitKey,
    EdgeWeightTypeKey,
    EdgeWeightFormatKey,
    NodeCoordTypeKey,
    DisplayDataTypeKey,
    NodeCoordPart,
    DisplayDataPart,
    DemandPart,
    DepotPart,
    FixedEdgesPart,
    EdgeWeightPart,
    TourPart,
    NodePotentialPart,
    RowPotentialPart,
    ColumnPotentialPart,
    FixedEdgePotentialPart,
    FamilyPart,
    MemoryPart,
    SubsetRowPart,
    BranchPart,
}

/// The shape of a section: what each of its words means.
#[derive(Clone, Copy, Debug, PartialEq, Eq)]
pub enum Shape {
    /// A whole number from `low` to `high` for each node.
    Numbers { low: i64, high: i64 },
    /// A point in the plane for each node.
    Points,
    /// A point with three coordinates for each node.
    SpacePoints,
    /// Nodes, ended by a -1.
    Depots,
    /// Pairs of nodes, ended by a -1.
    Pairs,
    /// The weights of a matrix.
    Weights,
    /// Lists of nodes, each ended by a -1.
    Tours,
    /// Pairs of nodes with a number each, ended by a -1.
    Triples,
    /// Families of sets of nodes. A -1 ends each set, another one the family, and a third one the
    /// section.
    Families,
    /// Lists of nodes, each ended by a -1. One more -1 ends the section.
    Memories,
    /// Rows of two lists of nodes, each ended by a -1. The second list may be empty. One more -1
    /// ends the section.
    SubsetRows,
    /// The steps of a tree of cases.
    Steps,
}

/// The shape of a keyword's value: what it is read as.
#[derive(Clone, Copy, Debug, PartialEq, Eq)]
pub enum ValueShape {
    /// The bytes of the value, kept as they are. The keyword may come once.
    Kept,
    /// The bytes of each value, kept as they are. The keyword may repeat.
    KeptEach,
    /// The first word, as a whole number from `low` to `high`.
    Number { low: i64, high: i64 },
    /// The first word, as one from a list of words.
    Word,
}

impl Field {
    /// Each field, in canonical order.
    pub const ALL: [Field; 27] = [
        Field::NameKey,
        Field::TypeKey,
        Field::CommentKey,
        Field::OtherKey,
        Field::DimensionKey,
        Field::CapacityKey,
        Field::ScaleKey,
        Field::LoadUnitKey,
        Field::EdgeWeightTypeKey,
        Field::EdgeWeightFormatKey,
        Field::NodeCoordTypeKey,
        Field::DisplayDataTypeKey,
        Field::NodeCoordPart,
        Field::DisplayDataPart,
        Field::DemandPart,
        Field::DepotPart,
        Field::FixedEdgesPart,
        Field::EdgeWeightPart,
        Field::TourPart,
        Field::NodePotentialPart,
        Field::RowPotentialPart,
        Field::ColumnPotentialPart,
        Field::FixedEdgePotentialPart,
        Field::FamilyPart,
        Field::MemoryPart,
        Field::SubsetRowPart,
        Field::BranchPart,
    ];

    /// The shape of a section, in a file that is spatial or isn't; `None` for a keyword.
    pub fn shape(self, spatial: bool) -> Option<Shape>
        ensures { result ≡ shape_of spatial self }
    {
        match self {
            Field::NodeCoordPart if spatial => Some(Shape::SpacePoints),
            Field::NodeCoordPart | Field::DisplayDataPart => Some(Shape::Points),
            Field::DemandPart => Some(Shape::Numbers {
                low: 0,
                high: MOST_DEMAND,
            }),
            Field::DepotPart => Some(Shape::Depots),
            Field::FixedEdgesPart => Some(Shape::Pairs),
            Field::EdgeWeightPart => Some(Shape::Weights),
            Field::TourPart => Some(Shape::Tours),
            Field::NodePotentialPart | Field::RowPotentialPart | Field::ColumnPotentialPart => {
                Some(Shape::Numbers {
                    low: -MOST_POTENTIAL,
                    high: MOST_POTENTIAL,
                })
            }
            Field::FixedEdgePotentialPart => Some(Shape::Triples),
            Field::FamilyPart => Some(Shape::Families),
            Field::MemoryPart => Some(Shape::Memories),
            Field::SubsetRowPart => Some(Shape::SubsetRows),
            Field::BranchPart => Some(Shape::Steps),
            _ => None,
        }
    }

    /// The shape of a keyword's value; `None` for a section, and for the unknown keywords.
    pub fn value_shape(self) -> Option<ValueShape>
        ensures { result ≡ value_shape_of self }
    {
        match self {
            Field::NameKey => Some(ValueShape::Kept),
            Field::CommentKey => Some(ValueShape::KeptEach),
            Field::DimensionKey => Some(ValueShape::Number {
                low: 1,
                high: i64::from(MOST_NODES),
            }),
            Field::CapacityKey => Some(ValueShape::Number {
                low: 1,
                high: MOST_CAPACITY,
            }),
            Field::ScaleKey => Some(ValueShape::Number {
                low: 1,
                high: MOST_SCALE,
            }),
            Field::LoadUnitKey => Some(ValueShape::Number {
                low: 1,
                high: MOST_LOAD_UNIT,
            }),
            Field::TypeKey
            | Field::EdgeWeightTypeKey
            | Field::EdgeWeightFormatKey
            | Field::NodeCoordTypeKey
            | Field::DisplayDataTypeKey => Some(ValueShape::Word),
            _ => None,
        }
    }
}

impl Word for Field {
    ghost text = { field_word };

    ghost values = { fields_in_order };

    ghost found = { field_found };

    fn all() -> &'static [Field] {
        &Field::ALL
    }

    fn word(self) -> &'static str {
        match self {
            Field::NameKey => "NAME",
            Field::TypeKey => "TYPE",
            Field::CommentKey => "COMMENT",
            Field::OtherKey => "others",
            Field::DimensionKey => "DIMENSION",
            Field::CapacityKey => "CAPACITY",
            Field::ScaleKey => "SCALE",
            Field::LoadUnitKey => "LOAD_UNIT",
            Field::EdgeWeightTypeKey => "EDGE_WEIGHT_TYPE",
            Field::EdgeWeightFormatKey => "EDGE_WEIGHT_FORMAT",
            Field::NodeCoordTypeKey => "NODE_COORD_TYPE",
            Field::DisplayDataTypeKey => "DISPLAY_DATA_TYPE",
            Field::NodeCoordPart => "NODE_COORD_SECTION",
            Field::DisplayDataPart => "DISPLAY_DATA_SECTION",
            Field::DemandPart => "DEMAND_SECTION",
            Field::DepotPart => "DEPOT_SECTION",
            Field::FixedEdgesPart => "FIXED_EDGES_SECTION",
            Field::EdgeWeightPart => "EDGE_WEIGHT_SECTION",
            Field::TourPart => "TOUR_SECTION",
            Field::NodePotentialPart => "NODE_POTENTIAL_SECTION",
            Field::RowPotentialPart => "ROW_POTENTIAL_SECTION",
            Field::ColumnPotentialPart => "COLUMN_POTENTIAL_SECTION",
            Field::FixedEdgePotentialPart => "FIXED_EDGE_POTENTIAL_SECTION",
            Field::FamilyPart => "COMB_SECTION",
            Field::MemoryPart => "MEMORY_SECTION",
            Field::SubsetRowPart => "SUBSET_ROW_SECTION",
            Field::BranchPart => "BRANCH_SECTION",
        }
    }
}

impl fmt::Display for Field {
    ghost use Rattle.std.specs.Prelude.{Some};

    ghost output = { λ field. Some (field_word field) };

    fn fmt<W: fmt::Write>(&self, f: &mut fmt::Formatter<W>) -> fmt::Result {
        f.write_str(self.word())
    }
}
