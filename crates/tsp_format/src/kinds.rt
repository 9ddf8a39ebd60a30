//! The values that TYPE, EDGE_WEIGHT_TYPE, EDGE_WEIGHT_FORMAT, NODE_COORD_TYPE and
//! DISPLAY_DATA_TYPE accept, an enum for each. Any other value is a fault, so these lists decide
//! which files tsp_read reads. `specs/Words.antt` pins their words.

ghost use Rattle.std.specs.Prelude.{◌≡◌};
ghost use Rattle.tsp_format.specs.Words.{weighs_three, is_spatial, kind_word, weight_kind_word, weight_format_word, coord_kind_word, display_kind_word, kinds, weight_kinds, weight_formats, coord_kinds, display_kinds, kind_found, weight_kind_found, weight_format_found, coord_kind_found, display_kind_found};

use crate::layout::Layout;
use crate::word::Word;

/// What a file contains (TYPE).
#[derive(Clone, Copy, Debug, PartialEq, Eq)]
pub enum Kind {
    /// A symmetric travelling salesman problem.
    Tsp,
    /// An asymmetric travelling salesman problem.
    Atsp,
    /// A capacitated vehicle routing problem.
    Cvrp,
    /// Tours.
    Tour,
    /// Potentials that certify a lower bound, this project's own kind.
    Potentials,
    /// A tree of cases that certifies a lower bound, this project's own kind.
    Branches,
}

impl Kind {
    /// Each value.
    pub const ALL: [Kind; 6] = [
        Kind::Tsp,
        Kind::Atsp,
        Kind::Cvrp,
        Kind::Tour,
        Kind::Potentials,
        Kind::Branches,
    ];
}

impl Word for Kind {
    ghost text = { kind_word };

    ghost values = { kinds };

    ghost found = { kind_found };

    fn all() -> &'static [Kind] {
        &Kind::ALL
    }

    fn word(self) -> &'static str {
        match self {
            Kind::Tsp => "TSP",
            Kind::Atsp => "ATSP",
            Kind::Cvrp => "CVRP",
            Kind::Tour => "TOUR",
            Kind::Potentials => "POTENTIALS",
            Kind::Branches => "BRANCHES",
        }
    }
}

/// Where edge weights come from (EDGE_WEIGHT_TYPE).
#[derive(Clone, Copy, Debug, PartialEq, Eq)]
pub enum WeightKind {
    /// The weights are listed.
    Explicit,
    /// The Euclidean distance, rounded.
    Euc2d,
    /// The Euclidean distance, rounded up.
    Ceil2d,
    /// The sum of the differences along both axes, rounded.
    Man2d,
    /// The larger of the differences along both axes, rounded.
    Max2d,
    /// The pseudo-Euclidean distance of the instances att48 and att532.
    Att,
    /// The Euclidean distance in space, rounded.
    Euc3d,
    /// The sum of the differences along the three axes, rounded.
    Man3d,
    /// The largest of the differences along the three axes, rounded.
    Max3d,
}

impl WeightKind {
    /// Each value.
    pub const ALL: [WeightKind; 9] = [
        WeightKind::Explicit,
        WeightKind::Euc2d,
        WeightKind::Ceil2d,
        WeightKind::Man2d,
        WeightKind::Max2d,
        WeightKind::Att,
        WeightKind::Euc3d,
        WeightKind::Man3d,
        WeightKind::Max3d,
    ];

    /// Whether this is a distance between points with three coordinates.
    pub fn weighs_three(self) -> bool
        ensures { result ≡ weighs_three self }
    {
        match self {
            WeightKind::Euc3d | WeightKind::Man3d | WeightKind::Max3d => true,
            _ => false,
        }
    }
}

impl Word for WeightKind {
    ghost text = { weight_kind_word };

    ghost values = { weight_kinds };

    ghost found = { weight_kind_found };

    fn all() -> &'static [WeightKind] {
        &WeightKind::ALL
    }

    fn word(self) -> &'static str {
        match self {
            WeightKind::Explicit => "EXPLICIT",
            WeightKind::Euc2d => "EUC_2D",
            WeightKind::Ceil2d => "CEIL_2D",
            WeightKind::Man2d => "MAN_2D",
            WeightKind::Max2d => "MAX_2D",
            WeightKind::Att => "ATT",
            WeightKind::Euc3d => "EUC_3D",
            WeightKind::Man3d => "MAN_3D",
            WeightKind::Max3d => "MAX_3D",
        }
    }
}

/// How edge weights are given (EDGE_WEIGHT_FORMAT).
#[derive(Clone, Copy, Debug, PartialEq, Eq)]
pub enum WeightFormat {
    /// By the function that the weight type names.
    ByFunction,
    /// Listed in a layout.
    Listed(Layout),
}

impl WeightFormat {
    /// Each value.
    pub const ALL: [WeightFormat; 10] = [
        WeightFormat::ByFunction,
        WeightFormat::Listed(Layout::FullMatrix),
        WeightFormat::Listed(Layout::UpperRow),
        WeightFormat::Listed(Layout::LowerRow),
        WeightFormat::Listed(Layout::UpperDiagRow),
        WeightFormat::Listed(Layout::LowerDiagRow),
        WeightFormat::Listed(Layout::UpperCol),
        WeightFormat::Listed(Layout::LowerCol),
        WeightFormat::Listed(Layout::UpperDiagCol),
        WeightFormat::Listed(Layout::LowerDiagCol),
    ];
}

impl Word for WeightFormat {
    ghost text = { weight_format_word };

    ghost values = { weight_formats };

    ghost found = { weight_format_found };

    fn all() -> &'static [WeightFormat] {
        &WeightFormat::ALL
    }

    fn word(self) -> &'static str {
        match self {
            WeightFormat::ByFunction => "FUNCTION",
            WeightFormat::Listed(layout) => layout.word(),
        }
    }
}

/// How many coordinates a node has (NODE_COORD_TYPE).
///
/// `ThreeD` makes a file spatial (see [`is_spatial`]). The others are kept and not judged.
#[derive(Clone, Copy, Debug, PartialEq, Eq)]
pub enum CoordKind {
    TwoD,
    ThreeD,
    NoCoords,
}

impl CoordKind {
    /// Each value.
    pub const ALL: [CoordKind; 3] = [CoordKind::TwoD, CoordKind::ThreeD, CoordKind::NoCoords];
}

impl Word for CoordKind {
    ghost text = { coord_kind_word };

    ghost values = { coord_kinds };

    ghost found = { coord_kind_found };

    fn all() -> &'static [CoordKind] {
        &CoordKind::ALL
    }

    fn word(self) -> &'static str {
        match self {
            CoordKind::TwoD => "TWOD_COORDS",
            CoordKind::ThreeD => "THREED_COORDS",
            CoordKind::NoCoords => "NO_COORDS",
        }
    }
}

/// Whether a file is spatial: its nodes have three coordinates, by NODE_COORD_TYPE or by
/// EDGE_WEIGHT_TYPE.
pub fn is_spatial(coord_kind: Option<CoordKind>, weight_kind: Option<WeightKind>) -> bool
    ensures { result ≡ is_spatial coord_kind weight_kind }
{
    let by_kind = match coord_kind {
        Some(CoordKind::ThreeD) => true,
        _ => false,
    };
    let by_weight = match weight_kind {
        Some(kind) => kind.weighs_three(),
        None => false,
    };
    by_kind || by_weight
}

/// How nodes are displayed (DISPLAY_DATA_TYPE). It is kept and not judged.
#[derive(Clone, Copy, Debug, PartialEq, Eq)]
pub enum DisplayKind {
    Coord,
    TwoD,
    NoDisplay,
}

impl DisplayKind {
    /// Each value.
    pub const ALL: [DisplayKind; 3] = [
        DisplayKind::Coord,
        DisplayKind::TwoD,
        DisplayKind::NoDisplay,
    ];
}

impl Word for DisplayKind {
    ghost text = { display_kind_word };

    ghost values = { display_kinds };

    ghost found = { display_kind_found };

    fn all() -> &'static [DisplayKind] {
        &DisplayKind::ALL
    }

    fn word(self) -> &'static str {
        match self {
            DisplayKind::Coord => "COORD_DISPLAY",
            DisplayKind::TwoD => "TWOD_DISPLAY",
            DisplayKind::NoDisplay => "NO_DISPLAY",
        }
    }
}
