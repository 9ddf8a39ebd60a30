//! Tests of the texts that faults print.

use crate::asserts::{holds_at, same_at};
use std::alloc::AllocError;
use std::fmt::Display;
use std::process::Abort;
use tsp_cost::CostFault;
use tsp_file::{DraftFault, EndFault, RelayoutFault};
use tsp_format::Field;
use tsp_io::WriteFault;
use tsp_judge::{ReadFault, RunFault};
use tsp_number::NumberFault;

/// Asserts what faults print.
fn print<F: Display>(rt: &(impl AllocGlobal + Abort), faults: &[(F, &'static str)]) {
    for (fault, text) in faults {
        match fault.to_string(rt.alloc()) {
            Ok(printed) => same_at(rt, text, printed.as_str(), text),
            Err(AllocError) => holds_at(rt, text, false),
        }
    }
}

const NUMBER_FAULTS: &[(NumberFault, &str)] = &[
    (NumberFault::LongWord, "LongWord"),
    (NumberFault::BadNumber, "BadNumber"),
    (NumberFault::TooFine, "TooFine"),
    (NumberFault::OutOfRange, "OutOfRange"),
    (NumberFault::NotWhole, "NotWhole"),
];

const FIELDS: &[(Field, &str)] = &[
    (Field::NameKey, "NAME"),
    (Field::OtherKey, "others"),
    (Field::EdgeWeightFormatKey, "EDGE_WEIGHT_FORMAT"),
    (Field::FixedEdgesPart, "FIXED_EDGES_SECTION"),
];

const END_FAULTS: &[(EndFault, &str)] = &[
    (EndFault::Missing(Field::TypeKey), "Missing TYPE"),
    (
        EndFault::Missing(Field::NodeCoordPart),
        "Missing NODE_COORD_SECTION",
    ),
    (
        EndFault::Incomplete(Field::DemandPart),
        "Incomplete DEMAND_SECTION",
    ),
    (
        EndFault::Incomplete(Field::FixedEdgesPart),
        "Incomplete FIXED_EDGES_SECTION",
    ),
    (EndFault::WrongFormat, "WrongFormat"),
    (EndFault::WrongCount, "WrongCount"),
];

const DRAFT_FAULTS: &[(DraftFault, &str)] = &[
    (DraftFault::BadField(Field::NameKey), "BadField NAME"),
    (DraftFault::BadField(Field::OtherKey), "BadField others"),
    (
        DraftFault::BadField(Field::TourPart),
        "BadField TOUR_SECTION",
    ),
    (
        DraftFault::BadField(Field::RowPotentialPart),
        "BadField ROW_POTENTIAL_SECTION",
    ),
    (
        DraftFault::Rule(EndFault::Missing(Field::DepotPart)),
        "Missing DEPOT_SECTION",
    ),
    (DraftFault::Rule(EndFault::WrongFormat), "WrongFormat"),
    (DraftFault::Rule(EndFault::WrongCount), "WrongCount"),
];

const COST_FAULTS: &[(CostFault, &str)] = &[(CostFault::NotInstance, "NotInstance")];

const WRITE_FAULTS: &[(WriteFault, &str)] = &[
    (WriteFault::Device, "device"),
    (WriteFault::OutOfMemory, "out of memory"),
];

const READ_FAULTS: &[(ReadFault, &str)] = &[
    (ReadFault::OutOfMemory, "out of memory"),
    (ReadFault::Device, "device"),
    (ReadFault::TooLong, "too long"),
];

/// Faults of a run name the file or the output.
const RUN_FAULTS: &[(RunFault, &str)] = &[
    (
        RunFault::File {
            file: 1,
            fault: ReadFault::Device,
        },
        "file 1: device",
    ),
    (
        RunFault::File {
            file: 2,
            fault: ReadFault::Device,
        },
        "file 2: device",
    ),
    (
        RunFault::File {
            file: 3,
            fault: ReadFault::Device,
        },
        "file 3: device",
    ),
    (
        RunFault::File {
            file: 2,
            fault: ReadFault::TooLong,
        },
        "file 2: too long",
    ),
    (
        RunFault::File {
            file: 3,
            fault: ReadFault::OutOfMemory,
        },
        "file 3: out of memory",
    ),
    (RunFault::Write(WriteFault::Device), "output: device"),
    (
        RunFault::Write(WriteFault::OutOfMemory),
        "output: out of memory",
    ),
    (RunFault::OutOfMemory, "out of memory"),
    (RunFault::WrongKind, "file 1: wrong kind"),
    (
        RunFault::Relayout(RelayoutFault::NotExplicit),
        "relayout: NotExplicit",
    ),
    (
        RunFault::Relayout(RelayoutFault::NotSymmetric { i: 1, j: 5000 }),
        "relayout: NotSymmetric 1 5000",
    ),
    (
        RunFault::Relayout(RelayoutFault::DiagonalLost { i: 17 }),
        "relayout: DiagonalLost 17",
    ),
    (
        RunFault::Relayout(RelayoutFault::OutOfMemory),
        "relayout: OutOfMemory",
    ),
];

#[test]
fn faults_print_their_names_with_the_file_or_the_field(rt: HostRuntime) {
    print(&rt, NUMBER_FAULTS);
    print(&rt, FIELDS);
    print(&rt, END_FAULTS);
    print(&rt, DRAFT_FAULTS);
    print(&rt, COST_FAULTS);
    print(&rt, WRITE_FAULTS);
    print(&rt, READ_FAULTS);
    print(&rt, RUN_FAULTS);
}
