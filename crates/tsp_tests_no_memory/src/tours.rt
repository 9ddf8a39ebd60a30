//! The calls of `main.rt` on instances with points or a matrix, which take no memory, and on
//! lengths of tours, which take some.

use std::alloc::{AllocError, Global};
use tsp_cost::{Costs, Instance, View, tour_length, trace_tours};
use tsp_file::{Coords, Draft, File};
use tsp_format::{Kind, Layout, WeightFormat, WeightKind};
use tsp_number::{Decimal, PlanePoint};

/// Whether the instances have the costs that are wanted, and tours of them the lengths.
///
/// # Errors
///
/// Memory was refused.
pub(crate) fn are_right(alloc: Global) -> Result<bool, AllocError> {
    Ok(matrix_is_right(alloc)? && rectangle_is_right(alloc)?)
}

/// An instance of three nodes whose costs depend on the direction, and tours of it.
fn matrix_is_right(alloc: Global) -> Result<bool, AllocError> {
    let weights = Vec::from_slice(alloc, &[9i64, 1, 10, 10, 9, 2, 3, 10, 9])?;
    let mut draft = Draft::new(alloc);
    draft.kind = Some(Kind::Atsp);
    draft.dimension = Some(3);
    draft.weight_kind = Some(WeightKind::Explicit);
    draft.weight_format = Some(WeightFormat::Listed(Layout::FullMatrix));
    draft.weights = Some(weights);
    let Some(instance) = instance_of(draft) else {
        return Ok(false);
    };
    let traced = have_lengths(alloc, &instance);
    // If memory was refused to that, it is to these calls too, and they have to answer all the
    // same.
    let viewed = has_matrix(&instance);
    let handed_back = is_handed_back(instance, Kind::Atsp);
    if viewed && handed_back {
        traced
    } else {
        Ok(false)
    }
}

/// An instance of the rectangle with the sides 3 and 4, and tours of it.
fn rectangle_is_right(alloc: Global) -> Result<bool, AllocError> {
    let Some(points) = corners() else {
        return Ok(false);
    };
    let points = Vec::from_slice(alloc, &points)?;
    let mut draft = Draft::new(alloc);
    draft.kind = Some(Kind::Tsp);
    draft.dimension = Some(4);
    draft.weight_kind = Some(WeightKind::Euc2d);
    draft.coords = Some(Coords::Plane(points));
    let Some(instance) = instance_of(draft) else {
        return Ok(false);
    };
    let traced = have_sides(alloc, &instance);
    // The same.
    let viewed = has_points(&instance);
    let handed_back = is_handed_back(instance, Kind::Tsp);
    if viewed && handed_back {
        traced
    } else {
        Ok(false)
    }
}

/// The corners of the rectangle.
fn corners() -> Option<[PlanePoint; 4]> {
    let zero = Decimal::of_count(0)?;
    let three = Decimal::of_count(3_000_000_000)?;
    let four = Decimal::of_count(4_000_000_000)?;
    Some([
        PlanePoint { x: zero, y: zero },
        PlanePoint { x: three, y: zero },
        PlanePoint { x: three, y: four },
        PlanePoint { x: zero, y: four },
    ])
}

/// The instance that a draft holds.
fn instance_of(draft: Draft) -> Option<Instance> {
    let file = File::of(draft).ok()?;
    Instance::of(file).ok()
}

/// Whether an instance has this TYPE, and gives its file back.
fn is_handed_back(instance: Instance, kind: Kind) -> bool {
    let named = instance.kind() == kind && instance.file().kind() == kind;
    let file = instance.into_file();
    let right = named && file.kind() == kind;
    drop(file);
    right
}

/// Whether the instance is seen as a matrix whose first two costs that differ are of the nodes 1
/// and 2.
fn has_matrix(instance: &Instance) -> bool {
    match instance.view() {
        View::Matrix(matrix) => {
            matrix.count() == 3 && matrix.cost(2, 3) == 2 && matrix.even().err() == Some((1, 2))
        }
        View::Plane(_) | View::Space(_) | View::Triangle(_) => false,
    }
}

/// Whether the instance is seen as the corners of the rectangle.
fn has_points(instance: &Instance) -> bool {
    match instance.view() {
        View::Plane(points) => points.count() == 4 && points.cost(1, 3) == 5,
        View::Space(_) | View::Matrix(_) | View::Triangle(_) => false,
    }
}

/// Whether the tours 1 2 3 and 1 3 2, and the list of node 1, have the lengths 6, 30 and 9.
fn have_lengths(alloc: Global, instance: &Instance) -> Result<bool, AllocError> {
    if instance.count() != 3 {
        return Ok(false);
    }
    let tours = [
        Vec::from_slice(alloc, &[1u32, 2, 3])?,
        Vec::from_slice(alloc, &[1u32, 3, 2])?,
        Vec::from_slice(alloc, &[1u32])?,
    ];
    let lengths = trace_tours(alloc, instance, tours.as_slice())?;
    Ok(lengths.as_slice() == [6i64, 30, 9].as_slice() && tour_length(instance, &[1]) == 9)
}

/// Whether the lists 1 2 3 4, 1 3, 2 and the empty one have the lengths 14, 10, 0 and 0.
fn have_sides(alloc: Global, instance: &Instance) -> Result<bool, AllocError> {
    if instance.count() != 4 {
        return Ok(false);
    }
    let tours = [
        Vec::from_slice(alloc, &[1u32, 2, 3, 4])?,
        Vec::from_slice(alloc, &[1u32, 3])?,
        Vec::from_slice(alloc, &[2u32])?,
        Vec::new(alloc),
    ];
    let lengths = trace_tours(alloc, instance, tours.as_slice())?;
    Ok(lengths.as_slice() == [14i64, 10, 0, 0].as_slice())
}
