//! The calls of `main.rt` on drafts, files, instances with one node, and texts of line ends, which
//! take no memory.

use std::alloc::Global;
use tsp_bound::{Duals, dual_bound};
use tsp_cost::{Costs, Instance, View, canonical_length, symmetric_fault, tour_length};
use tsp_file::{Draft, DraftFault, EndFault, File};
use tsp_format::{Field, Kind, Layout, WeightFormat, WeightKind};
use tsp_read::{Feed, ReadFault};

/// Whether each call has the answer that is wanted.
pub(crate) fn are_right(alloc: Global) -> bool {
    is_refused(alloc)
        && is_no_instance(alloc)
        && is_instance(alloc)
        && has_no_type(alloc)
        && blanks_have_no_type(alloc)
}

/// An empty draft is refused, and returned.
fn is_refused(alloc: Global) -> bool {
    match File::of(Draft::new(alloc)) {
        Ok(file) => {
            drop(file);
            false
        }
        Err((fault, draft)) => {
            drop(draft);
            fault == DraftFault::Rule(EndFault::Missing(Field::TypeKey))
        }
    }
}

/// A file of tours is no instance, and returned.
fn is_no_instance(alloc: Global) -> bool {
    let mut draft = Draft::new(alloc);
    draft.kind = Some(Kind::Tour);
    draft.tours = Some(Vec::new(alloc));
    let Ok(file) = File::of(draft) else {
        return false;
    };
    match Instance::of(file) {
        Ok(instance) => {
            drop(instance);
            false
        }
        Err((_, file)) => {
            let right = has_empty_tours(&file);
            drop(file);
            right
        }
    }
}

/// The file has its TYPE, an empty list of tours, and nothing else.
fn has_empty_tours(file: &File) -> bool {
    file.kind() == Kind::Tour
        && file.tours().is_some()
        && has_no_keywords(file)
        && has_no_sections(file)
}

/// The file has no keyword but its TYPE.
fn has_no_keywords(file: &File) -> bool {
    file.name().is_none()
        && file.comments().is_empty()
        && file.others().is_empty()
        && file.dimension().is_none()
        && file.capacity().is_none()
        && file.scale().is_none()
        && file.load_unit().is_none()
        && file.weight_kind().is_none()
        && file.weight_format().is_none()
        && file.coord_kind().is_none()
        && file.display_kind().is_none()
}

/// The file has no section but its tours.
fn has_no_sections(file: &File) -> bool {
    file.coords().is_none()
        && file.display().is_none()
        && file.demands().is_none()
        && file.depots().is_none()
        && file.fixed().is_none()
        && file.weights().is_none()
        && file.node_potentials().is_none()
        && file.row_potentials().is_none()
        && file.column_potentials().is_none()
        && file.fixed_potentials().is_none()
}

/// A matrix of one node without its diagonal is an instance.
fn is_instance(alloc: Global) -> bool {
    let mut draft = Draft::new(alloc);
    draft.kind = Some(Kind::Tsp);
    draft.dimension = Some(1);
    draft.weight_kind = Some(WeightKind::Explicit);
    draft.weight_format = Some(WeightFormat::Listed(Layout::UpperRow));
    draft.weights = Some(Vec::new(alloc));
    let Ok(file) = File::of(draft) else {
        return false;
    };
    match Instance::of(file) {
        Ok(instance) => {
            let right = has_no_costs(&instance);
            drop(instance);
            right
        }
        Err(refused) => {
            drop(refused);
            false
        }
    }
}

/// An instance of one node has lengths and a bound of 0.
fn has_no_costs(instance: &Instance) -> bool {
    if instance.count() != 1 {
        return false;
    }
    let Some(duals) = Duals::new(1, &[0], &[0]) else {
        return false;
    };
    let View::Triangle(triangle) = instance.view() else {
        return false;
    };
    triangle.count() == 1
        && instance.cost(1, 1) == 0
        && tour_length(instance, &[1]) == 0
        && canonical_length(instance) == 0
        && symmetric_fault(instance).is_none()
        && dual_bound(instance, &duals) == Ok(0)
}

/// A thousand line ends, one in each piece, aren't a valid file.
fn blanks_have_no_type(alloc: Global) -> bool {
    let mut feed = Feed::new(alloc);
    let mut fed = true;
    for _ in 0..1000 {
        fed = feed.feed(b"\n").is_ok() && fed;
    }
    let right = match feed.finish() {
        Ok(file) => {
            drop(file);
            false
        }
        Err(fault) => fault == ReadFault::End(EndFault::Missing(Field::TypeKey)),
    };
    fed && right
}

/// Line ends and blanks aren't a valid file.
fn has_no_type(alloc: Global) -> bool {
    let mut feed = Feed::new(alloc);
    let fed = feed.feed(b"\n \n\t");
    let end = feed.finish();
    let right = match end {
        Ok(file) => {
            drop(file);
            false
        }
        Err(fault) => fault == ReadFault::End(EndFault::Missing(Field::TypeKey)),
    };
    fed.is_ok() && right
}
