//! Drafts and files that are made by hand. The tests of drafts and of the writer take them from
//! here; a new field goes into them.

use std::alloc::{AllocError, Global};
use std::test::Fail;
use tsp_file::{Coords, Draft, File};
use tsp_format::{
    CoordKind, DisplayKind, Kind, Layout, RowSets, TreeStep, WeightFormat, WeightKind,
};
use tsp_number::{Decimal, PlanePoint};

/// A file of tours.
pub fn tours(alloc: Global, lists: &[&[u32]]) -> Result<Draft, AllocError> {
    let tours = lists_of(alloc, lists)?;
    let mut draft = Draft::new(alloc);
    draft.kind = Some(Kind::Tour);
    draft.tours = Some(tours);
    Ok(draft)
}

/// The name `a`, an empty comment, and the tours 1, 2 and 3.
///
/// The draft is made last: at each `?` before, only lists have to be dropped, and its proof is
/// short.
pub fn two_tours(alloc: Global) -> Result<Draft, AllocError> {
    let name = Vec::from_slice(alloc, b"a")?;
    let mut comments = Vec::new(alloc);
    comments.push(Vec::new(alloc))?;
    let mut draft = tours(alloc, &[&[1, 2], &[3]])?;
    draft.name = Some(name);
    draft.comments = comments;
    Ok(draft)
}

/// An instance of n nodes with these weights in a layout.
pub fn explicit(alloc: Global, n: u32, layout: Layout, weights: Vec<i64>) -> Draft {
    let mut draft = Draft::new(alloc);
    draft.kind = Some(Kind::Tsp);
    draft.dimension = Some(n);
    draft.weight_kind = Some(WeightKind::Explicit);
    draft.weight_format = Some(WeightFormat::Listed(layout));
    draft.weights = Some(weights);
    draft
}

/// An instance of n nodes with this many weights 0 by the upper rows.
pub fn upper_row(alloc: Global, n: u32, count: usize) -> Result<Draft, AllocError> {
    let weights = vec![in alloc; 0; count]?;
    Ok(explicit(alloc, n, Layout::UpperRow, weights))
}

/// Points of the plane whose coordinates are given as counts of halves.
pub fn points(alloc: Global, halves: &[(i64, i64)]) -> Result<Coords, Fail> {
    let mut points = Vec::new(alloc);
    for (x, y) in halves {
        let x = Decimal::of_count(i128::from(*x) * 500_000_000).ok_or("no decimal")?;
        let y = Decimal::of_count(i128::from(*y) * 500_000_000).ok_or("no decimal")?;
        points.push(PlanePoint { x, y })?;
    }
    Ok(Coords::Plane(points))
}

/// The rectangle with the sides 3 and 4 as a CVRP, with every field set.
///
/// The lists are set in a function that is lent the draft, so that no early end there has to drop
/// it.
pub fn rectangle(alloc: Global) -> Result<Draft, Fail> {
    let mut draft = two_tours(alloc)?;
    draft.kind = Some(Kind::Cvrp);
    draft.dimension = Some(4);
    draft.capacity = Some(8);
    draft.scale = Some(7);
    draft.load_unit = Some(3);
    draft.weight_kind = Some(WeightKind::Euc2d);
    draft.weight_format = Some(WeightFormat::Listed(Layout::UpperRow));
    draft.coord_kind = Some(CoordKind::TwoD);
    draft.display_kind = Some(DisplayKind::TwoD);
    set_lists(alloc, &mut draft)?;
    Ok(draft)
}

/// Sets the lists of the rectangle. (Each part is a function of its own, whose proof is short.)
fn set_lists(alloc: Global, draft: &mut Draft) -> Result<(), Fail> {
    set_places(alloc, draft)?;
    set_weights(alloc, draft)?;
    set_potentials(alloc, draft)?;
    set_certificates(alloc, draft)?;
    Ok(())
}

/// Sets an unknown line and the points.
fn set_places(alloc: Global, draft: &mut Draft) -> Result<(), Fail> {
    let other = (
        Vec::from_slice(alloc, b"DISTANCE")?,
        Vec::from_slice(alloc, b"9")?,
    );
    draft.others.push(other)?;
    draft.coords = Some(points(alloc, &[(0, 0), (6, 0), (6, 8), (0, 8)])?);
    draft.display = Some(points(alloc, &[(0, 0), (3, 0), (3, -4), (0, -4)])?);
    Ok(())
}

/// Sets what the customers and the edges are given.
fn set_weights(alloc: Global, draft: &mut Draft) -> Result<(), AllocError> {
    draft.demands = Some(Vec::from_slice(alloc, &[0i64, 4, 4, 4])?);
    draft.depots = Some(Vec::from_slice(alloc, &[1u32])?);
    draft.fixed = Some(Vec::from_slice(alloc, &[(1u32, 2u32), (4, 3)])?);
    draft.weights = Some(Vec::from_slice(alloc, &[3i64, 5, 4, -1, 0, 1_000_000_000_000])?);
    Ok(())
}

/// Sets the potentials.
fn set_potentials(alloc: Global, draft: &mut Draft) -> Result<(), AllocError> {
    draft.node_potentials = Some(Vec::from_slice(alloc, &[3i64, -3, 0, 0])?);
    draft.row_potentials = Some(Vec::from_slice(alloc, &[4i64, -4, 0, 0])?);
    draft.column_potentials = Some(Vec::from_slice(alloc, &[5i64, -5, 0, 0])?);
    draft.fixed_potentials = Some(Vec::from_slice(alloc, &[(1u32, 2u32, 6i64), (3, 4, 0)])?);
    Ok(())
}

/// Sets two families, and the lists of a tree.
fn set_certificates(alloc: Global, draft: &mut Draft) -> Result<(), AllocError> {
    draft.families = Some(two_families(alloc)?);
    draft.memories = Some(lists_of(alloc, &[&[2, 3, 4], &[3]])?);
    draft.subset_rows = Some(two_rows(alloc)?);
    draft.branches = Some(two_leaves(alloc)?);
    Ok(())
}

/// A family of two sets, and one of a single node.
fn two_families(alloc: Global) -> Result<Vec<Vec<Vec<u32>>>, AllocError> {
    let mut families = Vec::new(alloc);
    families.push(lists_of(alloc, &[&[1, 2], &[1, 3]])?)?;
    families.push(lists_of(alloc, &[&[4]])?)?;
    Ok(families)
}

/// Lists of nodes: the sets of a family, a memory, or tours.
fn lists_of(alloc: Global, lists: &[&[u32]]) -> Result<Vec<Vec<u32>>, AllocError> {
    let mut held = Vec::new(alloc);
    for list in lists {
        held.push(Vec::from_slice(alloc, list)?)?;
    }
    Ok(held)
}

/// A subset row without further nodes, and one with two.
fn two_rows(alloc: Global) -> Result<Vec<RowSets>, AllocError> {
    let mut rows = Vec::new(alloc);
    let set = Vec::from_slice(alloc, &[2u32, 3])?;
    let further = Vec::new(alloc);
    rows.push(RowSets { set, further })?;
    let set = Vec::from_slice(alloc, &[4u32])?;
    let further = Vec::from_slice(alloc, &[2u32, 3])?;
    rows.push(RowSets { set, further })?;
    Ok(rows)
}

/// A tree with a branch on the nodes 1 and 2, a leaf with two differences, and one with none.
fn two_leaves(alloc: Global) -> Result<Vec<TreeStep>, AllocError> {
    let mut steps = Vec::new(alloc);
    steps.push(TreeStep::Branch(1, 2))?;
    steps.push(TreeStep::Leaf(Vec::from_slice(alloc, &[(1u32, -5i64), (6, 7)])?))?;
    steps.push(TreeStep::Leaf(Vec::new(alloc)))?;
    Ok(steps)
}

/// The file that a draft holds.
pub fn file_of(draft: Draft) -> Result<File, Fail> {
    match File::of(draft) {
        Ok(file) => Ok(file),
        Err(_) => Err(Fail::from("no file")),
    }
}
