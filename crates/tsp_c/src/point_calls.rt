//! The C calls `tsp_points` and `tsp_lengths`, and the same on a handle: they fill in coordinates
//! and the lengths of lists of nodes. `lib.rt` and `handle_calls.rt` export them, and
//! `specs/NumberCalls.antt` pins the numbers.

ghost use Rattle.tsp_c.specs.Prelude.{None, Some, length, option_map, slice_index_or, IsTrue, slice_index, origin, nodes_of};
ghost use Rattle.std.specs.List.{All, count_by, position};
ghost use Rattle.std.specs.Prelude.{◌≡◌, ◌≤◌, ◌<◌, ◌*◌, ◌-◌, ◌==◌, ◌↔◌};
ghost use Rattle.tsp_file.specs.states.Drafts.{points_of};
ghost use Rattle.tsp_c.specs.NumberCalls.{EndsLengths, EndsPoints, FillsPoints, IsFilled, IsSection, coordinate, point_number, section_points, AreLists, FillsLengths, list_count, list_length};

use crate::call_end::CallEnd;
use crate::pair_costs::put;
use crate::text_instance::instance_of;
use std::alloc::Global;
use tsp_cost::{Costs, Instance, tour_length};
use tsp_file::{Coords, File};
use tsp_judge::read_text;
use tsp_number::{InSpace, Point};

/// Fills in the coordinates in a section of a text, and returns the status.
pub(crate) fn fill_points(alloc: Global, text: &[u8], section: u32, out: &mut [i64]) -> CallEnd
    ensures { FillsPoints text.now section out.old out.new result }
{
    if section < 1 || section > 2 {
        return CallEnd::refused();
    }
    match read_text(alloc, 1, text) {
        Err(error) => CallEnd::of_fault(error),
        Ok(file) => {
            let status = points_of_file(&file, section, out);
            drop(file);
            status
        }
    }
}

/// Fills in the coordinates in a section of a file, and returns the status.
pub(crate) fn points_of_file(file: &File, section: u32, out: &mut [i64]) -> CallEnd
    requires { IsSection section }
    ensures { EndsPoints (section_points section file.now) out.old out.new result }
{
    match section_of(file, section) {
        None => CallEnd::no(),
        Some(points) => {
            if out.len() / 3 < points.len() {
                return CallEnd::too_small();
            }
            put_points(points, out);
            CallEnd::done()
        }
    }
}

/// The points of a section.
fn section_of(file: &File, section: u32) -> Option<&Coords>
    requires { IsSection section }
    ensures { option_map (λ points. points_of points.now) result ≡ section_points section file.now }
{
    match section {
        1 => file.coords(),
        _ => file.display(),
    }
}

/// Puts coordinates at the start of a buffer that has a place for each.
fn put_points(points: &Coords, out: &mut [i64])
    requires room { 3 * length (points_of points.now) ≤ length out.old }
    ensures { IsFilled (3 * length (points_of points.now)) (point_number (points_of points.now)) out.old out.new }
{
    'places: for k in 0..3 * points.len() {
        put(out, k, coordinate(point_at(points, k / 3), k % 3));
    }
}

/// The point at an index, from 0 on.
fn point_at(points: &Coords, index: usize) -> Point
    requires { index < length (points_of points.now) }
    ensures { result ≡ slice_index_or (points_of points.now) index origin }
{
    match points {
        Coords::Plane(points) => points[index].in_space(),
        Coords::Space(points) => points[index],
    }
}

/// A coordinate of a point: x, y or z for 0, 1 or 2.
fn coordinate(point: Point, axis: usize) -> i64
    ensures { result ≡ coordinate axis point }
{
    match axis {
        0 => point.x.nanos(),
        1 => point.y.nanos(),
        _ => point.z.nanos(),
    }
}

/// How many numbers a call may have.
const MOST_NUMBERS: usize = 1_000_000;

/// Fills in the lengths of lists of nodes of a text's instance, and returns the status.
pub(crate) fn fill_lengths(alloc: Global, text: &[u8], nodes: &[u32], out: &mut [i64]) -> CallEnd
    ensures { FillsLengths text.now nodes.now out.old out.new result }
{
    match instance_of(alloc, text) {
        Err(error) => CallEnd::of_fault(error),
        Ok(instance) => {
            let status = lengths_of(&instance, nodes, out);
            drop(instance);
            status
        }
    }
}

/// Fills in the lengths of lists of nodes of an instance, and returns the status.
#[tactic(auto, using(crate::proofs::HandleCalls::lists_counted))]
pub(crate) fn lengths_of(instance: &Instance, nodes: &[u32], out: &mut [i64]) -> CallEnd
    ensures { EndsLengths instance.now nodes.now out.old out.new result }
{
    if !are_lists(instance.count(), nodes) {
        return CallEnd::refused();
    }
    if out.len() < count_of(nodes) {
        return CallEnd::too_small();
    }
    put_lengths(instance, nodes, out);
    CallEnd::done()
}

/// Whether numbers are lists of nodes up to `count`, each with its 0.
fn are_lists(count: u32, nodes: &[u32]) -> bool
    ensures { IsTrue result ↔ AreLists nodes.now count }
{
    nodes.len() <= MOST_NUMBERS && is_ended(nodes) && are_up_to(count, nodes)
}

/// Whether the last number is a 0, if there is one.
fn is_ended(nodes: &[u32]) -> bool
    ensures { IsTrue result ↔ (slice_index nodes.now (length nodes.now - 1) ≡ 0) }
{
    nodes.is_empty() || nodes[nodes.len() - 1] == 0
}

/// Whether no number is above `count`.
fn are_up_to(count: u32, nodes: &[u32]) -> bool
    ensures { IsTrue result ↔ All (λ node. node ≤ count) nodes.now }
{
    nodes.iter().all(|node| *node <= count)
}

/// How many lists there are.
fn count_of(nodes: &[u32]) -> usize
    ensures { result ≡ count_by (λ node. node == 0) nodes.now }
{
    nodes.iter().filter(|node| **node == 0).count()
}

/// Puts the lengths of lists at the start of a buffer that has a place for each.
fn put_lengths(instance: &Instance, nodes: &[u32], out: &mut [i64])
    requires lists { AreLists nodes.now (nodes_of instance.now) }
    requires room { list_count nodes.now ≤ length out.old }
    ensures { IsFilled (list_count nodes.now) (list_length nodes.now instance.now) out.old out.new }
{
    let mut rest = nodes;
    let mut place = 0;
    'lists: while let Some(end) = end_of(rest) {
        let (list, others) = rest.split_at(end);
        put(out, place, tour_length(instance, list));
        place += 1;
        let (_, after) = others.split_at(1);
        rest = after;
    }
}

/// Where the first list ends.
fn end_of(nodes: &[u32]) -> Option<usize>
    ensures { result ≡ position (λ node. node == 0) nodes.now }
{
    nodes.iter().position(|node| *node == 0)
}
