//! Reads the edges of a Concorde tour: the number of nodes twice, then the two ends of an edge in
//! each line, with or without its weight. `by_form.rt` calls it; its answers are tested, not
//! proved.

use crate::fault::{FormFault, SolutionFault};
use crate::word_place::{Place, is_mark, number_of};
use std::alloc::Global;
use tsp_io::{Refused, filled, push};

/// No node, in the place of a neighbour.
const NO_NODE: u32 = u32::MAX;

/// An edge, and its line.
#[derive(Clone, Copy)]
struct Edge {
    ends: (u32, u32),
    line: u32,
}

/// The edges of a text.
#[derive(Drop)]
struct Edges {
    /// How many nodes there are, by the first line.
    nodes: Option<u32>,
    edges: Vec<Edge>,
}

/// Whether the first line that has words is two equal numbers above 1.
pub(crate) fn begins_as_edges(text: &[u8]) -> bool {
    'lines: for bytes in text.split(|byte| *byte == b'\n') {
        match first_words(bytes, Place::first()) {
            Ok(([], _, _)) => {}
            Ok((_, numbers, 2)) => return numbers.0 == numbers.1 && numbers.0 > 1,
            _ => return false,
        }
    }
    false
}

/// The tour along the edges of a text, whose nodes count from 0.
///
/// # Errors
///
/// `NotANode` and `OutOfRange` at a word that isn't a node; `WrongCount` if there are more or fewer
/// edges than nodes; `NotTwoEdges` at a node's third edge; `SeveralCycles`.
pub(crate) fn read_edges(alloc: Global, text: &[u8]) -> Result<Vec<u32>, SolutionFault> {
    let mut edges = Edges {
        nodes: None,
        edges: Vec::new(alloc),
    };
    let mut line = 0u32;
    'lines: for bytes in text.split(|byte| *byte == b'\n') {
        line = line.saturating_add(1);
        edges.take_line(bytes, line)?;
    }
    edges.tour(alloc)
}

impl Edges {
    /// Takes the next line.
    fn take_line(&mut self, bytes: &[u8], line: u32) -> Result<(), SolutionFault> {
        let place = Place::of_line(line);
        let (words, ends, count) = first_words(bytes, place)?;
        if words.is_empty() {
            return Ok(());
        }
        if count < 2 {
            return Err(place.next().fault(FormFault::NotANode));
        }
        let Some(nodes) = self.nodes else {
            self.nodes = Some(ends.0);
            return if ends.0 == ends.1 {
                Ok(())
            } else {
                Err(place.next().fault(FormFault::WrongCount))
            };
        };
        if ends.0 >= nodes {
            return Err(place.fault(FormFault::OutOfRange));
        }
        if ends.1 >= nodes {
            return Err(place.next().fault(FormFault::OutOfRange));
        }
        if self.edges.len() >= nodes as usize {
            return Err(place.fault(FormFault::WrongCount));
        }
        push(&mut self.edges, Edge { ends, line })?;
        Ok(())
    }

    /// The tour along the edges.
    fn tour(&self, alloc: Global) -> Result<Vec<u32>, SolutionFault> {
        let nodes = self.nodes.unwrap_or(0);
        if self.edges.len() != nodes as usize || nodes == 0 {
            return Err(Place::first().fault(FormFault::WrongCount));
        }
        let near = neighbours(alloc, &self.edges)?;
        let tour = cycle(alloc, &near)?;
        if tour.len() != near.len() {
            drop(tour);
            return Err(Place::first().fault(FormFault::SeveralCycles));
        }
        Ok(tour)
    }
}

/// The words of a line, its first two numbers, and how many words it has: 0, 1, 2 or 3 for more.
/// The others, such as an edge's weight, may be anything.
fn first_words(line: &[u8], first: Place) -> Result<(&[u8], (u32, u32), u32), SolutionFault> {
    let mut numbers = (0u32, 0u32);
    let mut count = 0u32;
    'words: for word in line.split(|byte| is_mark(*byte)) {
        match count {
            _ if word.is_empty() => continue,
            0 => numbers.0 = number_of(word, first)?,
            1 => numbers.1 = number_of(word, first.next())?,
            _ => return Ok((line, numbers, 3)),
        }
        count = count.saturating_add(1);
    }
    let words = if count == 0 { &[] } else { line };
    Ok((words, numbers, count))
}

/// The two neighbours of each node, of which there are as many as edges.
fn neighbours(alloc: Global, edges: &[Edge]) -> Result<Vec<(u32, u32)>, SolutionFault> {
    let mut near = filled(alloc, (NO_NODE, NO_NODE), edges.len())?;
    'edges: for edge in edges {
        let (one, other) = edge.ends;
        if !add_neighbour(&mut near, one, other) {
            drop(near);
            return Err(Place::of_line(edge.line).fault(FormFault::NotTwoEdges));
        }
        if !add_neighbour(&mut near, other, one) {
            drop(near);
            return Err(
                Place::of_line(edge.line)
                    .next()
                    .fault(FormFault::NotTwoEdges),
            );
        }
    }
    Ok(near)
}

/// Adds a neighbour of a node, and returns whether the node has two at most.
fn add_neighbour(near: &mut [(u32, u32)], node: u32, neighbour: u32) -> bool {
    match near.get_mut(node as usize) {
        Some((first, _)) if *first == NO_NODE => {
            *first = neighbour;
            true
        }
        Some((_, second)) if *second == NO_NODE => {
            *second = neighbour;
            true
        }
        _ => false,
    }
}

/// The nodes from node 0 along the edges until they come back to it.
fn cycle(alloc: Global, near: &[(u32, u32)]) -> Result<Vec<u32>, Refused> {
    let mut tour = Vec::new(alloc);
    let mut before = NO_NODE;
    let mut node = 0u32;
    'nodes: for _ in 0..near.len() {
        let Some((first, second)) = near.get(node as usize) else {
            return Ok(tour);
        };
        push(&mut tour, node)?;
        let following = if *first == before { *second } else { *first };
        before = node;
        node = following;
        if node == 0 {
            return Ok(tour);
        }
    }
    Ok(tour)
}
