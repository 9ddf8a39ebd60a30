//! `Hints`: what is known about a solution besides its text, such as its form, how nodes are
//! counted, and the shape of its instance. tsp_tool and tsp_c fill it in, `solution_writer.rt` and
//! `in_memory.rt` add the shape, and `by_form.rt`, `meaning.rt` and `tour_file.rt` read it. What a
//! hint means for the nodes of a solution is tested, not proved.

ghost use Rattle.std.specs.Prelude.{◌≡◌, option_map};
ghost use Rattle.tsp_solution.specs.SolutionRun.{GivesShape, first_depot, no_hints, instance_shape_of};

use crate::fault::{FormFault, SolutionFault};
use crate::form::Form;
use crate::word_place::Place;
use tsp_file::File;
use tsp_format::Kind;

/// The number with which a program begins to count nodes.
#[derive(Clone, Copy, Debug, PartialEq, Eq)]
pub enum Numbering {
    /// Nodes count from 0. Routes list customers, which count from 1 without the depot.
    FromZero,
    /// Nodes count from 1, also in routes.
    FromOne,
}

/// The shape of an instance: what decides how the numbers of its solutions are read.
#[derive(Clone, Copy, Debug, PartialEq, Eq)]
pub struct InstanceShape {
    /// How many nodes it has.
    pub nodes: u32,
    /// Its depot, if solutions of it are routes.
    pub depot: Option<u32>,
}

impl InstanceShape {
    /// The shape of an instance, or `None` if the file isn't one.
    pub fn of(instance: &File) -> Option<InstanceShape>
        ensures { result ≡ instance_shape_of instance.now }
    {
        let nodes = instance.dimension()?;
        match instance.kind() {
            Kind::Tsp | Kind::Atsp => Some(InstanceShape { nodes, depot: None }),
            Kind::Cvrp => Some(InstanceShape {
                nodes,
                depot: Some(first_depot(instance)),
            }),
            Kind::Tour | Kind::Potentials | Kind::Branches => None,
        }
    }
}

/// The first depot of an instance of routes, which is node 1 if none is listed.
fn first_depot(instance: &File) -> u32
    ensures { result ≡ first_depot instance.now.depots }
{
    match instance.depots() {
        Some([depot, ..]) => *depot,
        _ => 1,
    }
}

/// What is known about a solution besides its text.
#[derive(Clone, Copy, Debug, PartialEq, Eq)]
pub struct Hints {
    /// Its form, or `None` to find that out.
    pub form: Option<Form>,
    /// How nodes are counted, or `None` to go by the form and the numbers.
    pub numbering: Option<Numbering>,
    /// The depot, or `None` for that of the instance.
    pub depot: Option<u32>,
    /// The shape of the instance, if one is known.
    pub shape: Option<InstanceShape>,
}

impl Hints {
    /// Nothing is known.
    pub fn none() -> Hints
        ensures { result ≡ no_hints }
    {
        Hints {
            form: None,
            numbering: None,
            depot: None,
            shape: None,
        }
    }

    /// The hints with the shape of an instance.
    ///
    /// # Errors
    ///
    /// `NotAnInstance` at the first word if the file has no shape.
    pub(crate) fn with_shape(self, shape: Option<InstanceShape>) -> Result<Hints, SolutionFault>
        ensures { GivesShape self shape result }
    {
        match shape {
            Some(shape) => Ok(Hints {
                form: self.form,
                numbering: self.numbering,
                depot: self.depot,
                shape: Some(shape),
            }),
            None => Err(Place::first().fault(FormFault::NotAnInstance)),
        }
    }

    /// How many nodes the instance has, if it is known.
    pub(crate) fn nodes(self) -> Option<u32>
        ensures { result ≡ option_map (λ shape. shape.nodes) self.shape }
    {
        match self.shape {
            Some(shape) => Some(shape.nodes),
            None => None,
        }
    }

    /// The depot: the given one, or that of the instance, or else node 1.
    pub(crate) fn depot(self) -> u32 {
        match (self.depot, self.shape) {
            (Some(depot), _) => depot,
            (
                None,
                Some(
                    InstanceShape {
                        nodes: _,
                        depot: Some(depot),
                    },
                ),
            ) => depot,
            (None, _) => 1,
        }
    }

    /// Whether the solution is known to be a tour, or to be routes, if either is known.
    pub(crate) fn are_routes(self) -> Option<bool> {
        match (self.depot, self.shape) {
            (Some(_), _) => Some(true),
            (None, Some(shape)) => Some(shape.depot.is_some()),
            (None, None) => None,
        }
    }
}
