//! Why a text can't be read as a solution. Every reader of a form returns one of these faults.
//! `specs/FaultTexts.antt` pins their printed names.

ghost use Rattle.std.specs.Prelude.{◌≡◌};
ghost use Rattle.tsp_solution.specs.FaultTexts.{form_fault_sentence, form_fault_text};

use std::fmt;
use thiserror::Error;
use tsp_io::Refused;
use tsp_text::ReadFault;

/// What is wrong at a word of a text.
#[derive(Clone, Copy, Debug, PartialEq, Eq, Error)]
pub enum FormFault {
    /// The text has none of the forms.
    NoForm,
    /// The numbers can be read in two ways, and nothing decides.
    Ambiguous,
    /// The form is read only if the instance is known.
    NoInstance,
    /// The text is a file of another TYPE than TOUR.
    NotATour,
    /// The instance is a file of another TYPE than TSP, ATSP or CVRP.
    NotAnInstance,
    /// The word isn't the number of a node, or of a customer.
    NotANode,
    /// The number is larger than that of any node.
    OutOfRange,
    /// There are more nodes than a file of TYPE TOUR may have.
    TooManyNodes,
    /// There are no nodes.
    NoNodes,
    /// The line isn't one of the form.
    UnknownLine,
    /// The walk doesn't begin and end at the depot.
    NotClosed,
    /// There are more or fewer numbers than the first line says.
    WrongCount,
    /// The node isn't in two edges.
    NotTwoEdges,
    /// The edges are more than one cycle.
    SeveralCycles,
    /// The table has more than two columns.
    TooManyColumns,
    /// No node is the depot or a copy of it.
    NoDepot,
    /// The text isn't JSON.
    BadJson,
    /// Values of JSON are nested too deep.
    TooDeep,
    /// The JSON has no list.
    NoList,
    /// The JSON has a second list.
    SeveralLists,
}

impl FormFault {
    /// The name of the fault.
    pub fn word(self) -> &'static str
        ensures { result.now ≡ form_fault_text self }
    {
        match self {
            FormFault::NoForm => "NoForm",
            FormFault::Ambiguous => "Ambiguous",
            FormFault::NoInstance => "NoInstance",
            FormFault::NotATour => "NotATour",
            FormFault::NotAnInstance => "NotAnInstance",
            FormFault::NotANode => "NotANode",
            FormFault::OutOfRange => "OutOfRange",
            FormFault::TooManyNodes => "TooManyNodes",
            FormFault::NoNodes => "NoNodes",
            FormFault::UnknownLine => "UnknownLine",
            FormFault::NotClosed => "NotClosed",
            FormFault::WrongCount => "WrongCount",
            FormFault::NotTwoEdges => "NotTwoEdges",
            FormFault::SeveralCycles => "SeveralCycles",
            FormFault::TooManyColumns => "TooManyColumns",
            FormFault::NoDepot => "NoDepot",
            FormFault::BadJson => "BadJson",
            FormFault::TooDeep => "TooDeep",
            FormFault::NoList => "NoList",
            FormFault::SeveralLists => "SeveralLists",
        }
    }
}

impl FormFault {
    /// What the fault means, in a sentence or two.
    pub fn sentence(self) -> &'static str
        ensures { result.now ≡ form_fault_sentence self }
    {
        match self {
            FormFault::NoForm => {
                "The text has none of the forms that tsp solution --forms prints."
            }
            FormFault::Ambiguous => {
                "The numbers can be read in two ways. Name the instance with --of, the form with --form,\n\
                or with --first 0 or 1 whether the numbers are customers or nodes."
            }
            FormFault::NoInstance =>
                "Routes of LKH-3 are read if you name their instance with --of.",
            FormFault::NotATour => "The file has another TYPE than TOUR.",
            FormFault::NotAnInstance =>
                "The file that --of names is no instance: its TYPE isn't TSP, ATSP or CVRP.",
            FormFault::NotANode => "The word isn't the number of a node or a customer.",
            FormFault::OutOfRange => "The number is larger than that of any node.",
            FormFault::TooManyNodes => {
                "A file of TYPE TOUR has at most 1,000,000 nodes, from 1 to 100,000."
            }
            FormFault::NoNodes => "There are no nodes.",
            FormFault::UnknownLine => {
                "The line is no route. Besides routes, a file may have a cost, comments with #, and lines NAME: VALUE."
            }
            FormFault::NotClosed =>
                "A walk begins and ends at the depot, and all walks at the same one.",
            FormFault::WrongCount =>
                "There are more or fewer lines or nodes than the first line says.",
            FormFault::NotTwoEdges =>
                "In a tour each node has two edges, and this is the node's third.",
            FormFault::SeveralCycles => "The edges are more than one cycle.",
            FormFault::TooManyColumns => {
                "A table has a column of nodes, and at most one more, of their positions."
            }
            FormFault::NoDepot => "No number is the depot or a copy of it.",
            FormFault::BadJson => "The text isn't JSON from here on.",
            FormFault::TooDeep => "Values of JSON are nested at most 64 deep.",
            FormFault::NoList => "The JSON has no list of nodes or routes.",
            FormFault::SeveralLists =>
                "The JSON has a second list, so that it isn't clear which one is the solution.",
        }
    }
}

impl fmt::Display for FormFault {
    ghost use Rattle.std.specs.Prelude.{Some};
    ghost use Rattle.tsp_solution.specs.FaultTexts.{form_fault_text};

    ghost output = { λ fault. Some (form_fault_text fault) };

    fn fmt<W: fmt::Write>(&self, f: &mut fmt::Formatter<W>) -> fmt::Result {
        f.write_str(self.word())
    }
}

/// Why a text isn't read as a solution.
#[derive(Clone, Copy, Debug, PartialEq, Eq, Error)]
pub enum SolutionFault {
    /// The fault at a line, from 1 on, and a word of it, from 1 on. Words stand between blanks and
    /// the marks `,` `;` `:` `[` `]` `(` `)` `{` `}` and `"`.
    Place {
        line: u32,
        word: u32,
        fault: FormFault,
    },
    /// The text has keywords of TSPLIB 95, and this fault.
    File(ReadFault),
    /// Memory was refused.
    OutOfMemory,
}

impl fmt::Display for SolutionFault {
    ghost use Rattle.std.specs.Prelude.{Some};
    ghost use Rattle.tsp_solution.specs.FaultTexts.{solution_fault_text};

    ghost output = { λ fault. Some (solution_fault_text fault) };

    fn fmt<W: fmt::Write>(&self, f: &mut fmt::Formatter<W>) -> fmt::Result {
        match *self {
            SolutionFault::Place { line, word, fault } => {
                write!(f, "line {line} word {word}: {fault}")
            }
            SolutionFault::File(fault) => f.write(fault),
            SolutionFault::OutOfMemory => f.write_str("out of memory"),
        }
    }
}

impl From<Refused> for SolutionFault {
    fn from(refused: Refused) -> SolutionFault {
        drop(refused);
        SolutionFault::OutOfMemory
    }
}
