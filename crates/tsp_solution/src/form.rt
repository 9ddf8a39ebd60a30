//! The forms in which programs write solutions, in the order in which `by_form.rt` tries them.
//! `specs/Forms.antt` pins their names, which are words of the command line, and their numbers,
//! which C programs use.

ghost use Rattle.std.specs.Prelude.{◌≡◌};
ghost use Rattle.tsp_solution.specs.Forms.{form_word, forms_table, IsFormOf};

/// A form in which a program writes a solution.
#[derive(Clone, Copy, Debug, PartialEq, Eq)]
pub enum Form {
    /// A file of TYPE TOUR, or one with LKH-3's copies of the depot.
    Tour,
    /// A list in JSON, or an object that contains one.
    Json,
    /// The walks that OR-Tools' examples print.
    OrTools,
    /// The routes of a .sol file of CVRPLIB.
    Cvrplib,
    /// The routes of LKH-3's MTSP_SOLUTION_FILE.
    LkhRoutes,
    /// A tour that R printed.
    RTour,
    /// The edges of a tour of Concorde.
    ConcordeEdges,
    /// A tour of Concorde.
    ConcordeTour,
    /// A table of nodes and their positions in the tour.
    Table,
    /// A list of nodes.
    List,
}

impl Form {
    /// The name of the form.
    pub fn word(self) -> &'static str
        ensures { result.now ≡ form_word self }
    {
        match self {
            Form::Tour => "tour",
            Form::Json => "json",
            Form::OrTools => "ortools",
            Form::Cvrplib => "cvrplib",
            Form::LkhRoutes => "lkh",
            Form::RTour => "r",
            Form::ConcordeEdges => "concorde-edges",
            Form::ConcordeTour => "concorde",
            Form::Table => "table",
            Form::List => "list",
        }
    }

    /// The form with a name, or `None` if no form has it.
    pub fn of_word(word: &str) -> Option<Form>
        ensures { IsFormOf word.now result }
    {
        match word {
            "tour" => Some(Form::Tour),
            "json" => Some(Form::Json),
            "ortools" => Some(Form::OrTools),
            "cvrplib" => Some(Form::Cvrplib),
            "lkh" => Some(Form::LkhRoutes),
            "r" => Some(Form::RTour),
            "concorde-edges" => Some(Form::ConcordeEdges),
            "concorde" => Some(Form::ConcordeTour),
            "table" => Some(Form::Table),
            "list" => Some(Form::List),
            _ => None,
        }
    }
}

/// The table of the forms: for each a line with its name and what tells it, and one with what is
/// read of it.
pub fn table_of_forms() -> &'static str
    ensures { result.now ≡ forms_table }
{
    TABLE
}

const TABLE: &str = "\
tour            a line TYPE or TOUR_SECTION
                a file of TYPE TOUR; with --of, LKH-3's copies of the depot too
json            begins with { or [, and is JSON
                a list of nodes or routes, alone or in an object, such as VRPLIB's
ortools         a line of nodes with -> between them
                what OR-Tools' examples print; nodes count from 0
cvrplib         a line that begins with Route and has a colon
                routes of CVRPLIB and PyVRP; customers count from 1
lkh             a line with (#
                LKH-3's MTSP_SOLUTION_FILE; needs --of
r               begins with [1]
                what R prints for as.integer(tour); nodes count from 1
concorde-edges  a first line of two equal numbers
                the edges of Concorde's tour; nodes count from 0
concorde        a first line with the number of nodes
                Concorde's tour; nodes count from 0
table           lines of two numbers, one of them the position
                nodes by position, below a line of names or without one
list            other numbers
                a list of nodes, such as Concorde's cycles and numpy's
";
