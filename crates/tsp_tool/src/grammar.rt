//! The command line as `clap` sees it: six subcommands, their arguments, and the texts of the help.
//! `specs/Grammar.antt` pins all but the texts. If you change the version here, change its copy
//! `VERSION_NUMBER` in `src/lib.rt` of tsp_c, too.

ghost use Rattle.std.specs.Prelude.{◌≡◌, IfOk, false};
ghost use Rattle.clap.specs.Words.{App, Rule, new_app, rule_of, with_rule, with_subcommand};
ghost use Rattle.tsp_tool.specs.Grammar.{IsCommandOf, has_globals, path, several_paths, optional_path, option, flag, explain, strict, show, convert, check_files, check_certified, check_claimed, check, compare_files, compare_certified, compare_formed, compare, bound_files, bound_certified, bound, solution_files, solution_hints, solution_verb, start, tsp};

use clap::{Arg, ArgAction, Command};
use std::alloc::{AllocError, Global};

/// The program's version.
pub const VERSION: &str = "1.1.0";

/// The line of help that says what the program does.
const ABOUT: &str = "Reads, writes and judges TSPLIB 95 files";

/// The end of the program's help.
const NOTES: &str = "\
Without arguments, tsp shows the file on standard input.
The path - stands for standard input, for at most one file.

Exit status:
  0  yes, or done
  1  no, or the matrix can't be written in the layout
  2  a file has a fault, or the first file is of the wrong kind
  3  out of memory
  4  the command line is refused, or asks for --help
  5  a file can't be read, or the output can't be written

With --explain, more lines say where a fault or a no is, and what to do.

Examples:
  tsp show a.tsp
  tsp convert a.tsp --layout UPPER_ROW > b.tsp
  tsp check a.tsp a.tour --potentials a.potentials
  tsp check a.tsp a.tour --branches a.branches
  tsp check a.tsp a.tour --length 426
  tsp compare a.tsp a.tour b.tour --potentials a.potentials
  tsp bound a.tsp --potentials a.potentials
  tsp solution a.sol --of a.vrp > a.tour";

/// What the options of the certificates are.
const POTENTIALS: &str = "Compute a bound from this file of TYPE POTENTIALS";

const BRANCHES: &str = "Compute a bound from this file of TYPE BRANCHES";

/// The end of the help of `show`.
const SHOW_NOTES: &str = "\
Prints the file's name, its TYPE, its number of nodes, and what else it
contains, each on a line of its own.

Exit status: 0 done, 2 a fault in the file, 3 out of memory, 5 a failed
read or write.

Example:
  tsp show a.tsp";

/// The end of the help of `convert`.
const CONVERT_NOTES: &str = "\
Prints the file's canonical text. These are the layouts of TSPLIB 95:
  FULL_MATRIX
  UPPER_ROW  UPPER_DIAG_ROW  LOWER_ROW  LOWER_DIAG_ROW
  UPPER_COL  UPPER_DIAG_COL  LOWER_COL  LOWER_DIAG_COL

Exit status: 0 done, 1 the matrix can't be written in the layout, 2 a fault
in the file, 3 out of memory, 4 no such layout, 5 a failed read or write.

Example:
  tsp convert a.tsp --layout UPPER_ROW > b.tsp";

/// The end of the help of `check`.
const CHECK_NOTES: &str = "\
Prints yes with the length, or no with the first reason. With --potentials or
--branches it also prints a bound: no tour is shorter. Write a length below 0
with an equals sign: --length=-34. With --strict, an instance with an unknown
keyword, or with a field that it doesn't use, is rejected if no other reason
applies. With --form auto, the solution is read as tsp solution --of F reads it.

Exit status: 0 yes, 1 no, 2 a fault in a file or the wrong kind,
3 out of memory, 4 two certificates, not a length or no such form, 5 a failed
read or write.

Examples:
  tsp check a.tsp a.tour
  tsp check a.tsp a.tour --potentials a.potentials
  tsp check a.tsp a.tour --branches a.branches
  tsp check a.tsp a.tour --length 426
  tsp check a.tsp a.tour --strict
  tsp check a.vrp a.sol --form auto";

/// The end of the help of `compare`.
const COMPARE_NOTES: &str = "\
Reads the instance and the certificate once, then each solution in turn, and
prints a line for each: its length and path, or why it is rejected or can't be
read. With --potentials or --branches it also prints a bound, and each line
says optimal or gives the gap. With --strict, an instance with an unknown
keyword, or with a field that it doesn't use, is rejected, and no solution is
read. With --form auto, a solution is read as tsp solution --of F reads it. If
it can't be read so, it is read as a file of TYPE TOUR.

Exit status: the largest of 0 all accepted, 1 a no, 2 a fault in a file or
the wrong kind, 5 a failed read or write; or 3 out of memory, 4 two
certificates or no such form.

Examples:
  tsp compare a.tsp a.tour b.tour
  tsp compare a.tsp *.tour --potentials a.potentials
  tsp compare a.tsp *.tour --branches a.branches
  tsp compare a.vrp *.sol --form auto";

/// The end of the help of `bound`.
const BOUND_NOTES: &str = "\
Prints yes with the bound, or no with the first reason against the instance
or the certificate. No tour of the instance is shorter than the bound. With
--strict, an instance with an unknown keyword, or with a field that it doesn't
use, is rejected if no other reason applies.

Exit status: 0 yes, 1 no, 2 a fault in a file or the wrong kind,
3 out of memory, 4 not exactly one certificate, 5 a failed read or write.

Examples:
  tsp bound a.tsp --potentials a.potentials
  tsp bound a.tsp --branches a.branches";

/// The end of the help of `solution`.
const SOLUTION_NOTES: &str = "\
Reads a solution that another program wrote, and prints it as a file of TYPE
TOUR. A length that it claims is kept in a COMMENT. The form is found by what
the file contains; tsp solution --forms prints all forms. With --of, the
instance says where the depot is, and whether routes list customers or nodes.
The result isn't judged here: pass it to tsp check.

Exit status: 0 done, 2 a fault of a file, 3 out of memory, 4 no such form,
numbering or depot, 5 a device.

Examples:
  tsp solution a.sol --of a.vrp > a.tour
  tsp solution routes.json --form json --first 0 > a.tour
  tsp solution a.sol --of a.vrp | tsp check a.vrp -";

/// The program's command with its six subcommands. Its words come after the program's own name.
pub(crate) fn tsp<'a>(alloc: Global) -> Result<Command<'a>, AllocError>
    ensures { IfOk result (IsCommandOf tsp) }
{
    let one = then_command(top(alloc), show(alloc));
    let two = then_command(one, convert(alloc));
    let three = then_command(two, check(alloc));
    let four = then_command(three, compare(alloc));
    let five = then_command(four, bound(alloc));
    then_command(five, solution(alloc))
}

/// The program's command without its subcommands.
fn top<'a>(alloc: Global) -> Result<Command<'a>, AllocError>
    ensures { IfOk result (IsCommandOf start) }
{
    command(alloc, "tsp", ABOUT, NOTES)
        .no_binary_name(true)
        .version(VERSION)
        .propagate_version(true)
        .bin_name("tsp")
}

/// `show F [--explain]`.
fn show<'a>(alloc: Global) -> Result<Command<'a>, AllocError>
    ensures { IfOk result (IsCommandOf show) }
{
    let bare = command(alloc, "show", "Prints what a file contains", SHOW_NOTES);
    let one = then(Ok(bare), path(alloc, "F", "A TSPLIB 95 file"));
    then(one, explain(alloc))
}

/// `convert F [--layout L] [--explain]`.
fn convert<'a>(alloc: Global) -> Result<Command<'a>, AllocError>
    ensures { IfOk result (IsCommandOf convert) }
{
    let about = "Writes a file in normal form, or its matrix in another layout";
    let bare = command(alloc, "convert", about, CONVERT_NOTES);
    let one = then(Ok(bare), path(alloc, "F", "A TSPLIB 95 file"));
    let layout = option(alloc, "L", "layout", "Write the matrix in this layout");
    let two = then(one, layout);
    then(two, explain(alloc))
}

/// `check F T [--potentials P] [--branches B] [--length N] [--form NAME] [--strict] [--explain]`.
fn check<'a>(alloc: Global) -> Result<Command<'a>, AllocError>
    ensures { IfOk result (IsCommandOf check) }
{
    let one = then(check_claimed(alloc), strict(alloc));
    then(one, explain(alloc))
}

/// `check F T [--potentials P] [--branches B] [--length N] [--form NAME]`.
fn check_claimed<'a>(alloc: Global) -> Result<Command<'a>, AllocError>
    ensures { IfOk result (IsCommandOf check_claimed) }
{
    let length = option(alloc, "N", "length", "Reject a solution of another length");
    let one = then(check_certified(alloc), length);
    let about = "Read the solution in this form, or with auto in any";
    then(one, option(alloc, "NAME", "form", about))
}

/// `check F T [--potentials P] [--branches B]`.
fn check_certified<'a>(alloc: Global) -> Result<Command<'a>, AllocError>
    ensures { IfOk result (IsCommandOf check_certified) }
{
    let files = check_files(alloc);
    let one = then(files, option(alloc, "P", "potentials", POTENTIALS));
    then(one, option(alloc, "B", "branches", BRANCHES))
}

/// `check F T`, which has the files.
fn check_files<'a>(alloc: Global) -> Result<Command<'a>, AllocError>
    ensures { IfOk result (IsCommandOf check_files) }
{
    let about = "Judges a tour or routes, and computes a bound from a certificate";
    let bare = command(alloc, "check", about, CHECK_NOTES);
    let instance = "The instance, of TYPE TSP, ATSP or CVRP";
    let one = then(Ok(bare), path(alloc, "F", instance));
    then(one, path(alloc, "T", "The solution, of TYPE TOUR"))
}

/// `compare F T.. [--potentials P] [--branches B] [--form NAME] [--strict] [--explain]`.
fn compare<'a>(alloc: Global) -> Result<Command<'a>, AllocError>
    ensures { IfOk result (IsCommandOf compare) }
{
    let one = then(compare_formed(alloc), strict(alloc));
    then(one, explain(alloc))
}

/// `compare F T.. [--potentials P] [--branches B] [--form NAME]`.
fn compare_formed<'a>(alloc: Global) -> Result<Command<'a>, AllocError>
    ensures { IfOk result (IsCommandOf compare_formed) }
{
    let about = "Read the solutions in this form, or with auto in any";
    let form = option(alloc, "NAME", "form", about);
    then(compare_certified(alloc), form)
}

/// `compare F T.. [--potentials P] [--branches B]`.
fn compare_certified<'a>(alloc: Global) -> Result<Command<'a>, AllocError>
    ensures { IfOk result (IsCommandOf compare_certified) }
{
    let files = compare_files(alloc);
    let one = then(files, option(alloc, "P", "potentials", POTENTIALS));
    then(one, option(alloc, "B", "branches", BRANCHES))
}

/// `compare F T..`, which has the files.
fn compare_files<'a>(alloc: Global) -> Result<Command<'a>, AllocError>
    ensures { IfOk result (IsCommandOf compare_files) }
{
    let about = "Judges many solutions of one instance, and prints a line for each";
    let bare = command(alloc, "compare", about, COMPARE_NOTES);
    let instance = "The instance, of TYPE TSP, ATSP or CVRP";
    let one = then(Ok(bare), path(alloc, "F", instance));
    then(one, paths(alloc, "S", "The solutions, of TYPE TOUR"))
}

/// `bound F [--potentials P] [--branches B] [--strict] [--explain]`.
fn bound<'a>(alloc: Global) -> Result<Command<'a>, AllocError>
    ensures { IfOk result (IsCommandOf bound) }
{
    let one = then(bound_certified(alloc), strict(alloc));
    then(one, explain(alloc))
}

/// `bound F [--potentials P] [--branches B]`.
fn bound_certified<'a>(alloc: Global) -> Result<Command<'a>, AllocError>
    ensures { IfOk result (IsCommandOf bound_certified) }
{
    let files = bound_files(alloc);
    let one = then(files, option(alloc, "P", "potentials", POTENTIALS));
    then(one, option(alloc, "B", "branches", BRANCHES))
}

/// `bound F`, which has the file.
fn bound_files<'a>(alloc: Global) -> Result<Command<'a>, AllocError>
    ensures { IfOk result (IsCommandOf bound_files) }
{
    let about = "Computes a bound from a certificate, without a solution";
    let bare = command(alloc, "bound", about, BOUND_NOTES);
    let instance = "The instance, of TYPE TSP, ATSP or CVRP";
    then(Ok(bare), path(alloc, "F", instance))
}

/// `solution [T] [--of F] [--form NAME] [--first 0|1] [--depot D] [--forms] [--explain]`.
fn solution<'a>(alloc: Global) -> Result<Command<'a>, AllocError>
    ensures { IfOk result (IsCommandOf solution_verb) }
{
    let forms = flag(
        alloc,
        "A",
        "forms",
        "Print all forms, and what tells them apart",
    );
    let one = then(solution_hints(alloc), forms);
    then(one, explain(alloc))
}

/// `solution [T] [--of F] [--form NAME] [--first 0|1] [--depot D]`.
fn solution_hints<'a>(alloc: Global) -> Result<Command<'a>, AllocError>
    ensures { IfOk result (IsCommandOf solution_hints) }
{
    let form = option(
        alloc,
        "NAME",
        "form",
        "The name of the form, or auto to find it",
    );
    let one = then(solution_files(alloc), form);
    let about = "0 if nodes count from 0 or routes list customers, 1 if nodes count from 1";
    let two = then(one, option(alloc, "0|1", "first", about));
    then(
        two,
        option(alloc, "D", "depot", "The depot, if it isn't node 1"),
    )
}

/// `solution [T] [--of F]`, which has the files.
fn solution_files<'a>(alloc: Global) -> Result<Command<'a>, AllocError>
    ensures { IfOk result (IsCommandOf solution_files) }
{
    let about = "Writes another program's solution as a file of TYPE TOUR";
    let bare = command(alloc, "solution", about, SOLUTION_NOTES);
    let solution = optional_path(alloc, "T", "The path of the solution, in any form");
    let one = then(Ok(bare), solution);
    then(one, option(alloc, "F", "of", "The path of its instance"))
}

/// A command without arguments, with the texts of its help.
fn command<'a>(alloc: Global, name: &'a str, about: &'a str, notes: &'a str) -> Command<'a>
    ensures { IsCommandOf (new_app name.now) result }
{
    Command::new(alloc, name).about(about).after_help(notes)
}

/// Adds an argument to a command, unless memory has run out. Commands are put together in this way
/// because each early return costs the prover much time.
fn then<'a>(
    command: Result<Command<'a>, AllocError>,
    arg: Arg<'a>,
) -> Result<Command<'a>, AllocError>
    requires local { arg.global ≡ false }
    requires globals { IfOk command (λ made. has_globals made ≡ false) }
    ensures { (app : App) (rule : Rule) → IfOk command.entry (IsCommandOf app)
        → rule_of arg.entry ≡ rule → IfOk result (IsCommandOf (with_rule app rule)) }
{
    command?.arg(arg)
}

/// Adds a subcommand to a command, unless memory has run out for one of them.
fn then_command<'a>(
    command: Result<Command<'a>, AllocError>,
    subcommand: Result<Command<'a>, AllocError>,
) -> Result<Command<'a>, AllocError>
    requires globals { IfOk command (λ made. has_globals made ≡ false) }
    requires sub { IfOk subcommand (λ made. has_globals made ≡ false) }
    ensures { (app sub : App) → IfOk command.entry (IsCommandOf app)
        → IfOk subcommand.entry (IsCommandOf sub)
        → IfOk result (IsCommandOf (with_subcommand app sub.top)) }
{
    let subcommand = subcommand?;
    command?.subcommand(subcommand)
}

/// A path that the words have to contain.
fn path<'a>(alloc: Global, id: &'a str, help: &'a str) -> Arg<'a>
    ensures rule { rule_of result ≡ path id.now }
    ensures local { result.global ≡ false }
{
    Arg::new(alloc, id).required(true).help(help)
}

/// A path that the words may contain.
fn optional_path<'a>(alloc: Global, id: &'a str, help: &'a str) -> Arg<'a>
    ensures rule { rule_of result ≡ optional_path id.now }
    ensures local { result.global ≡ false }
{
    Arg::new(alloc, id).help(help)
}

/// One or more paths. The help calls each of them `T`, like a single path.
fn paths<'a>(alloc: Global, id: &'a str, help: &'a str) -> Arg<'a>
    ensures rule { rule_of result ≡ several_paths id.now }
    ensures local { result.global ≡ false }
{
    path(alloc, id, help)
        .action(ArgAction::Append)
        .value_name("T")
}

/// An option with one value.
fn option<'a>(alloc: Global, id: &'a str, long: &'a str, help: &'a str) -> Arg<'a>
    ensures rule { rule_of result ≡ option id.now long.now }
    ensures local { result.global ≡ false }
{
    Arg::new(alloc, id).long(long).help(help)
}

/// An option without a value.
fn flag<'a>(alloc: Global, id: &'a str, long: &'a str, help: &'a str) -> Arg<'a>
    ensures rule { rule_of result ≡ flag id.now long.now }
    ensures local { result.global ≡ false }
{
    Arg::new(alloc, id)
        .long(long)
        .action(ArgAction::SetTrue)
        .help(help)
}

/// `--explain`, which each verb has.
fn explain<'a>(alloc: Global) -> Arg<'a>
    ensures rule { rule_of result ≡ explain }
    ensures local { result.global ≡ false }
{
    flag(
        alloc,
        "E",
        "explain",
        "Explain a fault, or the line no, on standard error",
    )
}

/// `--strict`, which the three verbs that judge have.
fn strict<'a>(alloc: Global) -> Arg<'a>
    ensures rule { rule_of result ≡ strict }
    ensures local { result.global ≡ false }
{
    flag(
        alloc,
        "U",
        "strict",
        "Reject an instance with an unknown keyword or an unused field",
    )
}
