//! Laws: a fault is one line on standard error, and on a terminal each answer is explained. No code
//! calls them; they tell a reader what a run writes there.

ghost use Rattle.std.specs.Prelude.{◌≡◌, ℕ, Bool, List, true, false, Option, Some, Ok, drop, Result};
ghost use Rattle.clap.specs.Words.{Text};
ghost use Rattle.tsp_io.specs.Streams.{Sink};
ghost use Rattle.tsp_judge.specs.RunStatus.{run_fault_text};
ghost use Rattle.tsp_judge.specs.declared.run_status.RunFault.{RunFault};
ghost use Rattle.tsp_judge.specs.declared.compare_run.Compared.{Compared};
ghost use Rattle.tsp_tool.specs.declared.ends.ErrorLine.TheVariants as error_lines;
ghost use Rattle.tsp_tool.specs.declared.job.TaskFault.{TaskFault};
ghost use Rattle.tsp_tool.specs.declared.job.Job.{Job};
ghost use Rattle.tsp_tool.specs.declared.job.JobFault.{JobFault};
ghost use Rattle.tsp_tool.specs.Grammar.{GivesJob};
ghost use Rattle.tsp_tool.specs.declared.ends.RunEnd.TheVariants as run_ends;
ghost use Rattle.tsp_judge.specs.declared.task_run.Outcome.{Outcome};
ghost use Rattle.tsp_tool.specs.RunEnd.{is_one_line, IsWritten, WritesLine};
ghost use Rattle.tsp_tool.specs.ProgramRun.{EndsProgram};

use crate::input::Open;
use tsp_io::Gives;

/// The text of a fault is one line, and is written with a line end.
pub fn faults_are_one_line()
    ensures one { (fault : RunFault) → is_one_line (run_fault_text fault) ≡ true }
    ensures ended { (fault : RunFault) (old new : Option (List ℕ)) → IsWritten (Some (error_lines.Fault fault)) old new
        → WritesLine old new }
{}

/// On a terminal, every answer is explained, and so is every job that makes no task; elsewhere only
/// if the job says so. Words that make no job are never explained.
pub fn explained_on_a_terminal<F: Gives + Drop, O: Open<F>>(files: &O)
    ensures answer { (build : Text) (words : List Text) (sink : Sink) (explained : Bool) (answer : Result Outcome RunFault)
        → EndsProgram F.remaining F.gives (O.opens files.now) true build words sink explained (run_ends.Ended answer) → explained ≡ true }
    ensures comparison { (build : Text) (words : List Text) (sink : Sink) (explained : Bool) (answer : Result Compared RunFault)
        → EndsProgram F.remaining F.gives (O.opens files.now) true build words sink explained (run_ends.Compared answer) → explained ≡ true }
    ensures task { (build : Text) (words : List Text) (sink : Sink) (explained : Bool) (fault : TaskFault)
        → EndsProgram F.remaining F.gives (O.opens files.now) true build words sink explained (run_ends.NoTask fault) → explained ≡ true }
    ensures no_job { (build : Text) (words : List Text) (sink : Sink) (explained : Bool) (fault : JobFault)
        → EndsProgram F.remaining F.gives (O.opens files.now) true build words sink explained (run_ends.NoJob fault) → explained ≡ false }
    ensures elsewhere { (build : Text) (words : List Text) (sink : Sink) (explained : Bool) (answer : Result Outcome RunFault)
        → EndsProgram F.remaining F.gives (O.opens files.now) false build words sink explained (run_ends.Ended answer)
        → (job : Job) × GivesJob (drop 1 words) (Ok job) × (explained ≡ job.explain) }
{}
