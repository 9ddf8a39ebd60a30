//! Laws that state values of the definitions in `specs/`, worked out by hand: names of forms, and
//! texts of faults. No code calls them. If someone makes the same mistake in a definition and in
//! the code, every contract still holds, but one of these laws fails.

ghost use Rattle.std.specs.Prelude.{◌≡◌, ◌++◌, ◌∷◌, [], None, Some, codes, decimal};
ghost use Rattle.tsp_format.specs.declared.kinds.Kind.TheVariants.{Tsp, Atsp, Cvrp, Tour};
ghost use Rattle.tsp_solution.specs.FaultTexts.{form_fault_sentence, form_fault_text, solution_fault_text, solution_run_fault_text};
ghost use Rattle.tsp_solution.specs.Forms.{form_content, form_mark, form_word, rows_of_form};
ghost use Rattle.tsp_solution.specs.SolutionRun.{instance_shape_by, shape};
ghost use Rattle.tsp_solution.specs.declared.fault.FormFault.TheVariants as form_faults;
ghost use Rattle.tsp_solution.specs.declared.fault.SolutionFault.TheVariants as solution_faults;
ghost use Rattle.tsp_solution.specs.declared.form.Form.TheVariants as forms;
ghost use Rattle.tsp_solution.specs.declared.solution_writer.SolutionRunFault.TheVariants as run_faults;
ghost use Rattle.tsp_io.specs.declared.piece.WriteFault.TheVariants as write_faults;
ghost use Rattle.tsp_text.specs.declared.fault.ReadFault.TheVariants as reads;

/// The name of each form.
pub fn examples_of_forms()
    ensures tour { form_word forms.Tour ≡ codes "tour" }
    ensures json { form_word forms.Json ≡ codes "json" }
    ensures ortools { form_word forms.OrTools ≡ codes "ortools" }
    ensures cvrplib { form_word forms.Cvrplib ≡ codes "cvrplib" }
    ensures lkh { form_word forms.LkhRoutes ≡ codes "lkh" }
    ensures r_tour { form_word forms.RTour ≡ codes "r" }
    ensures concorde_edges { form_word forms.ConcordeEdges ≡ codes "concorde-edges" }
    ensures concorde { form_word forms.ConcordeTour ≡ codes "concorde" }
    ensures table { form_word forms.Table ≡ codes "table" }
    ensures list { form_word forms.List ≡ codes "list" }
    ensures mark { form_mark forms.LkhRoutes ≡ codes "a line with (#" }
    ensures content { form_content forms.LkhRoutes ≡ codes "LKH-3's MTSP_SOLUTION_FILE; needs --of" }
    ensures rows { rows_of_form forms.RTour
        ≡ codes "r               begins with [1]\n                what R prints for as.integer(tour); nodes count from 1\n" }
{}

/// What instances say of their solutions: how many nodes there are, and the first depot of a CVRP.
pub fn examples_of_shapes()
    ensures tsp { instance_shape_by (Some Tsp) (Some 5) None ≡ Some (shape 5 None) }
    ensures atsp { instance_shape_by (Some Atsp) (Some 5) None ≡ Some (shape 5 None) }
    ensures depots { instance_shape_by (Some Cvrp) (Some 5) (Some (3 ∷ 4 ∷ [])) ≡ Some (shape 5 (Some 3)) }
    ensures unlisted { instance_shape_by (Some Cvrp) (Some 5) None ≡ Some (shape 5 (Some 1)) }
    ensures tour { instance_shape_by (Some Tour) (Some 5) None ≡ None }
{}

/// The texts of some faults.
pub fn examples_of_solution_faults()
    ensures no_form { form_fault_text form_faults.NoForm ≡ codes "NoForm" }
    ensures ambiguous { form_fault_text form_faults.Ambiguous ≡ codes "Ambiguous" }
    ensures sentence { form_fault_sentence form_faults.NotATour ≡ codes "The file has another TYPE than TOUR." }
    ensures memory { solution_fault_text solution_faults.OutOfMemory ≡ codes "out of memory" }
    ensures output { solution_run_fault_text (run_faults.Write write_faults.Device) ≡ codes "output: device" }
{}

/// The names of the other faults of forms, and where a fault is told. Digits are as `decimal`
/// writes them.
pub fn examples_of_fault_names()
    ensures no_instance { form_fault_text form_faults.NoInstance ≡ codes "NoInstance" }
    ensures not_a_tour { form_fault_text form_faults.NotATour ≡ codes "NotATour" }
    ensures not_an_instance { form_fault_text form_faults.NotAnInstance ≡ codes "NotAnInstance" }
    ensures not_a_node { form_fault_text form_faults.NotANode ≡ codes "NotANode" }
    ensures out_of_range { form_fault_text form_faults.OutOfRange ≡ codes "OutOfRange" }
    ensures too_many_nodes { form_fault_text form_faults.TooManyNodes ≡ codes "TooManyNodes" }
    ensures no_nodes { form_fault_text form_faults.NoNodes ≡ codes "NoNodes" }
    ensures unknown_line { form_fault_text form_faults.UnknownLine ≡ codes "UnknownLine" }
    ensures not_closed { form_fault_text form_faults.NotClosed ≡ codes "NotClosed" }
    ensures wrong_count { form_fault_text form_faults.WrongCount ≡ codes "WrongCount" }
    ensures not_two_edges { form_fault_text form_faults.NotTwoEdges ≡ codes "NotTwoEdges" }
    ensures several_cycles { form_fault_text form_faults.SeveralCycles ≡ codes "SeveralCycles" }
    ensures too_many_columns { form_fault_text form_faults.TooManyColumns ≡ codes "TooManyColumns" }
    ensures no_depot { form_fault_text form_faults.NoDepot ≡ codes "NoDepot" }
    ensures bad_json { form_fault_text form_faults.BadJson ≡ codes "BadJson" }
    ensures too_deep { form_fault_text form_faults.TooDeep ≡ codes "TooDeep" }
    ensures no_list { form_fault_text form_faults.NoList ≡ codes "NoList" }
    ensures several_lists { form_fault_text form_faults.SeveralLists ≡ codes "SeveralLists" }
    ensures place { solution_fault_text (solution_faults.Place 3 4 form_faults.NoNodes)
        ≡ codes "line " ++ decimal 3 ++ codes " word " ++ decimal 4 ++ codes ": " ++ codes "NoNodes" }
    ensures file { solution_fault_text (solution_faults.File reads.TooLong) ≡ codes "too long" }
    ensures instance { solution_run_fault_text (run_faults.File 2 solution_faults.OutOfMemory)
        ≡ codes "file " ++ decimal 2 ++ codes ": " ++ codes "out of memory" }
{}
