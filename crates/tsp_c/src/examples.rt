//! Laws that state values of the definitions in `specs/`, worked out by hand: which numbers the
//! calls for C take and return (verdicts, reasons, faults, fields), which buffers are too small,
//! and which file of a call a fault is of. No code calls them. If someone makes the same mistake in
//! a definition and in the code, every contract still holds, but one of these laws fails.

ghost use Rattle.tsp_c.specs.Prelude.{ℕ, ℤ, pos, List, [], Err, true, false, negsuc, None, Some, codes, map, Point, cost, Fields, nodes_of, CertificateKind, IsNotJudged, IsUnbound, IsUnopened, Open, status_of_fault, RunFault, Ok};
ghost use Rattle.std.specs.Prelude.{◌∷◌, ◌≡◌, ◌++◌, ◌+◌, ◌-◌, ◌^◌};
ghost use Rattle.tsp_number.specs.declared.number_word.NumberFault.TheVariants as number_faults;
ghost use Rattle.tsp_format.specs.Words.{layouts};
ghost use Rattle.tsp_format.specs.declared.keyword.Field.TheVariants as fields;
ghost use Rattle.tsp_format.specs.declared.kinds.Kind.TheVariants as kinds;
ghost use Rattle.tsp_format.specs.declared.kinds.WeightKind.TheVariants as weight_kinds;
ghost use Rattle.tsp_format.specs.declared.layout.Layout.TheVariants as layout;
ghost use Rattle.tsp_io.specs.declared.piece.WriteFault.TheVariants as write_faults;
ghost use Rattle.tsp_file.specs.declared.rules.EndFault.TheVariants as end_faults;
ghost use Rattle.tsp_text.specs.declared.fault.LineFault.TheVariants as line_faults;
ghost use Rattle.tsp_text.specs.declared.fault.ReadFault.{ReadFault};
ghost use Rattle.tsp_text.specs.declared.fault.ReadFault.TheVariants as read_faults;
ghost use Rattle.tsp_read.specs.Reads.{Reads};
ghost use Rattle.tsp_report.specs.declared.task.CertificateKind.TheVariants as certificate;
ghost use Rattle.tsp_report.specs.declared.verdict.Reason.TheVariants as reasons;
ghost use Rattle.tsp_report.specs.declared.verdict.Verdict.TheVariants as verdicts;
ghost use Rattle.tsp_judge.specs.declared.run_status.RunFault.TheVariants as run_faults;
ghost use Rattle.tsp_solution.specs.Forms.{all_forms};
ghost use Rattle.tsp_solution.specs.declared.fault.FormFault.TheVariants as form_faults;
ghost use Rattle.tsp_solution.specs.declared.fault.SolutionFault.TheVariants as solution_faults;
ghost use Rattle.tsp_solution.specs.declared.form.Form.TheVariants as forms;
ghost use Rattle.tsp_solution.specs.declared.hints.Numbering.TheVariants as numbering;
ghost use Rattle.tsp_solution.specs.declared.solution_writer.SolutionRunFault.TheVariants as solution_ends;
ghost use Rattle.tsp_c.specs.CallResult.{blank_result, high_half, low_half, result_of_bound, result_of_fault, result_of_verdict, field_number, first_number, kind_number, line_fault_number, number_fault_number, read_fault_number, second_number, field_of_fault, number_of_fault, result_of_instance};
ghost use Rattle.tsp_c.specs.NumberCalls.{IsPlaced, fault_line, nth, without_devices, EndsBuffer, distance_kinds, lists_in, pair_cost, row_cost, row_count, EndsPoints, coordinate, section_points};
ghost use Rattle.tsp_c.specs.Opened.{EndsSection};
ghost use Rattle.tsp_c.specs.SolutionCall.{depot_by, known_instance, numberings, solving_line, status_of_solving};
ghost use Rattle.tsp_c.specs.Texts.{IsExplained, bounds_asked, certificates, claim_of, strict_of};
ghost use Rattle.tsp_c.specs.declared.call_result.CallResult.{CallResult};

/// The calls that are explained, and the other numbers that each takes.
pub fn examples_of_explained_calls()
    ensures show { IsExplained 0 0 0 }
    ensures convert { IsExplained 1 9 0 }
    ensures no_layout { ¬ IsExplained 1 10 0 }
    ensures check { IsExplained 2 2 1 }
    ensures no_certificate { ¬ IsExplained 2 3 0 }
    ensures strict { IsExplained 2 0 2 }
    ensures strict_claim { IsExplained 2 0 3 }
    ensures no_claim { ¬ IsExplained 2 0 4 }
    ensures bound { IsExplained 3 2 0 }
    ensures no_bound_alone { ¬ IsExplained 3 0 0 }
    ensures strict_bound { IsExplained 3 4 0 }
    ensures no_bound { ¬ IsExplained 3 5 0 }
    ensures no_call { ¬ IsExplained 4 1 0 }
{}

/// What the numbers say of a solution, and how faults of solutions end a call.
pub fn examples_of_solution_numbers()
    ensures first_form { nth 1 all_forms ≡ Some forms.Tour }
    ensures last_form { nth 10 all_forms ≡ Some forms.List }
    ensures no_form { nth 0 all_forms ≡ None }
    ensures from_zero { nth 1 numberings ≡ Some numbering.FromZero }
    ensures from_one { nth 2 numberings ≡ Some numbering.FromOne }
    ensures depot { depot_by 7 ≡ Some 7 }
    ensures no_depot { depot_by 0 ≡ None }
    ensures no_instance { known_instance [] ≡ None }
    ensures fault { status_of_solving (solution_ends.File 1 (solution_faults.Place 1 2 form_faults.NotANode)) ≡ 2 }
    ensures memory { status_of_solving (solution_ends.File 2 solution_faults.OutOfMemory) ≡ 3 }
    ensures line { solving_line (solution_ends.Write write_faults.OutOfMemory) ≡ codes "output: out of memory\n" }
{}

/// A buffer with one place for two numbers, and sections that files don't have.
pub fn examples_of_refused_places()
    ensures too_small { (number : ℕ → ℤ) → EndsBuffer (Unit {0}) 2 2 number (pos 7 ∷ []) (pos 7 ∷ []) 6 }
    ensures not_asked { (number : ℕ → ℤ) → EndsBuffer ⊥ 2 2 number (pos 7 ∷ []) (pos 7 ∷ []) 4 }
    ensures no_other_status { (number : ℕ → ℤ) → ¬ EndsBuffer (Unit {0}) 2 2 number (pos 7 ∷ []) (pos 7 ∷ []) 0 }
    ensures section { (instance : Fields) → EndsSection instance 3 (pos 7 ∷ []) (pos 7 ∷ []) 4 }
    ensures no_section { (instance : Fields) → EndsSection instance 0 (pos 7 ∷ []) (pos 7 ∷ []) 4 }
{}

/// The text that is opened is file 1 of its call; a text that is bound or judged is file 2.
pub fn examples_of_faulty_files()
    ensures opened { (text : List ℕ) (fault : ReadFault) → Reads text (Err fault)
        → IsUnopened text (run_faults.File 1 fault) }
    ensures not_opened { (text : List ℕ) (fault : ReadFault) → ¬ IsUnopened text (run_faults.File 2 fault) }
    ensures bound { (by : CertificateKind) (text : List ℕ) (instance : Open) (fault : ReadFault)
        → Reads text (Err fault) → IsUnbound by text instance (run_faults.File 2 fault) }
    ensures not_bound { (by : CertificateKind) (text : List ℕ) (instance : Open) (fault : ReadFault)
        → ¬ IsUnbound by text instance (run_faults.File 3 fault) }
    ensures judged { (text : List ℕ) (instance : Open) (fault : ReadFault) → Reads text (Err fault)
        → IsNotJudged text instance (run_faults.File 2 fault) }
    ensures not_judged { (text : List ℕ) (instance : Open) (fault : ReadFault)
        → ¬ IsNotJudged text instance (run_faults.File 1 fault) }
{}

/// What a number picks, counted from 1: 0 and a number past the last pick nothing.
pub fn examples_of_picked_numbers()
    ensures no_certificate { nth 0 certificates ≡ None }
    ensures potentials { nth 1 certificates ≡ Some certificate.Potentials }
    ensures branches { nth 2 certificates ≡ Some certificate.Branches }
    ensures third { nth 3 certificates ≡ None }
    ensures bound { nth 1 bounds_asked ≡ Some (certificate.Potentials, false) }
    ensures bound_by_branches { nth 2 bounds_asked ≡ Some (certificate.Branches, false) }
    ensures strict_bound { nth 3 bounds_asked ≡ Some (certificate.Potentials, true) }
    ensures strict_bound_by_branches { nth 4 bounds_asked ≡ Some (certificate.Branches, true) }
    ensures no_bound { nth 5 bounds_asked ≡ None }
    ensures own_layout { nth 0 layouts ≡ None }
    ensures first_layout { nth 1 layouts ≡ Some layout.FullMatrix }
    ensures last_layout { nth 9 layouts ≡ Some layout.LowerDiagCol }
    ensures euc_2d { nth 1 distance_kinds ≡ Some weight_kinds.Euc2d }
    ensures ceil_2d { nth 2 distance_kinds ≡ Some weight_kinds.Ceil2d }
    ensures att { nth 5 distance_kinds ≡ Some weight_kinds.Att }
    ensures max_3d { nth 8 distance_kinds ≡ Some weight_kinds.Max3d }
    ensures ninth { nth 9 distance_kinds ≡ None }
    ensures unclaimed { (claimed : ℤ) → claim_of 0 claimed ≡ None }
    ensures claimed { (claimed : ℤ) → claim_of 1 claimed ≡ Some claimed }
    ensures strict_alone { (claimed : ℤ) → claim_of 2 claimed ≡ None }
    ensures claimed_too { (claimed : ℤ) → claim_of 3 claimed ≡ Some claimed }
    ensures not_strict { strict_of 1 ≡ false }
    ensures strict { strict_of 2 ≡ true }
    ensures strict_too { strict_of 3 ≡ true }
{}

/// Which cost, list or row a place is for.
pub fn examples_of_filled_places()
    ensures lists { lists_in (1 ∷ 2 ∷ 0 ∷ 3 ∷ 0 ∷ []) ≡ (1 ∷ 2 ∷ []) ∷ (3 ∷ []) ∷ [] }
    ensures rows { row_count 7 3 2 ≡ 2 }
    ensures last_row { row_count 7 3 3 ≡ 1 }
    ensures pair { (instance : Fields) → pair_cost (1 ∷ 2 ∷ 3 ∷ 1 ∷ []) instance 1 ≡ cost instance 3 1 }
    ensures row { (instance : Fields) → nodes_of instance ≡ 3 → row_cost 2 instance 4 ≡ cost instance 3 2 }
{}

/// A text in a buffer.
pub fn examples_of_placed_texts()
    ensures fits { IsPlaced (codes "no") 1 (codes "1234") (codes "no34") 2 1 }
    ensures too_small { IsPlaced (codes "no") 1 (codes "1") (codes "1") 2 6 }
    ensures cut { ¬ IsPlaced (codes "no") 1 (codes "1") (codes "n") 2 6 }
{}

/// The line of a fault, which the byte 10 ends, and the faults that texts in memory don't have.
pub fn examples_of_fault_lines()
    ensures line { fault_line run_faults.OutOfMemory ≡ codes "out of memory" ++ 10 ∷ [] }
    ensures read { without_devices (run_faults.File 2 read_faults.Device)
        ≡ run_faults.File 2 read_faults.OutOfMemory }
    ensures write { without_devices (run_faults.Write write_faults.Device)
        ≡ run_faults.Write write_faults.OutOfMemory }
    ensures kept { without_devices (run_faults.File 2 read_faults.TooLong)
        ≡ run_faults.File 2 read_faults.TooLong }
{}

/// The halves of a bound.
pub fn examples_of_halves()
    ensures one_high { high_half (pos 1) ≡ pos 0 }
    ensures one_low { low_half (pos 1) ≡ 1 }
    ensures below_high { high_half (negsuc 0) ≡ negsuc 0 }
    ensures below_low { low_half (negsuc 0) ≡ 2 ^ 64 - 1 }
    ensures large_high { high_half (pos (2 ^ 64 + 5)) ≡ pos 1 }
    ensures large_low { low_half (pos (2 ^ 64 + 5)) ≡ 5 }
{}

/// A verdict in numbers, whatever the instance is.
pub fn examples_of_verdicts_in_numbers()
    ensures tour { (instance : Fields) → let call_result : CallResult = result_of_verdict instance (verdicts.Tour (pos 12) None) in
        (call_result.verdict ≡ 1) × (call_result.length ≡ pos 12) × (call_result.has_bound ≡ 0) × (call_result.fault ≡ 0) }
    ensures bounded { (instance : Fields) → let call_result : CallResult = result_of_verdict instance (verdicts.Tour (pos 12) (Some (pos 10))) in
        (call_result.verdict ≡ 1) × (call_result.length ≡ pos 12) × (call_result.has_bound ≡ 1) × (call_result.bound_high ≡ pos 0) × (call_result.bound_low ≡ 10) }
    ensures routes { (instance : Fields) → let call_result : CallResult = result_of_verdict instance (verdicts.Routes (pos 12) 3 2 None) in
        (call_result.verdict ≡ 2) × (call_result.length ≡ pos 12) × (call_result.routes ≡ 3) × (call_result.least ≡ 2) × (call_result.has_bound ≡ 0) }
    ensures bounded_routes { (instance : Fields)
        → let call_result : CallResult = result_of_verdict instance (verdicts.Routes (pos 12) 3 2 (Some (pos 10))) in
        (call_result.verdict ≡ 2) × (call_result.routes ≡ 3) × (call_result.has_bound ≡ 1) × (call_result.bound_high ≡ pos 0) × (call_result.bound_low ≡ 10) }
    ensures rejected { (instance : Fields) → let call_result : CallResult = result_of_verdict instance (verdicts.No (reasons.NotSymmetric 1 2)) in
        (call_result.verdict ≡ 3) × (call_result.reason ≡ 3) × (call_result.first ≡ pos 1) × (call_result.second ≡ pos 2) × (call_result.length ≡ pos 0) }
    ensures bound { (instance : Fields) → let call_result : CallResult = result_of_bound instance (Ok (Some (pos 10))) in
        (call_result.verdict ≡ 4) × (call_result.has_bound ≡ 1) × (call_result.bound_low ≡ 10) }
    ensures no_tour { (instance : Fields) → let call_result : CallResult = result_of_bound instance (Ok None) in
        (call_result.verdict ≡ 5) × (call_result.has_bound ≡ 0) }
{}

/// A fault in numbers.
pub fn examples_of_faults_in_numbers()
    ensures line { let call_result : CallResult = result_of_fault (run_faults.File 2 (read_faults.Line 3 4
        (line_faults.Number number_faults.OutOfRange))) in
        (call_result.fault ≡ 10) × (call_result.file ≡ 2) × (call_result.line ≡ 3) × (call_result.word ≡ 4) × (call_result.number ≡ 4) × (call_result.verdict ≡ 0) }
    ensures end { let call_result : CallResult = result_of_fault (run_faults.File 1 (read_faults.End (end_faults.Missing fields.TypeKey))) in
        (call_result.fault ≡ 16) × (call_result.file ≡ 1) × (call_result.line ≡ 0) × (call_result.field ≡ 2) }
    ensures too_long { let call_result : CallResult = result_of_fault (run_faults.File 3 read_faults.TooLong) in
        (call_result.fault ≡ 20) × (call_result.file ≡ 3) }
    ensures wrong_kind { let call_result : CallResult = result_of_fault run_faults.WrongKind in (call_result.fault ≡ 21) × (call_result.file ≡ 1) }
    ensures memory { result_of_fault run_faults.OutOfMemory ≡ blank_result }
{}

/// The TYPE and the nodes of an instance.
pub fn examples_of_instances_in_numbers()
    ensures tsp { kind_number (Some kinds.Tsp) ≡ 1 }
    ensures atsp { kind_number (Some kinds.Atsp) ≡ 2 }
    ensures cvrp { kind_number (Some kinds.Cvrp) ≡ 3 }
    ensures kind { (instance : Fields) → let call_result : CallResult = result_of_instance instance in call_result.kind ≡ kind_number instance.kind }
    ensures nodes { (instance : Fields) → let call_result : CallResult = result_of_instance instance in call_result.nodes ≡ nodes_of instance }
    ensures of_a_tour { (instance : Fields) → let call_result : CallResult = result_of_verdict instance (verdicts.Tour (pos 12) None) in
        (call_result.kind ≡ kind_number instance.kind) × (call_result.nodes ≡ nodes_of instance) }
{}

/// The distances by their numbers.
pub fn examples_of_distance_numbers()
    ensures man_2d { nth 3 distance_kinds ≡ Some weight_kinds.Man2d }
    ensures max_2d { nth 4 distance_kinds ≡ Some weight_kinds.Max2d }
    ensures euc_3d { nth 6 distance_kinds ≡ Some weight_kinds.Euc3d }
    ensures man_3d { nth 7 distance_kinds ≡ Some weight_kinds.Man3d }
{}

/// The points of a section. If the file lacks the section, the call isn't refused.
pub fn examples_of_sections()
    ensures coords { (file : Fields) → section_points 1 file ≡ file.coords }
    ensures display { (file : Fields) → section_points 2 file ≡ file.display }
    ensures other { (file : Fields) → section_points 3 file ≡ None }
    ensures x { let point : Point = record { x = pos 1; y = pos 2; z = pos 3 } in coordinate 0 point ≡ pos 1 }
    ensures y { let point : Point = record { x = pos 1; y = pos 2; z = pos 3 } in coordinate 1 point ≡ pos 2 }
    ensures z { let point : Point = record { x = pos 1; y = pos 2; z = pos 3 } in coordinate 2 point ≡ pos 3 }
    ensures missing { EndsPoints None (pos 7 ∷ []) (pos 7 ∷ []) 1 }
{}

/// A reason, its numbers, and its field. A claimed length may be negative.
pub fn examples_of_reason_numbers()
    ensures one { first_number (reasons.Unserved 6) ≡ pos 6 }
    ensures none { first_number reasons.TourCount ≡ pos 0 }
    ensures claimed { first_number (reasons.LengthClaimed (negsuc 4)) ≡ negsuc 4 }
    ensures second { second_number (reasons.Unserved 6) ≡ pos 0 }
    ensures call_result { (instance : Fields) → let call_result : CallResult = result_of_verdict instance (verdicts.No (reasons.DualInfeasible 7 8)) in
        (call_result.reason ≡ 22) × (call_result.first ≡ pos 7) × (call_result.second ≡ pos 8) }
    ensures field { (instance : Fields) → let call_result : CallResult = result_of_verdict instance (verdicts.No (reasons.NotUsed fields.CapacityKey)) in
        (call_result.reason ≡ 34) × (call_result.field ≡ 6) × (call_result.first ≡ pos 0) }
    ensures no_field { (instance : Fields) → let call_result : CallResult = result_of_verdict instance (verdicts.No reasons.NotJudged) in
        call_result.field ≡ 0 }
{}

/// The faults of a line, of the end of a text, and of a number.
pub fn examples_of_fault_numbers()
    ensures lines { map line_fault_number (line_faults.LongLine ∷ line_faults.UnknownLine ∷ line_faults.Repeated
        ∷ line_faults.Outside ∷ line_faults.BadValue ∷ line_faults.SectionValue ∷ line_faults.SectionEarly
        ∷ line_faults.TooManyNodes ∷ line_faults.StrayNumber ∷ line_faults.Number number_faults.LongWord
        ∷ line_faults.RepeatedNode ∷ line_faults.SelfEdge ∷ line_faults.Surplus ∷ line_faults.AfterEnd
        ∷ line_faults.LateSpace ∷ []) ≡ 1 ∷ 2 ∷ 3 ∷ 4 ∷ 5 ∷ 6 ∷ 7 ∷ 8 ∷ 9 ∷ 10 ∷ 11 ∷ 12 ∷ 13 ∷ 14 ∷ 15 ∷ [] }
    ensures ends { map read_fault_number (read_faults.End (end_faults.Missing fields.NameKey)
        ∷ read_faults.End (end_faults.Incomplete fields.NameKey) ∷ read_faults.End end_faults.WrongFormat
        ∷ read_faults.End end_faults.WrongCount ∷ read_faults.TooLong ∷ []) ≡ 16 ∷ 17 ∷ 18 ∷ 19 ∷ 20 ∷ [] }
    ensures numbers { map number_fault_number (number_faults.LongWord ∷ number_faults.BadNumber ∷ number_faults.TooFine
        ∷ number_faults.OutOfRange ∷ number_faults.NotWhole ∷ []) ≡ 1 ∷ 2 ∷ 3 ∷ 4 ∷ 5 ∷ [] }
    ensures of_a_line { number_of_fault (line_faults.Number number_faults.NotWhole) ≡ 5 }
    ensures of_no_number { number_of_fault line_faults.Surplus ≡ 0 }
{}

/// The keywords and sections, and the one that has too few places.
pub fn examples_of_field_numbers()
    ensures keywords { map field_number (fields.NameKey ∷ fields.TypeKey ∷ fields.CommentKey ∷ fields.OtherKey
        ∷ fields.DimensionKey ∷ fields.CapacityKey ∷ fields.ScaleKey ∷ fields.EdgeWeightTypeKey ∷ fields.EdgeWeightFormatKey
        ∷ fields.NodeCoordTypeKey ∷ fields.DisplayDataTypeKey ∷ [])
        ≡ 1 ∷ 2 ∷ 3 ∷ 4 ∷ 5 ∷ 6 ∷ 7 ∷ 8 ∷ 9 ∷ 10 ∷ 11 ∷ [] }
    ensures sections { map field_number (fields.NodeCoordPart ∷ fields.DisplayDataPart ∷ fields.DemandPart ∷ fields.DepotPart
        ∷ fields.FixedEdgesPart ∷ fields.EdgeWeightPart ∷ fields.TourPart ∷ fields.NodePotentialPart ∷ fields.RowPotentialPart
        ∷ fields.ColumnPotentialPart ∷ fields.FixedEdgePotentialPart ∷ fields.FamilyPart ∷ fields.BranchPart ∷ [])
        ≡ 12 ∷ 13 ∷ 14 ∷ 15 ∷ 16 ∷ 17 ∷ 18 ∷ 19 ∷ 20 ∷ 21 ∷ 22 ∷ 23 ∷ 24 ∷ [] }
    ensures later { map field_number (fields.LoadUnitKey ∷ fields.MemoryPart ∷ fields.SubsetRowPart ∷ [])
        ≡ 25 ∷ 26 ∷ 27 ∷ [] }
    ensures missing { field_of_fault (read_faults.End (end_faults.Missing fields.TypeKey)) ≡ 2 }
    ensures incomplete { let call_result : CallResult = result_of_fault (run_faults.File 2
        (read_faults.End (end_faults.Incomplete fields.NodeCoordPart))) in
        (call_result.fault ≡ 17) × (call_result.file ≡ 2) × (call_result.field ≡ 12) }
{}

/// If memory runs out, a call has no numbers.
pub fn no_numbers_without_memory()
    ensures { (fault : RunFault) → status_of_fault fault ≡ 3 → result_of_fault fault ≡ blank_result }
{}
