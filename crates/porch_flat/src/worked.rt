//! What the rules say of some small programs. The functions are laws, and have nothing to run.

ghost use Rattle.std.specs.Prelude.{◌≡◌, true, [], drop, map, Some};
ghost use Rattle.std.specs.List.{list_all};
ghost use Rattle.porch_flat.specs.declared.whole.Command.TheVariants.{Checkpoint};
ghost use Rattle.porch_flat.specs.declared.whole.FlatRule.TheVariants.{Main, Modes};
ghost use Rattle.porch_flat.specs.declared.whole.Sort.TheVariants.{Plain, Rewritten};
ghost use Rattle.porch_flat.specs.whole.Lines.{command_line, line_at, line_behind, line_of_command};
ghost use Rattle.porch_flat.specs.whole.Flats.{fits_words, is_built, is_function_name, is_said};
ghost use Rattle.porch_flat.specs.whole.Rules.{Breaks};
ghost use Rattle.porch_flat.specs.whole.Search.{first_fault};
ghost use Rattle.porch_flat.specs.whole.Worked.{saving_main, saving_program, empty_program, keeps_all, program_with_line, command_rows, fault_in_first, name_rows, program_with, rows};

/// A program that saves and rebuilds its frame keeps each rule, in a text of 15 lines.
#[tactic(auto, unfolding(crate::specs::whole::Rewritten::reaches_within))]
pub fn a_saving_program_is_valid()
    ensures rules { keeps_all Rewritten saving_program ≡ true }
    ensures lines { line_behind saving_program ≡ 16 }
    ensures checkpoint { line_of_command saving_program 0 3 ≡ 9 }
    ensures here { line_at saving_program 9 ≡ Some (command_line saving_main 3 Checkpoint) }
{}

/// Where none is asked for that saves, it breaks Modes at the line of its function.
pub fn a_saving_program_is_not_plain()
    ensures { Breaks Plain saving_program 3 Modes }
{}

/// A program without a function breaks Main behind the two head lines.
pub fn an_empty_program_has_no_main()
    ensures { Breaks Plain empty_program 3 Main }
{}

/// Commands of each form, and the rule that each breaks.
pub fn commands_break_rules()
    ensures { map (λ row. first_fault Plain (program_with_line row.0)) command_rows
        ≡ map fault_in_first command_rows }
{}

/// Three programs a rule.
#[tactic(auto, unfolding(crate::specs::whole::Rewritten::reaches_within))]
pub fn programs_break_rules()
    ensures { map (λ row. first_fault row.sort row.program) rows ≡ map (λ row. row.fault) rows }
{}

/// Which names a function may have.
pub fn functions_have_names_of_c()
    ensures { map (λ row. is_function_name row.0) name_rows ≡ map (λ row. row.1) name_rows }
{}

/// A program can be written down, in numbers of 32 bits and constants of 128.
pub fn a_program_can_be_written()
    ensures words { fits_words (program_with []) ≡ true }
    ensures types { list_all is_built (drop 8 (program_with []).types) ≡ true }
    ensures values { list_all (λ g. list_all is_said g.inits) (program_with []).globals ≡ true }
{}
