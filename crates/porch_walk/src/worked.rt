//! What the walk says of some small texts. The functions are laws, and have nothing to run.

ghost use Rattle.std.specs.Prelude.{◌≡◌, None};
ghost use Rattle.porch_tree.specs.Grammar.{syntax_fault, outside};
ghost use Rattle.porch_walk.specs.Walk.{start, wrong, wrong_at};
ghost use Rattle.porch_walk.specs.Worked.{smallest, whole_types, whole_data, whole_statements, whole_parameters, cut_short, two_names, typedef_list, empty_struct, cast_assigned, choice_assigned, size_suffixed, late_declaration, long_long, typedef_name_later, float_first, struct_inside, static_inside, double_behind};

/// Nothing is wrong in these.
pub fn these_are_taken()
    ensures smallest { wrong 0 start smallest ≡ None }
    ensures whole_types { wrong 0 start whole_types ≡ None }
    ensures whole_data { wrong 0 start whole_data ≡ None }
    ensures whole_statements { wrong 0 start whole_statements ≡ None }
    ensures whole_parameters { wrong 0 start whole_parameters ≡ None }
{}

/// These stop at a token, or at their end.
pub fn these_stop()
    ensures cut_short { wrong 0 start cut_short ≡ wrong_at 8 syntax_fault }
    ensures two_names { wrong 0 start two_names ≡ wrong_at 2 syntax_fault }
    ensures typedef_list { wrong 0 start typedef_list ≡ wrong_at 3 syntax_fault }
    ensures empty_struct { wrong 0 start empty_struct ≡ wrong_at 3 syntax_fault }
    ensures cast_assigned { wrong 0 start cast_assigned ≡ wrong_at 10 syntax_fault }
    ensures choice_assigned { wrong 0 start choice_assigned ≡ wrong_at 11 syntax_fault }
    ensures size_suffixed { wrong 0 start size_suffixed ≡ wrong_at 10 syntax_fault }
    ensures late_declaration { wrong 0 start late_declaration ≡ wrong_at 8 syntax_fault }
    ensures long_long { wrong 0 start long_long ≡ wrong_at 1 syntax_fault }
    ensures typedef_name_later { wrong 0 start typedef_name_later ≡ wrong_at 13 syntax_fault }
{}

/// These have a token outside the language.
pub fn these_are_outside()
    ensures float_first { wrong 0 start float_first ≡ wrong_at 0 outside }
    ensures struct_inside { wrong 0 start struct_inside ≡ wrong_at 6 outside }
    ensures static_inside { wrong 0 start static_inside ≡ wrong_at 8 outside }
    ensures double_behind { wrong 0 start double_behind ≡ wrong_at 8 outside }
{}
