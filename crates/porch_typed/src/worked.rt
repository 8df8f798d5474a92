//! What the definitions say of small functions. The functions are laws, and have nothing to run.

ghost use Rattle.std.specs.Prelude.{◌≡◌};
ghost use Rattle.porch_typed.specs.Size.{program_nodes};
ghost use Rattle.porch_typed.specs.Typed.{IsFunction, IsMain};
ghost use Rattle.porch_typed.specs.Worked.{small_main, next_number, two_functions};

/// `int main(void){return 0;}` and `int next(int *p){return *p+1;}` are typed.
pub fn small_functions_are_typed()
    ensures main { IsMain small_main }
    ensures gives { IsFunction two_functions small_main }
    ensures adds { IsFunction two_functions next_number }
    ensures nodes { program_nodes two_functions ≡ 12 }
{}
