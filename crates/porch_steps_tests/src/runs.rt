//! Programs that are run to their ends.

ghost use Rattle.porch_steps.specs.Held.{Fits};

use porch_abstract::AStep;
use porch_flat::whole::Valid;
use porch_flat_text::parse_flat;
use porch_steps::Abstract;
use porch_values::{Act, Widths};
use std::alloc::{AllocError, Global};
use std::process::Abort;
use std::test::Fail;

/// More steps than any of these programs takes.
const MANY: u32 = 1000;

/// `int f(int n){if(n<1)return 0;return n+f(n-1);} int main(void){return f(3);}`
const SUM: &str = "/* porch flat text, version 1 */
#include \"porch.h\"
FUNCTION(0, f, 4, 1);
VAR(0, 4);
VAR(1, 4);
BEGIN();
LT(v1, v0, 1);
IF(v1, 0);
JUMP(1);
LABEL(0);
RETURN(0);
LABEL(1);
SUB(v1, v0, 1);
CALL(v1, 0, v1);
ADD(v1, v0, v1);
RETURN(v1);
END();
FUNCTION(1, main, 4, 0);
VAR(0, 4);
BEGIN();
CALL(v0, 0, 3);
RETURN(v0);
END();
";

/// Two ints are allocated, the second is set, read back, shown in two ways, and freed; then it is read.
const HEAP: &str = "/* porch flat text, version 1 */
#include \"porch.h\"
POINTER(8, 4);
FUNCTION(0, main, 4, 0);
VAR(0, 4);
VAR(1, 8);
VAR(2, 8);
BEGIN();
ALLOC(v1, 2);
STEP(v2, v1, 1);
STORE(v2, -37);
LOAD(v0, v2);
DEC(v0, v0);
CHAR(v0, 10);
FREE(v1);
LOAD(v0, v2);
RETURN(v0);
END();
";

fn program_of(alloc: Global, text: &str) -> Result<Valid, Fail> {
    let Ok(flat) = parse_flat(alloc, text.as_bytes()) else {
        return Err(Fail::from(AllocError));
    };
    match Valid::new(alloc, flat) {
        Ok(program) => Ok(program),
        Err(_) => Err(Fail::from(AllocError)),
    }
}

fn run(machine: &mut Abstract, program: &Valid) -> Result<Option<AStep>, AllocError>
    requires { Fits program.now machine.old }
{
    for _ in 0..MANY {
        match machine.step(program)? {
            AStep::Went => {}
            AStep::Ended { value } => return Ok(Some(AStep::Ended { value })),
            AStep::Act { act } => return Ok(Some(AStep::Act { act })),
        }
    }
    Ok(None)
}

fn wide_only() -> Widths {
    Widths {
        narrow: false,
        wide: true,
    }
}

#[test]
fn calls_return(rt: HostRuntime) -> Result<(), Fail> {
    let program = program_of(rt.alloc(), SUM)?;
    let mut machine = Abstract::new(rt.alloc(), &program, wide_only())?;
    assert!(rt; machine.turn_next(&program));
    let end = run(&mut machine, &program)?;
    assert!(rt; end == Some(AStep::Ended { value: 6 }));
    assert!(rt; machine.turns() == 5);
    Ok(())
}

#[test]
fn blocks_end(rt: HostRuntime) -> Result<(), Fail> {
    let program = program_of(rt.alloc(), HEAP)?;
    let mut machine = Abstract::new(rt.alloc(), &program, wide_only())?;
    let end = run(&mut machine, &program)?;
    assert!(rt;
        end == Some(AStep::Act {
            act: Act::Indeterminate
        })
    );
    assert!(rt; machine.output() == b"-37\n".as_slice());
    assert!(rt; machine.turns() == 1);
    Ok(())
}
