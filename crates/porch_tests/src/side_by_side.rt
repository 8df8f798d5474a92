//! What no clause says of the two machines: that they can be made and stepped with ample memory, and go side by side.

ghost use Rattle.std.specs.Prelude.{◌≡◌, None};
ghost use Rattle.porch_abstract.specs.Held.{Fits as FitsObjects, Continues};
ghost use Rattle.porch_abstract.specs.declared.phase.AStep.TheVariants.{Went};
ghost use Rattle.porch_machine.specs.Steps.{Fits as FitsBytes};
ghost use Rattle.porch_layout.specs.Layouts.{le64};

use porch_abstract::{AStep, Abstract};
use porch_flat::{Command, Flat, Function, Operand, Valid};
use porch_layout::{Layout, built_in};
use porch_lower::{lower, sources_are_lowerable};
use porch_machine::{Machine, Step};
use porch_syntax::parse;
use porch_types::Types;
use porch_values::{Act, Widths};
use sqlite_items::Items;
use std::alloc::{AllocError, Global};
use std::process::Abort;
use std::test::Fail;

/// Where two machines came to.
#[derive(Clone, Copy, Debug, PartialEq, Eq)]
enum Walk {
    Ended(i32),
    Met(Act),
    /// They didn't do the same.
    Apart,
    /// They are still at work.
    Long,
}

/// The layout of the byte machine, as `exec` has it.
fn layout_of_bytes() -> Layout
    ensures { result ≡ le64 }
{
    match built_in("le64") {
        Some(layout) => layout,
        None => unreachable!(),
    }
}

/// The flat program of a text, if it has one.
fn valid_of(alloc: Global, text: &[u8]) -> Option<Valid> {
    match parse(alloc, text) {
        Ok(Some(tree)) => {
            sources_are_lowerable();
            match lower(alloc, &tree) {
                Ok(plain) => Valid::new(alloc, plain.into_flat()).ok(),
                Err(_) => None,
            }
        }
        Ok(None) | Err(_) => None,
    }
}

/// What both steps together say of the walk. Nothing where it goes on.
fn compared(objects: AStep, bytes: Step) -> Option<Walk>
    ensures { result ≡ None → objects ≡ Went }
{
    match objects {
        AStep::Went => match bytes {
            Step::Went | Step::Out => None,
            _ => Some(Walk::Apart),
        },
        AStep::Ended { value } => match bytes {
            Step::Ended { value: other } if value == other => Some(Walk::Ended(value)),
            _ => Some(Walk::Apart),
        },
        AStep::Act { act } => match bytes {
            Step::Trap { act: other } if act == other => Some(Walk::Met(act)),
            _ => Some(Walk::Apart),
        },
    }
}

/// Steps both until they end or part, and compares turns and output behind each step.
fn walk_both(
    program: &Valid,
    objects: &mut Abstract,
    bytes: &mut Machine,
    shown: &mut Vec<u8>,
) -> Result<Walk, AllocError>
    requires objects { FitsObjects program.now objects.old }
    requires continues { Continues objects.old.state }
    requires bytes { FitsBytes program.now bytes.old }
{
    for _ in 0..10_000 {
        if objects.turn_next(program) != bytes.turn_next(program) {
            return Ok(Walk::Apart);
        }
        if objects.turns() > 1_000_000 || bytes.turns() > 1_000_000 {
            return Ok(Walk::Long);
        }
        let left = objects.step(program)?;
        let right = bytes.step(program);
        shown.extend_from_slice(bytes.shown())?;
        if let Some(walk) = compared(left, right) {
            return Ok(walk);
        }
        if objects.turns() != bytes.turns() || objects.output() != shown.as_slice() {
            return Ok(Walk::Apart);
        }
    }
    Ok(Walk::Long)
}

/// Where the two machines come to with a program, and what they show.
fn walked(alloc: Global, program: &Valid, shown: &mut Vec<u8>) -> Result<Walk, AllocError> {
    let widths = Widths {
        narrow: false,
        wide: true,
    };
    let mut objects = Abstract::new(alloc, program, widths)?;
    let mut bytes = Machine::prepare(alloc, program, &layout_of_bytes(), 4096, 16)?;
    walk_both(program, &mut objects, &mut bytes, shown)
}

/// Programs, what they show, and where they come to.
static PROGRAMS: [(&str, &[u8], Walk); 10] = [
    (
        "int main(void){putchar('A');return 0;}",
        b"A",
        Walk::Ended(0),
    ),
    ("int main(void){}", b"", Walk::Ended(0)),
    (
        "int main(void){return 0-2147483647-1;}",
        b"",
        Walk::Ended(-2147483648),
    ),
    (
        "int main(void){int i=0;while(i<3){putchar('0'+i);i=i+1;}return 0;}",
        b"012",
        Walk::Ended(0),
    ),
    (
        "int main(void){int n=0;int m;while(n<2){m=0;while(m<2){putchar('a'+n*2+m);m=m+1;}n=n+1;}return n;}",
        b"abcd",
        Walk::Ended(2),
    ),
    (
        "int main(void){int a=2;int b=3;while(b<a*a){b=b+1;putchar(b*20-7*(a<b)-4);}return b-a*b;}",
        b"E",
        Walk::Ended(-4),
    ),
    (
        "int main(void){int i=1;i=1+2*(i-(4-i)*(i+6))-(i<2)*(2<i);putchar(i+100);return i;}",
        b"=",
        Walk::Ended(-39),
    ),
    (
        "int main(void){putchar(1+2*(3+4*(5+6)));putchar(0-1);while(1){return 5;}return 6;}",
        b"_\xff",
        Walk::Ended(5),
    ),
    (
        "int main(void){int i=2147483647;putchar('x');i=i+1;return i;}",
        b"x",
        Walk::Met(Act::Overflow),
    ),
    (
        "int main(void){int i=0-46341;return i*i;}",
        b"",
        Walk::Met(Act::Overflow),
    ),
];

/// What a text shows on both machines, and where they come to. Nothing where it has no flat program.
fn walk_of(alloc: Global, text: &str, shown: &mut Vec<u8>) -> Result<Option<Walk>, AllocError> {
    match valid_of(alloc, text.as_bytes()) {
        Some(program) => Ok(Some(walked(alloc, &program, shown)?)),
        None => Ok(None),
    }
}

fn expect_walk(
    rt: &impl Abort,
    alloc: Global,
    text: &str,
    out: &[u8],
    end: Walk,
) -> Result<(), AllocError> {
    let mut shown = Vec::new(alloc);
    let came = walk_of(alloc, text, &mut shown)?;
    assert_eq!(rt; came, Some(end), "{text}");
    assert_eq!(rt; shown.as_slice(), out, "{text}");
    Ok(())
}

#[test]
fn machines_go_side_by_side(rt: HostRuntime) -> Result<(), Fail> {
    for (text, out, end) in &PROGRAMS {
        expect_walk(&rt, rt.alloc(), text, out, *end)?;
    }
    Ok(())
}

/// So many variables, all ints.
fn ints(alloc: Global, count: usize) -> Result<Items<u32>, AllocError> {
    let mut vars = Items::new(alloc);
    for _ in 0..count {
        vars.push(4)?;
    }
    Ok(vars)
}

/// `main` with these variables, which returns 7.
fn main_with(alloc: Global, vars: Items<u32>) -> Result<Function, AllocError> {
    let name = Items::from_slice(alloc, b"main")?;
    let commands = [Command::Return(Some(Operand::Constant(7)))];
    Ok(Function {
        name,
        result: Some(4),
        params: 0,
        vars,
        commands: Items::from_slice(alloc, &commands)?,
    })
}

/// A program of one function.
fn program_of(alloc: Global, main: Function) -> Result<Flat, AllocError> {
    let mut functions = Items::new(alloc);
    functions.push(main)?;
    Ok(Flat {
        types: Types::new(alloc)?,
        globals: Items::new(alloc),
        functions,
    })
}

/// What the first step of a program answers under a stack of so many bytes.
fn first_step(alloc: Global, program: &Valid, stack: u64) -> Result<Option<Step>, AllocError> {
    if stack < 4096 || stack > 16_777_216 {
        return Ok(None);
    }
    let mut machine = Machine::prepare(alloc, program, &layout_of_bytes(), stack, 16)?;
    Ok(Some(machine.step(program)))
}

/// What the call of `main` with so many variables answers under a stack of so many bytes.
fn called(alloc: Global, count: usize, stack: u64) -> Result<Option<Step>, AllocError> {
    let main = main_with(alloc, ints(alloc, count)?)?;
    let flat = program_of(alloc, main)?;
    match Valid::new(alloc, flat) {
        Ok(program) => first_step(alloc, &program, stack),
        Err(_) => Ok(None),
    }
}

// 512 ints take 4092 bytes and one more, which is rounded up to 4096.
static FRAMES: [(usize, u64, Step); 4] = [
    (512, 4096, Step::Went),
    (
        513,
        4096,
        Step::StackFull {
            asked: 4112,
            left: 4096,
        },
    ),
    (
        513,
        4111,
        Step::StackFull {
            asked: 4112,
            left: 4111,
        },
    ),
    (513, 4112, Step::Went),
];

#[test]
fn a_frame_may_not_fit(rt: HostRuntime) -> Result<(), Fail> {
    for (count, stack, answer) in &FRAMES {
        let got = called(rt.alloc(), *count, *stack)?;
        assert_eq!(rt; got, Some(*answer), "{count} ints in {stack} bytes");
    }
    Ok(())
}
