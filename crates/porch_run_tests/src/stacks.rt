//! Frames that fill the stack to its last byte.

use crate::ends::{End, machine_of, run_out};
use porch_layout::built_in;
use std::alloc::Global;
use std::process::Abort;
use std::test::Fail;

/// A function without end, whose frame has 16 bytes, as that of `main` does.
const WITHOUT_END: &str =
    "FUNCTION(0, f, 4, 1); VAR(0, 4); VAR(1, 4); BEGIN(); ADD(v1, v0, 1); CALL(v1, 0, v1);
RETURN(v1); END(); FUNCTION(1, main, 4, 0); VAR(0, 4); BEGIN(); CALL(v0, 0, 0); RETURN(v0); END();";

/// A stack, and how the run ends: by a frame of so many bytes where so many are left, after so many turns.
struct Filled {
    stack: u64,
    asked: u64,
    left: u64,
    turns: u64,
}

/// Each frame takes 16 bytes and counts a turn.
static FILLED: [Filled; 6] = [
    Filled {
        stack: 4096,
        asked: 16,
        left: 0,
        turns: 256,
    },
    Filled {
        stack: 4097,
        asked: 16,
        left: 1,
        turns: 256,
    },
    Filled {
        stack: 4111,
        asked: 16,
        left: 15,
        turns: 256,
    },
    Filled {
        stack: 4112,
        asked: 16,
        left: 0,
        turns: 257,
    },
    Filled {
        stack: 65536,
        asked: 16,
        left: 0,
        turns: 4096,
    },
    Filled {
        stack: 65551,
        asked: 16,
        left: 15,
        turns: 4096,
    },
];

fn try_stack(rt: &impl Abort, alloc: Global, name: &str, filled: &Filled) -> Result<(), Fail> {
    let layout = built_in(name);
    assert!(rt; layout.is_some());
    if let Some(layout) = layout {
        let made = machine_of(alloc, "", WITHOUT_END, &layout, filled.stack, 16)?;
        assert!(rt; made.is_some());
        if let Some(mut machine) = made {
            let mut output = Vec::new(alloc);
            let end = End::StackFull {
                asked: filled.asked,
                left: filled.left,
            };
            assert_eq!(rt; machine.turns(), 0);
            assert_eq!(rt; run_out(&mut machine, &mut output)?, Some(end));
            assert_eq!(rt; machine.turns(), filled.turns);
            // It stays so.
            assert_eq!(rt; run_out(&mut machine, &mut output)?, Some(end));
            assert_eq!(rt; machine.turns(), filled.turns);
        }
    }
    Ok(())
}

#[test]
fn frames_fill_the_stack_to_its_last_byte(rt: HostRuntime) -> Result<(), Fail> {
    for filled in &FILLED {
        try_stack(&rt, rt.alloc(), "le32", filled)?;
        try_stack(&rt, rt.alloc(), "be64", filled)?;
        try_stack(&rt, rt.alloc(), "le32l", filled)?;
    }
    Ok(())
}
