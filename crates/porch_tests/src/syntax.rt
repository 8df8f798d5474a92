//! What no clause says of the parser: that it succeeds on programs with ample memory, worked texts that aren't programs, and its limits.

use porch_syntax::parse;
use std::alloc::{AllocError, Global};
use std::process::Abort;

/// What a text is answered with.
#[derive(Clone, Copy, Debug, PartialEq, Eq)]
enum Answer {
    Tree,
    NoTree,
    NoMemory,
}

fn answer_to(alloc: Global, text: &[u8]) -> Answer {
    match parse(alloc, text) {
        Ok(Some(_)) => Answer::Tree,
        Ok(None) => Answer::NoTree,
        Err(_) => Answer::NoMemory,
    }
}

fn append(text: &mut Vec<u8>, part: &str, times: usize) -> Result<(), AllocError> {
    for _ in 0..times {
        text.extend_from_slice(part.as_bytes())?;
    }
    Ok(())
}

fn append_program(text: &mut Vec<u8>, parentheses: usize, spaces: usize) -> Result<(), AllocError> {
    append(text, "int main(void){return ", 1)?;
    append(text, "(", parentheses)?;
    append(text, "1", 1)?;
    append(text, ")", parentheses)?;
    append(text, ";}", 1)?;
    append(text, " ", spaces)
}

/// A program that returns 1 in so many parentheses, and so many spaces behind it.
fn padded(alloc: Global, parentheses: usize, spaces: usize) -> Result<Vec<u8>, AllocError> {
    let mut text = Vec::new(alloc);
    append_program(&mut text, parentheses, spaces)?;
    Ok(text)
}

fn expect_answers(rt: &impl Abort, alloc: Global, texts: &[&str], want: Answer) {
    for text in texts {
        assert_eq!(rt; answer_to(alloc, text.as_bytes()), want, "{text}");
    }
}

static PROGRAMS: [&str; 8] = [
    "int main(void){}",
    " int\tmain\n(\rvoid ) { return 0 ; } ",
    "int main(void){putchar('H');putchar(10);return 0;}",
    "int main(void){int i;return i;}",
    "int main(void){int i=2147483647;i=i+1;return i;}",
    "int main(void){int i=0;int j=i;while(i<3){j=j*(i-1)+'~';while(0){}i=i+1;}return j;}",
    "int main(void){int intx=1;int _9=intx;int mainx=intx*_9*2-1-1;return mainx<2;}",
    "int main(void){int x=x;return((x)<(1<2));}",
];

#[test]
fn accepts_programs(rt: HostRuntime) {
    expect_answers(&rt, rt.alloc(), &PROGRAMS, Answer::Tree);
}

static OTHER_TEXTS: [&str; 25] = [
    "",
    "\0",
    "int main(void){return 0;}\0",
    "int main(void){return 2147483648;}",
    "int main(void){return 01;}",
    "int main(void){return 1x;}",
    "int main(void){return ''';}",
    "int main(void){return '\\';}",
    "int main(void){return 'ab';}",
    "int main(void){return i;int i;}",
    "int main(void){i=1;return 0;}",
    "int main(void){int i=j;int j;return 0;}",
    "int main(void){int i;int i;return 0;}",
    "int main(void){int for;return 0;}",
    "int main(void){int main;return 0;}",
    "int main(void){return 0;int i;}",
    "int main(void){return 1<2<3;}",
    "int main(void){return -1;}",
    "int main(void){return (1;}",
    "int main(void){return 1);}",
    "int main(void){while(1)return 0;}",
    "int main(void){/**/return 0;}",
    "int main(void){return 0;}}",
    "int main(){return 0;}",
    "intmain(void){return 0;}",
];

#[test]
fn other_texts_have_no_tree(rt: HostRuntime) {
    expect_answers(&rt, rt.alloc(), &OTHER_TEXTS, Answer::NoTree);
}

/// How many parentheses and spaces, and the answer.
static LIMITS: [(usize, usize, Answer); 4] = [
    (198, 0, Answer::Tree),
    (199, 0, Answer::NoTree),
    (0, 1048551, Answer::Tree),
    (0, 1048552, Answer::NoTree),
];

fn answer_to_padded(
    alloc: Global,
    parentheses: usize,
    spaces: usize,
) -> Result<Answer, AllocError> {
    let text = padded(alloc, parentheses, spaces)?;
    Ok(answer_to(alloc, text.as_slice()))
}

#[test]
fn keeps_its_limits(rt: HostRuntime) -> Result<(), AllocError> {
    for (parentheses, spaces, want) in &LIMITS {
        let got = answer_to_padded(rt.alloc(), *parentheses, *spaces)?;
        assert_eq!(rt; got, *want, "{parentheses} {spaces}");
    }
    Ok(())
}
