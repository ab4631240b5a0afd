// The program: commands from standard input, one a line, or one from the arguments.
#![tactic(auto)]

mod answers;
mod bench;
mod files;
mod sentences;
mod stored;

use crate::answers::{Desk, answer};
use crate::bench::Bench;
use checker::Checker;
use commands::line_words;
use std::alloc::{AllocError, Global};
use std::io::{BufRead, BufReader};
use std::{env, io};

// The arguments, without the program's own name.
fn arguments(rt: &HostRuntime) -> io::Result<Vec<String>> {
    let mut all = Vec::new(rt.alloc());
    for argument in env::args(rt)?.skip(1) {
        all.push(argument)?;
    }
    Ok(all)
}

// The bytes of texts.
fn bytes_of(heap: Global, texts: &[String]) -> Result<Vec<&[u8]>, AllocError> {
    let mut all = Vec::new(heap);
    for text in texts {
        all.push(text.as_bytes())?;
    }
    Ok(all)
}

fn main(rt: HostRuntime) -> io::Result<()> {
    let heap = rt.alloc();
    let checker = Checker::new(heap)?;
    let bench = Bench::new(heap)?;
    let mut desk = Desk { checker, bench };
    let given = arguments(&rt)?;
    if !given.is_empty() {
        return answer(&rt, &mut desk, &bytes_of(heap, &given)?);
    }
    for line in BufReader::new(heap, rt.stdin())?.split(heap, b'\n') {
        let line = line?;
        answer(&rt, &mut desk, &line_words(heap, &line)?)?;
    }
    Ok(())
}
