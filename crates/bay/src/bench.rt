// Running a tool over a tree file.
use crate::sentences::{tell_full, tell_refused};
use entering::enter;
use listing::escaped;
use std::alloc::{AllocError, Global};
use std::io;
use std::io::Write;
use toolrun::{Fault, MAX_ANSWERS, Scope, ToolRun};
use tools::lent::{SideBySide, Toolbox};
use tools::{Call, Cat, First, Reply, Space};
use trees::{Tree, check};
use values::{Number, Table};

// The most steps of a run: a fetch for each answer, and one step more, which ends it.
const MAX_STEPS: usize = MAX_ANSWERS + 1;

// The value table that trees are entered into, and the answers of a run.
#[derive(Drop)]
pub(crate) struct Bench {
    table: Table,
    run: ToolRun,
}

// Writes a text as it stands in a tree file, and ends the line.
fn tell_text(rt: &HostRuntime, text: &[u8]) -> io::Result<()> {
    let mut out = rt.stdout();
    for byte in text {
        out.write_all(escaped(byte))?;
    }
    out.write_all(b"\n")
}

// Tells a word and a text.
fn tell_line(rt: &HostRuntime, word: &[u8], text: &[u8]) -> io::Result<()> {
    rt.stdout().write_all(word)?;
    rt.stdout().write_all(b" ")?;
    tell_text(rt, text)
}

// Tells an answer to a fetch.
fn tell_answer(rt: &HostRuntime, answer: Option<&[u8]>) -> io::Result<()> {
    match answer {
        Some(text) => tell_line(rt, b"found", text),
        None => println!(rt; "found nothing"),
    }
}

// Tells why a run cannot go on.
fn tell_fault(rt: &HostRuntime, fault: Fault) -> io::Result<()> {
    match fault.number() {
        Some(number) => println!(rt; "refused {number}: {fault}"),
        None => println!(rt; "{fault}"),
    }
}

impl Bench {
    // A bench with all the memory that it will ever need.
    pub(crate) fn new(heap: Global) -> Result<Bench, AllocError> {
        let table = Table::new(heap)?;
        let run = ToolRun::new(heap)?;
        Ok(Bench { table, run })
    }

    // Runs a tool over the value under a number, and tells each event.
    fn run_over<X: Toolbox>(
        &mut self,
        rt: &HostRuntime,
        toolbox: &X,
        call: Call<'_>,
        root: Number,
    ) -> io::Result<()> {
        self.run.restart();
        let scope = Scope {
            table: &self.table,
            root,
        };
        let mut space = Space::new();
        for position in 0..MAX_STEPS {
            match self.run.step(toolbox, call, scope, &mut space) {
                Ok(Reply::Fetch(path)) => {
                    tell_line(rt, b"fetch", path)?;
                    tell_answer(rt, self.run.answers().get(position).flatten())?;
                }
                Ok(Reply::Product(text)) => return tell_line(rt, b"product", text),
                Ok(Reply::Failure(code)) => return println!(rt; "failure {code}"),
                Err(fault) => return tell_fault(rt, fault),
            }
        }
        Ok(())
    }

    // Enters an accepted tree, runs a tool over it, and takes the tree out of the table again.
    fn run_in(&mut self, rt: &HostRuntime, call: Call<'_>, tree: &Tree<'_>) -> io::Result<()> {
        let toolbox = SideBySide {
            left: Cat,
            right: First,
        };
        let Some(version) = toolbox.version(call.name) else {
            return println!(rt; "no such tool");
        };
        println!(rt; "version {version}")?;
        let len = self.table.len();
        let Ok(root) = enter(tree, &mut self.table) else {
            return tell_full(rt);
        };
        let told = self.run_over(rt, &toolbox, call, root);
        self.table.truncate(len);
        told
    }

    // Runs a tool over the bytes of a tree file, and tells each event.
    pub(crate) fn tell_run(
        &mut self,
        rt: &HostRuntime,
        call: Call<'_>,
        bytes: &[u8],
    ) -> io::Result<()> {
        match check(bytes) {
            Ok(()) => self.run_in(rt, call, &Tree { bytes }),
            Err(refused) => tell_refused(rt, refused),
        }
    }
}
