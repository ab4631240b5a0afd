// Answering commands.
use crate::bench::Bench;
use crate::files::read_file;
use crate::sentences::{tell_full, tell_refused};
use crate::stored::tell_caches;
use checker::{Checker, Unshown};
use commands::{Command, command};
use std::alloc::{AllocError, Global};
use std::io;
use std::io::Write;
use tools::Call;

const HELP: &str =
    "tree FILE                check a tree file and list its value\ntool NAME WORDS.. FILE   run a tool over a tree file, the words between being its command\ncaches                   fill, take from and clear each kind of cache, and tell its entries\nhelp                     tell the commands\n# ...                    a remark\n";

// All the memory that commands are answered with.
#[derive(Drop)]
pub(crate) struct Desk {
    pub(crate) checker: Checker,
    pub(crate) bench: Bench,
}

// Writes words behind `> `, a blank before each but the first. Words are bytes, which need not be text, so that no `Display` serves, here and
// where files, texts and paths are told.
fn echo(rt: &HostRuntime, words: &[&[u8]]) -> io::Result<()> {
    let mut out = rt.stdout();
    out.write_all(b">")?;
    for word in words {
        out.write_all(b" ")?;
        out.write_all(*word)?;
    }
    out.write_all(b"\n")
}

// Tells that a file cannot be read.
fn tell_unreadable(rt: &HostRuntime, file: &[u8]) -> io::Result<()> {
    let mut out = rt.stdout();
    out.write_all(b"cannot read ")?;
    out.write_all(file)?;
    out.write_all(b"\n")
}

// Tells what value the bytes of a tree file are, or why they are refused.
fn tell_tree(rt: &HostRuntime, checker: &mut Checker, bytes: &[u8]) -> io::Result<()> {
    match checker.show(bytes) {
        Ok(len) => {
            println!(rt; "accepted")?;
            rt.stdout().write_all(checker.front(len))
        }
        Err(Unshown::Refused(refused)) => tell_refused(rt, refused),
        Err(Unshown::Full) => tell_full(rt),
    }
}

// Reads a file and tells of its bytes, or that it cannot be read.
fn tell_file<F: FnOnce(&[u8]) -> io::Result<()>>(
    rt: &HostRuntime,
    file: &[u8],
    tell: F,
) -> io::Result<()>
    requires { F.IsAlwaysCallable tell }
{
    match read_file(rt, file) {
        Ok(bytes) => tell(&bytes),
        Err(_) => tell_unreadable(rt, file),
    }
}

// The command of a tool: all words but the first two and the last, a blank between them.
fn tool_command(heap: Global, words: &[&[u8]]) -> Result<Vec<u8>, AllocError> {
    let mut command = Vec::new(heap);
    let [_, _, between @ .., _] = words else {
        return Ok(command);
    };
    for (i, word) in between.iter().enumerate() {
        if i > 0 {
            command.push(b' ')?;
        }
        command.extend_from_slice(*word)?;
    }
    Ok(command)
}

// Echoes a command and answers it. An empty line and a remark have no words, and are passed over.
pub(crate) fn answer(rt: &HostRuntime, desk: &mut Desk, words: &[&[u8]]) -> io::Result<()> {
    if words.is_empty() {
        return Ok(());
    }
    echo(rt, words)?;
    match command(words) {
        Command::Nothing => Ok(()),
        Command::Tree(file) => tell_file(rt, file, |bytes| tell_tree(rt, &mut desk.checker, bytes)),
        Command::Tool(name, file) => {
            let command = tool_command(rt.alloc(), words)?;
            let call = Call {
                name,
                command: &command,
            };
            tell_file(rt, file, |bytes| desk.bench.tell_run(rt, call, bytes))
        }
        Command::Caches => tell_caches(rt),
        Command::Help => rt.stdout().write_all(HELP.as_bytes()),
        Command::Unknown => println!(rt; "unknown command"),
    }
}
