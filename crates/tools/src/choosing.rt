// The tool `first`: the first text that is found.
ghost use Rattle.std.specs.Prelude.{◌≡◌, codes};
ghost use Rattle.trees.specs.Files.{split};
ghost use Rattle.tools.specs.Plans.{within, choosing as choosing_of, first as first_plan};
ghost use Rattle.tools.specs.Tools.{product};
ghost use Rattle.tools.specs.Calls.{answers_of};
ghost use Rattle.tools.specs.Lent.{ends};
ghost use Rattle.tools.specs.Sound.{first_small};

use crate::answers::Answers;
use crate::replies::{Failed, MAX_BYTES, Reply, Space, Text, fetching, write};
use crate::tool::{Command, Tool};
use trees::cut;

// The toolbox that has the tool `first`.
#[derive(Clone, Copy)]
pub struct First;

// A text as product, unless it has over 1,024 bytes.
fn give<'o>(text: &[u8], out: &'o mut Text) -> Result<Reply<'o>, Failed>
    ensures { ends result ≡ within text.now (product text.now) }
{
    if text.len() <= MAX_BYTES {
        Ok(Reply::Product(write(text, out)))
    } else {
        Err(Failed::TooLong)
    }
}

// What is replied where a command has at least one path. The paths are walked beside the answers as in `cat`; with the turn as a parameter
// the walk would be longer than both.
fn choose<'o>(
    command: Command<'_>,
    answers: Answers<'_>,
    out: &'o mut Text,
) -> Result<Reply<'o>, Failed>
    ensures { ends result ≡ choosing_of (split 32 command.entry.bytes.now) (answers_of answers.entry) }
{
    let mut left = command.bytes;
    let mut given = answers;
    loop {
        let paths = cut(left, b' ');
        let Some((answer, others)) = given.split_first() else {
            return Ok(fetching(paths.first, out));
        };
        if let Some(text) = answer {
            return give(text, out);
        }
        let Some(rest) = paths.rest else {
            return Err(Failed::NothingFound);
        };
        left = rest;
        given = others;
    }
}

impl Tool for First {
    ghost own = { codes "first" };

    ghost plan = { first_plan };

    ghost small = { first_small };

    fn name(&self) -> &'static [u8] {
        b"first"
    }

    fn step<'o>(
        &self,
        command: Command<'_>,
        answers: Answers<'_>,
        space: &'o mut Space,
    ) -> Result<Reply<'o>, Failed> {
        if command.bytes.is_empty() {
            Ok(Reply::Product(b""))
        } else {
            choose(command, answers, &mut space.text)
        }
    }
}
