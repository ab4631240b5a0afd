// The tool `cat`: all texts, joined.
ghost use Rattle.std.specs.Prelude.{◌≡◌, [], codes};
ghost use Rattle.trees.specs.Files.{split};
ghost use Rattle.tools.specs.Plans.{joining as joining_of, cat as cat_plan};
ghost use Rattle.tools.specs.Calls.{answers_of};
ghost use Rattle.tools.specs.Lent.{ends};
ghost use Rattle.tools.specs.Sound.{cat_small};

use crate::answers::Answers;
use crate::replies::{Failed, Reply, Space, Text, fetching};
use crate::tool::{Command, Tool};
use trees::cut;

// The toolbox that has the tool `cat`.
#[derive(Clone, Copy)]
pub struct Cat;

// What is replied where a command has at least one path: the texts are joined in lent memory. The paths are walked beside the answers as in `first`; with the turn as a parameter
// the walk would be longer than both.
fn join<'o>(
    command: Command<'_>,
    answers: Answers<'_>,
    out: &'o mut Text,
) -> Result<Reply<'o>, Failed>
    ensures { ends result ≡ joining_of [] (split 32 command.entry.bytes.now) (answers_of answers.entry) }
{
    out.clear();
    let mut left = command.bytes;
    let mut given = answers;
    loop {
        let paths = cut(left, b' ');
        let Some((answer, others)) = given.split_first() else {
            return Ok(fetching(paths.first, out));
        };
        let Some(piece) = answer else {
            return Err(Failed::NothingFound);
        };
        if out.try_extend_from_slice(piece).is_err() {
            return Err(Failed::TooLong);
        }
        let Some(rest) = paths.rest else {
            return Ok(Reply::Product(out.as_slice()));
        };
        left = rest;
        given = others;
    }
}

impl Tool for Cat {
    ghost own = { codes "cat" };

    ghost plan = { cat_plan };

    ghost small = { cat_small };

    fn name(&self) -> &'static [u8] {
        b"cat"
    }

    fn step<'o>(
        &self,
        command: Command<'_>,
        answers: Answers<'_>,
        space: &'o mut Space,
    ) -> Result<Reply<'o>, Failed> {
        if command.bytes.is_empty() {
            Ok(Reply::Product(b""))
        } else {
            join(command, answers, &mut space.text)
        }
    }
}
