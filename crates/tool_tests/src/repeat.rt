// A tool that replies in lent memory.
ghost use Rattle.std.specs.Prelude.{codes};
ghost use Rattle.tool_tests.specs.Echoes.{echo, echo_small};

use tools::lent::{Reply, Space, Tool};
use tools::{Answers, Command, Failed};

// The tool `repeat`, whose product is its command.
#[derive(Drop)]
pub struct Repeat;

impl Tool for Repeat {
    ghost own = { codes "repeat" };

    ghost plan = { echo };

    ghost small = { echo_small };

    fn name(&self) -> &'static [u8] {
        b"repeat"
    }

    fn step<'o>(
        &self,
        command: Command<'_>,
        _answers: Answers<'_>,
        space: &'o mut Space,
    ) -> Result<Reply<'o>, Failed> {
        match space.write(command.bytes) {
            Some(text) => Ok(Reply::Product(text)),
            None => Err(Failed::TooLong),
        }
    }
}
