// A tool whose replies have memory of their own.
ghost use Rattle.std.specs.Prelude.{codes};
ghost use Rattle.tool_tests.specs.Echoes.{echo, echo_small};

use tools::{Answers, Command, Failed, OwnedReply as Reply, Text, Tool};

// The tool `echo`, whose product is its command.
#[derive(Drop)]
pub struct Echo;

impl Tool for Echo {
    ghost own = { codes "echo" };

    ghost plan = { echo };

    ghost small = { echo_small };

    fn name(&self) -> &'static [u8] {
        b"echo"
    }

    fn step(&self, command: Command<'_>, _answers: Answers<'_>) -> Result<Reply, Failed> {
        match Text::try_from(command.bytes) {
            Ok(text) => Ok(Reply::Product(text)),
            Err(_) => Err(Failed::TooLong),
        }
    }
}
