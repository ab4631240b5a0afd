// Tools and toolboxes whose replies have memory of their own, asked for replies in lent memory.
ghost use Rattle.std.specs.Prelude.{◌≡◌};
ghost use Rattle.tools.specs.Calls.{says};
ghost use Rattle.tools.specs.Lent.{says as lent_says};

use crate::answers::Answers;
use crate::owned;
use crate::replies::{Failed, Reply, Space, write};
use crate::tool::{Command, Tool};
use crate::toolbox::{Call, Toolbox};

// What a reply says, in lent memory.
fn lent_reply<'o>(reply: &owned::Reply, space: &'o mut Space) -> Reply<'o>
    ensures { lent_says result ≡ says reply.now }
{
    match reply {
        owned::Reply::Fetch(path) => Reply::Fetch(write(path, &mut space.text)),
        owned::Reply::Product(text) => Reply::Product(write(text, &mut space.text)),
        owned::Reply::Failure(code) => Reply::Failure(*code),
    }
}

// Name and plan are those that the tool has as an `owned::Tool`.
impl<T: owned::Tool> Tool for T {
    ghost own = { T.Tool.own };

    ghost plan = { T.Tool.plan };

    ghost small = { T.Tool.small };

    fn name(&self) -> &'static [u8] {
        owned::Tool::name(self)
    }

    fn step<'o>(
        &self,
        command: Command<'_>,
        answers: Answers<'_>,
        space: &'o mut Space,
    ) -> Result<Reply<'o>, Failed> {
        Ok(lent_reply(&owned::Tool::step(self, command, answers)?, space))
    }
}

// A toolbox whose replies have memory of their own, asked as one that replies in lent memory.
#[derive(Drop)]
pub struct Lending<'t, T: owned::Toolbox> {
    pub toolbox: &'t T,
}

impl<T: owned::Toolbox> Toolbox for Lending<'_, T> {
    ghost tools = { λ s. T.Toolbox.tools s.toolbox.now };

    ghost sound = { λ s. T.Toolbox.sound s.toolbox.now };

    fn version(&self, name: &[u8]) -> Option<u16> {
        self.toolbox.version(name)
    }

    fn reply<'o>(
        &self,
        call: Call<'_>,
        answers: Answers<'_>,
        space: &'o mut Space,
    ) -> Option<Reply<'o>> {
        Some(lent_reply(&self.toolbox.reply(call, answers)?, space))
    }
}
