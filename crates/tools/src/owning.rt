// Tools and toolboxes that reply in lent memory, asked for replies with memory of their own.
ghost use Rattle.std.specs.Prelude.{◌≡◌, ◌≤◌, length};
ghost use Rattle.tools.specs.Tools.{Small};
ghost use Rattle.tools.specs.Calls.{says};
ghost use Rattle.tools.specs.Lent.{says as lent_says};

use crate::answers::Answers;
use crate::owned;
use crate::replies::{Failed, Reply, Space, Text};
use crate::tool::{Command, Tool};
use crate::toolbox::{Call, Toolbox};

// A text in memory of its own.
fn owned_text(bytes: &[u8]) -> Text
    requires { length bytes.now ≤ 1024 }
    ensures { result.items ≡ bytes.now }
{
    match Text::try_from(bytes) {
        Ok(text) => text,
        Err(_) => unreachable(),
    }
}

// What a reply says, in memory of its own.
fn owned_reply(reply: Reply<'_>) -> owned::Reply
    requires { Small (lent_says reply) }
    ensures { says result ≡ lent_says reply.entry }
{
    match reply {
        Reply::Fetch(path) => owned::Reply::Fetch(owned_text(path)),
        Reply::Product(text) => owned::Reply::Product(owned_text(text)),
        Reply::Failure(code) => owned::Reply::Failure(code),
    }
}

impl<T: Toolbox> owned::Toolbox for T {
    ghost tools = { λ s. T.Toolbox.tools s };

    ghost sound = { λ s. T.Toolbox.sound s };

    fn version(&self, name: &[u8]) -> Option<u16> {
        Toolbox::version(self, name)
    }

    fn reply(&self, call: Call<'_>, answers: Answers<'_>) -> Option<owned::Reply> {
        let mut space = Space::new();
        Some(owned_reply(Toolbox::reply(self, call, answers, &mut space)?))
    }
}

// A tool that replies in lent memory, asked as one whose replies have memory of their own.
#[derive(Drop)]
pub struct Owning<'t, T: Tool> {
    pub tool: &'t T,
}

impl<T: Tool> owned::Tool for Owning<'_, T> {
    ghost own = { T.Tool.own };

    ghost plan = { T.Tool.plan };

    ghost small = { T.Tool.small };

    fn name(&self) -> &'static [u8] {
        self.tool.name()
    }

    fn step(&self, command: Command<'_>, answers: Answers<'_>) -> Result<owned::Reply, Failed> {
        let mut space = Space::new();
        Ok(owned_reply(self.tool.step(command, answers, &mut space)?))
    }
}
