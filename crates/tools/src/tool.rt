// A tool by itself that replies in lent memory: a toolbox that has this one.
ghost use Rattle.std.specs.Prelude.{◌≡◌, ◌≤◌, ℕ, List, length};
ghost use Rattle.values.specs.Values.{Name, same_name};
ghost use Rattle.tools.specs.Tools.{Answer, Plan, Small};
ghost use Rattle.tools.specs.Plans.{only};
ghost use Rattle.tools.specs.Sound.{only_sound};
ghost use Rattle.tools.specs.Calls.{answers_of};
ghost use Rattle.tools.specs.Lent.{ends};

use crate::answers::Answers;
use crate::replies::{Failed, MAX_BYTES, Reply, Space, reply_of};
use crate::toolbox::{Call, Toolbox};

// A command that a tool may be given: at most 1,024 bytes.
#[derive(Clone, Copy)]
pub struct Command<'c> {
    pub bytes: &'c [u8],
    ghost short: { length bytes.now ≤ 1024 },
}

// A tool of version 1: its name, and its plan, whose replies are small. Command and answers are no struct, since a step takes the answers one by
// one and the command as it is.
pub trait Tool {
    ghost own: { Name };

    ghost plan: { Plan };

    fn name(&self) -> &'static [u8]
        ensures { result.now ≡ own };

    // What it replies to a command and the answers so far. A path or a product stands in the space that is lent.
    fn step<'o>(
        &self,
        command: Command<'_>,
        answers: Answers<'_>,
        space: &'o mut Space,
    ) -> Result<Reply<'o>, Failed>
        ensures { ends result ≡ plan command.entry.bytes.now (answers_of answers.entry) };

    ghost small: { (command : List ℕ) (given : List Answer) → length command ≤ 1024 → Small (plan command given) };
}

// Whether the name is the tool's own.
fn is_named<T: Tool>(tool: &T, name: &[u8]) -> bool
    ensures { result ≡ same_name name.now T.Tool.own }
{
    name == tool.name()
}

impl<T: Tool> Toolbox for T {
    ghost tools = { λ _. only T.Tool.own T.Tool.plan };

    ghost sound = { λ _. only_sound T.Tool.own T.Tool.plan T.Tool.small };

    fn version(&self, name: &[u8]) -> Option<u16> {
        if is_named(self, name) { Some(1) } else { None }
    }

    fn reply<'o>(
        &self,
        call: Call<'_>,
        answers: Answers<'_>,
        space: &'o mut Space,
    ) -> Option<Reply<'o>> {
        if !is_named(self, call.name) {
            return None;
        }
        if call.command.len() > MAX_BYTES {
            return None;
        }
        let command = Command {
            bytes: call.command,
        };
        Some(reply_of(self.step(command, answers, space)))
    }
}
