// Tools and toolboxes whose replies have memory of their own. They mean the same as those that reply in lent memory (`lent`).
ghost use Rattle.std.specs.Prelude.{◌≡◌, ◌≤◌, ℕ, List, length};
ghost use Rattle.values.specs.Values.{Name};
ghost use Rattle.tools.specs.Tools.{Answer, Plan, Small, Tools, AllSound, failure};
ghost use Rattle.tools.specs.Calls.{answers_of, version_of, called, code, says, replied, ends};

use crate::answers::Answers;
use crate::replies::{Failed, Text};
use crate::tool::Command;
use crate::toolbox::Call;

// A reply, which has its path or product itself: this path is fetched next, or this is the product, or the tool fails with a code, which each tool
// chooses from 1 to 255. Outside the crate it is `OwnedReply`.
#[derive(Clone, Drop)]
pub enum Reply {
    Fetch(Text),
    Product(Text),
    Failure(u8),
}

impl From<Failed> for Reply {
    ghost from_gives = { λ failed reply. says reply ≡ failure (code failed) };

    fn from(failed: Failed) -> Reply {
        Reply::Failure(failed as u8)
    }
}

// A tool of version 1: its name, and its plan, whose replies are small. Whatever implements this is a `lent::Tool` too. A `lent::Tool`, such
// as `Cat` and `First`, is asked as a tool of this kind through `Owning`.
pub trait Tool {
    ghost own: { Name };

    ghost plan: { Plan };

    fn name(&self) -> &'static [u8]
        ensures { result.now ≡ own };

    // What it replies to a command and the answers so far.
    fn step(&self, command: Command<'_>, answers: Answers<'_>) -> Result<Reply, Failed>
        ensures { ends result ≡ plan command.entry.bytes.now (answers_of answers.entry) };

    ghost small: { (command : List ℕ) (given : List Answer) → length command ≤ 1024 → Small (plan command given) };
}

// Tools by name, each with a version and a plan. Every tool is sound: versions are 1 to 65,535, paths and products have at most
// 1,024 bytes, and codes of failure are 1 to 255. Whatever is a `lent::Toolbox` is one of these too. A type that implements this trait
// directly is asked as a `lent::Toolbox` through `Lending`.
pub trait Toolbox {
    ghost tools: { Self → Tools };

    // The version of the tool of that name, if there is one.
    fn version(&self, name: &[u8]) -> Option<u16>
        ensures { result ≡ version_of (tools self.now) name.now };

    // What the tool that is called replies to its command and the answers so far. There is no reply from an unknown name, or to a
    // command of over 1,024 bytes.
    fn reply(&self, call: Call<'_>, answers: Answers<'_>) -> Option<Reply>
        ensures { replied result ≡ called (tools self.now) call.entry (answers_of answers.entry) };

    ghost sound: { (s : Self) → AllSound (tools s) };
}
