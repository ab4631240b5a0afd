// Toolboxes that reply in lent memory.
ghost use Rattle.std.specs.Prelude.{◌≡◌};
ghost use Rattle.tools.specs.Tools.{Tools, AllSound};
ghost use Rattle.tools.specs.Calls.{answers_of, version_of, called};
ghost use Rattle.tools.specs.Lent.{replied};

use crate::answers::Answers;
use crate::replies::{Reply, Space};

// A call of a tool: its name, and the command that it is given.
#[derive(Clone, Copy)]
pub struct Call<'c> {
    pub name: &'c [u8],
    pub command: &'c [u8],
}

// Tools by name, each with a version and a plan. Every tool is sound: versions are 1 to 65,535, paths and products have at most
// 1,024 bytes, and codes of failure are 1 to 255.
pub trait Toolbox {
    ghost tools: { Self → Tools };

    // The version of the tool of that name, if there is one.
    fn version(&self, name: &[u8]) -> Option<u16>
        ensures { result ≡ version_of (tools self.now) name.now };

    // What the tool that is called replies to its command and the answers so far. There is no reply from an unknown name, or to a
    // command of over 1,024 bytes. A path or a product stands in the space that is lent.
    fn reply<'o>(
        &self,
        call: Call<'_>,
        answers: Answers<'_>,
        space: &'o mut Space,
    ) -> Option<Reply<'o>>
        ensures { replied result ≡ called (tools self.now) call.entry (answers_of answers.entry) };

    ghost sound: { (s : Self) → AllSound (tools s) };
}
