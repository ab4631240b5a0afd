// A toolbox that replies in lent memory.
use tools::lent::{Reply, Space, Toolbox};
use tools::{Answers, Call};

// A toolbox that passes each call on to another.
#[derive(Drop)]
pub struct Onward<T: Toolbox> {
    pub toolbox: T,
}

impl<T: Toolbox> Toolbox for Onward<T> {
    ghost tools = { λ s. T.Toolbox.tools s.toolbox };

    ghost sound = { λ s. T.Toolbox.sound s.toolbox };

    fn version(&self, name: &[u8]) -> Option<u16> {
        self.toolbox.version(name)
    }

    fn reply<'o>(
        &self,
        call: Call<'_>,
        answers: Answers<'_>,
        space: &'o mut Space,
    ) -> Option<Reply<'o>> {
        self.toolbox.reply(call, answers, space)
    }
}
