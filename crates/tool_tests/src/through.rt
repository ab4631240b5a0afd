// A toolbox whose replies have memory of their own.
use tools::{Answers, Call, OwnedReply as Reply, Toolbox};

// A toolbox that passes each call on to another.
#[derive(Drop)]
pub struct Through<T: Toolbox> {
    pub toolbox: T,
}

impl<T: Toolbox> Toolbox for Through<T> {
    ghost tools = { λ s. T.Toolbox.tools s.toolbox };

    ghost sound = { λ s. T.Toolbox.sound s.toolbox };

    fn version(&self, name: &[u8]) -> Option<u16> {
        self.toolbox.version(name)
    }

    fn reply(&self, call: Call<'_>, answers: Answers<'_>) -> Option<Reply> {
        self.toolbox.reply(call, answers)
    }
}
