// Two toolboxes side by side, whose replies have memory of their own.
ghost use Rattle.std.specs.Prelude.{◌≡◌};
ghost use Rattle.tools.specs.Plans.{beside as beside_of};
ghost use Rattle.tools.specs.Sound.{beside_sound};

use crate::answers::Answers;
use crate::owned::{Reply, Toolbox};
use crate::toolbox::Call;

// Two toolboxes, themselves a toolbox: left's tool if left has the name, else right's.
#[derive(Drop)]
pub struct SideBySide<L: Toolbox, R: Toolbox> {
    pub left: L,
    pub right: R,
}

impl<L: Toolbox, R: Toolbox> Toolbox for SideBySide<L, R> {
    ghost tools = { λ s. beside_of (L.Toolbox.tools s.left) (R.Toolbox.tools s.right) };

    ghost sound = { λ s. beside_sound (L.Toolbox.tools s.left) (R.Toolbox.tools s.right) (L.Toolbox.sound s.left) (R.Toolbox.sound s.right) };

    fn version(&self, name: &[u8]) -> Option<u16> {
        self.left.version(name).or_else(|| self.right.version(name))
    }

    fn reply(&self, call: Call<'_>, answers: Answers<'_>) -> Option<Reply> {
        match self.left.version(call.name) {
            Some(_) => self.left.reply(call, answers),
            None => self.right.reply(call, answers),
        }
    }
}
