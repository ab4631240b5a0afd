// One event of a tool's run after the other.
ghost use Rattle.std.specs.Prelude.{◌≡◌};
ghost use Rattle.std.proofs.Math.Option.{some};
ghost use Rattle.values.specs.Values.{Value};
ghost use Rattle.toolrun.specs.Runs.{fetching, event};
ghost use Rattle.toolrun.specs.Kept.{answers as kept, standing, Fetches, Goes};

use crate::faults::Fault;
use crate::fetches::is_fetchable;
use crate::scope::Scope;
use crate::store::ToolRun;
use tools::lent::Toolbox;
use tools::{Call, Reply, Space};

impl ToolRun {
    // Fetches a path and keeps its answer.
    fn fetch(&mut self, scope: Scope<'_>, path: &[u8]) -> Result<(), Fault>
        ensures { (v : Value) → standing scope.entry ≡ some v → Fetches (fetching v (kept self.old) path.now) (kept self.old) result (kept self.new) }
    {
        if !is_fetchable(path) {
            return Err(Fault::BadPath);
        }
        self.keep(scope.text_at(path))
    }

    // The next event of a tool's run over the value of a scope. A path that is told was fetched, and its answer is now the last one;
    // a product or a failure ends the run, and so does a fault. A path or a product stands in the space that is lent.
    pub fn step<'o, X: Toolbox>(
        &mut self,
        toolbox: &X,
        call: Call<'_>,
        scope: Scope<'_>,
        space: &'o mut Space,
    ) -> Result<Reply<'o>, Fault>
        ensures { (v : Value) → standing scope.entry ≡ some v → Goes (event (X.Toolbox.tools toolbox.now) call.entry.name.now call.entry.command.now v (kept self.old)) (kept self.old) result (kept self.new) }
    {
        let Some(reply) = toolbox.reply(call, self.answers(), space) else {
            return Err(Fault::Unknown);
        };
        if let Reply::Fetch(path) = reply {
            self.fetch(scope, path)?;
        }
        Ok(reply)
    }
}
