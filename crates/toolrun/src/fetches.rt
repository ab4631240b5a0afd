// Fetching: what stands at a path of the value that a tool runs over.
ghost use Rattle.std.specs.Prelude.{◌≡◌};
ghost use Rattle.trees.specs.Files.{split};
ghost use Rattle.lookup.specs.Finds.{looked};
ghost use Rattle.tools.specs.Calls.{told as told_text};
ghost use Rattle.toolrun.specs.Runs.{told as told_of, fetchable};
ghost use Rattle.toolrun.specs.Kept.{standing};

use crate::scope::Scope;
use lookup::find;
use trees::{count_names, is_path};
use values::Content;

// The most names that a path has which is fetched.
const MAX_NAMES: usize = 8;

// Whether a path may be fetched: it has 1 to 8 names.
pub(crate) fn is_fetchable(path: &[u8]) -> bool
    ensures { result ≡ fetchable path.now }
{
    is_path(path) && count_names(path) <= MAX_NAMES
}

impl<'t> Scope<'t> {
    // The text at a path, if one stands there.
    pub(crate) fn text_at(self, path: &[u8]) -> Option<&'t [u8]>
        ensures { told_text result ≡ told_of (looked (standing self.entry) (split 47 path.now)) }
    {
        let number = find(self.table, self.root, path)?;
        match self.table.value(number)? {
            Content::Truth(_) => None,
            Content::Text(text) => Some(text),
            Content::Binding(_) => None,
        }
    }
}
