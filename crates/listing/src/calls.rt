// Listing.
ghost use Rattle.std.specs.Prelude.{◌≡◌, ◌≤◌, length};
ghost use Rattle.std.proofs.Math.Option.{some};
ghost use Rattle.values.specs.Values.{Members, binding, nth};
ghost use Rattle.values.specs.Memory.{values};
ghost use Rattle.trees.specs.Files.{listing, read_tree, done};
ghost use Rattle.listing.specs.Lists.{Lists};

use crate::answers::Unlisted;
use crate::output::{Count, Fill};
use crate::walk::put_listing;
use values::{Number, Table};

// Lists the value under a number: how many bytes were written. A binding is listed in its lines, any other value in one line
// with the path `.`. The buffer is the caller's, and what stands in it behind the listing stays, so that a length is answered. The listing
// of a binding of at most 32,768 bytes is a tree file that reads as that binding.
pub fn list(table: &Table, number: Number, buffer: &mut [u8]) -> Result<usize, Unlisted>
    ensures written { Lists (nth (values table.now) number) buffer.old result buffer.new }
    ensures reads_back { (ms : Members) → nth (values table.now) number ≡ some (binding ms) → length (listing (binding ms)) ≤ 32768 → read_tree (listing (binding ms)) ≡ done ms }
{
    let Some(content) = table.value(number) else {
        return Err(Unlisted::UnknownNumber);
    };
    let mut count = Count { room: buffer.len() };
    put_listing(table, content, &mut count)?;
    let mut fill = Fill { buffer, at: 0 };
    put_listing(table, content, &mut fill)?;
    Ok(fill.at)
}
