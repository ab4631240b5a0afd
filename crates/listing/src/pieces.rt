// What follows the path in a line: kind and content.
ghost use Rattle.std.specs.Prelude.{◌≡◌, [], ◌∷◌};
ghost use Rattle.trees.specs.Lines.{truth_leaf};
ghost use Rattle.trees.specs.Files.{escape};
ghost use Rattle.listing.specs.Puts.{Puts};
ghost use Rattle.listing.specs.Pieces.{ending, leaf_of};

use crate::sink::{NoRoom, Sink};
use std::slice;
use values::Content;

// How a byte of a text is written: line feed, tab and backslash as pairs.
pub fn escaped(byte: &u8) -> &[u8]
    ensures { result.now ≡ escape (byte.now ∷ []) }
{
    match *byte {
        b'\n' => b"\\n",
        b'\t' => b"\\t",
        b'\\' => b"\\\\",
        _ => slice::from_ref(byte),
    }
}

// Puts a text.
fn put_text<S: Sink>(text: &[u8], out: &mut S) -> Result<(), NoRoom>
    ensures { Puts S.room S.grows out.old (escape text.now) result out.new }
{
    for byte in text {
        out.put(escaped(byte))?;
    }
    Ok(())
}

// The end of a line that has a truth value.
fn truth_end(truth: bool) -> &'static [u8]
    ensures { result.now ≡ ending (truth_leaf truth) }
{
    if truth {
        b"\tb\tTRUE\n"
    } else {
        b"\tb\tFALSE\n"
    }
}

// Puts what follows the path in the line of a value that has no members: kind, content and line feed.
pub fn put_end<S: Sink>(content: Content, out: &mut S) -> Result<(), NoRoom>
    ensures { Puts S.room S.grows out.old (ending (leaf_of content.entry)) result out.new }
{
    match content {
        Content::Truth(truth) => out.put(truth_end(truth)),
        Content::Text(text) => {
            out.put(b"\tt\t")?;
            put_text(text, out)?;
            out.put(b"\n")
        }
        Content::Binding(_) => out.put(b"\te\t\n"),
    }
}
