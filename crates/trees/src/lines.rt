// A line of a tree file: path, tab, kind, tab, content.
ghost use Rattle.std.specs.Prelude.{◌≡◌};
ghost use Rattle.values.specs.Values.{mapped};
ghost use Rattle.trees.specs.Lines.{text_leaf};
ghost use Rattle.trees.specs.Files.{unescape, truth_of, empty_of, leaf_of, line_of};
ghost use Rattle.trees.specs.Raw.{read_leaf, read_line};

use crate::escapes::{Malformed, text_len};
use crate::parts::cut;
use crate::paths::is_path;

// What stands at the end of a line's path, as the file writes it.
#[derive(Clone, Copy)]
pub enum RawLeaf<'a> {
    // A text, by its content with escapes.
    Text(&'a [u8]),
    Truth(bool),
    // The empty binding.
    Empty,
}

// A line as the file writes it: names parted by `/`, and what stands there.
#[derive(Clone, Copy)]
pub struct RawLine<'a> {
    pub path: &'a [u8],
    pub leaf: RawLeaf<'a>,
}

// A text by its content.
fn text_leaf(content: &[u8]) -> Result<RawLeaf<'_>, Malformed>
    ensures { read_leaf result ≡ mapped text_leaf (unescape content.now) }
{
    text_len(content)?;
    Ok(RawLeaf::Text(content))
}

// A truth value by its word.
fn truth_leaf<'a>(word: &[u8]) -> Result<RawLeaf<'a>, Malformed>
    ensures { read_leaf result ≡ truth_of word.now }
{
    match word {
        b"TRUE" => Ok(RawLeaf::Truth(true)),
        b"FALSE" => Ok(RawLeaf::Truth(false)),
        _ => Err(Malformed),
    }
}

// The empty binding, which has no content.
fn empty_leaf<'a>(content: &[u8]) -> Result<RawLeaf<'a>, Malformed>
    ensures { read_leaf result ≡ empty_of content.now }
{
    match content {
        [] => Ok(RawLeaf::Empty),
        _ => Err(Malformed),
    }
}

// What a kind and a content stand for.
fn read_leaf<'a>(kind: &[u8], content: &'a [u8]) -> Result<RawLeaf<'a>, Malformed>
    ensures { read_leaf result ≡ leaf_of kind.now content.now }
{
    match kind {
        b"t" => text_leaf(content),
        b"b" => truth_leaf(content),
        b"e" => empty_leaf(content),
        _ => Err(Malformed),
    }
}

// Reads a line, which stands without its line feed.
pub fn read_line(bytes: &[u8]) -> Result<RawLine<'_>, Malformed>
    ensures { read_line result ≡ line_of bytes.now }
{
    let path = cut(bytes, b'\t');
    let kind = cut(path.rest.ok_or(Malformed)?, b'\t');
    let content = kind.rest.ok_or(Malformed)?;
    if cut(content, b'\t').rest.is_some() || !is_path(path.first) {
        return Err(Malformed);
    }
    let leaf = read_leaf(kind.first, content)?;
    Ok(RawLine {
        path: path.first,
        leaf,
    })
}
