// Entering what stands at the end of a line: kind, tab and content.
ghost use Rattle.std.specs.Prelude.{◌≡◌, []};
ghost use Rattle.std.proofs.Math.Option.{some};
ghost use Rattle.values.specs.Memory.{values};
ghost use Rattle.trees.specs.Cuts.{free};
ghost use Rattle.trees.specs.Files.{unescape as meaning};
ghost use Rattle.entering.specs.Levels.{HasContent, HasLeaf, HasLine};
ghost use Rattle.entering.specs.Steps.{EntersContent, EntersLeaf, EntersLine};

use crate::answers::Full;
use crate::singles::{enter_binding, enter_text};
use arrayvec::ArrayVec;
use trees::{cut, next_byte};
use values::{LONGEST_TEXT, Number, Table};

// Whether a content has no escapes, and so is its own text.
fn is_plain(content: &[u8]) -> bool
    ensures { result ≡ free 92 content.now }
{
    content.iter().all(|b| *b != b'\\')
}

// Writes the text of a content, without its escapes. The text is lent, so that its memory is not moved.
fn unescape(content: &[u8], text: &mut ArrayVec<u8, LONGEST_TEXT>)
    requires content { HasContent content.now 1024 }
    requires empty { text.old.items ≡ [] }
    ensures { some text.new.items ≡ meaning content.now }
{
    let mut left = content;
    while let Ok(Some((byte, rest))) = next_byte(left) {
        text.push(byte);
        left = rest;
    }
}

// Enters the text of a content.
fn enter_content(table: &mut Table, content: &[u8]) -> Result<Number, Full>
    requires { HasContent content.now 1024 }
    ensures { EntersContent content.now (values table.old) result (values table.new) }
{
    if is_plain(content) {
        return enter_text(table, content);
    }
    let mut text = ArrayVec::new();
    unescape(content, &mut text);
    enter_text(table, &text)
}

// Enters a leaf: a text, a truth value, or the empty binding.
fn enter_leaf(table: &mut Table, leaf: &[u8]) -> Result<Number, Full>
    requires { HasLeaf leaf.now }
    ensures { EntersLeaf leaf.now (values table.old) result (values table.new) }
{
    match leaf {
        [b't', _, content @ ..] => enter_content(table, content),
        [b'b', _, first, ..] => Ok(table.truth(*first == b'T')),
        [b'e', ..] => enter_binding(table, &[]),
        _ => unreachable(),
    }
}

// Enters the leaf that the bytes begin with, up to the line feed, and answers its number and the bytes behind the line.
pub(crate) fn enter_line<'a>(table: &mut Table, bytes: &'a [u8]) -> Result<(Number, &'a [u8]), Full>
    requires { HasLine bytes.now }
    ensures { EntersLine bytes.now (values table.old) result (values table.new) }
{
    let lines = cut(bytes, b'\n');
    let Some(rest) = lines.rest else {
        unreachable()
    };
    let number = enter_leaf(table, lines.first)?;
    Ok((number, rest))
}
