// The content of a text line: line feed, tab and backslash are written as pairs.
ghost use Rattle.std.specs.Prelude.{◌≡◌};
ghost use Rattle.trees.specs.Files.{unescape};
ghost use Rattle.trees.specs.Contents.{Begins, pair_byte, counted};

// Bytes that are no line of a tree file, or no part of one.
#[derive(Clone, Copy, PartialEq, Eq, Debug)]
pub struct Malformed;

// The byte that a backslash and the byte after it stand for. Models have other escapes; a set of them as a parameter would be longer than
// this function and that of models.
fn escaped_byte(b: u8) -> Option<u8>
    ensures { result ≡ pair_byte b }
{
    match b {
        b'n' => Some(b'\n'),
        b't' => Some(b'\t'),
        b'\\' => Some(b'\\'),
        _ => None,
    }
}

// The first byte of the text and the content behind it, or none at the content's end.
pub fn next_byte(content: &[u8]) -> Result<Option<(u8, &[u8])>, Malformed>
    ensures { Begins content.now result }
{
    match content {
        [] => Ok(None),
        [b'\\', b, rest @ ..] => {
            let byte = escaped_byte(*b).ok_or(Malformed)?;
            Ok(Some((byte, rest)))
        }
        [b'\\' | b'\n' | b'\t', ..] => Err(Malformed),
        [b, rest @ ..] => Ok(Some((*b, rest))),
    }
}

// How many bytes the text has. It counts by hand: a step takes one byte or two
// and may be refused, so that an iterator for it would have to be written.
pub fn text_len(content: &[u8]) -> Result<usize, Malformed>
    ensures { result ≡ counted 0 (unescape content.now) }
{
    let mut left = content;
    let mut len = 0;
    while let Some((_, rest)) = next_byte(left)? {
        len += 1;
        left = rest;
    }
    Ok(len)
}
