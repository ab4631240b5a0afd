// Parts between separators: lines, and the fields of a line.
ghost use Rattle.trees.specs.Cuts.{Cuts};

// The bytes in front of the first separator, and those behind it if there is one.
#[derive(Clone, Copy)]
pub struct Parts<'a> {
    pub first: &'a [u8],
    pub rest: Option<&'a [u8]>,
}

// Cuts bytes at the first separator.
pub fn cut(bytes: &[u8], separator: u8) -> Parts<'_>
    ensures { Cuts separator bytes.now result }
{
    match bytes.iter().position(|b| *b == separator) {
        Some(end) => Parts {
            first: &bytes[..end],
            rest: Some(&bytes[end + 1..]),
        },
        None => Parts {
            first: bytes,
            rest: None,
        },
    }
}
