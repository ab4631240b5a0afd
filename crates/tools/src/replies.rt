// Replies of tools.
ghost use Rattle.std.specs.Prelude.{◌≡◌, ◌<◌, ◌≤◌, [], length, MatchOption};
ghost use Rattle.tools.specs.Tools.{fetch, failure};
ghost use Rattle.tools.specs.Calls.{code};
ghost use Rattle.tools.specs.Lent.{says, ends};

use arrayvec::ArrayVec;

// The most bytes that a command, a path and a product have.
pub const MAX_BYTES: usize = 1024;

// A path or a product, in memory of its own.
pub type Text = ArrayVec<u8, MAX_BYTES>;

// Memory for a path or a product, which the caller of a tool lends. It means nothing by itself, and nobody can read it: only a reply tells
// what stands in it, so that nothing need be said of what else a reply leaves there.
#[derive(Drop)]
pub struct Space {
    pub(crate) text: Text,
}

impl Space {
    // A space for one reply after the other.
    pub fn new() -> Space
        ensures { result.text.items ≡ [] }
    {
        Space { text: Text::new() }
    }

    // Writes bytes for a reply in place of what stood there; none where they are over 1,024.
    pub fn write(&mut self, bytes: &[u8]) -> Option<&[u8]>
        ensures { MatchOption result (1024 < length bytes.now) (λ text. text.now ≡ bytes.now) }
    {
        if bytes.len() > MAX_BYTES {
            return None;
        }
        Some(write(bytes, &mut self.text))
    }
}

// A reply: this path is fetched next, or this is the product, or the tool fails with a code, which each tool chooses from 1 to 255.
// A path or a product stands in the space that the caller lends.
#[derive(Clone, Copy)]
pub enum Reply<'o> {
    Fetch(&'o [u8]),
    Product(&'o [u8]),
    Failure(u8),
}

// Why `cat` and `first` fail, with the code. A tool that has other codes replies `Reply::Failure`.
#[derive(Clone, Copy, PartialEq, Eq, Debug)]
pub enum Failed {
    // Nothing was found where a text is wanted.
    NothingFound = 1,
    // The product would have over 1,024 bytes.
    TooLong = 2,
}

impl<'o> From<Failed> for Reply<'o> {
    ghost from_gives = { λ failed reply. says reply ≡ failure (code failed) };

    fn from(failed: Failed) -> Reply<'o> {
        Reply::Failure(failed as u8)
    }
}

// The reply in which a step ends.
pub(crate) fn reply_of<'o>(ended: Result<Reply<'o>, Failed>) -> Reply<'o>
    ensures { says result ≡ ends ended.entry }
{
    match ended {
        Ok(reply) => reply,
        Err(failed) => Reply::from(failed),
    }
}

// Writes bytes into lent memory, whatever it held before.
pub(crate) fn write<'o>(bytes: &[u8], out: &'o mut Text) -> &'o [u8]
    requires { length bytes.now ≤ 1024 }
    ensures { result.now ≡ bytes.now }
{
    out.clear();
    match out.try_extend_from_slice(bytes) {
        Ok(()) => out.as_slice(),
        Err(_) => unreachable(),
    }
}

// A reply that fetches a path, which is written into lent memory.
pub(crate) fn fetching<'o>(path: &[u8], out: &'o mut Text) -> Reply<'o>
    requires { length path.now ≤ 1024 }
    ensures { says result ≡ fetch path.now }
{
    Reply::Fetch(write(path, out))
}
