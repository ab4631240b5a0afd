// What is kept of the lines read so far.
use values::GREATEST_HEIGHT;

// The path of the last line, and how many members each binding along it has: as many counts hold as the path has names, a number that an
// `ArrayVec` would keep a second time.
#[derive(Clone, Copy)]
pub struct Progress<'a> {
    pub last: Option<&'a [u8]>,
    pub counts: [u8; GREATEST_HEIGHT as usize],
}
