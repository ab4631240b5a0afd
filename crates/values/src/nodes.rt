// What the table keeps of each value.
ghost use Rattle.std.specs.Prelude.{◌≡◌, ◌+◌, ◌≤◌, length};
ghost use Rattle.values.specs.Nodes.{part};

// A stretch of a pool. It has 16-bit numbers, so that a node stays small; a stretch of lent answers (`tools::Span`) may lie anywhere.
#[derive(Clone, Copy)]
pub struct Span {
    pub start: u16,
    pub len: u16,
}

impl Span {
    // What the stretch has of its pool.
    pub fn of<T>(self, pool: &[T]) -> &[T]
        requires { self.start + self.len ≤ length pool.now }
        ensures { result.now ≡ part pool.now self }
    {
        let start = self.start as usize;
        let end = start + self.len as usize;
        &pool[start..end]
    }
}

// A value in memory: a text is a stretch of the bytes, a binding one of the members, with its height.
#[derive(Clone, Copy)]
pub enum Node {
    Truth(bool),
    Text(Span),
    Binding(Span, u8),
}
