// Where a listing goes: it is counted, or it fills a lent buffer.
ghost use Rattle.std.specs.Prelude.{◌≤◌, length};

// Counts bytes: how many more would have room.
#[derive(Drop)]
pub struct Count {
    pub(crate) room: usize,
}

// A lent buffer, filled from its front, and how many bytes were put so far.
// It holds the whole buffer, and not what is left of it, since what was put is told by the buffer's front.
#[derive(Drop)]
pub struct Fill<'b> {
    pub(crate) buffer: &'b mut [u8],
    pub(crate) at: usize,
    ghost within: { at ≤ length buffer.now },
}
