// A tree file that was accepted.
ghost use Rattle.std.specs.Prelude.{◌≡◌, true};
ghost use Rattle.trees.specs.Files.{read_tree, accepted};

// The bytes of a tree file that is accepted: whoever makes one shows that. Its meaning is the value read from them.
#[derive(Clone, Copy)]
pub struct Tree<'a> {
    pub bytes: &'a [u8],
    ghost read: { accepted (read_tree bytes.now) ≡ true },
}
