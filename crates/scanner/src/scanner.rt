// Where a scanner stands in its model.
ghost use Rattle.std.specs.Prelude.{◌≤◌, length};

// A scanner means the tokens that are still to come.
#[derive(Drop)]
pub struct Scanner<'a> {
    pub(crate) model: &'a [u8],
    pub(crate) at: usize,
    ghost within: { at ≤ length model.now },
}
