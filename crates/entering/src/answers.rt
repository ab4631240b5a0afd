// What entering answers.

// The table has no room for all the values of the tree.
#[derive(Clone, Copy, PartialEq, Eq, Debug)]
pub struct Full;
