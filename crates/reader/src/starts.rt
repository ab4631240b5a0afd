// What an atom may begin with, and how a term goes on.

// The first token of an atom.
#[derive(Clone, Copy, PartialEq, Eq, Debug)]
pub enum Start<'a> {
    // A quoted text, as it is written.
    Text(&'a [u8]),
    // TRUE or FALSE.
    Truth(bool),
    // `.`
    Dot,
    // `_run_tool`
    Tool,
    // Another word.
    Name(&'a [u8]),
    // `(`
    Open,
    // `[`
    Bracket,
}

// What follows an atom in a term.
#[derive(Clone, Copy, PartialEq, Eq, Debug)]
pub enum Way {
    // `/`: a member is taken.
    Pick,
    // `!`: a member is asked for.
    Has,
}
