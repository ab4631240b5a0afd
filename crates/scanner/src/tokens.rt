// Tokens, which borrow from the model's bytes.

// A token.
#[derive(Clone, Copy, PartialEq, Eq, Debug)]
pub enum Token<'a> {
    // A word.
    Word(&'a [u8]),
    // What stands between quotes, with its escapes as they are written.
    Text(&'a [u8]),
    // `==`
    Same,
    // A single byte.
    Sign(u8),
}

// No token stands in front.
#[derive(Clone, Copy, PartialEq, Eq, Debug)]
pub struct NoToken;

// What comes next in a model, and its place: a token, none at the end of the model, or what is no token.
#[derive(Clone, Copy, PartialEq, Eq, Debug)]
pub struct Next<'a> {
    pub place: usize,
    pub token: Result<Option<Token<'a>>, NoToken>,
}
