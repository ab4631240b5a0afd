// Kinds of tokens.
ghost use Rattle.std.specs.Prelude.{◌≡◌, length};
ghost use Rattle.grammar.specs.Tokens.{written};
ghost use Rattle.grammar.specs.Words.{reserved};
ghost use Rattle.grammar.specs.Grammar.{if_so, a_sign, a_same, the_word, a_way, a_start, a_beginning, start_of_word};
ghost use Rattle.scanner.specs.Views.{meaning};
ghost use Rattle.reader.specs.Views.{way_of, start_of};

use crate::starts::{Start, Way};
use scanner::Token;
use values::same;

// How many bytes a token has.
pub fn token_len(token: Token<'_>) -> usize
    ensures { result ≡ length (written (meaning token.entry)) }
{
    match token {
        Token::Word(word) => word.len(),
        Token::Text(text) => text.len() + 2,
        Token::Same => 2,
        Token::Sign(_) => 1,
    }
}

// Whether a token is this sign.
pub fn is_sign(token: Token<'_>, sign: u8) -> bool
    ensures { a_sign sign (meaning token.entry) ≡ if_so result }
{
    token == Token::Sign(sign)
}

// Whether a token is `==`.
pub fn is_same(token: Token<'_>) -> bool
    ensures { a_same (meaning token.entry) ≡ if_so result }
{
    token == Token::Same
}

// Whether a token is this word.
pub fn is_word(token: Token<'_>, word: &[u8]) -> bool
    ensures { the_word word.now (meaning token.entry) ≡ if_so result }
{
    token == Token::Word(word)
}

// How a token leads on in a term, if it does.
pub fn way(token: Token<'_>) -> Option<Way>
    ensures { a_way (meaning token.entry) ≡ way_of result }
{
    match token {
        Token::Sign(b'/') => Some(Way::Pick),
        Token::Sign(b'!') => Some(Way::Has),
        _ => None,
    }
}

// Whether a word may not be the name of a function or parameter. A `match` on the words was tried, here and in `word_start`: it tests
// them byte by byte, and the proof of 8 of its ways out, and of the 9 bytes of `_run_tool`, did not close.
pub fn is_reserved(word: &[u8]) -> bool
    ensures { result ≡ reserved word.now }
{
    same(word, b"if")
        || same(word, b"then")
        || same(word, b"else")
        || same(word, b"return")
        || same(word, b"key")
        || same(word, b"TRUE")
        || same(word, b"FALSE")
}

// What atom a word begins, if it does.
fn word_start(word: &[u8]) -> Option<Start<'_>>
    ensures { start_of_word word.now ≡ start_of result }
{
    if same(word, b"TRUE") {
        Some(Start::Truth(true))
    } else if same(word, b"FALSE") {
        Some(Start::Truth(false))
    } else if same(word, b".") {
        Some(Start::Dot)
    } else if same(word, b"_run_tool") {
        Some(Start::Tool)
    } else if is_reserved(word) {
        None
    } else {
        Some(Start::Name(word))
    }
}

// What atom a token begins, if it does.
pub fn start(token: Token<'_>) -> Option<Start<'_>>
    ensures { a_start (meaning token.entry) ≡ start_of result }
{
    match token {
        Token::Word(word) => word_start(word),
        Token::Text(text) => Some(Start::Text(text)),
        Token::Sign(b'(') => Some(Start::Open),
        Token::Sign(b'[') => Some(Start::Bracket),
        _ => None,
    }
}

// Whether a token may begin an expression.
pub fn begins(token: Token<'_>) -> bool
    ensures { a_beginning (meaning token.entry) ≡ if_so result }
{
    start(token).is_some() || is_word(token, b"if")
}
