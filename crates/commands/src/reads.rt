// Reading a command.
ghost use Rattle.std.specs.Prelude.{◌≡◌, map, IfOk};
ghost use Rattle.commands.specs.Words.{words_of, line_words, one_word, two_words, more_words, command_of, asked};

use crate::asked::Command;
use std::alloc::{AllocError, Global};
use trees::cut;

// The words of a line: its parts between blanks, empty ones left out. A run of blanks is passed over at once.
fn words(heap: Global, line: &[u8]) -> Result<Vec<&[u8]>, AllocError>
    ensures { IfOk result (λ v. map (λ x. x.now) v.items ≡ words_of line.now) }
{
    let mut words = Vec::new(heap);
    let mut left = line;
    while let Some(start) = left.iter().position(|b| *b != b' ') {
        let parts = cut(&left[start..], b' ');
        words.push(parts.first)?;
        left = parts.rest.unwrap_or(&[]);
    }
    Ok(words)
}

// What a single word asks for.
fn one_word<'a>(word: &[u8]) -> Command<'a>
    ensures { asked result ≡ one_word word.now }
{
    match word {
        b"help" => Command::Help,
        b"caches" => Command::Caches,
        _ => Command::Unknown,
    }
}

// What a word and the name of a file ask for.
fn two_words<'a>(word: &[u8], file: &'a [u8]) -> Command<'a>
    ensures { asked result ≡ two_words word.now file.now }
{
    match word {
        b"tree" => Command::Tree(file),
        _ => Command::Unknown,
    }
}

// What three words or more ask for, of which the first, the second and the last are these.
fn more_words<'a>(word: &[u8], name: &'a [u8], file: &'a [u8]) -> Command<'a>
    ensures { asked result ≡ more_words word.now name.now file.now }
{
    match word {
        b"tool" => Command::Tool(name, file),
        _ => Command::Unknown,
    }
}

// What words ask for.
pub fn command<'a>(words: &[&'a [u8]]) -> Command<'a>
    ensures { asked result ≡ command_of (map (λ x. x.now) words.now) }
{
    match words {
        [] => Command::Nothing,
        [word] => one_word(word),
        [word, file] => two_words(word, file),
        [word, name, .., file] => more_words(word, name, file),
    }
}

// The words of a line; a line that begins with `#` is a remark, and has none.
pub fn line_words(heap: Global, line: &[u8]) -> Result<Vec<&[u8]>, AllocError>
    ensures { IfOk result (λ v. map (λ x. x.now) v.items ≡ line_words line.now) }
{
    match line {
        [b'#', ..] => Ok(Vec::new(heap)),
        _ => words(heap, line),
    }
}
