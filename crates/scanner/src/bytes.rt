// Kinds of bytes in a model.
ghost use Rattle.std.specs.Prelude.{◌≡◌};
ghost use Rattle.grammar.specs.Tokens.{blank, sign_byte, printable};
ghost use Rattle.scanner.specs.Views.{pair_byte};

// Whether a byte parts tokens.
pub fn is_blank(b: u8) -> bool
    ensures { result ≡ blank b }
{
    matches!(b, b' ' | b'\t' | b'\n')
}

// Whether a byte is a token by itself.
pub fn is_sign(b: u8) -> bool
    ensures { result ≡ sign_byte b }
{
    matches!(
        b,
        b'(' | b')' | b'{' | b'}' | b'[' | b']' | b',' | b';' | b'=' | b'+' | b'/' | b'!'
    )
}

// Whether a byte may stand in quotes.
pub fn is_printable(b: u8) -> bool
    ensures { result ≡ printable b }
{
    matches!(b, b' '..=b'~')
}

// The byte that a backslash and this character stand for in quotes, or none. Tree files have other escapes; a set of them as a parameter
// would be longer than this function and that of tree files.
pub fn escaped_byte(c: char) -> Option<u8>
    ensures { result ≡ pair_byte c }
{
    match c {
        'n' => Some(b'\n'),
        't' => Some(b'\t'),
        '\\' => Some(b'\\'),
        '"' => Some(b'"'),
        _ => None,
    }
}
