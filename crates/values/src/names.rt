// Names: which bytes are one, and their order.
ghost use Rattle.std.specs.Prelude.{◌≡◌};
ghost use Rattle.values.specs.Values.{same_name};
ghost use Rattle.values.specs.Limits.{name_byte, name_bytes, dots, fit};
ghost use Rattle.values.specs.Order.{order as byte_order};

use std::cmp::Ordering;

// Whether a byte may stand in a name.
pub fn is_name_byte(b: u8) -> bool
    ensures { result ≡ name_byte b }
{
    matches!(b, b'0'..=b'9' | b'A'..=b'Z' | b'a'..=b'z' | b'_' | b'.' | b'-')
}

// Whether all of the bytes may stand in a name.
fn all_name_bytes(bytes: &[u8]) -> bool
    ensures { result ≡ name_bytes bytes.now }
{
    bytes.iter().all(|b| is_name_byte(*b))
}

// Whether the bytes are `.` or `..`, which are no names.
fn is_dots(bytes: &[u8]) -> bool
    ensures { result ≡ dots bytes.now }
{
    matches!(bytes, b"." | b"..")
}

// Whether the bytes are a name: 1 to 32 name bytes, neither `.` nor `..`.
pub fn is_name(bytes: &[u8]) -> bool
    ensures { result ≡ fit bytes.now }
{
    !bytes.is_empty() && bytes.len() <= 32 && !is_dots(bytes) && all_name_bytes(bytes)
}

// Whether two names, or any two runs of bytes, are the same: `==` in the words of the definition, by one equation, for code that asks
// for one word of many.
pub fn same(a: &[u8], b: &[u8]) -> bool
    ensures { result ≡ same_name a.now b.now }
{
    a == b
}

// Byte order, a shorter name before its extensions: `cmp` in the words of the definition, by one equation.
pub fn order(a: &[u8], b: &[u8]) -> Ordering
    ensures { result ≡ byte_order a.now b.now }
{
    a.cmp(b)
}
