// Entering members from their lines. All the paths of a binding's members begin with the same bytes, the prefix.
// Each step answers what it entered and the bytes behind its lines. The bytes and the levels are others at each call, so no struct
// holds them with the table.
ghost use Rattle.std.specs.Prelude.{◌≡◌, length, Decides};
ghost use Rattle.values.specs.Memory.{values};
ghost use Rattle.entering.specs.Levels.{front_name, GoesOn, HasLevel, HasValue, HasMember};
ghost use Rattle.entering.specs.Steps.{EntersLevel, EntersValue, EntersMember};

use crate::answers::Full;
use crate::leaves::enter_line;
use crate::singles::{enter_binding, enter_text};
use arrayvec::ArrayVec;
use values::{MOST_MEMBERS, Member, Number, Table, is_name_byte};

// How many bytes of a name the bytes begin with, by the name that they are; `scanner` has the same chain as the grammar counts them.
fn name_len(bytes: &[u8]) -> usize
    ensures { result ≡ length (front_name bytes.now) }
{
    bytes.iter().take_while(|b| is_name_byte(**b)).count()
}

// Whether there is one more line under a prefix.
fn goes_on(bytes: &[u8], prefix: &[u8]) -> bool
    ensures { Decides result (GoesOn prefix.now bytes.now) }
{
    !bytes.is_empty() && bytes.starts_with(prefix)
}

// Enters the value at a path, with which the bytes begin.
#[cycle(enter_member_enter_members_enter_value)]
fn enter_value<'a>(
    table: &mut Table,
    path: &[u8],
    bytes: &'a [u8],
    levels: usize,
) -> Result<(Number, &'a [u8]), Full>
    requires { HasValue path.now bytes.now levels }
    ensures { EntersValue path.now bytes.now levels (values table.old) result (values table.new) }
{
    let end = path.len();
    if bytes[end] == b'/' {
        return enter_members(table, &bytes[..end + 1], bytes, levels - 1);
    }
    enter_line(table, &bytes[end + 1..])
}

// Enters the first member under a prefix: its name, then its value.
#[cycle(enter_member_enter_members_enter_value)]
fn enter_member<'a>(
    table: &mut Table,
    prefix: &[u8],
    bytes: &'a [u8],
    levels: usize,
) -> Result<(Member, &'a [u8]), Full>
    requires { HasMember prefix.now bytes.now levels }
    ensures { EntersMember prefix.now bytes.now levels (values table.old) result (values table.new) }
{
    let start = prefix.len();
    let end = start + name_len(&bytes[start..]);
    let name = enter_text(table, &bytes[start..end])?;
    let (value, rest) = enter_value(table, &bytes[..end], bytes, levels)?;
    Ok((Member { name, value }, rest))
}

// Enters all members under a prefix, and then their binding, which has at most so many levels.
#[cycle(enter_member_enter_members_enter_value)]
pub(crate) fn enter_members<'a>(
    table: &mut Table,
    prefix: &[u8],
    bytes: &'a [u8],
    levels: usize,
) -> Result<(Number, &'a [u8]), Full>
    requires { HasLevel prefix.now bytes.now levels }
    ensures { EntersLevel prefix.now bytes.now levels (values table.old) result (values table.new) }
{
    let mut members = ArrayVec::<Member, MOST_MEMBERS>::new();
    let mut left = bytes;
    while goes_on(left, prefix) {
        let (member, rest) = enter_member(table, prefix, left, levels)?;
        members.push(member);
        left = rest;
    }
    let number = enter_binding(table, &members)?;
    Ok((number, left))
}
