// What the value table is made of, and what it answers.

// The number of a value: its position in the table.
pub type Number = u16;

// The most that a table holds: values, bytes of text, members.
pub const MAX_VALUES: usize = 2048;

pub const MAX_TEXT: usize = 32768;

pub const MAX_MEMBERS: usize = 4096;

// The most that a value has: bytes of a text, members of a binding, height.
pub const LONGEST_TEXT: usize = 1024;

pub const MOST_MEMBERS: usize = 64;

pub const GREATEST_HEIGHT: u8 = 16;

// A member of a binding: the number of its name, which is a text, and that of its value.
#[derive(Clone, Copy, Default, PartialEq, Eq, PartialOrd, Ord)]
pub struct Member {
    pub name: Number,
    pub value: Number,
}

// What stands under a number. Truth values stand before texts, and those before bindings.
#[derive(Clone, Copy, PartialEq, Eq, PartialOrd, Ord)]
pub enum Content<'a> {
    Truth(bool),
    Text(&'a [u8]),
    Binding(&'a [Member]),
}

// Why a value is not entered.
#[derive(Clone, Copy, PartialEq, Eq, Debug)]
pub enum Unentered {
    // A text of over 1,024 bytes.
    TooLong,
    // A binding of over 64 members.
    TooMany,
    // A binding of height over 16.
    TooHigh,
    // A member's number that is not in the table, a name that is none, or names that do not ascend.
    Unfit,
    // No room left in the table.
    Full,
}
