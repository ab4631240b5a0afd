// Keys, under which a cache finds its entries.
use values::Number;

// What an entry is found by. Functions stand before tools, and keys of one kind in the order of their numbers.
#[derive(Clone, Copy, PartialEq, Eq, PartialOrd, Ord)]
pub enum Key {
    // A function's text, and the values of its key parameters, each in its place.
    Function {
        text: Number,
        values: [Option<Number>; 8],
    },
    // A tool, its version, and its command.
    Tool {
        name: Number,
        version: u16,
        command: Number,
    },
}
