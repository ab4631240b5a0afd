// What a command asks for.

// A command, with the name of the file that it is about.
#[derive(Clone, Copy, PartialEq, Eq, Debug)]
pub enum Command<'a> {
    // An empty line or a remark: nothing is asked.
    Nothing,
    // Check a tree file and list its value.
    Tree(&'a [u8]),
    // Run a tool over a tree file: the tool's name and the file's. The words between them are the tool's command.
    Tool(&'a [u8], &'a [u8]),
    // Fill, take from and clear each kind of cache.
    Caches,
    // Tell the commands.
    Help,
    // No such command.
    Unknown,
}
