// What the lines of a script say.

/// A block: by the number of a name, or by its address.
#[derive(Clone, Copy, Debug, PartialEq, Eq)]
pub enum Target {
    Name(u32),
    Addr(u64),
}

/// A command of a thread. Names are numbered from 0, in the order in which they first stand in the text.
#[derive(Clone, Copy, Debug, PartialEq, Eq)]
pub enum Command {
    Alloc {
        name: u32,
        n: u64,
        zero: bool,
    },
    Realloc {
        target: Target,
        n: u64,
        in_place: bool,
    },
    Free {
        target: Target,
    },
    Size {
        target: Target,
    },
    Get {
        target: Target,
        index: u64,
    },
    Put {
        target: Target,
        index: u64,
        value: u64,
    },
    Lock,
    Unlock,
    Walk,
    Compact,
}

/// What a line says that is not skipped.
#[derive(Clone, Copy, Debug, PartialEq, Eq)]
pub enum Line {
    Round,
    Thread,
    Runs(Command),
}

/// A line with its number in the text, from 1.
#[derive(Clone, Copy, Debug, PartialEq, Eq)]
pub struct NumberedLine {
    pub number: u32,
    pub line: Line,
}

/// A command with the number of its line.
#[derive(Clone, Copy, Debug, PartialEq, Eq)]
pub struct CommandLine {
    pub line: u32,
    pub command: Command,
}
