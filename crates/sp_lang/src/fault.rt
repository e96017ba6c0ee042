/// Why a line says no command. Of several reasons it is the first in the order in which `read_command` looks.
#[derive(Clone, Copy, Debug, PartialEq, Eq, Drop)]
pub enum LineFault {
    /// The first word is no command.
    UnknownCommand,
    /// The command has another number of words.
    WordCount,
    /// A word in the place of a number is none.
    NotNumber,
    /// A word in the place of a partition is none, or a piece of a quotient isn't one.
    BadPartition,
    /// e is below 2 or past 64.
    BadE,
    /// A degree is past `DEGREE_LIMIT`, or that of two factors together.
    DegreePast,
    /// The partition must be e-regular and isn't.
    NotRegular,
    /// The partition must be e-restricted, as its convention says, and isn't.
    NotRestricted,
    /// The residue is not below e.
    BadResidue,
    /// The line is longer than `LINE_LIMIT` bytes.
    LongLine,
    /// A byte is no printable character of ASCII, and no tab.
    BadByte,
    /// The two partitions are of different degrees.
    DegreesDiffer,
    /// The word is no convention.
    UnknownConvention,
    /// No memory was found for the command.
    Memory,
}
