// The first words of commands, and what stands behind each.
ghost use Rattle.std.specs.Prelude.{◌≡◌};
ghost use Rattle.sp_lang.specs.Commands.{name_of, places_of};

/// The first word of a command.
#[derive(Clone, Copy, Debug)]
pub enum Verb {
    Partitions,
    Regular,
    Conjugate,
    Dominates,
    Diagram,
    Hooks,
    Content,
    Core,
    Combine,
    Abacus,
    Good,
    Path,
    Mullineux,
    Induce,
    Ladders,
    Ladder,
    Row,
    Crystal,
    Decomposition,
    Block,
    Painter,
    Jantzen,
    Schaper,
    Dim,
    Dims,
    Certificate,
    Check,
    Convention,
    Restrict,
    Commutator,
    Branch,
    Product,
    Fillings,
    Blocks,
    Inverse,
    Simple,
    Cartan,
}

/// What a word of a command stands for.
#[derive(Clone, Copy, Debug)]
pub enum Place {
    /// The number e.
    E,
    /// A residue, below the number e that is the first word.
    Residue,
    /// A number of nodes.
    Count,
    /// A degree.
    Degree,
    /// A partition.
    Partition,
    /// A partition of the same degree as the first word.
    Peer,
    /// A partition that as many nodes are added to as the third word says.
    Grown,
    /// A partition whose degree, together with that of the first word, is within the limit.
    Factor,
    /// A partition that is e-regular, where e is the first word.
    Label,
    /// A partition that labels a row: e-regular or e-restricted, as the convention says.
    Heading,
    /// Partitions with bars between.
    Quotient,
    /// The weight of a block.
    Weight,
    /// The name of a painter.
    Name,
    /// The name of a convention.
    Convention,
}

pub(crate) const VERBS: [Verb; 37] = [
    Verb::Partitions,
    Verb::Regular,
    Verb::Conjugate,
    Verb::Dominates,
    Verb::Diagram,
    Verb::Hooks,
    Verb::Content,
    Verb::Core,
    Verb::Combine,
    Verb::Abacus,
    Verb::Good,
    Verb::Path,
    Verb::Mullineux,
    Verb::Induce,
    Verb::Ladders,
    Verb::Ladder,
    Verb::Row,
    Verb::Crystal,
    Verb::Decomposition,
    Verb::Block,
    Verb::Painter,
    Verb::Jantzen,
    Verb::Schaper,
    Verb::Dim,
    Verb::Dims,
    Verb::Certificate,
    Verb::Check,
    Verb::Convention,
    Verb::Restrict,
    Verb::Commutator,
    Verb::Branch,
    Verb::Product,
    Verb::Fillings,
    Verb::Blocks,
    Verb::Inverse,
    Verb::Simple,
    Verb::Cartan,
];

impl Verb {
    /// The word.
    pub(crate) fn name(&self) -> &'static [u8]
        ensures { result.now ≡ name_of self.now }
    {
        match *self {
            Verb::Partitions => b"partitions",
            Verb::Regular => b"regular",
            Verb::Conjugate => b"conjugate",
            Verb::Dominates => b"dominates",
            Verb::Diagram => b"diagram",
            Verb::Hooks => b"hooks",
            Verb::Content => b"content",
            Verb::Core => b"core",
            Verb::Combine => b"combine",
            Verb::Abacus => b"abacus",
            Verb::Good => b"good",
            Verb::Path => b"path",
            Verb::Mullineux => b"mullineux",
            Verb::Induce => b"induce",
            Verb::Ladders => b"ladders",
            Verb::Ladder => b"ladder",
            Verb::Row => b"row",
            Verb::Crystal => b"crystal",
            Verb::Decomposition => b"decomposition",
            Verb::Block => b"block",
            Verb::Painter => b"painter",
            Verb::Jantzen => b"jantzen",
            Verb::Schaper => b"schaper",
            Verb::Dim => b"dim",
            Verb::Dims => b"dims",
            Verb::Certificate => b"certificate",
            Verb::Check => b"check",
            Verb::Convention => b"convention",
            Verb::Restrict => b"restrict",
            Verb::Commutator => b"commutator",
            Verb::Branch => b"branch",
            Verb::Product => b"product",
            Verb::Fillings => b"fillings",
            Verb::Blocks => b"blocks",
            Verb::Inverse => b"inverse",
            Verb::Simple => b"simple",
            Verb::Cartan => b"cartan",
        }
    }

    /// What stands behind it.
    pub(crate) fn places(&self) -> &'static [Place]
        ensures { result.now ≡ places_of self.now }
    {
        match *self {
            Verb::Partitions => &[Place::Degree],
            Verb::Regular => &[Place::E, Place::Degree],
            Verb::Conjugate => &[Place::Partition],
            Verb::Dominates => &[Place::Partition, Place::Peer],
            Verb::Diagram => &[Place::E, Place::Partition],
            Verb::Hooks => &[Place::Partition],
            Verb::Content => &[Place::E, Place::Partition],
            Verb::Core => &[Place::E, Place::Partition],
            Verb::Combine => &[Place::E, Place::Partition, Place::Quotient],
            Verb::Abacus => &[Place::E, Place::Partition],
            Verb::Good => &[Place::E, Place::Partition],
            Verb::Path => &[Place::E, Place::Label],
            Verb::Mullineux => &[Place::E, Place::Label],
            Verb::Induce => &[Place::E, Place::Residue, Place::Count, Place::Grown],
            Verb::Ladders => &[Place::E, Place::Label],
            Verb::Ladder => &[Place::E, Place::Heading],
            Verb::Row => &[Place::E, Place::Heading],
            Verb::Crystal => &[Place::E, Place::Degree],
            Verb::Decomposition => &[Place::E, Place::Degree],
            Verb::Block => &[Place::E, Place::Partition, Place::Weight],
            Verb::Painter => &[Place::Name],
            Verb::Jantzen => &[Place::E, Place::Partition],
            Verb::Schaper => &[Place::E, Place::Degree],
            Verb::Dim => &[Place::Partition],
            Verb::Dims => &[Place::E, Place::Degree],
            Verb::Certificate => &[Place::E, Place::Degree],
            Verb::Check => &[],
            Verb::Convention => &[Place::Convention],
            Verb::Restrict => &[Place::E, Place::Residue, Place::Partition],
            Verb::Commutator => &[Place::E, Place::Residue, Place::Residue, Place::Partition],
            Verb::Branch => &[Place::E, Place::Residue, Place::Label],
            Verb::Product => &[Place::Partition, Place::Factor],
            Verb::Fillings => &[Place::Partition, Place::Factor, Place::Partition],
            Verb::Blocks => &[Place::E, Place::Degree],
            Verb::Inverse => &[Place::E, Place::Degree],
            Verb::Simple => &[Place::E, Place::Label],
            Verb::Cartan => &[Place::E, Place::Degree],
        }
    }
}
