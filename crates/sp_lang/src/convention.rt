// Which partitions label the rows, and the words that choose them.
ghost use Rattle.std.specs.Prelude.{◌≡◌};
ghost use Rattle.sp_lang.specs.Convention.{name_of, label_in, convention_of as named};

use sp_partition::Partition;

/// The partitions that label rows and columns.
#[derive(Clone, Copy, Debug, PartialEq, Eq)]
pub enum Convention {
    /// The e-regular ones, after Dipper and James.
    Regular,
    /// The e-restricted ones, after James and Mathas: the conjugates of the e-regular ones.
    Restricted,
}

const CONVENTIONS: [Convention; 2] = [Convention::Regular, Convention::Restricted];

impl Convention {
    /// The word that chooses it.
    pub fn name(&self) -> &'static [u8]
        ensures { result.now ≡ name_of self.now }
    {
        match *self {
            Convention::Regular => b"regular",
            Convention::Restricted => b"restricted",
        }
    }

    /// The partition that p stands for: p itself, or its conjugate.
    pub fn label(&self, p: &Partition) -> Partition
        ensures { result ≡ label_in self.now p.now }
    {
        match *self {
            Convention::Regular => *p,
            Convention::Restricted => p.conjugate(),
        }
    }
}

/// The convention that a word chooses.
pub(crate) fn convention_of(word: &[u8]) -> Option<Convention>
    ensures { result ≡ named word.now }
{
    CONVENTIONS
        .iter()
        .find(|convention| convention.name() == word)
        .copied()
}
