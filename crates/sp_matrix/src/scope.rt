// Which partitions a table has, and what its cells show.
ghost use Rattle.std.specs.Prelude.{◌≡◌, ◌≤◌};
ghost use Rattle.sp_matrix.specs.Scope.{is_in};

use sp_abacus::core;
use sp_partition::Partition;

/// Which partitions are lines and columns.
#[derive(Clone, Copy)]
pub(crate) enum Scope {
    All,
    /// Those with this core.
    Block(Partition),
}

/// What a cell shows of a coefficient.
#[derive(Clone, Copy)]
pub(crate) enum Form {
    Polynomial,
    /// Its value at v = 1.
    Constant,
}

impl Scope {
    pub(crate) fn has(&self, e: u8, p: &Partition) -> bool
        requires e_least { 2 ≤ e }
        requires e_most { e ≤ 64 }
        ensures { result ≡ is_in e self.now p.now }
    {
        match self {
            Scope::All => true,
            Scope::Block(kappa) => core(e, p) == *kappa,
        }
    }
}
