ghost use Rattle.std.specs.Prelude.{◌≡◌, ℕ};
ghost use Rattle.sp_core.specs.declared.piece.Key.{Key};

/// What a table of rows is about: the e and the degree of its partitions, and the limit on coefficients.
#[derive(Clone, Copy, PartialEq, Eq, Debug)]
pub struct Key {
    pub e: u8,
    pub degree: u8,
    pub limit: u128,
}

/// A finished row, which tells the key of its table and its number there.
pub trait Piece: Send + Sync + Drop {
    ghost key: { Self → Key };

    ghost number: { Self → ℕ };

    fn key(&self) -> Key
        ensures { result ≡ key self.now };

    fn number(&self) -> usize
        ensures { result ≡ number self.now };
}
