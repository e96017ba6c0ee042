// The name that a command takes.
ghost use Rattle.std.specs.Prelude.{◌≡◌};

use std::marker::Model;

/// A name, as a word of a line gives it.
///
/// Contracts see it as the list of its bytes. So two names are equal exactly where their bytes are, wherever these
/// stand in memory, and what a line says stays one equation.
#[derive(Debug, Drop)]
pub struct Name<'a> {
    bytes: &'a [u8],
}

impl<'a> Model for Name<'a> {
    ghost use Rattle.std.specs.Prelude.{List, ℕ};

    ghost Value = { List ℕ };

    ghost view = { λ name. name.bytes.now };
}

impl<'a> Name<'a> {
    /// The name with these bytes.
    pub fn of(bytes: &'a [u8]) -> Name<'a>
        ensures { result ≡ bytes.now }
    {
        Name { bytes }
    }

    /// The bytes of the name.
    pub fn as_bytes(&self) -> &'a [u8]
        ensures { result.now ≡ self.now }
    {
        self.bytes
    }
}
