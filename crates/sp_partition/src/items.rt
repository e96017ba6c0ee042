// A vector that contracts see as its list.
ghost use Rattle.std.specs.Prelude.{◌≡◌};

use std::marker::Model;

/// A vector, for the fields of plain public types.
#[derive(Debug, Drop)]
pub struct Items<T> {
    list: Vec<T>,
}

impl<T> Model for Items<T> {
    ghost use Rattle.std.specs.Prelude.{List};

    ghost Value = { List T };

    ghost view = { λ i. i.list.items };
}

impl<T> Items<T> {
    /// These items.
    pub fn of(list: Vec<T>) -> Items<T>
        ensures { result ≡ list.items }
    {
        Items { list }
    }

    /// The items, in order.
    pub fn as_slice(&self) -> &[T]
        ensures { result.now ≡ self.now }
    {
        &self.list
    }

    /// The vector again.
    pub fn into_vec(self) -> Vec<T>
        ensures { result.items ≡ self }
    {
        let Items { list } = self;
        list
    }
}
