ghost use Rattle.std.specs.Prelude.{◌≡◌};

use std::marker::Model;

/// A list that is owned, and that contracts compare with a definition's value: they see its items.
#[derive(Debug, Drop)]
pub struct List<T> {
    items: Vec<T>,
}

impl<T> Model for List<T> {
    ghost use Rattle.std.specs.Prelude as std;
    ghost use Rattle.std.specs.Coded.{coded_list};

    ghost Value = { std.List T };

    ghost coded = { coded_list T.code };

    ghost view = { λ l. l.items.items };
}

impl<T> List<T> {
    /// The list of a vector, which it keeps as it is.
    pub fn new(v: Vec<T>) -> List<T>
        ensures { result ≡ v.items }
    {
        List { items: v }
    }

    /// The items.
    pub fn as_slice(&self) -> &[T]
        ensures { result.now ≡ self.now }
    {
        self.items.as_slice()
    }
}
