//! What is left of a list whose items are taken from the front.

ghost use Rattle.std.specs.Prelude.{◌≡◌, ◌∷◌, [], IfSome, true};

use saw_wire::Items;
use std::collections::VecDeque;
use std::marker::Model;

/// What is left of a list, seen as the list of its items.
#[derive(Drop)]
pub struct Rest<T: Drop> {
    held: VecDeque<T>,
}

impl<T: Drop> Model for Rest<T> {
    ghost use Rattle.std.specs.Prelude.{List};

    ghost Value = { List T };

    ghost view = { λ rest. rest.held.items };
}

impl<T: Drop> Rest<T> {
    /// The whole list, with no copy made.
    pub fn of(items: Items<T>) -> Self
        ensures { result ≡ items }
    {
        Rest {
            held: VecDeque::from_vec(items.into_vec()),
        }
    }

    /// Takes the first item.
    pub fn next(&mut self) -> Option<T>
        ensures { IfSome result (λ item. self.old ≡ item ∷ self.new) }
    {
        self.held.pop_front()
    }

    /// Whether nothing is left.
    pub fn is_empty(&self) -> bool
        ensures { result ≡ true → self.now ≡ [] }
    {
        self.held.is_empty()
    }
}
