//! A list that is used up from its front.
ghost use Rattle.std.specs.Prelude.{◌≡◌, None, Some, [], ◌∷◌};
ghost use Rattle.plfs_types.specs.Queues.{Gives};

use crate::list::Sequence;
use std::marker::Model;

/// What is left of a list. In contracts it is the plain list.
#[derive(Drop)]
pub struct Queue<T> {
    items: Sequence<T>,
    at: usize,
}

impl<T> Model for Queue<T> {
    ghost use Rattle.std.specs.Prelude.{List, drop};
    ghost use Rattle.std.specs.Coded.{coded_list};

    ghost Value = { List T };

    ghost coded = { coded_list T.code };

    ghost view = { λ q. drop q.at q.items };
}

impl<T: Copy> Queue<T> {
    /// All of the list is left.
    pub fn of(items: Sequence<T>) -> Self
        ensures { result ≡ items }
    {
        Queue { items, at: 0 }
    }

    /// Takes the first item.
    pub fn pop(&mut self) -> Option<T>
        ensures { Gives self.old result self.new }
    {
        let item = *self.items.as_slice().get(self.at)?;
        self.at += 1;
        Some(item)
    }
}
