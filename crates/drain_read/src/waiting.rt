//! A list that is used up from its front, and whose items may own memory.
ghost use Rattle.std.specs.Prelude.{◌≡◌};
ghost use Rattle.plfs_types.specs.Queues.{Gives};

use plfs_types::Sequence;
use std::marker::Model;

/// What is left of a list. In contracts it is the plain list.
#[derive(Drop)]
pub struct Waiting<T> {
    backwards: Vec<T>,
}

impl<T> Model for Waiting<T> {
    ghost use Rattle.std.specs.Prelude.{List, reverse};
    ghost use Rattle.std.specs.Coded.{coded_list};

    ghost Value = { List T };

    ghost coded = { coded_list T.code };

    ghost view = { λ w. reverse w.backwards.items };
}

impl<T: Drop> Waiting<T> {
    /// All of the list is left.
    pub fn of(items: Sequence<T>) -> Self
        ensures { result ≡ items }
    {
        let mut backwards = items.into_vec();
        backwards.reverse();
        Waiting { backwards }
    }

    /// Takes the first item.
    pub fn pop(&mut self) -> Option<T>
        ensures { Gives self.old result self.new }
    {
        self.backwards.pop()
    }
}
