//! A source of keys in memory.
ghost use Rattle.std.specs.Prelude.{◌≡◌, ◌∷◌, [], Some};
ghost use Rattle.worker_core.specs.Lists.{next_key, keys_after};

use crate::KeySource;
use common_types::ToldList;
use farm_types::Key;
use std::marker::Model;

/// A source that gives its keys in their order, and then counts on from the last one, or from 1 where it has none.
/// After the greatest number comes 0. It tells its keys.
///
/// Contracts see it as the keys of its list that are left, the number of the last key given, and the keys given.
#[derive(Drop)]
pub struct ListKeys {
    keys: Vec<Key>,
    last: u128,
    past: ToldList<Key>,
}

impl Model for ListKeys {
    ghost use Rattle.worker_core.specs.Lists.{KeysInMemory};

    ghost Value = { KeysInMemory };

    ghost view = { λ k. record { left = k.keys.items; last = k.last; told = k.past } };
}

impl ListKeys {
    /// A source of these keys, of which none was given yet.
    pub fn of(keys: Vec<Key>) -> ListKeys
        ensures { result ≡ record { left = keys.items; last = 0; told = [] } }
    {
        ListKeys {
            keys,
            last: 0,
            past: ToldList::new(),
        }
    }
}

impl KeySource for ListKeys {
    ghost told = { λ k. Some k.told };

    fn next(&mut self) -> Key
        ensures next { result ≡ next_key self.old }
        ensures after { self.new ≡ keys_after self.old }
    {
        let key = if self.keys.is_empty() {
            Key(self.last.wrapping_add(1))
        } else {
            self.keys.remove(0)
        };
        self.last = key.0;
        self.past.tell(&key);
        key
    }
}
