ghost use Rattle.std.specs.Prelude.{◌≡◌, [], IfOk, OnOk, OnErr, None, Some, cond};
ghost use Rattle.std.specs.BTreeMap.{is_at};
ghost use Rattle.std.specs.Option.{option_copied, is_some};
ghost use Rattle.std.specs.declared.cmp.Ordering.{Ordering};
ghost use Rattle.shared_map.specs.Entries.{put, find, remove};
ghost use Rattle.shared_map.specs.Search.{IsSearch, AreApart};

use crate::sought::Sought;
use crate::tree::Tree;
use std::alloc::{AllocError, Global};
use std::marker::Model;
use std::rc::Rc;

/// A map from keys in their order. A copy shares what it has in common with its original. Each map costs only
/// what changes in it.
#[derive(Drop)]
pub struct SharedMap<K: Ord, V> {
    alloc: Global,
    tree: Tree<K, V>,
}

impl<K: Ord, V> Model for SharedMap<K, V> {
    ghost use Rattle.std.specs.Prelude.{List};

    ghost Value = { List (K × V) };

    ghost view = { λ m. m.tree };

    ghost use Rattle.shared_map.specs.Entries.{IsRising};

    ghost invariant = { λ m. IsRising K.cmp m.tree };
}

impl<K: Ord + Drop, V: Drop> SharedMap<K, V> {
    /// The map with no entries.
    pub fn new(alloc: Global) -> Self
        ensures { result ≡ [] }
    {
        SharedMap {
            alloc,
            tree: Tree::new(),
        }
    }

    /// What is at a key.
    pub fn get<Q: Sought<K>>(&self, key: Q) -> Option<&V>
        ensures { option_copied result ≡ find (Q.compare key) self.now }
    {
        self.tree.get(key)
    }

    /// Whether there is something at a key.
    pub fn contains<Q: Sought<K>>(&self, key: Q) -> bool
        ensures { result ≡ is_some (find (Q.compare key) self.now) }
    {
        self.get(key).is_some()
    }

    /// How high the tree of the entries is: some 1.44 times the binary logarithm of their number. No clause
    /// says so.
    pub fn height(&self) -> u8 {
        self.tree.height()
    }

    /// A map with the same entries, which it shares with this one. A change of either does not change the
    /// other.
    pub fn copy(&self) -> Result<Self, AllocError>
        ensures { IfOk result (λ m. m ≡ self.now) }
    {
        Ok(SharedMap {
            alloc: self.alloc,
            tree: self.tree.copy()?,
        })
    }

    /// Puts something at a key. The entry of an equal key, which maps copied from this one still have, is
    /// replaced.
    pub fn put(&mut self, key: K, value: V) -> Result<(), AllocError>
        ensures ok { OnOk result (self.new ≡ put K.cmp (key, value) self.old) }
        ensures finds { OnOk result ((compare : K → Ordering) → IsSearch K.cmp compare
            → find compare self.new ≡ cond (is_at compare key) (Some value) (find compare self.old)) }
        ensures err { OnErr result (self.new ≡ self.old) }
    {
        let entry = Rc::new(self.alloc, (key, value))?;
        self.tree = self.tree.with(self.alloc, &entry)?;
        Ok(())
    }

    /// Removes what is at a key, if there is something.
    pub fn remove<Q: Sought<K>>(&mut self, key: Q) -> Result<(), AllocError>
        ensures ok { OnOk result (self.new ≡ remove (Q.compare key) self.old) }
        ensures gone { OnOk result (find (Q.compare key) self.new ≡ None) }
        ensures others { OnOk result ((compare : K → Ordering) → AreApart (Q.compare key) compare
            → find compare self.new ≡ find compare self.old) }
        ensures err { OnErr result (self.new ≡ self.old) }
    {
        self.tree = self.tree.without(self.alloc, key)?;
        Ok(())
    }
}
