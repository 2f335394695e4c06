ghost use Rattle.std.specs.Prelude.{◌≡◌, [], ◌∷◌, ◌++◌, IfOk, IfNone, IfSome};
ghost use Rattle.std.specs.Option.{option_copied};
ghost use Rattle.shared_map.specs.Entries.{IsRising, put, find, remove};

use crate::sought::Sought;
use std::alloc::{AllocError, Global};
use std::cmp::Ordering;
use std::marker::Model;
use std::rc::Rc;

/// A balanced tree of entries, in the order of their keys (Adelson-Velsky and Landis, 1962). Its nodes are
/// never changed, so trees share them.
#[cycle(tree)]
#[derive(Drop)]
pub(crate) struct Tree<K: Ord, V> {
    top: Option<Rc<Fork<K, V>>>,
}

#[cycle(tree)]
#[derive(Drop)]
struct Fork<K: Ord, V> {
    left: Tree<K, V>,
    entry: Rc<(K, V)>,
    height: u8,
    right: Tree<K, V>,
}

impl<K: Ord, V> Model for Tree<K, V> {
    ghost use Rattle.std.specs.Prelude.{List, length};

    ghost Value = { List (K × V) };

    ghost use Rattle.shared_map.specs.Tree.{entries};
    ghost use Rattle.shared_map.specs.Entries.{IsRising};

    ghost view = { λ m. entries m.top };

    ghost invariant = { λ m. IsRising K.cmp (entries m.top) };

    ghost size = { length };

    ghost use Rattle.std.proofs.Common.{arith, length-append};

    ghost size_decreases = { λ a h. Prim.grind (arith, length-append) };
}

impl<K: Ord + Drop, V: Drop> Tree<K, V> {
    /// The tree with no entries.
    pub(crate) fn new() -> Self
        ensures { result ≡ [] }
    {
        Tree { top: None }
    }

    /// What is at a key.
    pub(crate) fn get<Q: Sought<K>>(&self, key: Q) -> Option<&V>
        ensures { option_copied result ≡ find (Q.compare key) self.now }
    {
        match &self.top {
            None => None,
            Some(node) => match key.compare(&node.entry.0) {
                Ordering::Less => node.left.get(key),
                Ordering::Equal => Some(&node.entry.1),
                Ordering::Greater => node.right.get(key),
            },
        }
    }

    /// The same tree.
    pub(crate) fn copy(&self) -> Result<Self, AllocError>
        ensures { IfOk result (λ m. m ≡ self.now) }
    {
        match &self.top {
            None => Ok(Tree::new()),
            Some(node) => Ok(Tree {
                top: Some(node.clone()?),
            }),
        }
    }

    /// The fork at the top, if there are entries.
    fn fork(&self) -> Option<&Fork<K, V>>
        ensures none { IfNone result (self.now ≡ []) }
        ensures some { IfSome result (λ fork. self.now
            ≡ fork.now.left ++ fork.now.entry.value ∷ fork.now.right) }
        ensures rising { IfSome result (λ fork. IsRising K.cmp
            (fork.now.left ++ fork.now.entry.value ∷ fork.now.right)) }
    {
        match &self.top {
            None => None,
            Some(node) => Some(node.as_ref()),
        }
    }

    /// How high the tree is, which no clause names.
    pub(crate) fn height(&self) -> u8 {
        match &self.top {
            None => 0,
            Some(node) => node.height,
        }
    }
}

/// A fork over two trees.
fn forked<K: Ord + Drop, V: Drop>(
    alloc: Global,
    left: &Tree<K, V>,
    entry: &Rc<(K, V)>,
    right: &Tree<K, V>,
) -> Result<Tree<K, V>, AllocError>
    requires { IsRising K.cmp (left.now ++ entry.now.value ∷ right.now) }
    ensures { IfOk result (λ m. m ≡ left.now ++ entry.now.value ∷ right.now) }
{
    let height = left.height().max(right.height()).saturating_add(1);
    let node = Rc::new(
        alloc,
        Fork {
            left: left.copy()?,
            entry: entry.clone()?,
            height,
            right: right.copy()?,
        },
    )?;
    Ok(Tree { top: Some(node) })
}

/// A fork whose left side is too high, turned so that it is lower.
fn lean_left<K: Ord + Drop, V: Drop>(
    alloc: Global,
    left: &Tree<K, V>,
    entry: &Rc<(K, V)>,
    right: &Tree<K, V>,
) -> Result<Tree<K, V>, AllocError>
    requires { IsRising K.cmp (left.now ++ entry.now.value ∷ right.now) }
    ensures { IfOk result (λ m. m ≡ left.now ++ entry.now.value ∷ right.now) }
{
    if let Some(node) = left.fork() {
        let (outer, inner) = (&node.left, &node.right);
        if outer.height() >= inner.height() {
            let lower = forked(alloc, inner, entry, right)?;
            return forked(alloc, outer, &node.entry, &lower);
        }
        if let Some(middle) = inner.fork() {
            let first = forked(alloc, outer, &node.entry, &middle.left)?;
            let last = forked(alloc, &middle.right, entry, right)?;
            return forked(alloc, &first, &middle.entry, &last);
        }
    }
    forked(alloc, left, entry, right)
}

/// A fork whose right side is too high, turned so that it is lower.
fn lean_right<K: Ord + Drop, V: Drop>(
    alloc: Global,
    left: &Tree<K, V>,
    entry: &Rc<(K, V)>,
    right: &Tree<K, V>,
) -> Result<Tree<K, V>, AllocError>
    requires { IsRising K.cmp (left.now ++ entry.now.value ∷ right.now) }
    ensures { IfOk result (λ m. m ≡ left.now ++ entry.now.value ∷ right.now) }
{
    if let Some(node) = right.fork() {
        let (inner, outer) = (&node.left, &node.right);
        if outer.height() >= inner.height() {
            let lower = forked(alloc, left, entry, inner)?;
            return forked(alloc, &lower, &node.entry, outer);
        }
        if let Some(middle) = inner.fork() {
            let first = forked(alloc, left, entry, &middle.left)?;
            let last = forked(alloc, &middle.right, &node.entry, outer)?;
            return forked(alloc, &first, &middle.entry, &last);
        }
    }
    forked(alloc, left, entry, right)
}

/// A fork over two trees, of which one may have changed by an entry.
fn balanced<K: Ord + Drop, V: Drop>(
    alloc: Global,
    left: &Tree<K, V>,
    entry: &Rc<(K, V)>,
    right: &Tree<K, V>,
) -> Result<Tree<K, V>, AllocError>
    requires { IsRising K.cmp (left.now ++ entry.now.value ∷ right.now) }
    ensures { IfOk result (λ m. m ≡ left.now ++ entry.now.value ∷ right.now) }
{
    let (l, r) = (left.height(), right.height());
    if l > r.saturating_add(1) {
        lean_left(alloc, left, entry, right)
    } else if r > l.saturating_add(1) {
        lean_right(alloc, left, entry, right)
    } else {
        forked(alloc, left, entry, right)
    }
}

/// The first entry below a fork, and the others.
fn split_first<K: Ord + Drop, V: Drop>(
    alloc: Global,
    node: &Fork<K, V>,
) -> Result<(Rc<(K, V)>, Tree<K, V>), AllocError>
    requires { IsRising K.cmp (node.now.left ++ node.now.entry.value ∷ node.now.right) }
    ensures { IfOk result (λ p. p.0.value ∷ p.1 ≡ node.now.left ++ node.now.entry.value ∷ node.now.right) }
{
    let left = &node.left;
    match &left.top {
        None => Ok((node.entry.clone()?, node.right.copy()?)),
        Some(below) => {
            let (first, rest) = split_first(alloc, below)?;
            let others = balanced(alloc, &rest, &node.entry, &node.right)?;
            Ok((first, others))
        }
    }
}

/// Two trees, all of whose keys rise, as one.
fn joined<K: Ord + Drop, V: Drop>(
    alloc: Global,
    left: &Tree<K, V>,
    right: &Tree<K, V>,
) -> Result<Tree<K, V>, AllocError>
    requires { IsRising K.cmp (left.now ++ right.now) }
    ensures { IfOk result (λ m. m ≡ left.now ++ right.now) }
{
    match right.fork() {
        None => left.copy(),
        Some(node) => {
            let (first, rest) = split_first(alloc, node)?;
            balanced(alloc, left, &first, &rest)
        }
    }
}

impl<K: Ord + Drop, V: Drop> Tree<K, V> {
    /// The tree with one more entry, in place of that of an equal key.
    pub(crate) fn with(&self, alloc: Global, entry: &Rc<(K, V)>) -> Result<Self, AllocError>
        ensures { IfOk result (λ m. m ≡ put K.cmp entry.now.value self.now) }
    {
        let Some(node) = self.fork() else {
            let none = Tree::new();
            return forked(alloc, &none, entry, &none);
        };
        match entry.0.cmp(&node.entry.0) {
            Ordering::Less => {
                let left = node.left.with(alloc, entry)?;
                balanced(alloc, &left, &node.entry, &node.right)
            }
            Ordering::Equal => forked(alloc, &node.left, entry, &node.right),
            Ordering::Greater => {
                let right = node.right.with(alloc, entry)?;
                balanced(alloc, &node.left, &node.entry, &right)
            }
        }
    }

    /// The tree without the entry at a key.
    pub(crate) fn without<Q: Sought<K>>(&self, alloc: Global, key: Q) -> Result<Self, AllocError>
        ensures { IfOk result (λ m. m ≡ remove (Q.compare key) self.now) }
    {
        let Some(node) = self.fork() else {
            return Ok(Tree::new());
        };
        match key.compare(&node.entry.0) {
            Ordering::Less => {
                let left = node.left.without(alloc, key)?;
                balanced(alloc, &left, &node.entry, &node.right)
            }
            Ordering::Equal => joined(alloc, &node.left, &node.right),
            Ordering::Greater => {
                let right = node.right.without(alloc, key)?;
                balanced(alloc, &node.left, &node.entry, &right)
            }
        }
    }
}
