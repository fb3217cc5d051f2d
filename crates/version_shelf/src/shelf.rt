//! How is a shelf read, and how is a changed copy made?

ghost use Rattle.std.specs.Prelude.{◌≡◌, ◌↔◌, ◌+◌, ◌<◌, ◌≤◌, ◌^◌, [], length, IsTrue, IfOk, Some, None, if◌then◌else◌, is_some};
ghost use Rattle.std.specs.Option.{option_copied};
ghost use Rattle.version_shelf.specs.Shelf.{ClonesEqual, HasRoom, most_rows, IsInOrder, get, count_of, rows_between, rows_from, with_key, without_key, ChangesAt};
ghost use Rattle.version_shelf.specs.Nodes.{AreNodes, flatten, least_leaves, least_rows, most_inners};

use crate::bound::Bound;
use crate::count::Count;
use crate::in_place::{inners_in, put_path_back, put_row_at, take_path};
use crate::leaf::{rows_with, rows_without};
use crate::node::{InnerNode, Node};
use crate::path::{inners_with, path_to};
use crate::range::Range;
use crate::shared_row::SharedRow;
use crate::walk::{walk_all, walk_between, walk_from};
use std::alloc::{AllocError, Global};
use std::marker::Model;

const MOST_ROWS: usize = 262_144;

/// A persistent (immutable) ordered map of at most 262,144 rows. A reader sees the same rows as long as it holds the
/// shelf. A writer makes one or two leaves, one or two inner nodes, and a root. It shares all other nodes with
/// the shelf that it changes.
#[derive(Drop)]
pub struct Shelf<K: Ord, V> {
    alloc: Global,
    len: usize,
    // The root; `None` if no row was ever added.
    inners: Option<Node<InnerNode<K, V>>>,
}

impl<K: Ord, V> Model for Shelf<K, V> {
    ghost use Rattle.std.specs.Prelude.{List};
    ghost use Rattle.version_shelf.specs.Nodes.{IsShelf, flatten, inners_of};

    ghost Value = { List (K × V) };

    ghost view = { λ shelf. flatten (flatten (inners_of shelf.inners)) };

    ghost invariant = { λ shelf. IsShelf K.cmp (inners_of shelf.inners) shelf.len };
}

impl<K: Ord + Clone, V: Clone> Shelf<K, V> {
    /// Returns a shelf without rows. Allocates no memory.
    pub fn new(alloc: Global) -> Shelf<K, V>
        ensures { result ≡ [] }
    {
        Shelf {
            alloc,
            len: 0,
            inners: None,
        }
    }

    /// Returns the number of rows. Allocates no memory.
    pub fn len(&self) -> usize
        ensures rows { result ≡ length self.now }
        ensures most { length self.now ≤ most_rows }
        ensures order { IsInOrder K.cmp self.now }
    {
        self.len
    }

    /// Returns true if there are fewer than 262,144 rows, so that `with` may be called. Allocates no memory.
    pub fn has_room(&self) -> bool
        ensures { IsTrue result ↔ HasRoom self.now }
    {
        self.len() < MOST_ROWS
    }

    /// Returns the value at the key, or `None` if no row has the key. Allocates no memory.
    pub fn get(&self, key: &K) -> Option<&V>
        ensures value { option_copied result ≡ get K.cmp self.now key.now }
        ensures order { IsInOrder K.cmp self.now }
    {
        self.find(key, &mut Count::new())
    }

    /// Returns the value at the key as `get` does. Adds the number of comparisons of keys, at most 32, to the count. The
    /// caller ensures that the count can grow by 32. Allocates no memory.
    pub fn find(&self, key: &K, count: &mut Count) -> Option<&V>
        requires room { count.old + 32 < 2 ^ 64 }
        ensures value { option_copied result ≡ get K.cmp self.now key.now }
        ensures order { IsInOrder K.cmp self.now }
        ensures counted { (count.old ≤ count.new) × (count.new ≤ count.old + 32) }
    {
        path_to(self.inners(), key, count).rows.value
    }

    /// Returns the rows with `lo <= key < hi`, in ascending order of keys; none if `hi <= lo`. The bounds need not be keys
    /// of the shelf. Allocates no memory.
    pub fn range<L: Bound<K>, H: Bound<K>>(&self, lo: &L, hi: &H) -> Range<'_, K, V>
        ensures rows { result ≡ rows_between K.cmp self.now (L.position lo.now) (H.position hi.now) }
        ensures order { IsInOrder K.cmp result }
        ensures most { length result ≤ most_rows }
    {
        Range::of(walk_between(self.inners(), lo, hi, &mut Count::new()))
    }

    /// Returns the rows with `lo <= key`, in ascending order of keys. The bound need not be a key of the shelf. Allocates no
    /// memory.
    pub fn range_from(&self, lo: &K) -> Range<'_, K, V>
        ensures rows { result ≡ rows_from K.cmp self.now lo.now }
        ensures order { IsInOrder K.cmp self.now }
    {
        Range::of(walk_from(self.inners(), lo, &mut Count::new()))
    }

    /// Returns all rows, in ascending order of keys. Allocates no memory.
    pub fn rows(&self) -> Range<'_, K, V>
        ensures rows { result ≡ self.now }
        ensures order { IsInOrder K.cmp self.now }
    {
        Range::of(walk_all(self.inners()))
    }

    /// Returns the shelf with this row, which replaces the row that has the key, if there is one. The caller ensures that
    /// there are fewer than 262,144 rows, even if it replaces one. It also ensures that clones of keys and of values equal
    /// them, although rows are shared, not cloned.
    pub fn with(&self, key: K, value: V) -> Result<Shelf<K, V>, AllocError>
        requires room { HasRoom self.now }
        requires keys { ClonesEqual K.is_clone }
        requires values { ClonesEqual V.is_clone }
        ensures rows { IfOk result (λ new. new ≡ with_key K.cmp self.now key value) }
        ensures map { IfOk result (λ new. ChangesAt K.cmp self.now new key (Some value)) }
        ensures count { IfOk result (λ new. length new + count_of K.cmp self.now key ≡ length self.now + 1) }
        ensures order { IfOk result (IsInOrder K.cmp) }
    {
        self.with_counted(key, value, &mut Count::new())
    }

    /// Returns the shelf with this row, as `with` does and under the same conditions. Adds to the count the number of rows
    /// and nodes put into new nodes, at most 1,024. The caller ensures that the count can grow by 1,024.
    pub fn with_counted(
        &self,
        key: K,
        value: V,
        count: &mut Count,
    ) -> Result<Shelf<K, V>, AllocError>
        requires room { HasRoom self.now }
        requires keys { ClonesEqual K.is_clone }
        requires values { ClonesEqual V.is_clone }
        requires count_room { count.old + 1024 < 2 ^ 64 }
        ensures rows { IfOk result (λ new. new ≡ with_key K.cmp self.now key value) }
        ensures map { IfOk result (λ new. ChangesAt K.cmp self.now new key (Some value)) }
        ensures count { IfOk result (λ new. length new + count_of K.cmp self.now key ≡ length self.now + 1) }
        ensures order { IfOk result (IsInOrder K.cmp) }
        ensures counted { (count.old ≤ count.new) × (count.new ≤ count.old + 1024) }
    {
        let path = path_to(self.inners(), &key, &mut Count::new());
        let len = len_with(self.len, path.rows.value);
        let row = SharedRow::new(self.alloc, key, value)?;
        let rows = rows_with(self.alloc, path.rows.below, row, path.rows.above, count)?;
        let inners = inners_with(self.alloc, &path, rows, count)?;
        Shelf::of(self.alloc, inners, len)
    }

    /// Returns the shelf without the row that has the key; with the same rows if there is none. The caller ensures that
    /// clones of keys and of values equal them.
    pub fn without(&self, key: &K) -> Result<Shelf<K, V>, AllocError>
        requires keys { ClonesEqual K.is_clone }
        requires values { ClonesEqual V.is_clone }
        ensures rows { IfOk result (λ new. new ≡ without_key K.cmp self.now key.now) }
        ensures map { IfOk result (λ new. ChangesAt K.cmp self.now new key.now None) }
        ensures count { IfOk result (λ new. length new + count_of K.cmp self.now key.now ≡ length self.now) }
        ensures order { IfOk result (IsInOrder K.cmp) }
    {
        self.without_counted(key, &mut Count::new())
    }

    /// Returns the shelf without the row that has the key, as `without` does and under the same conditions. Adds to the
    /// count the number of rows and nodes put into new nodes, at most 1,024. The caller ensures that the count can grow by
    /// 1,024.
    pub fn without_counted(&self, key: &K, count: &mut Count) -> Result<Shelf<K, V>, AllocError>
        requires keys { ClonesEqual K.is_clone }
        requires values { ClonesEqual V.is_clone }
        requires count_room { count.old + 1024 < 2 ^ 64 }
        ensures rows { IfOk result (λ new. new ≡ without_key K.cmp self.now key.now) }
        ensures map { IfOk result (λ new. ChangesAt K.cmp self.now new key.now None) }
        ensures count { IfOk result (λ new. length new + count_of K.cmp self.now key.now ≡ length self.now) }
        ensures order { IfOk result (IsInOrder K.cmp) }
        ensures counted { (count.old ≤ count.new) × (count.new ≤ count.old + 1024) }
    {
        let path = path_to(self.inners(), key, &mut Count::new());
        if path.rows.value.is_none() {
            return self.clone();
        }
        let rows = rows_without(self.alloc, path.rows.below, path.rows.above, count)?;
        let inners = inners_with(self.alloc, &path, rows, count)?;
        Shelf::of(self.alloc, inners, self.len - 1)
    }

    /// Returns the shelf with this row, as `with` does and under the same conditions. Nodes that no other shelf has are changed
    /// and not copied. So a list of rows that are put one after another copies each node at most once.
    pub fn into_with(self, key: K, value: V) -> Result<Shelf<K, V>, AllocError>
        requires room { HasRoom self }
        requires keys { ClonesEqual K.is_clone }
        requires values { ClonesEqual V.is_clone }
        ensures rows { IfOk result (λ new. new ≡ with_key K.cmp self key value) }
        ensures map { IfOk result (λ new. ChangesAt K.cmp self new key (Some value)) }
        ensures count { IfOk result (λ new. length new + count_of K.cmp self key ≡ length self + 1) }
        ensures order { IfOk result (IsInOrder K.cmp) }
    {
        self.into_with_counted(key, value, &mut Count::new())
    }

    /// Returns the shelf with this row, as `into_with` does and under the same conditions. Adds to the count the number of nodes
    /// that it copies because another shelf has them, at most 5. The caller ensures that the count can grow by 5.
    pub fn into_with_counted(
        self,
        key: K,
        value: V,
        copied: &mut Count,
    ) -> Result<Shelf<K, V>, AllocError>
        requires room { HasRoom self }
        requires keys { ClonesEqual K.is_clone }
        requires values { ClonesEqual V.is_clone }
        requires count_room { copied.old + 5 < 2 ^ 64 }
        ensures rows { IfOk result (λ new. new ≡ with_key K.cmp self key value) }
        ensures map { IfOk result (λ new. ChangesAt K.cmp self new key (Some value)) }
        ensures count { IfOk result (λ new. length new + count_of K.cmp self key ≡ length self + 1) }
        ensures order { IfOk result (IsInOrder K.cmp) }
        ensures counted { (copied.old ≤ copied.new) × (copied.new ≤ copied.old + 5) }
    {
        let Shelf { alloc, len, inners } = self;
        let inners = inners_in(alloc, inners, copied)?;
        let path = path_to(inners.as_slice(), &key, &mut Count::new());
        let len = len_with(len, path.rows.value);
        let is_there = path.rows.value.is_some();
        let (at_inner, at_leaf) = (path.inners.below.len(), path.leaves.below.len());
        let at_row = path.rows.below.len();
        let mut taken = take_path(alloc, inners, at_inner, at_leaf, copied)?;
        let row = SharedRow::new(alloc, key, value)?;
        put_row_at(&mut taken.rows, at_row, is_there, row)?;
        let inners = put_path_back(alloc, taken, copied)?;
        Shelf::of(alloc, inners, len)
    }

    /// Returns the shelf without the row that has the key, as `without` does and under the same conditions. Nodes that no other
    /// shelf has are changed and not copied. If no row has the key, the root is copied if another shelf has it.
    pub fn into_without(self, key: &K) -> Result<Shelf<K, V>, AllocError>
        requires keys { ClonesEqual K.is_clone }
        requires values { ClonesEqual V.is_clone }
        ensures rows { IfOk result (λ new. new ≡ without_key K.cmp self key.now) }
        ensures map { IfOk result (λ new. ChangesAt K.cmp self new key.now None) }
        ensures count { IfOk result (λ new. length new + count_of K.cmp self key.now ≡ length self) }
        ensures order { IfOk result (IsInOrder K.cmp) }
    {
        self.into_without_counted(key, &mut Count::new())
    }

    /// Returns the shelf without the row that has the key, as `into_without` does and under the same conditions. Adds to the
    /// count the number of nodes that it copies because another shelf has them, at most 5. The caller ensures that the count
    /// can grow by 5.
    pub fn into_without_counted(
        self,
        key: &K,
        copied: &mut Count,
    ) -> Result<Shelf<K, V>, AllocError>
        requires keys { ClonesEqual K.is_clone }
        requires values { ClonesEqual V.is_clone }
        requires count_room { copied.old + 5 < 2 ^ 64 }
        ensures rows { IfOk result (λ new. new ≡ without_key K.cmp self key.now) }
        ensures map { IfOk result (λ new. ChangesAt K.cmp self new key.now None) }
        ensures count { IfOk result (λ new. length new + count_of K.cmp self key.now ≡ length self) }
        ensures order { IfOk result (IsInOrder K.cmp) }
        ensures counted { (copied.old ≤ copied.new) × (copied.new ≤ copied.old + 5) }
    {
        let Shelf { alloc, len, inners } = self;
        let inners = inners_in(alloc, inners, copied)?;
        let path = path_to(inners.as_slice(), key, &mut Count::new());
        if path.rows.value.is_none() {
            return Shelf::of(alloc, inners, len);
        }
        let (at_inner, at_leaf) = (path.inners.below.len(), path.leaves.below.len());
        let at_row = path.rows.below.len();
        let mut taken = take_path(alloc, inners, at_inner, at_leaf, copied)?;
        let _ = taken.rows.remove(at_row);
        let inners = put_path_back(alloc, taken, copied)?;
        Shelf::of(alloc, inners, len - 1)
    }

    /// Makes the shelf of these inner nodes, which have `len` rows. The only error is out of memory.
    fn of(
        alloc: Global,
        inners: Vec<InnerNode<K, V>>,
        len: usize,
    ) -> Result<Shelf<K, V>, AllocError>
        requires order { IsInOrder K.cmp (flatten (flatten inners.items)) }
        requires rows { len ≡ length (flatten (flatten inners.items)) }
        requires most { len ≤ most_rows }
        requires leaves { AreNodes least_rows (flatten inners.items) }
        requires inners { AreNodes least_leaves inners.items }
        ensures { IfOk result (λ new. new ≡ flatten (flatten inners.items)) }
    {
        Ok(Shelf {
            alloc,
            len,
            inners: Some(Node::of(alloc, inners)?),
        })
    }

    /// Returns the inner nodes; none if no row was ever added.
    fn inners(&self) -> &[InnerNode<K, V>]
        ensures rows { flatten (flatten result.now) ≡ self.now }
        ensures order { IsInOrder K.cmp self.now }
        ensures most { length self.now ≤ most_rows }
        ensures inners { AreNodes least_leaves result.now }
        ensures leaves { AreNodes least_rows (flatten result.now) }
        ensures size { length result.now ≤ most_inners }
    {
        match &self.inners {
            Some(inners) => inners.parts(),
            None => &[],
        }
    }
}

/// Returns the number of rows after a row is added, or replaces the found row of the same key.
fn len_with<V>(len: usize, found: Option<&V>) -> usize
    requires { len < most_rows }
    ensures { result + (if is_some found.entry then 1 else 0) ≡ len + 1 }
{
    match found {
        Some(_) => len,
        None => len + 1,
    }
}

/// Returns a shelf with the same root: increments its reference count and copies no rows. The only error is that the count
/// is at its maximum.
impl<K: Ord + Clone, V: Clone> Clone for Shelf<K, V> {
    ghost is_clone = { λ original copy. copy ≡ original };

    fn clone(&self) -> Result<Shelf<K, V>, AllocError> {
        let inners = match &self.inners {
            Some(inners) => Some(inners.clone()?),
            None => None,
        };
        Ok(Shelf {
            alloc: self.alloc,
            len: self.len,
            inners,
        })
    }
}
