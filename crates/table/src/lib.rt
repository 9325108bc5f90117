//! A table of rows in the order of their keys, over slots that its maker lends.
#![tactic(auto)]

ghost use Rattle.std.specs.Prelude.{◌≡◌, ◌+◌, ◌<◌, ◌≤◌, true, false, [], ◌++◌, length, take, drop, is_some, is_ok, if◌then◌else◌, slice_set};
ghost use Rattle.std.specs.List.{insert};
ghost use Rattle.std.specs.declared.cmp.Ordering.{Ordering as Answer};
ghost use Rattle.table.specs.Rows.{Lawful, Laws, found, placed, without, below, onward, ordered};

use std::cmp::Ordering;

/// A row that a table holds in the order of a key. `By` names the order, so that one row can stand in tables of several orders.
// The order is the row's own and not the key's `Ord`, so that keys of one type can stand in several orders.
pub trait Row<By>: Copy {
    type Key: Copy;

    // The key of a row, how two keys compare, and that the comparison is lawful.
    ghost key: { Self → Self.Key };

    ghost order: { Self.Key → Self.Key → Answer };

    /// The key of this row.
    fn key_of(&self) -> Self::Key
        ensures { result ≡ key self.now };

    /// How two keys compare.
    fn compare(a: &Self::Key, b: &Self::Key) -> Ordering
        ensures { result ≡ order a.now b.now };

    ghost lawful: { Lawful order };
}

/// Why a row was not added.
#[derive(Clone, Copy, PartialEq, Eq)]
pub enum NotAdded {
    /// A row of an equal key is there.
    Present,
    /// Every slot has an entry.
    Full,
}

/// Rows over lent slots. The first `used` slots hold the entries, ascending by key; the others hold anything.
// Lent slots are as many as they are, so that the count of the entries stands beside them.
#[derive(Drop)]
pub struct Table<'a, T: Row<By>, By> {
    slots: &'a mut [T],
    used: usize,
    by: By,
    pub ghost fits: { used ≤ length slots.now },
    pub ghost kept: { ordered T.Row.key T.Row.order (take used slots.now) ≡ true },
}

// Each contract names the key and its order, since the definitions stand for rows of any kind.
impl<'a, By, T: Row<By>> Table<'a, T, By> {
    ghost use Rattle.table.specs.Tables.{all_slots, entries, room, Leaves, Seat, taken};

    /// An empty table over the lent slots, in the order that `by` names.
    pub fn new(slots: &'a mut [T], by: By) -> Table<'a, T, By>
        ensures empty { entries result ≡ [] }
        ensures room { room result ≡ length slots.old }
    {
        Table { slots, used: 0, by }
    }

    /// Lets go of all entries.
    pub fn clear(&mut self)
        ensures { Leaves self.old self.new [] }
    {
        self.used = 0;
    }

    /// How many entries there are.
    pub fn count(&self) -> usize
        ensures { result ≡ length (entries self.now) }
    {
        self.entries().len()
    }

    /// How many slots were lent.
    pub fn capacity(&self) -> usize
        ensures { result ≡ room self.now }
    {
        self.slots.len()
    }

    /// The entries, ascending by key.
    pub fn entries(&self) -> &[T]
        ensures { result.now ≡ entries self.now }
    {
        &self.slots[0..self.used]
    }

    // Where the entry of key k stands, or else would stand.
    fn seat(&self, k: &T::Key) -> Result<usize, usize>
        ensures { Seat T.Row.key T.Row.order k.now (entries self.now) result }
    {
        self.entries()
            .binary_search_by(|e| T::compare(&e.key_of(), k))
    }

    // Puts e over the entry at place i.
    fn put(&mut self, i: usize, e: T)
        requires within { i < length (entries self.old) }
        requires orderly { ordered T.Row.key T.Row.order (slice_set (entries self.old) i e) ≡ true }
        ensures { Leaves self.old self.new (slice_set (entries self.old) i e) }
    {
        self.slots[i] = e;
    }

    // Puts e in before the entry at place i. While the others move, the entries before i stand alone.
    fn insert(&mut self, i: usize, e: T)
        requires within { i ≤ length (entries self.old) }
        requires free { self.old.used < room self.old }
        requires orderly { ordered T.Row.key T.Row.order (insert (entries self.old) i e) ≡ true }
        ensures { Leaves self.old self.new (insert (entries self.old) i e) }
    {
        let used = self.used;
        self.used = i;
        self.slots.copy_within(i..used, i + 1);
        self.slots[i] = e;
        self.used = used + 1;
    }

    // Takes out the entries from place i to place j. While those behind move, the entries before i stand alone.
    fn cut(&mut self, i: usize, j: usize)
        requires forward { i ≤ j }
        requires within { j ≤ length (entries self.old) }
        ensures { Leaves self.old self.new (take i (entries self.old) ++ drop j (entries self.old)) }
    {
        let used = self.used;
        self.used = i;
        self.slots.copy_within(j..used, i);
        self.used = used - (j - i);
    }

    /// The entry of key k.
    pub fn get(&self, k: T::Key) -> Option<T>
        ensures { result ≡ found T.Row.key T.Row.order k (entries self.now) }
    {
        let i = self.seat(&k).ok()?;
        Some(self.entries()[i])
    }

    /// Puts e at its place, unless an entry of its key is there or every slot has an entry.
    pub fn add(&mut self, e: T) -> Result<(), NotAdded>
        ensures answer { result ≡ taken T.Row.key T.Row.order (room self.old) e (entries self.old) }
        ensures left { Leaves self.old self.new (if is_ok result then placed T.Row.key T.Row.order e (entries self.old) else entries self.old) }
        ensures refused { is_ok result ≡ false → self.new ≡ self.old }
    {
        match self.seat(&e.key_of()) {
            Ok(_) => Err(NotAdded::Present),
            Err(_) if self.used == self.capacity() => Err(NotAdded::Full),
            Err(i) => {
                self.insert(i, e);
                Ok(())
            }
        }
    }

    /// Puts e over the entry of its key, and returns that; without one, nothing changes.
    pub fn replace(&mut self, e: T) -> Option<T>
        ensures answer { result ≡ found T.Row.key T.Row.order (T.Row.key e) (entries self.old) }
        ensures left { Leaves self.old self.new (if is_some result then placed T.Row.key T.Row.order e (entries self.old) else entries self.old) }
        ensures refused { is_some result ≡ false → self.new ≡ self.old }
    {
        let i = self.seat(&e.key_of()).ok()?;
        let old = self.entries()[i];
        self.put(i, e);
        Some(old)
    }

    /// Takes out the entry of key k, and returns it; without one, nothing changes.
    pub fn remove(&mut self, k: T::Key) -> Option<T>
        ensures answer { result ≡ found T.Row.key T.Row.order k (entries self.old) }
        ensures left { Leaves self.old self.new (without T.Row.key T.Row.order k (entries self.old)) }
        ensures refused { is_some result ≡ false → self.new ≡ self.old }
    {
        let i = self.seat(&k).ok()?;
        let old = self.entries()[i];
        self.cut(i, i + 1);
        Some(old)
    }

    /// Takes out the first n entries, or all if there are fewer.
    pub fn remove_first(&mut self, n: usize)
        ensures { Leaves self.old self.new (drop n (entries self.old)) }
    {
        self.cut(0, n.min(self.used));
    }

    /// Takes out all entries below key k.
    pub fn remove_below(&mut self, k: T::Key)
        ensures { Leaves self.old self.new (onward T.Row.key T.Row.order k (entries self.old)) }
    {
        let below = self
            .entries()
            .partition_point(|e| T::compare(&e.key_of(), &k).is_lt());
        self.cut(0, below);
    }
}

/// The laws of the entries, as one theorem for every kind of row.
pub fn laws_stand<By, T: Row<By>>()
    ensures { Laws T.Row.key T.Row.order }
{}
