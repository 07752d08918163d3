//! A hashed set and a hashed map, whose hasher has a fixed seed.
ghost use Rattle.std.specs.Prelude.{◌≡◌, ◌+◌, [], length, false, not, None, is_some, if◌then◌else◌, IfOk, IfErr, OnOk, OnErr};
ghost use Rattle.std.specs.List.{AllZip, IsDistinct};
ghost use Rattle.std.specs.Option.{option_copied, option_copied_mut};
ghost use Rattle.std.specs.Map.Iter.{GivesInOrder};
ghost use Rattle.std.specs.Borrow.{sem};
ghost use Rattle.giputils_hash.specs.Hash.{get, contains, PutsValue, TakesKey, PutsMember, TakesMember, IsMapOf, IsSetOf, ListsMembers, ListsEntries, HasUniqueKeys};

use std::alloc::{AllocError, AllocFailed, Allocator, Global};
use std::collections::{HashMap, HashSet, hash_map, hash_set};
use std::fmt;
use std::hash::{BuildHasher, BuildHasherDefault, FoldHasher, Hash, Hasher};
use std::marker::Model;
use std::ops::{Deref, DerefMut};

type Set<T, A> = HashSet<T, BuildHasherDefault<FoldHasher>, A>;

type Map<K, V, A> = HashMap<K, V, BuildHasherDefault<FoldHasher>, A>;

/// A hashed set, seen as the list of its members: each once, in an open order.
#[derive(Drop)]
pub struct GHashSet<T: Eq + Hash, A: Allocator = Global> {
    set: Set<T, A>,
}

impl<T: Eq + Hash, A: Allocator> Model for GHashSet<T, A> {
    ghost use Rattle.std.specs.Prelude.{List};

    ghost Value = { List T };

    ghost view = { λ g. g.set.keys };
}

impl<T: Eq + Hash, A: Allocator> GHashSet<T, A> {
    /// The empty set. It takes no memory.
    #[inline]
    pub fn new(alloc: A) -> Self
        ensures { result ≡ [] }
    {
        GHashSet {
            set: HashSet::new(alloc),
        }
    }

    /// Whether `item` is a member.
    #[inline]
    pub fn contains(&self, item: &T) -> bool
        ensures { result ≡ contains T.eq self.now item.now }
    {
        self.set.contains(item)
    }

    /// Puts `item` in, if no member is equal to it. Answers whether it is new.
    ///
    /// # Errors
    /// `item`, where memory is refused. The set is then as it was. Of a member there is no such answer.
    #[inline]
    pub fn insert(&mut self, item: T) -> Result<bool, AllocFailed<T>>
    where
        T: Drop,
        A: Clone,
        ensures is_new { IfOk result (λ is_new. is_new ≡ not (contains T.eq self.old item)) }
        ensures members { OnOk result (PutsMember T.eq item self.old self.new) }
        ensures len { IfOk result (λ is_new. length self.new ≡ length self.old + (if is_new then 1 else 0)) }
        ensures unique { IsDistinct T.eq self.new }
        ensures value_returned { IfErr result (λ failed. failed.value ≡ item) }
        ensures err { OnErr result (self.new ≡ self.old) }
        ensures absent { OnErr result (contains T.eq self.old item ≡ false) }
    {
        self.set.insert(item)
    }

    /// Takes the member out that is equal to `item`. Answers whether there was one.
    #[inline]
    pub fn remove(&mut self, item: &T) -> bool
    where
        T: Drop,
        ensures was_member { result ≡ contains T.eq self.old item.now }
        ensures members { TakesMember T.eq item.now self.old self.new }
        ensures len { length self.new + (if result then 1 else 0) ≡ length self.old }
        ensures unique { IsDistinct T.eq self.new }
    {
        self.set.remove(item)
    }
}

/// The items that the iterator gives, each once.
///
/// Where the iterator is at hand write `iterator.collect(alloc)`: a proof then knows the items at once, and after
/// `GHashSet::from_iter` only that some run of the iterator gave them.
///
/// # Errors
/// `AllocError` where memory is refused. Nothing is left of the items.
impl<T: Eq + Hash + Drop, A: Allocator + Clone> FromIterator<T> for GHashSet<T, A> {
    type Alloc = A;

    ghost from_iter_gives = { IsSetOf T.eq };

    fn from_iter<U: IntoIterator<Item = T>>(alloc: A, iter: U) -> Result<Self, AllocError> {
        Ok(GHashSet {
            set: HashSet::from_iter(alloc, iter)?,
        })
    }
}

/// Clones each member.
///
/// # Errors
/// `AllocError` where memory for the set or for a member is refused.
impl<T: Eq + Hash + Clone, A: Allocator + Clone> Clone for GHashSet<T, A> {
    ghost is_clone = { AllZip T.is_clone };

    fn clone(&self) -> Result<Self, AllocError> {
        Ok(GHashSet {
            set: self.set.clone()?,
        })
    }
}

/// The members, each once.
impl<T: Eq + Hash + Drop, A: Allocator> IntoIterator for GHashSet<T, A> {
    type Item = T;

    type IntoIter = hash_set::IntoIter<T, A>;

    ghost into_iter_gives = { λ g it. ListsMembers T.eq g it × GivesInOrder T };

    #[inline]
    fn into_iter(self) -> hash_set::IntoIter<T, A> {
        self.set.into_iter()
    }
}

impl<T: Eq + Hash, A: Allocator> Deref for GHashSet<T, A> {
    type Target = Set<T, A>;

    ghost deref_gives = { λ g s. s.keys ≡ g };

    #[inline]
    fn deref(&self) -> &Set<T, A> {
        &self.set
    }
}

impl<T: Eq + Hash, A: Allocator> DerefMut for GHashSet<T, A> {
    ghost use Rattle.giputils_hash.specs.LendsHashed.{lends_set};

    ghost deref_mut_gives = { λ g s. s.keys ≡ g };

    #[inline]
    fn deref_mut(&mut self) -> &mut Set<T, A>
        ensures* writes_back { sem 𝓛 (lends_set T.row A.row T.Hash
            ⟦<BuildHasherDefault<FoldHasher> as BuildHasher>⟧ ⟦<FoldHasher as Hasher>⟧
            A.Allocator self.entry result) }
        ensures value { result.now.keys ≡ self.old }
    {
        &mut self.set
    }
}

/// The text of the set inside.
impl<T: Eq + Hash + fmt::Debug, A: Allocator> fmt::Debug for GHashSet<T, A> {
    fn fmt<W: fmt::Write>(&self, f: &mut fmt::Formatter<W>) -> fmt::Result {
        fmt::Debug::fmt(&self.set, f)
    }
}

/// A hashed map, seen as the list of its entries: each key once, in an open order.
#[derive(Drop)]
pub struct GHashMap<K: Eq + Hash, V, A: Allocator = Global> {
    map: Map<K, V, A>,
}

impl<K: Eq + Hash, V, A: Allocator> Model for GHashMap<K, V, A> {
    ghost use Rattle.std.specs.Prelude.{List};

    ghost Value = { List (K × V) };

    ghost view = { λ g. g.map.entries };
}

impl<K: Eq + Hash, V, A: Allocator> GHashMap<K, V, A> {
    ghost use Rattle.giputils_hash.specs.LendsHashed.{lends_map_value};

    /// The empty map. It takes no memory.
    #[inline]
    pub fn new(alloc: A) -> Self
        ensures { result ≡ [] }
    {
        GHashMap {
            map: HashMap::new(alloc),
        }
    }

    /// The value at `key`, if it has one.
    #[inline]
    pub fn get(&self, key: &K) -> Option<&V>
        ensures value { option_copied result ≡ get K.eq self.now key.now }
    {
        self.map.get(key)
    }

    /// The value at `key` for writing, if it has one.
    #[inline]
    pub fn get_mut(&mut self, key: &K) -> Option<&mut V>
        ensures* writes_back { sem 𝓛 (lends_map_value K.row V.row A.row K.Hash A.Allocator self.entry key.now result) }
        ensures value { option_copied_mut result ≡ get K.eq self.old key.now }
    {
        self.map.get_mut(key)
    }

    /// Whether `key` has a value.
    #[inline]
    pub fn contains_key(&self, key: &K) -> bool
        ensures { result ≡ is_some (get K.eq self.now key.now) }
    {
        self.map.contains_key(key)
    }

    /// Puts `value` at `key`. Answers the value that it takes the place of, if there was one.
    ///
    /// # Errors
    /// `key` and `value`, where memory is refused. The map is then as it was. Of a key with a value there is no such
    /// answer.
    #[inline]
    pub fn insert(&mut self, key: K, value: V) -> Result<Option<V>, AllocFailed<(K, V)>>
    where
        K: Drop,
        A: Clone,
        ensures old { IfOk result (λ old. old ≡ get K.eq self.old key) }
        ensures values { OnOk result (PutsValue K.eq key value self.old self.new) }
        ensures len { IfOk result (λ old. length self.new ≡ length self.old + (if is_some old then 0 else 1)) }
        ensures unique { HasUniqueKeys K.eq self.new }
        ensures value_returned { IfErr result (λ failed. failed.value ≡ (key, value)) }
        ensures err { OnErr result (self.new ≡ self.old) }
        ensures absent { OnErr result (get K.eq self.old key ≡ None) }
    {
        self.map.insert(key, value)
    }

    /// Takes `key` out, and answers the value that it had, if it had one.
    #[inline]
    pub fn remove(&mut self, key: &K) -> Option<V>
    where
        K: Drop,
        ensures taken { result ≡ get K.eq self.old key.now }
        ensures values { TakesKey K.eq key.now self.old self.new }
        ensures len { length self.new + (if is_some result then 1 else 0) ≡ length self.old }
        ensures unique { HasUniqueKeys K.eq self.new }
    {
        self.map.remove(key)
    }
}

/// The pairs that the iterator gives. Of pairs with equal keys the last value stands.
///
/// Where the iterator is at hand write `iterator.collect(alloc)`: a proof then knows the pairs at once, and after
/// `GHashMap::from_iter` only that some run of the iterator gave them.
///
/// # Errors
/// `AllocError` where memory is refused. Nothing is left of the pairs.
impl<K: Eq + Hash + Drop, V: Drop, A: Allocator + Clone> FromIterator<(K, V)>
    for GHashMap<K, V, A> {
    type Alloc = A;

    ghost from_iter_gives = { IsMapOf K.eq };

    fn from_iter<U: IntoIterator<Item = (K, V)>>(alloc: A, iter: U) -> Result<Self, AllocError> {
        Ok(GHashMap {
            map: HashMap::from_iter(alloc, iter)?,
        })
    }
}

/// Clones each key and each value.
///
/// # Errors
/// `AllocError` where memory for the map, a key or a value is refused.
impl<K: Eq + Hash + Clone, V: Clone, A: Allocator + Clone> Clone for GHashMap<K, V, A> {
    ghost is_clone = { AllZip (λ e f. K.is_clone e.0 f.0 × V.is_clone e.1 f.1) };

    fn clone(&self) -> Result<Self, AllocError> {
        Ok(GHashMap {
            map: self.map.clone()?,
        })
    }
}

/// The entries, each once.
impl<K: Eq + Hash + Drop, V: Drop, A: Allocator> IntoIterator for GHashMap<K, V, A> {
    type Item = (K, V);

    type IntoIter = hash_map::IntoIter<K, V, A>;

    ghost into_iter_gives = { λ g it. ListsEntries K.eq g it × GivesInOrder (K × V) };

    #[inline]
    fn into_iter(self) -> hash_map::IntoIter<K, V, A> {
        self.map.into_iter()
    }
}

impl<K: Eq + Hash, V, A: Allocator> Deref for GHashMap<K, V, A> {
    type Target = Map<K, V, A>;

    ghost deref_gives = { λ g m. m.entries ≡ g };

    #[inline]
    fn deref(&self) -> &Map<K, V, A> {
        &self.map
    }
}

impl<K: Eq + Hash, V, A: Allocator> DerefMut for GHashMap<K, V, A> {
    ghost use Rattle.giputils_hash.specs.LendsHashed.{lends_map};

    ghost deref_mut_gives = { λ g m. m.entries ≡ g };

    #[inline]
    fn deref_mut(&mut self) -> &mut Map<K, V, A>
        ensures* writes_back { sem 𝓛 (lends_map K.row V.row A.row K.Hash
            ⟦<BuildHasherDefault<FoldHasher> as BuildHasher>⟧ ⟦<FoldHasher as Hasher>⟧
            A.Allocator self.entry result) }
        ensures value { result.now.entries ≡ self.old }
    {
        &mut self.map
    }
}

/// The text of the map inside.
impl<K: Eq + Hash + fmt::Debug, V: fmt::Debug, A: Allocator> fmt::Debug for GHashMap<K, V, A> {
    fn fmt<W: fmt::Write>(&self, f: &mut fmt::Formatter<W>) -> fmt::Result {
        fmt::Debug::fmt(&self.map, f)
    }
}
