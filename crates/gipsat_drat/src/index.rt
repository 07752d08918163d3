//! Where a clause with certain literals is, by a hash of them.
use gipsat_cnf::Literal;
use gipsat_kernel::RatKernel;
use std::alloc::{AllocError, Global};

// What is known of a clause.
#[derive(Clone, Copy)]
pub(crate) struct Entry {
    hash: u64,
    // The next one in its bucket.
    next: Option<usize>,
}

// For each hash the clauses that have it.
pub(crate) struct Index {
    // What is known of each clause, by its id, if it was entered and not deleted.
    entries: Vec<Option<Entry>>,
    // The first clause in each bucket.
    buckets: Vec<Option<usize>>,
    // How many clauses were deleted.
    dead: usize,
    // Where each literal stands last in the clause that was noted last. A place is compared before it is used.
    places: Vec<usize>,
}

// One call in its owners' proofs, in place of one for each field.
impl Drop for Index {
    fn drop(self) {
        let Index {
            entries,
            buckets,
            dead: _,
            places,
        } = self;
    }
}

// How many buckets there are with the first clause.
const LEAST_BUCKETS: usize = 1024;

impl Index {
    // Of no clause, over no variable.
    pub(crate) fn new(alloc: Global) -> Self {
        Index {
            entries: Vec::new(alloc),
            buckets: Vec::new(alloc),
            dead: 0,
            places: Vec::new(alloc),
        }
    }

    // Has room for so many variables, if there are more than before.
    pub(crate) fn cover(&mut self, variables: usize) -> Result<(), AllocError> {
        let codes = variables.saturating_mul(2);
        if codes > self.places.len() {
            self.places.resize(codes, 0)?;
        }
        Ok(())
    }

    // Enters a clause, whose id is not below those of others.
    pub(crate) fn push(&mut self, id: usize, clause: &[Literal]) -> Result<(), AllocError> {
        let hash = self.hash(clause);
        for _ in self.entries.len()..id {
            self.entries.push(None)?;
        }
        if self.entries.len() >= self.buckets.len() {
            self.grow()?;
        }
        self.entries.push(Some(Entry { hash, next: None }))?;
        self.link(id);
        Ok(())
    }

    // Makes more buckets.
    fn grow(&mut self) -> Result<(), AllocError> {
        let more = self.buckets.len().max(LEAST_BUCKETS);
        self.buckets.reserve(more)?;
        for _ in 0..more {
            self.buckets.push(None)?;
        }
        self.link_all();
        Ok(())
    }

    // Puts all clauses into their buckets anew.
    fn link_all(&mut self) {
        for bucket in self.buckets.iter_mut() {
            *bucket = None;
        }
        for id in 0..self.entries.len() {
            self.link(id);
        }
    }

    // The bucket of a hash.
    fn bucket(&self, hash: u64) -> usize {
        match self.buckets.len() as u64 {
            0 => 0,
            len => (hash % len) as usize,
        }
    }

    // What is known of a clause.
    fn entry(&self, id: usize) -> Option<Entry> {
        *self.entries.get(id)?
    }

    // Writes what is known of a clause.
    fn set_entry(&mut self, id: usize, entry: Option<Entry>) {
        if let Some(old) = self.entries.get_mut(id) {
            *old = entry;
        }
    }

    // Puts a clause into its bucket, if it was entered and not deleted.
    fn link(&mut self, id: usize) {
        let Some(Entry { hash, .. }) = self.entry(id) else {
            return;
        };
        let number = self.bucket(hash);
        if let Some(bucket) = self.buckets.get_mut(number) {
            let next = *bucket;
            *bucket = Some(id);
            self.set_entry(id, Some(Entry { hash, next }));
        }
    }

    // Takes a clause out of its bucket.
    fn unlink(&mut self, id: usize) {
        let Some(Entry { hash, next }) = self.entry(id) else {
            return;
        };
        let number = self.bucket(hash);
        if let Some(bucket) = self.buckets.get_mut(number) {
            if *bucket == Some(id) {
                *bucket = next;
            } else {
                let first = *bucket;
                self.skip(first, id, next);
            }
        }
        self.set_entry(id, None);
    }

    // In the bucket that begins with one clause, lets what stands before a clause be followed by another.
    fn skip(&mut self, first: Option<usize>, id: usize, after: Option<usize>) {
        let mut before = first;
        for _ in 0..self.entries.len() {
            let Some(number) = before else {
                return;
            };
            let Some(Entry { hash, next }) = self.entry(number) else {
                return;
            };
            if next == Some(id) {
                self.set_entry(number, Some(Entry { hash, next: after }));
                return;
            }
            before = next;
        }
    }

    // The id of a clause of the formula with these literals, in whatever order and however often each is there.
    pub(crate) fn find(&mut self, kernel: &RatKernel, clause: &[Literal]) -> Option<usize> {
        let hash = self.hash(clause);
        let mut next = *self.buckets.get(self.bucket(hash))?;
        for _ in 0..self.entries.len() {
            let id = next?;
            let entry = self.entry(id)?;
            if entry.hash == hash && self.is_same(kernel.clause(id)?, clause) {
                return Some(id);
            }
            next = entry.next;
        }
        None
    }

    // Whether two clauses have the same literals.
    fn is_same(&mut self, clause: &[Literal], other: &[Literal]) -> bool {
        self.note(other);
        if !self.is_within(clause, other) {
            return false;
        }
        self.note(clause);
        self.is_within(other, clause)
    }

    // Notes where each literal of a clause stands last.
    fn note(&mut self, clause: &[Literal]) {
        for (place, l) in clause.iter().enumerate() {
            if let Some(noted) = self.places.get_mut(l.code()) {
                *noted = place;
            }
        }
    }

    // Whether each literal of a clause is one of another, whose literals were noted last.
    fn is_within(&self, clause: &[Literal], other: &[Literal]) -> bool {
        for l in clause {
            let Some(place) = self.places.get(l.code()) else {
                return false;
            };
            match other.get(*place) {
                Some(found) if found.code() == l.code() => {}
                _ => return false,
            }
        }
        true
    }

    // A hash of a clause's literals, which neither their order nor a repetition changes.
    fn hash(&mut self, clause: &[Literal]) -> u64 {
        self.note(clause);
        let mut hash: u64 = 0;
        for (place, l) in clause.iter().enumerate() {
            if self.places.get(l.code()) == Some(&place) {
                hash = hash.wrapping_add(mixed(l.code() as u64));
            }
        }
        hash ^ (hash >> 29)
    }

    // Forgets a clause that was deleted.
    pub(crate) fn delete(&mut self, id: usize) {
        self.count_dead(1);
        self.unlink(id);
    }

    // Counts deleted clauses, also those that were not entered.
    pub(crate) fn count_dead(&mut self, count: usize) {
        self.dead = self.dead.saturating_add(count);
    }

    // Whether half of the clauses, and not just a few, were deleted.
    pub(crate) fn is_sparse(&self) -> bool {
        self.dead > LEAST_BUCKETS && self.dead > self.entries.len() / 2
    }

    // What is known of the clauses that stay, by a flag for each id.
    pub(crate) fn kept(
        &self,
        alloc: Global,
        stays: &[bool],
    ) -> Result<Vec<Option<Entry>>, AllocError> {
        let mut entries = Vec::new(alloc);
        for id in 0..self.entries.len() {
            if stays.get(id) == Some(&true) {
                entries.push(self.entry(id))?;
            }
        }
        Ok(entries)
    }

    // Knows this alone from now on, where no clause was deleted.
    pub(crate) fn replace(&mut self, entries: Vec<Option<Entry>>) {
        self.entries = entries;
        self.dead = 0;
        self.link_all();
    }
}

// A number that is scattered over 64 bits.
fn mixed(code: u64) -> u64 {
    let product = code
        .wrapping_add(0x9e37_79b9_7f4a_7c15)
        .wrapping_mul(0xbf58_476d_1ce4_e5b9);
    (product ^ (product >> 31)).wrapping_mul(0x94d0_49bb_1331_11eb)
}
