//! The candidates for elimination: variables in buckets by how many resolvents they may have, the fewest first.

use crate::occurrences::Occurrences;
use crate::trail::short;
use std::alloc::{AllocError, Global};

// How many buckets there are. The last one has all variables of more resolvents.
const BUCKETS: usize = 1024;

// How a variable stands. It is to be tried: it waits until it is queued, or is queued in a bucket. Or it was tried
// since it lost a clause, or it may not be eliminated.
#[derive(Clone, Copy)]
enum Standing {
    Waits,
    Queued(u32),
    Tried,
    Frozen,
}

// The variables that may be eliminated, from one round of elimination to the next.
pub(crate) struct Candidates {
    // By variables.
    standings: Vec<Standing>,
    // The variables that were queued in each bucket. Some may stand otherwise by now.
    buckets: Vec<Vec<u32>>,
    // No bucket before it has a variable.
    lowest: usize,
    // Those that wait since they lost a clause.
    touched: Vec<u32>,
}

// One call in its owners' proofs, in place of one for each field.
impl Drop for Candidates {
    fn drop(self) {
        let Candidates {
            standings,
            buckets,
            lowest: _,
            touched,
        } = self;
    }
}

impl Candidates {
    // No variable. It takes no memory.
    pub(crate) fn new(alloc: Global) -> Self {
        Candidates {
            standings: Vec::new(alloc),
            buckets: Vec::new(alloc),
            lowest: 0,
            touched: Vec::new(alloc),
        }
    }

    // How a variable stands.
    fn standing(&self, variable: u32) -> Standing {
        match self.standings.get(variable as usize) {
            Some(standing) => *standing,
            None => Standing::Frozen,
        }
    }

    // Sets how a variable stands.
    fn set(&mut self, variable: u32, new: Standing) {
        if let Some(standing) = self.standings.get_mut(variable as usize) {
            *standing = new;
        }
    }

    // All of so many variables are to be tried but for the frozen ones.
    pub(crate) fn reset(&mut self, variables: usize, frozen: &[u32]) -> Result<(), AllocError> {
        self.standings.clear();
        self.grow(variables)?;
        for variable in frozen {
            self.freeze(*variable);
        }
        Ok(())
    }

    // Makes room for so many variables.
    fn grow(&mut self, variables: usize) -> Result<(), AllocError> {
        let len = self.standings.len().max(variables);
        self.standings.resize(len, Standing::Waits)?;
        Ok(())
    }

    // Those that were tried are to be tried again.
    pub(crate) fn retry(&mut self) {
        for standing in self.standings.iter_mut() {
            if let Standing::Tried = *standing {
                *standing = Standing::Waits;
            }
        }
    }

    // A variable may not be eliminated.
    pub(crate) fn freeze(&mut self, variable: u32) {
        self.set(variable, Standing::Frozen);
    }

    // A variable has lost a clause: it is to be tried.
    pub(crate) fn touch(&mut self, variable: u32) -> Result<(), AllocError> {
        match self.standing(variable) {
            Standing::Tried | Standing::Queued(_) => {
                self.set(variable, Standing::Waits);
                self.touched.push(variable)?;
            }
            Standing::Waits | Standing::Frozen => {}
        }
        Ok(())
    }

    // Begins a round with so many variables: queues those that are to be tried and have clauses.
    pub(crate) fn begin(
        &mut self,
        alloc: Global,
        variables: usize,
        occurrences: &Occurrences,
    ) -> Result<(), AllocError> {
        self.grow(variables)?;
        self.lowest = BUCKETS;
        for _ in self.buckets.len()..BUCKETS {
            self.buckets.push(Vec::new(alloc))?;
        }
        for variable in 0..short(variables) {
            if occurrences.has_variable(variable) {
                self.queue(variable, occurrences)?;
            }
        }
        Ok(())
    }

    // Ends a round. Those that are queued are to be tried in the next one.
    pub(crate) fn end(&mut self, alloc: Global) {
        self.buckets = Vec::new(alloc);
        self.touched = Vec::new(alloc);
    }

    // Queues a variable that is to be tried.
    fn queue(&mut self, variable: u32, occurrences: &Occurrences) -> Result<(), AllocError> {
        if matches!(self.standing(variable), Standing::Tried | Standing::Frozen) {
            return Ok(());
        }
        let bucket = occurrences.resolvents(variable).min(BUCKETS - 1);
        if let Some(queued) = self.buckets.get_mut(bucket) {
            queued.push(variable)?;
            self.lowest = self.lowest.min(bucket);
            self.set(variable, Standing::Queued(short(bucket)));
        }
        Ok(())
    }

    // Queues the variables that have lost clauses.
    fn queue_touched(&mut self, occurrences: &Occurrences) -> Result<(), AllocError> {
        for _ in 0..self.touched.len() {
            if let Some(variable) = self.touched.pop() {
                self.queue(variable, occurrences)?;
            }
        }
        Ok(())
    }

    // The next variable to try, of the fewest resolvents. None where all were tried.
    pub(crate) fn next(&mut self, occurrences: &Occurrences) -> Result<Option<u32>, AllocError> {
        self.queue_touched(occurrences)?;
        for bucket in self.lowest..self.buckets.len() {
            self.lowest = bucket;
            if let Some(variable) = self.pop(bucket) {
                self.set(variable, Standing::Tried);
                return Ok(Some(variable));
            }
        }
        Ok(None)
    }

    // Takes a variable out of a bucket. Those that stand otherwise by now go.
    fn pop(&mut self, bucket: usize) -> Option<u32> {
        for _ in 0..usize::MAX {
            let variable = self.buckets.get_mut(bucket)?.pop()?;
            match self.standing(variable) {
                Standing::Queued(home) if home as usize == bucket => return Some(variable),
                _ => {}
            }
        }
        None
    }
}
