//! Chains of reasons: which literals of a clause follow from its other literals (N. Sörensson and A. Biere, 2009).

use crate::stamps::Stamps;
use crate::trail::Trail;
use gipsat_cnf::Literal;
use gipsat_kernel::Kernel;
use std::alloc::{AllocError, Global};

// A literal on the chain at hand: its place in the trail, and how many literals of its reason were looked at.
#[derive(Clone, Copy)]
struct Link {
    place: usize,
    next: usize,
}

// What was found of a link: it waits for the literal at another place, and goes on behind it; or its literal follows
// from others of the clause; or it does not.
enum Finding {
    Open(usize, usize),
    Follows,
    Fails,
}

// The chains that lead from the literals of a clause back to others of its literals. A literal is removable if each
// other literal of its reason is false at the root, of the clause, or removable. Each literal is looked at once.
pub(crate) struct Chains {
    // The chain at hand.
    links: Vec<Link>,
    // The places of removable literals, each behind those that its reason needs.
    removable: Vec<usize>,
    // The variables that were looked at, and those of them that are removable.
    visited: Stamps,
    follows: Stamps,
    // The decision levels of the clause. No chain leads back to it from another level.
    levels: Stamps,
}

// One call in its owners' proofs, in place of one for each field.
impl Drop for Chains {
    fn drop(self) {
        let Chains {
            links,
            removable,
            visited,
            follows,
            levels,
        } = self;
    }
}

impl Chains {
    // Of no clause. It takes no memory.
    pub(crate) fn new(alloc: Global) -> Self {
        Chains {
            links: Vec::new(alloc),
            removable: Vec::new(alloc),
            visited: Stamps::new(alloc),
            follows: Stamps::new(alloc),
            levels: Stamps::new(alloc),
        }
    }

    // Makes room for so many variables.
    pub(crate) fn grow(&mut self, variables: usize) -> Result<(), AllocError> {
        self.visited.grow(variables)?;
        self.follows.grow(variables)?;
        self.levels.grow(variables.saturating_add(1))
    }

    // The places of the removable literals that were found last. Where they are resolved away from the last to the
    // first, none comes in again.
    pub(crate) fn removable(&self) -> &[usize] {
        &self.removable
    }

    // Finds the removable literals among the marked ones, but for those of the conflict level, and among those that
    // these need.
    pub(crate) fn follow(&mut self, kernel: &Kernel, trail: &Trail) -> Result<(), AllocError> {
        self.begin(kernel, trail);
        for l in kernel.marked() {
            let level = trail.level_of(*l);
            if kernel.is_marked(*l) && 0 < level && level < trail.level() {
                if let Some(place) = self.unvisited(trail, *l) {
                    self.follow_from(kernel, trail, place)?;
                }
            }
        }
        Ok(())
    }

    // Nothing is known of the marked clause but its levels.
    fn begin(&mut self, kernel: &Kernel, trail: &Trail) {
        self.removable.clear();
        self.visited.clear();
        self.follows.clear();
        self.levels.clear();
        for l in kernel.marked() {
            if kernel.is_marked(*l) {
                self.levels.add(trail.level_of(*l));
            }
        }
    }

    // The place of a literal that was not looked at yet; it counts as looked at from now on.
    fn unvisited(&mut self, trail: &Trail, l: Literal) -> Option<usize> {
        if self.visited.add(l.variable() as usize) {
            Some(trail.place_of(l))
        } else {
            None
        }
    }

    // Follows the chains that begin at a place.
    fn follow_from(
        &mut self,
        kernel: &Kernel,
        trail: &Trail,
        place: usize,
    ) -> Result<(), AllocError> {
        self.links.clear();
        self.links.push(Link { place, next: 0 })?;
        for _ in 0..usize::MAX {
            let Some(link) = self.links.pop() else {
                return Ok(());
            };
            match self.look_at(kernel, trail, link) {
                Finding::Open(place, next) => {
                    self.links.push(Link {
                        place: link.place,
                        next,
                    })?;
                    self.links.push(Link { place, next: 0 })?;
                }
                Finding::Follows => self.remove(trail, link.place)?,
                Finding::Fails => self.fail(kernel, trail, link.place),
            }
        }
        Ok(())
    }

    // The literal at a place is removable.
    fn remove(&mut self, trail: &Trail, place: usize) -> Result<(), AllocError> {
        if let Some(step) = trail.steps.get(place) {
            self.follows.add(step.literal.variable() as usize);
        }
        self.removable.push(place)?;
        Ok(())
    }

    // Whether a literal is false at the root, or follows.
    fn is_settled(&self, trail: &Trail, l: Literal) -> bool {
        trail.level_of(l) == 0 || self.follows.has(l.variable() as usize)
    }

    // Finds out what a link waits for.
    fn look_at(&mut self, kernel: &Kernel, trail: &Trail, link: Link) -> Finding {
        let Some(step) = trail.steps.get(link.place) else {
            return Finding::Fails;
        };
        let Some(clause) = kernel.clause(step.reason as usize) else {
            return Finding::Fails;
        };
        let own = step.literal.code();
        for next in link.next..clause.len() {
            let l = clause[next];
            if l.code() == own || self.is_settled(trail, l) {
                continue;
            }
            if let Some(place) = self.unvisited(trail, l) {
                if !self.levels.has(trail.level_of(l)) {
                    return Finding::Fails;
                }
                return Finding::Open(place, next + 1);
            }
            if !kernel.is_marked(l) {
                return Finding::Fails;
            }
        }
        Finding::Follows
    }

    // A literal does not follow, nor do those before it on the chain, up to one of the clause.
    fn fail(&mut self, kernel: &Kernel, trail: &Trail, place: usize) {
        let mut failed = place;
        for _ in 0..self.links.len() {
            if is_marked(kernel, trail, failed) {
                return;
            }
            if let Some(link) = self.links.pop() {
                failed = link.place;
            }
        }
    }
}

// Whether the negation of the literal at a place is marked.
fn is_marked(kernel: &Kernel, trail: &Trail, place: usize) -> bool {
    match trail.steps.get(place) {
        Some(step) => kernel.is_marked(step.literal.negated()),
        None => false,
    }
}
