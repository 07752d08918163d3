//! Classes of variables that had the same value, or each the other one's opposite, wherever they were looked at.

use crate::correspondence::merges::Merges;
use crate::correspondence::runs::{Runs, mixed};
use gipmc_circuits::Netlist;
use gipsat_cnf::Literal;
use std::alloc::{AllocError, Global};

// No variable.
const NONE: u32 = u32::MAX;

// The variable at a place.
fn number(place: usize) -> u32 {
    u32::try_from(place).unwrap_or(NONE)
}

/// The classes. Each has a leader: the first of its variables, in the order of 0, latches, inputs and gates. Inputs join
/// no class.
pub(crate) struct Classes {
    // For each variable, a number for what it was so far.
    signatures: Vec<u64>,
    // For each variable, whether its opposite is looked at.
    turned: Vec<bool>,
    // For each variable, whether its value at a moment is looked at before it is known that the constraints hold there:
    // where constraints depend on it, and where it is of no gate.
    early: Vec<bool>,
    // For each variable, the leader of its class.
    leaders: Vec<u32>,
    // Leaders, by their signatures.
    table: Vec<u32>,
    // Whether gates join classes.
    with_gates: bool,
    // The variables that may be in a class with others.
    members: Vec<u32>,
}

// One call in its owners' proofs, in place of one for each field.
impl Drop for Classes {
    fn drop(self) {
        let Classes {
            signatures,
            turned,
            early,
            leaders,
            table,
            with_gates: _,
            members,
        } = self;
    }
}

impl Classes {
    /// One class of all.
    pub(crate) fn new(
        alloc: Global,
        netlist: &Netlist,
        with_gates: bool,
    ) -> Result<Self, AllocError> {
        let count = netlist.variables;
        let mut signatures = Vec::new(alloc);
        signatures.resize(count, 0)?;
        let mut turned = Vec::new(alloc);
        turned.resize(count, false)?;
        let early = early(alloc, netlist)?;
        let mut leaders = Vec::new(alloc);
        leaders.resize(count, 0)?;
        let mut table = Vec::new(alloc);
        table.resize(count.saturating_mul(2).saturating_add(16), NONE)?;
        Ok(Classes {
            signatures,
            turned,
            early,
            leaders,
            table,
            with_gates,
            members: members(alloc, netlist, with_gates)?,
        })
    }

    fn signature(&self, variable: u32) -> u64 {
        self.signatures.get(variable as usize).copied().unwrap_or(0)
    }

    fn is_turned(&self, variable: u32) -> bool {
        self.turned.get(variable as usize).copied().unwrap_or(false)
    }

    /// Whether the value of a variable is looked at before it is known that the constraints hold.
    pub(crate) fn is_early(&self, variable: u32) -> bool {
        self.early.get(variable as usize).copied().unwrap_or(true)
    }

    /// Looks at the values of all variables.
    pub(crate) fn note(&mut self, runs: &Runs) {
        if runs.alive == 0 {
            return;
        }
        for variable in self.members.iter().copied() {
            let value = runs.value(variable);
            let is_turned = self.turned.get(variable as usize).copied();
            let opposite = if is_turned.unwrap_or(false) {
                !value
            } else {
                value
            };
            let seen = opposite & runs.alive;
            if let Some(signature) = self.signatures.get_mut(variable as usize) {
                *signature = mixed(signature.wrapping_add(0x9E37_79B9_7F4A_7C15) ^ seen);
            }
        }
    }

    /// Takes the opposites of the variables that are true in the first run from now on. This is asked once, before any
    /// values are looked at.
    pub(crate) fn turn(&mut self, runs: &Runs) {
        let first = runs.alive & runs.alive.wrapping_neg();
        for (variable, turned) in self.turned.iter_mut().enumerate() {
            *turned = runs.value(number(variable)) & first != 0;
        }
    }

    /// Makes a class of the variable alone.
    pub(crate) fn part(&mut self, variable: u32) {
        if let Some(signature) = self.signatures.get_mut(variable as usize) {
            *signature = mixed(*signature ^ mixed(u64::from(variable).wrapping_add(1)));
        }
    }

    /// Finds the leaders anew.
    pub(crate) fn find_leaders(&mut self, netlist: &Netlist) {
        for slot in self.table.iter_mut() {
            *slot = NONE;
        }
        for (variable, leader) in self.leaders.iter_mut().enumerate() {
            *leader = number(variable);
        }
        self.join(0, true);
        for latch in &netlist.circuit.latches {
            self.join(latch.variable, true);
        }
        for input in &netlist.circuit.inputs {
            self.join(*input, false);
        }
        if self.with_gates {
            for gate in &netlist.circuit.gates {
                self.join(gate.output, true);
            }
        }
    }

    // Finds the leader of a variable, which is itself if there is none yet, or if it is to join none.
    fn join(&mut self, variable: u32, joins: bool) {
        let signature = self.signature(variable);
        let slots = self.table.len();
        if slots == 0 {
            return;
        }
        let mut place = (signature % slots as u64) as usize;
        for _ in 0..slots {
            let Some(&found) = self.table.get(place) else {
                return;
            };
            if found == NONE {
                if let Some(slot) = self.table.get_mut(place) {
                    *slot = variable;
                }
                return;
            }
            if self.signature(found) == signature {
                if joins {
                    self.follow(variable, found);
                }
                return;
            }
            place = if place + 1 < slots { place + 1 } else { 0 };
        }
    }

    // Lets a variable have a leader, unless its value is to be known before that of the leader.
    fn follow(&mut self, variable: u32, leader: u32) {
        if self.is_early(variable) && !self.is_early(leader) {
            return;
        }
        if let Some(held) = self.leaders.get_mut(variable as usize) {
            *held = leader;
        }
    }

    /// Whether each class has one variable.
    pub(crate) fn are_single(&self) -> bool {
        for (variable, leader) in self.leaders.iter().enumerate() {
            if *leader != number(variable) {
                return false;
            }
        }
        true
    }

    /// The literal of its leader that has been what the variable was.
    pub(crate) fn leader(&self, variable: u32) -> Literal {
        let leader = self
            .leaders
            .get(variable as usize)
            .copied()
            .unwrap_or(variable);
        Literal::new(
            leader & 0x7FFF_FFFF,
            self.is_turned(variable) == self.is_turned(leader),
        )
    }

    /// The merges by which each variable is its leader.
    pub(crate) fn merges(&self, alloc: Global) -> Result<Merges, AllocError> {
        let mut literals = Vec::with_capacity(alloc, self.leaders.len())?;
        for variable in 0..number(self.leaders.len()) {
            literals.push(self.leader(variable))?;
        }
        Ok(Merges { literals })
    }
}

// The variables that may be in a class with others: 0, latches and inputs, and gates if these are merged.
fn members(alloc: Global, netlist: &Netlist, with_gates: bool) -> Result<Vec<u32>, AllocError> {
    let circuit = &netlist.circuit;
    let mut members = Vec::new(alloc);
    members.push(0)?;
    for latch in &circuit.latches {
        members.push(latch.variable)?;
    }
    members.extend_from_slice(&circuit.inputs)?;
    if with_gates {
        for gate in &circuit.gates {
            members.push(gate.output)?;
        }
    }
    Ok(members)
}

// The variables that are of no gate, and those that the constraints of a moment depend on.
fn early(alloc: Global, netlist: &Netlist) -> Result<Vec<bool>, AllocError> {
    let circuit = &netlist.circuit;
    let mut early = Vec::new(alloc);
    early.resize(netlist.variables, true)?;
    for gate in &circuit.gates {
        mark(&mut early, gate.output, false);
    }
    for l in &circuit.constraints {
        mark(&mut early, l.variable(), true);
    }
    for gate in circuit.gates.iter().rev() {
        if early.get(gate.output as usize).copied().unwrap_or(false) {
            mark(&mut early, gate.left.variable(), true);
            mark(&mut early, gate.right.variable(), true);
        }
    }
    Ok(early)
}

// Notes whether a variable is one of them.
fn mark(early: &mut [bool], variable: u32, is_early: bool) {
    if let Some(held) = early.get_mut(variable as usize) {
        *held = is_early;
    }
}
