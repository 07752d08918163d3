//! Runs of a circuit, 64 at once: one in each bit of a number.

use gipmc_circuits::{Circuit, Netlist};
use gipsat_cnf::Literal;
use std::alloc::{AllocError, Global};

/// Numbers that look like chance.
#[derive(Drop)]
pub(crate) struct Chance {
    state: u64,
}

impl Chance {
    /// Those of a seed.
    pub(crate) fn new(seed: u64) -> Self {
        Chance { state: seed }
    }

    /// The next one.
    pub(crate) fn next(&mut self) -> u64 {
        self.state = self.state.wrapping_add(0x9E37_79B9_7F4A_7C15);
        mixed(self.state)
    }
}

/// A number in whose bits those of another one are scattered.
pub(crate) fn mixed(number: u64) -> u64 {
    let first = (number ^ (number >> 30)).wrapping_mul(0xBF58_476D_1CE4_E5B9);
    let second = (first ^ (first >> 27)).wrapping_mul(0x94D0_49BB_1331_11EB);
    second ^ (second >> 31)
}

/// The values of all variables in 64 runs.
pub(crate) struct Runs {
    values: Vec<u64>,
    next: Vec<u64>,
    /// The runs in which no constraint was false.
    pub(crate) alive: u64,
}

// One call in its owners' proofs, in place of one for each field.
impl Drop for Runs {
    fn drop(self) {
        let Runs {
            values,
            next,
            alive: _,
        } = self;
    }
}

impl Runs {
    /// Runs of a circuit in which all is 0.
    pub(crate) fn new(alloc: Global, netlist: &Netlist) -> Result<Self, AllocError> {
        let mut values = Vec::new(alloc);
        values.resize(netlist.variables, 0)?;
        let mut next = Vec::new(alloc);
        next.resize(netlist.circuit.latches.len(), 0)?;
        Ok(Runs {
            values,
            next,
            alive: u64::MAX,
        })
    }

    /// In which runs a variable is true.
    pub(crate) fn value(&self, variable: u32) -> u64 {
        self.values.get(variable as usize).copied().unwrap_or(0)
    }

    // In which runs a literal is true.
    fn of(&self, l: Literal) -> u64 {
        let value = self.value(l.variable());
        if l.is_positive() { value } else { !value }
    }

    /// Gives a variable its values.
    pub(crate) fn put(&mut self, variable: u32, value: u64) {
        if let Some(held) = self.values.get_mut(variable as usize) {
            *held = value;
        }
    }

    /// Gives the latches what they hold at first.
    pub(crate) fn begin(&mut self, circuit: &Circuit, chance: &mut Chance) {
        self.alive = u64::MAX;
        for latch in circuit.latches.iter() {
            let value = match latch.reset {
                Some(true) => u64::MAX,
                Some(false) => 0,
                None => chance.next(),
            };
            self.put(latch.variable, value);
        }
    }

    /// Draws the inputs.
    pub(crate) fn choose(&mut self, circuit: &Circuit, chance: &mut Chance) {
        for input in circuit.inputs.iter() {
            self.put(*input, chance.next());
        }
    }

    /// Gives the gates their values, and ends the runs in which a constraint is false.
    pub(crate) fn evaluate(&mut self, circuit: &Circuit) {
        for gate in circuit.gates.iter() {
            let value = self.of(gate.left) & self.of(gate.right);
            self.put(gate.output, value);
        }
        for l in circuit.constraints.iter() {
            let held = self.of(*l);
            self.alive &= held;
        }
    }

    /// Gives the latches what they hold at the next moment.
    pub(crate) fn advance(&mut self, circuit: &Circuit) {
        for (place, latch) in circuit.latches.iter().enumerate() {
            let value = self.of(latch.next);
            if let Some(held) = self.next.get_mut(place) {
                *held = value;
            }
        }
        for (place, latch) in circuit.latches.iter().enumerate() {
            let value = self.next.get(place).copied().unwrap_or(0);
            self.put(latch.variable, value);
        }
    }
}
