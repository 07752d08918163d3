//! A circuit as a certificate of itself: its property is strengthened by an invariant.

use gipmc_circuits::{And, Circuit, Netlist};
use gipsat_cnf::Literal;
use std::alloc::{AllocError, Global};

// Gates, and the variable of the next one.
#[derive(Drop)]
struct Gates {
    gates: Vec<And>,
    next: usize,
}

impl Gates {
    // The literal that is true where both are.
    fn and(&mut self, left: Literal, right: Literal) -> Result<Literal, AllocError> {
        let output = u32::try_from(self.next).map_err(|_| AllocError)?;
        if output >= 1 << 31 {
            return Err(AllocError);
        }
        self.gates.push(And {
            output,
            left,
            right,
        })?;
        self.next = self.next.saturating_add(1);
        Ok(Literal::new(output, true))
    }

    // The literal that is true where one of these is.
    fn or(&mut self, literals: &[Literal]) -> Result<Literal, AllocError> {
        let mut none = Literal::new(0, false);
        for l in literals {
            none = self.and(none, l.negated())?;
        }
        Ok(none.negated())
    }
}

/// The circuit with one bad literal, which is true where the bad literal that is asked for is, or one of all, and where
/// a clause of the invariant is false.
pub(crate) fn strengthened(
    alloc: Global,
    netlist: &Netlist,
    invariant: &[Vec<Literal>],
    asked: Option<usize>,
) -> Result<Circuit, AllocError> {
    let circuit = &netlist.circuit;
    let mut gates = Gates {
        gates: circuit.gates.to_vec(alloc)?,
        next: netlist.variables,
    };
    let property = match asked.and_then(|place| circuit.bads.get(place)) {
        Some(bad) => *bad,
        None => gates.or(&circuit.bads)?,
    };
    let mut good = property.negated();
    for clause in invariant {
        let holds = gates.or(clause)?;
        good = gates.and(good, holds)?;
    }
    let mut bads = Vec::new(alloc);
    bads.push(good.negated())?;
    Ok(Circuit {
        inputs: circuit.inputs.to_vec(alloc)?,
        latches: circuit.latches.to_vec(alloc)?,
        gates: gates.gates,
        bads,
        constraints: circuit.constraints.to_vec(alloc)?,
    })
}
