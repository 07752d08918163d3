//! The counterexample of another program, from the texts of a circuit and of a witness.
ghost use Rattle.std.specs.Prelude.{◌<◌, length, IfOk, IsTrue};
ghost use Rattle.gipmc_uses.specs.Confirm.{Fails, FailsAt};

use gipmc_aiger::{AigerError, read_circuit, read_witness};
use gipmc_circuits::{Netlist, Trace, replay};
use std::alloc::{AllocError, Global};

/// Whether the witness that one text writes is a counterexample to the circuit that the other one writes: a trace that
/// makes true the bad literal which the witness names.
///
/// Shows that nothing has to be known of the program that found the trace.
///
/// # Errors
/// An [`AigerError`] where a text has another form, or where memory is refused.
pub fn confirms(alloc: Global, circuit: &[u8], witness: &[u8]) -> Result<bool, AigerError>
    ensures { IfOk result (λ confirmed. IsTrue confirmed → Fails circuit.now) }
{
    let netlist = read_circuit(alloc, circuit)?;
    let latches = netlist.circuit.latches.len();
    let inputs = netlist.circuit.inputs.len();
    let witness = read_witness(alloc, latches, inputs, witness)?;
    let place = witness.property as usize;
    if place >= netlist.circuit.bads.len() {
        return Ok(false);
    }
    match fails_at(alloc, &netlist, place, &witness.trace) {
        Ok(fails) => Ok(fails),
        Err(_) => Err(AigerError::Memory),
    }
}

// Whether the circuit fails by the trace, at the bad literal at a place.
fn fails_at(
    alloc: Global,
    netlist: &Netlist,
    place: usize,
    trace: &Trace,
) -> Result<bool, AllocError>
    requires { place < length netlist.now.circuit.bads.items }
    ensures { IfOk result (λ fails. IsTrue fails → FailsAt netlist.now.circuit place trace.now) }
{
    replay(alloc, netlist, netlist.circuit.bads[place], trace)
}
