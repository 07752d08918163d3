//! Whether a certificate can begin and go on wherever the circuit does that it certifies.
ghost use Rattle.std.specs.Prelude.{◌≡◌, ◌++◌, List, map, IfOk, IsTrue, OnOk};
ghost use Rattle.std.specs.List.Sorted.{IsPermutation};
ghost use Rattle.gipmc_circuits.specs.declared.circuit.And.{And as Gate};
ghost use Rattle.gipmc_circuits.specs.WitnessCircuits.{are_defined_from, link_variables, reset_gate};

use crate::circuit::And;
use crate::trace::value_of;
use crate::well_formed::{define, define_gates, define_inputs};
use crate::witness_circuit::{Link, WitnessCircuit};
use gipsat_cnf::Literal;
use std::alloc::{AllocError, Global};

// Whether each variable comes once, none of them is 0, and the gates are in order behind them.
fn are_defined_from(alloc: Global, sources: &[u32], gates: &[And]) -> Result<bool, AllocError>
    ensures { IfOk result (λ are. IsTrue are → IsTrue (are_defined_from sources.now gates.now)) }
{
    let mut defined = Vec::new(alloc);
    define(&mut defined, 0)?;
    if !define_inputs(&mut defined, sources)? {
        return Ok(false);
    }
    define_gates(&mut defined, gates)
}

// The variables of the links.
fn variables_of(alloc: Global, links: &[Link]) -> Result<Vec<u32>, AllocError>
    ensures { IfOk result (λ all. all.items ≡ link_variables links.now) }
{
    links.iter().map(|k| k.variable).collect(alloc)
}

/// Whether the gates have values behind each step, whatever is shared.
pub(crate) fn goes_on(alloc: Global, certificate: &WitnessCircuit) -> Result<bool, AllocError>
    ensures { IfOk result (λ does. IsTrue does → IsTrue (are_defined_from
        ((link_variables certificate.now.shared.items ++ link_variables certificate.now.nexts.items)
        ++ certificate.now.inputs.items) certificate.now.circuit.gates.items)) }
{
    let mut sources = variables_of(alloc, &certificate.shared)?;
    let own = variables_of(alloc, &certificate.nexts)?;
    sources.extend_from_slice(&own)?;
    sources.extend_from_slice(&certificate.inputs)?;
    are_defined_from(alloc, &sources, &certificate.circuit.gates)
}

/// Whether the latches have resets and the gates values at first, whatever is shared.
pub(crate) fn begins(alloc: Global, certificate: &WitnessCircuit) -> Result<bool, AllocError>
    ensures { IfOk result (λ does. IsTrue does → (order : List Gate)
        × IsPermutation
        (map reset_gate certificate.now.resets.items ++ certificate.now.circuit.gates.items) order
        × IsTrue (are_defined_from
        (link_variables certificate.now.shared.items ++ certificate.now.inputs.items) order)) }
{
    let mut sources = variables_of(alloc, &certificate.shared)?;
    sources.extend_from_slice(&certificate.inputs)?;
    let mut gates = reset_gates(alloc, &certificate.resets)?;
    gates.extend_from_slice(&certificate.circuit.gates)?;
    let ranks = ranks(alloc, &sources, &gates, certificate.resets.len())?;
    sort(&mut gates, &ranks)?;
    are_defined_from(alloc, &sources, &gates)
}

// The gate that gives a latch its reset; one that may hold either value is 0.
fn reset_gate(link: Link) -> And
    ensures { result ≡ reset_gate link }
{
    let is_free = link.literal.variable() == link.variable && link.literal.is_positive();
    let literal = if is_free {
        Literal::new(0, true)
    } else {
        link.literal
    };
    And {
        output: link.variable,
        left: literal,
        right: literal,
    }
}

// The gates that give the latches their resets.
fn reset_gates(alloc: Global, links: &[Link]) -> Result<Vec<And>, AllocError>
    ensures { IfOk result (λ gates. gates.items ≡ map reset_gate links.now) }
{
    links.iter().map(|k| reset_gate(*k)).collect(alloc)
}

// Puts the gates in the order of the ranks of their outputs.
fn sort(gates: &mut Vec<And>, ranks: &[usize]) -> Result<(), AllocError>
    ensures { OnOk result (IsPermutation gates.old.items gates.new.items) }
{
    gates.sort_by_key(|gate| rank_of(ranks, gate.output))
}

// The rank of a variable.
fn rank_of(ranks: &[usize], variable: u32) -> usize {
    ranks.get(variable as usize).copied().unwrap_or(usize::MAX)
}

// For each variable, how many of the gates stand before its own, where each stands behind its operands. The gates are
// gone over until no more of them find their operands, at most so many times and once.
fn ranks(
    alloc: Global,
    sources: &[u32],
    gates: &[And],
    times: usize,
) -> Result<Vec<usize>, AllocError> {
    let mut defined = Vec::new(alloc);
    define(&mut defined, 0)?;
    for source in sources {
        define(&mut defined, *source)?;
    }
    let mut ranks = Vec::new(alloc);
    let mut ranked = 0;
    for _ in 0..=times {
        let before = ranked;
        ranked = rank_gates(&mut ranks, &mut defined, gates, before)?;
        if ranked == before {
            break;
        }
    }
    Ok(ranks)
}

// Ranks the gates that are not ranked yet and find their operands, behind so many others. How many are ranked then.
fn rank_gates(
    ranks: &mut Vec<usize>,
    defined: &mut Vec<bool>,
    gates: &[And],
    before: usize,
) -> Result<usize, AllocError> {
    let mut ranked = before;
    for gate in gates {
        let has_operands = value_of(defined, gate.left.variable())
            && value_of(defined, gate.right.variable());
        if has_operands && !value_of(defined, gate.output) {
            define(defined, gate.output)?;
            let place = gate.output as usize;
            if ranks.len() <= place {
                ranks.resize(place + 1, usize::MAX)?;
            }
            ranks[place] = ranked;
            ranked = ranked.saturating_add(1);
        }
    }
    Ok(ranked)
}
