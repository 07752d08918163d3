//! The gates of a circuit in an order in which each stands behind those that it depends on.
ghost use Rattle.std.specs.Prelude.{◌≡◌, ◌<◌, ◌≤◌, ◌++◌, ◌∷◌, [], length, map, set, slice_get, slice_index_or, None, IfErr, IfOk, IfSome, OnOk};
ghost use Rattle.gipmc_circuits.specs.WellFormed.{is_constant, with_variable, with_variables};
ghost use Rattle.gipmc_aiger.specs.Circuits.{IsReordering, rows_of};
ghost use Rattle.gipmc_aiger.specs.Defects.{AddsGateOf, HasOutput, IsCycleIn, IsDefectOf, IsStack, IsTwiceIn};
ghost use Rattle.gipmc_aiger.specs.Defects.{IsUndefinedIn, MeetsOpen, defined_in, defined_variables, defines};
ghost use Rattle.gipmc_aiger.specs.Defects.{operands, used_literals, visit_at};

use crate::error::Defect;
use gipmc_circuits::{And, Circuit, Latch, is_well_formed};
use gipsat_cnf::Literal;
use std::alloc::{AllocError, Global};

// What defines a variable.
#[derive(Clone, Copy)]
pub(crate) enum Definition {
    // It is false, or an input, or a latch.
    Source,
    // The gate at this place.
    Gate(usize),
}

// How far a gate has been visited.
#[derive(Clone, Copy)]
pub(crate) enum Visit {
    // Not yet.
    New,
    // What it depends on is being visited.
    Open,
    // It stands at this place of the order.
    Done(usize),
}

// Puts the gates of a circuit in order, if they are not. Only then it takes the memory of the search for one.
pub(crate) fn order(alloc: Global, circuit: &mut Circuit) -> Result<(), Defect>
    ensures ok { OnOk result (IsReordering (rows_of circuit.old) (rows_of circuit.new)) }
    ensures defect { IfErr result (IsDefectOf (rows_of circuit.old)) }
{
    if is_well_formed(alloc, circuit)? {
        return Ok(());
    }
    sort(alloc, circuit)
}

// The same, by a search.
fn sort(alloc: Global, circuit: &mut Circuit) -> Result<(), Defect>
    ensures ok { OnOk result (IsReordering (rows_of circuit.old) (rows_of circuit.new)) }
    ensures defect { IfErr result (IsDefectOf (rows_of circuit.old)) }
{
    let definitions = definitions(alloc, circuit)?;
    are_defined(&definitions, circuit)?;
    let visits = visits(alloc, &definitions, &circuit.gates)?;
    circuit
        .gates
        .sort_by_key(|gate| place_of(&definitions, &visits, gate.output))?;
    Ok(())
}

// The place of a variable's gate in the order.
fn place_of(definitions: &[Option<Definition>], visits: &[Visit], variable: u32) -> usize {
    match definition_of(definitions, variable) {
        Some(Definition::Gate(place)) => match visits.get(place) {
            Some(Visit::Done(order)) => *order,
            _ => 0,
        },
        _ => 0,
    }
}

// What defines a variable, if anything does.
fn definition_of(definitions: &[Option<Definition>], variable: u32) -> Option<Definition>
    ensures { result ≡ slice_index_or definitions.now variable None }
{
    match definitions.get(variable as usize) {
        Some(definition) => *definition,
        None => None,
    }
}

// What defines each variable.
fn definitions(alloc: Global, circuit: &Circuit) -> Result<Vec<Option<Definition>>, Defect>
    ensures ok { IfOk result (λ definitions. defined_in definitions.items ≡ defines (rows_of circuit.now)) }
    ensures defect { IfErr result (IsTwiceIn (defined_variables (rows_of circuit.now)) is_constant) }
{
    let mut definitions = Vec::new(alloc);
    definitions.push(Some(Definition::Source))?;
    define_inputs(&mut definitions, &circuit.inputs)?;
    define_latches(&mut definitions, &circuit.latches)?;
    define_gates(&mut definitions, &circuit.gates)?;
    Ok(definitions)
}

// Notes that inputs define their variables, which nothing else may define.
fn define_inputs(definitions: &mut Vec<Option<Definition>>, inputs: &[u32]) -> Result<(), Defect>
    ensures ok { OnOk result
        (defined_in definitions.new.items ≡ with_variables inputs.now (defined_in definitions.old.items)) }
    ensures defect { IfErr result (IsTwiceIn inputs.now (defined_in definitions.old.items)) }
{
    for input in inputs {
        define(definitions, *input, Definition::Source)?;
    }
    Ok(())
}

// Notes that latches define their variables, which nothing else may define.
fn define_latches(
    definitions: &mut Vec<Option<Definition>>,
    latches: &[Latch],
) -> Result<(), Defect>
    ensures ok { OnOk result (defined_in definitions.new.items
        ≡ with_variables (map (λ l. l.variable) latches.now) (defined_in definitions.old.items)) }
    ensures defect { IfErr result
        (IsTwiceIn (map (λ l. l.variable) latches.now) (defined_in definitions.old.items)) }
{
    for latch in latches {
        define(definitions, latch.variable, Definition::Source)?;
    }
    Ok(())
}

// Notes that gates define their outputs, which nothing else may define.
fn define_gates(definitions: &mut Vec<Option<Definition>>, gates: &[And]) -> Result<(), Defect>
    ensures ok { OnOk result (defined_in definitions.new.items
        ≡ with_variables (map (λ g. g.output) gates.now) (defined_in definitions.old.items)) }
    ensures defect { IfErr result
        (IsTwiceIn (map (λ g. g.output) gates.now) (defined_in definitions.old.items)) }
{
    for place in 0..gates.len() {
        define(definitions, gates[place].output, Definition::Gate(place))?;
    }
    Ok(())
}

// Notes what defines a variable, which nothing else may define.
fn define(
    definitions: &mut Vec<Option<Definition>>,
    variable: u32,
    by: Definition,
) -> Result<(), Defect>
    ensures ok { OnOk result
        (defined_in definitions.new.items ≡ with_variable variable (defined_in definitions.old.items)) }
    ensures defect { IfErr result (IsTwiceIn (variable ∷ []) (defined_in definitions.old.items)) }
{
    grow(definitions, variable as usize + 1)?;
    if definitions[variable as usize].is_some() {
        return Err(Defect::Twice(variable));
    }
    definitions[variable as usize] = Some(by);
    Ok(())
}

// Lets the table have at least so many places. Nothing more is defined then.
fn grow(definitions: &mut Vec<Option<Definition>>, len: usize) -> Result<(), AllocError>
    ensures same { OnOk result (defined_in definitions.new.items ≡ defined_in definitions.old.items) }
    ensures long { OnOk result (len ≤ length definitions.new.items) }
{
    while definitions.len() < len {
        definitions.push(None)?;
    }
    Ok(())
}

// Tests that each variable that is used is defined.
fn are_defined(definitions: &[Option<Definition>], circuit: &Circuit) -> Result<(), Defect>
    ensures { IfErr result (IsUndefinedIn (used_literals (rows_of circuit.now)) (defined_in definitions.now)) }
{
    are_next_defined(definitions, &circuit.latches)?;
    are_operands_defined(definitions, &circuit.gates)?;
    are_literals_defined(definitions, &circuit.bads)?;
    are_literals_defined(definitions, &circuit.constraints)?;
    Ok(())
}

// Tests that the variables of the next literals are defined.
fn are_next_defined(definitions: &[Option<Definition>], latches: &[Latch]) -> Result<(), Defect>
    ensures { IfErr result (IsUndefinedIn (map (λ l. l.next) latches.now) (defined_in definitions.now)) }
{
    for latch in latches {
        is_defined(definitions, latch.next)?;
    }
    Ok(())
}

// Tests that the variables of the operands are defined.
fn are_operands_defined(definitions: &[Option<Definition>], gates: &[And]) -> Result<(), Defect>
    ensures { IfErr result (IsUndefinedIn (operands gates.now) (defined_in definitions.now)) }
{
    for gate in gates {
        is_defined(definitions, gate.left)?;
        is_defined(definitions, gate.right)?;
    }
    Ok(())
}

// Tests that the variables of literals are defined.
fn are_literals_defined(
    definitions: &[Option<Definition>],
    literals: &[Literal],
) -> Result<(), Defect>
    ensures { IfErr result (IsUndefinedIn literals.now (defined_in definitions.now)) }
{
    for l in literals {
        is_defined(definitions, *l)?;
    }
    Ok(())
}

// Tests that the variable of a literal is defined.
fn is_defined(definitions: &[Option<Definition>], l: Literal) -> Result<(), Defect>
    ensures { IfErr result (IsUndefinedIn (l ∷ []) (defined_in definitions.now)) }
{
    match definition_of(definitions, l.variable()) {
        Some(_) => Ok(()),
        None => Err(Defect::Undefined(l.variable())),
    }
}

// The place of each gate in an order, by a search in depth.
fn visits(
    alloc: Global,
    definitions: &[Option<Definition>],
    gates: &[And],
) -> Result<Vec<Visit>, Defect>
    ensures { IfErr result (IsCycleIn gates.now) }
{
    let mut visits = vec![in alloc; Visit::New; gates.len()]?;
    let mut waiting = Vec::new(alloc);
    let mut done: usize = 0;
    for root in 0..gates.len() {
        waiting.push(root)?;
        done = visit_all(definitions, gates, &mut visits, &mut waiting, done)?;
    }
    Ok(visits)
}

// Visits what waits, and what that depends on. Nothing waits then. How many gates have a place in the order.
fn visit_all(
    definitions: &[Option<Definition>],
    gates: &[And],
    visits: &mut [Visit],
    waiting: &mut Vec<usize>,
    done: usize,
) -> Result<usize, Defect>
    requires { IsStack gates.now visits.old waiting.old.items }
    ensures none { OnOk result (waiting.new.items ≡ []) }
    ensures stack { OnOk result (IsStack gates.now visits.new []) }
    ensures defect { IfErr result (IsCycleIn gates.now) }
{
    let mut done = done;
    for _ in 0..u64::MAX {
        let Some(place) = waiting.pop() else {
            return Ok(done);
        };
        done = step(definitions, gates, visits, waiting, place, done)?;
    }
    // Not reached: each gate is opened once, and so a gate waits no more often than operands name it.
    Err(Defect::Memory)
}

// Opens the gate that has waited last, or closes it. How many gates have a place in the order then.
fn step(
    definitions: &[Option<Definition>],
    gates: &[And],
    visits: &mut [Visit],
    waiting: &mut Vec<usize>,
    place: usize,
    done: usize,
) -> Result<usize, Defect>
    requires { IsStack gates.now visits.old (waiting.old.items ++ place ∷ []) }
    ensures ok { OnOk result (IsStack gates.now visits.new waiting.new.items) }
    ensures defect { IfErr result (IsCycleIn gates.now) }
{
    match visit_at(visits, place) {
        Visit::New => {
            open(definitions, gates, visits, waiting, place)?;
            Ok(done)
        }
        Visit::Open => {
            note(visits, place, Visit::Done(done));
            Ok(done.saturating_add(1))
        }
        Visit::Done(_) => Ok(done),
    }
}

// How far a gate has been visited. Past the last one nothing is to be done.
fn visit_at(visits: &[Visit], place: usize) -> Visit
    ensures { result ≡ visit_at visits.now place }
{
    match visits.get(place) {
        Some(visit) => *visit,
        None => Visit::Done(0),
    }
}

// Notes how far a gate has been visited.
fn note(visits: &mut [Visit], place: usize, visit: Visit)
    ensures { visits.new ≡ set visits.old place visit }
{
    if place < visits.len() {
        visits[place] = visit;
    }
}

// Opens a gate. What it depends on then waits behind it, as far as it is new.
fn open(
    definitions: &[Option<Definition>],
    gates: &[And],
    visits: &mut [Visit],
    waiting: &mut Vec<usize>,
    place: usize,
) -> Result<(), Defect>
    requires { IsStack gates.now visits.old (waiting.old.items ++ place ∷ []) }
    ensures ok { OnOk result (IsStack gates.now visits.new waiting.new.items) }
    ensures defect { IfErr result (IsCycleIn gates.now) }
{
    note(visits, place, Visit::Open);
    waiting.push(place)?;
    let Some(gate) = gate_at(gates, place) else {
        return Ok(());
    };
    wait(definitions, gates, visits, gate.left, waiting)?;
    wait(definitions, gates, visits, gate.right, waiting)?;
    Ok(())
}

// The gate at a place.
fn gate_at(gates: &[And], place: usize) -> Option<And>
    ensures { result ≡ slice_get gates.now place }
{
    gates.get(place).copied()
}

// Lets the gate of a literal wait, if there is one that is new.
fn wait(
    definitions: &[Option<Definition>],
    gates: &[And],
    visits: &[Visit],
    l: Literal,
    waiting: &mut Vec<usize>,
) -> Result<(), Defect>
    ensures ok { OnOk result (AddsGateOf gates.now l.variable waiting.old.items waiting.new.items) }
    ensures defect { IfErr result (MeetsOpen gates.now visits.now l.variable) }
{
    let Some(place) = gate_of(definitions, gates, l.variable()) else {
        return Ok(());
    };
    match visit_at(visits, place) {
        Visit::New => {
            waiting.push(place)?;
            Ok(())
        }
        Visit::Open => Err(Defect::Cycle(l.variable())),
        Visit::Done(_) => Ok(()),
    }
}

// The place of the gate that defines a variable, if there is one.
fn gate_of(definitions: &[Option<Definition>], gates: &[And], variable: u32) -> Option<usize>
    ensures { IfSome result (λ place. HasOutput gates.now place variable) }
{
    let Some(Definition::Gate(place)) = definition_of(definitions, variable) else {
        return None;
    };
    let gate = gate_at(gates, place)?;
    if gate.output != variable {
        return None;
    }
    Some(place)
}
