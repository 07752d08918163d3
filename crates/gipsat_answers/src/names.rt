//! Variables under other numbers, so that a solver has no tables for variables that no clause has.
ghost use Rattle.std.specs.Prelude.{◌≡◌, ◌<◌, ◌^◌, [], ℕ, length, slice_get, vec_len, IfOk, IfSome, OnOk};
ghost use Rattle.std.specs.Bool.{OnTrue};
ghost use Rattle.gipsat_cnf.specs.Prelude.{AreAllBelow, AreBelow, Formula, IsModel, assignment_in};
ghost use Rattle.gipsat_solver.specs.Answers.{IsRight, SolverState};
ghost use Rattle.gipsat_answers.specs.Names.{name_in, named, named_clause, AreNamesOf, IsRising};

use crate::answers::value_in;
use gipsat_cnf::{Answer, Cnf, Literal};
use std::alloc::{AllocError, Global};

// A formula over new variables.
#[derive(Drop)]
pub(crate) struct Renumbered {
    // The name of each variable: its number before. A variable past the end has kept its number.
    pub names: Vec<u32>,
    pub clauses: Cnf,
}

// A formula over new variables, where more variables have numbers than there are literals; else as it is.
pub(crate) fn renumber(alloc: Global, clauses: Cnf) -> Result<Renumbered, AllocError>
    ensures formula { IfOk result (λ made. named made.names.items made.clauses ≡ clauses) }
    ensures names { IfOk result (λ made. AreNamesOf made.clauses made.names.items) }
{
    if clauses.variables() > clauses.literals().len() {
        let names = rising(variables_of(alloc, &clauses)?)?;
        if let Some(clauses) = numbered_by(alloc, &clauses, &names)? {
            return Ok(Renumbered { names, clauses });
        }
    }
    Ok(Renumbered {
        names: Vec::new(alloc),
        clauses,
    })
}

// The variables that the clauses have.
fn variables_of(alloc: Global, clauses: &Cnf) -> Result<Vec<u32>, AllocError> {
    let literals = clauses.literals();
    let mut variables = Vec::with_capacity(alloc, literals.len())?;
    for l in literals {
        variables.push(l.variable())?;
    }
    Ok(variables)
}

// These numbers, each once and rising.
fn rising(mut numbers: Vec<u32>) -> Result<Vec<u32>, AllocError>
    ensures { IfOk result (λ numbers. IsRising numbers.items) }
{
    numbers.sort_unstable();
    numbers.dedup();
    if is_rising(&numbers) {
        Ok(numbers)
    } else {
        Err(AllocError)
    }
}

// Names for the variables that a text may have: those whose numbers it writes, where there are fewer of these than
// numbers up to the greatest, and else all up to that.
pub(crate) fn names_in(alloc: Global, text: &[u8]) -> Result<Vec<u32>, AllocError>
    ensures { IfOk result (λ names. IsRising names.items) }
{
    let written = variables_in(alloc, text)?;
    let count = written.len();
    let names = rising(written)?;
    let end = end_of(&names);
    if end > count {
        return Ok(names);
    }
    rising(numbers_up_to(alloc, end)?)
}

// The numbers below this one.
fn numbers_up_to(alloc: Global, end: usize) -> Result<Vec<u32>, AllocError> {
    let end = u32::try_from(end).map_err(|_| AllocError)?;
    let mut numbers = Vec::new(alloc);
    for number in 0..end {
        numbers.push(number)?;
    }
    Ok(numbers)
}

// The variables whose numbers a text writes outside of comments, as often as it does.
fn variables_in(alloc: Global, text: &[u8]) -> Result<Vec<u32>, AllocError> {
    let mut variables = Vec::new(alloc);
    let mut number = 0u64;
    let mut is_comment = false;
    for byte in text {
        if byte.is_ascii_digit() && !is_comment {
            number = number
                .saturating_mul(10)
                .saturating_add(u64::from(*byte - b'0'));
            continue;
        }
        push_number(&mut variables, number)?;
        number = 0;
        is_comment = *byte == b'c' || is_comment && *byte != b'\n';
    }
    push_number(&mut variables, number)?;
    Ok(variables)
}

// Adds the variable of this number, if there may be one.
fn push_number(variables: &mut Vec<u32>, number: u64) -> Result<(), AllocError> {
    match u32::try_from(number) {
        Ok(number) if number > 0 && number < 1 << 31 => variables.push(number - 1)?,
        _ => {}
    }
    Ok(())
}

// The formula whose variables have these names. None where one is missing.
pub(crate) fn numbered_by(
    alloc: Global,
    clauses: &Cnf,
    names: &[u32],
) -> Result<Option<Cnf>, AllocError>
    ensures formula { IfOk result (λ made. IfSome made (λ made. named names.now made ≡ clauses.now)) }
    ensures below { IfOk result (λ made. IfSome made (λ made. AreAllBelow (length names.now) made)) }
{
    let mut made = Cnf::new(alloc);
    let mut clause = Vec::new(alloc);
    for place in 0..clauses.len() {
        clause.clear();
        if !number_clause(&mut clause, names, clauses.clause(place))? {
            return Ok(None);
        }
        made.push(&clause)?;
    }
    if made.variables() > names.len() {
        return Ok(None);
    }
    Ok(Some(made))
}

// Whether each number is greater than those before it.
fn is_rising(numbers: &[u32]) -> bool
    ensures { OnTrue result (IsRising numbers.now) }
{
    let mut least = 0u64;
    for number in numbers {
        if u64::from(*number) < least {
            return false;
        }
        least = u64::from(*number) + 1;
    }
    true
}

// Adds the literals of the clause that has this one under the names. False where a name is missing.
pub(crate) fn number_clause(
    made: &mut Vec<Literal>,
    names: &[u32],
    clause: &[Literal],
) -> Result<bool, AllocError>
    requires empty { made.old.items ≡ [] }
    ensures named { IfOk result (λ all. OnTrue all (named_clause names.now made.new.items ≡ clause.now)) }
    ensures below { OnOk result (AreBelow (length names.now) made.new.items) }
{
    for l in clause {
        let Some(variable) = number_of(names, l.variable()) else {
            return Ok(false);
        };
        made.push(Literal::new(variable, l.is_positive()))?;
    }
    Ok(true)
}

// The variable that has this name.
fn number_of(names: &[u32], name: u32) -> Option<u32>
    ensures { IfSome result (λ variable. (name_in names.now variable ≡ name)
        × (variable < length names.now) × (variable < 2 ^ 31)) }
{
    let place = place_of(names, name)?;
    let variable = u32::try_from(place).ok()?;
    if variable < 1 << 31 && place < names.len() && names[place] == name {
        Some(variable)
    } else {
        None
    }
}

// Where this name stands: at its own number where all names do.
fn place_of(names: &[u32], name: u32) -> Option<usize> {
    let place = name as usize;
    if place < names.len() && names[place] == name {
        return Some(place);
    }
    names.binary_search(&name).ok()
}

// The name of a variable; one that has none keeps its number.
pub(crate) fn name_in(names: &[u32], variable: u32) -> u32
    ensures { result ≡ name_in names.now variable }
{
    match names.get(variable as usize) {
        Some(name) => *name,
        None => variable,
    }
}

// The answer for the formula that has the names, by one for the formula of the numbers.
pub(crate) fn answer_under(
    alloc: Global,
    names: &[u32],
    answer: Answer,
) -> Result<Answer, AllocError>
    requires rising { IsRising names.now }
    ensures { IfOk result (λ told. (old new : SolverState) (limit : ℕ) →
        AreNamesOf old.formula names.now → IsRight old new limit answer →
        IsRight (record old { formula = named names.now old.formula }) new limit told) }
{
    match answer {
        Answer::Sat(model) => Ok(Answer::Sat(model_under(alloc, names, model)?)),
        Answer::Unsat => Ok(Answer::Unsat),
        Answer::Unknown => Ok(Answer::Unknown),
    }
}

// The model of a formula that has the names, by one of the formula of the numbers.
fn model_under(alloc: Global, names: &[u32], model: Vec<bool>) -> Result<Vec<bool>, AllocError>
    requires rising { IsRising names.now }
    ensures { IfOk result (λ values. (f : Formula) →
        AreNamesOf f names.now → IsModel f model.items → IsModel (named names.now f) values.items) }
{
    if names.is_empty() {
        return Ok(model);
    }
    values_under(alloc, names, &model)
}

// The value of each name, where `model` has those of the variables.
fn values_under(alloc: Global, names: &[u32], model: &[bool]) -> Result<Vec<bool>, AllocError>
    requires rising { IsRising names.now }
    ensures { IfOk result (λ values. (v : ℕ) → v < length names.now →
        assignment_in values.items (name_in names.now v) ≡ assignment_in model.now v) }
{
    let mut values = falses(alloc, end_of(names))?;
    for (variable, name) in names.iter().enumerate() {
        values[*name as usize] = value_in(model, variable);
    }
    Ok(values)
}

// One more than the last number.
fn end_of(numbers: &[u32]) -> usize
    requires rising { IsRising numbers.now }
    ensures { (i n : ℕ) → slice_get numbers.now i ≡ Some n → n < result }
{
    match numbers.last() {
        Some(last) => *last as usize + 1,
        None => 0,
    }
}

// So many values that are false.
fn falses(alloc: Global, len: usize) -> Result<Vec<bool>, AllocError>
    ensures { IfOk result (λ values. vec_len values ≡ len) }
{
    vec![in alloc; false; len]
}
