//! Variables under other numbers than those of the texts, so that no table has room for a variable that no clause has.
ghost use Rattle.std.specs.Prelude.{◌≡◌, ◌<◌, ◌^◌, [], slice_index_or, IfOk, IfSome};
ghost use Rattle.std.specs.Bool.{OnTrue};
ghost use Rattle.gipsat_kernel.specs.Rat.{KeepsSatisfiable};
ghost use Rattle.gipsat_drat.specs.Numbers.{SaysOfNumbers};

use crate::names::Names;
use gipsat_cnf::{Cnf, Literal};
use std::alloc::{AllocError, Global};

// Which variable stands for a number of the texts. New ones are given to numbers that come later.
pub(crate) struct Numbering {
    // A variable below is its number.
    kept: u32,
    // The other variables, by their numbers and one more.
    variables: Names,
    // The numbers of these variables, in order.
    numbers: Vec<u32>,
}

// One call in its owners' proofs, in place of one for each field.
impl Drop for Numbering {
    fn drop(self) {
        let Numbering {
            kept: _,
            variables,
            numbers,
        } = self;
    }
}

impl Numbering {
    // Each variable is its number.
    pub(crate) fn new(alloc: Global) -> Self {
        Numbering {
            kept: u32::MAX,
            variables: Names::new(alloc),
            numbers: Vec::new(alloc),
        }
    }

    // For a formula: each variable is its number, unless there are fewer literals than numbers up to the greatest.
    fn of(alloc: Global, formula: &Cnf) -> Result<Self, AllocError> {
        let mut numbering = Numbering::new(alloc);
        let literals = formula.literals();
        if formula.variables() <= literals.len() {
            numbering.kept = u32::try_from(formula.variables()).unwrap_or(u32::MAX);
            return Ok(numbering);
        }
        numbering.kept = 0;
        for l in literals {
            numbering.give(alloc, l.variable())?;
        }
        Ok(numbering)
    }

    // The variable of a number, if it has one.
    #[inline]
    fn get(&self, number: u32) -> Option<u32> {
        if number < self.kept {
            return Some(number);
        }
        let variable = self.variables.get(name_of(number))?;
        u32::try_from(variable).ok()
    }

    // The variable of a number, a new one if it had none.
    #[inline]
    fn give(&mut self, alloc: Global, number: u32) -> Result<u32, AllocError> {
        match self.get(number) {
            Some(variable) => Ok(variable),
            None => self.give_new(alloc, number),
        }
    }

    // The variable of a number that had none.
    fn give_new(&mut self, alloc: Global, number: u32) -> Result<u32, AllocError> {
        let place = u32::try_from(self.numbers.len()).map_err(|_| AllocError)?;
        let variable = self.kept.checked_add(place).ok_or(AllocError)?;
        self.numbers.push(number)?;
        self.variables
            .insert(alloc, name_of(number), variable as usize)?;
        Ok(variable)
    }

    // Turns a clause of numbers into one of their variables.
    pub(crate) fn apply(
        &mut self,
        alloc: Global,
        clause: &mut [Literal],
    ) -> Result<(), AllocError> {
        for l in clause.iter_mut() {
            let variable = self.give(alloc, l.variable())?;
            *l = literal(variable, l.is_positive()).ok_or(AllocError)?;
        }
        Ok(())
    }

    // The number of a variable.
    pub(crate) fn number(&self, variable: u32) -> u32 {
        match variable.checked_sub(self.kept) {
            Some(place) => self
                .numbers
                .get(place as usize)
                .copied()
                .unwrap_or(variable),
            None => variable,
        }
    }
}

// The name under which a number is found.
fn name_of(number: u32) -> u64 {
    u64::from(number).saturating_add(1)
}

// The literal of a variable, if there may be such a variable.
fn literal(variable: u32, positive: bool) -> Option<Literal> {
    if variable >= 1 << 31 {
        return None;
    }
    Some(Literal::new(variable, positive))
}

// A formula of variables, and their numbers.
#[derive(Drop)]
pub(crate) struct Numbered {
    pub numbering: Numbering,
    pub formula: Cnf,
}

// A formula under other numbers, where more variables have numbers than there are literals; else as it is.
pub(crate) fn renumber(alloc: Global, formula: Cnf) -> Result<Numbered, AllocError>
    ensures { IfOk result (λ made. KeepsSatisfiable formula made.formula) }
{
    let numbering = Numbering::of(alloc, &formula)?;
    if numbering.kept == 0 {
        if let Some(formula) = numbered_by(alloc, &numbering, &formula)? {
            return Ok(Numbered { numbering, formula });
        }
    }
    Ok(Numbered { numbering, formula })
}

// A formula whose numbers become variables. None where a number has no variable of its own.
fn numbered_by(
    alloc: Global,
    numbering: &Numbering,
    formula: &Cnf,
) -> Result<Option<Cnf>, AllocError>
    ensures { IfOk result (λ made. IfSome made (λ made. KeepsSatisfiable formula.now made)) }
{
    let mut made = Cnf::new(alloc);
    let mut clause = Vec::new(alloc);
    for place in 0..formula.len() {
        clause.clear();
        if !number_clause(&mut clause, numbering, formula.clause(place))? {
            return Ok(None);
        }
        made.push(&clause)?;
    }
    Ok(Some(made))
}

// Adds the literals of the clause whose numbers those of a clause are. False where a number has no variable of its own.
fn number_clause(
    made: &mut Vec<Literal>,
    numbering: &Numbering,
    clause: &[Literal],
) -> Result<bool, AllocError>
    requires empty { made.old.items ≡ [] }
    ensures { IfOk result (λ all. OnTrue all
        (SaysOfNumbers numbering.now.numbers.items made.new.items clause.now)) }
{
    for l in clause {
        let Some(variable) = numbering.variable_of(l.variable()) else {
            return Ok(false);
        };
        made.push(Literal::new(variable, l.is_positive()))?;
    }
    Ok(true)
}

impl Numbering {
    // The variable that has this number, where each variable has one in the list.
    fn variable_of(&self, number: u32) -> Option<u32>
        ensures { IfSome result (λ variable.
            (slice_index_or self.now.numbers.items variable variable ≡ number) × (variable < 2 ^ 31)) }
    {
        let variable = self.get(number)?;
        let place = variable as usize;
        if variable < 1 << 31 && place < self.numbers.len() && self.numbers[place] == number {
            Some(variable)
        } else {
            None
        }
    }
}
