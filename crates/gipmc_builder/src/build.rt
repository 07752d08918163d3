//! Circuits that are built step by step, each step with its meaning.
ghost use Rattle.std.specs.Prelude.{◌≡◌, ◌+◌, ◌≤◌, ◌⊎◌, ◌∷◌, [], true, if◌then◌else◌, length, max, option_map};
ghost use Rattle.std.specs.Prelude.{false, slice_index_or, IfOk, IfSome, IsTrue, MatchOption, OnOk};
ghost use Rattle.std.specs.Bool.{beq};
ghost use Rattle.gipsat_cnf.specs.Literals.{negated};
ghost use Rattle.gipmc_circuits.specs.WellFormed.{is_well_formed};
ghost use Rattle.gipmc_builder.specs.Build.{AddsInputs, AddsLatches, AddsProperties, IsEmpty, Keeps};
ghost use Rattle.gipmc_builder.specs.Build.{AreDigits, are_positive, constant, variables_of};
ghost use Rattle.gipmc_builder.specs.Build.{Becomes, StartsAs, StartsAt, Takes};
ghost use Rattle.gipmc_builder.specs.Build.{FoldsAnd, GivesAnd, GivesEqual, GivesMux, GivesOr, GivesXor};
ghost use Rattle.gipmc_builder.specs.Build.{GivesAll, GivesAny, GivesBorrow, GivesDifferenceDigits, GivesDigits};
ghost use Rattle.gipmc_builder.specs.Build.{GivesChoice, GivesDifference, GivesLess, GivesSame, GivesSuccessor, GivesSum};
ghost use Rattle.gipmc_builder.specs.Build.{IsShiftedLeft, IsShiftedRight};

use gipmc_circuits::{And, Circuit, Latch, Netlist};
use gipsat_cnf::Literal;
use giputils_hash::hash::GHashMap;
use std::alloc::{AllocError, Global};

/// The literal that is always true, or always false.
pub fn constant(value: bool) -> Literal
    ensures { result ≡ constant value }
{
    Literal::new(0, !value)
}

/// The binary digits of a number, the lowest first, and no more than it has.
///
/// # Errors
/// `AllocError` where memory is refused.
pub fn digits(alloc: Global, n: u64) -> Result<Vec<Literal>, AllocError>
    ensures { IfOk result (λ digits. AreDigits n digits.items) }
{
    let mut digits = Vec::new(alloc);
    let mut rest = n;
    while rest > 0 {
        digits.push(constant(rest % 2 == 1))?;
        rest /= 2;
    }
    Ok(digits)
}

// The literal at a place; past the end it is false.
fn bit_at(literals: &[Literal], place: usize) -> Literal
    ensures { result ≡ slice_index_or literals.now place (constant false) }
{
    literals.get(place).copied().unwrap_or(constant(false))
}

// The literal, or its negation where it is not to be the same.
fn signed(l: Literal, same: bool) -> Literal
    ensures { result ≡ (if same then l else negated l) }
{
    if same { l } else { l.negated() }
}

// The reset of that literal.
fn signed_reset(reset: Option<bool>, same: bool) -> Option<bool>
    ensures { result ≡ option_map (λ value. beq value same) reset }
{
    match reset {
        Some(value) => Some(value == same),
        None => None,
    }
}

// Whether both are one literal.
fn is_same(left: Literal, right: Literal) -> bool
    ensures { IsTrue result → left ≡ right }
{
    left.code() == right.code()
}

// The literal that is true where both are, if it needs no gate: one is constant, or both are of one variable.
fn folded(left: Literal, right: Literal) -> Option<Literal>
    ensures { IfSome result (FoldsAnd left right) }
{
    if is_same(left, constant(true)) {
        return Some(right);
    }
    if is_same(right, constant(true)) {
        return Some(left);
    }
    if is_same(left, right) {
        return Some(left);
    }
    if is_same(left, constant(false)) {
        return Some(left);
    }
    if is_same(right, constant(false)) {
        return Some(right);
    }
    if is_same(left, right.negated()) {
        return Some(constant(false));
    }
    None
}

// The number under which a gate with these operands is kept.
fn key_of(left: Literal, right: Literal) -> u64 {
    (left.code() as u64) * (1 << 32) + right.code() as u64
}

// The length of the longer list.
fn width_of(left: &[Literal], right: &[Literal]) -> usize
    ensures max { result ≡ max (length left.now) (length right.now) }
    ensures left { length left.now ≤ result }
    ensures right { length right.now ≤ result }
{
    left.len().max(right.len())
}

/// A circuit that grows step by step.
///
/// Each new variable is greater than those before it. Numbers are lists of literals, the lowest digit first; a digit
/// that a list has not is 0. A call that is refused may have added a part of what it is to add.
#[derive(Drop)]
pub struct Builder {
    /// The circuit so far.
    pub circuit: Circuit,
    /// The variable that the next step takes.
    pub variables: usize,
    // The places of the gates that the calls added, by their operands.
    places: GHashMap<u64, usize>,
    // What the calls take memory of.
    alloc: Global,
}

impl Builder {
    /// The builder of a circuit that has nothing in it yet. It takes no memory.
    pub fn new(alloc: Global) -> Self
        ensures { IsEmpty result.circuit }
    {
        Builder {
            circuit: Circuit::new(alloc),
            variables: 1,
            places: GHashMap::new(alloc),
            alloc,
        }
    }

    /// The builder of a circuit that begins with these gates, latches and inputs. It shares the gates of its own calls
    /// alone.
    pub fn over(netlist: Netlist) -> Self
        ensures circuit { result.circuit ≡ netlist.circuit }
        ensures variables { result.variables ≡ netlist.variables }
    {
        let alloc = *netlist.circuit.gates.allocator();
        Builder {
            variables: netlist.variables,
            circuit: netlist.circuit,
            places: GHashMap::new(alloc),
            alloc,
        }
    }

    /// The netlist of the circuit. None if it is not well-formed: a `bit` has become two latches, or none though it is
    /// used, or a literal is of another builder.
    ///
    /// # Errors
    /// `AllocError` where memory is refused.
    pub fn finish(self) -> Result<Option<Netlist>, AllocError>
        ensures { IfOk result
            (λ made. MatchOption made (is_well_formed self.circuit ≡ false) (λ n. n.circuit ≡ self.circuit)) }
    {
        Netlist::new(self.alloc, self.circuit)
    }

    /// A variable that no other literal has. It is to become a latch, by `latch` or `register`.
    ///
    /// # Errors
    /// `AllocError` where it would be 2^31 or more, as if memory were refused.
    pub fn bit(&mut self) -> Result<Literal, AllocError>
        ensures same { self.new.circuit ≡ self.old.circuit }
        ensures variable { IfOk result (λ l. l.variable ≡ self.old.variables) }
        ensures next { IfOk result (λ _. self.new.variables ≡ self.old.variables + 1) }
        ensures positive { IfOk result (λ l. l.positive ≡ true) }
    {
        let variable = self.variables;
        if variable >= 1 << 31 {
            return Err(AllocError);
        }
        self.variables = variable + 1;
        Ok(Literal::new(variable as u32, true))
    }

    /// So many variables that no other literal has: the bits of a register, the lowest first.
    ///
    /// # Errors
    /// `AllocError` where memory is refused, or where a variable would be 2^31 or more.
    pub fn bits(&mut self, width: usize) -> Result<Vec<Literal>, AllocError>
        ensures same { self.new.circuit ≡ self.old.circuit }
        ensures width { IfOk result (λ bits. length bits.items ≡ width) }
        ensures positive { IfOk result (λ bits. IsTrue (are_positive bits.items)) }
    {
        let mut bits = Vec::with_capacity(self.alloc, width)?;
        while bits.len() < width {
            let bit = self.bit()?;
            bits.push(bit)?;
        }
        Ok(bits)
    }

    /// Adds an input.
    ///
    /// # Errors
    /// `AllocError` where memory is refused, or where a variable would be 2^31 or more.
    pub fn input(&mut self) -> Result<Literal, AllocError>
        ensures adds { IfOk result (λ l. AddsInputs self.old.circuit self.new.circuit (l.variable ∷ [])) }
        ensures positive { IfOk result (λ l. l.positive ≡ true) }
    {
        let input = self.bit()?;
        self.circuit.inputs.push(input.variable())?;
        Ok(input)
    }

    /// Adds so many inputs: the bits of a number, the lowest first.
    ///
    /// # Errors
    /// `AllocError` where memory is refused, or where a variable would be 2^31 or more.
    pub fn inputs(&mut self, width: usize) -> Result<Vec<Literal>, AllocError>
        ensures adds { IfOk result (λ bits.
            AddsInputs self.old.circuit self.new.circuit (variables_of bits.items)) }
        ensures width { IfOk result (λ bits. length bits.items ≡ width) }
        ensures positive { IfOk result (λ bits. IsTrue (are_positive bits.items)) }
    {
        let mut bits = Vec::with_capacity(self.alloc, width)?;
        while bits.len() < width {
            let bit = self.input()?;
            bits.push(bit)?;
        }
        Ok(bits)
    }

    /// Adds a latch: the literal of a `bit`, which is at first what the reset says, and then what `next` was.
    ///
    /// # Errors
    /// `AllocError` where memory is refused.
    pub fn latch(
        &mut self,
        bit: Literal,
        reset: Option<bool>,
        next: Literal,
    ) -> Result<(), AllocError>
        ensures adds { OnOk result (AddsLatches self.old.circuit self.new.circuit) }
        ensures starts { OnOk result (StartsAs self.new.circuit bit reset) }
        ensures becomes { OnOk result (Becomes self.new.circuit bit next) }
    {
        let same = bit.is_positive();
        self.circuit.latches.push(Latch {
            variable: bit.variable(),
            next: signed(next, same),
            reset: signed_reset(reset, same),
        })?;
        Ok(())
    }

    /// Adds a latch for each of the `bits`: together they are at first the number `start`, and then what `next` was.
    /// Digits that `bits` has no room for are lost.
    ///
    /// # Errors
    /// `AllocError` where memory is refused.
    pub fn register(
        &mut self,
        bits: &[Literal],
        start: u64,
        next: &[Literal],
    ) -> Result<(), AllocError>
        ensures adds { OnOk result (AddsLatches self.old.circuit self.new.circuit) }
        ensures starts { OnOk result (StartsAt self.new.circuit bits.now start) }
        ensures takes { OnOk result (Takes self.new.circuit bits.now next.now) }
    {
        let mut rest = start;
        for place in 0..bits.len() {
            self.latch(bits[place], Some(rest % 2 == 1), bit_at(next, place))?;
            rest /= 2;
        }
        Ok(())
    }

    /// Adds a bad literal.
    ///
    /// # Errors
    /// `AllocError` where memory is refused.
    pub fn bad(&mut self, bad: Literal) -> Result<(), AllocError>
        ensures { OnOk result (AddsProperties self.old.circuit self.new.circuit (bad ∷ []) []) }
    {
        self.circuit.bads.push(bad)?;
        Ok(())
    }

    /// Adds a constraint.
    ///
    /// # Errors
    /// `AllocError` where memory is refused.
    pub fn constraint(&mut self, constraint: Literal) -> Result<(), AllocError>
        ensures { OnOk result (AddsProperties self.old.circuit self.new.circuit [] (constraint ∷ [])) }
    {
        self.circuit.constraints.push(constraint)?;
        Ok(())
    }

    /// The literal that is true where both are. Adds at most a gate: none where there is one of these two literals, where
    /// one of them is constant, or where both are of one variable.
    ///
    /// # Errors
    /// `AllocError` where memory is refused, or where a variable would be 2^31 or more.
    pub fn and(&mut self, left: Literal, right: Literal) -> Result<Literal, AllocError>
        ensures keeps { Keeps self.old.circuit self.new.circuit }
        ensures gives { IfOk result (GivesAnd self.new.circuit left right) }
    {
        if left.code() > right.code() {
            return self.and_in_order(right, left);
        }
        self.and_in_order(left, right)
    }

    // The literal of both, whose gate is shared with each other call of the two in this order.
    fn and_in_order(&mut self, left: Literal, right: Literal) -> Result<Literal, AllocError>
        ensures keeps { Keeps self.old.circuit self.new.circuit }
        ensures gives { IfOk result (GivesAnd self.new.circuit left right) }
    {
        if let Some(folded) = folded(left, right) {
            return Ok(folded);
        }
        if let Some(shared) = self.shared(left, right) {
            return Ok(shared);
        }
        self.gate(left, right)
    }

    // The output of the gate of these operands, if a call has added one.
    fn shared(&self, left: Literal, right: Literal) -> Option<Literal>
        ensures { IfSome result (GivesAnd self.now.circuit left right) }
    {
        let place = *self.places.get(&key_of(left, right))?;
        let gate = *self.circuit.gates.get(place)?;
        if !is_same(gate.left, left) || !is_same(gate.right, right) || gate.output >= 1 << 31 {
            return None;
        }
        Some(Literal::new(gate.output, true))
    }

    // The output of a gate that is added.
    fn gate(&mut self, left: Literal, right: Literal) -> Result<Literal, AllocError>
        ensures keeps { Keeps self.old.circuit self.new.circuit }
        ensures gives { IfOk result (GivesAnd self.new.circuit left right) }
    {
        let output = self.bit()?;
        let place = self.circuit.gates.len();
        self.circuit.gates.push(And {
            output: output.variable(),
            left,
            right,
        })?;
        self.places.insert(key_of(left, right), place)?;
        Ok(output)
    }

    /// The literal that is true where one of them is, or both. Adds at most a gate.
    ///
    /// # Errors
    /// `AllocError` where memory is refused, or where a variable would be 2^31 or more.
    pub fn or(&mut self, left: Literal, right: Literal) -> Result<Literal, AllocError>
        ensures keeps { Keeps self.old.circuit self.new.circuit }
        ensures gives { IfOk result (GivesOr self.new.circuit left right) }
    {
        let neither = self.and(left.negated(), right.negated())?;
        Ok(neither.negated())
    }

    /// The literal that is true where one of them is, and not both. Adds at most three gates.
    ///
    /// # Errors
    /// `AllocError` where memory is refused, or where a variable would be 2^31 or more.
    pub fn xor(&mut self, left: Literal, right: Literal) -> Result<Literal, AllocError>
        ensures keeps { Keeps self.old.circuit self.new.circuit }
        ensures gives { IfOk result (GivesXor self.new.circuit left right) }
    {
        let only_left = self.and(left, right.negated())?;
        let only_right = self.and(left.negated(), right)?;
        self.or(only_left, only_right)
    }

    /// The literal that is true where both are, and where neither is. Adds at most three gates.
    ///
    /// # Errors
    /// `AllocError` where memory is refused, or where a variable would be 2^31 or more.
    pub fn equal(&mut self, left: Literal, right: Literal) -> Result<Literal, AllocError>
        ensures keeps { Keeps self.old.circuit self.new.circuit }
        ensures gives { IfOk result (GivesEqual self.new.circuit left right) }
    {
        let differ = self.xor(left, right)?;
        Ok(differ.negated())
    }

    /// What `left` is where the selector is true, and else what `right` is. Adds at most three gates.
    ///
    /// # Errors
    /// `AllocError` where memory is refused, or where a variable would be 2^31 or more.
    pub fn mux(
        &mut self,
        selector: Literal,
        left: Literal,
        right: Literal,
    ) -> Result<Literal, AllocError>
        ensures keeps { Keeps self.old.circuit self.new.circuit }
        ensures gives { IfOk result (GivesMux self.new.circuit selector left right) }
    {
        let one = self.and(selector, left)?;
        let other = self.and(selector.negated(), right)?;
        self.or(one, other)
    }

    // The two digits of the sum of three bits, the lower one first.
    fn add_bits(
        &mut self,
        left: Literal,
        right: Literal,
        carry: Literal,
    ) -> Result<(Literal, Literal), AllocError>
        ensures keeps { Keeps self.old.circuit self.new.circuit }
        ensures gives { IfOk result (λ digits. GivesDigits self.new.circuit left right carry digits.0 digits.1) }
    {
        let half = self.xor(left, right)?;
        let low = self.xor(half, carry)?;
        let both = self.and(left, right)?;
        let through = self.and(half, carry)?;
        let high = self.or(both, through)?;
        Ok((low, high))
    }

    /// The sum of two numbers, with a digit more than the longer one has: a ripple-carry adder.
    ///
    /// # Errors
    /// `AllocError` where memory is refused, or where a variable would be 2^31 or more.
    pub fn add(&mut self, left: &[Literal], right: &[Literal]) -> Result<Vec<Literal>, AllocError>
        ensures keeps { Keeps self.old.circuit self.new.circuit }
        ensures gives { IfOk result (λ sum. GivesSum self.new.circuit left.now right.now sum.items) }
    {
        let mut sum = Vec::new(self.alloc);
        let mut carry = constant(false);
        let width = width_of(left, right);
        for place in 0..width {
            let (low, high) = self.add_bits(bit_at(left, place), bit_at(right, place), carry)?;
            sum.push(low)?;
            carry = high;
        }
        sum.push(carry)?;
        Ok(sum)
    }

    /// The number `left` where the selector is true, and else `right`, with as many digits as the longer one has.
    ///
    /// # Errors
    /// `AllocError` where memory is refused, or where a variable would be 2^31 or more.
    pub fn choose(
        &mut self,
        selector: Literal,
        left: &[Literal],
        right: &[Literal],
    ) -> Result<Vec<Literal>, AllocError>
        ensures keeps { Keeps self.old.circuit self.new.circuit }
        ensures gives { IfOk result (λ chosen.
            GivesChoice self.new.circuit selector left.now right.now chosen.items) }
    {
        let mut chosen = Vec::new(self.alloc);
        let width = width_of(left, right);
        for place in 0..width {
            let bit = self.mux(selector, bit_at(left, place), bit_at(right, place))?;
            chosen.push(bit)?;
        }
        Ok(chosen)
    }

    /// The number that is one more, with a digit more.
    ///
    /// # Errors
    /// `AllocError` where memory is refused, or where a variable would be 2^31 or more.
    pub fn increment(&mut self, bits: &[Literal]) -> Result<Vec<Literal>, AllocError>
        ensures keeps { Keeps self.old.circuit self.new.circuit }
        ensures gives { IfOk result (λ next. GivesSuccessor self.new.circuit bits.now next.items) }
    {
        self.add(bits, &[constant(true)])
    }

    // The digit of the difference of two bits and a borrowed one, and whether they borrow from the digit above.
    fn sub_bits(
        &mut self,
        left: Literal,
        right: Literal,
        borrow: Literal,
    ) -> Result<(Literal, Literal), AllocError>
        ensures keeps { Keeps self.old.circuit self.new.circuit }
        ensures gives { IfOk result (λ digits.
            GivesDifferenceDigits self.new.circuit left right borrow digits.0 digits.1) }
    {
        let half = self.xor(left, right)?;
        let low = self.xor(half, borrow)?;
        let high = self.borrow(left, right, borrow)?;
        Ok((low, high))
    }

    // The literal that is true where the left bit is less than the other two together.
    fn borrow(
        &mut self,
        left: Literal,
        right: Literal,
        borrow: Literal,
    ) -> Result<Literal, AllocError>
        ensures keeps { Keeps self.old.circuit self.new.circuit }
        ensures gives { IfOk result (GivesBorrow self.new.circuit left right borrow) }
    {
        let differ = self.xor(left, right)?;
        self.mux(differ, right, borrow)
    }

    /// The difference of two numbers, with as many digits as the longer one has, and 2 to the power of these digits more
    /// where `right` is greater: as `wrapping_sub` of integers.
    ///
    /// # Errors
    /// `AllocError` where memory is refused, or where a variable would be 2^31 or more.
    pub fn sub(&mut self, left: &[Literal], right: &[Literal]) -> Result<Vec<Literal>, AllocError>
        ensures keeps { Keeps self.old.circuit self.new.circuit }
        ensures gives { IfOk result (λ difference.
            GivesDifference self.new.circuit left.now right.now difference.items) }
        ensures width { IfOk result (λ difference.
            length difference.items ≡ max (length left.now) (length right.now)) }
    {
        let mut difference = Vec::new(self.alloc);
        let mut borrow = constant(false);
        let width = width_of(left, right);
        for place in 0..width {
            let (low, high) = self.sub_bits(bit_at(left, place), bit_at(right, place), borrow)?;
            difference.push(low)?;
            borrow = high;
        }
        Ok(difference)
    }

    /// The literal that is true where `left` is the smaller number.
    ///
    /// # Errors
    /// `AllocError` where memory is refused, or where a variable would be 2^31 or more.
    pub fn less(&mut self, left: &[Literal], right: &[Literal]) -> Result<Literal, AllocError>
        ensures keeps { Keeps self.old.circuit self.new.circuit }
        ensures gives { IfOk result (GivesLess self.new.circuit left.now right.now) }
    {
        let mut less = constant(false);
        let width = width_of(left, right);
        for place in 0..width {
            less = self.borrow(bit_at(left, place), bit_at(right, place), less)?;
        }
        Ok(less)
    }

    /// The number times 2 to the power of `places`, with so many digits more. Adds no gate.
    ///
    /// # Errors
    /// `AllocError` where memory is refused.
    pub fn shift_left(&self, bits: &[Literal], places: usize) -> Result<Vec<Literal>, AllocError>
        ensures { IfOk result (λ shifted. IsShiftedLeft bits.now places shifted.items) }
    {
        let mut shifted = Vec::new(self.alloc);
        shifted.resize(places, constant(false))?;
        shifted.extend_from_slice(bits)?;
        Ok(shifted)
    }

    /// The number by 2 to the power of `places`, rounded down, with so many digits less. Adds no gate.
    ///
    /// # Errors
    /// `AllocError` where memory is refused.
    pub fn shift_right(&self, bits: &[Literal], places: usize) -> Result<Vec<Literal>, AllocError>
        ensures { IfOk result (λ shifted. IsShiftedRight bits.now places shifted.items) }
    {
        let mut shifted = Vec::new(self.alloc);
        for place in places..bits.len() {
            shifted.push(bits[place])?;
        }
        Ok(shifted)
    }

    /// The literal that is true where all of them are, and where there are none.
    ///
    /// # Errors
    /// `AllocError` where memory is refused, or where a variable would be 2^31 or more.
    pub fn and_all(&mut self, literals: &[Literal]) -> Result<Literal, AllocError>
        ensures keeps { Keeps self.old.circuit self.new.circuit }
        ensures gives { IfOk result (GivesAll self.new.circuit literals.now) }
    {
        let mut all = constant(true);
        for place in 0..literals.len() {
            all = self.and(all, literals[place])?;
        }
        Ok(all)
    }

    /// The literal that is true where any of them is.
    ///
    /// # Errors
    /// `AllocError` where memory is refused, or where a variable would be 2^31 or more.
    pub fn or_all(&mut self, literals: &[Literal]) -> Result<Literal, AllocError>
        ensures keeps { Keeps self.old.circuit self.new.circuit }
        ensures gives { IfOk result (GivesAny self.new.circuit literals.now) }
    {
        let mut any = constant(false);
        for place in 0..literals.len() {
            any = self.or(any, literals[place])?;
        }
        Ok(any)
    }

    /// The literal that is true where the two numbers are the same.
    ///
    /// # Errors
    /// `AllocError` where memory is refused, or where a variable would be 2^31 or more.
    pub fn are_same(&mut self, left: &[Literal], right: &[Literal]) -> Result<Literal, AllocError>
        ensures keeps { Keeps self.old.circuit self.new.circuit }
        ensures gives { IfOk result (GivesSame self.new.circuit left.now right.now) }
    {
        let mut same = constant(true);
        let width = width_of(left, right);
        for place in 0..width {
            let bit = self.equal(bit_at(left, place), bit_at(right, place))?;
            same = self.and(same, bit)?;
        }
        Ok(same)
    }
}
