//! The header of a text: the form, and how many rows of each kind follow.
ghost use Rattle.std.specs.Prelude.{◌≡◌};

/// The form of a text.
#[derive(Clone, Copy, Debug, PartialEq, Eq)]
pub enum Form {
    /// `aag`: a line for each gate.
    Ascii,
    /// `aig`: inputs, latches and gates are numbered in this order, and the gates are bytes.
    Binary,
}

/// What the first five numbers of a header say.
#[derive(Clone, Copy)]
pub struct Sizes {
    /// The greatest variable.
    pub maximum: u32,
    /// How many inputs there are.
    pub inputs: u32,
    /// How many latches there are.
    pub latches: u32,
    /// How many outputs there are.
    pub outputs: u32,
    /// How many gates there are.
    pub gates: u32,
}

/// What the other four numbers of a header say, which are 0 where they are left out.
#[derive(Clone, Copy)]
pub struct Properties {
    /// How many bad literals there are.
    pub bads: u32,
    /// How many constraints there are.
    pub constraints: u32,
    /// How many justice properties there are.
    pub justice: u32,
    /// How many fairness constraints there are.
    pub fairness: u32,
}

/// The header of a text.
#[derive(Clone, Copy)]
pub struct Header {
    /// The form of the text.
    pub form: Form,
    /// The first five numbers.
    pub sizes: Sizes,
    /// How many bad literals there are.
    pub bads: u32,
    /// How many constraints there are.
    pub constraints: u32,
    /// How many justice properties there are.
    pub justice: u32,
    /// How many fairness constraints there are.
    pub fairness: u32,
}

/// How many literals a justice property has.
#[derive(Clone, Copy)]
pub(crate) struct Justice {
    // How many.
    pub(crate) literals: u32,
}

impl Header {
    ghost use Rattle.gipmc_aiger.specs.Circuits.{greatest_literal};

    // The greatest literal, as far as literals go.
    pub(crate) fn greatest_literal(&self) -> u32
        ensures { result ≡ greatest_literal self.now }
    {
        (2 * u64::from(self.sizes.maximum) + 1).min(u64::from(u32::MAX)) as u32
    }
}
