ghost use Rattle.std.specs.Prelude.{◌≡◌, Some};
ghost use Rattle.layout.specs.Refusals.{number_of, place_of, refusal_text};

use crate::sizes::Size;
use std::fmt::{Display, Formatter, Result, Write};

/// Why a table is refused, with a size or the number of an axiom, from 0.
#[derive(Clone, Copy, PartialEq, Eq, Debug)]
pub enum Refusal {
    /// It is shorter than its four sizes.
    TooShort,
    /// A size is outside its limits.
    SizeOutOfLimits(Size),
    /// It is not as long as its sizes say.
    WrongLength,
    /// A form code is not 1 to 12.
    UnknownForm(u8),
    /// An argument is not declared, or an unused word is not 0.
    BadArgument(u8),
    /// An axiom equals an earlier one.
    Repeated(u8),
    /// A 33rd axiom asks for a witness.
    TooManyWitnesses(u8),
    /// A role that may lead to at most one thing is not simple.
    NotSimple(u8),
}

impl Refusal {
    /// The number by which owners know it.
    pub fn number(&self) -> u8
        ensures { result ≡ number_of self.now }
    {
        match self {
            Refusal::TooShort => 1,
            Refusal::SizeOutOfLimits(_) => 2,
            Refusal::WrongLength => 3,
            Refusal::UnknownForm(_) => 4,
            Refusal::BadArgument(_) => 5,
            Refusal::Repeated(_) => 6,
            Refusal::TooManyWitnesses(_) => 7,
            Refusal::NotSimple(_) => 8,
        }
    }

    /// Where it applies: the word of a size, the number of an axiom, or 0.
    pub fn place(&self) -> u8
        ensures { result ≡ place_of self.now }
    {
        match self {
            Refusal::TooShort | Refusal::WrongLength => 0,
            Refusal::SizeOutOfLimits(size) => *size as u8,
            Refusal::UnknownForm(axiom)
            | Refusal::BadArgument(axiom)
            | Refusal::Repeated(axiom)
            | Refusal::TooManyWitnesses(axiom)
            | Refusal::NotSimple(axiom) => *axiom,
        }
    }
}

impl Display for Refusal {
    ghost output = { λ f. Some (refusal_text f) };

    fn fmt<W: Write>(&self, f: &mut Formatter<W>) -> Result {
        let number = self.number();
        let place = self.place();
        write!(f, "refused {number} at {place}")
    }
}
