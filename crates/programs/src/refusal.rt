// Why a call is refused.
ghost use Rattle.std.specs.Prelude.{◌≡◌, Some};
ghost use Rattle.programs.specs.Refusals.{number, words};

use std::error::Error;
use std::fmt;

#[derive(Clone, Copy, PartialEq, Eq, Debug)]
pub enum Refusal {
    // An atom, a bit, a row, a rule number or a count lies outside its range.
    OutOfRange,
}

impl Refusal {
    // The number by which callers, files and other languages know the refusal. It is part of the interface, and so is this call.
    pub fn code(self) -> u8
        ensures { result ≡ number self }
    {
        match self {
            Refusal::OutOfRange => 6,
        }
    }
}

// Written out and not derived, since the ghost member says the bytes.
impl fmt::Display for Refusal {
    ghost output = { λ x. Some (words x) };

    fn fmt<W: fmt::Write>(&self, f: &mut fmt::Formatter<W>) -> fmt::Result {
        match self {
            Refusal::OutOfRange => f.write_str("refused with 6, out of range"),
        }
    }
}

impl Error for Refusal {}
