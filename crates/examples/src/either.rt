// A rule source that computes its answers: a and b are chosen freely, and c is true exactly where a or b is.
ghost use Rattle.std.specs.Prelude.{◌≡◌, ◌==◌};
ghost use Rattle.programs.specs.Literals.{bit};
ghost use Rattle.examples.specs.Eithers.{either_program, either_fits};

use programs::literal::{Literal, LiteralSet, is_interpretation};
use programs::refusal::Refusal;
use programs::source::RuleSource;

#[derive(Clone, Copy)]
pub struct Either;

// Whether an atom is true in an interpretation.
pub fn is_true(atom: u8, interpretation: u64) -> bool
    ensures { result ≡ (bit interpretation atom == 1) }
{
    LiteralSet {
        positive: interpretation,
        negative: 0,
    }
    .contains(Literal::positive(atom))
}

// One line for each rule, as the program is listed: that is how the example is to be read. That no rule has premises takes
// two lines here and in `Guarded`; a function for both would be longer.
impl RuleSource for Either {
    ghost program = { λ _. either_program };

    ghost fits = { λ _. either_fits };

    fn atoms(&self) -> u8 {
        3
    }

    fn rule_count(&self) -> usize {
        6
    }

    fn head(&self, i: usize) -> Result<Literal, Refusal> {
        match i {
            0..=5 => Ok(Literal::numbered(i as u8)),
            _ => Err(Refusal::OutOfRange),
        }
    }

    fn premises(&self, i: usize) -> Result<LiteralSet, Refusal> {
        match i {
            0..=5 => Ok(LiteralSet::EMPTY),
            _ => Err(Refusal::OutOfRange),
        }
    }

    fn holds_in(&self, i: usize, interpretation: u64) -> Result<bool, Refusal> {
        if !is_interpretation(3, interpretation) {
            return Err(Refusal::OutOfRange);
        }
        let a = is_true(0, interpretation);
        let b = is_true(1, interpretation);
        match i {
            0 => Ok(a),
            1 => Ok(!a),
            2 => Ok(b),
            3 => Ok(!b),
            4 => Ok(a | b),
            5 => Ok(!(a | b)),
            _ => Err(Refusal::OutOfRange),
        }
    }
}
