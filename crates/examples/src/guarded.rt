// A rule source that looks ahead: a, b, c and d are chosen freely, but never both a and b, and never both c and d.
ghost use Rattle.std.specs.Prelude.{◌≡◌, Bool as TruthValue, true, false, not, ◌&&◌, ◌||◌};
ghost use Rattle.programs.specs.Formulas.{atom as atom_formula};
ghost use Rattle.examples.specs.Guards.{guarded_program, guarded_fits, Tells, Foresees};

use crate::either::is_true;
use programs::literal::{Literal, LiteralSet, is_interpretation};
use programs::refusal::Refusal;
use programs::source::RuleSource;

#[derive(Clone, Copy)]
pub struct Guarded;

// What the known literals say of an atom.
fn foresee(atom: u8, known: LiteralSet) -> Option<bool>
    ensures { Foresees (atom_formula atom) known result }
{
    let literal = Literal::positive(atom);
    if known.contains(literal) {
        return Some(true);
    }
    if known.contains(literal.complement()) {
        return Some(false);
    }
    None
}

// What is known of a negation.
fn opposite(x: Option<bool>) -> Option<bool>
    ensures { (b : TruthValue) → Tells x b → Tells result (not b) }
{
    x.map(|b| !b)
}

// What is known of a conjunction: one false part is enough.
fn both(x: Option<bool>, y: Option<bool>) -> Option<bool>
    ensures { (b c : TruthValue) → Tells x b → Tells y c → Tells result (b && c) }
{
    match (x, y) {
        (Some(false), _) | (_, Some(false)) => Some(false),
        (Some(true), Some(true)) => Some(true),
        _ => None,
    }
}

// What is known of a disjunction: the negation of the conjunction of both negations.
fn any(x: Option<bool>, y: Option<bool>) -> Option<bool>
    ensures { (b c : TruthValue) → Tells x b → Tells y c → Tells result (b || c) }
{
    opposite(both(opposite(x), opposite(y)))
}

// One line for each rule, as the program is listed: that is how the example is to be read.
impl RuleSource for Guarded {
    ghost program = { λ _. guarded_program };

    ghost fits = { λ _. guarded_fits };

    fn atoms(&self) -> u8 {
        4
    }

    fn rule_count(&self) -> usize {
        10
    }

    fn head(&self, i: usize) -> Result<Literal, Refusal> {
        match i {
            0..=7 => Ok(Literal::numbered(i as u8)),
            8 | 9 => Ok(Literal::numbered((i - 8) as u8)),
            _ => Err(Refusal::OutOfRange),
        }
    }

    fn premises(&self, i: usize) -> Result<LiteralSet, Refusal> {
        match i {
            0..=9 => Ok(LiteralSet::EMPTY),
            _ => Err(Refusal::OutOfRange),
        }
    }

    fn holds_in(&self, i: usize, interpretation: u64) -> Result<bool, Refusal> {
        if !is_interpretation(4, interpretation) {
            return Err(Refusal::OutOfRange);
        }
        let a = is_true(0, interpretation);
        let b = is_true(1, interpretation);
        let c = is_true(2, interpretation);
        let d = is_true(3, interpretation);
        match i {
            0 => Ok(a),
            1 => Ok(!a),
            2 => Ok(b),
            3 => Ok(!b),
            4 => Ok(c),
            5 => Ok(!c),
            6 => Ok(d),
            7 => Ok(!d),
            8 | 9 => Ok(a & b | c & d),
            _ => Err(Refusal::OutOfRange),
        }
    }

    fn settled(&self, i: usize, known: LiteralSet) -> Option<bool> {
        let a = foresee(0, known);
        let b = foresee(1, known);
        let c = foresee(2, known);
        let d = foresee(3, known);
        match i {
            0 => a,
            1 => opposite(a),
            2 => b,
            3 => opposite(b),
            4 => c,
            5 => opposite(c),
            6 => d,
            7 => opposite(d),
            8 | 9 => any(both(a, b), both(c, d)),
            _ => None,
        }
    }
}
