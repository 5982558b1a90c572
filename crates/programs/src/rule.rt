// Rules whose justification is a set of literals.
ghost use Rattle.std.specs.Prelude.{◌≡◌, Decides, MatchResult};
ghost use Rattle.programs.specs.Literals.{AllTrue, Interpretation, BitBeyond};
ghost use Rattle.programs.specs.Programs.{RuleFits, rule_of};
ghost use Rattle.programs.specs.Refusals.{number};

use crate::literal::{Literal, LiteralSet, is_interpretation};
use crate::refusal::Refusal;

// The most rules that a program may have.
pub const MAX_RULES: usize = 4096;

// Derive the head from the premises, where every literal of the justification is true.
#[derive(Clone, Copy, PartialEq, Eq, Debug)]
pub struct ClausalRule {
    pub head: Literal,
    pub premises: LiteralSet,
    pub justification: LiteralSet,
}

impl ClausalRule {
    // Whether every literal of the rule is on one of so many atoms.
    pub fn is_below(self, atoms: u8) -> bool
        ensures { Decides result (RuleFits atoms (rule_of self)) }
    {
        self.head.atom < atoms
            && self.premises.is_below(atoms)
            && self.justification.is_below(atoms)
    }

    // Whether the justification holds in an interpretation of so many atoms.
    pub fn holds_in(self, atoms: u8, interpretation: u64) -> Result<bool, Refusal>
        ensures { MatchResult result (λ b. Interpretation atoms interpretation × Decides b (AllTrue self.justification interpretation)) (λ e. BitBeyond atoms interpretation × (number e ≡ 6)) }
    {
        if !is_interpretation(atoms, interpretation) {
            return Err(Refusal::OutOfRange);
        }
        Ok(self.justification.all_true_in(interpretation))
    }
}
