// How a table is made of rows, and what it answers as a source.
ghost use Rattle.std.specs.Prelude.{◌≡◌, Decides, MatchResult};
ghost use Rattle.programs.specs.Programs.{ProgramFits};
ghost use Rattle.programs.specs.Questions.{AnswersRow};
ghost use Rattle.programs.specs.Refusals.{number};
ghost use Rattle.programs.proofs.Props.{kept_fits};
ghost use Rattle.examples.specs.Tables.{table_program};

use crate::rule_table::RuleTable;
use programs::literal::{Literal, LiteralSet, MAX_ATOMS};
use programs::refusal::Refusal;
use programs::rule::{ClausalRule, MAX_RULES};
use programs::source::{ClausalSource, RuleSource};

// Whether so many atoms and these rows make a program.
fn make_program(atoms: u8, rules: &[ClausalRule]) -> bool
    ensures { Decides result (ProgramFits (table_program atoms rules.now)) }
{
    if atoms < 1 || atoms > MAX_ATOMS || rules.len() > MAX_RULES {
        return false;
    }
    rules.iter().all(|rule| rule.is_below(atoms))
}

impl<const N: usize> RuleTable<N> {
    // The table of these rows, where they make a program.
    pub fn new(atoms: u8, rules: [ClausalRule; N]) -> Result<RuleTable<N>, Refusal>
        ensures { MatchResult result (λ s. ProgramFits (table_program atoms rules.entry) × (table_program s.atoms s.rules ≡ table_program atoms rules.entry)) (λ e. (ProgramFits (table_program atoms rules.entry) → ⊥) × (number e ≡ 6)) }
    {
        if !make_program(atoms, &rules) {
            return Err(Refusal::OutOfRange);
        }
        Ok(RuleTable { atoms, rules })
    }

    // Row i.
    fn rule(&self, i: usize) -> Result<ClausalRule, Refusal>
        ensures { AnswersRow (table_program self.now.atoms self.now.rules) i result }
    {
        self.rules.get(i).copied().ok_or(Refusal::OutOfRange)
    }
}

// One impl for all sources of rows would shut out an impl for references to sources (docs/DECISIONS.md, "Rule sources").
impl<const N: usize> RuleSource for RuleTable<N> {
    ghost program = { λ s. table_program s.atoms s.rules };

    ghost fits = { λ s. kept_fits (table_program s.atoms s.rules) s.fit };

    fn atoms(&self) -> u8 {
        self.atoms
    }

    fn rule_count(&self) -> usize {
        self.rules.len()
    }

    fn head(&self, i: usize) -> Result<Literal, Refusal> {
        Ok(self.rule(i)?.head)
    }

    fn premises(&self, i: usize) -> Result<LiteralSet, Refusal> {
        Ok(self.rule(i)?.premises)
    }

    fn holds_in(&self, i: usize, interpretation: u64) -> Result<bool, Refusal> {
        self.rule(i)?.holds_in(self.atoms, interpretation)
    }

    fn as_literals(&self, i: usize) -> Option<LiteralSet> {
        Some(self.rule(i).ok()?.justification)
    }
}

impl<const N: usize> ClausalSource for RuleTable<N> {
    fn justification(&self, i: usize) -> Result<LiteralSet, Refusal> {
        Ok(self.rule(i)?.justification)
    }
}
