// Rule sources: anything that answers the questions about one list of rules.
ghost use Rattle.std.specs.Prelude.{◌≡◌, length};
ghost use Rattle.programs.specs.Programs.{Program, ProgramFits};
ghost use Rattle.programs.specs.Questions.{Answers, AnswersIn, AnswersSettled, AnswersAs, AnswersLiterals};

use crate::literal::{Literal, LiteralSet};
use crate::refusal::Refusal;

// A list of rules over some atoms. A question changes nothing, and names a rule and an interpretation by their numbers, which
// any caller has. What the first five answer is fixed by the program that the source means, and they are refused where they
// name a rule that is not there or an interpretation of more atoms; the last two may be declined.
pub trait RuleSource {
    // The program that the source means.
    ghost program: { Self → Program };

    // The number of atoms.
    fn atoms(&self) -> u8
        ensures { result ≡ (program self.now).atoms };

    // The number of rules.
    fn rule_count(&self) -> usize
        ensures { result ≡ length (program self.now).rules };

    // The head of rule i.
    fn head(&self, i: usize) -> Result<Literal, Refusal>
        ensures { Answers (λ d. d.head) (program self.now) i result };

    // The premises of rule i.
    fn premises(&self, i: usize) -> Result<LiteralSet, Refusal>
        ensures { Answers (λ d. d.premises) (program self.now) i result };

    // Whether the justification of rule i holds in an interpretation.
    fn holds_in(&self, i: usize, interpretation: u64) -> Result<bool, Refusal>
        ensures { AnswersIn (program self.now) i interpretation result };

    // Whether the justification of rule i holds in every interpretation that has the known literals, or in none of them.
    // A search asks this to look ahead. A source may always decline, and is then searched without looking ahead.
    fn settled(&self, i: usize, known: LiteralSet) -> Option<bool>
        ensures { AnswersSettled (program self.now) i known result }
    {
        None
    }

    // A set of literals that the justification of rule i amounts to. A search is fastest where it gets one. A source may
    // always decline.
    fn as_literals(&self, i: usize) -> Option<LiteralSet>
        ensures { AnswersAs (program self.now) i result }
    {
        None
    }

    // The law of a source: that program has 1 to 64 atoms, at most 4,096 rules, and no literal beyond the atoms.
    ghost fits: { (s : Self) → ProgramFits (program s) };
}

// A rule source all of whose justifications are sets of literals.
pub trait ClausalSource: RuleSource {
    // The justification of rule i.
    fn justification(&self, i: usize) -> Result<LiteralSet, Refusal>
        ensures { AnswersLiterals (Self.program self.now) i result };
}
