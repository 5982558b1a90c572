// The closure of a program relative to an interpretation, and the test for a model.
ghost use Rattle.std.specs.Prelude.{◌≡◌, ◌≤◌, length, MatchResult};
ghost use Rattle.programs.specs.Literals.{BitBeyond};
ghost use Rattle.programs.specs.Programs.{rule_at};
ghost use Rattle.programs.specs.Questions.{AnswersClosure, AnswersCheck};
ghost use Rattle.programs.specs.Refusals.{number};
ghost use Rattle.programs.specs.Steps.{Marked, Fired, Grown};

use crate::literal::{LiteralSet, is_interpretation};
use crate::refusal::Refusal;
use crate::rule::MAX_RULES;
use crate::source::RuleSource;
use arrayvec::ArrayVec;

// Marks the rules whose justification holds in the interpretation, the reduct. Each justification is asked once, by the
// number of its rule, as a source is asked. The marks are pushed: `collect` into such a vector answers with an error of memory.
// The vector is lent, since one that is handed out would be moved, all 4 KB of it.
fn mark_reduct<S: RuleSource>(
    source: &S,
    interpretation: u64,
    marks: &mut ArrayVec<bool, MAX_RULES>,
) -> Result<(), Refusal>
    ensures { MatchResult result (λ _. length marks.new.items ≡ length (S.program source.now).rules × Marked (S.program source.now) interpretation (length (S.program source.now).rules) marks.new.items) (λ e. BitBeyond (S.program source.now).atoms interpretation × (number e ≡ 6)) }
{
    marks.clear();
    for i in 0..source.rule_count() {
        marks.push(source.holds_in(i, interpretation)?);
    }
    Ok(())
}

// The set with the head of rule i, where it has the premises.
fn fire<S: RuleSource>(source: &S, i: usize, derived: LiteralSet) -> Result<LiteralSet, Refusal>
    ensures { MatchResult result (λ y. Fired (rule_at (S.program source.now) i) derived y) (λ e. length (S.program source.now).rules ≤ i) }
{
    if derived.includes(source.premises(i)?) {
        return derived.with(source.head(i)?);
    }
    Ok(derived)
}

// Each marked rule once, in order.
fn round<S: RuleSource>(
    source: &S,
    marks: &[bool],
    derived: LiteralSet,
) -> Result<LiteralSet, Refusal>
    requires { length marks.now ≡ length (S.program source.now).rules }
    ensures { MatchResult result (λ y. Grown (S.program source.now) marks.now (length (S.program source.now).rules) derived y) (λ e. ⊥) }
{
    let mut grown = derived;
    for (i, is_marked) in marks.iter().enumerate() {
        if *is_marked {
            grown = fire(source, i, grown)?;
        }
    }
    Ok(grown)
}

// The smallest set of literals that is closed under the reduct relative to an interpretation, as two words: the atoms
// derived true and the atoms derived false. Premises are tested against what is derived, never against the interpretation.
// That the answer is two words, and the rounds a labelled loop, is a rule of the project (docs/DECISIONS.md, "Forms").
pub fn closure<S: RuleSource>(source: &S, interpretation: u64) -> Result<(u64, u64), Refusal>
    ensures { AnswersClosure (S.program source.now) interpretation result }
{
    if !is_interpretation(source.atoms(), interpretation) {
        return Err(Refusal::OutOfRange);
    }
    let mut marks = ArrayVec::new();
    mark_reduct(source, interpretation, &mut marks)?;
    let mut derived = LiteralSet::EMPTY;
    'rounds: loop {
        let grown = round(source, &marks, derived)?;
        if grown == derived {
            break 'rounds;
        }
        derived = grown;
    }
    Ok((derived.positive, derived.negative))
}

// Whether the interpretation is a model: whether its closure is the set of its own literals.
pub fn check<S: RuleSource>(source: &S, interpretation: u64) -> Result<bool, Refusal>
    ensures { AnswersCheck (S.program source.now) interpretation result }
{
    let (positive, negative) = closure(source, interpretation)?;
    let own = LiteralSet::of_interpretation(source.atoms(), interpretation)?;
    Ok(LiteralSet { positive, negative } == own)
}
