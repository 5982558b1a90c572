// What a search works on: a source, and what it answers of its rules.
ghost use Rattle.search.specs.Rows.{Prepared};

use crate::rows::{KnownRule, ask_rules};
use arrayvec::ArrayVec;
use programs::literal::{LiteralSet, MAX_ATOMS};
use programs::rule::MAX_RULES;
use programs::source::RuleSource;

// A source, and each of its rules with a row. What is known, what was learned and the trail are parameters of its methods,
// since they change from step to step and the problem does not.
#[derive(Drop)]
pub struct Problem<'a, S: RuleSource> {
    pub source: &'a S,
    pub rules: &'a [KnownRule],
    ghost prepared: { ∥ Prepared (S.program source.now) rules.now ∥₁ },
}

impl<'a, S: RuleSource> Problem<'a, S> {
    ghost use Rattle.std.specs.Prelude.{◌≡◌, true, IfSome};
    ghost use Rattle.programs.specs.Literals.{Subset};
    ghost use Rattle.programs.specs.Programs.{rule_at};
    ghost use Rattle.programs.specs.Questions.{Settles};

    // Asks a source for its rules. They are kept in a vector that is lent, since one that lay in the problem would be moved
    // with it.
    pub fn new(source: &'a S, rules: &'a mut ArrayVec<KnownRule, MAX_RULES>) -> Problem<'a, S>
        ensures { result.source.now ≡ source.now }
    {
        ask_rules(source, rules);
        Problem { source, rules }
    }

    // Whether the source says that the known literals settle the justification of a rule, in one way.
    pub fn is_settled(&self, rule: &KnownRule, known: LiteralSet, holds: bool) -> bool
        ensures { result ≡ true → Settles (S.program self.now.source.now).atoms (rule_at (S.program self.now.source.now) rule.now.number).justification known holds }
    {
        self.source.settled(rule.number, known) == Some(holds)
    }

    // A part of the known literals that settles the justification of a rule in one way, if they do. What can be left
    // out, is.
    pub fn settling(&self, rule: &KnownRule, known: LiteralSet, holds: bool) -> Option<LiteralSet>
        ensures { IfSome result (λ X. Subset X known × Settles (S.program self.now.source.now).atoms (rule_at (S.program self.now.source.now) rule.now.number).justification X holds) }
    {
        if !self.is_settled(rule, known, holds) {
            return None;
        }
        let mut needed = known;
        for atom in 0..MAX_ATOMS {
            let both = LiteralSet {
                positive: 1 << atom,
                negative: 1 << atom,
            };
            let fewer = needed.difference(both);
            if fewer != needed && self.is_settled(rule, fewer, holds) {
                needed = fewer;
            }
        }
        Some(needed)
    }
}
