// Literals that no model can derive any more: those outside the upper closure.
ghost use Rattle.std.specs.Prelude.{◌<◌, length, IfSome};
ghost use Rattle.std.specs.Iterator.{IsFinite};
ghost use Rattle.programs.specs.Literals.{Subset};
ghost use Rattle.programs.specs.Programs.{Model};
ghost use Rattle.search.specs.Rows.{Keeps, Blocks, BlocksAll};
ghost use Rattle.search.specs.Trails.{Narrowed};

use crate::picks::{agrees, pick, plus};
use crate::problem::Problem;
use crate::rows::KnownRule;
use crate::trail::Trail;
use programs::literal::{Literal, LiteralSet};
use programs::source::RuleSource;

// More than the rounds in which a set of literals can grow.
const ROUNDS: usize = 129;

impl<'a, S: RuleSource> Problem<'a, S> {
    // Whether what is known keeps a rule from deriving its head.
    fn is_blocked(&self, rule: &KnownRule, known: LiteralSet) -> bool {
        !agrees(rule.body(), known)
            || rule.justification.is_none() && self.is_settled(rule, known, false)
    }

    // Each of the rules once: the set with the heads that it leads to.
    fn upper_round<'b, I: Iterator<Item = &'b KnownRule> + Drop>(
        &self,
        rules: I,
        known: LiteralSet,
        derived: LiteralSet,
    ) -> LiteralSet
        requires can { I.can_next rules }
        requires ends { IsFinite (I.remaining rules) }
    {
        let mut grown = derived;
        for rule in rules {
            if grown.includes(rule.premises)
                && !grown.includes(rule.head)
                && !self.is_blocked(rule, known)
            {
                grown = grown.union(rule.head);
            }
        }
        grown
    }

    // The upper closure, as two words, as any closure of the engine (docs/DECISIONS.md, "Forms"): what the rules derive
    // that the known literals do not block. A model that has the known literals lies within it. The search takes it as a
    // hint where to look, and proves what it finds there.
    fn upper_closure(&self, known: LiteralSet) -> (u64, u64) {
        let mut derived = LiteralSet::EMPTY;
        for turn in 0..ROUNDS {
            let grown = if turn % 2 == 0 {
                self.upper_round(self.rules.iter(), known, derived)
            } else {
                self.upper_round(self.rules.iter().rev(), known, derived)
            };
            if grown == derived {
                break;
            }
            derived = grown;
        }
        (derived.positive, derived.negative)
    }

    // A set that could be unfounded, with one premise more for each rule that would support it.
    fn unfounded_round(
        &self,
        known: LiteralSet,
        supported: LiteralSet,
        set: LiteralSet,
    ) -> LiteralSet
        ensures { Subset set result }
    {
        let mut grown = set;
        for rule in self.rules.iter() {
            if rule.supports(grown) && !self.is_blocked(rule, known) {
                if let Some(premise) = pick(rule.premises.difference(supported)) {
                    grown = plus(grown, premise);
                }
            }
        }
        grown
    }

    // A set that could be unfounded, around a literal outside the upper closure. Its loop is like that of the upper
    // closure; one function that is given the round would be no plainer, since its contract has to say that each round
    // only adds.
    fn unfounded_set(
        &self,
        known: LiteralSet,
        supported: LiteralSet,
        literal: LiteralSet,
    ) -> LiteralSet
        ensures { Subset literal result }
    {
        let mut set = literal;
        for _ in 0..ROUNDS {
            let grown = self.unfounded_round(known, supported, set);
            if grown == set {
                break;
            }
            set = grown;
        }
        set
    }

    // Known literals that keep a rule from deriving its head, gathered with those that block other rules: where these
    // do it already, no more are needed.
    fn block(&self, rule: &KnownRule, known: LiteralSet, gathered: LiteralSet) -> Option<LiteralSet>
        requires { Keeps (S.program self.now.source.now) rule.now × Subset gathered known }
        ensures { IfSome result (λ B. Subset gathered B × Subset B known × Blocks (S.program self.now.source.now) rule.now.number B) }
    {
        let body = rule.body();
        if !agrees(gathered, body) {
            return Some(gathered);
        }
        let clash = known.difference(known.difference(body.complements()));
        if let Some(literal) = pick(clash) {
            return Some(plus(gathered, literal));
        }
        if rule.justification.is_some() {
            return None;
        }
        let settling = self.settling(rule, known, false)?;
        Some(gathered.union(settling))
    }

    // Known literals because of which no rule derives a literal of the set from outside it, if there are such.
    fn block_all(&self, known: LiteralSet, set: LiteralSet) -> Option<LiteralSet>
        ensures { IfSome result (λ B. Subset B known × BlocksAll (S.program self.now.source.now) self.now.rules.now set (length self.now.rules.now) B) }
    {
        let mut gathered = LiteralSet::EMPTY;
        for rule in self.rules.iter() {
            if rule.supports(set) {
                gathered = self.block(rule, known, gathered)?;
            }
        }
        Some(gathered)
    }

    // Excludes a literal outside the upper closure: no model has it together with what blocks the rules of an unfounded
    // set around it.
    fn exclude(
        &self,
        supported: LiteralSet,
        trail: &mut Trail,
        literal: Literal,
    ) -> Result<bool, LiteralSet>
        requires { literal.atom < (S.program self.now.source.now).atoms }
        ensures { Narrowed (Model (S.program self.now.source.now)) trail.old result trail.new }
    {
        let known = trail.known;
        if supported.contains(literal) || known.contains(literal.complement()) {
            return Ok(false);
        }
        let alone = plus(LiteralSet::EMPTY, literal);
        let set = self.unfounded_set(known, supported, alone);
        let Some(blockers) = self.block_all(known, set) else {
            return Ok(false);
        };
        trail.apply(plus(blockers, literal))
    }

    // Excludes each literal outside the upper closure. The answer is whether that made something known.
    pub fn exclude_unfounded(&self, trail: &mut Trail) -> Result<bool, LiteralSet>
        ensures { Narrowed (Model (S.program self.now.source.now)) trail.old result trail.new }
    {
        let (positive, negative) = self.upper_closure(trail.known);
        let supported = LiteralSet { positive, negative };
        let mut grew = false;
        for atom in 0..self.source.atoms() {
            let literal = Literal::positive(atom);
            grew |= self.exclude(supported, trail, literal)?;
            grew |= self.exclude(supported, trail, literal.complement())?;
        }
        Ok(grew)
    }
}
