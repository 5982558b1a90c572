// What follows from what is known, without a choice.
ghost use Rattle.std.specs.List.{All};
ghost use Rattle.programs.specs.Programs.{Model};
ghost use Rattle.search.specs.Nogoods.{Avoids};
ghost use Rattle.search.specs.Rows.{RowHolds, Learns};
ghost use Rattle.search.specs.Trails.{Narrowed};

use crate::learned::Learned;
use crate::picks::{Count, agrees, count_literals};
use crate::problem::Problem;
use crate::rows::KnownRule;
use crate::trail::Trail;
use programs::literal::LiteralSet;
use programs::source::RuleSource;

// More than the times that a literal can become known.
const ROUNDS: usize = 65;

// Whether a set could lead to something, were the justification of its rule settled: all of it is known but for one
// literal at most.
fn is_ripe(known: LiteralSet, set: LiteralSet) -> bool {
    agrees(set, known) && !matches!(count_literals(set.difference(known)), Count::Several)
}

// Each learned set once. The answer is whether that made something known. The loop stands here, in `sweep_rows` and in
// `exclude_unfounded`: one function that is given the step would be no plainer, since its contract has to say of each
// call what it makes of the trail.
fn sweep_learned(learned: &Learned, trail: &mut Trail) -> Result<bool, LiteralSet>
    ensures { Narrowed (λ w. All (λ N. Avoids N w) learned.now.sets.items) trail.old result trail.new }
{
    let mut grew = false;
    for set in learned.sets.iter() {
        grew |= trail.apply(*set)?;
    }
    Ok(grew)
}

impl<'a, S: RuleSource> Problem<'a, S> {
    // The unit step for the row of a rule, with what settles its justification where that is not known as a set.
    fn step(&self, rule: &KnownRule, trail: &mut Trail) -> Result<bool, LiteralSet>
        requires { RowHolds (S.program self.now.source.now) rule.now }
        ensures { Narrowed (Model (S.program self.now.source.now)) trail.old result trail.new }
    {
        if rule.justification.is_some() {
            return trail.apply(rule.row);
        }
        if is_ripe(trail.known, rule.row) {
            if let Some(settling) = self.settling(rule, trail.known, true) {
                return trail.apply(rule.row.union(settling));
            }
        }
        Ok(false)
    }

    // The row of each rule once. The answer is whether that made something known.
    fn sweep_rows(&self, trail: &mut Trail) -> Result<bool, LiteralSet>
        ensures { Narrowed (Model (S.program self.now.source.now)) trail.old result trail.new }
    {
        let mut grew = false;
        for rule in self.rules.iter() {
            grew |= self.step(rule, trail)?;
        }
        Ok(grew)
    }

    // The rows, then the learned sets, then the literals that no model can derive: as far as the first that makes
    // something known. The answer is whether one did.
    fn round(&self, learned: &Learned, trail: &mut Trail) -> Result<bool, LiteralSet>
        requires { Learns (S.program self.now.source.now) learned.now }
        ensures { Narrowed (Model (S.program self.now.source.now)) trail.old result trail.new }
    {
        if self.sweep_rows(trail)? {
            return Ok(true);
        }
        if sweep_learned(learned, trail)? {
            return Ok(true);
        }
        self.exclude_unfounded(trail)
    }

    // Takes these rounds until none leads further.
    pub fn narrow(&self, learned: &Learned, trail: &mut Trail) -> Result<(), LiteralSet>
        requires { Learns (S.program self.now.source.now) learned.now }
        ensures { Narrowed (Model (S.program self.now.source.now)) trail.old result trail.new }
    {
        for _ in 0..ROUNDS {
            if !self.round(learned, trail)? {
                break;
            }
        }
        Ok(())
    }
}
