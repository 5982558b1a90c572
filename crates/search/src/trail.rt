// What is known at a node of the search, and why.
ghost use Rattle.std.specs.Prelude.{◌≡◌, ℕ, ◌^◌, ◌<◌, length, slice_index_or};
ghost use Rattle.programs.specs.Literals.{Subset, no_literals};
ghost use Rattle.search.specs.Nogoods.{Consistent};

use crate::picks::{Count, agrees, count_literals, highest, plus};
use programs::literal::{Literal, LiteralSet, MAX_ATOMS};

// The literals that a node starts from, those that are known by now, and for each atom that became known since, the
// part of the start that its literal follows from. What is known has the start, and does not contradict itself.
#[derive(Clone, Copy)]
pub struct Trail {
    pub start: LiteralSet,
    pub known: LiteralSet,
    pub reasons: [LiteralSet; MAX_ATOMS as usize],
    ghost sized: { length reasons ≡ 64 },
    ghost wide: { (known.positive < 2 ^ 64) × (known.negative < 2 ^ 64) },
    ghost started: { Subset start known },
    ghost consistent: { Consistent known },
    ghost within: { (i : ℕ) → i < 64 → Subset (slice_index_or reasons i no_literals) start },
}

impl Trail {
    ghost use Rattle.programs.specs.Literals.{Member, complement as other_literal};
    ghost use Rattle.search.specs.Trails.{Respects, Behind, Extended, UnitStep};

    // The trail on which nothing has been found yet.
    pub fn starting(start: LiteralSet) -> Trail
        requires { Consistent start }
        ensures { (result.start ≡ start) × (result.known ≡ start) × ((w : ℕ) → Respects w result) }
    {
        Trail {
            start,
            known: start,
            reasons: [LiteralSet::EMPTY; MAX_ATOMS as usize],
        }
    }

    // The part of the start that lies behind some known literals. It goes through the bits of the atoms that became
    // known: a loop over all reasons would be no plainer, since it has to ask of each whether its atom is one of them.
    pub fn behind(&self, set: LiteralSet) -> LiteralSet
        requires { Subset set self.now.known }
        ensures { Behind self.now set result }
    {
        let found = set.difference(self.start);
        let mut reason = set.difference(found);
        let mut rest = found.positive | found.negative;
        while let Some(atom) = highest(rest) {
            reason = reason.union(self.reasons[atom as usize]);
            rest &= !(1 << atom);
        }
        reason
    }

    // Makes a literal known, for a reason.
    fn add(&mut self, literal: Literal, reason: LiteralSet)
        requires { literal.atom < 64 × (Member literal self.old.known → ⊥) × (Member (other_literal literal) self.old.known → ⊥) × Subset reason self.old.start }
        ensures { Extended self.old literal reason self.new }
    {
        self.known = plus(self.known, literal);
        self.reasons[literal.atom as usize] = reason;
    }

    // The unit step, for a set that no model has. Where it is known but for one literal, the complement of that becomes
    // known, and the answer is true. Where all of it is known, the start has been refuted, by the part that lies
    // behind.
    pub fn apply(&mut self, nogood: LiteralSet) -> Result<bool, LiteralSet>
        ensures { UnitStep nogood self.old result self.new }
    {
        if !agrees(nogood, self.known) {
            return Ok(false);
        }
        let left = nogood.difference(self.known);
        match count_literals(left) {
            Count::Nothing => Err(self.behind(nogood)),
            Count::One(literal) => {
                let reason = self.behind(nogood.difference(left));
                self.add(literal.complement(), reason);
                Ok(true)
            }
            Count::Several => Ok(false),
        }
    }
}
