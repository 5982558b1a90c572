// Picking bits out of words and literals out of sets.
ghost use Rattle.std.specs.Prelude.{◌≡◌, ℕ, ◌<◌, Decides, MatchOption};
ghost use Rattle.programs.specs.declared.literal.Literal.{Literal as SomeLiteral};
ghost use Rattle.programs.specs.Literals.{bit, Member, with_literal, Added};
ghost use Rattle.search.specs.Nogoods.{Agrees};
ghost use Rattle.search.specs.Trails.{Counted};

use programs::literal::{Literal, LiteralSet};

// How many literals are left over. An option in an option would be no plainer for three cases.
#[derive(Clone, Copy)]
pub enum Count {
    Nothing,
    One(Literal),
    Several,
}

// The place of the highest bit.
pub fn highest(word: u64) -> Option<u8>
    ensures { MatchOption result (word ≡ 0) (λ a. (a < 64) × (bit word a ≡ 1) × ((i : ℕ) → a < i → bit word i ≡ 0)) }
{
    word.checked_ilog2().map(|place| place as u8)
}

// The literal on the highest atom of the set.
pub fn pick(set: LiteralSet) -> Option<Literal>
    ensures { MatchOption result ((l : SomeLiteral) → Member l set → ⊥) (λ l. (l.atom < 64) × Member l set) }
{
    let literal = Literal::positive(highest(set.positive | set.negative)?);
    if set.contains(literal) {
        return Some(literal);
    }
    Some(literal.complement())
}

// The set with one literal more. That the atom is below 64 stands in the clause: in the type of a literal it would ask more of
// all callers.
pub fn plus(set: LiteralSet, literal: Literal) -> LiteralSet
    requires { literal.atom < 64 }
    ensures { (result ≡ with_literal set literal) × Added set literal result }
{
    set.with(literal).unwrap()
}

// Whether no literal of the set is the complement of one that is known.
pub fn agrees(set: LiteralSet, known: LiteralSet) -> bool
    ensures { Decides result (Agrees set known) }
{
    set.is_disjoint(known.complements())
}

// How many literals the set has, and which where it is one.
pub fn count_literals(set: LiteralSet) -> Count
    ensures { Counted set result }
{
    let Some(literal) = pick(set) else {
        return Count::Nothing;
    };
    if set == plus(LiteralSet::EMPTY, literal) {
        return Count::One(literal);
    }
    Count::Several
}
