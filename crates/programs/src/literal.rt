// Literals, sets of literals, and interpretations.
ghost use Rattle.std.specs.Prelude.{◌≡◌, false, ◌-◌, ◌/◌, ◌%◌, ◌^◌, ◌<◌, ◌==◌, ◌≤◌, ◌⊎◌, if◌then◌else◌, Decides, MatchResult};
ghost use Rattle.programs.specs.Literals.{Member, Subset, with_literal, Added, complement as other_literal, Disjoint, Union, Difference, Complements, Below, AllTrue, Interpretation, BitBeyond, literals_of, LiteralsOfAreTheTrueOnes};
ghost use Rattle.programs.specs.Refusals.{number};

use crate::refusal::Refusal;

// The most atoms that a program may have: the width of a word of atoms.
pub const MAX_ATOMS: u8 = 64;

// An atom or its negation. Its default, like a set's, only fills the free places of a vector of fixed capacity.
#[derive(Clone, Copy, Default, PartialEq, Eq, Debug)]
pub struct Literal {
    pub atom: u8,
    pub negative: bool,
}

// A set of literals: bit i of `positive` is atom i, bit i of `negative` its negation. It may hold both.
#[derive(Clone, Copy, Default, PartialEq, Eq, Debug)]
pub struct LiteralSet {
    pub positive: u64,
    pub negative: u64,
}

// Whether `word` numbers an interpretation of so many atoms: it has no bit at or above them.
pub fn is_interpretation(atoms: u8, word: u64) -> bool
    ensures decides { Decides result (Interpretation atoms word) }
    ensures beyond { result ≡ false → BitBeyond atoms word }
{
    atoms >= MAX_ATOMS || word >> atoms == 0
}

// The word with a bit for each of so many atoms.
fn all_atoms(atoms: u8) -> u64
    requires { atoms ≤ 64 }
    ensures { result ≡ 2 ^ atoms - 1 }
{
    if atoms == MAX_ATOMS {
        u64::MAX
    } else {
        (1u64 << atoms) - 1
    }
}

impl Literal {
    // The atom itself; its negation is the complement of that.
    pub fn positive(atom: u8) -> Literal
        ensures { result ≡ record { atom = atom; negative = false } }
    {
        Literal {
            atom,
            negative: false,
        }
    }

    // The literals by number: each atom, and after it its negation.
    pub fn numbered(number: u8) -> Literal
        ensures { result ≡ record { atom = number / 2; negative = (number % 2 == 1) } }
    {
        Literal {
            atom: number / 2,
            negative: number % 2 == 1,
        }
    }

    // The other literal of the atom.
    pub fn complement(self) -> Literal
        ensures { result ≡ other_literal self }
    {
        Literal {
            atom: self.atom,
            negative: !self.negative,
        }
    }
}

impl LiteralSet {
    pub const EMPTY: LiteralSet = LiteralSet {
        positive: 0,
        negative: 0,
    };

    // The literals that are true in an interpretation: its number, and the complement of that.
    pub fn of_interpretation(atoms: u8, word: u64) -> Result<LiteralSet, Refusal>
        ensures { MatchResult result (λ x. (atoms ≤ 64) × Interpretation atoms word × (x ≡ literals_of atoms word) × LiteralsOfAreTheTrueOnes atoms word) (λ e. ((64 < atoms) ⊎ BitBeyond atoms word) × (number e ≡ 6)) }
    {
        if atoms > MAX_ATOMS || !is_interpretation(atoms, word) {
            return Err(Refusal::OutOfRange);
        }
        Ok(LiteralSet {
            positive: word,
            negative: all_atoms(atoms) - word,
        })
    }

    // Whether the literal is in the set.
    pub fn contains(self, literal: Literal) -> bool
        ensures { Decides result (Member literal self) }
    {
        literal.atom < MAX_ATOMS && self.side(literal.negative) >> literal.atom & 1 == 1
    }

    // The word of the literals of one sign.
    fn side(self, negative: bool) -> u64
        ensures { result ≡ (if negative then self.negative else self.positive) }
    {
        if negative {
            self.negative
        } else {
            self.positive
        }
    }

    // The set with one literal more.
    pub fn with(self, literal: Literal) -> Result<LiteralSet, Refusal>
        ensures { MatchResult result (λ x. (literal.atom < 64) × (x ≡ with_literal self literal) × Added self literal x) (λ e. (64 ≤ literal.atom) × (number e ≡ 6)) }
    {
        if literal.atom >= MAX_ATOMS {
            return Err(Refusal::OutOfRange);
        }
        let bit = 1u64 << literal.atom;
        let mut more = self;
        if literal.negative {
            more.negative |= bit;
        } else {
            more.positive |= bit;
        }
        Ok(more)
    }

    // The questions and operations below apply one operator to each of the two words. One function that is given the
    // operator would be no plainer, being longer than any of them.

    // Whether the set has every literal of the other.
    pub fn includes(self, other: LiteralSet) -> bool
        ensures { Decides result (Subset other self) }
    {
        self.positive & other.positive == other.positive
            && self.negative & other.negative == other.negative
    }

    // Whether the sets have no literal in common.
    pub fn is_disjoint(self, other: LiteralSet) -> bool
        ensures { Decides result (Disjoint self other) }
    {
        self.positive & other.positive == 0 && self.negative & other.negative == 0
    }

    // The literals of either set.
    pub fn union(self, other: LiteralSet) -> LiteralSet
        ensures { Union self other result }
    {
        LiteralSet {
            positive: self.positive | other.positive,
            negative: self.negative | other.negative,
        }
    }

    // The literals of the set that are not in the other.
    pub fn difference(self, other: LiteralSet) -> LiteralSet
        ensures { Difference self other result }
    {
        LiteralSet {
            positive: self.positive & !other.positive,
            negative: self.negative & !other.negative,
        }
    }

    // The complement of each literal of the set.
    pub fn complements(self) -> LiteralSet
        ensures { Complements self result }
    {
        LiteralSet {
            positive: self.negative,
            negative: self.positive,
        }
    }

    // Whether every literal of the set is on one of so many atoms.
    pub fn is_below(self, atoms: u8) -> bool
        ensures { Decides result (Below atoms self) }
    {
        is_interpretation(atoms, self.positive) && is_interpretation(atoms, self.negative)
    }

    // Whether each literal of the set is true in an interpretation.
    pub fn all_true_in(self, interpretation: u64) -> bool
        ensures { Decides result (AllTrue self interpretation) }
    {
        interpretation & self.positive == self.positive && interpretation & self.negative == 0
    }
}
