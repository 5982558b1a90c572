// The smallest model above a number.
ghost use Rattle.std.specs.Prelude.{◌≡◌, ℕ, ◌<◌, ◌≤◌, true, is_some, Some, MatchOption, MatchResult};
ghost use Rattle.programs.specs.Literals.{bit, Below};
ghost use Rattle.programs.specs.Programs.{Model};
ghost use Rattle.programs.specs.Refusals.{number};
ghost use Rattle.search.specs.Nogoods.{NoGood, Consistent, SmallestWith, Searched};
ghost use Rattle.search.specs.Rows.{Learns};
ghost use Rattle.search.specs.Searches.{ModelAbove, ModelAboveWith, NamesSmallest, BlockOf};
ghost use Rattle.search.specs.Trails.{Respects, Decided};

use crate::learned::Learned;
use crate::picks::{agrees, highest, plus};
use crate::problem::Problem;
use crate::trail::Trail;
use arrayvec::ArrayVec;
use programs::closure::check;
use programs::literal::{Literal, LiteralSet};
use programs::refusal::Refusal;
use programs::source::RuleSource;

// What a search found: the smallest model that was asked for, or none, and how many nodes it visited on the way.
#[derive(Clone, Copy, PartialEq, Eq, Debug)]
pub struct Found {
    pub model: Option<u64>,
    pub nodes: u64,
}

// The atoms, of so many, that are not decided by what is known: the bits of a word.
fn undecided(atoms: u8, known: LiteralSet) -> u64
    requires { atoms ≤ 64 }
    ensures { (i : ℕ) → (bit result i ≡ 1 → Decided i known → ⊥) × (i < atoms → bit result i ≡ 0 → Decided i known) }
{
    let all = LiteralSet::of_interpretation(atoms, 0).unwrap().negative;
    all & !(known.positive | known.negative)
}

// The literals of the numbers that agree with the mark above an atom, and in which that atom is true.
fn block(mark: LiteralSet, atom: u8) -> LiteralSet
    requires { atom < 64 }
    ensures { BlockOf mark atom result }
{
    let here = 1u64 << atom;
    let low = here | (here - 1);
    let above = mark.difference(LiteralSet {
        positive: low,
        negative: low,
    });
    plus(above, Literal::positive(atom))
}

impl<'a, S: RuleSource> Problem<'a, S> {
    // The answer where every atom is decided: this one interpretation, or none.
    fn settle(&self, trail: &Trail) -> Result<u64, LiteralSet>
        requires { ((w : ℕ) → Model (S.program self.now.source.now) w → Respects w trail.now) × ((i : ℕ) → i < (S.program self.now.source.now).atoms → Decided i trail.now.known) }
        ensures { Searched (S.program self.now.source.now) trail.now.start result }
    {
        let word = trail.known.positive;
        if check(self.source, word) == Ok(true) {
            Ok(word)
        } else {
            Err(trail.start)
        }
    }

    // The smallest model that has the literals of the start, or a part of the start that no model has. What follows is
    // found without a choice; then the highest undecided atom is tried, false first, so that the first model found is
    // the smallest.
    fn search(&self, learned: &mut Learned, start: LiteralSet) -> Result<u64, LiteralSet>
        requires { Learns (S.program self.now.source.now) learned.old × Consistent start }
        ensures { Searched (S.program self.now.source.now) start result × Learns (S.program self.now.source.now) learned.new × 1 ≤ learned.new.nodes }
    {
        learned.count_node();
        let mut trail = Trail::starting(start);
        loop {
            if let Err(reason) = self.narrow(learned, &mut trail) {
                learned.keep(reason);
                return Err(reason);
            }
            let Some(atom) = highest(undecided(self.source.atoms(), trail.known)) else {
                return self.settle(&trail);
            };
            let lower = plus(trail.known, Literal::positive(atom).complement());
            match self.search(learned, lower) {
                Ok(model) => return Ok(model),
                Err(nogood) => {
                    trail.apply(nogood)?;
                }
            }
        }
    }

    // The smallest model that has the literals of the start, which may contradict each other.
    fn search_from(&self, learned: &mut Learned, start: LiteralSet) -> Option<u64>
        requires { Learns (S.program self.now.source.now) learned.old }
        ensures { MatchOption result (NoGood (S.program self.now.source.now) start) (λ w. SmallestWith (S.program self.now.source.now) start w × (1 ≤ learned.new.nodes)) × Learns (S.program self.now.source.now) learned.new }
    {
        if !agrees(start, start) {
            return None;
        }
        self.search(learned, start).ok()
    }

    // The smallest model above the mark that has the given literals. The numbers above the mark fall into blocks, one
    // for each clear bit of it: those that have the bit, and agree with the mark above it. The blocks rise with the
    // bit. A `find_map` in place of the loop would get no proof: what is learned changes from call to call.
    fn search_above(&self, learned: &mut Learned, given: LiteralSet, mark: u64) -> Option<u64>
        requires { Learns (S.program self.now.source.now) learned.old }
        ensures { NamesSmallest (ModelAboveWith (S.program self.now.source.now) given (Some mark)) result × (is_some result ≡ true → 1 ≤ learned.new.nodes) }
    {
        let own = LiteralSet::of_interpretation(self.source.atoms(), mark).ok()?;
        for atom in 0..self.source.atoms() {
            if mark >> atom & 1 == 0 {
                let start = given.union(block(own, atom));
                if let Some(model) = self.search_from(learned, start) {
                    return Some(model);
                }
            }
        }
        None
    }
}

// The smallest model above the mark, or of all models where there is no mark, that has the given literals.
pub fn smallest_above_with<S: RuleSource>(
    source: &S,
    given: LiteralSet,
    mark: Option<u64>,
) -> Result<Found, Refusal>
    ensures { MatchResult result (λ found. Below (S.program source.now).atoms given × NamesSmallest (ModelAboveWith (S.program source.now) given mark) found.model × (is_some found.model ≡ true → 1 ≤ found.nodes)) (λ e. (Below (S.program source.now).atoms given → ⊥) × (number e ≡ 6)) }
{
    if !given.is_below(source.atoms()) {
        return Err(Refusal::OutOfRange);
    }
    let mut rules = ArrayVec::new();
    let problem = Problem::new(source, &mut rules);
    let mut learned = Learned::new();
    let model = match mark {
        Some(mark) => problem.search_above(&mut learned, given, mark),
        None => problem.search_from(&mut learned, given),
    };
    Ok(Found {
        model,
        nodes: learned.nodes,
    })
}

// The smallest model above the mark, or of all models where there is no mark; none exactly where there is none.
pub fn smallest_above<S: RuleSource>(source: &S, mark: Option<u64>) -> Option<u64>
    ensures { NamesSmallest (ModelAbove (S.program source.now) mark) result }
{
    smallest_above_with(source, LiteralSet::EMPTY, mark)
        .unwrap()
        .model
}
