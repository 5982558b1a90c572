// Sets that a search has found no model to have, and a count of its nodes.
ghost use Rattle.std.specs.Prelude.{◌≡◌, ◌<◌, ◌≤◌};

use arrayvec::ArrayVec;
use programs::literal::LiteralSet;

// How many sets are kept.
const PLACES: usize = 256;

// The last sets that were learned, and the place of the one that is written over next, once all places are taken. That
// they are right stays in the contracts: the program they speak of belongs to another value, the problem that is
// searched, and a struct of both would be no plainer, since each contract would have to say that its source stays the
// same.
#[derive(Drop)]
pub struct Learned {
    pub sets: ArrayVec<LiteralSet, PLACES>,
    oldest: usize,
    pub nodes: u64,
    ghost in_place: { oldest < 256 },
}

impl Learned {
    ghost use Rattle.programs.specs.Programs.{Program};
    ghost use Rattle.search.specs.Nogoods.{NoGood};
    ghost use Rattle.search.specs.Rows.{Learns};

    // Nothing learned yet.
    pub fn new() -> Learned
        ensures { (p : Program) → Learns p result }
    {
        Learned {
            sets: ArrayVec::new(),
            oldest: 0,
            nodes: 0,
        }
    }

    // Keeps one set more, in the place of the oldest where all are taken.
    pub fn keep(&mut self, set: LiteralSet)
        ensures { (self.new.nodes ≡ self.old.nodes) × ((p : Program) → Learns p self.old → NoGood p set → Learns p self.new) }
    {
        if self.sets.is_full() {
            self.sets[self.oldest] = set;
            self.oldest = (self.oldest + 1) % PLACES;
        } else {
            self.sets.push(set);
        }
    }

    // Counts a node. That there was one is said again by each search, of the count that it leaves.
    pub fn count_node(&mut self)
        ensures { (1 ≤ self.new.nodes) × ((p : Program) → Learns p self.old → Learns p self.new) }
    {
        self.nodes = self.nodes.saturating_add(1);
    }
}
