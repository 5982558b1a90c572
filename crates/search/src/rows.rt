// The rules of a source, asked once, and for each of them a set of literals that no model has.
ghost use Rattle.std.specs.Prelude.{◌≡◌, ◌≤◌, true, length, Decides, MatchResult};
ghost use Rattle.std.specs.List.{All};
ghost use Rattle.search.specs.Rows.{Body, Opposes, RowOf, IsRule, Kept, Prepared, Supports};

use crate::picks::plus;
use arrayvec::ArrayVec;
use programs::literal::LiteralSet;
use programs::refusal::Refusal;
use programs::rule::MAX_RULES;
use programs::source::RuleSource;

// How far ahead a rule looks for one that opposes it. Where a formula makes a constraint, as two rules for an atom and
// its negation, and each is written as up to 64 rules, the two that belong together are this far apart.
const WINDOW: usize = 64;

// A rule: its number, its head alone in a set, its premises, a set that its justification amounts to, where the source
// has one, and its row: a set that no model has, or none in which the justification holds, where that is not known.
#[derive(Clone, Copy, Default)]
pub struct KnownRule {
    pub number: usize,
    pub head: LiteralSet,
    pub premises: LiteralSet,
    pub justification: Option<LiteralSet>,
    pub row: LiteralSet,
}

impl KnownRule {
    // The premises, and the literals of the justification where they are known.
    pub fn body(&self) -> LiteralSet
        ensures { Body self.now result }
    {
        self.justification
            .map_or(self.premises, |set| self.premises.union(set))
    }

    // Whether the rule derives a literal of the set from none of it.
    pub fn supports(&self, set: LiteralSet) -> bool
        ensures { Decides result (Supports self.now set) }
    {
        set.includes(self.head) && set.is_disjoint(self.premises)
    }

    // Whether the rule has the complement of a head as its own, and this known body.
    fn opposes(&self, head: LiteralSet, body: LiteralSet) -> bool
        ensures { result ≡ true → Opposes head body self.now }
    {
        self.justification.is_some() && self.head == head.complements() && self.body() == body
    }

    // The row of a rule that others follow, the next of them last: what no model has, since it would have to have the
    // head, or two heads that contradict each other. Of two rules that oppose each other the first has the short row,
    // which is tried before the long one of the second: what follows from it then follows from the body alone.
    fn row_before(&self, later: &[KnownRule]) -> LiteralSet
        ensures { RowOf later.now self.now result }
    {
        let body = self.body();
        let mut near = later.iter().rev().take(WINDOW);
        if self.justification.is_some() && near.any(|other| other.opposes(self.head, body)) {
            return body;
        }
        body.union(self.head.complements())
    }
}

// The rule of a number, if there is one, of which the rules that follow it were asked, the next of them last. Its row is
// found from the rest of it.
fn make_rule<S: RuleSource>(
    source: &S,
    number: usize,
    later: &[KnownRule],
) -> Result<KnownRule, Refusal>
    requires { All (IsRule (S.program source.now)) later.now }
    ensures { MatchResult result (Kept (S.program source.now) number) (λ e. length (S.program source.now).rules ≤ number) }
{
    let head = source.head(number)?;
    let premises = source.premises(number)?;
    let rule = KnownRule {
        number,
        head: plus(LiteralSet::EMPTY, head),
        premises,
        justification: source.as_literals(number),
        row: LiteralSet::EMPTY,
    };
    Ok(KnownRule {
        row: rule.row_before(later),
        ..rule
    })
}

// Puts the rules of a source into a vector, in place of what it has. Each is asked for once, from the last to the first,
// since its row depends on the rules that follow it. The vector is lent, since one that is handed out would be moved, all
// 320 KB of it.
pub fn ask_rules<S: RuleSource>(source: &S, rules: &mut ArrayVec<KnownRule, MAX_RULES>)
    ensures { Prepared (S.program source.now) rules.new.items }
{
    rules.clear();
    for number in (0..source.rule_count()).rev() {
        let rule = make_rule(source, number, rules).unwrap();
        rules.push(rule);
    }
    rules.reverse();
}
