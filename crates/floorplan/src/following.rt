// The next state that the laws allow, found by the search.
ghost use Rattle.std.specs.Prelude.{◌≡◌, ◌<◌, ◌≤◌, MatchOption, MatchResult};
ghost use Rattle.programs.specs.Refusals.{number};
ghost use Rattle.floorplan.specs.Following.{StateIn, steps_to, AnswersNextState};

use crate::allowed::{LATER, STATES, known_before};
use crate::fluent::FLUENT_COUNT;
use programs::literal::LiteralSet;
use programs::refusal::Refusal;
use programs::source::RuleSource;
use search::smallest::smallest_above_with;

// The number of atoms, at both times.
const ATOMS: u8 = LATER + FLUENT_COUNT;

// The number of the step that leads to a state, where one is named.
fn step_to(known: u64, state: Option<usize>) -> Result<Option<u64>, Refusal>
    ensures { MatchResult result (λ mark. StateIn state × (mark ≡ steps_to known state)) (λ e. (StateIn state → ⊥) × (number e ≡ 6)) }
{
    if state.is_some_and(|state| state >= STATES) {
        return Err(Refusal::OutOfRange);
    }
    Ok(state.map(|state| known | (state as u64) << LATER))
}

// The first state that may follow a state when an action is taken; where a state is named, the first above that.
// A public call keeps its signature: the state and the action are numbers, and one that is out of range is refused.
pub fn next_state<S: RuleSource>(
    source: &S,
    before: usize,
    action: u8,
    above: Option<usize>,
) -> Result<Option<usize>, Refusal>
    ensures { AnswersNextState (S.program source.now) before action above result }
{
    if source.atoms() != ATOMS {
        return Err(Refusal::OutOfRange);
    }
    let known = known_before(before, action)?;
    let mark = step_to(known, above)?;
    let given = LiteralSet::of_interpretation(LATER, known)?;
    let found = smallest_above_with(source, given, mark)?;
    Ok(found.model.map(|model| (model >> LATER) as usize))
}
