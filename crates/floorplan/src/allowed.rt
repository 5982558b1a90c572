// Which states the laws allow next.
ghost use Rattle.std.specs.Prelude.{Decides};
ghost use Rattle.floorplan.specs.Next.{AnswersKnown, AnswersNext, FirstMarked, NoneAfter};

use crate::action::ACTION_COUNT;
use crate::fluent::FLUENT_COUNT;
use programs::closure::check;
use programs::refusal::Refusal;
use programs::source::RuleSource;

// The number of states of so many fluents.
pub const STATES: usize = 1 << FLUENT_COUNT;

// The place of the first fluent at time 1, after the fluents at time 0 and the actions.
pub const LATER: u8 = FLUENT_COUNT + ACTION_COUNT;

// The word with a state before a step, and the action that is taken.
// A public call keeps its signature: the state and the action are numbers, and one that is out of range is refused.
pub fn known_before(before: usize, action: u8) -> Result<u64, Refusal>
    ensures { AnswersKnown before action result }
{
    if before >= STATES || action >= ACTION_COUNT {
        return Err(Refusal::OutOfRange);
    }
    Ok(before as u64 | 1 << (FLUENT_COUNT + action))
}

// Of every state, whether it may follow a state when an action is taken.
pub fn next_states<S: RuleSource>(
    source: &S,
    before: usize,
    action: u8,
) -> Result<[bool; STATES], Refusal>
    ensures { AnswersNext (S.program source.now) before action result }
{
    let known = known_before(before, action)?;
    let mut allowed = [false; STATES];
    for (after, is_allowed) in allowed.iter_mut().enumerate() {
        *is_allowed = check(source, known | (after as u64) << LATER)?;
    }
    Ok(allowed)
}

// The first state that is allowed.
pub fn first_allowed(allowed: &[bool]) -> Option<usize>
    ensures { FirstMarked allowed.now result }
{
    allowed.iter().position(|is_allowed| *is_allowed)
}

// Whether no state after one is allowed.
pub fn none_after(allowed: &[bool], one: usize) -> bool
    ensures { Decides result (NoneAfter allowed.now one) }
{
    allowed
        .iter()
        .enumerate()
        .all(|(state, is_allowed)| state <= one || !*is_allowed)
}
