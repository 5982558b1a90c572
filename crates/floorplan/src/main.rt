//! Follows one sheet of a building project, A-104, from the drafter's laptop to the archive: at each move it asks which
//! states the project's laws allow next, and at hand-over it writes the archive entry.
#![tactic(auto)]

use crate::action::{ACTION_COUNT, Action};
use crate::allowed::{first_allowed, next_states, none_after};
use crate::fluent::FLUENT_COUNT;
use crate::project::{LAWS, MOVES, Move};
use crate::written::{AllowedStates, Entry, State};
use sheets::action_sheet::ActionSheet;

mod action;
mod allowed;
mod fluent;
mod following;
mod project;
mod written;

fn main(rt: HostRuntime) -> anyhow::Result<()> {
    follow(&rt)
}

fn follow(rt: &HostRuntime) -> anyhow::Result<()> {
    let sheet = ActionSheet::new(FLUENT_COUNT, ACTION_COUNT, &LAWS)?;
    println!(rt; "SHEET A-104, from the drafter's laptop to the archive")?;
    println!(rt;
        "Each block says where an action is tried, and has the state of the sheet (what is not named"
    )?;
    println!(rt;
        "does not hold), the action, and every state that the project's laws allow next. Of several the"
    )?;
    println!(rt; "first is taken; where there is none, nothing is done.")?;
    let mut state = 0;
    for step in MOVES {
        state = make_move(rt, &sheet, state, step)?;
    }
    Ok(())
}

// Tells which states may follow a move, and answers the state that it leaves: the first of them, or the same as before.
fn make_move(
    rt: &HostRuntime,
    sheet: &ActionSheet,
    state: usize,
    step: Move,
) -> anyhow::Result<usize> {
    let Move { place, action } = step;
    println!(rt; "\nAt {place}")?;
    println!(rt; "  state:      {}", State(state))?;
    println!(rt; "  action:     {action}")?;
    let allowed = next_states(sheet, state, action as u8)?;
    println!(rt; "  may follow: {}", AllowedStates(&allowed))?;
    let Some(found) = first_allowed(&allowed) else {
        return Ok(state);
    };
    if action == Action::Archive {
        let entry = Entry {
            before: State(state),
            found: State(found),
            is_last: none_after(&allowed, found),
        };
        println!(rt; "\n{entry}")?;
    }
    Ok(found)
}
