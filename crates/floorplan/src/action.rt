// What can be done with a sheet.
use std::fmt;

// One more than the last number.
pub const ACTION_COUNT: u8 = Action::Archive as u8 + 1;

// In the order of their numbers, by which laws know them.
#[derive(Clone, Copy, PartialEq, Eq, Debug)]
pub enum Action {
    Draft,
    File,
    Review,
    Issue,
    Send,
    Supersede,
    Archive,
}

// A number that no action has.
#[derive(Clone, Copy, PartialEq, Eq, Debug)]
pub struct NoAction;

impl Action {
    pub const ALL: [Action; ACTION_COUNT as usize] = [
        Action::Draft,
        Action::File,
        Action::Review,
        Action::Issue,
        Action::Send,
        Action::Supersede,
        Action::Archive,
    ];
}

// One chain, as for fluents: a trait has an impl for each type.
impl TryFrom<u8> for Action {
    type Error = NoAction;

    fn try_from(number: u8) -> Result<Action, NoAction> {
        Action::ALL
            .get(usize::from(number))
            .copied()
            .ok_or(NoAction)
    }
}

impl fmt::Display for Action {
    fn fmt<W: fmt::Write>(&self, f: &mut fmt::Formatter<W>) -> fmt::Result {
        f.write_str(match self {
            Action::Draft => "draft",
            Action::File => "file",
            Action::Review => "review",
            Action::Issue => "issue",
            Action::Send => "send",
            Action::Supersede => "supersede",
            Action::Archive => "archive",
        })
    }
}

impl fmt::Display for NoAction {
    fn fmt<W: fmt::Write>(&self, f: &mut fmt::Formatter<W>) -> fmt::Result {
        f.write_str("no action")
    }
}
