// The laws of an action sheet. A literal of a law is on a fluent, by the fluent's number.
ghost use Rattle.std.specs.Prelude.{Decides};
ghost use Rattle.sheets.specs.Laws.{StaticInRange, DynamicInRange, LawInRange};

use programs::literal::{Literal, LiteralSet};

// The head holds whenever the condition does.
#[derive(Clone, Copy, Default, PartialEq, Eq, Debug)]
pub struct StaticLaw {
    pub head: Literal,
    pub condition: LiteralSet,
}

// Done where the condition holds, the action makes the head hold next.
#[derive(Clone, Copy, Default, PartialEq, Eq, Debug)]
pub struct DynamicLaw {
    pub action: u8,
    pub head: Literal,
    pub condition: LiteralSet,
}

// A law of either kind.
#[derive(Clone, Copy, PartialEq, Eq, Debug)]
pub enum Law {
    Static(StaticLaw),
    Dynamic(DynamicLaw),
}

impl StaticLaw {
    // Whether every literal of the law is on one of so many fluents.
    pub fn in_range(self, fluents: u8) -> bool
        ensures { Decides result (StaticInRange fluents self) }
    {
        self.condition.is_below(fluents) && self.head.atom < fluents
    }
}

impl DynamicLaw {
    // Whether the law is on one of so many actions, and every literal of it on one of so many fluents.
    pub fn in_range(self, fluents: u8, actions: u8) -> bool
        ensures { Decides result (DynamicInRange fluents actions self) }
    {
        self.action < actions && self.head.atom < fluents && self.condition.is_below(fluents)
    }
}

impl Law {
    // Whether the law, of either kind, is in range of so many fluents and actions.
    pub fn in_range(self, fluents: u8, actions: u8) -> bool
        ensures { Decides result (LawInRange fluents actions self) }
    {
        match self {
            Law::Static(law) => law.in_range(fluents),
            Law::Dynamic(law) => law.in_range(fluents, actions),
        }
    }
}
