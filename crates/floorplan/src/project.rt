// The project: its laws, and the moves of sheet A-104. A constant cannot call a function, so the laws spell their literals out.
use crate::action::Action;
use crate::fluent::Fluent;
use programs::literal::{Literal, LiteralSet};
use sheets::law::{DynamicLaw, Law, StaticLaw};

// "drafted if filed." and so on: what holds of every state.
const DRAFTED_IF_FILED: StaticLaw = StaticLaw {
    head: Literal {
        atom: Fluent::Drafted as u8,
        negative: false,
    },
    condition: LiteralSet {
        positive: 1 << Fluent::Filed as u8,
        negative: 0,
    },
};

const APPROVED_UNLESS_RETURNED: StaticLaw = StaticLaw {
    head: Literal {
        atom: Fluent::Approved as u8,
        negative: false,
    },
    condition: LiteralSet {
        positive: 1 << Fluent::Checked as u8,
        negative: 1 << Fluent::Returned as u8,
    },
};

const RETURNED_UNLESS_APPROVED: StaticLaw = StaticLaw {
    head: Literal {
        atom: Fluent::Returned as u8,
        negative: false,
    },
    condition: LiteralSet {
        positive: 1 << Fluent::Checked as u8,
        negative: 1 << Fluent::Approved as u8,
    },
};

const APPROVED_IF_ISSUED: StaticLaw = StaticLaw {
    head: Literal {
        atom: Fluent::Approved as u8,
        negative: false,
    },
    condition: LiteralSet {
        positive: 1 << Fluent::Issued as u8,
        negative: 0,
    },
};

const ISSUED_IF_ON_SITE: StaticLaw = StaticLaw {
    head: Literal {
        atom: Fluent::Issued as u8,
        negative: false,
    },
    condition: LiteralSet {
        positive: 1 << Fluent::OnSite as u8,
        negative: 0,
    },
};

const NOT_ON_SITE_IF_SUPERSEDED: StaticLaw = StaticLaw {
    head: Literal {
        atom: Fluent::OnSite as u8,
        negative: true,
    },
    condition: LiteralSet {
        positive: 1 << Fluent::Superseded as u8,
        negative: 0,
    },
};

const NOT_ARCHIVED_IF_ON_SITE: StaticLaw = StaticLaw {
    head: Literal {
        atom: Fluent::Archived as u8,
        negative: true,
    },
    condition: LiteralSet {
        positive: 1 << Fluent::OnSite as u8,
        negative: 0,
    },
};

// "draft causes drafted." and so on: what an action makes hold next.
const DRAFTING: DynamicLaw = DynamicLaw {
    action: Action::Draft as u8,
    head: Literal {
        atom: Fluent::Drafted as u8,
        negative: false,
    },
    condition: LiteralSet::EMPTY,
};

const FILING: DynamicLaw = DynamicLaw {
    action: Action::File as u8,
    head: Literal {
        atom: Fluent::Filed as u8,
        negative: false,
    },
    condition: LiteralSet {
        positive: 1 << Fluent::Drafted as u8,
        negative: 0,
    },
};

const REVIEWING: DynamicLaw = DynamicLaw {
    action: Action::Review as u8,
    head: Literal {
        atom: Fluent::Checked as u8,
        negative: false,
    },
    condition: LiteralSet {
        positive: 1 << Fluent::Filed as u8,
        negative: 0,
    },
};

const ISSUING: DynamicLaw = DynamicLaw {
    action: Action::Issue as u8,
    head: Literal {
        atom: Fluent::Issued as u8,
        negative: false,
    },
    condition: LiteralSet {
        positive: 1 << Fluent::Approved as u8,
        negative: 0,
    },
};

const SENDING: DynamicLaw = DynamicLaw {
    action: Action::Send as u8,
    head: Literal {
        atom: Fluent::OnSite as u8,
        negative: false,
    },
    condition: LiteralSet {
        positive: 1 << Fluent::Issued as u8,
        negative: 1 << Fluent::Superseded as u8,
    },
};

const SUPERSEDING: DynamicLaw = DynamicLaw {
    action: Action::Supersede as u8,
    head: Literal {
        atom: Fluent::Superseded as u8,
        negative: false,
    },
    condition: LiteralSet {
        positive: 1 << Fluent::Issued as u8,
        negative: 0,
    },
};

const ARCHIVING: DynamicLaw = DynamicLaw {
    action: Action::Archive as u8,
    head: Literal {
        atom: Fluent::Archived as u8,
        negative: false,
    },
    condition: LiteralSet {
        positive: 1 << Fluent::Issued as u8,
        negative: 0,
    },
};

pub const LAWS: [Law; 14] = [
    Law::Static(DRAFTED_IF_FILED),
    Law::Static(APPROVED_UNLESS_RETURNED),
    Law::Static(RETURNED_UNLESS_APPROVED),
    Law::Static(APPROVED_IF_ISSUED),
    Law::Static(ISSUED_IF_ON_SITE),
    Law::Static(NOT_ON_SITE_IF_SUPERSEDED),
    Law::Static(NOT_ARCHIVED_IF_ON_SITE),
    Law::Dynamic(DRAFTING),
    Law::Dynamic(FILING),
    Law::Dynamic(REVIEWING),
    Law::Dynamic(ISSUING),
    Law::Dynamic(SENDING),
    Law::Dynamic(SUPERSEDING),
    Law::Dynamic(ARCHIVING),
];

// What is done with the sheet, and where.
#[derive(Clone, Copy)]
pub struct Move {
    pub place: &'static str,
    pub action: Action,
}

pub const MOVES: [Move; 8] = [
    Move {
        place: "the drafter's laptop",
        action: Action::Draft,
    },
    Move {
        place: "the office store",
        action: Action::File,
    },
    Move {
        place: "the office store",
        action: Action::Review,
    },
    Move {
        place: "the office store",
        action: Action::Issue,
    },
    Move {
        place: "the site tablet",
        action: Action::Send,
    },
    Move {
        place: "the archive",
        action: Action::Archive,
    },
    Move {
        place: "the office store",
        action: Action::Supersede,
    },
    Move {
        place: "the archive",
        action: Action::Archive,
    },
];
