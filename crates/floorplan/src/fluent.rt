// What is said of a sheet.
use std::fmt;

// One more than the last number.
pub const FLUENT_COUNT: u8 = Fluent::Archived as u8 + 1;

// In the order of their numbers, by which laws and states know them.
#[derive(Clone, Copy, PartialEq, Eq, Debug)]
pub enum Fluent {
    Drafted,
    Filed,
    Checked,
    Approved,
    Returned,
    Issued,
    OnSite,
    Superseded,
    Archived,
}

// A number that no fluent has.
#[derive(Clone, Copy, PartialEq, Eq, Debug)]
pub struct NoFluent;

impl Fluent {
    pub const ALL: [Fluent; FLUENT_COUNT as usize] = [
        Fluent::Drafted,
        Fluent::Filed,
        Fluent::Checked,
        Fluent::Approved,
        Fluent::Returned,
        Fluent::Issued,
        Fluent::OnSite,
        Fluent::Superseded,
        Fluent::Archived,
    ];
}

impl TryFrom<u8> for Fluent {
    type Error = NoFluent;

    fn try_from(number: u8) -> Result<Fluent, NoFluent> {
        Fluent::ALL
            .get(usize::from(number))
            .copied()
            .ok_or(NoFluent)
    }
}

impl fmt::Display for Fluent {
    fn fmt<W: fmt::Write>(&self, f: &mut fmt::Formatter<W>) -> fmt::Result {
        f.write_str(match self {
            Fluent::Drafted => "drafted",
            Fluent::Filed => "filed",
            Fluent::Checked => "checked",
            Fluent::Approved => "approved",
            Fluent::Returned => "returned",
            Fluent::Issued => "issued",
            Fluent::OnSite => "on_site",
            Fluent::Superseded => "superseded",
            Fluent::Archived => "archived",
        })
    }
}

impl fmt::Display for NoFluent {
    fn fmt<W: fmt::Write>(&self, f: &mut fmt::Formatter<W>) -> fmt::Result {
        f.write_str("no fluent")
    }
}
