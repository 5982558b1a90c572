// How a state, a law, the allowed states and the archive entry are written.
ghost use Rattle.std.specs.Iterator.{IsFinite};

use crate::action::Action;
use crate::allowed::first_allowed;
use crate::fluent::{FLUENT_COUNT, Fluent};
use crate::project::LAWS;
use programs::literal::{Literal, LiteralSet};
use sheets::law::Law;
use std::fmt;

// Writes each item, with a lead before the first and a joint before every other.
fn write_joined<W: fmt::Write, I: Iterator<Item: fmt::Display + Drop> + Drop>(
    f: &mut fmt::Formatter<W>,
    mut items: I,
    lead: &str,
    joint: &str,
) -> fmt::Result
    requires can { I.can_next items }
    requires ends { IsFinite (I.remaining items) }
{
    if let Some(first) = items.next() {
        write!(f, "{lead}{first}")?;
        for item in items {
            write!(f, "{joint}{item}")?;
        }
    }
    Ok(())
}

// A state, by the fluents that are true in it.
#[derive(Clone, Copy)]
pub struct State(pub usize);

impl fmt::Display for State {
    fn fmt<W: fmt::Write>(&self, f: &mut fmt::Formatter<W>) -> fmt::Result {
        if self.0 == 0 {
            return f.write_str("nothing holds yet");
        }
        let fluents = Fluent::ALL
            .into_iter()
            .filter(|fluent| self.0 >> *fluent as u8 & 1 == 1);
        write_joined(f, fluents, "", ", ")
    }
}

// The states that are allowed, each on a line of its own.
#[derive(Clone, Copy)]
pub struct AllowedStates<'a>(pub &'a [bool]);

impl fmt::Display for AllowedStates<'_> {
    fn fmt<W: fmt::Write>(&self, f: &mut fmt::Formatter<W>) -> fmt::Result {
        if first_allowed(self.0).is_none() {
            return f.write_str("no state at all");
        }
        let states = self
            .0
            .iter()
            .enumerate()
            .filter_map(|(state, is_allowed)| is_allowed.then_some(State(state)));
        write_joined(f, states, "", "\n          or: ")
    }
}

// What a number of a law names, or that it names nothing.
#[derive(Clone, Copy)]
struct Named<T, E>(Result<T, E>);

impl<T: fmt::Display, E: fmt::Display> fmt::Display for Named<T, E> {
    fn fmt<W: fmt::Write>(&self, f: &mut fmt::Formatter<W>) -> fmt::Result {
        match &self.0 {
            Ok(named) => named.fmt(f),
            Err(unknown) => unknown.fmt(f),
        }
    }
}

// A literal of a law: "fluent" or "not fluent".
#[derive(Clone, Copy)]
struct WrittenLiteral(Literal);

impl fmt::Display for WrittenLiteral {
    fn fmt<W: fmt::Write>(&self, f: &mut fmt::Formatter<W>) -> fmt::Result {
        if self.0.negative {
            f.write_str("not ")?;
        }
        Named(Fluent::try_from(self.0.atom)).fmt(f)
    }
}

// The condition of a law, as it follows the head: " if literal, literal", or nothing where it always holds.
#[derive(Clone, Copy)]
struct WrittenCondition(LiteralSet);

impl fmt::Display for WrittenCondition {
    fn fmt<W: fmt::Write>(&self, f: &mut fmt::Formatter<W>) -> fmt::Result {
        let literals = (0..2 * FLUENT_COUNT)
            .map(Literal::numbered)
            .filter(|literal| self.0.contains(*literal))
            .map(WrittenLiteral);
        write_joined(f, literals, " if ", ", ")
    }
}

// A law as it is written on a sheet: "head if condition." or "action causes head if condition."
#[derive(Clone, Copy)]
struct WrittenLaw(Law);

impl fmt::Display for WrittenLaw {
    fn fmt<W: fmt::Write>(&self, f: &mut fmt::Formatter<W>) -> fmt::Result {
        match self.0 {
            Law::Static(law) => {
                let head = WrittenLiteral(law.head);
                let condition = WrittenCondition(law.condition);
                write!(f, "{head}{condition}.")
            }
            Law::Dynamic(law) => {
                let action = Named(Action::try_from(law.action));
                let head = WrittenLiteral(law.head);
                let condition = WrittenCondition(law.condition);
                write!(f, "{action} causes {head}{condition}.")
            }
        }
    }
}

// What the archive keeps of the hand-over.
#[derive(Clone, Copy)]
pub struct Entry {
    pub before: State,
    pub found: State,
    // Whether no state after the one found was allowed.
    pub is_last: bool,
}

impl fmt::Display for Entry {
    fn fmt<W: fmt::Write>(&self, f: &mut fmt::Formatter<W>) -> fmt::Result {
        writeln!(f, "ARCHIVE ENTRY, sheet A-104, at the action archive")?;
        writeln!(f, "  laws:")?;
        for law in LAWS {
            writeln!(f, "    {}", WrittenLaw(law))?;
        }
        writeln!(f, "  state before: {}", self.before)?;
        writeln!(f, "  state found:  {}", self.found)?;
        f.write_str(if self.is_last {
            "  No further state was allowed."
        } else {
            "  Further states were allowed."
        })
    }
}
