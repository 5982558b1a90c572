// How an action sheet is made of laws, and what it answers as a rule source.
ghost use Rattle.std.specs.Prelude.{◌≡◌, ◌+◌, ◌*◌, ◌<◌, ◌≤◌, [], map, length, Decides, MatchResult};
ghost use Rattle.std.specs.List.{range_with_len, flat_map};
ghost use Rattle.programs.specs.Literals.{Below};
ghost use Rattle.programs.specs.Programs.{rule_of};
ghost use Rattle.programs.specs.Questions.{AnswersRow};
ghost use Rattle.programs.specs.Refusals.{number};
ghost use Rattle.sheets.specs.Actions.{earlier, later, all_later, AllLaterAreTheLaterOnes, both_times, effect, inertia, choice, action_program};
ghost use Rattle.sheets.specs.Fits.{sheet_fits, program_fits};
ghost use Rattle.sheets.specs.Laws.{described, LawInRange, DescriptionFits};
ghost use Rattle.sheets.specs.Sheets.{description};
ghost use Rattle.sheets.specs.Steps.{with_law, rule_in};

use crate::action_sheet::{ActionSheet, MAX_LAWS};
use crate::law::Law;
use arrayvec::ArrayVec;
use programs::literal::{Literal, LiteralSet, MAX_ATOMS};
use programs::refusal::Refusal;
use programs::rule::ClausalRule;
use programs::source::{ClausalSource, RuleSource};

// Whether there is a fluent, room for all atoms in a word, and room for the laws. The two numbers stay apart, as the public
// calls take them.
fn counts_in_range(fluents: u8, actions: u8, laws: usize) -> bool
    ensures { Decides result ((1 ≤ fluents) × (2 * fluents + actions ≤ 64) × (laws ≤ 1024)) }
{
    let atoms = 2 * usize::from(fluents) + usize::from(actions);
    fluents >= 1 && atoms <= usize::from(MAX_ATOMS) && laws <= MAX_LAWS
}

impl ActionSheet {
    // The sheet of these fluents, actions and laws, where all of them are in range.
    pub fn new(fluents: u8, actions: u8, laws: &[Law]) -> Result<ActionSheet, Refusal>
        ensures { MatchResult result (λ s. DescriptionFits (described fluents actions laws.now) × (description s ≡ described fluents actions laws.now)) (λ e. (DescriptionFits (described fluents actions laws.now) → ⊥) × (number e ≡ 6)) }
    {
        if !counts_in_range(fluents, actions, laws.len()) {
            return Err(Refusal::OutOfRange);
        }
        let mut sheet = ActionSheet::without_laws(fluents, actions);
        for law in laws {
            sheet.add(*law)?;
        }
        Ok(sheet)
    }

    // The sheet that has no law.
    fn without_laws(fluents: u8, actions: u8) -> ActionSheet
        requires { (1 ≤ fluents) × (2 * fluents + actions ≤ 64) }
        ensures { description result ≡ described fluents actions [] }
    {
        ActionSheet {
            fluents,
            actions,
            statics: ArrayVec::new(),
            dynamics: ArrayVec::new(),
        }
    }

    // Adds a law that is in range.
    fn add(&mut self, law: Law) -> Result<(), Refusal>
        requires { length self.old.statics.items + length self.old.dynamics.items < 1024 }
        ensures { MatchResult result (λ _. description self.new ≡ with_law (description self.old) law) (λ e. (LawInRange self.old.fluents self.old.actions law → ⊥) × (number e ≡ 6)) }
    {
        if !law.in_range(self.fluents, self.actions) {
            return Err(Refusal::OutOfRange);
        }
        match law {
            Law::Static(law) => self.statics.push(law),
            Law::Dynamic(law) => self.dynamics.push(law),
        }
        Ok(())
    }

    // A literal of time 0, at time 1.
    fn later_literal(&self, literal: Literal) -> Literal
        requires { literal.atom < self.now.fluents }
        ensures { result ≡ later (description self.now) literal }
    {
        Literal {
            atom: literal.atom + (self.fluents + self.actions),
            ..literal
        }
    }

    // A set of literals of time 0, at time 1.
    fn later_set(&self, set: LiteralSet) -> LiteralSet
        requires { Below self.now.fluents set }
        ensures { (result ≡ all_later (description self.now) set) × AllLaterAreTheLaterOnes (description self.now) set }
    {
        let shift = self.fluents + self.actions;
        LiteralSet {
            positive: set.positive << shift,
            negative: set.negative << shift,
        }
    }

    // Rule i of the static laws: each law at time 0, then at time 1.
    fn static_rule(&self, i: usize) -> ClausalRule
        requires { i < 2 * length self.now.statics.items }
        ensures { rule_of result ≡ rule_in (flat_map (both_times (description self.now)) (description self.now).statics) i }
    {
        let law = self.statics[i / 2];
        if i % 2 == 0 {
            return ClausalRule {
                head: law.head,
                premises: law.condition,
                justification: LiteralSet::EMPTY,
            };
        }
        ClausalRule {
            head: self.later_literal(law.head),
            premises: self.later_set(law.condition),
            justification: LiteralSet::EMPTY,
        }
    }

    // Rule i of the dynamic laws: the head at time 1, from the action and the condition at time 0.
    fn effect_rule(&self, i: usize) -> Result<ClausalRule, Refusal>
        requires { i < length self.now.dynamics.items }
        ensures { MatchResult result (λ c. rule_of c ≡ rule_in (map (effect (description self.now)) (description self.now).dynamics) i) (λ e. ⊥) }
    {
        let law = self.dynamics[i];
        let head = self.later_literal(law.head);
        let action = Literal::positive(self.fluents + law.action);
        let premises = law.condition.with(action)?;
        Ok(ClausalRule {
            head,
            premises,
            justification: LiteralSet::EMPTY,
        })
    }

    // Rule i of inertia: a literal at time 1 from itself at time 0, assuming itself at time 1.
    fn inertia_rule(&self, i: usize) -> Result<ClausalRule, Refusal>
        requires { i < 2 * self.now.fluents }
        ensures { MatchResult result (λ c. rule_of c ≡ rule_in (flat_map (inertia (description self.now)) (range_with_len 0 self.now.fluents)) i) (λ e. ⊥) }
    {
        let literal = Literal::numbered(i as u8);
        let head = self.later_literal(literal);
        let premises = LiteralSet::EMPTY.with(literal)?;
        let justification = LiteralSet::EMPTY.with(head)?;
        Ok(ClausalRule {
            head,
            premises,
            justification,
        })
    }

    // Rule i of choice: a literal on a fluent at time 0 or on an action, assuming itself.
    fn choice_rule(&self, i: usize) -> Result<ClausalRule, Refusal>
        requires { i < 2 * (self.now.fluents + self.now.actions) }
        ensures { MatchResult result (λ c. rule_of c ≡ rule_in (flat_map choice (range_with_len 0 (earlier (description self.now)))) i) (λ e. ⊥) }
    {
        let literal = Literal::numbered(i as u8);
        let justification = LiteralSet::EMPTY.with(literal)?;
        Ok(ClausalRule {
            head: literal,
            premises: LiteralSet::EMPTY,
            justification,
        })
    }

    // Rule i of the sheet: static laws, then effects, then inertia, then choices.
    fn rule(&self, i: usize) -> Result<ClausalRule, Refusal>
        ensures { AnswersRow (action_program (description self.now)) i result }
    {
        let fluents = usize::from(self.fluents);
        let actions = usize::from(self.actions);
        let first_effect = 2 * self.statics.len();
        let first_inertia = first_effect + self.dynamics.len();
        let first_choice = first_inertia + 2 * fluents;
        if i < first_effect {
            return Ok(self.static_rule(i));
        }
        if i < first_inertia {
            return self.effect_rule(i - first_effect);
        }
        if i < first_choice {
            return self.inertia_rule(i - first_inertia);
        }
        if i < first_choice + 2 * (fluents + actions) {
            return self.choice_rule(i - first_choice);
        }
        Err(Refusal::OutOfRange)
    }
}

// Each source of rows has these one-line answers. One impl for all such sources would shut out an impl for references to
// sources (docs/DECISIONS.md, "Rule sources").
impl RuleSource for ActionSheet {
    ghost program = { λ s. action_program (description s) };

    ghost fits = { λ s. program_fits (description s) (sheet_fits s) };

    fn atoms(&self) -> u8 {
        2 * self.fluents + self.actions
    }

    fn rule_count(&self) -> usize {
        let fluents = usize::from(self.fluents);
        let actions = usize::from(self.actions);
        2 * self.statics.len() + self.dynamics.len() + 2 * fluents + 2 * (fluents + actions)
    }

    fn head(&self, i: usize) -> Result<Literal, Refusal> {
        Ok(self.rule(i)?.head)
    }

    fn premises(&self, i: usize) -> Result<LiteralSet, Refusal> {
        Ok(self.rule(i)?.premises)
    }

    fn holds_in(&self, i: usize, interpretation: u64) -> Result<bool, Refusal> {
        self.rule(i)?.holds_in(self.atoms(), interpretation)
    }

    fn as_literals(&self, i: usize) -> Option<LiteralSet> {
        Some(self.rule(i).ok()?.justification)
    }
}

impl ClausalSource for ActionSheet {
    fn justification(&self, i: usize) -> Result<LiteralSet, Refusal> {
        Ok(self.rule(i)?.justification)
    }
}
