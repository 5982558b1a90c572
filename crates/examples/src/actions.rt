// Action sheets: one sheet's rules and models worked out by hand, and the limits of a sheet.
use programs::closure::check as check_model;
use programs::literal::{Literal, LiteralSet};
use programs::refusal::Refusal;
use programs::source::{ClausalSource, RuleSource};
use sheets::action_sheet::ActionSheet;
use sheets::law::{DynamicLaw, Law, StaticLaw};
use std::test::Fail;

// In the order of their numbers.
#[derive(Clone, Copy)]
enum Fluent {
    Issued,
    OnSite,
}

// "issued if on_site." and "send causes on_site if issued." A constant cannot call a function.
const LAWS: [Law; 2] = [
    Law::Static(StaticLaw {
        head: Literal {
            atom: Fluent::Issued as u8,
            negative: false,
        },
        condition: LiteralSet {
            positive: 1 << Fluent::OnSite as u8,
            negative: 0,
        },
    }),
    Law::Dynamic(DynamicLaw {
        action: 0,
        head: Literal {
            atom: Fluent::OnSite as u8,
            negative: false,
        },
        condition: LiteralSet {
            positive: 1 << Fluent::Issued as u8,
            negative: 0,
        },
    }),
];

// The rules, with atoms 0 issued, 1 on_site, 2 send, and 3 and 4 the two fluents at time 1: head, then the words of the
// premises, then those of the justification.
const RULES: [(u8, bool, u64, u64, u64, u64); 13] = [
    (0, false, 2, 0, 0, 0),
    (3, false, 16, 0, 0, 0),
    (4, false, 5, 0, 0, 0),
    (3, false, 1, 0, 8, 0),
    (3, true, 0, 1, 0, 8),
    (4, false, 2, 0, 16, 0),
    (4, true, 0, 2, 0, 16),
    (0, false, 0, 0, 1, 0),
    (0, true, 0, 0, 0, 1),
    (1, false, 0, 0, 2, 0),
    (1, true, 0, 0, 0, 2),
    (2, false, 0, 0, 4, 0),
    (2, true, 0, 0, 0, 4),
];

#[test]
fn rules_of_a_sheet(rt: HostRuntime) -> Result<(), Fail> {
    let sheet = ActionSheet::new(2, 1, &LAWS)?;
    assert_eq!(rt; sheet.atoms(), 5);
    assert_eq!(rt; sheet.rule_count(), 13);
    for (i, row) in RULES.iter().enumerate() {
        let (atom, negative, p, q, r, s) = *row;
        assert_eq!(rt; sheet.head(i), Ok(Literal { atom, negative }));
        assert_eq!(rt;
            sheet.premises(i),
            Ok(LiteralSet {
                positive: p,
                negative: q,
            })
        );
        assert_eq!(rt;
            sheet.justification(i),
            Ok(LiteralSet {
                positive: r,
                negative: s,
            })
        );
    }
    assert_eq!(rt; sheet.head(13), Err(Refusal::OutOfRange));
    assert_eq!(rt; sheet.premises(13), Err(Refusal::OutOfRange));
    assert_eq!(rt; sheet.justification(13), Err(Refusal::OutOfRange));
    assert_eq!(rt; sheet.holds_in(13, 0), Err(Refusal::OutOfRange));
    assert_eq!(rt; sheet.holds_in(12, 32), Err(Refusal::OutOfRange));
    assert_eq!(rt; sheet.holds_in(12, 27), Ok(true));
    Ok(())
}

// Nothing holds, without send and with it; issued, not sent; on site, without send; issued and sent; on site, with send.
#[test]
fn models_of_a_sheet(rt: HostRuntime) -> Result<(), Fail> {
    let sheet = ActionSheet::new(2, 1, &LAWS)?;
    let models: [u64; 6] = [0, 4, 9, 27, 29, 31];
    for word in 0..32u64 {
        assert_eq!(rt; check_model(&sheet, word), Ok(models.contains(&word)));
    }
    assert_eq!(rt; check_model(&sheet, 32), Err(Refusal::OutOfRange));
    Ok(())
}

#[test]
fn limits_of_a_sheet(rt: HostRuntime) {
    assert!(rt; ActionSheet::new(0, 1, &[]).is_err());
    assert!(rt; ActionSheet::new(32, 0, &[]).is_ok());
    assert!(rt; ActionSheet::new(33, 0, &[]).is_err());
    assert!(rt; ActionSheet::new(31, 2, &[]).is_ok());
    assert!(rt; ActionSheet::new(31, 3, &[]).is_err());
    assert!(rt; ActionSheet::new(1, 1, &LAWS).is_err());
    assert!(rt; ActionSheet::new(2, 0, &LAWS).is_err());
    assert!(rt; ActionSheet::new(255, 255, &[]).is_err());
}

#[test]
fn number_of_laws(rt: HostRuntime) {
    let law = LAWS[0];
    assert!(rt; ActionSheet::new(2, 1, &[law; 1024]).is_ok());
    assert!(rt; ActionSheet::new(2, 1, &[law; 1025]).is_err());
}
