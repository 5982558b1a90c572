// Small programs with all their models, worked out by hand from the definition, and the limits of a program.
use crate::either::Either;
use crate::rule_table::RuleTable;
use programs::closure::{check as check_model, closure};
use programs::literal::{Literal, LiteralSet};
use programs::refusal::Refusal;
use programs::rule::ClausalRule;
use programs::source::{ClausalSource, RuleSource};
use std::process::Abort;
use std::test::Fail;

// A constant cannot call a function, so these spell their literals out.
const A: Literal = Literal {
    atom: 0,
    negative: false,
};

const NOT_A: Literal = Literal {
    atom: 0,
    negative: true,
};

const B: Literal = Literal {
    atom: 1,
    negative: false,
};

const NOT_B: Literal = Literal {
    atom: 1,
    negative: true,
};

const C: Literal = Literal {
    atom: 2,
    negative: false,
};

const NONE: LiteralSet = LiteralSet::EMPTY;

const ONLY_A: LiteralSet = LiteralSet {
    positive: 1,
    negative: 0,
};

const ONLY_NOT_A: LiteralSet = LiteralSet {
    positive: 0,
    negative: 1,
};

const ONLY_B: LiteralSet = LiteralSet {
    positive: 2,
    negative: 0,
};

const ONLY_NOT_B: LiteralSet = LiteralSet {
    positive: 0,
    negative: 2,
};

const A_AND_B: LiteralSet = LiteralSet {
    positive: 3,
    negative: 0,
};

const BOTH_OF_A: LiteralSet = LiteralSet {
    positive: 1,
    negative: 1,
};

fn fact(head: Literal) -> ClausalRule {
    ClausalRule {
        head,
        premises: NONE,
        justification: NONE,
    }
}

fn given(head: Literal, premises: LiteralSet) -> ClausalRule {
    ClausalRule {
        head,
        premises,
        justification: NONE,
    }
}

fn assuming(head: Literal, justification: LiteralSet) -> ClausalRule {
    ClausalRule {
        head,
        premises: NONE,
        justification,
    }
}

// Asks of each number below 16 whether it is a model: yes at the models, no at the other interpretations, refused beyond.
fn expect<S: RuleSource>(rt: &impl Abort, source: &S, interpretations: u64, models: &[u64]) {
    for word in 0..16u64 {
        let answer = if word < interpretations {
            Ok(models.contains(&word))
        } else {
            Err(Refusal::OutOfRange)
        };
        assert_eq!(rt; check_model(source, word), answer);
    }
}

#[test]
fn one_atom(rt: HostRuntime) -> Result<(), Fail> {
    let nothing: [ClausalRule; 0] = [];
    expect(&rt, &RuleTable::new(1, nothing)?, 2, &[]);
    expect(
        &rt,
        &RuleTable::new(1, [assuming(A, ONLY_A), assuming(NOT_A, ONLY_NOT_A)])?,
        2,
        &[0, 1],
    );
    expect(&rt, &RuleTable::new(1, [fact(A), fact(NOT_A)])?, 2, &[]);
    expect(
        &rt,
        &RuleTable::new(1, [given(A, ONLY_A), assuming(NOT_A, ONLY_NOT_A)])?,
        2,
        &[0],
    );
    expect(
        &rt,
        &RuleTable::new(1, [given(A, ONLY_NOT_A), assuming(NOT_A, ONLY_NOT_A)])?,
        2,
        &[],
    );
    let never = [
        assuming(A, BOTH_OF_A),
        given(A, BOTH_OF_A),
        assuming(NOT_A, ONLY_NOT_A),
    ];
    expect(&rt, &RuleTable::new(1, never)?, 2, &[0]);
    Ok(())
}

#[test]
fn two_atoms(rt: HostRuntime) -> Result<(), Fail> {
    let choose_a = [
        assuming(A, ONLY_A),
        assuming(NOT_A, ONLY_NOT_A),
        given(B, ONLY_A),
    ];
    expect(&rt, &RuleTable::new(2, choose_a)?, 4, &[3]);
    let either = [
        assuming(A, ONLY_NOT_B),
        assuming(B, ONLY_NOT_A),
        assuming(NOT_A, ONLY_B),
        assuming(NOT_B, ONLY_A),
    ];
    expect(&rt, &RuleTable::new(2, either)?, 4, &[1, 2]);
    let not_both = [
        assuming(A, ONLY_A),
        assuming(NOT_A, ONLY_NOT_A),
        assuming(B, ONLY_B),
        assuming(NOT_B, ONLY_NOT_B),
        assuming(A, A_AND_B),
        assuming(NOT_A, A_AND_B),
    ];
    expect(&rt, &RuleTable::new(2, not_both)?, 4, &[0, 1, 2]);
    Ok(())
}

#[test]
fn three_atoms_in_three_rounds(rt: HostRuntime) -> Result<(), Fail> {
    expect(
        &rt,
        &RuleTable::new(3, [given(C, ONLY_B), given(B, ONLY_A), fact(A)])?,
        8,
        &[7],
    );
    Ok(())
}

#[test]
fn formulas_of_a_source_of_ones_own(rt: HostRuntime) {
    expect(&rt, &Either, 8, &[0, 5, 6, 7]);
}

#[test]
fn closures(rt: HostRuntime) -> Result<(), Fail> {
    let choose_a = RuleTable::new(
        2,
        [
            assuming(A, ONLY_A),
            assuming(NOT_A, ONLY_NOT_A),
            given(B, ONLY_A),
        ],
    )?;
    assert_eq!(rt; closure(&choose_a, 3), Ok((3, 0)));
    assert_eq!(rt; closure(&choose_a, 2), Ok((0, 1)));
    assert_eq!(rt; closure(&choose_a, 4), Err(Refusal::OutOfRange));
    let both = RuleTable::new(1, [fact(A), fact(NOT_A)])?;
    assert_eq!(rt; closure(&both, 0), Ok((1, 1)));
    Ok(())
}

#[test]
fn all_64_atoms(rt: HostRuntime) -> Result<(), Fail> {
    let mut rules = [fact(A); 64];
    for (atom, rule) in (0..64u8).zip(&mut rules) {
        *rule = fact(Literal::positive(atom));
    }
    let all = RuleTable::new(64, rules)?;
    assert_eq!(rt; check_model(&all, u64::MAX), Ok(true));
    assert_eq!(rt; check_model(&all, u64::MAX - 1), Ok(false));
    assert_eq!(rt; check_model(&all, u64::MAX / 2), Ok(false));
    assert_eq!(rt; check_model(&all, 0), Ok(false));
    assert_eq!(rt; closure(&all, 0), Ok((u64::MAX, 0)));
    Ok(())
}

#[test]
fn free_choice_of_64_atoms(rt: HostRuntime) -> Result<(), Fail> {
    let mut rules = [fact(A); 128];
    for (number, rule) in (0..128u8).zip(&mut rules) {
        let literal = Literal::numbered(number);
        *rule = assuming(literal, LiteralSet::EMPTY.with(literal)?);
    }
    let free = RuleTable::new(64, rules)?;
    assert_eq!(rt; check_model(&free, 0), Ok(true));
    assert_eq!(rt; check_model(&free, 1 << 63), Ok(true));
    assert_eq!(rt; check_model(&free, u64::MAX), Ok(true));
    Ok(())
}

#[test]
fn limits_of_a_program(rt: HostRuntime) {
    assert!(rt; RuleTable::new(0, [fact(A)]).is_err());
    assert!(rt; RuleTable::new(65, [fact(A)]).is_err());
    assert!(rt; RuleTable::new(1, [fact(B)]).is_err());
    assert!(rt; RuleTable::new(1, [given(A, ONLY_B)]).is_err());
    assert!(rt; RuleTable::new(1, [assuming(A, ONLY_NOT_B)]).is_err());
    assert!(rt; RuleTable::new(1, [fact(A); 4097]).is_err());
    assert!(rt; RuleTable::new(1, [fact(A); 4096]).is_ok());
    let top = Literal::positive(63).complement();
    assert!(rt; RuleTable::new(63, [fact(top)]).is_err());
    assert!(rt; RuleTable::new(64, [fact(top)]).is_ok());
}

#[test]
fn questions_at_the_last_rule_and_beyond(rt: HostRuntime) -> Result<(), Fail> {
    let table = RuleTable::new(2, [fact(A), given(B, ONLY_A)])?;
    assert_eq!(rt; table.atoms(), 2);
    assert_eq!(rt; table.rule_count(), 2);
    assert_eq!(rt; table.head(1), Ok(B));
    assert_eq!(rt; table.premises(1), Ok(ONLY_A));
    assert_eq!(rt; table.justification(1), Ok(NONE));
    assert_eq!(rt; table.holds_in(1, 3), Ok(true));
    assert_eq!(rt; table.head(2), Err(Refusal::OutOfRange));
    assert_eq!(rt; table.premises(2), Err(Refusal::OutOfRange));
    assert_eq!(rt; table.justification(2), Err(Refusal::OutOfRange));
    assert_eq!(rt; table.holds_in(2, 3), Err(Refusal::OutOfRange));
    assert_eq!(rt; table.holds_in(1, 4), Err(Refusal::OutOfRange));
    assert_eq!(rt; Refusal::OutOfRange.code(), 6);
    Ok(())
}
