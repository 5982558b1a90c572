// A program of clausal rules that stand in an array.
ghost use Rattle.programs.specs.Programs.{ProgramFits};
ghost use Rattle.examples.specs.Tables.{table_program};

use programs::rule::ClausalRule;

#[derive(Clone, Copy)]
pub struct RuleTable<const N: usize> {
    atoms: u8,
    rules: [ClausalRule; N],
    ghost fit: { ∥ ProgramFits (table_program atoms rules) ∥₁ },
}

pub mod source;
