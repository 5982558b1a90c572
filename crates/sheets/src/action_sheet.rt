// Action sheets: checked laws on some fluents and actions.
ghost use Rattle.std.specs.Prelude.{◌+◌, ◌*◌, ◌≤◌, length};
ghost use Rattle.std.specs.List.{All};
ghost use Rattle.sheets.specs.Laws.{StaticInRange, DynamicInRange};

use crate::law::{DynamicLaw, StaticLaw};
use arrayvec::ArrayVec;

// The most laws that a sheet may have.
pub const MAX_LAWS: usize = 1024;

// The laws by kind, in the order in which they were given.
#[derive(Drop)]
pub struct ActionSheet {
    fluents: u8,
    actions: u8,
    statics: ArrayVec<StaticLaw, MAX_LAWS>,
    dynamics: ArrayVec<DynamicLaw, MAX_LAWS>,
    ghost some: { 1 ≤ fluents },
    ghost few: { 2 * fluents + actions ≤ 64 },
    ghost short: { length statics.items + length dynamics.items ≤ 1024 },
    ghost each_static: { All (StaticInRange fluents) statics.items },
    ghost each_dynamic: { All (DynamicInRange fluents actions) dynamics.items },
}

pub mod source;
