// The rules on sheets: which dials have a piece in a cell, and what makes a sheet an account (specs/). No table and no
// drawing: those are the crates above. docs/sheet.md has the rules.
#![tactic(auto)]

ghost use Rattle.sheet_rules.specs.Laws.{OneSheet};

use amounts::Amount;

// Two sheets of books that stand for the same history hold the same, in every kind of amount.
pub fn one_history_draws_one_sheet<K: Amount>()
    ensures { OneSheet {X = K.Held} K.nil K.piece K.joined K.energy }
{}
