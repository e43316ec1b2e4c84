// Known numbers, shown of the rules themselves. specs/Numbers.antt has the table.
#![tactic(auto)]

ghost use Rattle.worked_numbers.specs.Numbers.{WorkedNumbers};

pub fn worked_numbers_hold()
    ensures { WorkedNumbers }
{}
