// Worked examples of the definitions, computed as one theorem.
#![tactic(auto)]

ghost use Rattle.std.specs.Prelude.{◌≡◌, true};
ghost use Rattle.examples.specs.Table.{holds, table, OnePassed, TwoPassed, MinusTwo, Centre};

// Every row of the table holds; two short streams are read so; an item is -2; a cell's centre lies at 1,500.
pub fn table_holds() -> bool
    ensures rows { holds table ≡ true }
    ensures one { OnePassed }
    ensures two { TwoPassed }
    ensures item { MinusTwo }
    ensures centre { Centre }
{
    true
}
