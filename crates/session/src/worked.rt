// The worked examples of the definitions, as one computed table.
ghost use Rattle.session.specs.Worked.{Worked};

// Every row of the table holds.
pub fn worked_examples_hold()
    ensures { Worked }
{}
