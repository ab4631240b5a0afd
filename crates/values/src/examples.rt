// Worked examples of values, as theorems about their definitions.
ghost use Rattle.values.specs.Examples.{Examples};

pub fn examples_hold()
    ensures { Examples }
{}
