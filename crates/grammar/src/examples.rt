// Worked examples of models, as theorems about their definition.
ghost use Rattle.grammar.specs.Examples.{Examples};

pub fn examples_hold()
    ensures { Examples }
{}
