// Worked examples of tree files, as theorems about their definition.
ghost use Rattle.trees.specs.Examples.{Examples};

pub fn examples_hold()
    ensures { Examples }
{}
