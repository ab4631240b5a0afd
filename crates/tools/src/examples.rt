// Worked examples of tools, and laws of `cat` and `first`, as theorems about their definitions.
ghost use Rattle.tools.specs.Examples.{Examples};
ghost use Rattle.tools.specs.Laws.{Laws};

pub fn examples_hold()
    ensures { Examples }
{}

pub fn laws_hold()
    ensures { Laws }
{}
