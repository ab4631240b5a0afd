// Theorems about the definitions of models.
ghost use Rattle.grammar.specs.Alone.{FunctionsStandAlone};
ghost use Rattle.grammar.specs.Laws.{TokensAreParts, TextsTellTokens, TextsTellFunctions, TextsAreShort, RefusalsAreNumbered, EarliestIsTold};

// Each token is a part of the model's own bytes, at its place.
pub fn tokens_are_parts()
    ensures { TokensAreParts }
{}

// A function that was read from some tokens is read from them wherever they stand.
pub fn functions_stand_alone()
    ensures { FunctionsStandAlone }
{}

// Two functions with the same text have the same syntax tree, in whichever models they stand.
pub fn texts_tell_functions()
    ensures tokens { TextsTellTokens }
    ensures functions { TextsTellFunctions }
    ensures short { TextsAreShort }
{}

// Every refusal has a number from 1 to 7, and of names that break a rule the earliest is told.
pub fn refusals_are_told()
    ensures numbered { RefusalsAreNumbered }
    ensures earliest { EarliestIsTold }
{}
