// Small systems whose outcomes are worked out over the definitions.
#![tactic(auto)]

ghost use Rattle.worked.specs.Examples.{WorkedExamples};

// What calls on four small systems give, what descents over two of them end on, and the smallest questions to a solver.
pub fn examples()
    ensures { WorkedExamples }
{}
