// The smallest questions, over the definitions and put to any solver.
ghost use Rattle.std.specs.Prelude.{◌≡◌, true, false, [], ◌∷◌, if◌then◌else◌, Some, None, MatchOption};
ghost use Rattle.solver.specs.Answers.{Answered, fits, is_yes, AloneAnswered};
ghost use Rattle.solver.specs.Laws.{YesExactly, SmallestQuestions};
ghost use Rattle.solver.specs.declared.answer.Answer.TheVariants.{No};

use crate::Solver;
use crate::answer::Answer;

// The laws of answers: yes exactly where some valuation makes all true; and the answers to the smallest questions.
pub fn laws()
    ensures exactly { YesExactly }
    ensures smallest { SmallestQuestions }
{}

// What a solver answers while it holds nothing, assuming nothing and assuming a literal and its negation; and while it
// holds just the empty clause, and just a clause of a literal and its negation, where these fit.
#[derive(Clone, Copy, PartialEq, Eq, Debug)]
pub struct Smallest {
    pub nothing: Answer,
    pub opposed: Answer,
    pub empty: Option<Answer>,
    pub either: Option<Answer>,
}

// The answer where just the clause is held, or none where it does not fit. Nothing is held afterwards.
fn asked_alone<S: Solver>(solver: &mut S, clause: &[u8]) -> Option<Answer>
    ensures answer { AloneAnswered clause.now (S.Solver.capacity solver.old) result }
    ensures held { S.Solver.held solver.new ≡ [] }
    ensures capacity { S.Solver.capacity solver.new ≡ S.Solver.capacity solver.old }
{
    solver.wipe();
    solver.add(clause).ok()?;
    let answer = solver.query(&[]);
    solver.wipe();
    Some(answer)
}

// Puts the smallest questions to the solver, which holds nothing afterwards.
pub fn smallest_questions<S: Solver>(solver: &mut S) -> Smallest
    ensures nothing { is_yes result.nothing ≡ true }
    ensures opposed { result.opposed ≡ No }
    ensures empty { result.empty ≡ (if fits [] [] (S.Solver.capacity solver.old) then Some No else None) }
    ensures either { MatchOption result.either (fits [] (0 ∷ 1 ∷ []) (S.Solver.capacity solver.old) ≡ false) (λ a. (fits [] (0 ∷ 1 ∷ []) (S.Solver.capacity solver.old) ≡ true) × (is_yes a ≡ true)) }
    ensures held { S.Solver.held solver.new ≡ [] }
    ensures capacity { S.Solver.capacity solver.new ≡ S.Solver.capacity solver.old }
{
    solver.wipe();
    let nothing = solver.query(&[]);
    let opposed = solver.query(&[2, 3]);
    let empty = asked_alone(solver, &[]);
    let either = asked_alone(solver, &[0, 1]);
    Smallest {
        nothing,
        opposed,
        empty,
        either,
    }
}
