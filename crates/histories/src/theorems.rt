// The laws over any list of calls.
ghost use Rattle.histories.specs.Laws.{EveryListLawful, EveryListDecides, TurnLearns, TakingLargest, TurnDetermined, TakingDetermined, BrokenReadsRun};

// After any list of calls the entries keep the rules, a safe system makes every clause of the book true in every reached
// state, and the verdict is right; turns are not refused for want of a place where there are enough, and decide in the end;
// a turn stores a subgoal exactly where no clause that is false there is inductive, and otherwise a minimal inductive one; a
// taking stores the largest set that is inductive together; what a turn stores hangs on nothing but the state and successor
// found, and a taking on nothing that is free; a broken work reads out a run that contains a broken state.
pub fn laws()
    ensures lawful { EveryListLawful }
    ensures decides { EveryListDecides }
    ensures learns { TurnLearns }
    ensures takes { TakingLargest }
    ensures turn_determined { TurnDetermined }
    ensures taking_determined { TakingDetermined }
    ensures reads { BrokenReadsRun }
{}
