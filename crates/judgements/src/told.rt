// What is told of a judging. It stays numbers, since C reads them.
ghost use Rattle.std.specs.Prelude.{◌≡◌, ◌+◌, ◌≤◌};
ghost use Rattle.judgements.specs.Outcomes.{verdict_number, storeless};

use histories::{Look, Verdict};

// What came of a judging.
#[derive(Clone, Copy)]
#[repr(C)]
pub struct JudgeTold {
    // 0 where there is no verdict for want of a place, 1 where every run is safe, 2 where one is broken.
    pub verdict: u32,
    // How many turns were accepted.
    pub turns: usize,
    // How many entries were stored.
    pub used: usize,
    // How many questions the solver was asked.
    pub asked: u64,
}

impl JudgeTold {
    // Each accepted turn stores one entry, but for one that finds that every run is safe.
    pub(crate) fn new(look: Look, asked: u64) -> JudgeTold
        requires { look.used ≤ 8192 }
        ensures verdict { result.verdict ≡ verdict_number look.verdict }
        ensures turns { result.turns ≡ look.used + storeless look.verdict }
        ensures used { result.used ≡ look.used }
    {
        let (verdict, storeless) = match look.verdict {
            Verdict::Undecided => (0, 0),
            Verdict::Holds => (1, 1),
            Verdict::BrokenAt(_) | Verdict::BrokenByEntry => (2, 0),
        };
        JudgeTold {
            verdict,
            turns: look.used + storeless,
            used: look.used,
            asked,
        }
    }
}
