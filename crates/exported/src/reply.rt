// The reply to a question, as C reads it.
ghost use Rattle.std.specs.Prelude.{◌≡◌};
ghost use Rattle.exported.specs.Replies.{reply_of};

use solver::Answer;

// The answer to one question as numbers. It stays a flag beside numbers, and so do the numbers of the calls, since C reads
// them.
#[derive(Clone, Copy)]
#[repr(C)]
pub struct Reply {
    // 1 for a yes, 0 for a no.
    pub yes: u64,
    // The values of variables 0 to 63 in the model of a yes; 0 after a no.
    pub low: u64,
    // The values of variables 64 to 127 in it; 0 after a no.
    pub high: u64,
}

impl From<Answer> for Reply {
    ghost from_gives = { λ answer reply. reply ≡ reply_of answer };

    fn from(answer: Answer) -> Reply {
        match answer {
            Answer::Yes(low, high) => Reply { yes: 1, low, high },
            Answer::No => Reply {
                yes: 0,
                low: 0,
                high: 0,
            },
        }
    }
}
