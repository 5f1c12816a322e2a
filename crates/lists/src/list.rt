// Clauses that lie in bytes one after another, each as its length and then its literals.
ghost use Rattle.std.specs.Prelude.{◌≡◌};
ghost use Rattle.system.specs.Literals.{size};
ghost use Rattle.lists.specs.Spelling.{clause_at, after_clause, clauses_in};
ghost use Rattle.lists.specs.Lists.{clauses_of};
ghost use Rattle.std.specs.Iterator.{item_count, YieldsFirstRef};

// A list of clauses in bytes, which gives them in order. Where a clause would pass the end, it has what is there: of a
// list that was read without a fault that is every clause whole. Lists are equal where their counts and all their
// bytes are, also those past the last clause.
#[derive(Clone, Copy, PartialEq, Eq, Debug)]
pub struct ClauseList<'a> {
    count: usize,
    bytes: &'a [u8],
}

#[tactic(auto, using(crate::proofs::Spelled::counted))]
impl<'a> Iterator for ClauseList<'a> {
    type Item = &'a [u8];

    ghost next_gives = { YieldsFirstRef clauses_of };

    ghost remaining = { item_count clauses_of };

    fn next(&mut self) -> Option<&'a [u8]> {
        if self.count == 0 {
            return None;
        }
        let (literals, after) = first_clause(self.bytes);
        *self = ClauseList {
            count: self.count - 1,
            bytes: after,
        };
        Some(literals)
    }

    fn size_hint(&self) -> (usize, Option<usize>) {
        (self.count, Some(self.count))
    }
}

#[tactic(auto, using(crate::proofs::Spelled::counted))]
impl ExactSizeIterator for ClauseList<'_> {
    // How many clauses there are.
    fn len(&self) -> usize {
        self.count
    }
}

// The literals of the clause that the bytes begin with, cut at the end of the bytes, and what follows it.
#[tactic(auto, using(crate::proofs::Spelled::first_off))]
fn first_clause<'a>(bytes: &'a [u8]) -> (&'a [u8], &'a [u8])
    ensures literals { result.0.now ≡ clause_at bytes.now }
    ensures after { result.1.now ≡ after_clause bytes.now }
{
    let [len, rest @ ..] = bytes else {
        return (bytes, bytes);
    };
    rest.split_at(usize::from(*len).min(rest.len()))
}

impl<'a> ClauseList<'a> {
    // The first so many clauses that lie in the bytes.
    pub fn over(count: usize, bytes: &'a [u8]) -> ClauseList<'a>
        ensures { clauses_of result ≡ clauses_in count bytes.now }
    {
        ClauseList { count, bytes }
    }

    // How many literals the clauses have together.
    pub fn literals(&self) -> usize
        ensures { result ≡ size (clauses_of self.now) }
    {
        (*self).map(|clause| clause.len()).sum()
    }
}
