// What a case answers: its bytes, relays, inputs and lists, and a clause of a list by its number.
ghost use Rattle.std.specs.Prelude.{◌≡◌, drop};
ghost use Rattle.lists.specs.Lists.{clauses_of};
ghost use Rattle.layout.specs.Spelling.{spell, Admitted};
ghost use Rattle.cases.specs.Answers.{list_of, beginning, Numbered};

use crate::case::Case;
use faults::{ListName, WorkFault};
use layout::read_field;
use lists::ClauseList;

// The literals of a clause as they lie in the bytes, and the index of the first of them; of the empty clause, the index
// of the byte after its length.
#[derive(Clone, Copy, PartialEq, Eq, Debug)]
pub struct Clause<'a> {
    pub at: usize,
    pub literals: &'a [u8],
}

impl Case {
    // The bytes that were read: they spell the case's system, which is an admitted one.
    pub fn bytes(&self) -> &[u8]
        ensures spelled { result.now ≡ spell self.now }
        ensures admitted { Admitted self.now }
    {
        self.bytes.as_slice()
    }

    // How many relays the system has, which is an admitted one.
    #[tactic(auto, using(crate::proofs::Places::header_says))]
    pub fn relays(&self) -> u32
        ensures value { result ≡ self.now.n }
        ensures admitted { Admitted self.now }
    {
        read_field(self.bytes(), 0)
    }

    // How many inputs the system has, which is an admitted one.
    #[tactic(auto, using(crate::proofs::Places::header_says))]
    pub fn inputs(&self) -> u32
        ensures value { result ≡ self.now.m }
        ensures admitted { Admitted self.now }
    {
        read_field(self.bytes(), 2)
    }

    // The clauses of a list of the system, which is an admitted one.
    #[tactic(auto, using(crate::proofs::Places::lists))]
    pub fn list(&self, list: ListName) -> ClauseList<'_>
        ensures value { clauses_of result ≡ list_of list self.now }
        ensures admitted { Admitted self.now }
    {
        // stays a cast, here and below: no From leads from a u32 to a usize
        let count = read_field(self.bytes(), list.count_place()) as usize;
        ClauseList::over(count, self.from_list(list))
    }

    // A clause of a list by its number, as a part of the bytes, with its place. The system is an admitted one.
    pub fn clause(&self, list: ListName, number: usize) -> Result<Clause<'_>, WorkFault>
        ensures value { Numbered list self.now number result }
        ensures admitted { Admitted self.now }
    {
        let mut at = self.beginning(list);
        for (passed, literals) in self.list(list).enumerate() {
            if passed == number {
                return Ok(Clause {
                    at: at + 1,
                    literals,
                });
            }
            at += 1 + literals.len();
        }
        Err(WorkFault::NoSuchClause(number))
    }

    // The bytes from a list on.
    #[tactic(auto, using(crate::proofs::Places::sections))]
    fn from_list(&self, list: ListName) -> &[u8]
        ensures { result.now ≡ drop (beginning list self.now) (spell self.now) }
    {
        &self.bytes()[self.beginning(list)..]
    }

    // The index of the first byte of a list.
    #[tactic(auto, using(crate::proofs::Places::header_says))]
    fn beginning(&self, list: ListName) -> usize
        ensures value { result ≡ beginning list self.now }
        ensures admitted { Admitted self.now }
    {
        read_field(self.bytes(), list.offset_place()) as usize
    }
}
