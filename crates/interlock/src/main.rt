// Reads a case from standard input and prints how it was judged, or the refusal. What is said is the library's; here it is only
// read and printed.
#![tactic(auto)]

ghost use Rattle.std.specs.Prelude.{OnOk};
ghost use Rattle.interlock.specs.Program.{Answered};

use answer::answer;
use std::alloc::Global;
use std::io::{Read, Write};

// One byte more than a case may have, so that one that is too long is seen to be.
const MOST_READ: u64 = 32769;

fn main(rt: HostRuntime) -> anyhow::Result<()> {
    answer_input(rt.alloc(), rt.stdin(), &mut rt.stdout())
}

// Writes the answer to the case that the input gives. The bytes that are left unread would not change it.
fn answer_input<R: Read + Drop, W: Write>(
    heap: Global,
    input: R,
    output: &mut W,
) -> anyhow::Result<()>
    ensures { OnOk result (Answered (R.remaining input) (W.contents output.old) (W.contents output.new)) }
{
    let mut bytes = Vec::new(heap);
    input.take(MOST_READ).read_to_end(&mut bytes)?;
    let text = answer(heap, bytes.as_slice())?;
    output.write_all(text.as_bytes())?;
    Ok(())
}
