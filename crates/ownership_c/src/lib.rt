// The calls of document 01, exported to programs in other languages. Nothing is demanded of a caller.
#![tactic(auto)]

ghost use Rattle.ownership.specs.Promises.{Checked};

use image::answer::Answer;

// A slice passes as a pointer and a length.
#[unsafe(no_mangle)]
pub extern "C" fn vine_check(bytes: &[u8]) -> Answer
    ensures { Checked bytes.now result }
{
    ownership::vine_check(bytes)
}
