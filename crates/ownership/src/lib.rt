// The calls of document 01; the crate ownership_c exports them to programs in other languages. Nothing is demanded of a caller.
#![tactic(auto)]

ghost use Rattle.ownership.specs.Promises.{Checked};

use image::answer::Answer;
use image::check::check;

pub fn vine_check(bytes: &[u8]) -> Answer
    ensures { Checked bytes.now result }
{
    check(bytes)
}
