// The records of an image: its bytes as values, and where each lies.
#![tactic(auto)]

ghost use Rattle.std.specs.Prelude.{◌≡◌, ◌+◌, ◌*◌, ◌<◌};
ghost use Rattle.records.specs.Bytes.{u16_at};
ghost use Rattle.records.specs.Layout.{refs_at, ref_size, count_of, place_of, Sized};
ghost use Rattle.records.specs.Props.{Sized-prop};

pub mod bytes;
pub mod layout;
pub mod record;
pub mod running;

use bytes::u16_at;
use layout::{Counts, REF};
use record::Record;

// Bytes of the length that the counts give, none of which is over its maximum.
#[derive(Clone, Copy)]
pub struct Records<'a> {
    pub bytes: &'a [u8],
    pub counts: Counts,
    pub ghost sized: { Sized bytes.now counts } by { Sized-prop bytes.now counts },
}

impl Records<'_> {
    // Where record k of a section stands.
    pub fn place<R: Record>(&self, k: usize) -> usize
        requires { k < count_of self.now.counts R.SECTION }
        ensures { result ≡ place_of self.now.counts R.SECTION k }
    {
        R::SECTION.start(self.counts) + R::SECTION.size() * k
    }

    // That record.
    pub fn nth<R: Record>(&self, k: usize) -> R
        requires { k < count_of self.now.counts R.SECTION }
        ensures { result ≡ R.at self.now.bytes.now (place_of self.now.counts R.SECTION k) }
    {
        R::read(self.bytes, self.place::<R>(k))
    }

    // Ref k of them all.
    pub fn reference(&self, k: usize) -> u16
        requires { k < self.now.counts.refs }
        ensures { result ≡ u16_at self.now.bytes.now (refs_at self.now.counts + ref_size * k) }
    {
        u16_at(self.bytes, self.counts.refs_at() + REF * k)
    }
}
