// Records that keep their rules, and an image of them.
ghost use Rattle.std.specs.Prelude.{◌≡◌, ◌<◌};
ghost use Rattle.records.specs.Layout.{counts_of};
ghost use Rattle.records.specs.Props.{Counts-prop};
ghost use Rattle.image.specs.Accepted.{Accepted};
ghost use Rattle.image.specs.Props.{Accepted-prop};

use records::Records;

// Records none of which breaks its rule.
#[derive(Clone, Copy)]
pub struct Judged<'a> {
    pub records: Records<'a>,
    pub ghost accepted: { Accepted records.bytes.now records.counts } by { Accepted-prop records.bytes.now records.counts },
}

// An image that check takes: its counts are those at its head, and it has an interface.
#[derive(Clone, Copy)]
pub struct Image<'a> {
    pub records: Records<'a>,
    pub ghost head: { records.counts ≡ counts_of records.bytes.now } by { Counts-prop records.counts (counts_of records.bytes.now) },
    pub ghost some: { 0 < records.counts.interfaces },
    pub ghost accepted: { Accepted records.bytes.now records.counts } by { Accepted-prop records.bytes.now records.counts },
}
