// Where everything lies: the eight counts, their maxima, each section's start, and the size of its records.
ghost use Rattle.std.specs.Prelude.{◌≡◌, ◌≤◌, length};
ghost use Rattle.records.specs.Layout.{counts_of, interfaces_at, stages_at, locals_at, types_at, steps_at, ports_at, refs_at, length_of, within, size_of, count_of, start_of};

use crate::bytes::u16_at;

pub const VERSION: u16 = 1;

// The header's bytes, then those of a record of each section.
pub const HEAD: usize = 21;

pub const LAYER: usize = 6;

pub const INTERFACE: usize = 9;

pub const STAGE: usize = 30;

pub const LOCAL: usize = 7;

pub const TYPE: usize = 2;

pub const STEP: usize = 11;

pub const PORT: usize = 9;

pub const REF: usize = 2;

#[derive(Clone, Copy, Debug, PartialEq, Eq)]
pub struct Counts {
    pub layers: u16,
    pub interfaces: u16,
    pub stages: u16,
    pub locals: u16,
    pub types: u16,
    pub steps: u16,
    pub ports: u16,
    pub refs: u16,
}

// The sections whose entries are judged one by one, in the order of the file. Refs follow.
#[derive(Clone, Copy, Debug, PartialEq, Eq)]
pub enum Section {
    Layers,
    Interfaces,
    Stages,
    Locals,
    Types,
    Steps,
    Ports,
}

impl Counts {
    pub fn read(s: &[u8]) -> Counts
        requires { 21 ≤ length s.now }
        ensures { result ≡ counts_of s.now }
    {
        Counts {
            layers: u16_at(s, 5),
            interfaces: u16_at(s, 7),
            stages: u16_at(s, 9),
            locals: u16_at(s, 11),
            types: u16_at(s, 13),
            steps: u16_at(s, 15),
            ports: u16_at(s, 17),
            refs: u16_at(s, 19),
        }
    }

    pub fn within(self) -> bool
        ensures { result ≡ within self }
    {
        (self.interfaces != 0)
            & (self.layers <= 64)
            & (self.interfaces <= 256)
            & (self.stages <= 256)
            & (self.locals <= 256)
            & (self.types <= 1024)
            & (self.steps <= 2048)
            & (self.ports <= 2560)
            & (self.refs <= 2048)
    }

    pub fn interfaces_at(self) -> usize
        ensures { result ≡ interfaces_at self }
    {
        HEAD + LAYER * (self.layers as usize)
    }

    pub fn stages_at(self) -> usize
        ensures { result ≡ stages_at self }
    {
        self.interfaces_at() + INTERFACE * (self.interfaces as usize)
    }

    pub fn locals_at(self) -> usize
        ensures { result ≡ locals_at self }
    {
        self.stages_at() + STAGE * (self.stages as usize)
    }

    pub fn types_at(self) -> usize
        ensures { result ≡ types_at self }
    {
        self.locals_at() + LOCAL * (self.locals as usize)
    }

    pub fn steps_at(self) -> usize
        ensures { result ≡ steps_at self }
    {
        self.types_at() + TYPE * (self.types as usize)
    }

    pub fn ports_at(self) -> usize
        ensures { result ≡ ports_at self }
    {
        self.steps_at() + STEP * (self.steps as usize)
    }

    pub fn refs_at(self) -> usize
        ensures { result ≡ refs_at self }
    {
        self.ports_at() + PORT * (self.ports as usize)
    }

    // The length that the counts give.
    pub fn length(self) -> usize
        ensures { result ≡ length_of self }
    {
        self.refs_at() + REF * (self.refs as usize)
    }
}

impl Section {
    // In the order of the file.
    pub const ALL: [Section; 7] = [
        Section::Layers,
        Section::Interfaces,
        Section::Stages,
        Section::Locals,
        Section::Types,
        Section::Steps,
        Section::Ports,
    ];

    pub fn size(self) -> usize
        ensures { result ≡ size_of self }
    {
        match self {
            Section::Layers => LAYER,
            Section::Interfaces => INTERFACE,
            Section::Stages => STAGE,
            Section::Locals => LOCAL,
            Section::Types => TYPE,
            Section::Steps => STEP,
            Section::Ports => PORT,
        }
    }

    pub fn count(self, c: Counts) -> usize
        ensures { result ≡ count_of c self }
    {
        let count = match self {
            Section::Layers => c.layers,
            Section::Interfaces => c.interfaces,
            Section::Stages => c.stages,
            Section::Locals => c.locals,
            Section::Types => c.types,
            Section::Steps => c.steps,
            Section::Ports => c.ports,
        };
        count as usize
    }

    pub fn start(self, c: Counts) -> usize
        ensures { result ≡ start_of c self }
    {
        match self {
            Section::Layers => HEAD,
            Section::Interfaces => c.interfaces_at(),
            Section::Stages => c.stages_at(),
            Section::Locals => c.locals_at(),
            Section::Types => c.types_at(),
            Section::Steps => c.steps_at(),
            Section::Ports => c.ports_at(),
        }
    }
}
