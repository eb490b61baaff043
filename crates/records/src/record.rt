// The records at a place, as values. A list is where it starts in its section, and how long it is. Kinds, headers and tags are the numbers that
// stand there: which case each is, if any, is for the rules to ask.
ghost use Rattle.std.specs.Prelude.{◌≡◌, List, ℕ, ◌+◌, ◌≤◌, length};
ghost use Rattle.records.specs.declared.layout.Section.{Section};
ghost use Rattle.records.specs.declared.layout.Section.TheVariants.{Layers, Interfaces, Stages, Locals, Types, Steps, Ports};
ghost use Rattle.records.specs.Layout.{size_of};
ghost use Rattle.records.specs.Records.{run_at, layer_at, interface_at, stage_at, local_at, type_at, step_at, port_at};

use crate::bytes::{u16_at, u32_at};
use crate::layout::Section;
use vir::ids::{InterfaceId, LayerId, Span, Type};

#[derive(Clone, Copy)]
pub struct Run {
    pub first: u16,
    pub count: u16,
}

#[derive(Clone, Copy)]
pub struct LayerRecord {
    pub parent: LayerId,
    pub stages: Run,
}

#[derive(Clone, Copy)]
pub struct InterfaceRecord {
    pub layer: LayerId,
    pub kind: u8,
    pub key: u16,
    pub list: Run,
}

#[derive(Clone, Copy)]
pub struct StageRecord {
    pub span: Span,
    pub interface: InterfaceId,
    pub layer: LayerId,
    pub header: u8,
    pub key: u32,
    pub ports: Run,
    pub declarations: Run,
    pub steps: Run,
    pub wires: u16,
    pub transfer: InterfaceId,
    pub payload: u8,
}

#[derive(Clone, Copy)]
pub struct LocalRecord {
    pub span: Span,
    pub ty: Type,
    pub flags: u8,
}

#[derive(Clone, Copy)]
pub struct TypeRecord {
    pub upright: u8,
    pub inverted: u8,
}

// A step's fields; which step they are, `Step::from_fields` says.
#[derive(Clone, Copy)]
pub struct StepRecord {
    pub tag: u8,
    pub a: u32,
    pub b: u16,
    pub ports: Run,
}

#[derive(Clone, Copy)]
pub struct PortRecord {
    pub ty: Type,
    pub kind: u8,
    pub a: u32,
    pub b: u16,
}

// A record of a section, as it stands at a place.
pub trait Record {
    ghost SECTION: { Section };

    ghost at: { List ℕ → ℕ → Self };

    const SECTION: Section;

    fn read(s: &[u8], p: usize) -> Self
        requires { p + size_of SECTION ≤ length s.now }
        ensures { result ≡ at s.now p };
}

impl Run {
    pub fn read(s: &[u8], p: usize) -> Run
        requires { p + 4 ≤ length s.now }
        ensures { result ≡ run_at s.now p }
    {
        Run {
            first: u16_at(s, p),
            count: u16_at(s, p + 2),
        }
    }

    // The number of its first entry, and of the one behind its last.
    pub fn start(self) -> usize
        ensures { result ≡ self.first }
    {
        self.first as usize
    }

    pub fn end(self) -> usize
        ensures { result ≡ self.first + self.count }
    {
        self.first as usize + self.count as usize
    }
}

impl Record for LayerRecord {
    ghost SECTION = { Layers };

    ghost at = { layer_at };

    const SECTION: Section = Section::Layers;

    fn read(s: &[u8], p: usize) -> LayerRecord {
        LayerRecord {
            parent: LayerId(u16_at(s, p)),
            stages: Run::read(s, p + 2),
        }
    }
}

impl Record for InterfaceRecord {
    ghost SECTION = { Interfaces };

    ghost at = { interface_at };

    const SECTION: Section = Section::Interfaces;

    fn read(s: &[u8], p: usize) -> InterfaceRecord {
        InterfaceRecord {
            layer: LayerId(u16_at(s, p)),
            kind: s[p + 2],
            key: u16_at(s, p + 3),
            list: Run::read(s, p + 5),
        }
    }
}

impl Record for StageRecord {
    ghost SECTION = { Stages };

    ghost at = { stage_at };

    const SECTION: Section = Section::Stages;

    fn read(s: &[u8], p: usize) -> StageRecord {
        StageRecord {
            span: Span(u32_at(s, p)),
            interface: InterfaceId(u16_at(s, p + 4)),
            layer: LayerId(u16_at(s, p + 6)),
            header: s[p + 8],
            key: u32_at(s, p + 9),
            ports: Run::read(s, p + 13),
            declarations: Run::read(s, p + 17),
            steps: Run::read(s, p + 21),
            wires: u16_at(s, p + 25),
            transfer: InterfaceId(u16_at(s, p + 27)),
            payload: s[p + 29],
        }
    }
}

impl Record for LocalRecord {
    ghost SECTION = { Locals };

    ghost at = { local_at };

    const SECTION: Section = Section::Locals;

    fn read(s: &[u8], p: usize) -> LocalRecord {
        LocalRecord {
            span: Span(u32_at(s, p)),
            ty: Type(u16_at(s, p + 4)),
            flags: s[p + 6],
        }
    }
}

impl Record for TypeRecord {
    ghost SECTION = { Types };

    ghost at = { type_at };

    const SECTION: Section = Section::Types;

    fn read(s: &[u8], p: usize) -> TypeRecord {
        TypeRecord {
            upright: s[p],
            inverted: s[p + 1],
        }
    }
}

impl Record for StepRecord {
    ghost SECTION = { Steps };

    ghost at = { step_at };

    const SECTION: Section = Section::Steps;

    fn read(s: &[u8], p: usize) -> StepRecord {
        StepRecord {
            tag: s[p],
            a: u32_at(s, p + 1),
            b: u16_at(s, p + 5),
            ports: Run::read(s, p + 7),
        }
    }
}

impl Record for PortRecord {
    ghost SECTION = { Ports };

    ghost at = { port_at };

    const SECTION: Section = Section::Ports;

    fn read(s: &[u8], p: usize) -> PortRecord {
        PortRecord {
            ty: Type(u16_at(s, p)),
            kind: s[p + 2],
            a: u32_at(s, p + 3),
            b: u16_at(s, p + 7),
        }
    }
}
