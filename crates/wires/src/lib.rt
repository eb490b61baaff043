// analyzer.rs: `set_wires`, what crosses each interface for one local. A wire is the half byte that a report has for it.
#![tactic(auto)]

ghost use Rattle.std.specs.Prelude.{◌≡◌, ◌||◌, ◌+◌, ◌*◌, ◌<◌, ◌≤◌, length, get_or};
ghost use Rattle.effect.specs.declared.Effect.TheVariants.{Never};
ghost use Rattle.solve.specs.Tables.{effects_of};
ghost use Rattle.report.specs.Report.{half};
ghost use Rattle.analyzer.specs.Wires.{is, output, input, wire_of};
ghost use Rattle.wires.specs.Crossing.{Crossed};
ghost use Rattle.wires.specs.Wires.{sides_at, written};

use effect::Effect;
use solve::effect_at;

// A wire's triple, in the report's order.
#[derive(Clone, Copy)]
struct Wire(bool, bool, bool);

// The half byte that a report has for it, 0 where there is none.
fn half(wire: Option<Wire>) -> u8
    ensures { result ≡ half (written wire) }
{
    match wire {
        Some(Wire(first, second, third)) => {
            1 + 2 * u8::from(first) + 4 * u8::from(second) + 8 * u8::from(third)
        }
        None => 0,
    }
}

// The effects inside and outside of an interface.
#[derive(Clone, Copy)]
struct Sides {
    interior: Effect,
    exterior: Effect,
}

impl Sides {
    // At an interface that is not come to there are none.
    fn at(incoming: &[u32], effects: &[u8], i: usize) -> Option<Sides>
        requires i_in_bounds { i < length incoming.now }
        requires i_in_bounds_2 { 2 + 2 * i < length effects.now }
        ensures { result ≡ sides_at (effects_of effects.now) i (get_or incoming.now i 0) }
    {
        if incoming[i] == 0 {
            return None;
        }
        Some(Sides {
            interior: effect_at(effects, 1 + 2 * i),
            exterior: effect_at(effects, 2 + 2 * i),
        })
    }

    // Whether Never is met.
    fn loops(self) -> bool
        ensures { result ≡ (is self.interior Never || is self.exterior Never) }
    {
        self.interior == Effect::Never || self.exterior == Effect::Never
    }

    fn output(self, fork: bool) -> bool
        ensures { result ≡ output fork self.interior self.exterior }
    {
        (self.interior.write() || !fork && self.interior.read()) && self.exterior.read()
    }

    fn input(self, fork: bool) -> bool
        ensures { result ≡ input fork self.interior self.exterior }
    {
        self.exterior.write() && (self.interior.read() || self.output(fork) && self.interior.pass())
    }

    fn wire(self, inv: bool, fork: bool) -> Option<Wire>
        ensures { written result ≡ wire_of inv fork self.interior self.exterior }
    {
        if self.loops() || self.interior == Effect::Pass || self.exterior == Effect::Pass {
            return None;
        }
        let barrier = self.interior.barrier();
        let output = self.output(fork);
        let input = self.input(fork);
        if inv {
            Some(Wire(output, barrier, input))
        } else {
            Some(Wire(input, barrier, output))
        }
    }
}

// Sets the half byte of each interface, and answers `self.infinite_loop`, as far as this local says.
pub fn set_wires(
    interfaces: usize,
    incoming: &[u32],
    inv: bool,
    fork: bool,
    effects: &[u8],
    wires: &mut [u8],
) -> bool
    requires { (interfaces ≤ length incoming.now) × (interfaces ≤ length wires.old) × (2 * interfaces < length effects.now) }
    ensures { Crossed interfaces incoming.now inv fork effects.now wires.new result }
{
    let mut infinite_loop = false;
    for i in 0..interfaces {
        let (wire, loops) = match Sides::at(incoming, effects, i) {
            Some(sides) => (sides.wire(inv, fork), sides.loops()),
            None => (None, false),
        };
        wires[i] = half(wire);
        infinite_loop |= loops;
    }
    infinite_loop
}
