// Whether a record keeps its rule: one function for each rule of document 01.
ghost use Rattle.std.specs.Prelude.{◌≡◌, ◌||◌, ℕ, Some, ◌+◌, ◌*◌, ◌≤◌, eqb, ltb, length};
ghost use Rattle.vir.specs.Header.{header_of};
ghost use Rattle.vir.specs.Interface.{kind_of};
ghost use Rattle.vir.specs.Step.{step_of};
ghost use Rattle.vir.specs.declared.interface.InterfaceKind.TheVariants.{Closure};
ghost use Rattle.records.specs.Bytes.{u16_at};
ghost use Rattle.records.specs.Every.{every};
ghost use Rattle.records.specs.Layout.{length_of};
ghost use Rattle.rules.specs.Faults.{or_none, type_named, flags_good, laid, list_at, refs_below, layer_fields, layer_good, kind_lists, closure_at, entries_named, interface_fields, interface_good, header_has, ports_laid, transfer_good, stage_named, stage_lists, stage_fields, stage_good, local_good, type_good, step_has, step_fields, step_good, port_good};

use records::bytes::u16_at;
use records::layout::{Counts, REF};
use records::record::{
    InterfaceRecord, LayerRecord, LocalRecord, PortRecord, Run, StageRecord, StepRecord, TypeRecord,
};
use records::running::Running;
use vir::header::Header;
use vir::ids::{NONE, Type};
use vir::interface::InterfaceKind;
use vir::port::PortKind;

fn or_none(n: u16, i: u16) -> bool
    ensures { result ≡ or_none n i }
{
    i == NONE || i < n
}

fn type_named(c: Counts, t: Type) -> bool
    ensures { result ≡ type_named c t.0 }
{
    t.idx().0 < c.types
}

fn flags_good(f: u8) -> bool
    ensures { result ≡ flags_good f }
{
    f < 16
}

// The header's ports, with the transfer's data port behind them uncounted.
fn ports_laid(running: usize, total: u16, run: Run, payload: u8) -> bool
    ensures { result ≡ ports_laid running total run payload }
{
    let first = run.first as usize;
    first == running && first + run.count as usize + payload as usize <= total as usize
}

// A list starts at the running place, and does not run past its section.
fn laid(running: usize, total: u16, run: Run) -> bool
    ensures { result ≡ laid running total run }
{
    ports_laid(running, total, run, 0)
}

// Whether each of the refs from a place on names one of n records.
pub fn refs_below(s: &[u8], at: usize, count: u16, n: u16) -> bool
    requires { at + 2 * count ≤ length s.now }
    ensures { result ≡ every count (λ k. ltb (u16_at s.now (at + 2 * k)) n) }
{
    (0..count as usize).all(|k| u16_at(s, at + REF * k) < n)
}

// Where a list's refs start.
fn list_at(c: Counts, run: Run) -> usize
    ensures { result ≡ list_at c run }
{
    c.refs_at() + REF * run.start()
}

// Whether each of a list's refs names one of n records.
fn listed_below(s: &[u8], c: Counts, run: Run, n: u16) -> bool
    requires { list_at c run + 2 * run.count ≤ length s.now }
    ensures { result ≡ refs_below s.now c run n }
{
    refs_below(s, list_at(c, run), run.count, n)
}

pub fn local_good(c: Counts, l: LocalRecord) -> bool
    ensures { result ≡ local_good c l }
{
    type_named(c, l.ty) && flags_good(l.flags)
}

pub fn type_good(t: TypeRecord) -> bool
    ensures { result ≡ type_good t }
{
    flags_good(t.upright) && flags_good(t.inverted)
}

#[tactic(auto, using(crate::proofs::Cases::port_case))]
pub fn port_good(c: Counts, p: PortRecord) -> bool
    ensures { result ≡ port_good c p }
{
    type_named(c, p.ty)
        && match PortKind::from_fields(p.kind, p.a, p.b) {
            Some(PortKind::Wire(..)) => true,
            Some(_) => p.b == 0,
            None => false,
        }
}

fn kind_lists(kind: u8, count: u16) -> bool
    ensures { result ≡ kind_lists (kind_of kind) count }
{
    InterfaceKind::try_from(kind).is_ok_and(|k| k.entries().allows(count))
}

fn header_has(tag: u8, count: u16) -> bool
    ensures { result ≡ header_has (header_of tag) count }
{
    Header::try_from(tag).is_ok_and(|h| h.ports().allows(count))
}

fn layer_fields(c: Counts, r: Running, l: LayerRecord) -> bool
    ensures { result ≡ layer_fields c r l }
{
    or_none(c.layers, l.parent.0) && laid(r.refs, c.refs, l.stages)
}

#[tactic(auto, unfolding(crate::specs::Faults::layer_good))]
pub fn layer_good(s: &[u8], c: Counts, r: Running, l: LayerRecord) -> bool
    requires { length s.now ≡ length_of c }
    ensures { result ≡ layer_good s.now c r l }
{
    layer_fields(c, r, l) && listed_below(s, c, l.stages, c.stages)
}

// A Closure's three; its fork and its drop may be missing.
fn closure_named(s: &[u8], at: usize, n: u16) -> bool
    requires { at + 6 ≤ length s.now }
    ensures { result ≡ closure_at s.now at n }
{
    (u16_at(s, at) < n) & or_none(n, u16_at(s, at + 2)) & or_none(n, u16_at(s, at + 4))
}

#[tactic(auto, using(crate::proofs::Cases::entries_case))]
fn entries_named(s: &[u8], c: Counts, i: InterfaceRecord) -> bool
    requires fits { list_at c i.list + 2 * i.list.count ≤ length s.now }
    requires three { kind_of i.kind ≡ Some Closure → i.list.count ≡ 3 }
    ensures { result ≡ entries_named s.now c i }
{
    match InterfaceKind::try_from(i.kind) {
        Ok(InterfaceKind::Inspect) => listed_below(s, c, i.list, c.locals),
        Ok(InterfaceKind::Closure) => closure_named(s, list_at(c, i.list), c.stages),
        _ => listed_below(s, c, i.list, c.stages),
    }
}

// A Match alone has a key.
fn key_good(i: InterfaceRecord) -> bool
    ensures { result ≡ (eqb i.kind 2 || eqb i.key 0) }
{
    i.kind == InterfaceKind::Match as u8 || i.key == 0
}

fn interface_fields(c: Counts, r: Running, i: InterfaceRecord) -> bool
    ensures { result ≡ interface_fields c r i }
{
    kind_lists(i.kind, i.list.count) && key_good(i) && laid(r.refs, c.refs, i.list)
}

#[tactic(auto, unfolding(crate::specs::Faults::interface_good))]
pub fn interface_good(s: &[u8], c: Counts, r: Running, i: InterfaceRecord) -> bool
    requires { length s.now ≡ length_of c }
    ensures { result ≡ interface_good s.now c r i }
{
    interface_fields(c, r, i) && entries_named(s, c, i)
}

fn transfer_good(c: Counts, t: StageRecord) -> bool
    ensures { result ≡ transfer_good c t }
{
    or_none(c.interfaces, t.transfer.0)
        && t.payload <= 1
        && (t.payload == 0 || t.transfer.0 != NONE)
}

fn stage_named(c: Counts, t: StageRecord) -> bool
    ensures { result ≡ stage_named c t }
{
    t.interface.0 < c.interfaces
        && or_none(c.layers, t.layer.0)
        && header_has(t.header, t.ports.count)
        && transfer_good(c, t)
}

fn stage_lists(c: Counts, r: Running, t: StageRecord) -> bool
    ensures { result ≡ stage_lists c r t }
{
    ports_laid(r.ports, c.ports, t.ports, t.payload)
        && laid(r.steps, c.steps, t.steps)
        && laid(r.refs, c.refs, t.declarations)
}

fn stage_fields(c: Counts, r: Running, t: StageRecord) -> bool
    ensures { result ≡ stage_fields c r t }
{
    stage_named(c, t) && stage_lists(c, r, t)
}

#[tactic(auto, unfolding(crate::specs::Faults::stage_good))]
pub fn stage_good(s: &[u8], c: Counts, r: Running, t: StageRecord) -> bool
    requires { length s.now ≡ length_of c }
    ensures { result ≡ stage_good s.now c r t }
{
    stage_fields(c, r, t) && listed_below(s, c, t.declarations, c.locals)
}

// Steps are judged by comparing tags. To make the step and ask it was tried, and misses what is asked of check: on three images of the benchmark
// it would be slower than the Rust (docs/BENCHMARK.md).

// Ports 0, 1, 1, 1, 1, 2.
fn invoke_good(c: Counts, t: StepRecord) -> bool
    requires { t.tag ≤ 5 }
    ensures { result ≡ step_fields c t }
{
    (t.ports.count == ((t.tag as u16) + 3) / 4) & (t.b < c.locals)
}

fn transfer_step_good(c: Counts, t: StepRecord) -> bool
    requires { t.tag ≡ 6 }
    ensures { result ≡ step_fields c t }
{
    (t.ports.count <= 1) & ((t.a == 0) & (t.b < c.interfaces))
}

// Without an interface it has no port.
pub fn diverge_good(c: Counts, t: StepRecord) -> bool
    requires { t.tag ≡ 7 }
    ensures { result ≡ step_fields c t }
{
    let n = t.ports.count;
    (n <= 1) & ((t.a < (c.layers as u32)) & or_none(c.interfaces, t.b)) & ((t.b != NONE) | (n == 0))
}

// 2, 1+, 1, 1+, 2, 2, 2, 3, 1+, 1+, 1+, 2, 3 from tag 8 on.
fn other_has(tag: u8, count: u16) -> bool
    requires le_tag { 8 ≤ tag }
    requires tag_bound { tag ≤ 20 }
    ensures { (a b : ℕ) → result ≡ step_has (step_of tag a b) count }
{
    if (tag == 9) | (tag == 11) | ((16 <= tag) & (tag <= 18)) {
        return 1 <= count;
    }
    if tag == 10 {
        return count == 1;
    }
    if (tag == 15) | (tag == 20) {
        return count == 3;
    }
    count == 2
}

fn other_good(t: StepRecord) -> bool
    requires { 8 ≤ t.tag }
    ensures { (c : Counts) → result ≡ step_fields c t }
{
    if 20 < t.tag {
        return false;
    }
    (t.b == 0) & other_has(t.tag, t.ports.count)
}

fn step_fields(c: Counts, t: StepRecord) -> bool
    ensures { result ≡ step_fields c t }
{
    if t.tag <= 5 {
        return invoke_good(c, t);
    }
    if t.tag == 6 {
        return transfer_step_good(c, t);
    }
    if t.tag == 7 {
        return diverge_good(c, t);
    }
    other_good(t)
}

pub fn step_good(c: Counts, r: Running, t: StepRecord) -> bool
    ensures { result ≡ step_good c r t }
{
    step_fields(c, t) && laid(r.ports, c.ports, t.ports)
}
