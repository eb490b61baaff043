// The answers that an image can get, code by code.
ghost use Rattle.std.specs.Prelude.{◌≡◌, List, ℕ, ◌≤◌, ◌<◌, length, take, Err, MatchResult};
ghost use Rattle.image.specs.Answer.{answer_of};
ghost use Rattle.image.specs.Check.{marked, owned, kind_answer, record_answer, check_of};
ghost use Rattle.image.specs.LayerRules.{layer_rules};
ghost use Rattle.image.specs.Viewed.{viewed};
ghost use Rattle.judging.specs.Judge.{walk_all};
ghost use Rattle.records.specs.Layout.{sections};

use crate::accepted::Judged;
use crate::answer::{Answer, Kind, Refusal};
use crate::entering::{entered_once, jump_all};
use crate::kind::kind;
use crate::layer_rules::{interfaces_lie, parents_below};
use crate::layered::Layered;
use crate::listers::own_all;
use crate::tally::counted;
use judging::walk::walk;
use records::Records;
use records::bytes::u32_at;
use records::layout::{Counts, HEAD, VERSION};
use records::record::LayerRecord;
use records::running::Running;

// "IR" and the version are one word.
fn marked(s: &[u8]) -> bool
    requires { 21 ≤ length s.now }
    ensures { result ≡ marked s.now }
{
    (s[0] == 86) & (u32_at(s, 1) == 21065 + 65536 * (VERSION as u32))
}

// 2 short, 3 mark, 4 count, 5 length.
fn laid_out(bytes: &[u8]) -> Result<Records, Refusal>
    ensures { MatchResult result
        (λ records. (records.bytes.now ≡ bytes.now) × (check_of bytes.now ≡ record_answer bytes.now records.counts (walk_all bytes.now records.counts sections (record { refs = 0; steps = 0; ports = 0 }))))
        (λ refusal. answer_of (Err refusal) ≡ check_of bytes.now) }
{
    if bytes.len() < HEAD {
        return Err(Refusal::Short);
    }
    if !marked(bytes) {
        return Err(Refusal::Mark);
    }
    let counts = Counts::read(bytes);
    if !counts.within() {
        return Err(Refusal::Count);
    }
    if bytes.len() != counts.length() {
        return Err(Refusal::Length);
    }
    Ok(Records { bytes, counts })
}

fn owned(c: Counts, r: Running) -> bool
    ensures { result ≡ owned c r }
{
    (r.refs == (c.refs as usize))
        & (r.steps == (c.steps as usize))
        & (r.ports == (c.ports as usize))
}

// 6 record.
fn accepted(records: Records) -> Result<Judged, Refusal>
    ensures { MatchResult result
        (λ image. (image.records.bytes.now ≡ records.entry.bytes.now) × (record_answer records.entry.bytes.now records.entry.counts (walk_all records.entry.bytes.now records.entry.counts sections (record { refs = 0; steps = 0; ports = 0 })) ≡ kind_answer (viewed image.records)))
        (λ refusal. answer_of (Err refusal) ≡ record_answer records.entry.bytes.now records.entry.counts (walk_all records.entry.bytes.now records.entry.counts sections (record { refs = 0; steps = 0; ports = 0 }))) }
{
    let ends = walk(&records)?;
    if !owned(records.counts, ends) {
        return Err(Refusal::Record(records.bytes.len() as u32));
    }
    Ok(Judged { records })
}

// The rules in document 01's order.
fn layer_rules(image: &Judged) -> bool
    ensures { result ≡ layer_rules (viewed image.now.records) }
{
    let records = &image.records;
    if !parents_below(records) {
        return false;
    }
    let mut counts = [0u8; 256];
    if !own_all::<LayerRecord>(image, &mut counts) {
        return false;
    }
    if !counted(&counts, records.counts.stages, 1) {
        return false;
    }
    if !interfaces_lie(records) {
        return false;
    }
    let layered = Layered { image: *image };
    let mut entered = [0u8; 256];
    let jumps = jump_all(&layered, &mut entered);
    if !jumps.entered {
        return false;
    }
    if !entered_once(records, &entered) {
        return false;
    }
    jumps.out
}

// 7 kind, 8 layers.
fn judge_kind(image: &Judged) -> Result<Kind, Refusal>
    ensures { answer_of result ≡ kind_answer (viewed image.now.records) }
{
    let found = kind(image).ok_or(Refusal::Kind)?;
    if found == Kind::Layered && !layer_rules(image) {
        return Err(Refusal::Layers);
    }
    Ok(found)
}

// The kind of an image, or the first reason to refuse it.
pub fn judge(bytes: &[u8]) -> Result<Kind, Refusal>
    ensures { answer_of result ≡ check_of bytes.now }
{
    let records = laid_out(bytes)?;
    let image = accepted(records)?;
    judge_kind(&image)
}

pub fn check(bytes: &[u8]) -> Answer
    ensures { result ≡ check_of bytes.now }
{
    Answer::from(judge(bytes))
}

// Why an image that is longer than the largest is refused, by its first bytes alone: nothing needs the rest.
fn refused_long(head: &[u8]) -> Refusal
    requires { 21 ≤ length head.now }
    ensures { (s : List ℕ) → take 21 s ≡ take 21 head.now → 63893 < length s → answer_of (Err result) ≡ check_of s }
{
    if !marked(head) {
        return Refusal::Mark;
    }
    if !Counts::read(head).within() {
        return Refusal::Count;
    }
    Refusal::Length
}

pub fn check_long(head: &[u8]) -> Answer
    requires { 21 ≤ length head.now }
    ensures { (s : List ℕ) → take 21 s ≡ take 21 head.now → 63893 < length s → result ≡ check_of s }
{
    Answer::from(Err(refused_long(head)))
}
