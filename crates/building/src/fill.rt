// analyzer.rs: `fill_segments`, the effect that each variable starts with for one local. The Rust's loops set every seed anew; here the seeds that
// all locals share are copied, the local's touches joined in, and what the stages that declare it cut off is exchanged.
ghost use Rattle.std.specs.Prelude.{◌≡◌, ℕ, ◌<◌, ◌≤◌, length};
ghost use Rattle.effect.specs.Effect.{effect_of};
ghost use Rattle.image.specs.Loops.{each};
ghost use Rattle.image.specs.View.{collect, view};
ghost use Rattle.solve.specs.Tables.{effects_of};
ghost use Rattle.analyzer.specs.Fill.{joined};
ghost use Rattle.building.specs.Fill.{join_touch, exchange_at, Within, Fillable, Filled};
ghost use Rattle.building.specs.Tables.{row_at, touch_row, disconnect_row};

use crate::built::{Built, Disconnect, Seeds, Touch};
use effect::Effect;
use image::accepted::Image;
use locals::declares;
use solve::effect_at;
use vir::ids::{Local, StageId};

// The effect of a number of 16 bits; Never past the last.
fn effect_of(n: u16) -> Effect
    ensures { result ≡ effect_of n }
{
    u8::try_from(n).map_or(Effect::Never, Effect::from)
}

// `*effect = if local.inv.0 { other.join(*effect) } else { effect.join(other) }`
fn joined(inv: bool, other: Effect, effect: Effect) -> Effect
    ensures { result ≡ joined inv other effect }
{
    if inv {
        other.join(effect)
    } else {
        effect.join(other)
    }
}

// Joins the local's touches in, each at its segment's variable.
#[tactic(auto, unfolding(image::specs::Loops::each, image::specs::View::collect))]
fn touch_all(l: Local, inv: bool, touches: &[Touch], effects: &mut [u8])
    requires { (k : ℕ) → k < length touches.now → row_at touches.now k 0 < length effects.old }
    ensures { effects_of effects.new
        ≡ each (join_touch inv l.0) (collect (touch_row touches.now) 0 (length touches.now)) (effects_of effects.old) }
{
    for &[var, of, effect] in touches {
        if of == l.0 {
            let var = var as usize;
            effects[var] = u8::from(joined(inv, effect_of(effect), effect_at(effects, var)));
        }
    }
}

// Where a stage declares the local, connected gets Never and disconnected Pass; elsewhere they have it the other way round.
#[tactic(auto, unfolding(image::specs::Loops::each, image::specs::View::collect))]
fn exchange_all(image: &Image, l: Local, disconnects: &[Disconnect], effects: &mut [u8])
    requires { (k : ℕ) → k < length disconnects.now → Within image.now.records.counts.stages (length effects.old) (disconnect_row disconnects.now k) }
    ensures { effects_of effects.new
        ≡ each (exchange_at (view image.now.records.bytes.now) l.0) (collect (disconnect_row disconnects.now) 0 (length disconnects.now))
        (effects_of effects.old) }
{
    for &[stage, connected, disconnected] in disconnects {
        if declares(image, StageId(stage), l) {
            effects[connected as usize] = u8::from(Effect::Never);
            effects[disconnected as usize] = u8::from(Effect::Pass);
        }
    }
}

// The seeds of a local, in the first entries of a table that has room for them all.
pub fn fill_segments(image: &Image, l: Local, inv: bool, z: Built, seeds: Seeds, effects: &mut [u8])
    requires fillable { Fillable image.now.records.counts.stages z seeds.touches.now seeds.disconnects.now }
    requires vars_in_bounds { (z.vars ≤ length seeds.base.now) × (z.vars ≤ length effects.old) }
    ensures { Filled (view image.now.records.bytes.now) inv l.0 z seeds.entry.base.now seeds.entry.touches.now seeds.entry.disconnects.now
        effects.new }
{
    let n = z.vars as usize;
    let filled = &mut effects[..n];
    filled.copy_from_slice(&seeds.base[..n]);
    touch_all(l, inv, &seeds.touches[..z.touches as usize], filled);
    exchange_all(
        image,
        l,
        &seeds.disconnects[..z.disconnects as usize],
        filled,
    );
}
