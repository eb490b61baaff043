// The functions of Effect on document 01's numbers, exported to programs in C and Rust.
#![tactic(auto)]

ghost use Rattle.std.specs.Prelude.{◌≡◌};
ghost use Rattle.effect.specs.Effect.{number_of, effect_of, join, union, read, pass, barrier, write};

use effect::Effect;

#[unsafe(no_mangle)]
pub extern "C" fn vine_effect_join(a: u8, b: u8) -> u8
    ensures { result ≡ number_of (join (effect_of a) (effect_of b)) }
{
    Effect::from(a).join(Effect::from(b)).into()
}

#[unsafe(no_mangle)]
pub extern "C" fn vine_effect_union(a: u8, b: u8) -> u8
    ensures { result ≡ number_of (union (effect_of a) (effect_of b)) }
{
    Effect::from(a).union(Effect::from(b)).into()
}

#[unsafe(no_mangle)]
pub extern "C" fn vine_effect_read(a: u8) -> bool
    ensures { result ≡ read (effect_of a) }
{
    Effect::from(a).read()
}

#[unsafe(no_mangle)]
pub extern "C" fn vine_effect_pass(a: u8) -> bool
    ensures { result ≡ pass (effect_of a) }
{
    Effect::from(a).pass()
}

#[unsafe(no_mangle)]
pub extern "C" fn vine_effect_barrier(a: u8) -> bool
    ensures { result ≡ barrier (effect_of a) }
{
    Effect::from(a).barrier()
}

#[unsafe(no_mangle)]
pub extern "C" fn vine_effect_write(a: u8) -> bool
    ensures { result ≡ write (effect_of a) }
{
    Effect::from(a).write()
}
