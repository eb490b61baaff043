// The state of fixed_point in lent memory: an effect's number a variable (lent bytes have any content, so they are no effects), the variables that
// wait as a stack, and document 01's counters.
ghost use Rattle.std.specs.Prelude.{◌≤◌, length};

use crate::{Relation, effect_at};
use effect::Effect;

#[derive(Drop)]
pub(crate) struct Worklist<'a> {
    effects: &'a mut [u8],
    stack: &'a mut [u16],
    waiting: usize,
    pub(crate) takes: u32,
    pub(crate) evaluations: u32,
    ghost stands: { waiting ≤ length stack.now },
}

impl<'a> Worklist<'a> {
    ghost use Rattle.std.specs.Prelude.{◌≡◌, ◌∷◌, ◌<◌, ◌≤◌, length};
    ghost use Rattle.solve.specs.FixedPoint.{effect_at, value_of, evaluate, evaluate_all, start};
    ghost use Rattle.solve.specs.Least.{Inside};
    ghost use Rattle.solve.specs.Tables.{effects_of, state_of, SameMemory};
    ghost use Rattle.solve.specs.Handing.{handed, Handable, Taken};

    // At the start each variable whose seed is not Never waits, in variable order.
    pub(crate) fn start(effects: &'a mut [u8], stack: &'a mut [u16]) -> Worklist<'a>
        requires { (length effects.old ≤ length stack.old) × (length effects.old ≤ 65535) }
        ensures state { state_of result ≡ start (effects_of effects.old) }
        ensures same_reference { result.effects.ghost_name ≡ effects.entry.ghost_name }
        ensures room { length result.stack.now ≡ length stack.old }
    {
        let mut worklist = Worklist {
            effects,
            stack,
            waiting: 0,
            takes: 0,
            evaluations: 0,
        };
        for v in 0..worklist.effects.len() as u16 {
            if worklist.effect(v) != Effect::Never {
                worklist.push(v);
            }
        }
        worklist
    }

    // The effect of the variable v.
    fn effect(&self, v: u16) -> Effect
        requires { v < length self.now.effects.now }
        ensures { result ≡ effect_at (effects_of self.now.effects.now) v }
    {
        effect_at(self.effects, v as usize)
    }

    // What the relation gives.
    fn value(&self, inv: bool, r: Relation) -> Effect
        requires { Inside (length self.now.effects.now) r }
        ensures { result ≡ value_of inv (effects_of self.now.effects.now) r }
    {
        let a = self.effect(r.a);
        let b = self.effect(r.b);
        let c = self.effect(r.c);
        if inv {
            c.join(b).join(a)
        } else {
            a.join(b).join(c)
        }
    }

    // The variable v waits, also where it waits already.
    fn push(&mut self, v: u16)
        requires { self.old.waiting < length self.old.stack.now }
        ensures state { state_of self.new ≡ record (state_of self.old) { dirty = v ∷ (state_of self.old).dirty } }
        ensures memory { SameMemory self.old self.new }
    {
        self.stack[self.waiting] = v;
        self.waiting += 1;
    }

    // Takes the variable that came last.
    pub(crate) fn pop(&mut self) -> Option<u16>
        requires { self.old.takes < 4294967295 }
        ensures state { Taken self.old self.new result }
        ensures memory { SameMemory self.old self.new }
    {
        if self.waiting == 0 {
            return None;
        }
        self.waiting -= 1;
        self.takes += 1;
        Some(self.stack[self.waiting])
    }

    // Evaluates the relation: where its out rises, that variable waits once more.
    fn evaluate(&mut self, inv: bool, r: Relation)
        requires inside { Inside (length self.old.effects.now) r }
        requires room { length (evaluate inv r (state_of self.old)).dirty ≤ length self.old.stack.now }
        requires evaluations { self.old.evaluations < 4294967295 }
        ensures state { state_of self.new ≡ evaluate inv r (state_of self.old) }
        ensures memory { SameMemory self.old self.new }
    {
        let out = r.out;
        let old = self.effect(out);
        let new = old.union(self.value(inv, r));
        self.evaluations += 1;
        if new != old {
            self.effects[out as usize] = u8::from(new);
            self.push(out);
        }
    }

    // Evaluates the relations that the entries name, in their order.
    pub(crate) fn hand_out(&mut self, inv: bool, relations: &[Relation], entries: &[u16])
        requires { Handable inv relations.now entries.now (length self.old.effects.now) (length self.old.stack.now) (state_of self.old) }
        ensures state { state_of self.new ≡ evaluate_all inv (handed relations.now entries.now) (state_of self.old) }
        ensures memory { SameMemory self.old self.new }
    {
        for &r in entries {
            self.evaluate(inv, relations[r as usize]);
        }
    }
}
