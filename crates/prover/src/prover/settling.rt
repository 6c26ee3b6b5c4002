// Where a part of a layer begins, its tables are made; elsewhere they are left as they are.
// A part with no variables ends where it begins, so that the next one begins at once.
ghost use Rattle.std.specs.Prelude.{◌≡◌, [], length};
ghost use Rattle.phases.specs.Standing.{Rooms};
ghost use Rattle.prover.specs.Provers.{StandsIn, SameLayer, Alike, history, WithFactor, WithValue};

use super::HonestProver;
use arithmetic::mersenne::Mersenne31;
use phases::starts::{start_copies, start_left, start_right};

impl<'a> HonestProver<'a> {
    // By where x begins, and not by what is due: a part with no variables begins too, and is never due.
    pub(crate) fn settle_left(&mut self, v: &[u32], w: &mut [u32], h: &mut [u32], j: &mut [u32])
        requires { StandsIn 1 1 self.old v.now w.old h.old j.old }
        ensures same { WithFactor self.old self.new }
        ensures stands { StandsIn 0 1 self.new v.now w.new h.new j.new }
    {
        if self.drawn.len() == self.start_of_x() {
            self.factor = start_left::<Mersenne31>(self.layer, v, w, h, j);
        }
    }

    pub(crate) fn settle_right(
        &mut self,
        v: &mut [u32],
        w: &mut [u32],
        h: &mut [u32],
        j: &mut [u32],
    )
        requires { StandsIn 0 1 self.old v.old w.old h.old j.old }
        ensures same { WithValue self.old self.new }
        ensures stands { StandsIn 0 0 self.new v.new w.new h.new j.new }
    {
        let prover = &*self;
        if prover.drawn.len() == prover.start_of_y() {
            let at_x = start_right::<Mersenne31>(
                prover.layer,
                prover.shares.view(prover.layer.size() as usize),
                &prover.drawn.as_slice()[prover.start_of_x()..],
                prover.factor,
                v,
                w,
                h,
                j,
            );
            self.at_x = at_x;
        }
    }

    // Makes the tables of the parts that begin where it stands.
    pub(super) fn settle(&mut self, v: &mut [u32], w: &mut [u32], h: &mut [u32], j: &mut [u32])
        requires { StandsIn 1 1 self.old v.old w.old h.old j.old }
        ensures alike { Alike self.old self.new }
        ensures coins { history self.new ≡ history self.old }
        ensures layer { SameLayer self.old self.new }
        ensures stands { StandsIn 0 0 self.new v.new w.new h.new j.new }
    {
        self.settle_left(v, w, h, j);
        self.settle_right(v, w, h, j);
    }

    // The tables of the copies' variables, for a prover that has no coin of this layer yet.
    pub(crate) fn start(&self, v: &mut [u32], w: &mut [u32], h: &mut [u32], j: &[u32])
        requires none { history self.now ≡ [] }
        requires rooms { (Rooms v.old w.old h.old) × (length j.now ≡ 65536) }
        ensures { StandsIn 1 1 self.now v.new w.new h.new j.now }
    {
        start_copies::<Mersenne31>(
            self.layer,
            self.rest,
            self.inputs,
            &self.copy[0..self.start_of_x()],
            self.shares.view(self.layer.size() as usize),
            v,
            w,
            h,
        );
    }

    // Begins a layer, of which no coin is drawn yet.
    pub(crate) fn begin(&mut self, v: &mut [u32], w: &mut [u32], h: &mut [u32], j: &mut [u32])
        requires none { history self.old ≡ [] }
        requires rooms { (Rooms v.old w.old h.old) × (length j.old ≡ 65536) }
        ensures alike { Alike self.old self.new }
        ensures none { history self.new ≡ [] }
        ensures stands { StandsIn 0 0 self.new v.new w.new h.new j.new }
    {
        self.start(v, w, h, j);
        self.settle(v, w, h, j);
    }
}
