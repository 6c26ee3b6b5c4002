// The tables that the parts of a layer work in, in four lent quarters: v for the values, w for the weights, h and j for what is summed.
// From one part to the next they are made anew, so that four quarters suffice for the largest layers.
ghost use Rattle.std.specs.Prelude.{◌≡◌, ◌++◌, length};

use circuits::MOST_PLACES;

mod starting;
mod turning;

// So many words are lent to work in: four quarters, each with room for a layer's values in all copies.
pub const WORK: usize = 262144;

#[derive(Drop)]
pub struct Tables<'t> {
    pub v: &'t mut [u32],
    pub w: &'t mut [u32],
    pub h: &'t mut [u32],
    pub j: &'t mut [u32],
    ghost v_long: { length v.now ≡ 65536 },
    ghost w_long: { length w.now ≡ 65536 },
    ghost h_long: { length h.now ≡ 65536 },
    ghost j_long: { length j.now ≡ 65536 },
}

impl<'t> Tables<'t> {
    // The quarters of the words that are lent to work in.
    pub fn over(work: &'t mut [u32]) -> Tables<'t>
        requires { length work.old ≡ 262144 }
        ensures { (result.v.now ++ result.w.now) ++ (result.h.now ++ result.j.now) ≡ work.old }
    {
        let (front, back) = work.split_at_mut(2 * MOST_PLACES);
        let (v, w) = front.split_at_mut(MOST_PLACES);
        let (h, j) = back.split_at_mut(MOST_PLACES);
        Tables { v, w, h, j }
    }
}
