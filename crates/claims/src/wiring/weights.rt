// The weights of a layer's gates: at each gate's corner, what all shares of a claim have there together.
// Each share takes one table of eq; the second is added to the first.
ghost use Rattle.std.specs.Prelude.{◌≡◌, ℕ, ◌+◌, ◌*◌, ◌%◌, ◌^◌, ◌<◌, ◌≤◌, T, length, slice_index};
ghost use Rattle.arithmetic.specs.Numbers.{modulo, all_reduced};
ghost use Rattle.tables.specs.Multilinear.{eq_poly, bits_of};
ghost use Rattle.claims.specs.Shares.{SharesFit, shares_seen};
ghost use Rattle.claims.specs.Sums.{share_weight};

use crate::share::SharesView;
use arithmetic::modular::Modular;
use circuits::MOST_PLACES;
use tables::eq::eq_table_scaled;

fn add_tables<M: Modular>(table: &mut [u32], other: &[u32])
    requires length { length table.old ≡ length other.now }
    requires reduced { (T (all_reduced (modulo M.modulus) table.old)) × (T (all_reduced (modulo M.modulus) other.now)) }
    ensures sums { (i : ℕ) → i < length table.old → slice_index table.new i ≡ (slice_index table.old i + slice_index other.now i) % M.modulus }
    ensures reduced { T (all_reduced (modulo M.modulus) table.new) }
{
    // a zip with `iter_mut` says nothing of what the table holds after it
    for (i, number) in table.iter_mut().enumerate() {
        *number = M::add(*number, other[i]);
    }
}

// One share more: its factor times eq at each gate's corner and its point.
fn add_share<M: Modular>(factor: u32, point: &[u32], room: &mut [u32], weights: &mut [u32])
    requires lengths { (length room.old ≡ 2 ^ length point.now) × (length weights.old ≡ 2 ^ length point.now) }
    requires factor_below { factor < M.modulus }
    requires reduced { (T (all_reduced (modulo M.modulus) point.now)) × (T (all_reduced (modulo M.modulus) weights.old)) }
    ensures sums { (i : ℕ) → i < 2 ^ length point.now → slice_index weights.new i ≡ (slice_index weights.old i + (factor * eq_poly (modulo M.modulus) (bits_of (modulo M.modulus) (length point.now) i) point.now) % M.modulus) % M.modulus }
    ensures reduced { T (all_reduced (modulo M.modulus) weights.new) }
{
    eq_table_scaled::<M>(factor, point, room);
    add_tables::<M>(weights, room);
}

// The weights of a layer with 2^n gates, where n is how many coordinates the shares' points have.
pub fn weigh<M: Modular>(shares: SharesView, weights: &mut [u32])
    requires length { (length weights.old ≡ 2 ^ length shares.first.point.now) × (length shares.first.point.now ≤ 16) }
    requires shares { SharesFit M.modulus (length shares.first.point.now) shares }
    ensures weights { (i : ℕ) → i < 2 ^ length shares.entry.first.point.now → slice_index weights.new i ≡ share_weight (modulo M.modulus) (length shares.entry.first.point.now) (shares_seen shares.entry) i }
    ensures reduced { T (all_reduced (modulo M.modulus) weights.new) }
{
    eq_table_scaled::<M>(shares.first.factor, shares.first.point, weights);
    if let Some(share) = shares.second {
        let mut room = [0; MOST_PLACES];
        add_share::<M>(
            share.factor,
            share.point,
            &mut room[0..weights.len()],
            weights,
        );
    }
}
