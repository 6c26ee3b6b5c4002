// Whether words have the shape of a circuit's layers: whole, within the limits, with gates of known kinds.
// A layer's size is looked at before anything is measured by it, so that no word can be too large.
ghost use Rattle.std.specs.Prelude.{◌≡◌, ◌+◌, ◌*◌, ◌/◌, ◌^◌, ◌<◌, ◌≤◌, true, false, length, drop, is_some, MatchOption, IfSome};
ghost use Rattle.circuits.specs.Parts.{layer_length, starts_layer};
ghost use Rattle.circuits.specs.Words.{kinds_known, shaped};

use crate::gate::Kind;
use crate::limits::MOST_BITS;

// the place of each bit: 2^0 to 2^16
const BIT_PLACES: [usize; 17] = [
    1, 2, 4, 8, 16, 32, 64, 128, 256, 512, 1024, 2048, 4096, 8192, 16384, 32768, 65536,
];

pub fn power(size: u32) -> usize
    requires { size ≤ 16 }
    ensures value { result ≡ 2 ^ size }
    ensures limit { result ≤ 65536 }
    ensures some { 0 < result }
{
    BIT_PLACES[size as usize]
}

// Whether each of these gates has a known kind.
fn kinds_known(words: &[u32]) -> bool
    ensures { result ≡ kinds_known (length words.now / 3) words.now }
{
    let (gates, _) = words.as_chunks::<3>();
    gates
        .iter()
        .all(|[kind, _, _]| Kind::try_from(*kind).is_ok())
}

// What follows the first layer, unless these words do not start with a layer.
fn skip_layer(copies: u32, words: &[u32]) -> Option<&[u32]>
    requires { copies ≤ 16 }
    ensures { MatchOption result (starts_layer copies words.now ≡ false) (λ rest. (starts_layer copies words.now ≡ true) × (rest.now ≡ drop (layer_length words.now) words.now)) }
{
    let (size, rest) = words.split_first()?;
    if *size > MOST_BITS - copies {
        return None;
    }
    let (gates, rest) = rest.split_at_checked(3 * power(*size))?;
    if kinds_known(gates) { Some(rest) } else { None }
}

fn is_shaped(copies: u32, count: u32, words: &[u32]) -> bool
    requires { copies ≤ 16 }
    ensures { result ≡ shaped copies count words.now }
{
    let mut rest = words;
    for _done in 0..count {
        match skip_layer(copies, rest) {
            Some(others) => rest = others,
            None => return false,
        }
    }
    rest.is_empty()
}

// The words of some layers of a circuit, down to the one above its inputs.
#[derive(Clone, Copy)]
pub struct Layers<'a> {
    pub copies: u32,
    pub count: u32,
    pub words: &'a [u32],
    ghost shaped: { shaped copies count words.now ≡ true },
}

impl<'a> Layers<'a> {
    // Nothing but words of that shape.
    pub fn check(copies: u32, count: u32, words: &'a [u32]) -> Option<Layers<'a>>
        requires { copies ≤ 16 }
        ensures shaped { is_some result ≡ shaped copies count words.now }
        ensures seen { IfSome result (λ layers. (layers.copies ≡ copies) × (layers.count ≡ count) × (layers.words.now ≡ words.now)) }
    {
        if is_shaped(copies, count, words) {
            Some(Layers {
                copies,
                count,
                words,
            })
        } else {
            None
        }
    }
}
