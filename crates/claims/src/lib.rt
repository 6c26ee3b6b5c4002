// Claims about a layer and their shares, as they lie in memory, and the sums over them; messages and coins.
// What a claim means is in specs/Meaning.antt, and in specs/Shares.antt what the sums see of one.
#![tactic(auto)]

pub mod claim;
pub mod cut;
pub mod drawn;
pub mod extension;
pub mod message;
pub mod opening;
pub mod share;
pub mod sums;
pub mod wiring;
