// Layered circuits in words: a checked view of them, and checks of what goes with them.
// What a circuit and its words mean is defined in specs/Circuit.antt and specs/Words.antt.
#![tactic(auto)]

mod checks;
mod examples;
mod gate;
mod limits;
mod places;
mod shape;
mod view;

pub use checks::{check_counts, check_reduced};
pub use examples::examples_stand;
pub use gate::{Gate, Kind, UnknownKind};
pub use limits::MOST_PLACES;
pub use refusals::Refusal;
pub use shape::power;
pub use view::{CircuitView, Gates, LayerView, LayersView};
