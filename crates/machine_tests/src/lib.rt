// Tests of the makes and the layers by the interface alone, as tables.
#![tactic(auto)]

mod throws;

pub use throws::ticks_to;

#[cfg(test)]
mod checks;
#[cfg(test)]
mod combining;
#[cfg(test)]
mod crossings;
#[cfg(test)]
mod detectors;
#[cfg(test)]
mod models;
#[cfg(test)]
mod nestings;
