// Tests of the point by its calls alone, as tables.
#![tactic(auto)]

mod scripted;

pub use scripted::Scripted;

#[cfg(test)]
mod connecting;
#[cfg(test)]
mod example;
#[cfg(test)]
mod interrupted;
#[cfg(test)]
mod judging;
#[cfg(test)]
mod moving;
#[cfg(test)]
mod playing;
#[cfg(test)]
mod reporting;
#[cfg(test)]
mod reversing;
#[cfg(test)]
mod scripts;
#[cfg(test)]
mod starting;
#[cfg(test)]
mod timeouts;
