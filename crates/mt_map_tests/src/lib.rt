//! Tests of a map, of a machine's runs, of builds and of the text of requests by the public surface of their crates.
//! There is nothing else here: a crate of its own, so that the crates below are proved once.
#![tactic(auto)]

#[cfg(test)]
mod batches;
#[cfg(test)]
mod builds;
#[cfg(test)]
mod chance;
#[cfg(test)]
mod loaded;
#[cfg(test)]
mod maps;
#[cfg(test)]
mod random_runs;
#[cfg(test)]
mod runs;
#[cfg(test)]
mod scripts;
