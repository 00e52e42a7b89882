//! Tests of clients, doors and moments of `mt_shared` by its public surface. There is nothing else here: a crate of its
//! own, so that `mt_shared` is proved once.
#![tactic(auto)]

#[cfg(test)]
mod as_a_map;
#[cfg(test)]
mod clients;
#[cfg(test)]
mod doors;
#[cfg(test)]
mod holding;
#[cfg(test)]
mod moments;
