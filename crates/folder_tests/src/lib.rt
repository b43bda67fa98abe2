//! Tests of gx_folder: calls of files that fail, one after another, folders opened again, and files that are no part of
//! a store.
#![tactic(auto)]

#[cfg(test)]
mod broken;
#[cfg(test)]
mod failing;
#[cfg(test)]
mod index;
#[cfg(test)]
mod opened;
#[cfg(test)]
mod samples;
#[cfg(test)]
mod torn;
