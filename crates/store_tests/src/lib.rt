//! Tests of gx_store, gx_refs and gx_edit that no row can be: calls that fail, one after another, pieces, readers and
//! writers of std, and public functions whose answer no row compares.
#![tactic(auto)]

#[cfg(test)]
mod copies;
#[cfg(test)]
mod faults_of_references;
#[cfg(test)]
mod faults_of_trees;
#[cfg(test)]
mod samples;
#[cfg(test)]
mod signers;
#[cfg(test)]
mod sinks;
#[cfg(test)]
mod sources;
#[cfg(test)]
mod texts;
#[cfg(test)]
mod writing;
