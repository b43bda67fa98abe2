//! Tests of gx_script, gix and gx_tool that no row and no script can stand in for: a reader of which each read fails,
//! scripts in pieces of every size, what an error names, and the texts of errors.
#![tactic(auto)]

#[cfg(test)]
mod reading;
#[cfg(test)]
mod scripts;
#[cfg(test)]
mod texts;
#[cfg(test)]
mod told;
