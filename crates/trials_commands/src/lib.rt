//! Tests of the top call, over an outside in memory: what each command prints and writes, how it ends, and what is
//! left where a call on the outside fails.
//!
//! What is expected was worked out by hand. Each test asks by `ends` (`asking.rt`).
#![tactic(auto)]

#[cfg(test)]
mod asking;
#[cfg(test)]
mod checks;
#[cfg(test)]
mod derivations;
