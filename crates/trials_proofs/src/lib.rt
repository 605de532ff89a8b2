//! Tests of texts and proofs: what texts are read as and how trees are printed, the rows of the typing rules, holes
//! and what fills them, and the lines of scripts. All of them are given as texts. The crate has nothing else.
#![tactic(auto)]

#[cfg(test)]
mod asking;
#[cfg(test)]
mod filling;
#[cfg(test)]
mod printing;
#[cfg(test)]
mod proof_printing;
#[cfg(test)]
mod proof_reading;
#[cfg(test)]
mod reading;
#[cfg(test)]
mod rules;
#[cfg(test)]
mod scripts;
