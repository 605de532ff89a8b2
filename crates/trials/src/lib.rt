//! Tests of the crates up to `cert_codec` and `ck_text`, most of them as tables of texts.
//!
//! A proof covers what a contract says, for all inputs; these rows show that the contracts say what was meant.
//! Their expected values were worked out by hand. Terms, formulas and proofs are read from texts (`asking`).
#![tactic(auto)]

#[cfg(test)]
mod arithmetic;
#[cfg(test)]
mod asking;
#[cfg(test)]
mod base;
#[cfg(test)]
mod certificates;
#[cfg(test)]
mod formula_rows;
#[cfg(test)]
mod proof_rows;
#[cfg(test)]
mod rooms;
#[cfg(test)]
mod terms;
