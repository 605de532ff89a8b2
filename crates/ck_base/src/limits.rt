//! The limits of the tool, each in the unit that its name says. All of them are this project's own.

/// Declared names of one script or certificate.
pub const DECLARED_NAMES: usize = 64;

/// Bytes of one declared name.
pub const NAME_BYTES: usize = 32;

/// Nodes of a formula or term that fits, all of its formula and term nodes counted.
pub const FORMULA_NODES: u32 = 16_384;

/// Levels of a formula or term that fits, the root counted as one.
pub const FORMULA_DEPTH: u32 = 256;

/// Levels of proof nodes of a proof.
pub const PROOF_DEPTH: u32 = 2_048;

/// Levels of program nodes of a derivation or certificate.
pub const NODE_DEPTH: u32 = 256;

/// Nodes of a derivation or certificate: all program, proof, formula and term nodes.
pub const CERTIFICATE_NODES: u32 = 200_000;

/// Branches of an alternative.
pub const BRANCHES: usize = 8;

/// Bytes of a script.
pub const SCRIPT_BYTES: usize = 1_048_576;

/// Bytes of one line of a script.
pub const LINE_BYTES: usize = 8_192;

/// Bytes of a certificate.
pub const CERTIFICATE_BYTES: usize = 4_194_304;

/// Levels of nesting of one expression in a text.
pub const NESTING: u32 = 512;

/// Rounds of the tableau prover: the most, and how many where a line names none.
pub const ROUNDS: u32 = 6;

pub const DEFAULT_ROUNDS: u32 = 2;

/// Leaves of a tableau: the most, and how many where a line names none.
pub const LEAVES: u32 = 10_000;

pub const DEFAULT_LEAVES: u32 = 1_000;

/// Entries of one branch of a tableau.
pub const BRANCH_ENTRIES: usize = 300;

/// Steps of a run.
pub const RUN_STEPS: u64 = 1_000_000_000;
