//! The rules that a written proof names.

/// The name of a rule, which stands before the arguments of a written proof.
#[derive(Clone, Copy)]
pub enum Head {
    /// `lam`
    Lam,
    /// `app`
    App,
    /// `gen`
    Gen,
    /// `inst`
    Inst,
    /// `pair`
    Pair,
    /// `first`
    First,
    /// `second`
    Second,
    /// `left`
    Left,
    /// `right`
    Right,
    /// `cases`
    Cases,
    /// `pack`
    Pack,
    /// `unpack`
    Unpack,
    /// `absurd`
    Absurd,
    /// `stable`
    Stable,
    /// `refl`
    Refl,
    /// `rewrite`
    Rewrite,
    /// `axiom`
    Axiom,
    /// `induct`
    Induct,
    /// `compute`
    Compute,
    /// `ring`
    Ring,
}
