//! The rules of written proofs: their names, the kinds of their arguments, and the proofs that they make.

ghost use Rattle.std.specs.Prelude.{◌≡◌, ◌+◌, ◌∷◌, ◌++◌, [], Some, None, length, map, slice_get, MatchOption};
ghost use Rattle.std.specs.Option.{option_map};
ghost use Rattle.proof_terms.specs.Tree.{proof_tree};
ghost use Rattle.sorted_terms.specs.Tree.{term_tree};
ghost use Rattle.ck_text.specs.declared.head.Head.TheVariants as heads;
ghost use Rattle.ck_text.specs.ProofTexts as grammar;
ghost use Rattle.ck_text.specs.ProofMachine as machine;
ghost use Rattle.ck_text.specs.ProofItems as spec;
ghost use Rattle.ck_text.specs.ProofViews as views;

use crate::head::Head;
use ck_base::Sort;
use formulas::Formula;
use proof_terms::Proof;
use sorted_terms::Term;

/// What an argument is. A formula and a proof may stand under a further variable, and a proof under a further
/// hypothesis.
#[derive(Clone, Copy)]
pub(crate) enum Kind {
    Sort,
    Number,
    Term,
    Formula { variable: bool },
    Proof { variable: bool, hypothesis: bool },
}

const FORMULA: Kind = Kind::Formula { variable: false };

const FORMULA_OVER_ONE: Kind = Kind::Formula { variable: true };

const PROOF: Kind = Kind::Proof {
    variable: false,
    hypothesis: false,
};

const PROOF_FROM_ONE: Kind = Kind::Proof {
    variable: false,
    hypothesis: true,
};

const PROOF_OVER_ONE: Kind = Kind::Proof {
    variable: true,
    hypothesis: false,
};

const PROOF_OVER_ONE_FROM_ONE: Kind = Kind::Proof {
    variable: true,
    hypothesis: true,
};

/// The rule with this name.
pub(crate) fn head_of(word: &[u8]) -> Option<Head>
    ensures { result ≡ machine.head_of word.now }
{
    if word == b"lam".as_slice() {
        Some(Head::Lam)
    } else if word == b"app".as_slice() {
        Some(Head::App)
    } else if word == b"gen".as_slice() {
        Some(Head::Gen)
    } else if word == b"inst".as_slice() {
        Some(Head::Inst)
    } else if word == b"pair".as_slice() {
        Some(Head::Pair)
    } else if word == b"first".as_slice() {
        Some(Head::First)
    } else if word == b"second".as_slice() {
        Some(Head::Second)
    } else if word == b"left".as_slice() {
        Some(Head::Left)
    } else if word == b"right".as_slice() {
        Some(Head::Right)
    } else if word == b"cases".as_slice() {
        Some(Head::Cases)
    } else if word == b"pack".as_slice() {
        Some(Head::Pack)
    } else if word == b"unpack".as_slice() {
        Some(Head::Unpack)
    } else if word == b"absurd".as_slice() {
        Some(Head::Absurd)
    } else if word == b"stable".as_slice() {
        Some(Head::Stable)
    } else if word == b"refl".as_slice() {
        Some(Head::Refl)
    } else if word == b"rewrite".as_slice() {
        Some(Head::Rewrite)
    } else if word == b"axiom".as_slice() {
        Some(Head::Axiom)
    } else if word == b"induct".as_slice() {
        Some(Head::Induct)
    } else if word == b"compute".as_slice() {
        Some(Head::Compute)
    } else if word == b"ring".as_slice() {
        Some(Head::Ring)
    } else {
        None
    }
}

// The arguments of a rule.
fn kinds(h: Head) -> &'static [Kind]
    ensures { map views.kind result.now ≡ grammar.kinds h }
{
    match h {
        Head::Lam => &[FORMULA, PROOF_FROM_ONE],
        Head::App | Head::Pair => &[PROOF, PROOF],
        Head::Gen => &[Kind::Sort, PROOF_OVER_ONE],
        Head::Inst => &[PROOF, Kind::Term],
        Head::First | Head::Second | Head::Stable => &[PROOF],
        Head::Left | Head::Right | Head::Absurd => &[FORMULA, PROOF],
        Head::Cases => &[PROOF, PROOF_FROM_ONE, PROOF_FROM_ONE],
        Head::Pack => &[Kind::Sort, FORMULA_OVER_ONE, Kind::Term, PROOF],
        Head::Unpack => &[PROOF, PROOF_OVER_ONE_FROM_ONE],
        Head::Refl | Head::Compute => &[Kind::Term],
        Head::Rewrite => &[FORMULA_OVER_ONE, PROOF, PROOF],
        Head::Axiom => &[Kind::Number],
        Head::Induct => &[FORMULA_OVER_ONE],
        Head::Ring => &[Kind::Term, Kind::Term],
    }
}

/// The kind of an argument of a rule, by how many there are before it.
pub(crate) fn kind_at(h: Head, before: usize) -> Option<Kind>
    ensures { option_map views.kind result ≡ slice_get (grammar.kinds h) before }
{
    kinds(h).get(before).copied()
}

/// What is kept of an argument.
#[derive(Drop)]
pub(crate) enum Part {
    Sort(Sort),
    Number(u32),
    Term(Term),
    Formula(Formula),
    Proof(Box<Proof>),
}

/// What is kept of the arguments of a rule but the last one.
#[derive(Drop)]
pub(crate) enum Parts {
    None,
    One(Part),
    Two(Part, Part),
    Three(Part, Part, Part),
}

/// How many they are.
pub(crate) fn count(parts: &Parts) -> usize
    ensures { result ≡ length (views.parts parts.now) }
{
    match parts {
        Parts::None => 0,
        Parts::One(_) => 1,
        Parts::Two(_, _) => 2,
        Parts::Three(_, _, _) => 3,
    }
}

/// With one more; `None` where it is the fourth.
pub(crate) fn with(parts: Parts, part: Part) -> Option<Parts>
    ensures { MatchOption result (length (views.parts parts) ≡ 3) (λ more. views.parts more ≡ views.parts parts ++ views.part part ∷ []) }
{
    match parts {
        Parts::None => Some(Parts::One(part)),
        Parts::One(x) => Some(Parts::Two(x, part)),
        Parts::Two(x, y) => Some(Parts::Three(x, y, part)),
        Parts::Three(_, _, _) => None,
    }
}

// `first`, `second` and `stable`.
fn of_proof(h: Head, p: Box<Proof>) -> Proof
    ensures { proof_tree result ≡ spec.kept_proof (grammar.built h (grammar.proof_term (proof_tree p.value) ∷ [])) }
{
    match h {
        Head::First => Proof::First(p),
        Head::Second => Proof::Second(p),
        Head::Stable => Proof::Stable(p),
        _ => Proof::Hole(0),
    }
}

// `refl` and `compute`.
fn of_term(h: Head, t: Term) -> Proof
    ensures { proof_tree result ≡ spec.kept_proof (grammar.built h (grammar.term (term_tree t) ∷ [])) }
{
    match h {
        Head::Refl => Proof::Refl(t),
        Head::Compute => Proof::Compute(t),
        _ => Proof::Hole(0),
    }
}

// The proof of a rule with one argument.
fn one(h: Head, x: Part) -> Proof
    ensures { proof_tree result ≡ spec.kept_proof (grammar.built h (views.part x ∷ [])) }
{
    match x {
        Part::Sort(_) => Proof::Hole(0),
        Part::Number(n) => match h {
            Head::Axiom => Proof::Axiom(n),
            _ => Proof::Hole(0),
        },
        Part::Term(t) => of_term(h, t),
        Part::Formula(a) => match h {
            Head::Induct => Proof::Induct(a),
            _ => Proof::Hole(0),
        },
        Part::Proof(p) => of_proof(h, p),
    }
}

fn lambda(x: Part, y: Part) -> Proof
    ensures { proof_tree result ≡ spec.kept_proof (grammar.built heads.Lam (views.part x ∷ views.part y ∷ [])) }
{
    let Part::Formula(a) = x else {
        return Proof::Hole(0);
    };
    let Part::Proof(p) = y else {
        return Proof::Hole(0);
    };
    Proof::Lam(a, p)
}

fn left_of(x: Part, y: Part) -> Proof
    ensures { proof_tree result ≡ spec.kept_proof (grammar.built heads.Left (views.part x ∷ views.part y ∷ [])) }
{
    let Part::Formula(a) = x else {
        return Proof::Hole(0);
    };
    let Part::Proof(p) = y else {
        return Proof::Hole(0);
    };
    Proof::LeftOf(a, p)
}

fn right_of(x: Part, y: Part) -> Proof
    ensures { proof_tree result ≡ spec.kept_proof (grammar.built heads.Right (views.part x ∷ views.part y ∷ [])) }
{
    let Part::Formula(a) = x else {
        return Proof::Hole(0);
    };
    let Part::Proof(p) = y else {
        return Proof::Hole(0);
    };
    Proof::RightOf(a, p)
}

fn absurd(x: Part, y: Part) -> Proof
    ensures { proof_tree result ≡ spec.kept_proof (grammar.built heads.Absurd (views.part x ∷ views.part y ∷ [])) }
{
    let Part::Formula(a) = x else {
        return Proof::Hole(0);
    };
    let Part::Proof(p) = y else {
        return Proof::Hole(0);
    };
    Proof::Absurd(a, p)
}

fn application(x: Part, y: Part) -> Proof
    ensures { proof_tree result ≡ spec.kept_proof (grammar.built heads.App (views.part x ∷ views.part y ∷ [])) }
{
    let Part::Proof(p) = x else {
        return Proof::Hole(0);
    };
    let Part::Proof(q) = y else {
        return Proof::Hole(0);
    };
    Proof::App(p, q)
}

fn pair(x: Part, y: Part) -> Proof
    ensures { proof_tree result ≡ spec.kept_proof (grammar.built heads.Pair (views.part x ∷ views.part y ∷ [])) }
{
    let Part::Proof(p) = x else {
        return Proof::Hole(0);
    };
    let Part::Proof(q) = y else {
        return Proof::Hole(0);
    };
    Proof::Pair(p, q)
}

fn unpacking(x: Part, y: Part) -> Proof
    ensures { proof_tree result ≡ spec.kept_proof (grammar.built heads.Unpack (views.part x ∷ views.part y ∷ [])) }
{
    let Part::Proof(p) = x else {
        return Proof::Hole(0);
    };
    let Part::Proof(q) = y else {
        return Proof::Hole(0);
    };
    Proof::Unpack(p, q)
}

fn general(x: Part, y: Part) -> Proof
    ensures { proof_tree result ≡ spec.kept_proof (grammar.built heads.Gen (views.part x ∷ views.part y ∷ [])) }
{
    let Part::Sort(s) = x else {
        return Proof::Hole(0);
    };
    let Part::Proof(p) = y else {
        return Proof::Hole(0);
    };
    Proof::Gen(s, p)
}

fn special(x: Part, y: Part) -> Proof
    ensures { proof_tree result ≡ spec.kept_proof (grammar.built heads.Inst (views.part x ∷ views.part y ∷ [])) }
{
    let Part::Proof(p) = x else {
        return Proof::Hole(0);
    };
    let Part::Term(t) = y else {
        return Proof::Hole(0);
    };
    Proof::Inst(p, t)
}

fn ring(x: Part, y: Part) -> Proof
    ensures { proof_tree result ≡ spec.kept_proof (grammar.built heads.Ring (views.part x ∷ views.part y ∷ [])) }
{
    let Part::Term(s) = x else {
        return Proof::Hole(0);
    };
    let Part::Term(t) = y else {
        return Proof::Hole(0);
    };
    Proof::Ring(s, t)
}

// The proof of a rule with two arguments.
fn two(h: Head, x: Part, y: Part) -> Proof
    ensures { proof_tree result ≡ spec.kept_proof (grammar.built h (views.part x ∷ views.part y ∷ [])) }
{
    match h {
        Head::Lam => lambda(x, y),
        Head::Left => left_of(x, y),
        Head::Right => right_of(x, y),
        Head::Absurd => absurd(x, y),
        Head::App => application(x, y),
        Head::Pair => pair(x, y),
        Head::Unpack => unpacking(x, y),
        Head::Gen => general(x, y),
        Head::Inst => special(x, y),
        Head::Ring => ring(x, y),
        _ => Proof::Hole(0),
    }
}

fn cases(x: Part, y: Part, z: Part) -> Proof
    ensures { proof_tree result ≡ spec.kept_proof (grammar.built heads.Cases (views.part x ∷ views.part y ∷ views.part z ∷ [])) }
{
    let Part::Proof(p) = x else {
        return Proof::Hole(0);
    };
    let Part::Proof(q) = y else {
        return Proof::Hole(0);
    };
    let Part::Proof(r) = z else {
        return Proof::Hole(0);
    };
    Proof::Cases(p, q, r)
}

fn rewriting(x: Part, y: Part, z: Part) -> Proof
    ensures { proof_tree result ≡ spec.kept_proof (grammar.built heads.Rewrite (views.part x ∷ views.part y ∷ views.part z ∷ [])) }
{
    let Part::Formula(a) = x else {
        return Proof::Hole(0);
    };
    let Part::Proof(p) = y else {
        return Proof::Hole(0);
    };
    let Part::Proof(q) = z else {
        return Proof::Hole(0);
    };
    Proof::Rewrite(a, p, q)
}

// The proof of a rule with three arguments.
fn three(h: Head, x: Part, y: Part, z: Part) -> Proof
    ensures { proof_tree result ≡ spec.kept_proof (grammar.built h (views.part x ∷ views.part y ∷ views.part z ∷ [])) }
{
    match h {
        Head::Cases => cases(x, y, z),
        Head::Rewrite => rewriting(x, y, z),
        _ => Proof::Hole(0),
    }
}

fn packed(x: Part, y: Part, z: Part, last: Part) -> Proof
    ensures { proof_tree result ≡ spec.kept_proof (grammar.built heads.Pack (views.part x ∷ views.part y ∷ views.part z ∷ views.part last ∷ [])) }
{
    let Part::Sort(s) = x else {
        return Proof::Hole(0);
    };
    let Part::Formula(a) = y else {
        return Proof::Hole(0);
    };
    let Part::Term(t) = z else {
        return Proof::Hole(0);
    };
    let Part::Proof(p) = last else {
        return Proof::Hole(0);
    };
    Proof::Pack(s, a, t, p)
}

// The proof of a rule with four arguments.
fn four(h: Head, x: Part, y: Part, z: Part, last: Part) -> Proof
    ensures { proof_tree result ≡ spec.kept_proof (grammar.built h (views.part x ∷ views.part y ∷ views.part z ∷ views.part last ∷ [])) }
{
    match h {
        Head::Pack => packed(x, y, z, last),
        _ => Proof::Hole(0),
    }
}

/// The proof of a rule and its arguments. Another proof stands for it where they are not of the rule's kinds.
pub(crate) fn built(h: Head, done: Parts, last: Part) -> Proof
    ensures { proof_tree result ≡ spec.kept_proof (grammar.built h (views.parts done ++ views.part last ∷ [])) }
{
    match done {
        Parts::None => one(h, last),
        Parts::One(x) => two(h, x, last),
        Parts::Two(x, y) => three(h, x, y, last),
        Parts::Three(x, y, z) => four(h, x, y, z, last),
    }
}
