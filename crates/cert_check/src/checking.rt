//! Whether bytes are a valid certificate.

ghost use Rattle.std.specs.Prelude.{◌≡◌, ◌+◌, ◌^◌, ◌<◌, ◌↔◌, [], length, IfOk, IsTrue, IsErrOf};
ghost use Rattle.std.specs.Bool.{MatchBool};
ghost use Rattle.formulas.specs.Tree.{formula_tree, joined, implies};
ghost use Rattle.proof_terms.specs.Tree.{proof_tree};
ghost use Rattle.type_checker.specs.Typing.{Has};
ghost use Rattle.cert_codec.specs.Tree.{certificate_tree, checked_tree, node_tree};
ghost use Rattle.cert_codec.specs.Spelling.{IsBuiltProof, IsBuiltNode};
ghost use Rattle.proof_terms.specs.Size.{proof_size};
ghost use Rattle.cert_check.specs.Proves.{Proves};
ghost use Rattle.cert_check.specs.Valid.{IsFileOf, IsSmall, node_size as node_size_of, HasPromise, Complains, IfMalformed, malformed, limits, unproved};
ghost use Rattle.formulas.specs.Sorts.{size as size_of};
ghost use Rattle.cert_codec.specs.Front.{IsMalformedAt};

use cert_codec::{Certificate, DecodeFault, Node, RawCertificate, decode};
use ck_base::limits::{CERTIFICATE_BYTES, CERTIFICATE_NODES, FORMULA_NODES};
use ck_base::{Decls, List, NoMemory};
use formulas::{Context, Formula, same};
use proof_terms::Proof;
use std::alloc::Global;
use type_checker::{Untyped, type_of};

/// Why bytes are not accepted: the first condition of a valid file that fails.
#[derive(Debug, Drop)]
pub enum CheckFault {
    /// There are more than 4,194,304 bytes.
    TooLong,
    /// The bytes are no spelling of a certificate. `at` is the offset, in bytes from 0, of the first byte
    /// with which none goes on; it is the number of bytes where more would be needed.
    Malformed { at: u32 },
    /// A part has more than 16,384 nodes, or the whole more than 200,000.
    Limits,
    /// An obligation's proof has not its formula.
    Unproved,
    /// A request for memory was refused.
    NoMemory,
}

impl From<NoMemory> for CheckFault {
    ghost use Rattle.std.specs.Prelude.{◌≡◌};
    ghost use Rattle.cert_check.specs.declared.checking.CheckFault.TheVariants.{NoMemory};

    ghost from_gives = { λ _ e. e ≡ NoMemory };

    fn from(_e: NoMemory) -> CheckFault {
        CheckFault::NoMemory
    }
}

/// The certificate that the bytes spell, where they are a valid file.
pub fn check(alloc: Global, bytes: &[u8]) -> Result<Certificate, CheckFault>
    ensures valid { IfOk result (λ c. IsFileOf (checked_tree c) bytes.now) }
    ensures promise { IfOk result (λ _. HasPromise bytes.now) }
    ensures too_long { IsErrOf result CheckFault.TooLong ↔ (4194304 < length bytes.now) }
    ensures malformed { IfMalformed result (λ at. Complains bytes.now malformed × IsMalformedAt bytes.now at) }
    ensures limits { IsErrOf result CheckFault.Limits → Complains bytes.now limits }
    ensures unproved { IsErrOf result CheckFault.Unproved → Complains bytes.now unproved }
{
    if bytes.len() > CERTIFICATE_BYTES {
        return Err(CheckFault::TooLong);
    }
    let raw = match decode(alloc, bytes) {
        Ok(raw) => raw,
        Err(DecodeFault::Malformed { at }) => return Err(CheckFault::Malformed { at }),
        Err(DecodeFault::NoMemory) => return Err(CheckFault::NoMemory),
    };
    let certificate = named(alloc, raw);
    if !is_small(&certificate) {
        return Err(CheckFault::Limits);
    }
    if is_proved(alloc, &certificate)? {
        Ok(certificate)
    } else {
        Err(CheckFault::Unproved)
    }
}

// The certificate with a table of its declarations. No name is declared in what is built of the form.
fn named(alloc: Global, raw: RawCertificate) -> Certificate
    requires { raw.decls ≡ [] }
    ensures { checked_tree result ≡ certificate_tree raw }
{
    let RawCertificate {
        decls: _,
        pre,
        post,
        node,
    } = raw;
    Certificate {
        decls: Decls::new(alloc),
        pre,
        post,
        node,
    }
}

// Whether no part of the certificate has too many nodes, nor the whole.
fn is_small(c: &Certificate) -> bool
    requires { size_of (formula_tree c.now.pre) + size_of (formula_tree c.now.post) + node_size_of (node_tree c.now.node) < 2 ^ 32 }
    ensures { IsTrue result ↔ IsSmall (checked_tree c.now) }
{
    let pre = formulas::size(&c.pre);
    let post = formulas::size(&c.post);
    pre <= FORMULA_NODES
        && post <= FORMULA_NODES
        && pre + post + node_size(&c.node) <= CERTIFICATE_NODES
}

// The number of program, proof, formula and term nodes.
fn node_size(node: &Node) -> u32
    requires { node_size_of (node_tree node.now) < 2 ^ 32 }
    ensures { result ≡ node_size_of (node_tree node.now) }
{
    match node {
        Node::Skip(p) => 1 + proof_terms::size(p),
    }
}

// Whether every obligation of the certificate's node has its term.
fn is_proved(alloc: Global, c: &Certificate) -> Result<bool, NoMemory>
    requires built { IsBuiltNode (node_tree c.now.node) }
    requires few { node_size_of (node_tree c.now.node) < 2 ^ 31 }
    ensures { IfOk result (λ yes. MatchBool yes (Proves c.now.decls (formula_tree c.now.pre) (node_tree c.now.node) (formula_tree c.now.post))
        (Proves c.now.decls (formula_tree c.now.pre) (node_tree c.now.node) (formula_tree c.now.post) → ⊥)) }
{
    match &c.node {
        Node::Skip(p) => shows(alloc, &c.decls, p, &c.pre, &c.post),
    }
}

// Whether the proof has the formula that `a` implies `b`, in the empty context.
#[tactic(auto, using(crate::proofs::Built::nodes_within_size, type_checker::proofs::Single::one_formula))]
fn shows(
    alloc: Global,
    decls: &Decls,
    p: &Proof,
    a: &Formula,
    b: &Formula,
) -> Result<bool, NoMemory>
    requires built { IsBuiltProof (proof_tree p.now) }
    requires few { proof_size (proof_tree p.now) < 2 ^ 31 }
    ensures { IfOk result (λ yes. MatchBool yes (Has decls.now [] [] (proof_tree p.now) (joined implies (formula_tree a.now) (formula_tree b.now)))
        (Has decls.now [] [] (proof_tree p.now) (joined implies (formula_tree a.now) (formula_tree b.now)) → ⊥)) }
{
    let context = Context {
        sorts: List::new(alloc),
        hyps: List::new(alloc),
    };
    match type_of(alloc, decls, &context, p) {
        Ok(found) => Ok(is_implication(&found, a, b)),
        Err(Untyped::At { .. }) => Ok(false),
        Err(Untyped::NoMemory) => Err(NoMemory),
    }
}

fn is_implication(found: &Formula, a: &Formula, b: &Formula) -> bool
    ensures { IsTrue result ↔ (formula_tree found.now ≡ joined implies (formula_tree a.now) (formula_tree b.now)) }
{
    match found {
        Formula::Imp(c, d) => same(c, a) && same(d, b),
        _ => false,
    }
}
