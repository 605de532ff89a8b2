//! Certificates as bytes. Each part is added at the end of the bytes before it.

ghost use Rattle.std.specs.Prelude.{◌≡◌, ◌∷◌, ◌++◌, true, [], OnOk, IfOk};
ghost use Rattle.sorted_terms.specs.Tree.{term_tree};
ghost use Rattle.formulas.specs.Tree.{formula_tree};
ghost use Rattle.proof_terms.specs.Tree.{proof_tree};
ghost use Rattle.cert_codec.specs.Tree.{node_tree, checked_tree};
ghost use Rattle.cert_codec.specs.Spelling.{spell_number, spell_term, spell_formula, spell_proof, spell_node, magic, spell, is_built_term, is_built_formula, IsBuiltProof, IsBuiltNode, IsBuilt};

use crate::certificate::{Certificate, Node};
use crate::tags::{
    APP, BOTTOM, FALSE, HIGH_BIT, HOLDS, HYP, IMP, LAM, MAGIC, NO_NAMES, SKIP, TRUE,
};
use ck_base::{List, NoMemory};
use formulas::Formula;
use proof_terms::Proof;
use sorted_terms::Term;
use std::alloc::Global;

#[tactic(auto, using(crate::proofs::Numbers::last_digit))]
fn put_number(bytes: &mut List<u8>, n: u32) -> Result<(), NoMemory>
    ensures { OnOk result (bytes.new ≡ bytes.old ++ spell_number n) }
{
    if n < u32::from(HIGH_BIT) {
        return bytes.push(n as u8);
    }
    bytes.push(HIGH_BIT + (n % 128) as u8)?;
    put_number(bytes, n / 128)
}

fn put_term(bytes: &mut List<u8>, t: &Term) -> Result<(), NoMemory>
    requires { is_built_term (term_tree t.now) ≡ true }
    ensures { OnOk result (bytes.new ≡ bytes.old ++ spell_term (term_tree t.now)) }
{
    match t {
        Term::Truth(false) => bytes.push(FALSE),
        Term::Truth(true) => bytes.push(TRUE),
        _ => unreachable!(),
    }
}

fn put_formula(bytes: &mut List<u8>, a: &Formula) -> Result<(), NoMemory>
    requires { is_built_formula (formula_tree a.now) ≡ true }
    ensures { OnOk result (bytes.new ≡ bytes.old ++ spell_formula (formula_tree a.now)) }
{
    match a {
        Formula::Bottom => bytes.push(BOTTOM),
        Formula::Holds(t) => {
            bytes.push(HOLDS)?;
            put_term(bytes, t)
        }
        Formula::Imp(a, b) => {
            bytes.push(IMP)?;
            put_formula(bytes, a)?;
            put_formula(bytes, b)
        }
        _ => unreachable!(),
    }
}

fn put_proof(bytes: &mut List<u8>, p: &Proof) -> Result<(), NoMemory>
    requires { IsBuiltProof (proof_tree p.now) }
    ensures { OnOk result (bytes.new ≡ bytes.old ++ spell_proof (proof_tree p.now)) }
{
    match p {
        Proof::Hyp(k) => {
            bytes.push(HYP)?;
            put_number(bytes, *k)
        }
        Proof::Lam(a, p) => {
            bytes.push(LAM)?;
            put_formula(bytes, a)?;
            put_proof(bytes, p)
        }
        Proof::App(p, q) => {
            bytes.push(APP)?;
            put_proof(bytes, p)?;
            put_proof(bytes, q)
        }
        _ => unreachable!(),
    }
}

fn put_node(bytes: &mut List<u8>, node: &Node) -> Result<(), NoMemory>
    requires { IsBuiltNode (node_tree node.now) }
    ensures { OnOk result (bytes.new ≡ bytes.old ++ spell_node (node_tree node.now)) }
{
    match node {
        Node::Skip(p) => {
            bytes.push(SKIP)?;
            put_proof(bytes, p)
        }
    }
}

/// The bytes before the precondition, of a certificate with no declared name.
fn head(alloc: Global) -> Result<List<u8>, NoMemory>
    ensures { IfOk result (λ bytes. bytes ≡ magic ++ (0 ∷ [])) }
{
    let mut bytes = List::new(alloc);
    bytes.push(MAGIC[0])?;
    bytes.push(MAGIC[1])?;
    bytes.push(MAGIC[2])?;
    bytes.push(MAGIC[3])?;
    bytes.push(NO_NAMES)?;
    Ok(bytes)
}

/// The one spelling of the certificate.
pub fn encode(alloc: Global, c: &Certificate) -> Result<List<u8>, NoMemory>
    // The tags are built, and no name is declared.
    requires built { IsBuilt (checked_tree c.now) }
    ensures { IfOk result (λ bytes. bytes ≡ spell (checked_tree c.now)) }
{
    let mut bytes = head(alloc)?;
    put_formula(&mut bytes, &c.pre)?;
    put_formula(&mut bytes, &c.post)?;
    put_node(&mut bytes, &c.node)?;
    Ok(bytes)
}
