//! The formulas that a proof names, under numbers.

ghost use Rattle.std.specs.Prelude.{ℕ, IfOk, OnOk};
ghost use Rattle.formulas.specs.Tree.{FormulaTree};
ghost use Rattle.proof_terms.specs.Tree.{proof_tree};
ghost use Rattle.type_checker.specs.Interner.{IsAt};
ghost use Rattle.type_checker.specs.Gathered.{AreNumbered};

use crate::interner::Interner;
use ck_base::NoMemory;
use proof_terms::Proof;
use std::alloc::Global;

/// Those that the rules put into a formula of their own, if they fit. `NoMemory`, here and below, where memory was
/// refused.
pub fn gathered<'f>(alloc: Global, p: &'f Proof) -> Result<Interner<'f>, NoMemory>
    ensures { IfOk result (λ it. AreNumbered it (proof_tree p.now)) }
{
    let mut interner = Interner::new(alloc);
    gather(&mut interner, p)?;
    Ok(interner)
}

// What has a number keeps it.
fn gather<'f>(interner: &mut Interner<'f>, p: &'f Proof) -> Result<(), NoMemory>
    ensures numbered { OnOk result (AreNumbered interner.new (proof_tree p.now)) }
    ensures kept { (i : ℕ) (f : FormulaTree) → IsAt interner.old i f → IsAt interner.new i f }
{
    match p {
        Proof::Hyp(_)
        | Proof::Refl(_)
        | Proof::Axiom(_)
        | Proof::Induct(_)
        | Proof::Compute(_)
        | Proof::Ring(_, _)
        | Proof::Hole(_) => Ok(()),
        Proof::Gen(_, part)
        | Proof::Inst(part, _)
        | Proof::First(part)
        | Proof::Second(part)
        | Proof::Stable(part) => gather(interner, part),
        Proof::Lam(a, part)
        | Proof::LeftOf(a, part)
        | Proof::RightOf(a, part)
        | Proof::Pack(_, a, _, part)
        | Proof::Absurd(a, part) => {
            interner.add(a)?;
            gather(interner, part)
        }
        Proof::App(left, right)
        | Proof::Pair(left, right)
        | Proof::Rewrite(_, left, right)
        | Proof::Unpack(left, right) => {
            gather(interner, left)?;
            gather(interner, right)
        }
        Proof::Cases(part, left, right) => {
            gather(interner, part)?;
            gather(interner, left)?;
            gather(interner, right)
        }
    }
}
