//! Derivations and their steps.

ghost use Rattle.std.specs.Prelude.{◌≡◌, ◌+◌, ◌<◌, ◌≤◌, ◌^◌, [], ◌∷◌, true, length, reverse, map, ◌≢◌, None, IfOk, OnOk, IfErr, IsErrOf, IsTrue, ◌↔◌, Some};
ghost use Rattle.std.specs.Bool.{MatchBool};
ghost use Rattle.formulas.specs.Tree.{formula_tree, joined, implies};
ghost use Rattle.formulas.specs.Sorts.{fits as fits_tree};
ghost use Rattle.formulas.specs.Context.{hypotheses_of};
ghost use Rattle.proof_terms.specs.Tree.{proof_tree};
ghost use Rattle.proof_terms.specs.Size.{proof_size};
ghost use Rattle.type_checker.specs.Place.{AreAssumable};
ghost use Rattle.type_checker.specs.Typing.{Has};
ghost use Rattle.cert_codec.specs.Tree.{checked_tree};
ghost use Rattle.cert_codec.specs.Spelling.{is_built_formula, IsBuiltProof};
ghost use Rattle.derivation.specs.Derivation.{DerivationTree, derivation_tree, open_hole, proof_hole, abstracted as abstracted_tree, left_size as left_size_of, left_of, right_of, progress_tree, finished, is_proving, assumed_in};
ghost use Rattle.derivation.specs.Steps.{begun, Skips, Introduces, Finishes, Exports};
ghost use Rattle.derivation.specs.Derived.{IsKept};

use cert_codec::{Certificate, Node};
use ck_base::limits::{CERTIFICATE_NODES, PROOF_DEPTH};
use ck_base::{Decls, List, NoMemory};
use formulas::{Context, Formula, copy, fits, same, size};
use proof_terms::Proof;
use script_reader::OpenHole;
use std::alloc::Global;
use std::mem;
use type_checker::{Untyped, type_of};

/// A triple and how far its derivation is.
#[derive(Drop)]
pub struct Derivation {
    pub(crate) pre: Formula,
    pub(crate) post: Formula,
    pub(crate) progress: Progress,
    nodes: u32,
}

/// How far a derivation is. What is built has no more than one hole at a time.
#[derive(Drop)]
pub(crate) enum Progress {
    /// Hole 1, the program, is open.
    Programming,
    /// The program is skip, and its proof is open at this goal.
    Proving { context: Context, goal: Formula },
    /// The program is skip, and this is its proof.
    Finished(Proof),
}

/// Why a step is not taken.
#[derive(Debug, Drop)]
pub enum StepFault {
    /// The hole is not open, its goal is of another kind or shape, the proof has not its formula, or a limit
    /// would be passed.
    Refused,
    /// A request for memory was refused.
    NoMemory,
}

impl From<NoMemory> for StepFault {
    ghost use Rattle.std.specs.Prelude.{◌≡◌};
    ghost use Rattle.derivation.specs.declared.derivation.StepFault.TheVariants.{NoMemory};

    ghost from_gives = { λ _ e. e ≡ NoMemory };

    fn from(_e: NoMemory) -> StepFault {
        StepFault::NoMemory
    }
}

impl Derivation {
    /// The derivation of a triple whose program is open.
    #[tactic(auto, unfolding(formulas::specs::Sorts::fits), using(crate::proofs::Derived::begun_derived))]
    pub fn begin(pre: Formula, post: Formula) -> Derivation
        requires pre { (is_built_formula (formula_tree pre) ≡ true) × (fits_tree (formula_tree pre) ≡ true) }
        requires post { (is_built_formula (formula_tree post) ≡ true) × (fits_tree (formula_tree post) ≡ true) }
        ensures begun { derivation_tree result ≡ begun (formula_tree pre) (formula_tree post) }
        ensures kept { IsKept result }
    {
        let nodes = size(&pre) + size(&post) + 1;
        Derivation {
            pre,
            post,
            progress: Progress::Programming,
            nodes,
        }
    }

    /// The hole that is open, if one is.
    pub fn opened(&self) -> Option<OpenHole>
        requires { IsKept self.now }
        ensures { result ≡ open_hole (derivation_tree self.now).progress }
    {
        match &self.progress {
            Progress::Programming => Some(OpenHole {
                number: 1,
                hypotheses: 0,
            }),
            Progress::Proving { context, .. } => Some(OpenHole {
                number: proof_hole(context),
                hypotheses: context.hyps.len() as u32,
            }),
            Progress::Finished(_) => None,
        }
    }

    /// Derives the program as skip. `Refused` where the hole is not the open program, or the obligation does
    /// not fit; nothing has changed then.
    pub fn skip(&mut self, alloc: Global, hole: u32) -> Result<(), StepFault>
        requires { IsKept self.old }
        ensures taken { OnOk result (Skips (derivation_tree self.old) hole (derivation_tree self.new)) }
        ensures refused { IsErrOf result StepFault.Refused → (next : DerivationTree) → Skips (derivation_tree self.old) hole next → ⊥ }
        ensures unchanged { IsErrOf result StepFault.Refused → self.new ≡ self.old }
        ensures kept { OnOk result (IsKept self.new) }
    {
        let Progress::Programming = &self.progress else {
            return Err(StepFault::Refused);
        };
        let goal = implication(alloc, &self.pre, &self.post)?;
        let nodes = self.nodes + 1;
        if hole != 1 || !fits(&goal) || !is_within(nodes, 1) {
            return Err(StepFault::Refused);
        }
        let context = Context {
            sorts: List::new(alloc),
            hyps: List::new(alloc),
        };
        self.progress = Progress::Proving { context, goal };
        self.nodes = nodes;
        Ok(())
    }

    /// Assumes the left side of the open implication. `Refused` where the hole is not an open proof, or its
    /// goal is no implication; nothing has changed then.
    pub fn intro(&mut self, hole: u32) -> Result<(), StepFault>
        requires { IsKept self.old }
        ensures taken { OnOk result (Introduces (derivation_tree self.old) hole (derivation_tree self.new)) }
        ensures refused { IsErrOf result StepFault.Refused → (next : DerivationTree) → Introduces (derivation_tree self.old) hole next → ⊥ }
        ensures unchanged { IsErrOf result StepFault.Refused → self.new ≡ self.old }
        ensures kept { OnOk result (IsKept self.new) }
    {
        let Progress::Proving { context, goal } = &mut self.progress else {
            return Err(StepFault::Refused);
        };
        let Some(assumed) = left_size(goal) else {
            return Err(StepFault::Refused);
        };
        let nodes = self.nodes + 1 + assumed;
        let levels = context.hyps.len() as u32 + 2;
        if hole != proof_hole(context) || !is_within(nodes, levels) {
            return Err(StepFault::Refused);
        }
        assume(context, goal)?;
        self.nodes = nodes;
        Ok(())
    }

    /// Finishes the open proof. `Refused` where the hole is not an open proof, the proof has not its formula,
    /// or a limit would be passed; nothing has changed then.
    #[tactic(auto, using(proof_terms::proofs::Sizes::depth_within_size))]
    pub fn exact(&mut self, alloc: Global, hole: u32, proof: Proof) -> Result<(), StepFault>
        requires kept { IsKept self.old }
        requires built { IsBuiltProof (proof_tree proof) }
        requires few { proof_size (proof_tree proof) < 2 ^ 31 }
        ensures taken { OnOk result (Finishes (derivation_tree self.old) hole (proof_tree proof) (derivation_tree self.new)) }
        ensures refused { IsErrOf result StepFault.Refused → (next : DerivationTree) → Finishes (derivation_tree self.old) hole (proof_tree proof) next → ⊥ }
        ensures unchanged { IsErrOf result StepFault.Refused → self.new ≡ self.old }
        ensures kept { OnOk result (IsKept self.new) }
    {
        let Progress::Proving { context, goal } = &self.progress else {
            return Err(StepFault::Refused);
        };
        let nodes = self.nodes - 1 + proof_terms::size(&proof);
        let levels = context.hyps.len() as u32 + proof_terms::depth(&proof);
        if hole != proof_hole(context) {
            return Err(StepFault::Refused);
        }
        if !is_within(nodes, levels) {
            return Err(StepFault::Refused);
        }
        if !shows(alloc, context, goal, &proof)? {
            return Err(StepFault::Refused);
        }
        finish(alloc, &mut self.progress, proof)?;
        self.nodes = nodes;
        Ok(())
    }

    /// The certificate of the derivation. The derivation is handed back exactly where a hole is open.
    pub fn certificate(self, alloc: Global) -> Result<Certificate, Derivation>
        requires { IsKept self }
        ensures exported { IfOk result (λ c. Exports (derivation_tree self) (checked_tree c)) }
        ensures open_still { IfErr result (λ d. (d ≡ self) × (open_hole (derivation_tree self).progress ≢ None)) }
    {
        let Derivation {
            pre,
            post,
            progress,
            nodes,
        } = self;
        match progress {
            Progress::Finished(proof) => Ok(Certificate {
                decls: Decls::new(alloc),
                pre,
                post,
                node: Node::Skip(proof),
            }),
            progress => Err(Derivation {
                pre,
                post,
                progress,
                nodes,
            }),
        }
    }
}

// The number of the hole that is open under these hypotheses.
pub(crate) fn proof_hole(context: &Context) -> u32
    requires { length context.now.hyps < 2 ^ 31 }
    ensures { result ≡ proof_hole (hypotheses_of context.now) }
{
    context.hyps.len() as u32 + 2
}

fn is_within(nodes: u32, levels: u32) -> bool
    ensures { IsTrue result ↔ (nodes ≤ 200000) × (levels ≤ 2048) }
{
    nodes <= CERTIFICATE_NODES && levels <= PROOF_DEPTH
}

fn implication(alloc: Global, a: &Formula, b: &Formula) -> Result<Formula, NoMemory>
    ensures { IfOk result (λ c. formula_tree c ≡ joined implies (formula_tree a.now) (formula_tree b.now)) }
{
    let a = Box::new(alloc, copy(alloc, a)?)?;
    let b = Box::new(alloc, copy(alloc, b)?)?;
    Ok(Formula::Imp(a, b))
}

// The nodes of the left side, where the formula is an implication.
#[tactic(auto, unfolding(formulas::specs::Sorts::fits))]
fn left_size(a: &Formula) -> Option<u32>
    requires { fits_tree (formula_tree a.now) ≡ true }
    ensures { result ≡ left_size_of (formula_tree a.now) }
{
    match a {
        Formula::Imp(a, _) => Some(size(a)),
        _ => None,
    }
}

// The left side of the goal becomes the newest hypothesis, and its right side the goal.
fn assume(context: &mut Context, goal: &mut Formula) -> Result<(), NoMemory>
    requires { left_size_of (formula_tree goal.old) ≢ None }
    ensures goal { OnOk result (formula_tree goal.new ≡ right_of (formula_tree goal.old)) }
    ensures context { OnOk result (hypotheses_of context.new ≡ left_of (formula_tree goal.old) ∷ hypotheses_of context.old) }
    ensures closed { OnOk result (context.new.sorts ≡ context.old.sorts) }
{
    match mem::replace(goal, Formula::Bottom) {
        Formula::Imp(a, b) => {
            context.hyps.push(Box::into_inner(a))?;
            *goal = Box::into_inner(b);
            Ok(())
        }
        _ => unreachable!(),
    }
}

// Whether the proof has the formula in the context.
#[tactic(auto, using(cert_check::proofs::Built::nodes_within_size, type_checker::proofs::Single::one_formula))]
fn shows(alloc: Global, context: &Context, a: &Formula, p: &Proof) -> Result<bool, NoMemory>
    requires closed { context.now.sorts ≡ [] }
    requires assumed { AreAssumable [] [] (hypotheses_of context.now) }
    requires built { IsBuiltProof (proof_tree p.now) }
    requires few { proof_size (proof_tree p.now) < 2 ^ 31 }
    ensures { IfOk result (λ yes. MatchBool yes (Has [] [] (hypotheses_of context.now) (proof_tree p.now) (formula_tree a.now))
        (Has [] [] (hypotheses_of context.now) (proof_tree p.now) (formula_tree a.now) → ⊥)) }
{
    match type_of(alloc, &Decls::new(alloc), context, p) {
        Ok(found) => Ok(same(&found, a)),
        Err(Untyped::At { .. }) => Ok(false),
        Err(Untyped::NoMemory) => Err(NoMemory),
    }
}

// The open proof is finished.
fn finish(alloc: Global, progress: &mut Progress, proof: Proof) -> Result<(), NoMemory>
    requires { is_proving (progress_tree progress.old) ≡ true }
    ensures { OnOk result (progress_tree progress.new ≡ finished (abstracted_tree (assumed_in (progress_tree progress.old)) (proof_tree proof))) }
{
    match mem::replace(progress, Progress::Programming) {
        Progress::Proving { context, .. } => {
            *progress = Progress::Finished(abstracted(alloc, context.hyps, proof)?);
            Ok(())
        }
        Progress::Programming | Progress::Finished(_) => unreachable!(),
    }
}

// The proof under a lambda for each of the hypotheses, the newest innermost.
fn abstracted(alloc: Global, hypotheses: List<Formula>, proof: Proof) -> Result<Proof, NoMemory>
    ensures { IfOk result (λ p. proof_tree p ≡ abstracted_tree (reverse (map formula_tree hypotheses)) (proof_tree proof)) }
{
    let mut hypotheses = hypotheses;
    let mut proof = proof;
    while let Some(a) = hypotheses.pop() {
        proof = Proof::Lam(a, Box::new(alloc, proof)?);
    }
    Ok(proof)
}
