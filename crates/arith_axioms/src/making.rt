//! Makers for the formulas of the table of axioms.

ghost use Rattle.std.specs.Prelude.{◌≡◌, IfOk};
ghost use Rattle.sorted_terms.specs.Tree.{term_tree};
ghost use Rattle.formulas.specs.Tree.{formula_tree, holds};
ghost use Rattle.arith_axioms.specs.Axioms.{◌=>'◌, ◌\/'◌, ◌/\'◌, ~'◌, ◌='◌, ◌<'◌, ◌<='◌, ◌+'◌, ◌*'◌, not', ◌and'◌, ◌or'◌, all_int, all_bool};

use ck_base::{NoMemory, Sort};
use formulas::Formula;
use sorted_terms::Term;
use std::alloc::Global;

/// Makes terms and formulas out of their parts; each call answers `NoMemory` where memory was refused.
#[derive(Clone, Copy)]
pub struct Maker {
    pub alloc: Global,
}

impl Maker {
    pub fn sum(self, s: Term, t: Term) -> Result<Term, NoMemory>
        ensures { IfOk result (λ r. term_tree r ≡ term_tree s +' term_tree t) }
    {
        Ok(Term::Add(Box::new(self.alloc, s)?, Box::new(self.alloc, t)?))
    }

    pub fn product(self, s: Term, t: Term) -> Result<Term, NoMemory>
        ensures { IfOk result (λ r. term_tree r ≡ term_tree s *' term_tree t) }
    {
        Ok(Term::Mul(Box::new(self.alloc, s)?, Box::new(self.alloc, t)?))
    }

    pub fn equal(self, s: Term, t: Term) -> Result<Formula, NoMemory>
        ensures { IfOk result (λ r. formula_tree r ≡ term_tree s =' term_tree t) }
    {
        Ok(Formula::Holds(Term::Eq(Box::new(self.alloc, s)?, Box::new(self.alloc, t)?)))
    }

    pub fn less(self, s: Term, t: Term) -> Result<Formula, NoMemory>
        ensures { IfOk result (λ r. formula_tree r ≡ term_tree s <' term_tree t) }
    {
        Ok(Formula::Holds(Term::Less(Box::new(self.alloc, s)?, Box::new(self.alloc, t)?)))
    }

    pub fn at_most(self, s: Term, t: Term) -> Result<Formula, NoMemory>
        ensures { IfOk result (λ r. formula_tree r ≡ term_tree s <=' term_tree t) }
    {
        Ok(Formula::Holds(Term::AtMost(Box::new(self.alloc, s)?, Box::new(self.alloc, t)?)))
    }

    /// The truth of `not t`.
    pub fn denial(self, t: Term) -> Result<Formula, NoMemory>
        ensures { IfOk result (λ r. formula_tree r ≡ holds (not' (term_tree t))) }
    {
        Ok(Formula::Holds(Term::Not(Box::new(self.alloc, t)?)))
    }

    /// The truth of `s and t`.
    pub fn both(self, s: Term, t: Term) -> Result<Formula, NoMemory>
        ensures { IfOk result (λ r. formula_tree r ≡ holds (term_tree s and' term_tree t)) }
    {
        Ok(Formula::Holds(Term::Both(Box::new(self.alloc, s)?, Box::new(self.alloc, t)?)))
    }

    /// The truth of `s or t`.
    pub fn either(self, s: Term, t: Term) -> Result<Formula, NoMemory>
        ensures { IfOk result (λ r. formula_tree r ≡ holds (term_tree s or' term_tree t)) }
    {
        Ok(Formula::Holds(Term::Either(Box::new(self.alloc, s)?, Box::new(self.alloc, t)?)))
    }

    pub fn implies(self, a: Formula, b: Formula) -> Result<Formula, NoMemory>
        ensures { IfOk result (λ r. formula_tree r ≡ formula_tree a =>' formula_tree b) }
    {
        Ok(Formula::Imp(Box::new(self.alloc, a)?, Box::new(self.alloc, b)?))
    }

    pub fn not(self, a: Formula) -> Result<Formula, NoMemory>
        ensures { IfOk result (λ r. formula_tree r ≡ (~' formula_tree a)) }
    {
        self.implies(a, Formula::Bottom)
    }

    pub fn and(self, a: Formula, b: Formula) -> Result<Formula, NoMemory>
        ensures { IfOk result (λ r. formula_tree r ≡ formula_tree a /\' formula_tree b) }
    {
        Ok(Formula::Conj(Box::new(self.alloc, a)?, Box::new(self.alloc, b)?))
    }

    pub fn or(self, a: Formula, b: Formula) -> Result<Formula, NoMemory>
        ensures { IfOk result (λ r. formula_tree r ≡ formula_tree a \/' formula_tree b) }
    {
        Ok(Formula::Disj(Box::new(self.alloc, a)?, Box::new(self.alloc, b)?))
    }

    pub fn all_int(self, a: Formula) -> Result<Formula, NoMemory>
        ensures { IfOk result (λ r. formula_tree r ≡ all_int (formula_tree a)) }
    {
        Ok(Formula::All(Sort::Int, Box::new(self.alloc, a)?))
    }

    pub fn two_integers(self, a: Formula) -> Result<Formula, NoMemory>
        ensures { IfOk result (λ r. formula_tree r ≡ all_int (all_int (formula_tree a))) }
    {
        let a = self.all_int(a)?;
        self.all_int(a)
    }

    pub fn three_integers(self, a: Formula) -> Result<Formula, NoMemory>
        ensures { IfOk result (λ r. formula_tree r ≡ all_int (all_int (all_int (formula_tree a)))) }
    {
        let a = self.two_integers(a)?;
        self.all_int(a)
    }

    pub fn all_bool(self, a: Formula) -> Result<Formula, NoMemory>
        ensures { IfOk result (λ r. formula_tree r ≡ all_bool (formula_tree a)) }
    {
        Ok(Formula::All(Sort::Bool, Box::new(self.alloc, a)?))
    }

    pub fn two_truth_values(self, a: Formula) -> Result<Formula, NoMemory>
        ensures { IfOk result (λ r. formula_tree r ≡ all_bool (all_bool (formula_tree a))) }
    {
        let a = self.all_bool(a)?;
        self.all_bool(a)
    }
}
