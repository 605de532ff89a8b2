//! The formulas that a proof names, each kept once under a number, so that equal ones are told by their
//! numbers alone (hash-consing, Ershov 1958).

ghost use Rattle.std.specs.Prelude.{◌≡◌, ◌<◌, ◌^◌, ℕ, [], Some, slice_get, IfSome, IfOk, OnOk};
ghost use Rattle.std.specs.Option.{option_map};
ghost use Rattle.formulas.specs.Tree.{FormulaTree, formula_tree};
ghost use Rattle.formulas.specs.Sorts.{size as nodes_of, depth as levels_of};
ghost use Rattle.type_checker.specs.Interner.{IsAt, HasParts, IsNumbered, formula_at};

use crate::hashed::Node;
use ck_base::NoMemory;
use formulas::{Formula, depth, fits, size};
use indexmap::IndexMap;
use std::alloc::Global;
use std::marker::Model;

/// How many nodes and levels a formula has.
#[derive(Clone, Copy)]
pub struct Extent {
    pub nodes: u32,
    pub levels: u32,
}

/// Formulas in the order of their numbers, from 0. No formula has two numbers.
#[derive(Drop)]
pub struct Interner<'f> {
    table: IndexMap<Node<'f>, Extent>,
}

impl<'f> Model for Interner<'f> {
    ghost use Rattle.std.specs.Prelude.{List};
    ghost use Rattle.formulas.specs.declared.formula.Formula.{Formula};
    ghost use Rattle.formulas.specs.contracts.formula.Formula as contracts;
    ghost use Rattle.std.specs.Coded.{codes};
    ghost use Rattle.type_checker.specs.Linked.{formulas_of, AreLinked};

    ghost coded = { Prim.hlevel (codes, contracts.the_row.coded) };

    ghost Value = { List Formula };

    ghost view = { λ it. formulas_of it.table.entries };

    ghost invariant = { λ it. AreLinked (formulas_of it.table.entries) it.table.entries };
}

impl<'f> Interner<'f> {
    /// One without formulas.
    pub fn new(alloc: Global) -> Interner<'f>
        ensures { result ≡ [] }
    {
        Interner {
            table: IndexMap::new(alloc),
        }
    }

    /// The formula with that number, and those of its parts; `None` exactly where no formula has it.
    pub fn node(&self, number: usize) -> Option<Node<'f>>
        ensures value { option_map (λ n. n.formula.now) result ≡ slice_get self.now number }
        ensures parts { IfSome result (λ n. HasParts self.now (formula_tree n.formula.now) n.left n.right) }
    {
        let (node, _) = self.table.get_index(number)?;
        Some(*node)
    }

    /// The nodes and levels of the formula with that number, or those of falsity where no formula has it.
    pub fn extent(&self, number: usize) -> Extent
        ensures nodes { result.nodes ≡ nodes_of (formula_at self.now number) }
        ensures levels { result.levels ≡ levels_of (formula_at self.now number) }
    {
        match self.table.get_index(number) {
            Some((_, extent)) => *extent,
            None => Extent {
                nodes: 1,
                levels: 1,
            },
        }
    }

    /// The number of the formula, which has no other; `None` exactly where it has none.
    pub fn number(&self, a: &'f Formula) -> Option<usize>
        ensures some { IfSome result (λ i. IsAt self.now i (formula_tree a.now)) }
        ensures only { (i : ℕ) → IsAt self.now i (formula_tree a.now) → result ≡ Some i }
    {
        let table = &self.table;
        let (left, right) = match a {
            Formula::Bottom | Formula::Holds(_) => (0, 0),
            Formula::Imp(b, c) | Formula::Conj(b, c) | Formula::Disj(b, c) => {
                (self.number(b)?, self.number(c)?)
            }
            Formula::All(_, b) | Formula::Ex(_, b) => (self.number(b)?, 0),
        };
        table.get_index_of(&Node {
            formula: a,
            left,
            right,
        })
    }

    /// Numbers the formula and its parts, where it fits. What has a number keeps it. `NoMemory`, here and
    /// below, where memory was refused.
    #[tactic(auto, unfolding(formulas::specs::Sorts::fits))]
    pub fn add(&mut self, a: &'f Formula) -> Result<(), NoMemory>
        ensures numbered { OnOk result (IsNumbered self.new (formula_tree a.now)) }
        ensures kept { (i : ℕ) (f : FormulaTree) → IsAt self.old i f → IsAt self.new i f }
    {
        if fits(a) {
            self.numbered(a)?;
        }
        Ok(())
    }

    // The number of the formula, which it is given where it has none.
    fn numbered(&mut self, a: &'f Formula) -> Result<usize, NoMemory>
        requires { nodes_of (formula_tree a.now) < 2 ^ 32 }
        ensures number { IfOk result (λ i. IsAt self.new i (formula_tree a.now)) }
        ensures kept { (i : ℕ) (f : FormulaTree) → IsAt self.old i f → IsAt self.new i f }
    {
        match a {
            Formula::Bottom | Formula::Holds(_) => self.put(a, 0, 0),
            Formula::Imp(b, c) | Formula::Conj(b, c) | Formula::Disj(b, c) => {
                let left = self.numbered(b)?;
                let right = self.numbered(c)?;
                self.put(a, left, right)
            }
            Formula::All(_, b) | Formula::Ex(_, b) => {
                let left = self.numbered(b)?;
                self.put(a, left, 0)
            }
        }
    }

    // The number of the formula with these parts, which it is given where it has none.
    fn put(&mut self, a: &'f Formula, left: usize, right: usize) -> Result<usize, NoMemory>
        requires few { nodes_of (formula_tree a.now) < 2 ^ 32 }
        requires parts { HasParts self.old (formula_tree a.now) left right }
        ensures number { IfOk result (λ i. IsAt self.new i (formula_tree a.now)) }
        ensures kept { (i : ℕ) (f : FormulaTree) → IsAt self.old i f → IsAt self.new i f }
    {
        let node = Node {
            formula: a,
            left,
            right,
        };
        if let Some(number) = self.table.get_index_of(&node) {
            return Ok(number);
        }
        let extent = self.extent_of(a, left, right);
        let (number, _) = self.table.insert_full(node, extent)?;
        Ok(number)
    }

    // The nodes and levels of the formula with these parts, by those of its parts.
    #[tactic(auto, using(formulas::proofs::Sizes::depth_within_size))]
    fn extent_of(&self, a: &Formula, left: usize, right: usize) -> Extent
        requires few { nodes_of (formula_tree a.now) < 2 ^ 32 }
        requires parts { HasParts self.now (formula_tree a.now) left right }
        ensures nodes { result.nodes ≡ nodes_of (formula_tree a.now) }
        ensures levels { result.levels ≡ levels_of (formula_tree a.now) }
    {
        match a {
            Formula::Bottom | Formula::Holds(_) => Extent {
                nodes: size(a),
                levels: depth(a),
            },
            Formula::Imp(_, _) | Formula::Conj(_, _) | Formula::Disj(_, _) => {
                let (left, right) = (self.extent(left), self.extent(right));
                Extent {
                    nodes: 1 + left.nodes + right.nodes,
                    levels: 1 + left.levels.max(right.levels),
                }
            }
            Formula::All(_, _) | Formula::Ex(_, _) => {
                let part = self.extent(left);
                Extent {
                    nodes: 1 + part.nodes,
                    levels: 1 + part.levels,
                }
            }
        }
    }
}
