//! The printed line of the open hole.

ghost use Rattle.std.specs.Prelude.{◌≡◌, ◌+◌, ◌<◌, ◌^◌, ◌++◌, length, map, reverse, decimal, [], OnOk};
ghost use Rattle.formulas.specs.Tree.{formula_tree};
ghost use Rattle.formulas.specs.Context.{hypotheses_of};
ghost use Rattle.ck_text.specs.Printing.{formula_bytes};
ghost use Rattle.derivation.specs.Derivation.{derivation_tree};
ghost use Rattle.derivation.specs.Derived.{IsKept};
ghost use Rattle.derivation.specs.Printing.{separator as separator_of, hypotheses_text, gap as gap_of, braced, context_text, program_line, proof_line, open_text};

use crate::derivation::{Derivation, Progress, proof_hole};
use ck_base::{Decls, NoMemory, Scope, Text};
use ck_text::print_formula;
use formulas::{Context, Formula};
use std::alloc::Global;

impl Derivation {
    /// Adds the line of the open hole: two spaces, its number, and its goal. The goal of the program is its
    /// triple; that of a proof is its hypotheses, the oldest first and numbered from 0, and its formula. Adds
    /// nothing where no hole is open.
    pub fn print_open(&self, alloc: Global, out: &mut Text) -> Result<(), NoMemory>
        requires { IsKept self.now }
        ensures { OnOk result (out.new ≡ out.old ++ open_text (derivation_tree self.now)) }
    {
        match &self.progress {
            Progress::Programming => print_program(alloc, &self.pre, &self.post, out),
            Progress::Proving { context, goal } => print_goal(alloc, context, goal, out),
            Progress::Finished(_) => Ok(()),
        }
    }
}

fn print_program(
    alloc: Global,
    pre: &Formula,
    post: &Formula,
    out: &mut Text,
) -> Result<(), NoMemory>
    ensures { OnOk result (out.new ≡ out.old ++ program_line (formula_tree pre.now) (formula_tree post.now)) }
{
    out.append(b"  ")?;
    print_number(alloc, 1, out)?;
    out.append(b": ")?;
    print_braced(alloc, pre, out)?;
    out.append(b" ")?;
    print_braced(alloc, post, out)?;
    out.append(b"\n")
}

fn print_goal(
    alloc: Global,
    context: &Context,
    goal: &Formula,
    out: &mut Text,
) -> Result<(), NoMemory>
    requires { length context.now.hyps < 2 ^ 31 }
    ensures { OnOk result (out.new ≡ out.old ++ proof_line (hypotheses_of context.now) (formula_tree goal.now)) }
{
    out.append(b"  ")?;
    print_number(alloc, proof_hole(context), out)?;
    out.append(b": ")?;
    print_context(alloc, context, out)?;
    out.append(b"|- ")?;
    print_closed(alloc, goal, out)?;
    out.append(b"\n")
}

#[tactic(auto, using(crate::proofs::Derived::oldest_first))]
fn print_context(alloc: Global, context: &Context, out: &mut Text) -> Result<(), NoMemory>
    requires { length context.now.hyps < 2 ^ 31 }
    ensures { OnOk result (out.new ≡ out.old ++ context_text (reverse (hypotheses_of context.now))) }
{
    let hypotheses = context.hyps.as_slice();
    print_hypotheses(alloc, 0, hypotheses, out)?;
    out.append(gap(hypotheses))
}

fn print_braced(alloc: Global, a: &Formula, out: &mut Text) -> Result<(), NoMemory>
    ensures { OnOk result (out.new ≡ out.old ++ braced (formula_tree a.now)) }
{
    out.append(b"{ ")?;
    print_closed(alloc, a, out)?;
    out.append(b" }")
}

// The formula, where no name is declared and no variable in scope.
fn print_closed(alloc: Global, a: &Formula, out: &mut Text) -> Result<(), NoMemory>
    ensures { OnOk result (out.new ≡ out.old ++ formula_bytes [] 0 (formula_tree a.now)) }
{
    let closed = Scope { sorts: 0, hyps: 0 };
    print_formula(&Decls::new(alloc), closed, a, out)
}

fn print_number(alloc: Global, n: u32, out: &mut Text) -> Result<(), NoMemory>
    ensures { OnOk result (out.new ≡ out.old ++ decimal n) }
{
    let digits = n.to_string(alloc)?;
    out.append(digits.as_bytes())
}

// The hypotheses, of which the first one has that number.
fn print_hypotheses(
    alloc: Global,
    number: u32,
    hypotheses: &[Formula],
    out: &mut Text,
) -> Result<(), NoMemory>
    requires { number + length hypotheses.now < 2 ^ 32 }
    ensures { OnOk result (out.new ≡ out.old ++ hypotheses_text number (map formula_tree hypotheses.now)) }
{
    match hypotheses {
        [] => Ok(()),
        [a, more @ ..] => {
            out.append(separator(number))?;
            out.append(b"#")?;
            print_number(alloc, number, out)?;
            out.append(b": ")?;
            print_closed(alloc, a, out)?;
            print_hypotheses(alloc, number + 1, more, out)
        }
    }
}

fn separator(number: u32) -> &'static [u8]
    ensures { result.now ≡ separator_of number }
{
    if number == 0 { b"" } else { b", " }
}

fn gap(hypotheses: &[Formula]) -> &'static [u8]
    ensures { result.now ≡ gap_of (map formula_tree hypotheses.now) }
{
    if hypotheses.is_empty() { b"" } else { b" " }
}
