//! What is printed of a valid file.

ghost use Rattle.std.specs.Prelude.{◌≡◌, ◌++◌, OnOk, IfOk};
ghost use Rattle.formulas.specs.Tree.{formula_tree};
ghost use Rattle.cert_codec.specs.Tree.{checked_tree};
ghost use Rattle.commands.specs.Texts.{triple_text, assertion_line};

use cert_codec::{Certificate, Node};
use ck_base::{Decls, NoMemory, Scope, Text};
use ck_text::print_formula;
use formulas::Formula;
use std::alloc::Global;

/// The lines of a valid file: the word, the precondition, the program and the postcondition.
pub fn triple(alloc: Global, c: &Certificate) -> Result<Text, NoMemory>
    ensures { IfOk result (λ text. text ≡ triple_text (checked_tree c.now)) }
{
    let mut text = Text::new(alloc);
    text.append(b"valid\n")?;
    add_assertion(&c.decls, &c.pre, &mut text)?;
    match &c.node {
        Node::Skip(_) => text.append(b"skip")?,
    }
    text.append(b"\n")?;
    add_assertion(&c.decls, &c.post, &mut text)?;
    Ok(text)
}

// The formula in braces, on a line of its own.
fn add_assertion(decls: &Decls, a: &Formula, out: &mut Text) -> Result<(), NoMemory>
    ensures { OnOk result (out.new ≡ out.old ++ assertion_line decls.now (formula_tree a.now)) }
{
    out.append(b"{ ")?;
    let closed = Scope { sorts: 0, hyps: 0 };
    print_formula(decls, closed, a, out)?;
    out.append(b" }\n")
}
