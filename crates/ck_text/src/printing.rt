//! The printed bytes of terms and formulas.

ghost use Rattle.std.specs.Prelude.{◌≡◌, suc, ◌-◌, ◌++◌, List, ℕ, Some, IfOk, OnOk, OnErr, codes, decimal, slice_get};
ghost use Rattle.sorted_terms.specs.Tree.{term_tree, IsBinary};
ghost use Rattle.formulas.specs.Tree.{formula_tree, IsJoined};
ghost use Rattle.ck_base.specs.declared.decl.Decl.{Decl};
ghost use Rattle.ck_text.specs.Texts.{level as level_of, left_want as left_want_of, right_want as right_want_of, rank};
ghost use Rattle.ck_text.specs.Printing.{at_level, term_text, formula_text, integer_text, variable_name, name_of, printed, term_bytes, formula_bytes, sign_bytes, sort_bytes};
ghost use Rattle.ck_text.specs.Printers.{Extends, sign_of_term, sign_of_formula, is_bottom as is_bottom_tree, minus_want as minus_want_of};

use crate::token::Sign;
use ck_base::{Decls, NoMemory, Scope, Sort, Text};
use formulas::Formula;
use sorted_terms::Term;

/// Adds the text of the term, as it stands alone in the scope. Where its names are declared and its indices
/// are those of variables in scope, that text means the term. After `NoMemory` the text is as before.
pub fn print_term(decls: &Decls, scope: Scope, t: &Term, out: &mut Text) -> Result<(), NoMemory>
    ensures ok { OnOk result (out.new ≡ out.old ++ term_bytes decls.now scope.sorts (term_tree t.now)) }
    ensures err { OnErr result (out.new ≡ out.old) }
{
    let len = out.as_bytes().len();
    match write_term(decls, scope.sorts as u64, 0, t, out) {
        Ok(()) => Ok(()),
        Err(fault) => {
            out.cut(len);
            Err(fault)
        }
    }
}

/// Adds the text of the formula, as it stands alone in the scope. Where its names are declared and its
/// indices are those of variables around, that text means the formula. After `NoMemory` the text is as
/// before.
pub fn print_formula(
    decls: &Decls,
    scope: Scope,
    a: &Formula,
    out: &mut Text,
) -> Result<(), NoMemory>
    ensures ok { OnOk result (out.new ≡ out.old ++ formula_bytes decls.now scope.sorts (formula_tree a.now)) }
    ensures err { OnErr result (out.new ≡ out.old) }
{
    let len = out.as_bytes().len();
    match write_formula(decls, scope.sorts as u64, 0, a, out) {
        Ok(()) => Ok(()),
        Err(fault) => {
            out.cut(len);
            Err(fault)
        }
    }
}

// # Terms

// The term where that level is wanted, under so many variables.
#[cycle(term)]
fn write_term(
    decls: &Decls,
    around: u64,
    wanted: u32,
    t: &Term,
    out: &mut Text,
) -> Result<(), NoMemory>
    ensures ok { OnOk result (out.new ≡ out.old ++ printed (at_level wanted (term_text decls.now around (term_tree t.now)))) }
    ensures err { OnErr result (Extends out.old out.new) }
{
    if wanted <= term_level(t) {
        write_bare_term(decls, around, t, out)
    } else {
        out.append(b"(")?;
        write_bare_term(decls, around, t, out)?;
        out.append(b")")
    }
}

#[cycle(term)]
pub(crate) fn write_bare_term(
    decls: &Decls,
    around: u64,
    t: &Term,
    out: &mut Text,
) -> Result<(), NoMemory>
    ensures ok { OnOk result (out.new ≡ out.old ++ printed (term_text decls.now around (term_tree t.now))) }
    ensures err { OnErr result (Extends out.old out.new) }
{
    match t {
        Term::Var(x) => write_name(decls, *x, out),
        Term::Bound(k) => write_variable(place(around, *k), out),
        Term::Int(n) => write_integer(*n, out),
        Term::Truth(true) => out.append(b"true"),
        Term::Truth(false) => out.append(b"false"),
        Term::Neg(part) => {
            out.append(b"-")?;
            write_term(decls, around, minus_want(part), part, out)
        }
        Term::Not(part) => {
            out.append(b"not ")?;
            write_term(decls, around, NOT, part, out)
        }
        Term::Add(left, right)
        | Term::Sub(left, right)
        | Term::Mul(left, right)
        | Term::Eq(left, right)
        | Term::Less(left, right)
        | Term::AtMost(left, right)
        | Term::Both(left, right)
        | Term::Either(left, right) => {
            let sign = term_sign(t);
            write_term(decls, around, left_want(sign), left, out)?;
            write_sign(sign, out)?;
            write_term(decls, around, right_want(sign), right, out)
        }
    }
}

// The level of a term's text.
fn term_level(t: &Term) -> u32
    ensures { (names : List Decl) (around : ℕ) → result ≡ rank (term_text names around (term_tree t.now)) }
{
    match t {
        Term::Var(_) | Term::Bound(_) | Term::Truth(_) => ALONE,
        Term::Int(n) if *n < 0 => MINUS,
        Term::Int(_) => ALONE,
        Term::Neg(_) => MINUS,
        Term::Not(_) => NOT,
        _ => level(term_sign(t)),
    }
}

// The level that is wanted after `-`: an integer there is in parentheses.
fn minus_want(t: &Term) -> u32
    ensures { result ≡ minus_want_of (term_tree t.now) }
{
    match t {
        Term::Int(_) => ALONE + 1,
        _ => MINUS,
    }
}

// The sign between the parts of a term.
fn term_sign(t: &Term) -> Sign
    requires { IsBinary (term_tree t.now) }
    ensures { result ≡ sign_of_term (term_tree t.now) }
{
    match t {
        Term::Add(_, _) => Sign::Plus,
        Term::Sub(_, _) => Sign::Minus,
        Term::Mul(_, _) => Sign::Times,
        Term::Eq(_, _) => Sign::Equal,
        Term::Less(_, _) => Sign::Less,
        Term::AtMost(_, _) => Sign::AtMost,
        Term::Both(_, _) => Sign::Both,
        Term::Either(_, _) => Sign::Either,
        _ => unreachable!(),
    }
}

// # Formulas

// The formula where that level is wanted, under so many variables.
#[cycle(formula)]
fn write_formula(
    decls: &Decls,
    around: u64,
    wanted: u32,
    a: &Formula,
    out: &mut Text,
) -> Result<(), NoMemory>
    ensures ok { OnOk result (out.new ≡ out.old ++ printed (at_level wanted (formula_text decls.now around (formula_tree a.now)))) }
    ensures err { OnErr result (Extends out.old out.new) }
{
    if wanted <= formula_level(a) {
        write_bare_formula(decls, around, a, out)
    } else {
        out.append(b"(")?;
        write_bare_formula(decls, around, a, out)?;
        out.append(b")")
    }
}

#[cycle(formula)]
pub(crate) fn write_bare_formula(
    decls: &Decls,
    around: u64,
    a: &Formula,
    out: &mut Text,
) -> Result<(), NoMemory>
    ensures ok { OnOk result (out.new ≡ out.old ++ printed (formula_text decls.now around (formula_tree a.now))) }
    ensures err { OnErr result (Extends out.old out.new) }
{
    match a {
        Formula::Bottom => out.append(b"bottom"),
        Formula::Holds(t) => write_bare_term(decls, around, t, out),
        Formula::Imp(left, right) if is_bottom(right) => {
            out.append(b"~")?;
            write_formula(decls, around, TILDE, left, out)
        }
        Formula::Imp(left, right) | Formula::Conj(left, right) | Formula::Disj(left, right) => {
            let sign = formula_sign(a);
            write_formula(decls, around, left_want(sign), left, out)?;
            write_sign(sign, out)?;
            write_formula(decls, around, right_want(sign), right, out)
        }
        Formula::All(sort, part) => {
            write_binder(b"all ", around, *sort, out)?;
            write_formula(decls, inside(around)?, QUANTIFIER, part, out)
        }
        Formula::Ex(sort, part) => {
            write_binder(b"ex ", around, *sort, out)?;
            write_formula(decls, inside(around)?, QUANTIFIER, part, out)
        }
    }
}

// The level of a formula's text.
fn formula_level(a: &Formula) -> u32
    ensures { (names : List Decl) (around : ℕ) → result ≡ rank (formula_text names around (formula_tree a.now)) }
{
    match a {
        Formula::Bottom => ALONE,
        Formula::Holds(t) => term_level(t),
        Formula::Imp(_, right) if is_bottom(right) => TILDE,
        Formula::Imp(_, _) | Formula::Conj(_, _) | Formula::Disj(_, _) => level(formula_sign(a)),
        Formula::All(_, _) | Formula::Ex(_, _) => QUANTIFIER,
    }
}

fn is_bottom(a: &Formula) -> bool
    ensures { result ≡ is_bottom_tree (formula_tree a.now) }
{
    match a {
        Formula::Bottom => true,
        _ => false,
    }
}

// The sign between the parts of a formula.
fn formula_sign(a: &Formula) -> Sign
    requires { IsJoined (formula_tree a.now) }
    ensures { result ≡ sign_of_formula (formula_tree a.now) }
{
    match a {
        Formula::Imp(_, _) => Sign::Implies,
        Formula::Conj(_, _) => Sign::AndAlso,
        Formula::Disj(_, _) => Sign::OrElse,
        _ => unreachable!(),
    }
}

// # Parts

// The levels of what is no sign between operands.
const QUANTIFIER: u32 = 0;

const TILDE: u32 = 3;

const NOT: u32 = 6;

const MINUS: u32 = 10;

const ALONE: u32 = 11;

// A sign between two operands, with a space on each side.
#[inline(never)]
fn write_sign(sign: Sign, out: &mut Text) -> Result<(), NoMemory>
    ensures ok { OnOk result (out.new ≡ out.old ++ (codes " " ++ (sign_bytes sign ++ codes " "))) }
    ensures err { OnErr result (Extends out.old out.new) }
{
    out.append(b" ")?;
    out.append(spelled(sign))?;
    out.append(b" ")
}

fn spelled(sign: Sign) -> &'static [u8]
    ensures { result.now ≡ sign_bytes sign }
{
    match sign {
        Sign::Implies => b"=>",
        Sign::OrElse => b"\\/",
        Sign::AndAlso => b"/\\",
        Sign::Either => b"or",
        Sign::Both => b"and",
        Sign::Equal => b"=",
        Sign::Less => b"<",
        Sign::AtMost => b"<=",
        Sign::Plus => b"+",
        Sign::Minus => b"-",
        Sign::Times => b"*",
    }
}

fn level(sign: Sign) -> u32
    ensures { result ≡ level_of sign }
{
    match sign {
        Sign::Implies => 0,
        Sign::OrElse => 1,
        Sign::AndAlso => 2,
        Sign::Either => 4,
        Sign::Both => 5,
        Sign::Equal | Sign::Less | Sign::AtMost => 7,
        Sign::Plus | Sign::Minus => 8,
        Sign::Times => 9,
    }
}

// The lowest level of the operand on the left.
fn left_want(sign: Sign) -> u32
    ensures { result ≡ left_want_of sign }
{
    match sign {
        Sign::Implies => 1,
        Sign::OrElse => 2,
        Sign::AndAlso => 3,
        Sign::Either => 4,
        Sign::Both => 5,
        Sign::Equal | Sign::Less | Sign::AtMost | Sign::Plus | Sign::Minus => 8,
        Sign::Times => 9,
    }
}

// The lowest level of the operand on the right.
fn right_want(sign: Sign) -> u32
    ensures { result ≡ right_want_of sign }
{
    match sign {
        Sign::Implies => 0,
        Sign::OrElse => 1,
        Sign::AndAlso => 2,
        Sign::Either => 5,
        Sign::Both => 6,
        Sign::Equal | Sign::Less | Sign::AtMost => 8,
        Sign::Plus | Sign::Minus => 9,
        Sign::Times => 10,
    }
}

// A quantifier's word, the name of the next variable, and its sort.
#[inline(never)]
fn write_binder(word: &[u8], around: u64, sort: Sort, out: &mut Text) -> Result<(), NoMemory>
    ensures ok { OnOk result (out.new ≡ out.old ++ (word.now ++ (variable_name around ++ (sort_bytes (Some sort) ++ codes ". ")))) }
    ensures err { OnErr result (Extends out.old out.new) }
{
    out.append(word)?;
    write_variable(around, out)?;
    match sort {
        Sort::Int => out.append(b":int. "),
        Sort::Bool => out.append(b":bool. "),
    }
}

// The number of variables around the part of a quantifier. No memory holds 2^64 levels.
pub(crate) fn inside(around: u64) -> Result<u64, NoMemory>
    ensures { IfOk result (λ n. n ≡ suc around) }
{
    around.checked_add(1).ok_or(NoMemory)
}

// The number, from the outside, of the variable with this index.
pub(crate) fn place(around: u64, index: u32) -> u64
    ensures { result ≡ around - 1 - index }
{
    around.saturating_sub(1).saturating_sub(index as u64)
}

#[inline(never)]
fn write_variable(number: u64, out: &mut Text) -> Result<(), NoMemory>
    ensures ok { OnOk result (out.new ≡ out.old ++ variable_name number) }
    ensures err { OnErr result (Extends out.old out.new) }
{
    out.append(b"_")?;
    write_decimal(number as u128, out)
}

#[inline(never)]
fn write_name(decls: &Decls, number: u32, out: &mut Text) -> Result<(), NoMemory>
    ensures ok { OnOk result (out.new ≡ out.old ++ name_of (slice_get decls.now number)) }
    ensures err { OnErr result (Extends out.old out.new) }
{
    match decls.at(number) {
        Some(decl) => out.append(decl.name.as_bytes()),
        None => Ok(()),
    }
}

#[inline(never)]
fn write_integer(n: i128, out: &mut Text) -> Result<(), NoMemory>
    ensures ok { OnOk result (out.new ≡ out.old ++ printed (integer_text n)) }
    ensures err { OnErr result (Extends out.old out.new) }
{
    if n < 0 {
        out.append(b"-")?;
    }
    write_decimal(n.unsigned_abs(), out)
}

// The decimal digits of the number, without a leading zero.
#[tactic(auto, using(crate::proofs::Decimals::only_digit))]
pub(crate) fn write_decimal(n: u128, out: &mut Text) -> Result<(), NoMemory>
    ensures ok { OnOk result (out.new ≡ out.old ++ decimal n) }
    ensures err { OnErr result (Extends out.old out.new) }
{
    if n < 10 {
        out.append(&[b'0' + n as u8])
    } else {
        write_decimal(n / 10, out)?;
        out.append(&[b'0' + (n % 10) as u8])
    }
}
