//! Sorts, and the table of declared names.

ghost use Rattle.std.specs.Prelude.{◌≡◌, ◌<◌, ◌≤◌, ◌↔◌, ℕ, true, false, [], ◌∷◌, ◌++◌, length, slice_get, Some, None, IfOk, OnOk, OnErr, IsErrOf};
ghost use Rattle.std.specs.Option.{option_copied};
ghost use Rattle.ck_base.specs.declared.limits.TheConstants.{DECLARED_NAMES};
ghost use Rattle.ck_base.specs.Names.{is_name, number_of, AreNames};

use crate::decl_fault::DeclFault;
use crate::limits::DECLARED_NAMES;
use crate::names::is_name;
use crate::no_memory::NoMemory;
use crate::text::Text;
use indexmap::IndexMap;
use std::alloc::Global;
use std::marker::Model;

/// What a term's values are: integers without bound, or truth values.
#[derive(Clone, Copy, Debug, PartialEq, Eq)]
pub enum Sort {
    Int,
    Bool,
}

/// Whether a program may assign to a name.
#[derive(Clone, Copy, Debug, PartialEq, Eq)]
pub enum Kind {
    Variable,
    Constant,
}

/// One declaration.
#[derive(Debug, Drop)]
pub struct Decl {
    pub name: Text,
    pub kind: Kind,
    pub sort: Sort,
}

/// The declarations in order, at most `DECLARED_NAMES`, no two of one name. A name's number is its
/// position, from 0. Contracts see the list of them.
#[derive(Drop)]
pub struct Decls {
    table: IndexMap<String, Decl>,
}

impl Model for Decls {
    ghost use Rattle.std.specs.Prelude.{◌≤◌, List, length, map};
    ghost use Rattle.ck_base.specs.declared.decl.Decl.{Decl};
    ghost use Rattle.ck_base.specs.declared.limits.TheConstants.{DECLARED_NAMES};
    ghost use Rattle.ck_base.specs.Names.{AreKeyed, AreNames};

    ghost Value = { List Decl };

    ghost view = { λ d. map (λ e. e.1) d.table.entries };

    ghost invariant = { λ d. AreKeyed d.table.entries × AreNames (map (λ e. e.1) d.table.entries) × (length (map (λ e. e.1) d.table.entries) ≤ DECLARED_NAMES) };
}

impl Decls {
    /// No declarations. It takes no memory.
    pub fn new(alloc: Global) -> Decls
        ensures { result ≡ [] }
    {
        Decls {
            table: IndexMap::new(alloc),
        }
    }

    /// How many declarations there are. It takes no memory.
    pub fn len(&self) -> u32
        ensures value { result ≡ length self.now }
        ensures few { result ≤ DECLARED_NAMES }
        ensures names { AreNames self.now }
    {
        self.table.len() as u32
    }

    /// The declaration of that number; `None` exactly where there is none. It takes no memory.
    pub fn at(&self, number: u32) -> Option<&Decl>
        ensures { option_copied result ≡ slice_get self.now number }
    {
        let (_, decl) = self.table.get_index(number as usize)?;
        Some(decl)
    }

    /// The number of the name; `None` exactly where it is not declared. It takes no memory.
    pub fn number(&self, name: &str) -> Option<u32>
        ensures { result ≡ number_of name.now self.now }
    {
        let index = self.table.get_index_of(name)?;
        Some(index as u32)
    }

    /// Declares a name, and answers its number. The errors, the first that is so: `BadName` where the
    /// name does not keep the rule, `Duplicate` with the name's number where it is declared already,
    /// `TooMany` where `DECLARED_NAMES` names are declared, and `NoMemory`. The table is as before then.
    pub fn add(&mut self, name: &str, kind: Kind, sort: Sort) -> Result<u32, DeclFault>
        ensures number { IfOk result (λ number. number ≡ length self.old) }
        ensures added { OnOk result (self.new ≡ self.old ++ record { name = name.now; kind = kind; sort = sort } ∷ []) }
        ensures bad_name { IsErrOf result DeclFault.BadName ↔ (is_name name.now ≡ false) }
        ensures duplicate { (number : ℕ) → IsErrOf result (DeclFault.Duplicate number) ↔ ((is_name name.now ≡ true) × (number_of name.now self.old ≡ Some number)) }
        ensures too_many { IsErrOf result DeclFault.TooMany ↔ ((is_name name.now ≡ true) × (number_of name.now self.old ≡ None) × (length self.old ≡ DECLARED_NAMES)) }
        ensures unchanged { OnErr result (self.new ≡ self.old) }
    {
        if !is_name(name.as_bytes()) {
            return Err(DeclFault::BadName);
        }
        if let Some(number) = self.number(name) {
            return Err(DeclFault::Duplicate(number));
        }
        let number = self.len();
        if number as usize == DECLARED_NAMES {
            return Err(DeclFault::TooMany);
        }
        self.append(name, kind, sort)?;
        Ok(number)
    }

    /// A table of the same declarations.
    pub fn copy(&self, alloc: Global) -> Result<Decls, NoMemory>
        ensures { IfOk result (λ copy. copy ≡ self.now) }
    {
        let mut copy = Decls::new(alloc);
        for (name, decl) in self.table.iter() {
            copy.append(name.as_str(), decl.kind, decl.sort)?;
        }
        Ok(copy)
    }

    // Puts a declaration at the end. After `NoMemory` the table is as before.
    fn append(&mut self, name: &str, kind: Kind, sort: Sort) -> Result<(), NoMemory>
        requires rule { is_name name.now ≡ true }
        requires fresh { number_of name.now self.old ≡ None }
        requires room { length self.old < DECLARED_NAMES }
        ensures ok { OnOk result (self.new ≡ self.old ++ record { name = name.now; kind = kind; sort = sort } ∷ []) }
        ensures err { OnErr result (self.new ≡ self.old) }
    {
        let alloc = *self.table.allocator();
        let key = String::from_str(alloc, name)?;
        let mut text = Text::new(alloc);
        text.append(name.as_bytes())?;
        let decl = Decl {
            name: text,
            kind,
            sort,
        };
        self.table.insert(key, decl)?;
        Ok(())
    }
}
