//! Programs: statements by line number.
ghost use Rattle.std.specs.Prelude.{◌≡◌, ◌↔◌, ℕ, List, [], IfErr, IsTrue, OnOk, OnErr, is_some};
ghost use Rattle.std.specs.Ordering.{nat_cmp};
ghost use Rattle.std.specs.BTreeMap.{insert_entry, is_at};
ghost use Rattle.std.specs.Map.{lookup, remove_entry};
ghost use Rattle.std.specs.Coded.{codes};
ghost use Rattle.tb_basic_syntax.specs.declared.statements.Statement.{Statement};
ghost use Rattle.tb_basic_syntax.specs.contracts.statements.Statement as statement;

use crate::statements::Statement;
use std::alloc::{AllocFailed, Global};
use std::collections::BTreeMap;
use std::collections::btree_map::Iter;
use std::marker::Model;

/// The highest number of a line; the lowest is 1.
pub const HIGHEST_LINE: u16 = 32_767;

const _: () = prove!(HIGHEST_LINE == 32_767);

/// A program: a statement for each of its line numbers, in rising order.
#[derive(Drop)]
pub struct Program {
    statements: BTreeMap<u16, Statement>,
}

impl Model for Program {
    ghost Value = { List (ℕ × Statement) };

    ghost coded = { Prim.hlevel (codes, statement.the_row.coded) };

    ghost view = { λ p. p.statements.entries };
}

impl Program {
    /// A program without lines.
    pub fn new(alloc: Global) -> Self
        ensures { result ≡ [] }
    {
        Program {
            statements: BTreeMap::new(alloc),
        }
    }

    /// Gives a line its statement, in place of any that it had. If memory runs out, number and statement come back.
    pub fn set(
        &mut self,
        number: u16,
        statement: Statement,
    ) -> Result<(), AllocFailed<(u16, Statement)>>
        ensures ok { OnOk result (self.new ≡ insert_entry nat_cmp self.old number statement) }
        ensures err { OnErr result (self.new ≡ self.old) }
        ensures back { IfErr result (λ e. e.value ≡ (number, statement)) }
    {
        self.statements.insert(number, statement)?;
        Ok(())
    }

    /// Removes the line of a number, if there is one.
    pub fn delete(&mut self, number: u16)
        ensures { self.new ≡ remove_entry (is_at (nat_cmp number)) self.old }
    {
        let _ = self.statements.remove(&number);
    }

    /// Whether there is a line of this number.
    pub fn has(&self, number: u16) -> bool
        ensures { result ≡ is_some (lookup (is_at (nat_cmp number)) self.now) }
    {
        self.statements.contains_key(&number)
    }

    /// Whether the program has no lines.
    pub fn is_empty(&self) -> bool
        ensures { IsTrue result ↔ (self.now ≡ []) }
    {
        self.statements.is_empty()
    }

    /// The numbers and statements, in rising order.
    pub fn lines(&self) -> Iter<'_, u16, Statement>
        ensures { result ≡ self.now }
    {
        self.statements.iter()
    }
}
