//! The names that a text has.
ghost use Rattle.std.specs.Prelude.{◌≡◌, ◌++◌, IfOk, OnOk, map, option_map};
ghost use Rattle.tb_assembly_text.specs.Statements.{clause_of, said_of};
ghost use Rattle.tb_assembly_output.specs.Names.{name_in, named_in, names_in, own_part};

use std::alloc::{AllocError, Global};
use tb_assembly_text::{Clause, Statement};

// The name that a statement gives to something, as it is written, in upper case.
fn name_in(clause: &Clause) -> Option<&[u8]>
    ensures { option_map (λ n. n.now) result ≡ name_in (clause_of clause.now) }
{
    match clause {
        Clause::Label(name) | Clause::Assign(name, _) => Some(own_part(&name.letters)),
        _ => None,
    }
}

// The part of a name behind the label to which it belongs.
fn own_part(name: &[u8]) -> &[u8]
    ensures { result.now ≡ own_part name.now }
{
    let mut found = name;
    for (i, byte) in name.iter().enumerate() {
        if *byte == b':' {
            found = &name[i + 1..];
        }
    }
    found
}

// Puts the name that a statement gives to something behind the others.
fn push_name<'s>(names: &mut Vec<&'s [u8]>, statement: &'s Statement) -> Result<(), AllocError>
    ensures { OnOk result (map (λ n. n.now) names.new.items ≡ map (λ n. n.now) names.old.items ++ named_in (said_of statement.now)) }
{
    match name_in(&statement.clause) {
        Some(name) => names.push(name)?,
        None => {}
    }
    Ok(())
}

/// The names that statements give to something, in upper case.
pub fn names_in(alloc: Global, statements: &[Statement]) -> Result<Vec<&[u8]>, AllocError>
    ensures { IfOk result (λ names. map (λ n. n.now) names.items ≡ names_in (map said_of statements.now)) }
{
    let mut names = Vec::new(alloc);
    for statement in statements {
        push_name(&mut names, statement)?;
    }
    Ok(names)
}
