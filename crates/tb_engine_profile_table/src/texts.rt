//! The texts of a table.
ghost use Rattle.std.specs.Prelude.{IfOk};
ghost use Rattle.tb_engine_profile_table.specs.About.{facts_in};
ghost use Rattle.tb_engine_profile_table.specs.Texts.{Shows};

use crate::about::About;
use crate::lines::lines_of;
use crate::page::page_text;
use crate::rows::Table;
use crate::table::table_text;
use std::alloc::{AllocError, Global};

/// A table as a text and as a page.
#[derive(Drop)]
pub struct Texts {
    pub table: Vec<u8>,
    pub page: Vec<u8>,
}

/// The table and the page of these rows, with the statements of this source, and what is said of
/// the run. Fails only if memory runs out.
pub fn texts_of(
    alloc: Global,
    table: &Table,
    source: &[u8],
    about: &About<'_>,
) -> Result<Texts, AllocError>
    ensures { IfOk result (Shows (facts_in about.now) source.now table.now) }
{
    let lines = lines_of(alloc, source, &table.rows)?;
    Ok(Texts {
        table: table_text(alloc, &table.whole, &lines)?,
        page: page_text(alloc, about, &table.whole, &lines)?,
    })
}
