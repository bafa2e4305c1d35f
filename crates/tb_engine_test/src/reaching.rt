//! How often the lines of a program were begun.
ghost use Rattle.std.specs.Prelude.{◌≡◌, IfOk, map};
ghost use Rattle.tb_engine_test.specs.Reaching.{as_reach, behind, first_times, plus, reached, reached_in};

use std::alloc::{AllocError, Global};
use tb_engine_profile_table::Row;

/// How often a line was begun, modulo 2^64.
#[derive(Clone, Copy, PartialEq, Eq, Debug, Drop)]
pub struct Reach {
    pub number: u16,
    pub times: u64,
}

// What a stretch counted.
fn reaches_of(alloc: Global, rows: &[Row]) -> Result<Vec<Reach>, AllocError>
    ensures { IfOk result (λ reaches. reaches.items ≡ map as_reach rows.now) }
{
    let mut reaches = Vec::new(alloc);
    for row in rows {
        reaches.push(Reach {
            number: row.line,
            times: row.times,
        })?;
    }
    Ok(reaches)
}

// How often the first of these lines was begun; never, if there is none.
fn first_times(counted: &[Reach]) -> u64
    ensures { result ≡ first_times counted.now }
{
    match counted {
        [first, ..] => first.times,
        [] => 0,
    }
}

// The lines behind the first one.
fn behind(counted: &[Reach]) -> &[Reach]
    ensures { result.now ≡ behind counted.now }
{
    match counted {
        [_, later @ ..] => later,
        [] => counted,
    }
}

/// The counts of two runs of one program, line by line. Before the first run there are none.
pub fn plus(alloc: Global, counted: &[Reach], more: &[Reach]) -> Result<Vec<Reach>, AllocError>
    ensures { IfOk result (λ sum. sum.items ≡ plus counted.now more.now) }
{
    let mut sum = Vec::new(alloc);
    let mut rest = counted;
    for reach in more {
        sum.push(Reach {
            number: reach.number,
            times: first_times(rest).wrapping_add(reach.times),
        })?;
        rest = behind(rest);
    }
    Ok(sum)
}

/// How often the lines were begun in all stretches of a run.
pub fn reached(alloc: Global, stretches: &[Vec<Row>]) -> Result<Vec<Reach>, AllocError>
    ensures { IfOk result (λ sum. sum.items ≡ reached (map (λ rows. rows.items) stretches.now)) }
{
    let mut sum = Vec::new(alloc);
    for rows in stretches {
        sum = plus(alloc, &sum, &reaches_of(alloc, rows)?)?;
    }
    Ok(sum)
}

/// How many of these lines were begun at least once.
pub fn reached_in(lines: &[Reach]) -> usize
    ensures { result ≡ reached_in lines.now }
{
    let mut found = 0;
    for line in lines {
        if 0 < line.times {
            found += 1;
        }
    }
    found
}
