//! The page of a profile: one file that needs nothing else, no script, and no colours to be read.
ghost use Rattle.std.specs.Prelude.{◌≡◌, ◌∷◌, IfOk, flat_map, map};
ghost use Rattle.tb_words.specs.Texts.{AppendsBytes};
ghost use Rattle.tb_engine_profile_table.specs.About.{facts_in};
ghost use Rattle.tb_engine_profile_table.specs.Lines.{line_pair};
ghost use Rattle.tb_engine_profile_table.specs.Page.{figures_rows, given_rows, heading, largest_of, line_row, numbered_row, page_of};
ghost use Rattle.tb_engine_profile_table.specs.Page.{options_rows, rows_of, scale_of, seconds_row, start_row, sums, whole_rows};

use crate::about::{About, keys_text, rom_text, yes_or_no};
use crate::cells::{Scale, push_all_escaped, push_row, push_source, push_sum, push_text_row};
use crate::figures::push_seconds;
use crate::lines::Line;
use crate::rows::{Row, Whole};
use crate::table::{Figures, sum_of};
use std::alloc::{AllocError, Global};

/// The page up to the program's name in its title.
pub const HEAD: &[u8] = b"<!DOCTYPE html>
<html lang=\"en\">
<head>
<meta charset=\"utf-8\">
<meta name=\"viewport\" content=\"width=device-width\">
<meta name=\"color-scheme\" content=\"light dark\">
<title>Profile of ";

/// What comes between the title and the program's name in the heading.
pub const STYLE: &[u8] = b"</title>
<style>
body { font-family: sans-serif; margin: 2em; background: #ffffff; color: #111111; }
table { border-collapse: collapse; font-variant-numeric: tabular-nums; }
caption { text-align: left; padding: 0 0 0.5em; }
th, td { padding: 0.15em 0.7em; text-align: right; vertical-align: baseline; border-bottom: 1px solid #cccccc; }
th.source, td.source { text-align: left; white-space: pre-wrap; overflow-wrap: anywhere; min-width: 16em; }
td.source { font-family: monospace, monospace; }
th.bar, td.bar { padding-left: 0; min-width: 10em; text-align: left; }
.bar span { display: inline-block; height: 0.8em; border: 1px solid #555555; background: #777777; vertical-align: baseline; }
.h0 .bar span { display: none; }
.never { color: #666666; font-style: italic; }
.sums { margin: 0 0 1.5em; }
.sums th, .sums td { text-align: left; }
.sums td.text { overflow-wrap: anywhere; }
.h1 { background: #fffbe6; } .h2 { background: #fff3c4; } .h3 { background: #ffe8a3; }
.h4 { background: #ffdb85; } .h5 { background: #ffcb6b; } .h6 { background: #ffb95c; }
.h7 { background: #ffa552; } .h8 { background: #ff914d; } .h9 { background: #ff7d4d; }
@media (prefers-color-scheme: dark) {
body { background: #161616; color: #eeeeee; }
th, td { border-bottom-color: #444444; }
.bar span { border-color: #bbbbbb; background: #999999; }
.never { color: #aaaaaa; }
.h1 { background: #221f12; } .h2 { background: #2c2612; } .h3 { background: #382d12; }
.h4 { background: #443312; } .h5 { background: #503712; } .h6 { background: #5b3912; }
.h7 { background: #663812; } .h8 { background: #703512; } .h9 { background: #7a3012; }
}
</style>
</head>
<body>
<h1>Profile of ";

/// What comes between the whole run and the rows.
pub const ROWS: &[u8] = b"<table>
<caption>Each line, with what it took. A service of the ROM counts as one instruction and 6 cycles: what it takes beyond them is unmeasured. \
Bars and colours compare cycles with those of the row that took most.</caption>
<thead>
<tr><th scope=\"col\">line</th><th scope=\"col\">times</th><th scope=\"col\">instructions</th><th scope=\"col\">cycles</th>\
<th scope=\"col\">cycles a time</th><th scope=\"col\">share</th><th class=\"bar\"></th>\
<th scope=\"col\" class=\"source\">statement</th></tr>
</thead>
<tbody>
";

/// What comes after the rows.
pub const FOOT: &[u8] = b"</tbody>
</table>
</body>
</html>
";

// The most cycles of a row.
fn largest_of(whole: &Whole, lines: &[Line<'_>]) -> u64
    ensures { result ≡ largest_of whole.now (map line_pair lines.now) }
{
    let mut largest = whole.start.cycles;
    for line in lines {
        largest = largest.max(line.row.cycles);
    }
    largest
}

// What the rows are compared with.
fn scale_of(whole: &Whole, lines: &[Line<'_>]) -> Scale
    ensures { result ≡ scale_of whole.now (map line_pair lines.now) }
{
    Scale {
        all: whole.cycles,
        largest: largest_of(whole, lines),
    }
}

// Appends the row of a line up to its statement.
#[tactic(auto, unfolding(crate::specs::Page::numbered_row))]
fn push_numbered(
    alloc: Global,
    text: &mut Vec<u8>,
    row: &Row,
    scale: Scale,
) -> Result<(), AllocError>
    ensures { AppendsBytes result text.old text.new (numbered_row row.now scale) }
{
    let number = format!(in alloc; "{}", row.line)?;
    push_row(alloc, text, number.as_bytes(), row, scale)
}

// Appends the row of a line.
#[tactic(auto, unfolding(crate::specs::Page::line_row))]
fn push_line(
    alloc: Global,
    text: &mut Vec<u8>,
    line: &Line<'_>,
    scale: Scale,
) -> Result<(), AllocError>
    ensures { AppendsBytes result text.old text.new (line_row scale (line_pair line.now)) }
{
    push_numbered(alloc, text, &line.row, scale)?;
    push_source(text, line.statement)?;
    text.extend_from_slice(b"</tr>\n")
}

fn push_lines(
    alloc: Global,
    text: &mut Vec<u8>,
    lines: &[Line<'_>],
    scale: Scale,
) -> Result<(), AllocError>
    ensures { AppendsBytes result text.old text.new (flat_map (line_row scale) (map line_pair lines.now)) }
{
    for line in lines {
        push_line(alloc, text, line, scale)?;
    }
    Ok(())
}

// Appends the row of what came before the first line.
#[tactic(auto, unfolding(crate::specs::Page::start_row))]
fn push_start(
    alloc: Global,
    text: &mut Vec<u8>,
    start: &Row,
    scale: Scale,
) -> Result<(), AllocError>
    ensures { AppendsBytes result text.old text.new (start_row start.now scale) }
{
    push_row(alloc, text, b"start", start, scale)?;
    push_source(text, b"")?;
    text.extend_from_slice(b"</tr>\n")
}

// Appends the rows, with what comes before and after them.
#[tactic(auto, unfolding(crate::specs::Page::rows_of))]
fn push_rows(
    alloc: Global,
    text: &mut Vec<u8>,
    whole: &Whole,
    lines: &[Line<'_>],
    scale: Scale,
) -> Result<(), AllocError>
    ensures { AppendsBytes result text.old text.new (rows_of scale whole.now (map line_pair lines.now)) }
{
    text.extend_from_slice(ROWS)?;
    push_start(alloc, text, &whole.start, scale)?;
    push_lines(alloc, text, lines, scale)?;
    text.extend_from_slice(FOOT)
}

// Appends the row of the seconds of a PAL machine.
fn push_seconds_row(alloc: Global, text: &mut Vec<u8>, cycles: u64) -> Result<(), AllocError>
    ensures { AppendsBytes result text.old text.new (seconds_row cycles) }
{
    text.extend_from_slice(b"<tr><th scope=\"row\">seconds of a PAL machine</th><td>")?;
    push_seconds(alloc, text, cycles)?;
    text.extend_from_slice(b"</td></tr>\n")
}

// Appends the rows of the figures of the whole run.
#[tactic(auto, unfolding(crate::specs::Page::figures_rows))]
fn push_figures(alloc: Global, text: &mut Vec<u8>, all: &Figures) -> Result<(), AllocError>
    ensures { AppendsBytes result text.old text.new (figures_rows all.now) }
{
    push_sum(alloc, text, b"lines begun", all.times)?;
    push_sum(alloc, text, b"instructions", u128::from(all.instructions))?;
    push_sum(alloc, text, b"cycles", u128::from(all.cycles))?;
    push_seconds_row(alloc, text, all.cycles)
}

// Appends the rows of what the program was compiled with.
#[tactic(auto, unfolding(crate::specs::Page::options_rows))]
fn push_options(alloc: Global, text: &mut Vec<u8>, about: &About<'_>) -> Result<(), AllocError>
    ensures { AppendsBytes result text.old text.new (options_rows (facts_in about.now)) }
{
    push_sum(alloc, text, b"seed", u128::from(about.seed))?;
    push_text_row(text, b"fit", yes_or_no(about.fits))?;
    push_sum(alloc, text, b"limit of events", u128::from(about.limit))
}

// Appends the rows of what the run was given.
#[tactic(auto, unfolding(crate::specs::Page::given_rows))]
fn push_given(alloc: Global, text: &mut Vec<u8>, about: &About<'_>) -> Result<(), AllocError>
    ensures { AppendsBytes result text.old text.new (given_rows (facts_in about.now)) }
{
    push_text_row(text, b"keys", keys_text(alloc, about.keys)?.as_bytes())?;
    push_text_row(
        text,
        b"answers",
        keys_text(alloc, about.answers)?.as_bytes(),
    )?;
    push_text_row(text, b"ROM", rom_text(alloc, about.rude)?.as_bytes())
}

// Appends the rows of the whole run.
#[tactic(auto, unfolding(crate::specs::Page::whole_rows))]
fn push_whole(
    alloc: Global,
    text: &mut Vec<u8>,
    about: &About<'_>,
    all: &Figures,
) -> Result<(), AllocError>
    ensures { AppendsBytes result text.old text.new (whole_rows (facts_in about.now) all.now) }
{
    push_text_row(text, b"end", about.end)?;
    push_figures(alloc, text, all)?;
    push_options(alloc, text, about)?;
    push_given(alloc, text, about)
}

// Appends the table of the whole run.
fn push_sums(
    alloc: Global,
    text: &mut Vec<u8>,
    about: &About<'_>,
    all: &Figures,
) -> Result<(), AllocError>
    ensures { AppendsBytes result text.old text.new (sums (facts_in about.now) all.now) }
{
    text.extend_from_slice(b"<table class=\"sums\">\n<caption>The whole run.</caption>\n")?;
    push_whole(alloc, text, about, all)?;
    text.extend_from_slice(b"</table>\n")
}

// Appends the page up to the table of the whole run.
#[tactic(auto, unfolding(crate::specs::Page::heading))]
fn push_heading(text: &mut Vec<u8>, name: &[u8]) -> Result<(), AllocError>
    ensures { AppendsBytes result text.old text.new (heading name.now) }
{
    text.extend_from_slice(HEAD)?;
    push_all_escaped(text, name)?;
    text.extend_from_slice(STYLE)?;
    push_all_escaped(text, name)?;
    text.extend_from_slice(b"</h1>\n")
}

// Appends the page.
#[tactic(auto, unfolding(crate::specs::Page::page_of))]
fn push_page(
    alloc: Global,
    text: &mut Vec<u8>,
    about: &About<'_>,
    whole: &Whole,
    lines: &[Line<'_>],
) -> Result<(), AllocError>
    ensures { AppendsBytes result text.old text.new (page_of (facts_in about.now) whole.now (map line_pair lines.now)) }
{
    push_heading(text, about.name)?;
    push_sums(alloc, text, about, &sum_of(whole, lines))?;
    push_rows(alloc, text, whole, lines, scale_of(whole, lines))
}

/// The page: what the run was and took as a whole, a row for what came before the first line, and one for each line. Fails
/// only if memory runs out.
pub fn page_text(
    alloc: Global,
    about: &About<'_>,
    whole: &Whole,
    lines: &[Line<'_>],
) -> Result<Vec<u8>, AllocError>
    ensures { IfOk result (λ text. text.items ≡ page_of (facts_in about.now) whole.now (map line_pair lines.now)) }
{
    let mut text = Vec::new(alloc);
    push_page(alloc, &mut text, about, whole, lines)?;
    Ok(text)
}
