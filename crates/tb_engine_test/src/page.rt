//! The fixed texts of reached lines. Their page needs nothing else, no script, and no colours to be read.

/// What comes before the numbers of lines that were not reached.
pub const NOT_REACHED: &[u8] = b"\n  not reached:";

/// What comes before the first source.
pub const HEAD: &[u8] = b"<!DOCTYPE html>
<html lang=\"en\">
<head>
<meta charset=\"utf-8\">
<meta name=\"viewport\" content=\"width=device-width\">
<meta name=\"color-scheme\" content=\"light dark\">
<title>Lines that tests reached</title>
<style>
body { font-family: sans-serif; margin: 2em; background: #ffffff; color: #111111; }
table { border-collapse: collapse; font-variant-numeric: tabular-nums; }
th, td { padding: 0.15em 0.7em; text-align: right; vertical-align: baseline; border-bottom: 1px solid #cccccc; }
th.source, td.source { text-align: left; white-space: pre-wrap; overflow-wrap: anywhere; min-width: 16em; }
td.source { font-family: monospace, monospace; }
.never { background: #ffd9d0; font-style: italic; }
@media (prefers-color-scheme: dark) {
body { background: #161616; color: #eeeeee; }
th, td { border-bottom-color: #444444; }
.never { background: #5a2418; }
}
</style>
</head>
<body>
<h1>Lines that tests reached</h1>
";

/// What comes before the name of a source.
pub const SECTION: &[u8] = b"<h2>";

/// What comes between its name and how many of its lines were reached.
pub const SHARE: &[u8] = b"</h2>\n<p>";

/// What comes before its rows.
pub const ROWS: &[u8] = b"</p>
<table>
<thead>
<tr><th scope=\"col\">times</th><th scope=\"col\" class=\"source\">line</th></tr>
</thead>
<tbody>
";

/// The beginning of the row of a line that was never begun.
pub const NEVER: &[u8] = b"<tr class=\"never\"><td>";

/// The beginning of the row of another line.
pub const BEGUN: &[u8] = b"<tr><td>";

/// What comes between how often a line was begun and the line.
pub const LINE: &[u8] = b"</td><td class=\"source\">";

/// What comes after a line.
pub const LINE_END: &[u8] = b"</td></tr>\n";

/// What comes after the rows of a source.
pub const ROWS_END: &[u8] = b"</tbody>\n</table>\n";

/// What comes after the last source.
pub const FOOT: &[u8] = b"</body>\n</html>\n";
