//! The rules by which code around a place has a note: a table.
ghost use Rattle.std.specs.Prelude.{◌≡◌, map};
ghost use Rattle.tb_engine_findings.specs.Rules as spec;
ghost use Rattle.tb_engine_findings.specs.Surroundings.{around_of};

use crate::notes::Note;
use crate::patterns::{fits_end, fits_front};
use crate::surroundings::{Situation, Surroundings};

/// A situation, what the code before a place ends with, what the code from it on begins with, and the note.
type Rule = (Situation, &'static str, &'static str, Note);

// The first one that fits is taken.
const RULES: [Rule; 51] = [
    (Situation::LastInPrint, "", ":", Note::ColonAtEnd),
    (Situation::Anywhere, "", ":", Note::Colon),
    (Situation::Anywhere, "INPUT", "\"", Note::TextInInput),
    // Operators and relations.
    (Situation::Anywhere, "*", "*", Note::Power),
    (Situation::Anywhere, "o", "s", Note::SignedOperand),
    (Situation::Anywhere, "=", ">", Note::AtLeast),
    (Situation::Anywhere, "=", "<", Note::AtMost),
    (Situation::Anywhere, "=", "=", Note::OneEqualSign),
    (Situation::Anywhere, "", "!=", Note::Unequal),
    // Parentheses.
    (Situation::Closed, "", ")", Note::ExtraParenthesis),
    (Situation::ClosedLater, "", "r", Note::RelationAsValue),
    // Names and numbers.
    (Situation::Anywhere, "END", "", Note::NothingBehind),
    (Situation::Anywhere, "RETURN", "", Note::NothingBehind),
    (Situation::Anywhere, "LET", "(", Note::LongName),
    (Situation::Anywhere, "INPUT", "(", Note::LongName),
    (Situation::Anywhere, "THEN", "(", Note::ThenNumber),
    (Situation::Anywhere, "l", "(", Note::Array),
    (Situation::Anywhere, "", "l(", Note::Array),
    (Situation::Anywhere, "", ".", Note::Fraction),
    (Situation::Anywhere, "l", "d", Note::LongName),
    (Situation::Anywhere, "", "ld", Note::LongName),
    (Situation::Anywhere, "l", "o=", Note::Shorthand),
    (Situation::Anywhere, "", "lo=", Note::Shorthand),
    (Situation::Anywhere, "l", "++", Note::Shorthand),
    (Situation::Anywhere, "", "l++", Note::Shorthand),
    (Situation::Anywhere, "l", "--", Note::Shorthand),
    (Situation::Anywhere, "", "l--", Note::Shorthand),
    (Situation::Anywhere, "e", "%b", Note::Remainder),
    (Situation::Anywhere, "", "%", Note::WholeName),
    (Situation::Anywhere, "", "l%", Note::WholeName),
    (Situation::Anywhere, "r", "\"", Note::TextName),
    // Statements.
    (Situation::WithoutRelation, "e", "l", Note::NoRelation),
    (Situation::Anywhere, "", "REM", Note::RemarkBehind),
    (Situation::Anywhere, "e", "PRINT", Note::Colon),
    (Situation::Anywhere, "e", "INPUT", Note::Colon),
    (Situation::Anywhere, "e", "GOTO", Note::Colon),
    (Situation::Anywhere, "e", "GOSUB", Note::Colon),
    (Situation::Anywhere, "e", "RETURN", Note::Colon),
    (Situation::Anywhere, "e", "END", Note::Colon),
    (Situation::Anywhere, "e", "LET", Note::Colon),
    (Situation::Anywhere, "e", "l=", Note::Colon),
    (Situation::Anywhere, "GOTOl", "l", Note::LineName),
    (Situation::Anywhere, "GOSUBl", "l", Note::LineName),
    // The items of PRINT.
    (Situation::Anywhere, "PRINT", "p", Note::NoItem),
    (Situation::Anywhere, "dPR", "p", Note::NoItem),
    (Situation::InPrint, "p", "p", Note::NoItem),
    (Situation::InPrint, "e", "\"", Note::NoSeparator),
    (Situation::InPrint, "e", "d", Note::NoSeparator),
    (Situation::InPrint, "e", "(", Note::NoSeparator),
    (Situation::AtItem, "e", "l", Note::NoSeparator),
    // What is left.
    (Situation::NeverClosed, "", "", Note::NotClosed),
];

/// The note by the code around a place.
pub fn note_by_rules(around: &Surroundings) -> Option<Note>
    ensures { result ≡ spec.note_by_rules (around_of around.now) }
{
    first_note(&RULES, around)
}

fn first_note(rules: &[Rule], around: &Surroundings) -> Option<Note>
    ensures { result ≡ spec.first_note (map (λ r. spec.rule r.0 r.1.now r.2.now r.3) rules.now) (around_of around.now) }
{
    for rule in rules {
        if fits(rule, around) {
            return Some(rule.3);
        }
    }
    None
}

// Whether a rule fits the code around a place.
fn fits(rule: &Rule, around: &Surroundings) -> bool
    ensures { result ≡ spec.fits (spec.rule rule.now.0 rule.now.1.now rule.now.2.now rule.now.3) (around_of around.now) }
{
    let (situation, before, behind, _) = rule;
    situation.holds(around)
        && fits_end(before.as_bytes(), &around.before)
        && fits_front(behind.as_bytes(), &around.behind)
}
