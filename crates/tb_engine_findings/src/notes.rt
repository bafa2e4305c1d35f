//! Notes: what may help with a bad line, by what is at the place of its fault.
ghost use Rattle.std.specs.Prelude.{◌≡◌, ◌<◌, ◌≤◌, IfOk, length, option_map};
ghost use Rattle.std.specs.List.{slice_get};
ghost use Rattle.tb_engine_findings.specs.declared.notes.Note.TheVariants.{Near, NearSign, UnknownSign};
ghost use Rattle.tb_engine_findings.specs.Notes as spec;
ghost use Rattle.tb_basic_signs.specs.Near as signs;

use crate::foreign_words::{ForeignWord, foreign_word};
use crate::near_words::{StatementWord, near_word};
use crate::rules::note_by_rules;
use crate::surroundings::code_around;
use std::alloc::{AllocError, Global};
use tb_basic_grammar::THEN;
use tb_basic_signs::{after_count, byte_named, near_name, written_name};
use tb_basic_text::Notation;
use tb_parser::{SourceError, SourceErrorKind};

/// The bytes with which some editors begin a file.
const BYTE_ORDER_MARK: &[u8] = &[0xef, 0xbb, 0xbf];

/// The bytes with which a file in UTF-16 begins, by the order of each two.
const LOW_FIRST: &[u8] = &[0xff, 0xfe];

const HIGH_FIRST: &[u8] = &[0xfe, 0xff];

/// What may help with a bad line.
#[derive(Clone, Copy, Drop)]
pub enum Note {
    /// A word of other BASICs.
    ForeignWord(ForeignWord),
    /// `?` in place of PRINT.
    QuestionMark,
    /// `'` in place of REM.
    Apostrophe,
    /// A colon between statements.
    Colon,
    /// A colon at the end of PRINT.
    ColonAtEnd,
    /// A name of more than one letter.
    LongName,
    /// A name with `$`.
    TextName,
    /// A number with `$` or `0x`.
    Hexadecimal,
    /// A line's number after THEN.
    ThenNumber,
    /// A text without its second quote.
    OpenText,
    Tab,
    /// The file begins with a byte order mark.
    ByteOrderMark,
    /// The file begins with a mark of UTF-16.
    WideMark,
    /// A line without a number.
    NoNumber,
    /// USR.
    MachineCode,
    /// LIST, RUN or CLEAR.
    NoInterpreter,
    /// A curly quote outside of texts.
    CurlyQuote,
    /// A word one letter away from that of a statement, or with two letters swapped.
    Near(StatementWord),
    /// A byte that no text may have, in a text.
    SignInText,
    /// A brace in a text, where texts have no signs.
    BraceInText,
    /// A sign whose name is near to that of a control character, which is this byte.
    NearSign(u8),
    /// A brace in a text that begins no sign, nor nearly one.
    UnknownSign,
    /// A count right before the name of a sign.
    CountWithoutSpace,
    /// A count of a sign that is 0 or above 255.
    BadCount,
    /// A text after INPUT.
    TextInInput,
    /// `**` or `^`.
    Power,
    /// A sign behind an operator.
    SignedOperand,
    /// `=>`.
    AtLeast,
    /// `=<`.
    AtMost,
    /// `==`.
    OneEqualSign,
    /// `!=`.
    Unequal,
    ExtraParenthesis,
    /// A relation in parentheses.
    RelationAsValue,
    /// A parenthesis that is not closed.
    NotClosed,
    /// Something behind END or RETURN.
    NothingBehind,
    /// A name with a parenthesis.
    Array,
    /// A decimal point.
    Fraction,
    /// `+=` and the like.
    Shorthand,
    /// `%` between two values.
    Remainder,
    /// A name with `%`.
    WholeName,
    /// An IF without a relation.
    NoRelation,
    /// A remark behind a statement.
    RemarkBehind,
    /// A name after GOTO or GOSUB.
    LineName,
    /// A separator of PRINT without an item before it.
    NoItem,
    /// Two items of PRINT without a separator.
    NoSeparator,
}

/// The note on the first fault of a line that was read in a notation, if there is one. Fails only if memory runs out.
pub fn note_of(
    alloc: Global,
    notation: Notation,
    line: &[u8],
    error: SourceError,
) -> Result<Option<Note>, AllocError>
    ensures { IfOk result (λ note. note ≡ spec.note_on notation line.now error) }
{
    match error.kind {
        SourceErrorKind::BadByte => note_on_byte(alloc, notation, line, error),
        SourceErrorKind::Unnumbered => Ok(Some(Note::NoNumber)),
        SourceErrorKind::NotCompiled => {
            let line = line.to_ascii_uppercase(alloc)?;
            Ok(note_on_left_out(&line, error.column.saturating_sub(1)))
        }
        SourceErrorKind::Syntax => {
            let line = line.to_ascii_uppercase(alloc)?;
            note_on_syntax(alloc, &line, error.column.saturating_sub(1))
        }
        _ => Ok(None),
    }
}

fn note_on_byte(
    alloc: Global,
    notation: Notation,
    line: &[u8],
    error: SourceError,
) -> Result<Option<Note>, AllocError>
    ensures { IfOk result (λ note. note ≡ spec.note_on_byte notation line.now error) }
{
    if is_at_mark(line, error) {
        return Ok(Some(Note::ByteOrderMark));
    }
    if is_at_wide_mark(line, error) {
        return Ok(Some(Note::WideMark));
    }
    note_on_bad_place(alloc, notation, line, error.column.saturating_sub(1))
}

// The note by the byte at a place of a line, from 0.
fn note_on_bad_place(
    alloc: Global,
    notation: Notation,
    line: &[u8],
    place: usize,
) -> Result<Option<Note>, AllocError>
    ensures { IfOk result (λ note. note ≡ spec.note_on_bad_place notation line.now place (slice_get line.now place)) }
{
    match line.get(place) {
        Some(byte) if is_open(&line[..place]) => Ok(Some(note_in_text(
            alloc,
            notation,
            *byte,
            &line[place + 1..],
        )?)),
        Some(byte) => Ok(note_outside(&line[place..], *byte)),
        None => Ok(None),
    }
}

// The note on a byte of a text, by what follows it.
fn note_in_text(
    alloc: Global,
    notation: Notation,
    byte: u8,
    inside: &[u8],
) -> Result<Note, AllocError>
    ensures { IfOk result (λ note. note ≡ spec.note_in_text notation byte inside.now) }
{
    match byte {
        b'\t' => Ok(Note::Tab),
        b'{' => note_on_brace(alloc, notation, inside),
        _ => Ok(Note::SignInText),
    }
}

// The note on a brace of a text, by what follows it.
fn note_on_brace(alloc: Global, notation: Notation, inside: &[u8]) -> Result<Note, AllocError>
    ensures { IfOk result (λ note. note ≡ spec.note_on_brace notation inside.now) }
{
    match notation {
        Notation::Plain => Ok(Note::BraceInText),
        Notation::Signs => note_on_sign(alloc, inside),
    }
}

// The note on a brace that begins no sign, by what follows it.
fn note_on_sign(alloc: Global, inside: &[u8]) -> Result<Note, AllocError>
    ensures { IfOk result (λ note. note ≡ spec.note_on_sign inside.now) }
{
    if let Some(note) = note_on_count(inside) {
        return Ok(note);
    }
    match near_name(alloc, inside)? {
        Some(name) => Ok(note_on_near_sign(byte_named(name))),
        None => Ok(Note::UnknownSign),
    }
}

// The note on the count of a sign that is right but for that.
fn note_on_count(inside: &[u8]) -> Option<Note>
    ensures { result ≡ spec.note_on_count inside.now }
{
    if !begins_with_digit(inside) {
        None
    } else if is_named(after_digits(inside)) {
        Some(Note::CountWithoutSpace)
    } else if is_named(after_count(inside)) {
        Some(Note::BadCount)
    } else {
        None
    }
}

fn begins_with_digit(text: &[u8]) -> bool
    ensures { result ≡ spec.begins_with_digit text.now }
{
    match text {
        [first, ..] => first.is_ascii_digit(),
        [] => false,
    }
}

// What follows the digits at the front.
fn after_digits(text: &[u8]) -> &[u8]
    ensures { result.now ≡ signs.after_digits text.now }
{
    match text {
        [first, rest @ ..] if first.is_ascii_digit() => after_digits(rest),
        _ => text,
    }
}

// Whether a text begins with the name of a sign and a brace.
fn is_named(text: &[u8]) -> bool
    ensures { result ≡ spec.is_named text.now }
{
    let name = written_name(text);
    byte_named(name).is_some() && text.get(name.len()) == Some(&b'}')
}

fn note_on_near_sign(near: Option<u8>) -> Note
    ensures { result ≡ spec.note_on_near_sign near }
{
    match near {
        Some(byte) => Note::NearSign(byte),
        None => Note::UnknownSign,
    }
}

// Whether a fault is at the byte order mark of the file.
fn is_at_mark(line: &[u8], error: SourceError) -> bool
    ensures { result ≡ spec.is_at_mark line.now error }
{
    error.line == 1 && error.column == 1 && line.starts_with(BYTE_ORDER_MARK)
}

// Whether a fault is at a mark of UTF-16 with which the file begins.
fn is_at_wide_mark(line: &[u8], error: SourceError) -> bool
    ensures { result ≡ spec.is_at_wide_mark line.now error }
{
    error.line == 1
        && error.column == 1
        && (line.starts_with(LOW_FIRST) || line.starts_with(HIGH_FIRST))
}

// The note on a byte outside of texts, with which a text begins.
fn note_outside(text: &[u8], byte: u8) -> Option<Note>
    ensures { result ≡ spec.note_outside text.now byte }
{
    match byte {
        b'\t' => Some(Note::Tab),
        _ if is_curly_quote(text) => Some(Note::CurlyQuote),
        b'^' => Some(Note::Power),
        b'[' => Some(Note::Array),
        b'_' => Some(Note::LongName),
        _ => None,
    }
}

// Whether a text begins with a curly quote.
fn is_curly_quote(text: &[u8]) -> bool
    ensures { result ≡ spec.is_curly_quote text.now }
{
    match text {
        [first, second, third, ..] => {
            *first == 0xe2 && *second == 0x80 && 0x98 <= *third && *third <= 0x9f
        }
        _ => false,
    }
}

// The note on a place in or at a word that is left out, of a line in upper case.
fn note_on_left_out(line: &[u8], place: usize) -> Option<Note>
    ensures { result ≡ spec.note_on_left_out line.now place }
{
    if place < line.len() {
        note_on_word_left_out(word_at(line, place).letters)
    } else {
        None
    }
}

// The note on a word that is left out, or has such a word inside.
fn note_on_word_left_out(letters: &[u8]) -> Option<Note>
    ensures { result ≡ spec.note_on_word_left_out letters.now }
{
    match letters {
        b"USR" => Some(Note::MachineCode),
        b"LIST" | b"RUN" | b"CLEAR" => Some(Note::NoInterpreter),
        _ => note_on_near(near_word(letters)),
    }
}

fn note_on_near(near: Option<StatementWord>) -> Option<Note>
    ensures { result ≡ option_map (λ w. Near w) near }
{
    match near {
        Some(word) => Some(Note::Near(word)),
        None => None,
    }
}

// The note on a place of a line in upper case, from 0, at which no line of the language goes on like this.
fn note_on_syntax(alloc: Global, line: &[u8], place: usize) -> Result<Option<Note>, AllocError>
    ensures { IfOk result (λ note. note ≡ spec.note_on_syntax line.now place) }
{
    match note_on_place(line, place) {
        Some(note) => Ok(Some(note)),
        None => Ok(note_by_rules(&code_around(alloc, line, place)?)),
    }
}

// The note by what is at the place.
fn note_on_place(line: &[u8], place: usize) -> Option<Note>
    ensures { result ≡ spec.note_on_place line.now place (slice_get line.now place) }
{
    match line.get(place) {
        Some(byte) => note_at(line, place, *byte),
        None if is_open(line) => Some(Note::OpenText),
        None => None,
    }
}

// The note on a byte.
fn note_at(line: &[u8], place: usize, byte: u8) -> Option<Note>
    requires { place < length line.now }
    ensures { result ≡ spec.note_at line.now place byte }
{
    if byte == b'?' {
        Some(Note::QuestionMark)
    } else if byte == b'\'' {
        Some(Note::Apostrophe)
    } else if byte.is_ascii_digit() {
        note_on_number(&line[..place])
    } else if is_hexadecimal(&line[..place], &line[place..]) {
        Some(Note::Hexadecimal)
    } else if byte.is_ascii_uppercase() || byte == b'$' {
        note_on_word(&word_at(line, place))
    } else {
        None
    }
}

// Whether a number in hexadecimal is before and behind a place: `$` or `0x` and a digit.
fn is_hexadecimal(before: &[u8], behind: &[u8]) -> bool
    ensures { result ≡ spec.is_hexadecimal before.now behind.now }
{
    match behind {
        [b'$', digit, ..] => letters_at_end(before) == 0 && digit.is_ascii_hexdigit(),
        [b'X', digit, ..] => ends_with_zero(before) && digit.is_ascii_hexdigit(),
        _ => false,
    }
}

// Whether a text ends with the number 0.
fn ends_with_zero(text: &[u8]) -> bool
    ensures { result ≡ spec.ends_with_zero text.now }
{
    match text {
        [front @ .., last] => *last == b'0' && !ends_with_digit(front),
        [] => false,
    }
}

fn ends_with_digit(text: &[u8]) -> bool
    ensures { result ≡ spec.ends_with_digit text.now }
{
    match text {
        [.., last] => last.is_ascii_digit(),
        [] => false,
    }
}

// Whether a line has a text without its second quote.
fn is_open(line: &[u8]) -> bool
    ensures { result ≡ spec.is_open line.now }
{
    let mut is_open = false;
    for byte in line {
        if *byte == b'"' {
            is_open = !is_open;
        }
    }
    is_open
}

// The note on a number, by what is before it.
fn note_on_number(before: &[u8]) -> Option<Note>
    ensures { result ≡ spec.note_on_number before.now }
{
    if before_spaces(before).ends_with(THEN.as_bytes()) {
        Some(Note::ThenNumber)
    } else {
        None
    }
}

// A text without the spaces at its end.
fn before_spaces(text: &[u8]) -> &[u8]
    ensures { result.now ≡ spec.before_spaces text.now }
{
    match text {
        [front @ .., last] if *last == b' ' => before_spaces(front),
        _ => text,
    }
}

// A word of a line.
#[derive(Drop)]
struct Word<'a> {
    letters: &'a [u8],
    // The letters with the `$` that follows, if one does.
    whole: &'a [u8],
    // How many of the letters are before the place.
    before: usize,
    // Whether an `=` follows.
    is_assigned: bool,
}

// The word around a place of a line, from its first letter on.
fn word_at(line: &[u8], place: usize) -> Word<'_>
    requires { place < length line.now }
    ensures { spec.word_of result ≡ spec.word_at line.now place }
{
    let before = letters_at_end(&line[..place]);
    let word = &line[place - before..];
    let count = letters_at_front(word);
    let rest = &word[count..];
    let whole = if rest.starts_with(b"$") {
        count + 1
    } else {
        count
    };
    Word {
        letters: &word[..count],
        whole: &word[..whole],
        before,
        is_assigned: after_spaces(rest).starts_with(b"="),
    }
}

// A text without the spaces at its front.
fn after_spaces(text: &[u8]) -> &[u8]
    ensures { result.now ≡ spec.after_spaces text.now }
{
    match text {
        [first, rest @ ..] if *first == b' ' => after_spaces(rest),
        _ => text,
    }
}

// How many letters a text in upper case begins with.
fn letters_at_front(text: &[u8]) -> usize
    ensures value { result ≡ spec.letters_at_front text.now }
    ensures within { result ≤ length text.now }
{
    match text {
        [first, rest @ ..] if first.is_ascii_uppercase() => letters_at_front(rest) + 1,
        _ => 0,
    }
}

// How many letters a text in upper case ends with.
fn letters_at_end(text: &[u8]) -> usize
    ensures value { result ≡ spec.letters_at_end text.now }
    ensures within { result ≤ length text.now }
{
    match text {
        [front @ .., last] if last.is_ascii_uppercase() => letters_at_end(front) + 1,
        _ => 0,
    }
}

// The note on a word. Words of other BASICs are looked for before near ones.
fn note_on_word(word: &Word<'_>) -> Option<Note>
    ensures { result ≡ spec.note_on_word (spec.word_of word.now) }
{
    if let Some(foreign) = foreign_word(word.letters, word.whole) {
        return Some(Note::ForeignWord(foreign));
    }
    if word.letters.len() < word.whole.len() {
        return Some(Note::TextName);
    }
    if word.is_name() {
        return Some(Note::LongName);
    }
    // A word whose first letter was read as a name is not at the place of a statement.
    if word.before == 1 || word.letters.len() < 2 {
        return None;
    }
    note_on_slip(word.letters)
}

impl Word<'_> {
    // Whether it is at the place of a name: before `=`, or its first letter was read as a name.
    fn is_name(&self) -> bool
        ensures { result ≡ spec.is_name (spec.word_of self.now) }
    {
        if self.letters.len() == 2 {
            self.is_assigned || self.before == 1
        } else {
            2 < self.letters.len() && self.is_assigned
        }
    }
}

// The note on a word at the place of a statement.
fn note_on_slip(letters: &[u8]) -> Option<Note>
    ensures { result ≡ spec.note_on_slip letters.now }
{
    match note_on_near(near_word(letters)) {
        Some(note) => Some(note),
        None if letters.len() == 2 => Some(Note::LongName),
        None => None,
    }
}
