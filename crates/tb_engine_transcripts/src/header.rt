//! The header of a transcript.
ghost use Rattle.std.specs.Prelude.{◌≡◌, ◌≤◌, ◌+◌, length, IfOk};
ghost use Rattle.tb_basic_text.specs.Lines.{lines_of_file};
ghost use Rattle.tb_engine_transcripts.specs.Header as spec;
ghost use Rattle.tb_engine_transcripts.specs.Header.{Begins};

use crate::marks::{OPTION, behind};
use crate::options::{Asked, asked_by};
use crate::reasons::{BadLine, Reason};
use crate::transcript::{RunEnd, RunOptions};
use tb_basic_text::next_line;

/// What the lines of a header ask for.
#[derive(Clone, Copy, Drop)]
pub struct Header {
    pub options: RunOptions,
    pub end: Option<RunEnd>,
}

/// A header, and the text below it with the number of its first line.
#[derive(Clone, Copy, Drop)]
pub struct Begun<'a> {
    pub header: Header,
    pub number: usize,
    pub rest: &'a [u8],
}

/// Nothing is asked for.
const NOTHING: Header = Header {
    options: RunOptions {
        seed: None,
        fits: false,
        signs: false,
        limit: None,
        rude: None,
    },
    end: None,
};

impl Header {
    // With other options.
    fn with_options(self, options: RunOptions) -> Header
        ensures { result ≡ spec.with_options self options }
    {
        Header { options, ..self }
    }

    // With what a line asks for. `None` if it is there.
    fn with_asked(self, asked: Asked) -> Option<Header>
        ensures { result ≡ spec.with_asked self asked }
    {
        let options = self.options;
        match asked {
            Asked::Seed(seed) if options.seed.is_none() => Some(self.with_options(RunOptions {
                seed: Some(seed),
                ..options
            })),
            Asked::Fit if !options.fits => Some(self.with_options(RunOptions {
                fits: true,
                ..options
            })),
            Asked::Petscii if !options.signs => Some(self.with_options(RunOptions {
                signs: true,
                ..options
            })),
            Asked::Limit(limit) if options.limit.is_none() => {
                Some(self.with_options(RunOptions {
                    limit: Some(limit),
                    ..options
                }))
            }
            Asked::Rude(rude) if options.rude.is_none() => Some(self.with_options(RunOptions {
                rude: Some(rude),
                ..options
            })),
            Asked::End(end) if self.end.is_none() => Some(Header {
                end: Some(end),
                ..self
            }),
            _ => None,
        }
    }

    // With what the text of an option or an end asks for.
    fn with_line(self, text: &[u8]) -> Result<Header, Reason>
        ensures { result ≡ spec.with_line self text.now }
    {
        match asked_by(text) {
            Ok(asked) => self.with_asked(asked).ok_or(Reason::Twice),
            Err(why) => Err(why),
        }
    }
}

/// The header of a text, up to the first line that is none of it.
pub fn read_header(text: &[u8]) -> Result<Begun<'_>, BadLine>
    ensures value { Begins (spec.header 1 spec.nothing (lines_of_file text.now)) result }
    ensures few { IfOk result (λ begun. begun.number + length begun.rest.now ≤ length text.now + 1) }
{
    let mut header = NOTHING;
    let mut number = 1;
    let mut rest = text;
    while let Some((line, below)) = next_line(rest) {
        let Some(asked) = behind(OPTION, line) else {
            return Ok(Begun {
                header,
                number,
                rest,
            });
        };
        match header.with_line(asked) {
            Ok(more) => header = more,
            Err(why) => return Err(BadLine { line: number, why }),
        }
        number += 1;
        rest = below;
    }
    Ok(Begun {
        header,
        number,
        rest,
    })
}
