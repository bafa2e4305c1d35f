//! The commands, and their table: the one place that says what each is called, how it helps and what it takes.
ghost use Rattle.std.specs.Prelude.{◌≡◌};
ghost use Rattle.tb_program_command_line.specs.Table.{AreNamed, NamesEach, command_of};

/// A command of `tbc`.
#[derive(Clone, Copy)]
pub enum CommandName {
    Build,
    Run,
    Play,
    Test,
    Asm,
    Assemble,
    Dis,
    Step,
    Debug,
    Profile,
    Page,
    Disk,
    Check,
    Format,
    Renumber,
    Lsp,
    Dap,
    Version,
}

/// What the command line says of a command.
pub struct CommandRow {
    pub command: CommandName,
    /// What it is called. No two commands share a name.
    pub name: &'static str,
    /// The line that helps.
    pub help: &'static str,
    /// How it is called, if its arguments don't say it all.
    pub usage: Option<&'static str>,
}

/// The rows of the commands, in the order of the help text.
pub fn rows() -> &'static [CommandRow]
    ensures each { NamesEach result.now }
    ensures named { AreNamed result.now }
{
    &COMMANDS
}

static COMMANDS: [CommandRow; 18] = [
    CommandRow {
        command: CommandName::Build,
        name: "build",
        help: "Compile a Tiny BASIC source to a PRG file",
        usage: None,
    },
    CommandRow {
        command: CommandName::Run,
        name: "run",
        help: "Run a source or a PRG file, and show what it sends",
        usage: Some("tbc run [OPTIONS] <SOURCE>\n       tbc run [OPTIONS] --prg <FILE>"),
    },
    CommandRow {
        command: CommandName::Play,
        name: "play",
        help: "Play a source or a PRG file: what you type is its keyboard",
        usage: Some("tbc play [OPTIONS] <SOURCE>\n       tbc play [OPTIONS] --prg <FILE>"),
    },
    CommandRow {
        command: CommandName::Test,
        name: "test",
        help: "Run transcripts, and show where a program sends something else",
        usage: None,
    },
    CommandRow {
        command: CommandName::Asm,
        name: "asm",
        help: "Assemble a text to a PRG file",
        usage: None,
    },
    CommandRow {
        command: CommandName::Assemble,
        name: "assemble",
        help: "Assemble a text as people write it, or show everything that is wrong with it",
        usage: None,
    },
    CommandRow {
        command: CommandName::Dis,
        name: "dis",
        help: "List a PRG file as assembler text",
        usage: None,
    },
    CommandRow {
        command: CommandName::Step,
        name: "step",
        help: "Step through a source or a PRG file by commands from standard input",
        usage: Some("tbc step [OPTIONS] <SOURCE>\n       tbc step [OPTIONS] --prg <FILE>"),
    },
    CommandRow {
        command: CommandName::Debug,
        name: "debug",
        help: "Debug a source or a PRG file forth and back by commands from standard input; h lists them",
        usage: Some("tbc debug [OPTIONS] <SOURCE>\n       tbc debug [OPTIONS] --prg <FILE>"),
    },
    CommandRow {
        command: CommandName::Profile,
        name: "profile",
        help: "Run a source or a PRG file, and show what each of its lines or instructions took",
        usage: Some("tbc profile [OPTIONS] <SOURCE>\n       tbc profile [OPTIONS] --prg <FILE>"),
    },
    CommandRow {
        command: CommandName::Page,
        name: "page",
        help: "Write a web page on which a source or a PRG file is played",
        usage: Some(
            "tbc page [OPTIONS] <SOURCE> [OUT]\n       tbc page [OPTIONS] --prg <FILE> [OUT]",
        ),
    },
    CommandRow {
        command: CommandName::Disk,
        name: "disk",
        help: "Make a disk image of PRG files",
        usage: Some("tbc disk <OUT> <FILE>...\n       tbc disk -o <OUT> <FILE>..."),
    },
    CommandRow {
        command: CommandName::Check,
        name: "check",
        help: "Show everything that is wrong with sources, and what helps",
        usage: None,
    },
    CommandRow {
        command: CommandName::Format,
        name: "format",
        help: "Write a source with tidy lines",
        usage: None,
    },
    CommandRow {
        command: CommandName::Renumber,
        name: "renumber",
        help: "Write a source with other line numbers",
        usage: None,
    },
    CommandRow {
        command: CommandName::Lsp,
        name: "lsp",
        help: "Serve an editor as its language server, over standard input and output",
        usage: None,
    },
    CommandRow {
        command: CommandName::Dap,
        name: "dap",
        help: "Serve an editor as its debug adapter, over standard input and output",
        usage: None,
    },
    CommandRow {
        command: CommandName::Version,
        name: "version",
        help: "Print version",
        usage: None,
    },
];

/// The command of this name, if one of these rows has it.
pub fn command_named(rows: &[CommandRow], name: &str) -> Option<CommandName>
    ensures { result ≡ command_of rows.now name.now }
{
    rows.iter()
        .find(|row| row.name == name)
        .map(|row| row.command)
}
