//! The arguments of the program: `[--trace] [--records N] [--operands N] [--work N] [--help] [FILE]`, in any order.
#![tactic(auto)]

ghost use Rattle.arguments.specs.Sizes.{sizes_with};
ghost use Rattle.std.specs.Prelude.{◌≡◌};

use lines::words::parse_word;
use std::env::Args;
use std::fmt;
use thiserror::Error;

/// The lists whose sizes the arguments set.
#[derive(Clone, Copy, Debug, PartialEq, Eq)]
pub enum SizeOption {
    Records,
    Operands,
    Work,
}

/// The sizes of the lists that each Write gets. The library has no Write yet, so they are only kept.
#[derive(Clone, Copy, Debug, PartialEq, Eq)]
pub struct Sizes {
    pub records: u32,
    pub operands: u32,
    pub work: u32,
}

/// What the arguments ask for.
#[derive(Debug, Drop)]
pub struct Options {
    /// Print a line for every call.
    pub trace: bool,
    /// Print the usage text, and nothing else.
    pub help: bool,
    pub sizes: Sizes,
    /// The file that the calls are read from; without one it is standard input.
    pub file: Option<String>,
}

/// Why the arguments are not those of the program.
#[derive(Debug, Drop, Error)]
pub enum ArgumentError {
    #[error("unknown option {0}")]
    UnknownOption(String),
    #[error("{0}: missing number")]
    MissingSize(SizeOption),
    #[error("{0}: not a number from 0 to 4294967295")]
    BadSize(SizeOption),
    #[error("a second file {0}")]
    SecondFile(String),
}

/// What an argument is, where it is not the number of a size.
#[derive(Clone, Copy)]
enum Argument {
    Trace,
    Help,
    Size(SizeOption),
    UnknownOption,
    File,
}

impl Sizes {
    /// The sizes where no argument sets them.
    pub const USUAL: Sizes = Sizes {
        records: 4_194_304,
        operands: 8_388_608,
        work: 8_388_608,
    };

    /// These sizes, with another number for one of them.
    pub fn with(self, size: SizeOption, number: u32) -> Sizes
        ensures { result ≡ sizes_with size number self }
    {
        match size {
            SizeOption::Records => Sizes {
                records: number,
                ..self
            },
            SizeOption::Operands => Sizes {
                operands: number,
                ..self
            },
            SizeOption::Work => Sizes {
                work: number,
                ..self
            },
        }
    }
}

impl Options {
    /// What the program's arguments ask for.
    pub fn parse(mut arguments: Args) -> Result<Options, ArgumentError> {
        let mut options = Options {
            trace: false,
            help: false,
            sizes: Sizes::USUAL,
            file: None,
        };
        // The program's own name.
        arguments.next();
        // A `while let` and no `for`, since an option takes its number from the same iterator.
        while let Some(argument) = arguments.next() {
            match Argument::from(argument.as_str()) {
                Argument::Trace => options.trace = true,
                Argument::Help => options.help = true,
                Argument::Size(size) => {
                    let number = size_number(size, arguments.next())?;
                    options.sizes = options.sizes.with(size, number);
                }
                Argument::UnknownOption => return Err(ArgumentError::UnknownOption(argument)),
                Argument::File => options.set_file(argument)?,
            }
        }
        Ok(options)
    }

    /// Sets the file, of which there is at most one.
    fn set_file(&mut self, file: String) -> Result<(), ArgumentError> {
        if self.file.is_some() {
            return Err(ArgumentError::SecondFile(file));
        }
        self.file = Some(file);
        Ok(())
    }
}

/// The number of a size, which is the argument behind its option.
fn size_number(size: SizeOption, argument: Option<String>) -> Result<u32, ArgumentError> {
    let text = argument.ok_or(ArgumentError::MissingSize(size))?;
    parse_word(text.as_str().as_bytes()).map_err(|_| ArgumentError::BadSize(size))
}

impl From<&str> for Argument {
    fn from(text: &str) -> Argument {
        match text {
            "--trace" => Argument::Trace,
            "--help" => Argument::Help,
            "--records" => Argument::Size(SizeOption::Records),
            "--operands" => Argument::Size(SizeOption::Operands),
            "--work" => Argument::Size(SizeOption::Work),
            _ if text.starts_with('-') => Argument::UnknownOption,
            _ => Argument::File,
        }
    }
}

impl fmt::Display for SizeOption {
    fn fmt<W: fmt::Write>(&self, f: &mut fmt::Formatter<W>) -> fmt::Result {
        f.write_str(match self {
            SizeOption::Records => "--records",
            SizeOption::Operands => "--operands",
            SizeOption::Work => "--work",
        })
    }
}
