//! The whole program: arguments, input, calls, and answers.
use crate::errors::Failure;
use crate::session::answer_lines;
use arguments::Options;
use std::io::{BufWriter, Read, Write};
use std::process::ExitCode;
use std::{env, fs, io};

const HELP: &str = "usage: vcgen [--trace] [--records N] [--operands N] [--work N] [--help] [FILE]

Checks declarations of BoogiePL. The input, FILE or else standard input, has a call on each line, as
decimal numbers from 0 to 4294967295 with blanks between. Empty lines and lines that begin with # are skipped.

  1 kind name page...       Declare
  2                         Settle
  3 name page...            Begin (not available yet)
  4 name page... page...    Block (not available yet)
  5 0                       Finish (not available yet)
  6                         Write (not available yet)
  7                         Shut (not available yet)

  --trace       print a line for every call: 'C ok ANSWERS...' or 'C refused GROUND BLOCK ENTRY ITEM',
                where C is the call's number
  --records N   records of the term list that each Write gets (4194304)
  --operands N  operand places of that list (8388608)
  --work N      numbers of the work list that each Write gets (8388608)
                the three sizes are read and kept; they take effect once Write is available
  --help        print this text

A line that is no call, or that the book's state does not take, ends the program with a message on standard
error and status 1. A call that is refused does not.
";

/// Runs the program. A failure is reported on standard error, and the status is 1.
pub fn run(rt: HostRuntime) -> ExitCode {
    match answer_all(&rt) {
        Ok(()) => ExitCode::SUCCESS,
        Err(failure) => {
            // Where standard error takes nothing, the status alone has to say it.
            let _ = eprintln!(rt; "vcgen: {failure}");
            ExitCode::FAILURE
        }
    }
}

/// Does what the arguments ask for.
fn answer_all(rt: &HostRuntime) -> Result<(), Failure> {
    let arguments = env::args(rt).map_err(Failure::Input)?;
    let options = Options::parse(arguments)?;
    if options.help {
        return rt.print(HELP).map_err(Failure::Output);
    }
    let text = input_text(rt, options.file.as_deref())?;
    let mut out = BufWriter::new(rt.alloc(), rt.stdout()).map_err(Failure::Output)?;
    let answered = answer_lines(rt.alloc(), text.as_str(), options.trace, &mut out);
    // What was answered before an error stands.
    out.flush().map_err(Failure::Output)?;
    answered
}

/// The whole input as text. Bytes that are no text are replaced: in a comment they do no harm, and elsewhere
/// the line gets its error.
fn input_text(rt: &HostRuntime, file: Option<&str>) -> Result<String, Failure> {
    let read = match file {
        Some(path) => fs::read(rt, path),
        None => standard_input(rt),
    };
    let bytes = read.map_err(Failure::Input)?;
    Ok(String::from_utf8_lossy(rt.alloc(), bytes.as_slice())?)
}

/// All bytes of standard input.
fn standard_input(rt: &HostRuntime) -> io::Result<Vec<u8>> {
    let mut bytes = Vec::new(rt.alloc());
    rt.stdin().read_to_end(&mut bytes)?;
    Ok(bytes)
}
