//! The calls: what the numbers of a line ask of the library.
ghost use Rattle.std.specs.Prelude.{◌≡◌, ◌≤◌, length, take, drop};
ghost use Rattle.lines.specs.Calls.{begin_of, block_of, call_of, command_end, declare_of, finish_of, kind_of, kind_of_call, line_of, name_of, number_of, only, called};
ghost use Rattle.lines.specs.Lines.{shown, the_error};
ghost use Rattle.std.specs.Result.{result_map_both};

use crate::errors::LineError;
use std::fmt;

/// The calls of the library, by their numbers.
#[derive(Clone, Copy, Debug, PartialEq, Eq)]
pub enum CallKind {
    Declare = 1,
    Settle = 2,
    Begin = 3,
    Block = 4,
    Finish = 5,
    Write = 6,
    Shut = 7,
}

/// A call with its arguments. The pages are parts of the line's numbers.
// Plain numbers, as the library's calls take them.
#[derive(Clone, Copy, Debug, PartialEq, Eq)]
pub enum Call<'a> {
    Declare {
        kind: u32,
        name: u32,
        page: &'a [u32],
    },
    Settle,
    Begin {
        name: u32,
        page: &'a [u32],
    },
    Block {
        name: u32,
        commands: &'a [u32],
        targets: &'a [u32],
    },
    Finish,
    Write,
    Shut,
}

/// The call of a number.
impl TryFrom<u32> for CallKind {
    type Error = LineError;

    ghost try_from_gives = { λ n r. r ≡ called n };

    fn try_from(number: u32) -> Result<CallKind, LineError> {
        match number {
            1 => Ok(CallKind::Declare),
            2 => Ok(CallKind::Settle),
            3 => Ok(CallKind::Begin),
            4 => Ok(CallKind::Block),
            5 => Ok(CallKind::Finish),
            6 => Ok(CallKind::Write),
            7 => Ok(CallKind::Shut),
            _ => Err(LineError::UnknownCall { number }),
        }
    }
}

/// The number of a call.
impl From<CallKind> for u32 {
    ghost from_gives = { λ k n. n ≡ number_of k };

    fn from(kind: CallKind) -> u32 {
        kind as u32
    }
}

impl CallKind {
    /// The name of this call, for messages.
    // By itself and not in `Display`: a text with a contract, which longer messages quote.
    pub fn name(self) -> &'static str
        ensures { result.now ≡ name_of self }
    {
        match self {
            CallKind::Declare => "Declare",
            CallKind::Settle => "Settle",
            CallKind::Begin => "Begin",
            CallKind::Block => "Block",
            CallKind::Finish => "Finish",
            CallKind::Write => "Write",
            CallKind::Shut => "Shut",
        }
    }
}

impl Call<'_> {
    /// Which call it is.
    pub fn kind(&self) -> CallKind
        ensures { result ≡ kind_of_call (shown self.now) }
    {
        match self {
            Call::Declare { .. } => CallKind::Declare,
            Call::Settle => CallKind::Settle,
            Call::Begin { .. } => CallKind::Begin,
            Call::Block { .. } => CallKind::Block,
            Call::Finish => CallKind::Finish,
            Call::Write => CallKind::Write,
            Call::Shut => CallKind::Shut,
        }
    }
}

impl fmt::Display for CallKind {
    fn fmt<W: fmt::Write>(&self, f: &mut fmt::Formatter<W>) -> fmt::Result {
        write!(f, "call {} ({})", u32::from(*self), self.name())
    }
}

/// The call that the numbers of a line make.
pub fn parse_call(numbers: &[u32]) -> Result<Call<'_>, LineError>
    ensures { result_map_both shown the_error result ≡ line_of numbers.now }
{
    let [number, rest @ ..] = numbers else {
        return Err(LineError::NoCall);
    };
    call_of_kind(CallKind::try_from(*number)?, rest)
}

/// The call of this kind with these arguments.
fn call_of_kind(kind: CallKind, arguments: &[u32]) -> Result<Call<'_>, LineError>
    ensures { result_map_both shown the_error result ≡ call_of kind arguments.now }
{
    match kind {
        CallKind::Declare => declare_call(arguments),
        CallKind::Settle => bare_call(Call::Settle, arguments),
        CallKind::Begin => begin_call(arguments),
        CallKind::Block => block_call(arguments),
        CallKind::Finish => finish_call(arguments),
        CallKind::Write => bare_call(Call::Write, arguments),
        CallKind::Shut => bare_call(Call::Shut, arguments),
    }
}

/// Declare: a kind, a name, and the page, which is the rest of the line.
// A function for each call that has arguments, since each takes other numbers from the front of the line.
fn declare_call(arguments: &[u32]) -> Result<Call<'_>, LineError>
    ensures { result_map_both shown the_error result ≡ declare_of arguments.now }
{
    let [kind, name, page @ ..] = arguments else {
        return Err(LineError::MissingArguments {
            call: CallKind::Declare,
        });
    };
    Ok(Call::Declare {
        kind: *kind,
        name: *name,
        page,
    })
}

/// Begin: a name, and the page, which is the rest of the line.
fn begin_call(arguments: &[u32]) -> Result<Call<'_>, LineError>
    ensures { result_map_both shown the_error result ≡ begin_of arguments.now }
{
    let [name, page @ ..] = arguments else {
        return Err(LineError::MissingArguments {
            call: CallKind::Begin,
        });
    };
    Ok(Call::Begin { name: *name, page })
}

/// Block: a name, the command page, and the target page.
fn block_call(arguments: &[u32]) -> Result<Call<'_>, LineError>
    ensures { result_map_both shown the_error result ≡ block_of arguments.now }
{
    let [name, pages @ ..] = arguments else {
        return Err(LineError::MissingArguments {
            call: CallKind::Block,
        });
    };
    let (commands, targets) = split_pages(pages);
    Ok(Call::Block {
        name: *name,
        commands,
        targets,
    })
}

/// Finish: the number 0, and nothing else.
fn finish_call(arguments: &[u32]) -> Result<Call<'_>, LineError>
    ensures { result_map_both shown the_error result ≡ finish_of arguments.now }
{
    let call = CallKind::Finish;
    match arguments {
        [] => Err(LineError::MissingArguments { call }),
        [0] => Ok(Call::Finish),
        [_] => Err(LineError::NotZero { call }),
        _ => Err(LineError::SurplusArguments { call }),
    }
}

/// A call that takes no arguments.
fn bare_call<'a>(call: Call<'a>, arguments: &[u32]) -> Result<Call<'a>, LineError>
    ensures { result_map_both shown the_error result ≡ only (kind_of_call (shown call.entry)) (shown call.entry) arguments.now }
{
    if arguments.is_empty() {
        Ok(call)
    } else {
        Err(LineError::SurplusArguments { call: call.kind() })
    }
}

/// The command page and the target page that stand one behind the other.
/// Where the numbers are too few for the command page that its own sizes announce, all of them are
/// the command page and the target page is empty.
pub fn split_pages(pages: &[u32]) -> (&[u32], &[u32])
    ensures commands { result.0.now ≡ take (command_end pages.now) pages.now }
    ensures targets { result.1.now ≡ drop (command_end pages.now) pages.now }
{
    pages.split_at(command_end(pages))
}

/// How many numbers the command page has: 2 + 2 × (a + b), by its sizes a and b, and at most all.
fn command_end(pages: &[u32]) -> usize
    ensures is { result ≡ command_end pages.now }
    ensures within { result ≤ length pages.now }
{
    match pages {
        [a, b, ..] => {
            let announced = 2 + 2 * (*a as usize + *b as usize);
            announced.min(pages.len())
        }
        _ => pages.len(),
    }
}
