//! One run of the program: all input is read, and then listed.

ghost use Rattle.std.specs.Prelude.{◌≡◌, ◌≢◌, IfErr, IfSome, OnOk};
ghost use Rattle.rtp_listing.specs.Input.{IsInput, HasBadLine};
ghost use Rattle.rtp_listing.specs.Output.{IsOutputOf, IsBadLineOf, IsWantOf, IsBeginningOf, status_of, Prints};
ghost use Rattle.rtp_listing.specs.Stopping.{IsLeft};
ghost use Rattle.rtp_listing.specs.declared.program.RunEnd.TheVariants.{NoMemory};

use super::input::{InputError, read_input};
use super::printing::{print_all, write_text};
use std::alloc::{AllocError, Global};
use std::io::{ErrorKind, Read, Write};

/// How a run of the program ended.
#[derive(Clone, Copy, Debug, PartialEq, Eq)]
pub enum RunEnd {
    /// Every line was well-formed, and every datagram was listed.
    Done,
    /// Some line was neither a map line before all datagrams nor hexadecimal. The whole output is one
    /// line that gives the number of the first such line, from 1.
    BadLine,
    /// Memory was refused. The last line of the output is `want of memory`; the lines before it are
    /// the first ones of what would have been printed.
    NoMemory,
    /// A read or a write failed. After a failed read nothing is printed; before a failed write the
    /// output is a beginning of what would have been printed.
    Io,
}

impl RunEnd {
    /// The exit status of the program.
    pub fn status(self) -> u8
        ensures { result ≡ status_of self }
    {
        match self {
            RunEnd::Done => 0,
            RunEnd::Io => 1,
            RunEnd::BadLine => 2,
            RunEnd::NoMemory => 3,
        }
    }
}

impl From<AllocError> for RunEnd {
    ghost from_gives = { λ _ end. end ≡ NoMemory };

    fn from(_: AllocError) -> Self {
        RunEnd::NoMemory
    }
}

// Prints the lines of all datagrams of the text, or the line that names its first bad line.
fn list_text<W: Write>(alloc: Global, text: &[u8], output: &mut W) -> Result<(), RunEnd>
    ensures ok { OnOk result
        (Prints (W.contents output.old) (W.contents output.new) (IsOutputOf text.now)) }
    ensures err { IfErr result (λ end.
        Prints (W.contents output.old) (W.contents output.new) (IsLeft text.now end)) }
{
    match read_input(alloc, text) {
        Ok(input) => print_all(alloc, &input, output),
        Err(InputError::NoMemory) => Err(RunEnd::NoMemory),
        Err(InputError::BadLine(number)) => {
            let line = format!(in alloc; "line {number}: neither a map line nor hex\n")?;
            write_text(output, line.as_bytes())?;
            Err(RunEnd::BadLine)
        }
    }
}

// Reads all input, and prints what is due for it, except for `want of memory`.
fn list_input<R: Read, W: Write>(alloc: Global, input: &mut R, output: &mut W) -> Result<(), RunEnd>
    ensures ok { OnOk result (IfSome (R.remaining input.old) (λ text.
        Prints (W.contents output.old) (W.contents output.new) (IsOutputOf text))) }
    ensures err { IfErr result (λ end. IfSome (R.remaining input.old) (λ text.
        Prints (W.contents output.old) (W.contents output.new) (IsLeft text end))) }
{
    let mut text = Vec::new(alloc);
    if let Err(error) = input.read_to_end(&mut text) {
        return Err(match error.kind() {
            ErrorKind::OutOfMemory => RunEnd::NoMemory,
            _ => RunEnd::Io,
        });
    }
    list_text(alloc, &text, output)
}

/// Reads all input, and prints two lines for each datagram in order: its RTP header with the values
/// of its extensions, or that it has none, and the verdict of the receiver of its SSRC.
///
/// A line of the input ends with LF or CR LF; the last one may end without either. A line is a
/// datagram in hexadecimal of either case, and an empty line is an empty datagram. Before all
/// datagrams there may be lines `map ID URI`, which map an id of 1 to 255, in one to three digits,
/// to the extension with this URI; the last line for an id counts. Without such lines the standard
/// map is used.
///
/// For example `8021B798000027100000002C` prints
///
/// ```text
/// packet 1: pt 33 seq 47000 ts 10000 ssrc 44 marker no padding no extension no csrc 0 header 12
/// verdict 1: taken 47000
/// ```
pub fn run<R: Read, W: Write>(alloc: Global, input: &mut R, output: &mut W) -> RunEnd
    // Where it is known what the reader gives and what the writer holds.
    ensures done { result ≡ RunEnd.Done → IfSome (R.remaining input.old) (λ text.
        Prints (W.contents output.old) (W.contents output.new) (IsOutputOf text)) }
    ensures bad_line { result ≡ RunEnd.BadLine → IfSome (R.remaining input.old) (λ text.
        Prints (W.contents output.old) (W.contents output.new) (IsBadLineOf text)) }
    ensures no_memory { result ≡ RunEnd.NoMemory → IfSome (R.remaining input.old) (λ text.
        Prints (W.contents output.old) (W.contents output.new) (IsWantOf text)) }
    ensures io { result ≡ RunEnd.Io → IfSome (R.remaining input.old) (λ text.
        Prints (W.contents output.old) (W.contents output.new) (IsBeginningOf text)) }

    // Whether some line is bad decides between the first two.
    ensures taken { IfSome (R.remaining input.old) (λ text.
        IsInput text → result ≢ RunEnd.BadLine) }
    ensures refused { IfSome (R.remaining input.old) (λ text.
        HasBadLine text → result ≢ RunEnd.Done) }
{
    let Err(end) = list_input(alloc, input, output) else {
        return RunEnd::Done;
    };
    match end {
        RunEnd::NoMemory => match write_text(output, b"want of memory\n") {
            Ok(()) => RunEnd::NoMemory,
            Err(failed) => failed,
        },
        _ => end,
    }
}
