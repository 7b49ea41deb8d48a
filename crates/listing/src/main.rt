// Prints the listing of the procedure file on standard input.
#![tactic(auto)]

ghost use Rattle.std.specs.Prelude.{length, OnOk};
ghost use Rattle.std.specs.Io.KnownBytes.{Appends};
ghost use Rattle.listing_text.specs.Listing.{listing};
ghost use Rattle.listing.specs.ReadInput.{Within, ReadsToEnd};
ghost use Rattle.listing.specs.ListInput.{Lists};

use std::io;
use std::io::{Read, Write};
use std::process::ExitCode;

// One byte more than a file may have: so much is read at most, enough to see that a file is too long.
const MOST: usize = 63146;

// Reads piece by piece until the input ends or the buffer is full. Answers how many bytes came.
fn read_input<R: Read>(from: &mut R, buffer: &mut [u8]) -> io::Result<usize>
    ensures within { Within result (length buffer.new) }
    ensures front { ReadsToEnd result (R.remaining from.old) (R.remaining from.new) buffer.new }
{
    let mut n = 0;
    while n < buffer.len() {
        match from.read(&mut buffer[n..])? {
            0 => return Ok(n),
            more => n += more,
        }
    }
    Ok(n)
}

// Prints the listing of a file.
fn print_listing<W: Write>(to: &mut W, file: &[u8]) -> io::Result<()>
    ensures { OnOk result (Appends (W.contents to.old) (W.contents to.new) (listing file.now)) }
{
    let mut out = [0u8; listing_text::LONGEST];
    let n = listing_text::list(file, &mut out);
    to.write_all(&out[..n])
}

// Why there is no listing.
#[derive(Drop)]
enum ListError {
    NotRead(io::Error),
    NotPrinted(io::Error),
}

// Prints the listing of all that the reader gives.
fn list_input<R: Read, W: Write>(from: &mut R, to: &mut W) -> Result<(), ListError>
    ensures { Lists result (R.remaining from.old) (W.contents to.old) (W.contents to.new) }
{
    let mut file = [0u8; MOST];
    let n = read_input(from, &mut file).map_err(ListError::NotRead)?;
    print_listing(to, &file[..n]).map_err(ListError::NotPrinted)
}

// Says on standard error what could not be read or written, and why.
fn give_up(rt: &impl Eprint, what: &str, error: io::Error) -> ExitCode {
    let _ = eprintln!(rt; "{what}: {error}");
    ExitCode::FAILURE
}

fn main(rt: HostRuntime) -> ExitCode {
    match list_input(&mut rt.stdin(), &mut rt.stdout()) {
        Ok(()) => ExitCode::SUCCESS,
        Err(ListError::NotRead(error)) => give_up(&rt, "standard input", error),
        Err(ListError::NotPrinted(error)) => give_up(&rt, "standard output", error),
    }
}
