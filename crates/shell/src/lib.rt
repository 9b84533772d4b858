// The listing between a reader and a writer: what is read from one is listed to the other. It reads one byte more than
// a listing accepts, so that a longer input is noticed.
#![tactic(auto)]

ghost use Rattle.std.specs.Prelude.{◌≡◌, ◌≤◌, length, take, IfOk, IfSome, OnOk, OnErr};
ghost use Rattle.std.specs.Io.{ReadsAtMost};
ghost use Rattle.std.specs.Io.KnownBytes.{Appends};
ghost use Rattle.listing.specs.Listing.{listing_of};
ghost use Rattle.shell.specs.Partly.{Extends, LosesFront};

use std::io;
use std::io::{ErrorKind, Read, Write};

// Where it is known what the reader has and what the writer holds, the writer then holds the listing of all of it.
// After an error the writer holds what it held, and maybe some bytes behind it.
pub fn list_between<R: Read, W: Write>(input: &mut R, output: &mut W) -> io::Result<()>
    ensures ok { OnOk result (IfSome (R.remaining input.old)
        (λ all. Appends (W.contents output.old) (W.contents output.new) (listing_of all))) }
    ensures err { OnErr result (Extends (W.contents output.old) (W.contents output.new)) }
    ensures err_input { OnErr result (LosesFront (R.remaining input.old) (R.remaining input.new)) }
{
    let mut given = [0u8; 65537];
    let mut text = [0u8; 65536];
    list_through(input, output, &mut given, &mut text)
}

// The listing, by a buffer for the input and one for the text.
fn list_through<R: Read, W: Write>(
    input: &mut R,
    output: &mut W,
    given: &mut [u8],
    text: &mut [u8],
) -> io::Result<()>
    requires input_room { length given.old ≡ 65537 }
    requires text_room { 65536 ≤ length text.old }
    ensures ok { OnOk result (IfSome (R.remaining input.old)
        (λ all. Appends (W.contents output.old) (W.contents output.new) (listing_of all))) }
    ensures err { OnErr result (Extends (W.contents output.old) (W.contents output.new)) }
    ensures err_input { OnErr result (LosesFront (R.remaining input.old) (R.remaining input.new)) }
{
    let n = read_full(input, given)?;
    let m = listing::print_into(&given[..n], text);
    write_whole(output, &text[..m])
}

// Writes all the bytes, as `write_all` of std does; it also says what an error leaves. A write that was interrupted is
// tried again, and one that takes no byte is an error.
pub fn write_whole<W: Write>(to: &mut W, bytes: &[u8]) -> io::Result<()>
    ensures ok { OnOk result (Appends (W.contents to.old) (W.contents to.new) bytes.now) }
    ensures err { OnErr result (Extends (W.contents to.old) (W.contents to.new)) }
{
    let mut done = 0;
    for _turn in 0..u64::MAX {
        if bytes.len() <= done {
            return Ok(());
        }
        match to.write(&bytes[done..]) {
            Ok(0) => {
                return Err(io::Error::new(ErrorKind::WriteZero, "failed to write whole buffer"));
            }
            Ok(n) => done += n,
            Err(e) => {
                if e.kind() != ErrorKind::Interrupted {
                    return Err(e);
                }
            }
        }
    }
    Err(io::Error::new(ErrorKind::TimedOut, "gave up writing after 2^64 tries"))
}

// Reads until the buffer is full or the input ends; returns how many bytes were read.
pub fn read_full<R: Read>(input: &mut R, buffer: &mut [u8]) -> io::Result<usize>
    ensures bound { ReadsAtMost result buffer.new }
    ensures bytes { IfOk result (λ n. IfSome (R.remaining input.old)
        (λ all. take n buffer.new ≡ take (length buffer.old) all)) }
    ensures loses { LosesFront (R.remaining input.old) (R.remaining input.new) }
{
    let mut done = 0;
    // A turn reads any number of bytes, so no `for` is plainer.
    while done < buffer.len() {
        let n = input.read(&mut buffer[done..])?;
        if n == 0 {
            return Ok(done);
        }
        done += n;
    }
    Ok(done)
}
