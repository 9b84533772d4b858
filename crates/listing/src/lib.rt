// The floor of the listing: from a table followed by its image to their text in a lent buffer. It uses the checks of
// forms and the writers of text; it keeps nothing, and writes nothing but the text.
#![tactic(auto)]

mod both;
mod lines;

ghost use Rattle.std.specs.Prelude.{◌≤◌, length};
ghost use Rattle.history.specs.Verdict.{Leaves, Puts};
ghost use Rattle.listing.specs.Listing.{listing_call};
ghost use Rattle.listing.specs.Output.{ListedInto};

use both::put_panel;
use history::Answer;
use lines::put_refusal;
use tables::{put_front, refused};
use text::Page;

// The most bytes of input that are accepted; also the bytes that every listing fits in.
const MOST: usize = 65536;

// Writes the text of a table and its image to the front of `out`.
pub fn list_into(input: &[u8], out: &mut [u8]) -> Answer
    ensures { Leaves (listing_call input.now) out.old result out.new }
{
    list(input, out).into()
}

// For a short `out` the text is first made in a buffer that every listing fits in.
fn list(input: &[u8], out: &mut [u8]) -> Result<u32, Answer>
    ensures { Puts (listing_call input.now) out.old result out.new }
{
    if MOST <= out.len() {
        return put_listing(input, out);
    }
    let mut text = [0u8; MOST];
    let size = put_listing(input, &mut text)?;
    put_front(out, &text[..size as usize])
}

// Writes what the program prints to the front of `out`, the text or the line of its refusal, and returns its length. An
// `out` that not every listing fits in stays as it was, and the length is 0: its contract and the programs know no
// option here.
pub fn print_into(input: &[u8], out: &mut [u8]) -> usize
    ensures { ListedInto input.now out.old out.new result }
{
    if out.len() < MOST {
        return 0;
    }
    match put_listing(input, out) {
        Ok(size) => size as usize,
        Err(answer) => {
            let mut page = Page::new(out);
            put_refusal(&mut page, answer);
            page.len()
        }
    }
}

// Splits the input by the table's length, and lists the two parts.
fn put_listing(input: &[u8], out: &mut [u8]) -> Result<u32, Answer>
    requires { 65536 ≤ length out.old }
    ensures { Puts (listing_call input.now) out.old result out.new }
{
    let all = input.len();
    if MOST < all {
        return Err(refused(1));
    }
    if all < 4 {
        return Err(refused(1));
    }
    let size = 4 + octets::get_at(input, 0, 4) as usize;
    if all < size {
        return Err(refused(1));
    }
    put_panel(&input[..size], &input[size..], out)
}
