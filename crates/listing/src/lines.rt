// Writes the lines of the listing, with one space between the parts of a line and one newline after it.
ghost use Rattle.std.specs.Prelude.{◌+◌, ◌≤◌, length};
ghost use Rattle.text.specs.Decimal.{decimal};
ghost use Rattle.text.specs.Grew.{Grew};
ghost use Rattle.listing.specs.Listing.{first_line, object_line, refused_line};
ghost use Rattle.listing.specs.Walk.{Numbered, line_size};

use history::Answer;
use text::Page;

// Catalogue version, position, count.
pub fn put_first_line(page: &mut Page, x: u8, y: u8, position: u32, count: u32)
    requires { page.old.at + 44 ≤ length page.old.out.now }
    ensures { Grew page.old (first_line x y position count) page.new }
{
    put_number(page, x as u32, b'.');
    put_number(page, y as u32, b' ');
    put_number(page, position, b' ');
    put_number(page, count, b'\n');
}

// Number, type, label, element in hex.
pub fn put_object_line(page: &mut Page, number: u32, ty: u8, label: &[u8], element: &[u8])
    requires { page.old.at + line_size number ty label.now element.now ≤ length page.old.out.now }
    ensures { Grew page.old (object_line number ty label.now element.now) page.new }
{
    put_number(page, number, b' ');
    put_number(page, ty as u32, b' ');
    page.bytes(label);
    page.byte(b' ');
    page.hex(element);
    page.byte(b'\n');
}

// "refused", code, object, bit.
pub fn put_refusal(page: &mut Page, answer: Answer)
    requires { page.old.at + 41 ≤ length page.old.out.now }
    ensures { Grew page.old (refused_line answer.code answer.object answer.bit) page.new }
{
    page.bytes(b"refused ");
    put_number(page, answer.code as u32, b' ');
    put_number(page, answer.object as u32, b' ');
    put_number(page, answer.bit as u32, b'\n');
}

// Writes a number and the byte that follows it.
fn put_number(page: &mut Page, n: u32, mark: u8)
    requires { page.old.at + (length (decimal n) + 1) ≤ length page.old.out.now }
    ensures { Numbered page.old n mark page.new }
{
    page.decimal(n);
    page.byte(mark);
}
