// A table and its image as text: both are checked, then walked once, object by object.
ghost use Rattle.std.specs.Prelude.{◌≡◌, ◌+◌, ◌≤◌, ◌<◌, length, get_or};
ghost use Rattle.history.specs.Verdict.{Puts};
ghost use Rattle.tables.specs.Plans.{plan_in};
ghost use Rattle.text.specs.Grew.{Grew};
ghost use Rattle.listing.specs.Listing.{read_both, text_of};
ghost use Rattle.listing.specs.Walk.{Ready, lines_in};

use super::lines::{put_first_line, put_object_line};
use forms::check_image_under;
use heads::{elements_of, objects_place, position_of};
use history::Answer;
use tables::{Plan, outline};
use text::Page;

// Writes the lines of both, or returns the first refusal.
#[tactic(auto, using(crate::proofs::PanelLaws::refusals))]
pub fn put_panel(table: &[u8], image: &[u8], out: &mut [u8]) -> Result<u32, Answer>
    requires { 65536 ≤ length out.old }
    ensures { Puts (text_of (read_both table.now image.now))
        out.old result out.new }
{
    let outline = outline(table)?;
    let plan = outline.plan();
    check_image_under(plan, image)?;
    Ok(put_accepted(table, image, plan, out))
}

// Writes the first line, then a line for each object, and returns their length.
fn put_accepted(table: &[u8], image: &[u8], plan: Plan<'_>, out: &mut [u8]) -> u32
    requires ready { Ready table.now image.now (plan_in plan) }
    requires in_bounds { 65536 ≤ length out.old }
    ensures { Puts (text_of (read_both table.now image.now))
        out.old (Ok result) out.new }
{
    let position = position_of(image);
    let mut page = Page::new(out);
    put_first_line(&mut page, plan.x, plan.y, position, plan.kinds.len() as u32);
    put_objects(table, image, plan, &mut page);
    page.len() as u32
}

// Writes a line for each object: `entry` moves along the table's entries, `place` along the image's elements.
fn put_objects(table: &[u8], image: &[u8], plan: Plan<'_>, page: &mut Page)
    requires ready { Ready table.now image.now (plan_in plan) }
    requires image_in_bounds { page.old.at + length (lines_in (read_both table.now image.now))
        ≤ length page.old.out.now }
    ensures { Grew page.old (lines_in (read_both table.now image.now)) page.new }
{
    let elements = elements_of(image);
    let mut entry = objects_place();
    let mut place = 0;
    for (i, kind) in plan.kinds.iter().enumerate() {
        let label = entry + 2;
        let next = label_end(table, entry);
        let end = place + elements::width(*kind);
        put_object_line(
            page,
            i as u32,
            table[entry],
            &table[label..next],
            &elements[place..end],
        );
        entry = next;
        place = end;
    }
}

// Where an entry and its label end: the label follows the entry's two bytes.
fn label_end(table: &[u8], entry: usize) -> usize
    requires { entry + 2 + get_or table.now (entry + 1) 0 ≤ length table.now }
    ensures { result ≡ entry + 2 + get_or table.now (entry + 1) 0 }
{
    entry + 2 + table[entry + 1] as usize
}
