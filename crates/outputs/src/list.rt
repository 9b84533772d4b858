// A list at the front of the output: its head, then its entries.
ghost use Rattle.std.specs.Prelude.{◌≤◌, length};
ghost use Rattle.history.specs.Verdict.{done, Puts};
ghost use Rattle.walks.specs.Walks.{Asked, Measured};
ghost use Rattle.outputs.specs.Outputs.{walk_list};

use history::Answer;
use steps::Walk;
use tables::{Plan, short};
use walks::Size;

// Writes the list of a walk's changes; the caller has measured it.
pub fn write_list(
    walk: Walk,
    plan: Plan<'_>,
    from: u32,
    to: u32,
    first: &[u8],
    second: &[u8],
    size: Size,
    out: &mut [u8],
) -> Result<u32, Answer>
    requires asked { Asked walk plan.kinds.now first.now second.now }
    requires measured { Measured walk plan.kinds.now first.now second.now size.count size.bytes }
    ensures { Puts (done (walk_list walk plan.entry.x plan.entry.y plan.entry.kinds.now from to first.now second.now))
        out.old result out.new }
{
    let count = size.count as u32;
    let bytes = size.bytes;
    let place = heads::entries_place();
    let need = place + bytes;
    if out.len() < need {
        return Err(short(need as u32));
    }
    heads::put_list_head(
        &mut out[0..place],
        plan.x,
        plan.y,
        from,
        to,
        count,
        bytes as u32,
    );
    walks::put_changes(&mut out[place..need], walk, plan, first, second);
    Ok(need as u32)
}
