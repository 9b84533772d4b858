// A plan: what the other forms are read by. `Outline` holds what is read from a table, and lends it as a `Plan`.
ghost use Rattle.std.specs.Prelude.{◌≡◌, ◌≤◌, ◌-◌, ◌++◌, length, take, drop, replicate};
ghost use Rattle.kinds.specs.declared.Kind.{Kind};
ghost use Rattle.history.specs.Table.{Plan as ThePlan};
ghost use Rattle.tables.specs.Outlines.{plan_as};

use kinds::Kind;
use std::marker::Model;

// The plan that other forms are read by: a catalogue's X and Y, and the kinds of at most 1,024 objects.
#[derive(Clone, Copy)]
pub struct Plan<'a> {
    pub x: u8,
    pub y: u8,
    pub kinds: &'a [Kind],
    ghost few: { length kinds.now ≤ 1024 },
}

// What is read from an accepted table: X, Y, and the kinds of its objects in the first `count` places. The places after
// them are all alike, so that the plan says all that is in it: only then can it be copied.
#[derive(Clone, Copy)]
pub struct Outline {
    x: u8,
    y: u8,
    count: usize,
    kinds: [Kind; 1024],
}

// Clauses see the plan.
impl Model for Outline {
    ghost Value = { ThePlan };

    ghost view = { λ o. record { x = o.x; y = o.y; kinds = take o.count o.kinds } };

    ghost invariant = { λ o. (o.count ≤ 1024) × (length o.kinds ≡ 1024)
        × (o.kinds ≡ take o.count o.kinds ++ replicate (1024 - o.count) Kind.Signal) };

    ghost inverse = { λ p. record {
      x = p.x;
      y = p.y;
      count = length p.kinds;
      kinds = p.kinds ++ replicate (1024 - length p.kinds) Kind.Signal;
    } };
}

// An outline of X, Y and the first `count` of the kinds, where those after them are all alike.
pub fn hold(x: u8, y: u8, count: usize, kinds: [Kind; 1024]) -> Outline
    requires count_few { count ≤ 1024 }
    requires rest_alike { drop count kinds ≡ replicate (1024 - count) Kind.Signal }
    ensures { result ≡ record { x = x; y = y; kinds = take count kinds } }
{
    Outline { x, y, count, kinds }
}

impl Outline {
    ghost use Rattle.tables.specs.Plans.{plan_in};

    // The plan, lent from here, so that the kinds aren't copied.
    pub fn plan(&self) -> Plan<'_>
        ensures { plan_in result ≡ self.now }
    {
        Plan {
            x: self.x,
            y: self.y,
            kinds: &self.kinds[..self.count],
        }
    }
}

impl Outline {
    // An outline of X, Y and the first `count` of the kinds.
    pub fn of_kinds(x: u8, y: u8, count: usize, kinds: [Kind; 1024]) -> Self
        requires { count ≤ 1024 }
        ensures { result ≡ record { x = x; y = y; kinds = take count kinds } }
    {
        let mut kinds = kinds;
        kinds[count..].fill(Kind::Signal);
        hold(x, y, count, kinds)
    }

    // An outline of X, Y and layout numbers, one for each object.
    pub fn of_numbers(x: u8, y: u8, numbers: &[u8]) -> Self
        requires { length numbers.now ≤ 1024 }
        ensures { result ≡ plan_as x y numbers.now }
    {
        let mut kinds = [Kind::Signal; 1024];
        for i in 0..numbers.len() {
            kinds[i] = elements::kind_numbered(numbers[i]);
        }
        Outline::of_kinds(x, y, numbers.len(), kinds)
    }
}
