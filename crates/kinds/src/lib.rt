// The floor of kinds: the kinds of element, one for each layout, the state of any kind, and every function that has an
// arm for each kind. Written by catalogue/write.py from catalogue/fields.tsv, where a layout is added. It refuses
// nothing. The floors above read what they need of a kind from its layout.
#![tactic(auto)]

ghost use Rattle.std.specs.Prelude.{◌≡◌, ◌+◌, ◌≤◌, T, length};
ghost use Rattle.rows.specs.Values.{padded};
ghost use Rattle.rows.specs.Marks.{marked, Shows};
ghost use Rattle.kinds.specs.Kinds.{layout_of, width_of, rows_of, find_by_number, kind_in, element_of, element_values};
ghost use Rattle.kinds.specs.Glances.{Glanced};

use rows::{Layout, Marks};
use states::{
    ChangerSignal, ControlBoundary, CrossingTrackCircuit, DualDetection, ElectricLock,
    GeneralNotices, LineTrackCircuit, Points, PointsTrackCircuit, Signal, SignalV3, VirtualBoard,
};

// The kinds of element that are carried.
#[derive(Clone, Copy, PartialEq, Eq)]
pub enum Kind {
    Signal,
    ChangerSignal,
    VirtualBoard,
    LineTrackCircuit,
    PointsTrackCircuit,
    CrossingTrackCircuit,
    DualDetection,
    Points,
    ElectricLock,
    GeneralNotices,
    ControlBoundary,
    SignalV3,
}

// A state of any kind.
#[derive(Clone, Copy)]
pub enum Element {
    Signal(Signal),
    ChangerSignal(ChangerSignal),
    VirtualBoard(VirtualBoard),
    LineTrackCircuit(LineTrackCircuit),
    PointsTrackCircuit(PointsTrackCircuit),
    CrossingTrackCircuit(CrossingTrackCircuit),
    DualDetection(DualDetection),
    Points(Points),
    ElectricLock(ElectricLock),
    GeneralNotices(GeneralNotices),
    ControlBoundary(ControlBoundary),
    SignalV3(SignalV3),
}

// What a glance at an element gives: its number, and whether each field is shown to have a listed value.
#[derive(Clone, Copy)]
pub struct Glance {
    pub word: u32,
    pub listed: bool,
}

// A kind's layout: which rows are its own, its width, and whether it has DAT.
#[tactic(auto, unfolding(rows::specs::Rows::layouts))]
pub fn layout(kind: Kind) -> Layout
    ensures { result ≡ layout_of kind }
{
    match kind {
        Kind::Signal => Layout {
            number: 1,
            first: 0,
            count: 24,
            bytes: Signal::WIDTH,
            dat: true,
        },
        Kind::ChangerSignal => Layout {
            number: 2,
            first: 24,
            count: 3,
            bytes: ChangerSignal::WIDTH,
            dat: true,
        },
        Kind::VirtualBoard => Layout {
            number: 3,
            first: 27,
            count: 4,
            bytes: VirtualBoard::WIDTH,
            dat: true,
        },
        Kind::LineTrackCircuit => Layout {
            number: 4,
            first: 31,
            count: 11,
            bytes: LineTrackCircuit::WIDTH,
            dat: true,
        },
        Kind::PointsTrackCircuit => Layout {
            number: 5,
            first: 42,
            count: 11,
            bytes: PointsTrackCircuit::WIDTH,
            dat: true,
        },
        Kind::CrossingTrackCircuit => Layout {
            number: 6,
            first: 53,
            count: 12,
            bytes: CrossingTrackCircuit::WIDTH,
            dat: true,
        },
        Kind::DualDetection => Layout {
            number: 7,
            first: 65,
            count: 7,
            bytes: DualDetection::WIDTH,
            dat: true,
        },
        Kind::Points => Layout {
            number: 8,
            first: 72,
            count: 13,
            bytes: Points::WIDTH,
            dat: true,
        },
        Kind::ElectricLock => Layout {
            number: 9,
            first: 85,
            count: 5,
            bytes: ElectricLock::WIDTH,
            dat: true,
        },
        Kind::GeneralNotices => Layout {
            number: 22,
            first: 90,
            count: 8,
            bytes: GeneralNotices::WIDTH,
            dat: false,
        },
        Kind::ControlBoundary => Layout {
            number: 23,
            first: 98,
            count: 9,
            bytes: ControlBoundary::WIDTH,
            dat: true,
        },
        Kind::SignalV3 => Layout {
            number: 31,
            first: 107,
            count: 24,
            bytes: SignalV3::WIDTH,
            dat: true,
        },
    }
}

// A kind's marks. The contract checks them against its rows.
fn marks(kind: Kind) -> Marks
    ensures { T (marked result.add result.carry (rows_of kind)) }
{
    match kind {
        Kind::Signal => Marks {
            add: 0x80000038,
            carry: 0x100000110,
        },
        Kind::ChangerSignal => Marks {
            add: 0xf8,
            carry: 0x100,
        },
        Kind::VirtualBoard => Marks {
            add: 0xf2,
            carry: 0x108,
        },
        Kind::LineTrackCircuit => Marks {
            add: 0xcc40,
            carry: 0x12100,
        },
        Kind::PointsTrackCircuit => Marks {
            add: 0xcce4,
            carry: 0x12148,
        },
        Kind::CrossingTrackCircuit => Marks {
            add: 0x8540,
            carry: 0x11500,
        },
        Kind::DualDetection => Marks {
            add: 0xc0,
            carry: 0x100,
        },
        Kind::Points => Marks {
            add: 0xf83540,
            carry: 0x1009500,
        },
        Kind::ElectricLock => Marks {
            add: 0xf0,
            carry: 0x100,
        },
        Kind::GeneralNotices => Marks {
            add: 0xfe80,
            carry: 0x10200,
        },
        Kind::ControlBoundary => Marks {
            add: 0xf044,
            carry: 0x10220,
        },
        Kind::SignalV3 => Marks {
            add: 0x40000030,
            carry: 0x100000100,
        },
    }
}

// Whether a glance at an element's number shows that each field has a listed value. If it doesn't, the rows decide.
#[tactic(auto, using(rows::proofs::Glance::shows))]
pub fn shows_listed(word: u32, kind: Kind) -> bool
    ensures { Shows (rows_of kind) word result }
{
    rows::carries_none(word, marks(kind))
}

// A glance at the element at a place. Each kind has its own arm, in which its width and its
// marks are known to the compiler.
#[tactic(auto, unfolding(rows::specs::Rows::layouts))]
pub fn glance_at(s: &[u8], at: usize, kind: Kind) -> Glance
    requires { at + width_of kind ≤ length s.now }
    ensures { Glanced kind s.now at result }
{
    match kind {
        Kind::Signal => glance_by(s, at, kind, Signal::WIDTH),
        Kind::ChangerSignal => glance_by(s, at, kind, ChangerSignal::WIDTH),
        Kind::VirtualBoard => glance_by(s, at, kind, VirtualBoard::WIDTH),
        Kind::LineTrackCircuit => glance_by(s, at, kind, LineTrackCircuit::WIDTH),
        Kind::PointsTrackCircuit => glance_by(s, at, kind, PointsTrackCircuit::WIDTH),
        Kind::CrossingTrackCircuit => glance_by(s, at, kind, CrossingTrackCircuit::WIDTH),
        Kind::DualDetection => glance_by(s, at, kind, DualDetection::WIDTH),
        Kind::Points => glance_by(s, at, kind, Points::WIDTH),
        Kind::ElectricLock => glance_by(s, at, kind, ElectricLock::WIDTH),
        Kind::GeneralNotices => glance_by(s, at, kind, GeneralNotices::WIDTH),
        Kind::ControlBoundary => glance_by(s, at, kind, ControlBoundary::WIDTH),
        Kind::SignalV3 => glance_by(s, at, kind, SignalV3::WIDTH),
    }
}

// One arm of `glance_at`: the kind, and its width as a constant.
fn glance_by(s: &[u8], at: usize, kind: Kind, width: usize) -> Glance
    requires { (width ≡ width_of kind) × (width ≤ 4) × (at + width_of kind ≤ length s.now) }
    ensures { Glanced kind s.now at result }
{
    let word = octets::get_at(s, at, width);
    let listed = shows_listed(word, kind);
    Glance { word, listed }
}

// The kind whose layout has this number, if there is one.
#[tactic(auto, unfolding(rows::specs::Rows::layouts))]
pub fn find_by_number(number: u8) -> Option<Kind>
    ensures { result ≡ find_by_number number }
{
    match number {
        1 => return Some(Kind::Signal),
        2 => return Some(Kind::ChangerSignal),
        3 => return Some(Kind::VirtualBoard),
        4 => return Some(Kind::LineTrackCircuit),
        5 => return Some(Kind::PointsTrackCircuit),
        6 => return Some(Kind::CrossingTrackCircuit),
        7 => return Some(Kind::DualDetection),
        8 => return Some(Kind::Points),
        9 => return Some(Kind::ElectricLock),
        22 => return Some(Kind::GeneralNotices),
        23 => return Some(Kind::ControlBoundary),
        31 => return Some(Kind::SignalV3),
        _ => return None,
    }
}

// The kind of a state.
pub fn kind_in(element: Element) -> Kind
    ensures { result ≡ kind_in element }
{
    match element {
        Element::Signal(_) => Kind::Signal,
        Element::ChangerSignal(_) => Kind::ChangerSignal,
        Element::VirtualBoard(_) => Kind::VirtualBoard,
        Element::LineTrackCircuit(_) => Kind::LineTrackCircuit,
        Element::PointsTrackCircuit(_) => Kind::PointsTrackCircuit,
        Element::CrossingTrackCircuit(_) => Kind::CrossingTrackCircuit,
        Element::DualDetection(_) => Kind::DualDetection,
        Element::Points(_) => Kind::Points,
        Element::ElectricLock(_) => Kind::ElectricLock,
        Element::GeneralNotices(_) => Kind::GeneralNotices,
        Element::ControlBoundary(_) => Kind::ControlBoundary,
        Element::SignalV3(_) => Kind::SignalV3,
    }
}

// A kind's state from its fields' values in the rows' order.
pub fn element_of(kind: Kind, values: [u32; 24]) -> Element
    ensures { result ≡ element_of kind values }
{
    match kind {
        Kind::Signal => Element::Signal(Signal::from(values)),
        Kind::ChangerSignal => Element::ChangerSignal(ChangerSignal::from(values)),
        Kind::VirtualBoard => Element::VirtualBoard(VirtualBoard::from(values)),
        Kind::LineTrackCircuit => Element::LineTrackCircuit(LineTrackCircuit::from(values)),
        Kind::PointsTrackCircuit => Element::PointsTrackCircuit(PointsTrackCircuit::from(values)),
        Kind::CrossingTrackCircuit => Element::CrossingTrackCircuit(CrossingTrackCircuit::from(
            values,
        )),
        Kind::DualDetection => Element::DualDetection(DualDetection::from(values)),
        Kind::Points => Element::Points(Points::from(values)),
        Kind::ElectricLock => Element::ElectricLock(ElectricLock::from(values)),
        Kind::GeneralNotices => Element::GeneralNotices(GeneralNotices::from(values)),
        Kind::ControlBoundary => Element::ControlBoundary(ControlBoundary::from(values)),
        Kind::SignalV3 => Element::SignalV3(SignalV3::from(values)),
    }
}

// A state's fields' values in the rows' order, padded with zeros.
pub fn values_of(element: Element) -> [u32; 24]
    ensures { result ≡ padded (element_values element) }
{
    match element {
        Element::Signal(state) => <[u32; 24]>::from(state),
        Element::ChangerSignal(state) => <[u32; 24]>::from(state),
        Element::VirtualBoard(state) => <[u32; 24]>::from(state),
        Element::LineTrackCircuit(state) => <[u32; 24]>::from(state),
        Element::PointsTrackCircuit(state) => <[u32; 24]>::from(state),
        Element::CrossingTrackCircuit(state) => <[u32; 24]>::from(state),
        Element::DualDetection(state) => <[u32; 24]>::from(state),
        Element::Points(state) => <[u32; 24]>::from(state),
        Element::ElectricLock(state) => <[u32; 24]>::from(state),
        Element::GeneralNotices(state) => <[u32; 24]>::from(state),
        Element::ControlBoundary(state) => <[u32; 24]>::from(state),
        Element::SignalV3(state) => <[u32; 24]>::from(state),
    }
}
