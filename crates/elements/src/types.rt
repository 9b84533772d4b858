// Which types are carried under each catalogue's X, and as which kind.
// Written by catalogue/write.py from catalogue/types.tsv.
ghost use Rattle.std.specs.Prelude.{◌≡◌};
ghost use Rattle.kinds.specs.Kinds.{find_in};
ghost use Rattle.elements.specs.Types.{types_under1, types_under3, find_by_type};

use kinds::Kind;

// The kind of a type under a catalogue's X, if it is carried.
pub fn find_by_type(x: u8, ty: u8) -> Option<Kind>
    ensures { result ≡ find_by_type x ty }
{
    match x {
        1 => return under_1(ty),
        3 => return under_3(ty),
        _ => return None,
    }
}

fn under_1(ty: u8) -> Option<Kind>
    ensures { result ≡ find_in ty types_under1 }
{
    match ty {
        1 => return Some(Kind::Signal),
        2 => return Some(Kind::ChangerSignal),
        3 => return Some(Kind::VirtualBoard),
        4 => return Some(Kind::LineTrackCircuit),
        5 => return Some(Kind::PointsTrackCircuit),
        6 => return Some(Kind::CrossingTrackCircuit),
        7 => return Some(Kind::DualDetection),
        8 => return Some(Kind::Points),
        9 => return Some(Kind::ElectricLock),
        22 => return Some(Kind::GeneralNotices),
        23 => return Some(Kind::ControlBoundary),
        _ => return None,
    }
}

fn under_3(ty: u8) -> Option<Kind>
    ensures { result ≡ find_in ty types_under3 }
{
    match ty {
        1 => return Some(Kind::SignalV3),
        2 => return Some(Kind::ChangerSignal),
        3 => return Some(Kind::VirtualBoard),
        4 => return Some(Kind::LineTrackCircuit),
        5 => return Some(Kind::PointsTrackCircuit),
        6 => return Some(Kind::CrossingTrackCircuit),
        7 => return Some(Kind::DualDetection),
        _ => return None,
    }
}
