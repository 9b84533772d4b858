// Layout 8: AG, type 8 under X = 1. Written by catalogue/write.py.
ghost use Rattle.std.specs.Prelude.{◌≡◌, []};
ghost use Rattle.rows.specs.Values.{padded};
ghost use Rattle.states.specs.States.{points_of, points_values};

use cases::{LegOccupancy, LegShown, Overlap, PointsDetection, PointsLocking};

#[derive(Clone, Copy)]
pub struct Points {
    pub current: bool, // DAT
    pub special_command_pending: bool, // ME
    pub movement_blocked: bool, // BIA
    pub unexpected_occupancy: bool, // OCUP_TIPO
    pub occupancy: LegOccupancy, // OCUP_EST
    pub leg_shown: LegShown, // DIR
    pub overlap_normal: Overlap, // DES_N
    pub overlap_reverse: Overlap, // DES_I
    pub detection: PointsDetection, // COMP
    pub command_blocked: bool, // BA
    pub locking: PointsLocking, // ENC
    pub clearance_lost: bool, // GAL
}

impl Points {
    pub const WIDTH: usize = 3;

    pub const WITHOUT_DATA: Points = Points {
        current: false,
        special_command_pending: false,
        movement_blocked: false,
        unexpected_occupancy: false,
        occupancy: LegOccupancy::ClearIdle,
        leg_shown: LegShown::NormalAndReverse,
        overlap_normal: Overlap::NoOverlap,
        overlap_reverse: Overlap::NoOverlap,
        detection: PointsDetection::NotDetected,
        command_blocked: false,
        locking: PointsLocking::Free,
        clearance_lost: false,
    };

    pub fn without_data() -> Points
        ensures { result ≡ points_of [] }
    {
        Points::WITHOUT_DATA
    }
}

impl From<[u32; 24]> for Points {
    ghost from_gives = { λ values state. state ≡ points_of values };

    fn from(values: [u32; 24]) -> Points {
        Points {
            current: values[0] == 1,
            special_command_pending: values[1] == 1,
            movement_blocked: values[2] == 1,
            unexpected_occupancy: values[3] == 1,
            occupancy: LegOccupancy::from(values[4]),
            leg_shown: LegShown::from(values[5]),
            overlap_normal: Overlap::from(values[6]),
            overlap_reverse: Overlap::from(values[7]),
            detection: PointsDetection::from(values[8]),
            command_blocked: values[9] == 1,
            locking: PointsLocking::from(values[10]),
            clearance_lost: values[11] == 1,
        }
    }
}

impl From<Points> for [u32; 24] {
    ghost from_gives = { λ state values. values ≡ padded (points_values state) };

    fn from(state: Points) -> [u32; 24] {
        [
            state.current as u32,
            state.special_command_pending as u32,
            state.movement_blocked as u32,
            state.unexpected_occupancy as u32,
            u32::from(state.occupancy),
            u32::from(state.leg_shown),
            u32::from(state.overlap_normal),
            u32::from(state.overlap_reverse),
            u32::from(state.detection),
            state.command_blocked as u32,
            u32::from(state.locking),
            state.clearance_lost as u32,
            0,
            0,
            0,
            0,
            0,
            0,
            0,
            0,
            0,
            0,
            0,
            0,
        ]
    }
}
