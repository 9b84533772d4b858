// Layout 6: CVX, type 6 under X = 1 and type 6 under X = 3. Written by catalogue/write.py.
ghost use Rattle.std.specs.Prelude.{◌≡◌, []};
ghost use Rattle.rows.specs.Values.{padded};
ghost use Rattle.states.specs.States.{crossing_track_circuit_of, crossing_track_circuit_values};

use cases::{LegOccupancy, LegShown, Overlap};

#[derive(Clone, Copy)]
pub struct CrossingTrackCircuit {
    pub current: bool, // DAT
    pub special_command_pending: bool, // ME
    pub movement_blocked: bool, // BV
    pub unexpected_occupancy: bool, // OCUP_TIPO
    pub occupancy: LegOccupancy, // OCUP_EST
    pub leg_shown: LegShown, // OCUP_DIR
    pub overlap_normal: Overlap, // DES_N
    pub overlap_reverse: Overlap, // DES_I
    pub clearance_lost: bool, // GAL
    pub axle_counter_fault: bool, // AV
    pub axle_counter_preset: bool, // PREN
}

impl CrossingTrackCircuit {
    pub const WIDTH: usize = 2;

    pub const WITHOUT_DATA: CrossingTrackCircuit = CrossingTrackCircuit {
        current: false,
        special_command_pending: false,
        movement_blocked: false,
        unexpected_occupancy: false,
        occupancy: LegOccupancy::ClearIdle,
        leg_shown: LegShown::NormalAndReverse,
        overlap_normal: Overlap::NoOverlap,
        overlap_reverse: Overlap::NoOverlap,
        clearance_lost: false,
        axle_counter_fault: false,
        axle_counter_preset: false,
    };

    pub fn without_data() -> CrossingTrackCircuit
        ensures { result ≡ crossing_track_circuit_of [] }
    {
        CrossingTrackCircuit::WITHOUT_DATA
    }
}

impl From<[u32; 24]> for CrossingTrackCircuit {
    ghost from_gives = { λ values state. state ≡ crossing_track_circuit_of values };

    fn from(values: [u32; 24]) -> CrossingTrackCircuit {
        CrossingTrackCircuit {
            current: values[0] == 1,
            special_command_pending: values[1] == 1,
            movement_blocked: values[2] == 1,
            unexpected_occupancy: values[3] == 1,
            occupancy: LegOccupancy::from(values[4]),
            leg_shown: LegShown::from(values[5]),
            overlap_normal: Overlap::from(values[6]),
            overlap_reverse: Overlap::from(values[7]),
            clearance_lost: values[8] == 1,
            axle_counter_fault: values[9] == 1,
            axle_counter_preset: values[10] == 1,
        }
    }
}

impl From<CrossingTrackCircuit> for [u32; 24] {
    ghost from_gives = { λ state values. values ≡ padded (crossing_track_circuit_values state) };

    fn from(state: CrossingTrackCircuit) -> [u32; 24] {
        [
            state.current as u32,
            state.special_command_pending as u32,
            state.movement_blocked as u32,
            state.unexpected_occupancy as u32,
            u32::from(state.occupancy),
            u32::from(state.leg_shown),
            u32::from(state.overlap_normal),
            u32::from(state.overlap_reverse),
            state.clearance_lost as u32,
            state.axle_counter_fault as u32,
            state.axle_counter_preset as u32,
            0,
            0,
            0,
            0,
            0,
            0,
            0,
            0,
            0,
            0,
            0,
            0,
            0,
        ]
    }
}
