// Layout 4: CV, type 4 under X = 1 and type 4 under X = 3. Written by catalogue/write.py.
ghost use Rattle.std.specs.Prelude.{◌≡◌, []};
ghost use Rattle.rows.specs.Values.{padded};
ghost use Rattle.states.specs.States.{line_track_circuit_of, line_track_circuit_values};

use cases::{GaugePresence, Overlap, SectionOccupancy};

#[derive(Clone, Copy)]
pub struct LineTrackCircuit {
    pub current: bool, // DAT
    pub special_command_pending: bool, // ME
    pub movement_blocked: bool, // BV
    pub unexpected_occupancy: bool, // OCUP_TIPO
    pub occupancy: SectionOccupancy, // OCUP_EST
    pub overlap: Overlap, // DES
    pub axle_counter_fault: bool, // AV
    pub axle_counter_preset: bool, // PREN
    pub gauge: GaugePresence, // UC
    pub sequence_lost: bool, // NSEC
}

impl LineTrackCircuit {
    pub const WIDTH: usize = 2;

    pub const WITHOUT_DATA: LineTrackCircuit = LineTrackCircuit {
        current: false,
        special_command_pending: false,
        movement_blocked: false,
        unexpected_occupancy: false,
        occupancy: SectionOccupancy::ClearIdle,
        overlap: Overlap::NoOverlap,
        axle_counter_fault: false,
        axle_counter_preset: false,
        gauge: GaugePresence::NotShown,
        sequence_lost: false,
    };

    pub fn without_data() -> LineTrackCircuit
        ensures { result ≡ line_track_circuit_of [] }
    {
        LineTrackCircuit::WITHOUT_DATA
    }
}

impl From<[u32; 24]> for LineTrackCircuit {
    ghost from_gives = { λ values state. state ≡ line_track_circuit_of values };

    fn from(values: [u32; 24]) -> LineTrackCircuit {
        LineTrackCircuit {
            current: values[0] == 1,
            special_command_pending: values[1] == 1,
            movement_blocked: values[2] == 1,
            unexpected_occupancy: values[3] == 1,
            occupancy: SectionOccupancy::from(values[4]),
            overlap: Overlap::from(values[5]),
            axle_counter_fault: values[6] == 1,
            axle_counter_preset: values[7] == 1,
            gauge: GaugePresence::from(values[8]),
            sequence_lost: values[9] == 1,
        }
    }
}

impl From<LineTrackCircuit> for [u32; 24] {
    ghost from_gives = { λ state values. values ≡ padded (line_track_circuit_values state) };

    fn from(state: LineTrackCircuit) -> [u32; 24] {
        [
            state.current as u32,
            state.special_command_pending as u32,
            state.movement_blocked as u32,
            state.unexpected_occupancy as u32,
            u32::from(state.occupancy),
            u32::from(state.overlap),
            state.axle_counter_fault as u32,
            state.axle_counter_preset as u32,
            u32::from(state.gauge),
            state.sequence_lost as u32,
            0,
            0,
            0,
            0,
            0,
            0,
            0,
            0,
            0,
            0,
            0,
            0,
            0,
            0,
        ]
    }
}
