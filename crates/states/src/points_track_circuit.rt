// Layout 5: CVA, type 5 under X = 1 and type 5 under X = 3. Written by catalogue/write.py.
ghost use Rattle.std.specs.Prelude.{◌≡◌, []};
ghost use Rattle.rows.specs.Values.{padded};
ghost use Rattle.states.specs.States.{points_track_circuit_of, points_track_circuit_values};

use cases::{GaugePresence, PointsSectionOccupancy};

#[derive(Clone, Copy)]
pub struct PointsTrackCircuit {
    pub current: bool, // DAT
    pub special_command_pending: bool, // ME
    pub unexpected_occupancy: bool, // OCUP_TIPO
    pub occupancy: PointsSectionOccupancy, // OCUP_EST
    pub axle_counter_fault: bool, // AV
    pub axle_counter_preset: bool, // PREN
    pub gauge: GaugePresence, // UC
    pub sequence_lost: bool, // NSEC
}

impl PointsTrackCircuit {
    pub const WIDTH: usize = 2;

    pub const WITHOUT_DATA: PointsTrackCircuit = PointsTrackCircuit {
        current: false,
        special_command_pending: false,
        unexpected_occupancy: false,
        occupancy: PointsSectionOccupancy::Clear,
        axle_counter_fault: false,
        axle_counter_preset: false,
        gauge: GaugePresence::NotShown,
        sequence_lost: false,
    };

    pub fn without_data() -> PointsTrackCircuit
        ensures { result ≡ points_track_circuit_of [] }
    {
        PointsTrackCircuit::WITHOUT_DATA
    }
}

impl From<[u32; 24]> for PointsTrackCircuit {
    ghost from_gives = { λ values state. state ≡ points_track_circuit_of values };

    fn from(values: [u32; 24]) -> PointsTrackCircuit {
        PointsTrackCircuit {
            current: values[0] == 1,
            special_command_pending: values[1] == 1,
            unexpected_occupancy: values[3] == 1,
            occupancy: PointsSectionOccupancy::from(values[4]),
            axle_counter_fault: values[6] == 1,
            axle_counter_preset: values[7] == 1,
            gauge: GaugePresence::from(values[8]),
            sequence_lost: values[9] == 1,
        }
    }
}

impl From<PointsTrackCircuit> for [u32; 24] {
    ghost from_gives = { λ state values. values ≡ padded (points_track_circuit_values state) };

    fn from(state: PointsTrackCircuit) -> [u32; 24] {
        [
            state.current as u32,
            state.special_command_pending as u32,
            0,
            state.unexpected_occupancy as u32,
            u32::from(state.occupancy),
            0,
            state.axle_counter_fault as u32,
            state.axle_counter_preset as u32,
            u32::from(state.gauge),
            state.sequence_lost as u32,
            0,
            0,
            0,
            0,
            0,
            0,
            0,
            0,
            0,
            0,
            0,
            0,
            0,
            0,
        ]
    }
}
