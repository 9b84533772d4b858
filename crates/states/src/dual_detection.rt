// Layout 7: SDT, type 7 under X = 1 and type 7 under X = 3. Written by catalogue/write.py.
ghost use Rattle.std.specs.Prelude.{◌≡◌, []};
ghost use Rattle.rows.specs.Values.{padded};
ghost use Rattle.states.specs.States.{dual_detection_of, dual_detection_values};

#[derive(Clone, Copy)]
pub struct DualDetection {
    pub current: bool, // DAT
    pub special_command_pending: bool, // ME
    pub rearm_pending: bool, // RM
    pub axle_counters_active: bool, // SIST_ACT
    pub track_circuit_failed: bool, // CV_SUP
    pub axle_counters_failed: bool, // CV_CEJES
}

impl DualDetection {
    pub const WIDTH: usize = 1;

    pub const WITHOUT_DATA: DualDetection = DualDetection {
        current: false,
        special_command_pending: false,
        rearm_pending: false,
        axle_counters_active: false,
        track_circuit_failed: false,
        axle_counters_failed: false,
    };

    pub fn without_data() -> DualDetection
        ensures { result ≡ dual_detection_of [] }
    {
        DualDetection::WITHOUT_DATA
    }
}

impl From<[u32; 24]> for DualDetection {
    ghost from_gives = { λ values state. state ≡ dual_detection_of values };

    fn from(values: [u32; 24]) -> DualDetection {
        DualDetection {
            current: values[0] == 1,
            special_command_pending: values[1] == 1,
            rearm_pending: values[2] == 1,
            axle_counters_active: values[3] == 1,
            track_circuit_failed: values[4] == 1,
            axle_counters_failed: values[5] == 1,
        }
    }
}

impl From<DualDetection> for [u32; 24] {
    ghost from_gives = { λ state values. values ≡ padded (dual_detection_values state) };

    fn from(state: DualDetection) -> [u32; 24] {
        [
            state.current as u32,
            state.special_command_pending as u32,
            state.rearm_pending as u32,
            state.axle_counters_active as u32,
            state.track_circuit_failed as u32,
            state.axle_counters_failed as u32,
            0,
            0,
            0,
            0,
            0,
            0,
            0,
            0,
            0,
            0,
            0,
            0,
            0,
            0,
            0,
            0,
            0,
            0,
        ]
    }
}
