// Layout 23: FRA, type 23 under X = 1. Written by catalogue/write.py.
ghost use Rattle.std.specs.Prelude.{◌≡◌, []};
ghost use Rattle.rows.specs.Values.{padded};
ghost use Rattle.states.specs.States.{control_boundary_of, control_boundary_values};

use cases::BoundaryMovement;

#[derive(Clone, Copy)]
pub struct ControlBoundary {
    pub current: bool, // DAT
    pub entry_active: bool, // ENT_ACT
    pub entry_movement: BoundaryMovement, // ENT_EST
    pub exit_active: bool, // SAL_ACT
    pub exit_movement: BoundaryMovement, // SAL_EST
    pub inc_inwards: bool, // INC_SEN
    pub inc_shown: bool, // INC_IND
    pub neighbour_object_alarm: bool, // DCO
}

impl ControlBoundary {
    pub const WIDTH: usize = 2;

    pub const WITHOUT_DATA: ControlBoundary = ControlBoundary {
        current: false,
        entry_active: false,
        entry_movement: BoundaryMovement::AtRest,
        exit_active: false,
        exit_movement: BoundaryMovement::AtRest,
        inc_inwards: false,
        inc_shown: false,
        neighbour_object_alarm: false,
    };

    pub fn without_data() -> ControlBoundary
        ensures { result ≡ control_boundary_of [] }
    {
        ControlBoundary::WITHOUT_DATA
    }
}

impl From<[u32; 24]> for ControlBoundary {
    ghost from_gives = { λ values state. state ≡ control_boundary_of values };

    fn from(values: [u32; 24]) -> ControlBoundary {
        ControlBoundary {
            current: values[0] == 1,
            entry_active: values[1] == 1,
            entry_movement: BoundaryMovement::from(values[2]),
            exit_active: values[3] == 1,
            exit_movement: BoundaryMovement::from(values[4]),
            inc_inwards: values[5] == 1,
            inc_shown: values[6] == 1,
            neighbour_object_alarm: values[7] == 1,
        }
    }
}

impl From<ControlBoundary> for [u32; 24] {
    ghost from_gives = { λ state values. values ≡ padded (control_boundary_values state) };

    fn from(state: ControlBoundary) -> [u32; 24] {
        [
            state.current as u32,
            state.entry_active as u32,
            u32::from(state.entry_movement),
            state.exit_active as u32,
            u32::from(state.exit_movement),
            state.inc_inwards as u32,
            state.inc_shown as u32,
            state.neighbour_object_alarm as u32,
            0,
            0,
            0,
            0,
            0,
            0,
            0,
            0,
            0,
            0,
            0,
            0,
            0,
            0,
            0,
            0,
        ]
    }
}
