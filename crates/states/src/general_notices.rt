// Layout 22: AVG, type 22 under X = 1. Written by catalogue/write.py.
ghost use Rattle.std.specs.Prelude.{◌≡◌};
ghost use Rattle.rows.specs.Values.{padded};
ghost use Rattle.states.specs.States.{general_notices_of, general_notices_values};

use cases::{EarthFaultIndication, HeaterIndication};

#[derive(Clone, Copy)]
pub struct GeneralNotices {
    pub power_in_order: bool, // EN
    pub points_moving: bool, // MA_I
    pub auto_routes_set: bool, // FI_I
    pub points_group_blocked: bool, // BA
    pub heaters: HeaterIndication, // CF
    pub station_closed: bool, // EC
    pub earth_fault: EarthFaultIndication, // DT
}

impl GeneralNotices {
    pub const WIDTH: usize = 2;
}

impl From<[u32; 24]> for GeneralNotices {
    ghost from_gives = { λ values state. state ≡ general_notices_of values };

    fn from(values: [u32; 24]) -> GeneralNotices {
        GeneralNotices {
            power_in_order: values[0] == 1,
            points_moving: values[1] == 1,
            auto_routes_set: values[2] == 1,
            points_group_blocked: values[3] == 1,
            heaters: HeaterIndication::from(values[4]),
            station_closed: values[5] == 1,
            earth_fault: EarthFaultIndication::from(values[6]),
        }
    }
}

impl From<GeneralNotices> for [u32; 24] {
    ghost from_gives = { λ state values. values ≡ padded (general_notices_values state) };

    fn from(state: GeneralNotices) -> [u32; 24] {
        [
            state.power_in_order as u32,
            state.points_moving as u32,
            state.auto_routes_set as u32,
            state.points_group_blocked as u32,
            u32::from(state.heaters),
            state.station_closed as u32,
            u32::from(state.earth_fault),
            0,
            0,
            0,
            0,
            0,
            0,
            0,
            0,
            0,
            0,
            0,
            0,
            0,
            0,
            0,
            0,
            0,
        ]
    }
}
