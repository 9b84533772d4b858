// Layout 1: SIG, type 1 under X = 1. Written by catalogue/write.py.
ghost use Rattle.std.specs.Prelude.{◌≡◌, []};
ghost use Rattle.rows.specs.Values.{padded};
ghost use Rattle.states.specs.States.{signal_of, signal_values};

use cases::{AutoRouteIndication, MixedGaugeIndication, SignalAspect, SignalKind};

#[derive(Clone, Copy)]
pub struct Signal {
    pub current: bool, // DAT
    pub kind: SignalKind, // TIPO
    pub aspect: SignalAspect, // IND
    pub red_fitted: bool, // FOCO_R_EQ
    pub red_blown: bool, // FOCO_R_FUS
    pub white_fitted: bool, // FOCO_BL_C_EQ
    pub white_blown: bool, // FOCO_BL_C_FUS
    pub vertical_white_fitted: bool, // FOCO_BL_V_EQ
    pub vertical_white_blown: bool, // FOCO_BL_V_FUS
    pub horizontal_white_fitted: bool, // FOCO_BL_H_EQ
    pub horizontal_white_blown: bool, // FOCO_BL_H_FUS
    pub blue_fitted: bool, // FOCO_AZ_EQ
    pub blue_blown: bool, // FOCO_AZ_FUS
    pub yellow_fitted: bool, // FOCO_AM_EQ
    pub yellow_blown: bool, // FOCO_AM_FUS
    pub green_fitted: bool, // FOCO_V_EQ
    pub green_blown: bool, // FOCO_V_FUS
    pub special_command_pending: bool, // ME
    pub command_blocked: bool, // B
    pub mixed_gauge: MixedGaugeIndication, // UIC
    pub automatic_succession: bool, // SA
    pub auto_route_set: bool, // FAI
    pub auto_route_indication: AutoRouteIndication, // FAI_IND
}

impl Signal {
    pub const WIDTH: usize = 4;

    pub const WITHOUT_DATA: Signal = Signal {
        current: false,
        kind: SignalKind::Unknown,
        aspect: SignalAspect::Dark,
        red_fitted: false,
        red_blown: false,
        white_fitted: false,
        white_blown: false,
        vertical_white_fitted: false,
        vertical_white_blown: false,
        horizontal_white_fitted: false,
        horizontal_white_blown: false,
        blue_fitted: false,
        blue_blown: false,
        yellow_fitted: false,
        yellow_blown: false,
        green_fitted: false,
        green_blown: false,
        special_command_pending: false,
        command_blocked: false,
        mixed_gauge: MixedGaugeIndication::NoThirdRail,
        automatic_succession: false,
        auto_route_set: false,
        auto_route_indication: AutoRouteIndication::GreenSteady,
    };

    pub fn without_data() -> Signal
        ensures { result ≡ signal_of [] }
    {
        Signal::WITHOUT_DATA
    }
}

impl From<[u32; 24]> for Signal {
    ghost from_gives = { λ values state. state ≡ signal_of values };

    fn from(values: [u32; 24]) -> Signal {
        Signal {
            current: values[0] == 1,
            kind: SignalKind::from(values[1]),
            aspect: SignalAspect::from(values[2]),
            red_fitted: values[3] == 1,
            red_blown: values[4] == 1,
            white_fitted: values[5] == 1,
            white_blown: values[6] == 1,
            vertical_white_fitted: values[7] == 1,
            vertical_white_blown: values[8] == 1,
            horizontal_white_fitted: values[9] == 1,
            horizontal_white_blown: values[10] == 1,
            blue_fitted: values[11] == 1,
            blue_blown: values[12] == 1,
            yellow_fitted: values[13] == 1,
            yellow_blown: values[14] == 1,
            green_fitted: values[15] == 1,
            green_blown: values[16] == 1,
            special_command_pending: values[17] == 1,
            command_blocked: values[18] == 1,
            mixed_gauge: MixedGaugeIndication::from(values[19]),
            automatic_succession: values[20] == 1,
            auto_route_set: values[21] == 1,
            auto_route_indication: AutoRouteIndication::from(values[22]),
        }
    }
}

impl From<Signal> for [u32; 24] {
    ghost from_gives = { λ state values. values ≡ padded (signal_values state) };

    fn from(state: Signal) -> [u32; 24] {
        [
            state.current as u32,
            u32::from(state.kind),
            u32::from(state.aspect),
            state.red_fitted as u32,
            state.red_blown as u32,
            state.white_fitted as u32,
            state.white_blown as u32,
            state.vertical_white_fitted as u32,
            state.vertical_white_blown as u32,
            state.horizontal_white_fitted as u32,
            state.horizontal_white_blown as u32,
            state.blue_fitted as u32,
            state.blue_blown as u32,
            state.yellow_fitted as u32,
            state.yellow_blown as u32,
            state.green_fitted as u32,
            state.green_blown as u32,
            state.special_command_pending as u32,
            state.command_blocked as u32,
            u32::from(state.mixed_gauge),
            state.automatic_succession as u32,
            state.auto_route_set as u32,
            u32::from(state.auto_route_indication),
            0,
        ]
    }
}
