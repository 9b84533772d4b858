// Layout 31: SIG, type 1 under X = 3. Written by catalogue/write.py.
ghost use Rattle.std.specs.Prelude.{◌≡◌, []};
ghost use Rattle.rows.specs.Values.{padded};
ghost use Rattle.states.specs.States.{signal_v3_of, signal_v3_values};

use cases::{AutoRoute, MixedGaugeIndication, RouterIndication, SignalAspect, SignalKind};

#[derive(Clone, Copy)]
pub struct SignalV3 {
    pub current: bool, // DAT
    pub kind: SignalKind, // TIPO
    pub high_speed_auto_route: bool, // EAR
    pub aspect: SignalAspect, // IND
    pub red_fitted: bool, // FOCO_R_EQ
    pub red_blown: bool, // FOCO_R_FUS
    pub white_fitted: bool, // FOCO_BL_C_EQ
    pub white_blown: bool, // FOCO_BL_C_FUS
    pub vertical_white_fitted: bool, // FOCO_BL_V_EQ
    pub vertical_white_blown: bool, // FOCO_BL_V_FUS
    pub horizontal_white_fitted: bool, // FOCO_BL_H_EQ
    pub horizontal_white_blown: bool, // FOCO_BL_H_FUS
    pub blue_fitted: bool, // FOCO_AZ_EQ
    pub blue_blown: bool, // FOCO_AZ_FUS
    pub yellow_fitted: bool, // FOCO_AM_EQ
    pub yellow_blown: bool, // FOCO_AM_FUS
    pub green_fitted: bool, // FOCO_V_EQ
    pub green_blown: bool, // FOCO_V_FUS
    pub special_command_pending: bool, // ME
    pub command_blocked: bool, // B
    pub mixed_gauge: MixedGaugeIndication, // UIC
    pub automatic_succession: bool, // SA
    pub auto_route: AutoRoute, // FAI
    pub router: RouterIndication, // GRP_ARS
}

impl SignalV3 {
    pub const WIDTH: usize = 4;

    pub const WITHOUT_DATA: SignalV3 = SignalV3 {
        current: false,
        kind: SignalKind::Unknown,
        high_speed_auto_route: false,
        aspect: SignalAspect::Dark,
        red_fitted: false,
        red_blown: false,
        white_fitted: false,
        white_blown: false,
        vertical_white_fitted: false,
        vertical_white_blown: false,
        horizontal_white_fitted: false,
        horizontal_white_blown: false,
        blue_fitted: false,
        blue_blown: false,
        yellow_fitted: false,
        yellow_blown: false,
        green_fitted: false,
        green_blown: false,
        special_command_pending: false,
        command_blocked: false,
        mixed_gauge: MixedGaugeIndication::NoThirdRail,
        automatic_succession: false,
        auto_route: AutoRoute::NotShown,
        router: RouterIndication::NotShown,
    };

    pub fn without_data() -> SignalV3
        ensures { result ≡ signal_v3_of [] }
    {
        SignalV3::WITHOUT_DATA
    }
}

impl From<[u32; 24]> for SignalV3 {
    ghost from_gives = { λ values state. state ≡ signal_v3_of values };

    fn from(values: [u32; 24]) -> SignalV3 {
        SignalV3 {
            current: values[0] == 1,
            kind: SignalKind::from(values[1]),
            high_speed_auto_route: values[2] == 1,
            aspect: SignalAspect::from(values[3]),
            red_fitted: values[4] == 1,
            red_blown: values[5] == 1,
            white_fitted: values[6] == 1,
            white_blown: values[7] == 1,
            vertical_white_fitted: values[8] == 1,
            vertical_white_blown: values[9] == 1,
            horizontal_white_fitted: values[10] == 1,
            horizontal_white_blown: values[11] == 1,
            blue_fitted: values[12] == 1,
            blue_blown: values[13] == 1,
            yellow_fitted: values[14] == 1,
            yellow_blown: values[15] == 1,
            green_fitted: values[16] == 1,
            green_blown: values[17] == 1,
            special_command_pending: values[18] == 1,
            command_blocked: values[19] == 1,
            mixed_gauge: MixedGaugeIndication::from(values[20]),
            automatic_succession: values[21] == 1,
            auto_route: AutoRoute::from(values[22]),
            router: RouterIndication::from(values[23]),
        }
    }
}

impl From<SignalV3> for [u32; 24] {
    ghost from_gives = { λ state values. values ≡ padded (signal_v3_values state) };

    fn from(state: SignalV3) -> [u32; 24] {
        [
            state.current as u32,
            u32::from(state.kind),
            state.high_speed_auto_route as u32,
            u32::from(state.aspect),
            state.red_fitted as u32,
            state.red_blown as u32,
            state.white_fitted as u32,
            state.white_blown as u32,
            state.vertical_white_fitted as u32,
            state.vertical_white_blown as u32,
            state.horizontal_white_fitted as u32,
            state.horizontal_white_blown as u32,
            state.blue_fitted as u32,
            state.blue_blown as u32,
            state.yellow_fitted as u32,
            state.yellow_blown as u32,
            state.green_fitted as u32,
            state.green_blown as u32,
            state.special_command_pending as u32,
            state.command_blocked as u32,
            u32::from(state.mixed_gauge),
            state.automatic_succession as u32,
            u32::from(state.auto_route),
            u32::from(state.router),
        ]
    }
}
