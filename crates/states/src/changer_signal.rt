// Layout 2: IC, type 2 under X = 1 and type 2 under X = 3. Written by catalogue/write.py.
ghost use Rattle.std.specs.Prelude.{◌≡◌, []};
ghost use Rattle.rows.specs.Values.{padded};
ghost use Rattle.states.specs.States.{changer_signal_of, changer_signal_values};

use cases::ChangerAspect;

#[derive(Clone, Copy)]
pub struct ChangerSignal {
    pub current: bool, // DAT
    pub aspect: ChangerAspect, // IND
}

impl ChangerSignal {
    pub const WIDTH: usize = 1;

    pub const WITHOUT_DATA: ChangerSignal = ChangerSignal {
        current: false,
        aspect: ChangerAspect::Dark,
    };

    pub fn without_data() -> ChangerSignal
        ensures { result ≡ changer_signal_of [] }
    {
        ChangerSignal::WITHOUT_DATA
    }
}

impl From<[u32; 24]> for ChangerSignal {
    ghost from_gives = { λ values state. state ≡ changer_signal_of values };

    fn from(values: [u32; 24]) -> ChangerSignal {
        ChangerSignal {
            current: values[0] == 1,
            aspect: ChangerAspect::from(values[1]),
        }
    }
}

impl From<ChangerSignal> for [u32; 24] {
    ghost from_gives = { λ state values. values ≡ padded (changer_signal_values state) };

    fn from(state: ChangerSignal) -> [u32; 24] {
        [
            state.current as u32,
            u32::from(state.aspect),
            0,
            0,
            0,
            0,
            0,
            0,
            0,
            0,
            0,
            0,
            0,
            0,
            0,
            0,
            0,
            0,
            0,
            0,
            0,
            0,
            0,
            0,
        ]
    }
}
