// Layout 9: BOU, type 9 under X = 1. Written by catalogue/write.py.
ghost use Rattle.std.specs.Prelude.{◌≡◌, []};
ghost use Rattle.rows.specs.Values.{padded};
ghost use Rattle.states.specs.States.{electric_lock_of, electric_lock_values};

#[derive(Clone, Copy)]
pub struct ElectricLock {
    pub current: bool, // DAT
    pub locked: bool, // ENC
    pub key_detected: bool, // LLAVE
    pub release_authorised: bool, // AUT
}

impl ElectricLock {
    pub const WIDTH: usize = 1;

    pub const WITHOUT_DATA: ElectricLock = ElectricLock {
        current: false,
        locked: false,
        key_detected: false,
        release_authorised: false,
    };

    pub fn without_data() -> ElectricLock
        ensures { result ≡ electric_lock_of [] }
    {
        ElectricLock::WITHOUT_DATA
    }
}

impl From<[u32; 24]> for ElectricLock {
    ghost from_gives = { λ values state. state ≡ electric_lock_of values };

    fn from(values: [u32; 24]) -> ElectricLock {
        ElectricLock {
            current: values[0] == 1,
            locked: values[1] == 1,
            key_detected: values[2] == 1,
            release_authorised: values[3] == 1,
        }
    }
}

impl From<ElectricLock> for [u32; 24] {
    ghost from_gives = { λ state values. values ≡ padded (electric_lock_values state) };

    fn from(state: ElectricLock) -> [u32; 24] {
        [
            state.current as u32,
            state.locked as u32,
            state.key_detected as u32,
            state.release_authorised as u32,
            0,
            0,
            0,
            0,
            0,
            0,
            0,
            0,
            0,
            0,
            0,
            0,
            0,
            0,
            0,
            0,
            0,
            0,
            0,
            0,
        ]
    }
}
