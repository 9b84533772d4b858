// Layout 3: PV, type 3 under X = 1 and type 3 under X = 3. Written by catalogue/write.py.
ghost use Rattle.std.specs.Prelude.{◌≡◌, []};
ghost use Rattle.rows.specs.Values.{padded};
ghost use Rattle.states.specs.States.{virtual_board_of, virtual_board_values};

use cases::BoardAspect;

#[derive(Clone, Copy)]
pub struct VirtualBoard {
    pub current: bool, // DAT
    pub aspect: BoardAspect, // IND
    pub closing_commanded: bool, // CS_IND
}

impl VirtualBoard {
    pub const WIDTH: usize = 1;

    pub const WITHOUT_DATA: VirtualBoard = VirtualBoard {
        current: false,
        aspect: BoardAspect::Red,
        closing_commanded: false,
    };

    pub fn without_data() -> VirtualBoard
        ensures { result ≡ virtual_board_of [] }
    {
        VirtualBoard::WITHOUT_DATA
    }
}

impl From<[u32; 24]> for VirtualBoard {
    ghost from_gives = { λ values state. state ≡ virtual_board_of values };

    fn from(values: [u32; 24]) -> VirtualBoard {
        VirtualBoard {
            current: values[0] == 1,
            aspect: BoardAspect::from(values[1]),
            closing_commanded: values[2] == 1,
        }
    }
}

impl From<VirtualBoard> for [u32; 24] {
    ghost from_gives = { λ state values. values ≡ padded (virtual_board_values state) };

    fn from(state: VirtualBoard) -> [u32; 24] {
        [
            state.current as u32,
            u32::from(state.aspect),
            state.closing_commanded as u32,
            0,
            0,
            0,
            0,
            0,
            0,
            0,
            0,
            0,
            0,
            0,
            0,
            0,
            0,
            0,
            0,
            0,
            0,
            0,
            0,
            0,
        ]
    }
}
