// The four numbers of a call, from what its last step gives.
ghost use Rattle.std.specs.Prelude.{◌≡◌};
ghost use Rattle.history.specs.Verdict.{numbers_of, check_numbers};

use crate::Answer;

// Of a check: success names nothing and writes nothing.
impl From<Result<(), Answer>> for Answer {
    ghost from_gives = { λ checked answer. answer ≡ check_numbers checked };

    fn from(checked: Result<(), Answer>) -> Answer {
        match checked {
            Ok(()) => Answer {
                code: 0,
                object: 65535,
                bit: 255,
                length: 0,
            },
            Err(answer) => answer,
        }
    }
}

// Of a step that writes: how many bytes it wrote.
impl From<Result<u32, Answer>> for Answer {
    ghost from_gives = { λ put answer. answer ≡ numbers_of put };

    fn from(put: Result<u32, Answer>) -> Answer {
        match put {
            Ok(length) => Answer {
                code: 0,
                object: 65535,
                bit: 255,
                length,
            },
            Err(answer) => answer,
        }
    }
}
