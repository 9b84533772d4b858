// The numbers that a call returns, one function for each kind of answer; and bytes put into an output, which gives one.
ghost use Rattle.std.specs.Prelude.{◌≡◌, ◌^◌, ◌≤◌, ◌<◌, ◌++◌, length, drop, IfOk, IfErr};
ghost use Rattle.history.specs.Image.{found_in};
ghost use Rattle.history.specs.Verdict.{naming, numbers, unnamed, of_length, done, Puts};

use history::Answer;
use rows::Refusal;

// A refusal that names nothing, by the paper's number: definitions, tests and C know no other name of it, and a
// narrower type would ask more of callers.
pub fn refused(code: u8) -> Answer
    ensures { result ≡ unnamed code 0 }
{
    refused_at(code, 65535)
}

// A refusal that names an object.
pub fn refused_at(code: u8, object: u16) -> Answer
    ensures { result ≡ numbers (naming code object 255) 0 }
{
    Answer {
        code,
        object,
        bit: 255,
        length: 0,
    }
}

// An element's refusal: it names the object, and the bit that the element's check found.
pub fn refused_by(found: Refusal, object: u16) -> Answer
    ensures { result ≡ numbers (found_in found object) 0 }
{
    Answer {
        code: found.code,
        object,
        bit: found.bit,
        length: 0,
    }
}

// Success that writes no bytes: code 0, and nothing is named.
pub fn accepted() -> Answer
    ensures { result ≡ unnamed 0 0 }
{
    refused(0)
}

// Success: this many bytes are written. It and `short` say what their callers mean; they share all but the code.
pub fn written(bytes: u32) -> Answer
    ensures { result ≡ unnamed 0 bytes }
{
    Answer {
        code: 0,
        object: 65535,
        bit: 255,
        length: bytes,
    }
}

// 21: the output is too short; this many bytes are needed.
pub fn short(bytes: u32) -> Answer
    ensures { result ≡ unnamed 21 bytes }
{
    Answer {
        code: 21,
        object: 65535,
        bit: 255,
        length: bytes,
    }
}

// Copies the bytes to the front of the output and says how many they are; 21 if there is no room.
pub fn put_front(out: &mut [u8], bytes: &[u8]) -> Result<u32, Answer>
    requires { length bytes.now < 2 ^ 32 }
    ensures puts { Puts (done bytes.now) out.old result out.new }
    ensures no_room { IfErr result (λ a. (a ≡ unnamed 21 (length bytes.now)) × (length out.old < length bytes.now)
        × (out.new ≡ out.old)) }
    ensures copied { IfOk result (λ n. (n ≡ length bytes.now) × (n ≤ length out.old)
        × (out.new ≡ bytes.now ++ drop n out.old)) }
{
    let size = bytes.len();
    if out.len() < size {
        return Err(short(size as u32));
    }
    octets::copy(&mut out[..size], bytes);
    Ok(size as u32)
}

// The same answer, with another length.
pub fn with_length(answer: Answer, length: u32) -> Answer
    ensures { result ≡ of_length length answer }
{
    Answer {
        code: answer.code,
        object: answer.object,
        bit: answer.bit,
        length,
    }
}
