// Requests and answers as text, for the program that runs stored requests: reads a line's values by their names, as
// bytes in hex or decimal numbers, and prints an answer's numbers and bytes. It is proved what is printed, that what
// the writer held stays in front if a write fails, and that the bytes and numbers that are read stand in the line. It
// knows no call of the product.
#![tactic(auto)]

ghost use Rattle.std.specs.Prelude.{◌≡◌, ◌↔◌, IsTrue, ℕ, ◌∷◌, ◌+◌, ◌*◌, ◌%◌, ◌<◌, ◌≤◌, length, take, drop, slice_index};
ghost use Rattle.std.specs.Prelude.{MatchOption, OnOk, OnErr};
ghost use Rattle.std.specs.Io.KnownBytes.{Appends};
ghost use Rattle.std.specs.Fmt.{decimal};
ghost use Rattle.shell.specs.Partly.{Extends};
ghost use Rattle.script.specs.Counts.{IsPrefixLen};
ghost use Rattle.script.specs.Numbers.{AreNumbers, IsNumberOf, number_at};
ghost use Rattle.script.specs.Placed.{IsNotIn, IsAt, IsValuePlace, IsFirst, IsUnnamed, IsFirstValue};
ghost use Rattle.script.specs.Placed.{IsNoDigit, IsOnlyDigit, IsHexAt, HasHex};
ghost use Rattle.script.specs.Printed.{hex_digit, four_text, hex_byte, hex_text, item_text, numbers_text};

use history::Answer;
use std::io;
use std::io::Write;

// The first place of a byte from a place on.
pub fn find(text: &[u8], from: usize, byte: u8) -> Option<usize>
    ensures { MatchOption result (IsNotIn text.now from (length text.now) byte)
        (λ i. (from ≤ i) × (i < length text.now) × (slice_index text.now i ≡ byte) × IsNotIn text.now from i byte) }
{
    let rest = text.get(from..)?;
    let passed = rest.iter().position(|b| *b == byte)?;
    Some(from + passed)
}

// Whether a line begins with a word of at least one byte.
pub fn begins(line: &[u8], word: &[u8]) -> bool
    ensures { IsTrue result ↔ (0 < length word.now) × IsAt line.now 0 word.now }
{
    !word.is_empty() && line.starts_with(word)
}

// Where a value begins, after ` name=`.
pub fn value_of(line: &[u8], name: &[u8]) -> Option<usize>
    ensures { MatchOption result (IsUnnamed line.now name.now) (IsFirstValue line.now name.now) }
{
    for i in 0..line.len() {
        if line[i..].starts_with(name) {
            return Some(i + name.len());
        }
    }
    None
}

// Decodes the bytes that a line names, in hex, as many as there is room for; returns how many.
pub fn bytes_of(line: &[u8], name: &[u8], out: &mut [u8]) -> usize
    ensures within { IsPrefixLen result out.new }
    ensures hex { (from : ℕ) × IsValuePlace line.now name.now from × IsFirst line.now name.now from
        × IsHexAt line.now from (take result out.new)
        × (result < length out.new → HasHex line.now (from + 2 * result) → ⊥) }
{
    match value_of(line, name) {
        Some(from) => decode(line, from, out),
        None => 0,
    }
}

// The number that a line names, modulo 2^32; 0 if it names none.
pub fn number_of(line: &[u8], name: &[u8]) -> u32
    ensures { IsNumberOf line.now name.now result }
{
    match value_of(line, name) {
        Some(from) => decimal(line, from),
        None => 0,
    }
}

// The value of a hex digit in lower case. `to_digit` of std takes upper case too.
fn digit(byte: u8) -> Option<u8>
    ensures { MatchOption result (IsNoDigit byte) (λ d. (d < 16) × (hex_digit d ≡ byte) × IsOnlyDigit byte d) }
{
    match byte {
        b'0'..=b'9' => Some(byte - b'0'),
        b'a'..=b'f' => Some(byte - b'a' + 10),
        _ => None,
    }
}

// Decodes the bytes in hex from a place on, as many as there are and as there is room for; returns how many.
fn decode(text: &[u8], from: usize, out: &mut [u8]) -> usize
    ensures within { IsPrefixLen result out.new }
    ensures hex { IsHexAt text.now from (take result out.new) }
    ensures stops { result < length out.new → HasHex text.now (from + 2 * result) → ⊥ }
{
    let mut i = from;
    for n in 0..out.len() {
        if text.len() <= i || text.len() - i < 2 {
            return n;
        }
        let Some(high) = digit(text[i]) else {
            return n;
        };
        let Some(low) = digit(text[i + 1]) else {
            return n;
        };
        out[n] = high * 16 + low;
        i += 2;
    }
    out.len()
}

// The decimal number from a place on, modulo 2^32; 0 if there are no digits.
pub fn decimal(text: &[u8], from: usize) -> u32
    ensures { result ≡ number_at text.now from % 4294967296 }
{
    let mut value: u32 = 0;
    for i in from..text.len() {
        let byte = text[i];
        if !byte.is_ascii_digit() {
            return value;
        }
        value = value.wrapping_mul(10).wrapping_add((byte - b'0') as u32);
    }
    value
}

// Numbers with commas between, then zeros.
pub fn numbers(text: &[u8], from: usize) -> [u32; 32]
    ensures { AreNumbers (drop from text.now) result }
{
    let mut values = [0u32; 32];
    let mut at = from;
    for value in values.iter_mut() {
        *value = decimal(text, at);
        at = match find(text, at, b',') {
            Some(comma) => comma + 1,
            None => text.len(),
        };
    }
    values
}

// Prints the four numbers of an answer, with spaces between.
pub fn print_answer<W: Write>(to: &mut W, answer: Answer) -> io::Result<()>
    ensures ok { OnOk result
        (Appends (W.contents to.old) (W.contents to.new)
        (four_text answer.code answer.object answer.bit answer.length)) }
    ensures err { OnErr result (Extends (W.contents to.old) (W.contents to.new)) }
{
    print_four(
        to,
        answer.code as u32,
        answer.object as u32,
        answer.bit as u32,
        answer.length,
    )
}

// For the calls for C, whose answer is an array: to make an `Answer` of it first is no plainer.
pub fn print_four<W: Write>(
    to: &mut W,
    code: u32,
    object: u32,
    bit: u32,
    length: u32,
) -> io::Result<()>
    ensures ok { OnOk result (Appends (W.contents to.old) (W.contents to.new) (four_text code object bit length)) }
    ensures err { OnErr result (Extends (W.contents to.old) (W.contents to.new)) }
{
    print_number(to, code as u64)?;
    print_next(to, b' ', object)?;
    print_next(to, b' ', bit)?;
    print_next(to, b' ', length)
}

// Prints bytes in hex, `-` if there are none.
pub fn print_hex<W: Write>(to: &mut W, bytes: &[u8]) -> io::Result<()>
    ensures ok { OnOk result (Appends (W.contents to.old) (W.contents to.new) (hex_text bytes.now)) }
    ensures err { OnErr result (Extends (W.contents to.old) (W.contents to.new)) }
{
    if bytes.is_empty() {
        return print(to, b"-");
    }
    for byte in bytes {
        print_byte(to, *byte)?;
    }
    Ok(())
}

fn print_byte<W: Write>(to: &mut W, byte: u8) -> io::Result<()>
    ensures ok { OnOk result (Appends (W.contents to.old) (W.contents to.new) (hex_byte byte)) }
    ensures err { OnErr result (Extends (W.contents to.old) (W.contents to.new)) }
{
    print(to, &[hex_digit(byte / 16), hex_digit(byte % 16)])
}

// In lower case. The one of text is in upper case, by a definition of its own: one for both cases is no plainer.
fn hex_digit(d: u8) -> u8
    requires { d < 16 }
    ensures { result ≡ hex_digit d }
{
    if d < 10 { b'0' + d } else { b'a' - 10 + d }
}

// Prints the first `count` numbers, with commas between.
pub fn print_numbers<W: Write>(to: &mut W, values: [u32; 32], count: usize) -> io::Result<()>
    ensures ok { OnOk result (Appends (W.contents to.old) (W.contents to.new) (numbers_text (take count values))) }
    ensures err { OnErr result (Extends (W.contents to.old) (W.contents to.new)) }
{
    for k in 0..count.min(32) {
        print_item(to, k, values[k])?;
    }
    Ok(())
}

// Prints a number that `before` others are in front of.
fn print_item<W: Write>(to: &mut W, before: usize, number: u32) -> io::Result<()>
    ensures ok { OnOk result (Appends (W.contents to.old) (W.contents to.new) (item_text before number)) }
    ensures err { OnErr result (Extends (W.contents to.old) (W.contents to.new)) }
{
    if before == 0 {
        return print_number(to, number as u64);
    }
    print_next(to, b',', number)
}

// Prints a mark and a number behind it.
fn print_next<W: Write>(to: &mut W, mark: u8, number: u32) -> io::Result<()>
    ensures ok { OnOk result (Appends (W.contents to.old) (W.contents to.new) (mark ∷ decimal number)) }
    ensures err { OnErr result (Extends (W.contents to.old) (W.contents to.new)) }
{
    print(to, &[mark])?;
    print_number(to, number as u64)
}

// Prints a number in decimal. The digits are put into a buffer first: of `write!` it isn't known what an error leaves.
pub fn print_number<W: Write>(to: &mut W, number: u64) -> io::Result<()>
    ensures ok { OnOk result (Appends (W.contents to.old) (W.contents to.new) (decimal number)) }
    ensures err { OnErr result (Extends (W.contents to.old) (W.contents to.new)) }
{
    let mut digits = [0u8; 20];
    let n = put_digits(&mut digits, number);
    print(to, &digits[..n])
}

// Puts the digits of a number into the buffer's front, highest first; returns how many.
fn put_digits(out: &mut [u8], number: u64) -> usize
    requires { length (decimal number) ≤ length out.old }
    ensures size { result ≡ length (decimal number) }
    ensures digits { take result out.new ≡ decimal number }
{
    if number < 10 {
        out[0] = b'0' + number as u8;
        return 1;
    }
    let n = put_digits(out, number / 10);
    out[n] = b'0' + (number % 10) as u8;
    n + 1
}

// Prints text.
pub fn print<W: Write>(to: &mut W, text: &[u8]) -> io::Result<()>
    ensures ok { OnOk result (Appends (W.contents to.old) (W.contents to.new) text.now) }
    ensures err { OnErr result (Extends (W.contents to.old) (W.contents to.new)) }
{
    shell::write_whole(to, text)
}
