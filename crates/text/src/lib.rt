// The floor of text: decimal numbers, upper-case hex and bytes, written into a lent buffer. A page is the buffer and
// the place in it that is written next; each writer moves the place behind what it wrote (`Grew`). It knows no form and
// touches nothing but those bytes.
#![tactic(auto)]

ghost use Rattle.std.specs.Prelude.{◌≡◌, ◌+◌, ◌*◌, ◌≤◌, ◌<◌, [], ◌∷◌, length};
ghost use Rattle.text.specs.Decimal.{decimal};
ghost use Rattle.text.specs.Grew.{Grew};
ghost use Rattle.text.specs.Hex.{hex_digit, hexes};

// A lent buffer that is written from its front on.
#[derive(Drop)]
pub struct Page<'a> {
    out: &'a mut [u8],
    at: usize,
}

impl<'a> Page<'a> {
    // Nothing is written yet.
    pub fn new(out: &'a mut [u8]) -> Page<'a>
        ensures same { result.out.ghost_name ≡ out.entry.ghost_name }
        ensures text { result.out.now ≡ out.old }
        ensures place { result.at ≡ 0 }
    {
        Page { out, at: 0 }
    }

    // How many bytes the written front has.
    pub fn len(&self) -> usize
        ensures { result ≡ self.now.at }
    {
        self.at
    }

    // Writes one byte.
    pub fn byte(&mut self, b: u8)
        requires { self.old.at + 1 ≤ length self.old.out.now }
        ensures { Grew self.old (b ∷ []) self.new }
    {
        self.out[self.at] = b;
        self.at += 1;
    }

    // Writes the digits of `n`, highest first, without leading zeros.
    pub fn decimal(&mut self, n: u32)
        requires { self.old.at + length (decimal n) ≤ length self.old.out.now }
        ensures { Grew self.old (decimal n) self.new }
    {
        if n < 10 {
            return self.byte(b'0' + n as u8);
        }
        self.decimal(n / 10);
        self.byte(b'0' + (n % 10) as u8);
    }

    // Writes the bytes of `src`.
    pub fn bytes(&mut self, src: &[u8])
        requires { self.old.at + length src.now ≤ length self.old.out.now }
        ensures { Grew self.old src.now self.new }
    {
        let end = self.at + src.len();
        octets::copy(&mut self.out[self.at..end], src);
        self.at = end;
    }

    // Writes the bytes of `src` in upper-case hex.
    pub fn hex(&mut self, src: &[u8])
        requires { self.old.at + 2 * length src.now ≤ length self.old.out.now }
        ensures { Grew self.old (hexes src.now) self.new }
    {
        for b in src {
            self.hex_byte(*b);
        }
    }

    // Writes a byte as two hex digits.
    fn hex_byte(&mut self, b: u8)
        requires { self.old.at + 2 ≤ length self.old.out.now }
        ensures { Grew self.old (hexes (b ∷ [])) self.new }
    {
        self.byte(hex_digit(b / 16));
        self.byte(hex_digit(b % 16));
    }
}

#[tactic(auto, unfolding(crate::specs::Hex::hex_digit))]
fn hex_digit(d: u8) -> u8
    requires { d < 16 }
    ensures { result ≡ hex_digit d }
{
    if d < 10 { b'0' + d } else { b'A' - 10 + d }
}
