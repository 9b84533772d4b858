// What the three forms share: a length that fills the slice, and X and Y.
ghost use Rattle.std.specs.Prelude.{◌≡◌, ◌≤◌, ◌<◌, length, get_or};
ghost use Rattle.history.specs.Form.{is_whole};
ghost use Rattle.heads.specs.Heads.{is_under, front_form};

// The byte at a place, widened for arithmetic.
pub fn byte_at(s: &[u8], at: usize) -> usize
    requires { at < length s.now }
    ensures { (result ≡ get_or s.now at 0) × (result < 256) }
{
    s[at] as usize
}

// The form fills its slice exactly, and its length is at least `least`.
pub fn is_whole(form: &[u8], least: u32) -> bool
    ensures { result ≡ is_whole least form.now }
{
    if form.len() < 4 {
        return false;
    }
    let after = octets::get_at(form, 0, 4);
    if form.len() != 4 + after as usize {
        return false;
    }
    least <= after
}

// The form's X and Y are these, the table's.
pub fn is_under(form: &[u8], x: u8, y: u8) -> bool
    requires { 7 ≤ length form.now }
    ensures { result ≡ is_under x y form.now }
{
    if form[5] != x {
        return false;
    }
    form[6] == y
}

// The first of several forms that lie end to end. Bytes that hold none in full are returned as
// they are, and `is_whole` is false for them.
pub fn front_form(forms: &[u8]) -> &[u8]
    ensures { result.now ≡ front_form forms.now }
{
    if forms.len() < 4 {
        return forms;
    }
    let size = 4 + octets::get_at(forms, 0, 4) as usize;
    if forms.len() < size {
        return forms;
    }
    &forms[..size]
}
