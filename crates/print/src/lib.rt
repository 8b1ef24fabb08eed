// Text put into a lent buffer at a cursor. Where there is no room for the whole piece, nothing is put and the cursor stays.
#![tactic(auto)]

ghost use Rattle.std.specs.Prelude.{◌≡◌, ◌≤◌, drop, length};
ghost use Rattle.print.specs.Page.{page, write};
ghost use Rattle.print.specs.Numerals.{decimal};

// Puts the bytes of text, and answers the next cursor.
pub fn put(out: &mut [u8], at: usize, text: &[u8]) -> usize
    ensures { page out.new result ≡ write text.now (page out.old at) }
{
    if out.len() < at {
        return at;
    }
    if out.len() - at < text.len() {
        return at;
    }
    out[at..at + text.len()].copy_from_slice(text);
    at + text.len()
}

// A lent buffer and its cursor.
#[derive(Drop)]
pub struct Cursor<'a> {
    pub out: &'a mut [u8],
    pub at: usize,
}

impl<'a> Cursor<'a> {
    ghost use Rattle.std.specs.Prelude.{◌≡◌, [], ◌∷◌};
    ghost use Rattle.print.specs.Page.{page, page_of, write};
    ghost use Rattle.print.specs.Numerals.{decimal};

    // The start of a buffer.
    pub fn new(out: &'a mut [u8]) -> Self
        ensures same_buffer { result.out.ghost_name ≡ out.entry.ghost_name }
        ensures start { page_of result ≡ page out.old 0 }
    {
        Cursor { out, at: 0 }
    }

    // Puts the bytes of text.
    pub fn put(&mut self, text: &[u8])
        ensures same_buffer { self.new.out.ghost_name ≡ self.old.out.ghost_name }
        ensures written { page_of self.new ≡ write text.now (page_of self.old) }
    {
        let at = self.at;
        let end = put(self.out, at, text);
        self.at = end;
    }

    // Puts the byte b.
    pub fn put_byte(&mut self, b: u8)
        ensures same_buffer { self.new.out.ghost_name ≡ self.old.out.ghost_name }
        ensures written { page_of self.new ≡ write (b ∷ []) (page_of self.old) }
    {
        self.put(&[b]);
    }

    // Puts the decimal digits of n.
    pub fn put_decimal(&mut self, n: u64)
        ensures same_buffer { self.new.out.ghost_name ≡ self.old.out.ghost_name }
        ensures written { page_of self.new ≡ write (decimal n) (page_of self.old) }
    {
        let mut text = [0u8; 20];
        let k = digits_into(n, &mut text);
        self.put(&text[k..]);
    }
}

// Puts the decimal digits of n at the end of text, and answers where they begin.
// (The `while` ends with the digits: how many there are is not known before.)
fn digits_into(n: u64, text: &mut [u8; 20]) -> usize
    ensures in_bounds { result ≤ length text.new }
    ensures value { drop result text.new ≡ decimal n }
{
    let mut at = 20;
    let mut rest = n;
    while rest >= 10 {
        at -= 1;
        text[at] = 48 + (rest % 10) as u8;
        rest /= 10;
    }
    at -= 1;
    text[at] = 48 + rest as u8;
    at
}
