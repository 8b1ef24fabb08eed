// The Reader of the file's bytes, and what is taken through it. It is a thin record that holds what is left of them; its step takes the record apart and
// calls `codec::numbers` on parts of the lent bytes. What is over it takes plain parameters.
#![tactic(auto)]

ghost use Rattle.std.specs.Prelude.{◌≡◌, ◌+◌, ◌≤◌, length, take, drop};
ghost use Rattle.mem.specs.Le.{le_at};

// What is left to read.
#[derive(Drop)]
pub struct Reader<'a> {
    pub bytes: &'a [u8],
}

impl<'a> Reader<'a> {
    // A reader of all these bytes.
    fn new(bytes: &'a [u8]) -> Self
        ensures { result.bytes ≡ bytes.entry }
    {
        Reader { bytes }
    }

    // The take step: the first n bytes are handed back, the head of what was lent itself and never a copy, and the reader goes past them. Where there are fewer, all of them, and nothing is left.
    pub fn take(&mut self, n: usize) -> &'a [u8]
        ensures { (result.ref_ptr ≡ self.old.bytes.ref_ptr) × (result.now ≡ take n self.old.bytes.now) × (self.new.bytes.now ≡ drop n self.old.bytes.now) }
    {
        let b = self.bytes;
        let t = codec::numbers::rest(b, n);
        self.bytes = t;
        codec::numbers::take(b, n)
    }
}

// The n bytes after the first `at`: a reader takes those, and then these.
pub fn part(s: &[u8], at: usize, n: usize) -> &[u8]
    ensures { result.now ≡ take n (drop at s.now) }
{
    let mut r = Reader::new(s);
    r.take(at);
    r.take(n)
}

// The number in the four bytes after the first `at`.
pub fn number(s: &[u8], at: usize) -> u32
    requires { at + 4 ≤ length s.now }
    ensures { result ≡ le_at 4 s.now at }
{
    mem::u32_le(part(s, at, 4), 0)
}
