// Adler-32 of bytes and of doubles, and doubles as 64 bits.
ghost use Rattle.std.specs.Prelude.{◌≡◌, ◌+◌, ◌*◌, ◌<◌};
ghost use Rattle.std.specs.Float.{binary64};
ghost use Rattle.std.specs.Float.Ieee.{to_bits, of_bits};
ghost use Rattle.script.specs.Sums.{adler32, doubles};

use std::marker::Model;

// The bits of infinity, of the sign, and of the NaN. (codec::rows has the first two as well: scripts rest on nothing of the file.)
const INFINITY_BITS: u64 = 9218868437227405312;

const SIGN_BIT: u64 = 9223372036854775808;

pub const NAN_BITS: u64 = 9221120237041090560;

// The double with these bits, where every pattern of a NaN is the NaN.
pub fn double_of(bits: u64) -> f64
    ensures { result ≡ of_bits binary64 bits }
{
    if INFINITY_BITS < bits % SIGN_BIT {
        return 0.0 / 0.0;
    }
    f64::from_bits(bits)
}

// The bits of a double; a NaN has 7ff8000000000000.
#[tactic(auto, using(crate::proofs::Adler::bits_of_nan))]
fn bits_of(x: f64) -> u64
    ensures { result ≡ to_bits binary64 x }
{
    if x.is_nan() {
        return NAN_BITS;
    }
    x.to_bits()
}

// A sum on the way.
#[derive(Clone, Copy)]
struct Sum {
    a: u32,
    b: u32,
}

impl Model for Sum {
    ghost use Rattle.std.specs.Prelude.{◌<◌};
    ghost use Rattle.script.specs.Sums.{Parts};

    ghost Value = { Parts };

    ghost view = { λ s. record { a = s.a; b = s.b } };

    ghost invariant = { λ s. (s.a < 65521) × (s.b < 65521) };

    ghost inverse = { λ p. record { a = p.a; b = p.b } };
}

impl Sum {
    ghost use Rattle.std.specs.Prelude.{◌≡◌, fold};
    ghost use Rattle.std.specs.Float.{binary64};
    ghost use Rattle.std.specs.Float.Ieee.{to_bits};
    ghost use Rattle.std.specs.Int.{to_le_bytes};
    ghost use Rattle.std.proofs.Common.{w64};
    ghost use Rattle.script.specs.Sums.{step, begun, adler, total};

    // The sum of no bytes.
    fn new() -> Self
        ensures { result ≡ begun }
    {
        Sum { a: 1, b: 0 }
    }

    // The sum with the byte x added.
    #[tactic(auto, unfolding(crate::specs::Sums::step))]
    fn add(self, x: u8) -> Self
        ensures { result ≡ step self x }
    {
        let a = (self.a + x as u32) % 65521;
        let b = (self.b + a) % 65521;
        Sum { a, b }
    }

    // The sum with these bytes added.
    fn add_bytes(self, bytes: &[u8]) -> Self
        ensures { result ≡ adler self bytes.now }
    {
        bytes.iter().copied().fold(self, Sum::add)
    }

    // The sum with the bytes of these doubles added, eight each, the lowest first.
    fn add_doubles(self, s: &[f64]) -> Self
        ensures { result ≡ fold (λ t x. adler t (to_le_bytes w64 (to_bits binary64 x))) self s.now }
    {
        s.iter()
            .fold(self, |t, &x| t.add_bytes(&bits_of(x).to_le_bytes()))
    }

    // The sum as one number.
    fn total(self) -> u32
        ensures { result ≡ total self }
    {
        self.b * 65536 + self.a
    }
}

// The sum of bytes.
#[tactic(auto, unfolding(crate::specs::Sums::adler32))]
pub fn sum_bytes(s: &[u8]) -> u32
    ensures { result ≡ adler32 s.now }
{
    Sum::new().add_bytes(s).total()
}

// The sum of doubles, eight bytes each.
#[tactic(auto, using(crate::proofs::Adler::fold_doubles), unfolding(crate::specs::Sums::adler32))]
pub fn sum_doubles(s: &[f64]) -> u32
    ensures { result ≡ adler32 (doubles s.now) }
{
    Sum::new().add_doubles(s).total()
}
