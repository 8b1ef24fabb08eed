// An id, out of a slice.
ghost use Rattle.std.specs.Prelude.{◌≡◌, length};

// The 32 bytes.
pub fn id_in(id: &[u8]) -> [u8; 32]
    requires { length id.now ≡ 32 }
    ensures { result ≡ id.now }
{
    let mut given = [0u8; 32];
    given.copy_from_slice(id);
    given
}
