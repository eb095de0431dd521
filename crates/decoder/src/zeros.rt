// The bytes after the table, which are zero in a sound catalogue.
ghost use Rattle.std.specs.Prelude.{◌≡◌, ◌≤◌, bit_or, length, drop};
ghost use Rattle.std.specs.List.{fold};
ghost use Rattle.decoder.specs.Loading.{all_zero};

// The bits that stand in any of the bytes. No byte ends it, so that the compiler takes many at once, with one
// operation.
fn gathered(bytes: &[u8]) -> u8
    ensures { result ≡ fold bit_or 0 bytes.now }
{
    bytes.iter().fold(0, |all, byte| all | byte)
}

// Whether only zero bytes stand from a place on.
pub fn is_zero_from(cat: &[u8], at: usize) -> bool
    requires { at ≤ length cat.now }
    ensures { result ≡ all_zero (drop at cat.now) }
{
    gathered(&cat[at..]) == 0
}
