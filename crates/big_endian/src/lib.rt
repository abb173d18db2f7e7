// Numbers in bytes, most significant byte first.
#![tactic(auto)]

ghost use Rattle.std.specs.Prelude.{◌≡◌, ℕ, ◌+◌, ◌≤◌, length};
ghost use Rattle.std.proofs.Common.{rules};
ghost use Rattle.big_endian.specs.Numbers.{bytes_of, worth, overwritten, Splits};

// The unsigned numbers that are written in N bytes.
pub trait BigEndian<const N: usize> {
    // the number that a value is
    ghost number: { Self → ℕ };

    // The number that bytes write.
    fn from_bytes(bytes: &[u8; N]) -> Self
        ensures { number result ≡ worth bytes.now };

    // The bytes of a number.
    fn to_bytes(self) -> [u8; N]
        ensures { result ≡ bytes_of N (number self) };

    // no two values are one number
    ghost told: { (a b : Self) → number a ≡ number b → a ≡ b };

    // no number has more bytes than the widest
    ghost narrow: { N ≤ 8 };
}

impl BigEndian<2> for u16 {
    ghost number = { λ n. n };

    ghost told = { λ a b same. same };

    ghost narrow = { Prim.search rules };

    fn from_bytes(bytes: &[u8; 2]) -> u16 {
        u16::from_be_bytes(*bytes)
    }

    fn to_bytes(self) -> [u8; 2] {
        u16::to_be_bytes(self)
    }
}

impl BigEndian<4> for u32 {
    ghost number = { λ n. n };

    ghost told = { λ a b same. same };

    ghost narrow = { Prim.search rules };

    fn from_bytes(bytes: &[u8; 4]) -> u32 {
        u32::from_be_bytes(*bytes)
    }

    fn to_bytes(self) -> [u8; 4] {
        u32::to_be_bytes(self)
    }
}

impl BigEndian<8> for u64 {
    ghost number = { λ n. n };

    ghost told = { λ a b same. same };

    ghost narrow = { Prim.search rules };

    fn from_bytes(bytes: &[u8; 8]) -> u64 {
        u64::from_be_bytes(*bytes)
    }

    fn to_bytes(self) -> [u8; 8] {
        u64::to_be_bytes(self)
    }
}

// The number that the first bytes write, as many as it has, and the bytes after them; `None` where there are fewer.
pub fn split<T: BigEndian<N>, const N: usize>(bytes: &[u8]) -> Option<(T, &[u8])>
    ensures { Splits T.number N bytes.now result }
{
    let (front, rest) = bytes.split_first_chunk::<N>()?;
    Some((T::from_bytes(front), rest))
}

// Writes a part over the bytes from place `at` on, and leaves every other byte as it is.
#[tactic(auto, using(crate::proofs::Overwriting::putMid_overwritten))]
pub fn overwrite(bytes: &mut [u8], at: usize, part: &[u8])
    requires { at + length part.now ≤ length bytes.old }
    ensures { bytes.new ≡ overwritten bytes.old at part.now }
{
    bytes[at..at + part.len()].copy_from_slice(part);
}
