// The 32-bit hash FNV-1a over bytes.
ghost use Rattle.std.specs.Prelude.{◌≡◌};
ghost use Rattle.text.specs.Fnv.{fnv_with, fnv_from, fnv_of};

// The hash of no bytes.
pub const FNV_START: u32 = 2166136261;

// The hash with one byte more.
pub fn fnv_with(hash: u32, byte: u8) -> u32
    ensures { result ≡ fnv_with hash byte }
{
    (hash ^ u32::from(byte)).wrapping_mul(16777619)
}

// The hash with these bytes more.
pub fn fnv_from(start: u32, bytes: &[u8]) -> u32
    ensures { result ≡ fnv_from start bytes.now }
{
    bytes.iter().fold(start, |hash, byte| fnv_with(hash, *byte))
}

// The hash of these bytes.
pub fn fnv_of(bytes: &[u8]) -> u32
    ensures { result ≡ fnv_of bytes.now }
{
    fnv_from(FNV_START, bytes)
}
