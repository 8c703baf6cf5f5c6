//! Numbers in files, the lowest byte first.

ghost use Rattle.std.specs.Prelude.{◌≡◌, ◌++◌, ◌+◌, ◌≤◌, length, take, drop};
ghost use Rattle.std.specs.Int.{w16, w32, w64, from_le_bytes, to_le_bytes};

/// The number of 2 bytes from a place on.
pub fn get_u16(bytes: &[u8], at: usize) -> u16
    requires { at + 2 ≤ length bytes.now }
    ensures { result ≡ from_le_bytes w16 (take 2 (drop at bytes.now)) }
{
    u16::from_le_bytes([bytes[at], bytes[at + 1]])
}

/// The 2 bytes from a place on become a number's.
pub fn put_u16(into: &mut [u8], at: usize, v: u16)
    requires { at + 2 ≤ length into.old }
    ensures { into.new ≡ take at into.old ++ to_le_bytes w16 v ++ drop (at + 2) into.old }
{
    into[at..at + 2].copy_from_slice(&v.to_le_bytes());
}

/// The number of 4 bytes from a place on.
pub fn get_u32(bytes: &[u8], at: usize) -> u32
    requires { at + 4 ≤ length bytes.now }
    ensures { result ≡ from_le_bytes w32 (take 4 (drop at bytes.now)) }
{
    u32::from_le_bytes([bytes[at], bytes[at + 1], bytes[at + 2], bytes[at + 3]])
}

/// The 4 bytes from a place on become a number's.
pub fn put_u32(into: &mut [u8], at: usize, v: u32)
    requires { at + 4 ≤ length into.old }
    ensures { into.new ≡ take at into.old ++ to_le_bytes w32 v ++ drop (at + 4) into.old }
{
    into[at..at + 4].copy_from_slice(&v.to_le_bytes());
}

/// The number of 8 bytes from a place on.
pub fn get_u64(bytes: &[u8], at: usize) -> u64
    requires { at + 8 ≤ length bytes.now }
    ensures { result ≡ from_le_bytes w64 (take 8 (drop at bytes.now)) }
{
    u64::from_le_bytes([
        bytes[at],
        bytes[at + 1],
        bytes[at + 2],
        bytes[at + 3],
        bytes[at + 4],
        bytes[at + 5],
        bytes[at + 6],
        bytes[at + 7],
    ])
}

/// The 8 bytes from a place on become a number's.
pub fn put_u64(into: &mut [u8], at: usize, v: u64)
    requires { at + 8 ≤ length into.old }
    ensures { into.new ≡ take at into.old ++ to_le_bytes w64 v ++ drop (at + 8) into.old }
{
    into[at..at + 8].copy_from_slice(&v.to_le_bytes());
}
