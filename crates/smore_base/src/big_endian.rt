//! Fields of records: numbers with the highest byte first, and bytes as they are. Each call writes or reads one field
//! at a place, and says what stands up to its end, so that a record is its fields, one behind the other.

ghost use Rattle.std.specs.Prelude.{◌≡◌, ◌+◌, ◌-◌, ◌≤◌, ◌++◌, length, take, drop, replicate};
ghost use Rattle.std.specs.Int.{w8, w16, w32, w64};
ghost use Rattle.smore_base.specs.BigEndian.{big_endian, number_at, IsWritten, Stands};

/// Writes the bytes from `at` on, and answers where they end.
pub fn write_bytes(out: &mut [u8], at: usize, bytes: &[u8]) -> usize
    requires { at + length bytes.now ≤ length out.old }
    ensures end { result ≡ at + length bytes.now }
    ensures written { IsWritten at result bytes.now out.old out.new }
{
    let end = at + bytes.len();
    out[at..end].copy_from_slice(bytes);
    end
}

/// Writes zeros from `at` to the end.
pub fn write_zeros(out: &mut [u8], at: usize)
    requires { at ≤ length out.old }
    ensures { out.new ≡ take at out.old ++ replicate (length out.old - at) 0 }
{
    out[at..].fill(0);
}

/// Writes one byte at `at`, and answers where it ends.
pub fn write_u8(out: &mut [u8], at: usize, number: u8) -> usize
    requires { at + 1 ≤ length out.old }
    ensures end { result ≡ at + 1 }
    ensures written { IsWritten at result (big_endian w8 number) out.old out.new }
{
    write_bytes(out, at, &[number])
}

/// Writes two bytes from `at` on, and answers where they end.
pub fn write_u16(out: &mut [u8], at: usize, number: u16) -> usize
    requires { at + 2 ≤ length out.old }
    ensures end { result ≡ at + 2 }
    ensures written { IsWritten at result (big_endian w16 number) out.old out.new }
{
    write_bytes(out, at, &number.to_be_bytes())
}

/// Writes four bytes from `at` on, and answers where they end.
pub fn write_u32(out: &mut [u8], at: usize, number: u32) -> usize
    requires { at + 4 ≤ length out.old }
    ensures end { result ≡ at + 4 }
    ensures written { IsWritten at result (big_endian w32 number) out.old out.new }
{
    write_bytes(out, at, &number.to_be_bytes())
}

/// Writes eight bytes from `at` on, and answers where they end.
pub fn write_u64(out: &mut [u8], at: usize, number: u64) -> usize
    requires { at + 8 ≤ length out.old }
    ensures end { result ≡ at + 8 }
    ensures written { IsWritten at result (big_endian w64 number) out.old out.new }
{
    write_bytes(out, at, &number.to_be_bytes())
}

/// The bytes that stand from `at` on, as many as are wanted.
pub fn read_bytes<const N: usize>(bytes: &[u8], at: usize) -> [u8; N]
    requires { at + N ≤ length bytes.now }
    ensures value { result ≡ take N (drop at bytes.now) }
    ensures spelled { Stands at (at + N) result bytes.now }
{
    let mut out = [0; N];
    out.copy_from_slice(&bytes[at..at + N]);
    out
}

/// The byte at `at`.
pub fn read_u8(bytes: &[u8], at: usize) -> u8
    requires { at + 1 ≤ length bytes.now }
    ensures value { result ≡ number_at w8 bytes.now at }
    ensures spelled { Stands at (at + 1) (big_endian w8 result) bytes.now }
{
    bytes[at]
}

/// The number whose two bytes stand from `at` on.
pub fn read_u16(bytes: &[u8], at: usize) -> u16
    requires { at + 2 ≤ length bytes.now }
    ensures value { result ≡ number_at w16 bytes.now at }
    ensures spelled { Stands at (at + 2) (big_endian w16 result) bytes.now }
{
    u16::from_be_bytes(read_bytes(bytes, at))
}

/// The number whose four bytes stand from `at` on.
pub fn read_u32(bytes: &[u8], at: usize) -> u32
    requires { at + 4 ≤ length bytes.now }
    ensures value { result ≡ number_at w32 bytes.now at }
    ensures spelled { Stands at (at + 4) (big_endian w32 result) bytes.now }
{
    u32::from_be_bytes(read_bytes(bytes, at))
}

/// The number whose eight bytes stand from `at` on.
pub fn read_u64(bytes: &[u8], at: usize) -> u64
    requires { at + 8 ≤ length bytes.now }
    ensures value { result ≡ number_at w64 bytes.now at }
    ensures spelled { Stands at (at + 8) (big_endian w64 result) bytes.now }
{
    u64::from_be_bytes(read_bytes(bytes, at))
}

#[cfg(test)]
mod tests {
    use super::*;

    #[test]
    fn fields_stand_one_behind_the_other(rt: HostRuntime) {
        let mut out = [9; 20];
        let at = write_u8(&mut out, 0, 0x01);
        let at = write_u16(&mut out, at, 0x0203);
        let at = write_u32(&mut out, at, 0x0405_0607);
        let at = write_u64(&mut out, at, 0x0809_0a0b_0c0d_0e0f);
        let at = write_bytes(&mut out, at, b"hi");
        write_zeros(&mut out, at);
        let spelled = b"\x01\x02\x03\x04\x05\x06\x07\x08\x09\x0a\x0b\x0c\x0d\x0e\x0fhi\0\0\0";
        assert_eq!(rt; &out, spelled);
        assert_eq!(rt; read_u8(&out, 1), 0x02);
        assert_eq!(rt; read_u16(&out, 1), 0x0203);
        assert_eq!(rt; read_u32(&out, 3), 0x0405_0607);
        assert_eq!(rt; read_u64(&out, 7), 0x0809_0a0b_0c0d_0e0f);
        assert_eq!(rt; &read_bytes::<2>(&out, 15), b"hi");
    }
}
