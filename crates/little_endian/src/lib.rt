// Bytes read as little-endian numbers, one number at a place and a whole slice decoded into numbers; and a number's bytes
// written to a place.

#![tactic(auto)]

ghost use Rattle.std.specs.Prelude.{◌≡◌, ◌++◌, ◌+◌, ◌/◌, ◌<◌, ◌≤◌, length, drop};
ghost use Rattle.little_endian.specs.Bytes.{le32, le64, int32, int64, int32s, int64s};
ghost use Rattle.little_endian.specs.Writing.{bytes16, bytes32, signed_bytes, put};

// The four bytes from `at`.
pub fn u32_at(b: &[u8], at: usize) -> u32
    requires { at + 4 ≤ length b.now }
    ensures { result ≡ le32 b.now at }
{
    u32::from_le_bytes([b[at], b[at + 1], b[at + 2], b[at + 3]])
}

// The eight bytes from `at`.
fn u64_at(b: &[u8], at: usize) -> u64
    requires { at + 8 ≤ length b.now }
    ensures { result ≡ le64 b.now at }
{
    u64::from_le_bytes([
        b[at],
        b[at + 1],
        b[at + 2],
        b[at + 3],
        b[at + 4],
        b[at + 5],
        b[at + 6],
        b[at + 7],
    ])
}

// The four bytes from `at`, signed.
pub fn i32_at(b: &[u8], at: usize) -> i32
    requires { at + 4 ≤ length b.now }
    ensures { result ≡ int32 b.now at }
{
    u32_at(b, at).cast_signed()
}

// The eight bytes from `at`, signed.
fn i64_at(b: &[u8], at: usize) -> i64
    requires { at + 8 ≤ length b.now }
    ensures { result ≡ int64 b.now at }
{
    u64_at(b, at).cast_signed()
}

// All whole numbers of four bytes in b, signed, into the front of out.
pub fn decode_i32(b: &[u8], out: &mut [i32])
    requires { length b.now / 4 ≤ length out.old }
    ensures { out.new ≡ int32s b.now ++ drop (length b.now / 4) out.old }
{
    for i in 0..b.len() / 4 {
        out[i] = i32_at(b, 4 * i);
    }
}

// All whole numbers of eight bytes in b, signed, into the front of out.
pub fn decode_i64(b: &[u8], out: &mut [i64])
    requires { length b.now / 8 ≤ length out.old }
    ensures { out.new ≡ int64s b.now ++ drop (length b.now / 8) out.old }
{
    for i in 0..b.len() / 8 {
        out[i] = i64_at(b, 8 * i);
    }
}

// The two bytes of v, from `at` on. v has no more than these.
pub fn put_u16(out: &mut [u8], at: usize, v: usize)
    requires { (at + 2 ≤ length out.old) × (v < 65536) }
    ensures { out.new ≡ put out.old at (bytes16 v) }
{
    out[at..at + 2].copy_from_slice(&(v as u16).to_le_bytes());
}

// The four bytes of v, from `at` on.
pub fn put_u32(out: &mut [u8], at: usize, v: u32)
    requires { at + 4 ≤ length out.old }
    ensures { out.new ≡ put out.old at (bytes32 v) }
{
    out[at..at + 4].copy_from_slice(&v.to_le_bytes());
}

// The four bytes of a signed number, from `at` on.
pub fn put_i32(out: &mut [u8], at: usize, z: i32)
    requires { at + 4 ≤ length out.old }
    ensures { out.new ≡ put out.old at (signed_bytes z) }
{
    put_u32(out, at, z.cast_unsigned());
}
