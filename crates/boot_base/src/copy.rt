//! Bytes that a call that reads gives.
ghost use Rattle.std.specs.Prelude.{◌≡◌, ◌≤◌, ◌++◌, length, min, take, drop};

/// Copies the bytes from that place on, as many as there are and as there is room for, and tells how many.
pub fn copy_from(bytes: &[u8], at: usize, into: &mut [u8]) -> usize
    ensures within { result ≤ length into.new }
    ensures count { result ≡ min (length (drop at bytes.now)) (length into.old) }
    ensures copied { into.new ≡ take result (drop at bytes.now) ++ drop result into.old }
{
    let rest = bytes.get(at..).unwrap_or(&[]);
    let count = rest.len().min(into.len());
    into[..count].copy_from_slice(&rest[..count]);
    count
}
