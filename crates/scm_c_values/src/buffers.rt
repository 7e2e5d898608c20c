//! Texts in a caller's buffer.
ghost use Rattle.std.specs.Prelude.{◌≡◌, length};
ghost use Rattle.scm_c_values.specs.Buffers.{over};

/// Writes `bytes` to `out`, clipped to its length. Returns the whole length.
pub fn write_text(bytes: &[u8], out: &mut [u8]) -> usize
    ensures len { result ≡ length bytes.now }
    ensures written { out.new ≡ over bytes.now out.old }
{
    let fits = bytes.len().min(out.len());
    out[..fits].copy_from_slice(&bytes[..fits]);
    bytes.len()
}
