ghost use Rattle.std.specs.Prelude.{◌≡◌, min, drop};
ghost use Rattle.wp_outside.specs.Disk.{IsRead};

/// Copies the bytes from `at` on into the front of `buf`, as many as there are and fit, and says how many.
pub(crate) fn copy_from(bytes: &[u8], at: usize, buf: &mut [u8]) -> usize
    ensures read { IsRead bytes.now at buf.new result }
    ensures rest { drop result buf.new ≡ drop result buf.old }
{
    let count = bytes.len().saturating_sub(at).min(buf.len());
    if count > 0 {
        buf[..count].copy_from_slice(&bytes[at..at + count]);
    }
    count
}
