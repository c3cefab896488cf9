// Rounding up to an alignment.
ghost use Rattle.std.specs.Prelude.{◌≡◌, ◌+◌, ◌≤◌};
ghost use Rattle.semantics.specs.Layout.{align_up};

// The least multiple of `align` that is not below `off`. It is worked out in 64 bits, so that no offset is too large to be rounded up.
pub fn align_up(off: u32, align: u32) -> u64
    ensures { (result ≡ align_up align off) × (result ≤ off + align) }
{
    // there is no multiple of 0 but 0
    if align == 0 {
        return 0;
    }
    u64::from(off).next_multiple_of(u64::from(align))
}
