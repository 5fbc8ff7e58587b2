// The field that a signed whole number leaves above the frame.
ghost use Rattle.std.specs.Prelude.{◌≡◌, ◌-ℤ◌, ◌≤ℤ◌, unsigned_abs};

// The signed difference may not fit, so it is that of the words.
pub fn field(z: i64, frame: i64) -> u64
    requires { frame ≤ℤ z }
    ensures { result ≡ unsigned_abs (z -ℤ frame) }
{
    z.cast_unsigned().wrapping_sub(frame.cast_unsigned())
}
