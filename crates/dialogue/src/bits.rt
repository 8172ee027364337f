// A binary32 number and its bits.
ghost use Rattle.std.specs.Prelude.{◌≡◌};
ghost use Rattle.std.specs.Float.Ieee.{of_bits};
ghost use Rattle.std.specs.Float.{binary32};

// The weights of the sign and of the exponent's field in a pattern, and that field of an infinity or a NaN.
const SIGN: u32 = 0x8000_0000;

const FIELD: u32 = 0x80_0000;

const ONES: u32 = 255;

// The binary32 number that has these bits; all NaNs' bits give the one NaN. They are told by hand, as `f32::from_bits` asks for bits of none.
pub fn float_of(bits: u32) -> f32
    ensures { result ≡ of_bits binary32 bits }
{
    if bits % SIGN / FIELD == ONES && 0 < bits % FIELD {
        return f32::NAN;
    }
    f32::from_bits(bits)
}
