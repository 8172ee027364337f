// Writing: bytes and decimal numbers into a lent buffer, one after another, never past its end.
ghost use Rattle.std.specs.Prelude.{◌≡◌, ℕ, List, map, take};
ghost use Rattle.dialogue.specs.Written.{decimal, signed_decimal, led};
ghost use Rattle.dialogue.specs.Puts.{Puts};

// A buffer that is lent, and the place in it up to which it is written.
#[derive(Drop)]
pub struct Writer<'a> {
    pub out: &'a mut [u8],
    pub at: usize,
}

// A number of a type, as it is written in decimal.
pub trait Decimal: Copy {
    ghost decimal: { Self → List ℕ };

    // The number in decimal.
    fn put_decimal(self, w: &mut Writer)
        ensures { Puts w.old w.new (decimal self) };
}

impl Decimal for u32 {
    ghost decimal = { decimal };

    fn put_decimal(self, w: &mut Writer) {
        w.put_number(u64::from(self))
    }
}

impl Decimal for u8 {
    ghost decimal = { decimal };

    fn put_decimal(self, w: &mut Writer) {
        w.put_number(u64::from(self))
    }
}

impl Decimal for i32 {
    ghost decimal = { signed_decimal };

    fn put_decimal(self, w: &mut Writer) {
        w.put_signed(self)
    }
}

impl<'a> Writer<'a> {
    // A writer at the buffer's front.
    pub fn new(out: &'a mut [u8]) -> Writer<'a>
        ensures same { result.out.ghost_name ≡ out.entry.ghost_name }
        ensures at_front { (result.at ≡ 0) × (result.out.now ≡ out.entry.now) }
    {
        Writer { out, at: 0 }
    }

    // What is written so far.
    pub fn text(&self) -> &[u8]
        ensures { result.now ≡ take self.now.at self.now.out.now }
    {
        &self.out[..self.at.min(self.out.len())]
    }

    // The bytes of `text`, as far as there is room. Byte by byte, since most texts are a byte or two: with `copy_from_slice` a plan with all
    // its room lent took 7% longer.
    pub fn put(&mut self, text: &[u8])
        ensures { Puts self.old self.new text.now }
    {
        for &byte in text {
            if self.out.len() <= self.at {
                return;
            }
            self.out[self.at] = byte;
            self.at += 1;
        }
    }

    // A number in decimal.
    pub fn put_number(&mut self, n: u64)
        ensures { Puts self.old self.new (decimal n) }
    {
        let mut text = [0u8; 20];
        let k = io::decimal(n, &mut text);
        self.put(&text[..k]);
    }

    // A signed number in decimal.
    pub fn put_signed(&mut self, z: i32)
        ensures { Puts self.old self.new (signed_decimal z) }
    {
        let n = z.unsigned_abs() as u64;
        if z < 0 {
            self.put(b"-");
        }
        self.put_number(n);
    }

    // The numbers of a list, each led by a space.
    pub fn put_list<T: Decimal>(&mut self, list: &[T])
        ensures { Puts self.old self.new (led (map T.decimal list.now)) }
    {
        for &number in list {
            self.put(b" ");
            number.put_decimal(self);
        }
    }
}
