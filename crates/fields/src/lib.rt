// Words and numbers written into a lent buffer, one behind the other.
#![tactic(auto)]

ghost use Rattle.std.specs.Prelude.{◌≡◌, [], ◌∷◌, ◌+◌, ◌*◌, ◌<◌, ◌≤◌, length};
ghost use Rattle.fields.specs.Fields.{decimal, fields};
ghost use Rattle.fields.specs.inner.Put.{HasRoom, Put};

// A lent buffer, and the place behind what is written: no heap, and std's writers promise no byte (`put_decimal`).
#[derive(Drop)]
pub struct Writer<'a> {
    pub out: &'a mut [u8],
    pub at: usize,
}

impl<'a> Writer<'a> {
    // Writes from the start of the buffer on.
    pub fn new(out: &'a mut [u8]) -> Writer<'a>
        ensures same { result.out.ghost_name ≡ out.entry.ghost_name }
        ensures buffer { result.out.now ≡ out.old }
        ensures place { result.at ≡ 0 }
    {
        Writer { out, at: 0 }
    }

    fn put_byte(&mut self, byte: u8)
        requires { HasRoom 1 self.old }
        ensures { Put (byte ∷ []) self.old self.new }
    {
        self.out[self.at] = byte;
        self.at += 1;
    }

    pub fn put_word(&mut self, word: &[u8])
        requires { HasRoom (length word.now) self.old }
        ensures { Put word.now self.old self.new }
    {
        let end = self.at + word.len();
        self.out[self.at..end].copy_from_slice(word);
        self.at = end;
    }

    // A digit is below 10: a `try_from` could not fail and would be no plainer than the cast.
    fn put_digit(&mut self, digit: u16)
        requires below_ten { digit < 10 }
        requires room { HasRoom 1 self.old }
        ensures { Put ((48 + digit) ∷ []) self.old self.new }
    {
        self.put_byte(b'0' + digit as u8);
    }

    // By hand, since std's `write!` promises no byte of what it leaves in a lent slice. The first digit returns early: it is written without a frame.
    pub fn put_decimal(&mut self, n: u16)
        requires { HasRoom (length (decimal n)) self.old }
        ensures { Put (decimal n) self.old self.new }
    {
        if n < 10 {
            self.put_digit(n);
            return;
        }
        self.put_decimal(n / 10);
        self.put_digit(n % 10);
    }

    // The numbers that follow the first word of a line, each behind a space, and the end of the line.
    pub fn put_fields(&mut self, numbers: &[u16])
        requires { HasRoom (6 * length numbers.now + 1) self.old }
        ensures put { Put (fields numbers.now) self.old self.new }
        ensures upper_bound { self.new.at ≤ self.old.at + 6 * length numbers.now + 1 }
    {
        for n in numbers {
            self.put_byte(b' ');
            self.put_decimal(*n);
        }
        self.put_byte(b'\n');
    }
}
