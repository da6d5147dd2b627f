// A text that is written from its front on, and what is written into it: bytes, and numbers in decimal.
ghost use Rattle.std.specs.Prelude.{[], ◌∷◌, ◌+◌, ◌≤◌, ◌<◌, length};
ghost use Rattle.listing.specs.Text.{decimal};
ghost use Rattle.listing.specs.Listing.{field};
ghost use Rattle.listing.specs.Steps.{Put};

// A text, and how far it is written.
#[derive(Drop)]
pub struct Page<'a> {
    pub text: &'a mut [u8],
    // The place behind what is written so far.
    pub at: usize,
}

impl Page<'_> {
    // Bytes.
    pub fn put(&mut self, piece: &[u8])
        requires { self.old.at + length piece.now ≤ length self.old.text.now }
        ensures { Put piece.now self.old self.new }
    {
        self.at = records::put(piece, self.at, self.text);
    }

    // One byte.
    fn put_byte(&mut self, byte: u8)
        requires { self.old.at < length self.old.text.now }
        ensures { Put (byte ∷ []) self.old self.new }
    {
        self.text[self.at] = byte;
        self.at += 1;
    }

    // A number in decimal, without leading zeros.
    pub fn put_decimal(&mut self, n: u32)
        requires { self.old.at + length (decimal n) ≤ length self.old.text.now }
        ensures { Put (decimal n) self.old self.new }
    {
        if n < 10 {
            self.put_byte(b'0' + n as u8);
        } else {
            self.put_decimal(n / 10);
            self.put_byte(b'0' + (n % 10) as u8);
        }
    }

    // A number, and the mark behind it.
    pub fn put_field(&mut self, n: u32, mark: u8)
        requires { self.old.at + length (field n mark) ≤ length self.old.text.now }
        ensures { Put (field n mark) self.old self.new }
    {
        self.put_decimal(n);
        self.put_byte(mark);
    }
}
