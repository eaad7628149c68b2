// ASCII text: digits read, and bytes and numbers appended to a text in a lent buffer.
#![tactic(auto)]

ghost use Rattle.std.specs.Prelude.{◌≡◌, take};
ghost use Rattle.text.specs.Digit.{hex_digit};
ghost use Rattle.text.specs.Append.{Extends};
ghost use Rattle.text.specs.Numeral.{decimal_text, hex_text};

// The value of a hexadecimal digit of either case.
pub fn hex_digit(byte: u8) -> Option<u32>
    ensures { result ≡ hex_digit byte }
{
    char::from(byte).to_digit(16)
}

// A text: the first `end` bytes of a lent buffer. What is appended goes behind them, and what has no room there is left out.
#[derive(Drop)]
pub struct Text<'a> {
    pub bytes: &'a mut [u8],
    pub end: usize,
}

impl<'a> Text<'a> {
    // No text yet, in a buffer.
    pub fn new(bytes: &'a mut [u8]) -> Text<'a>
        ensures buffer { result.bytes ≡ bytes.entry }
        ensures empty { result.end ≡ 0 }
    {
        Text { bytes, end: 0 }
    }

    // The bytes of the text.
    pub fn written(&self) -> &[u8]
        ensures { result.now ≡ take self.now.end self.now.bytes.now }
    {
        &self.bytes[..self.end.min(self.bytes.len())]
    }

    // Appends bytes.
    pub fn append(&mut self, bytes: &[u8])
        ensures { Extends bytes.now self.old self.new }
    {
        let mut end = self.end;
        for i in 0..bytes.len() {
            if end < self.bytes.len() {
                self.bytes[end] = bytes[i];
                end += 1;
            }
        }
        self.end = end;
    }

    // Appends a number in decimal.
    pub fn append_decimal(&mut self, n: u64)
        ensures { Extends (decimal_text n) self.old self.new }
    {
        let mut digits = [0u8; 20];
        let k = io::decimal(n, &mut digits);
        self.append(&digits[..k]);
    }

    // Kept beside `append_decimal`: each has the toolchain's function, the definition and the room of its base.
    // Appends a number in lowercase hexadecimal.
    pub fn append_hex(&mut self, n: u64)
        ensures { Extends (hex_text n) self.old self.new }
    {
        let mut digits = [0u8; 16];
        let k = io::hex(n, 1, &mut digits);
        self.append(&digits[..k]);
    }
}
