// Bytes put one after the other into lent room.
ghost use Rattle.std.specs.Prelude.{◌≡◌, ◌∷◌, []};
ghost use Rattle.text.specs.Decimal.{decimal, signed};
ghost use Rattle.text.specs.Inner.Puts.{Puts};

// Lent room, and where its next byte goes. A byte for which there is no room is left out.
// Kept: no Display and write!: the library promises their text only where they answer Ok, and no clause says when that is; these calls cannot fail.
#[derive(Drop)]
pub struct Writer<'a> {
    pub room: &'a mut [u8],
    pub at: usize,
}

impl<'a> Writer<'a> {
    // From the room's start on.
    pub fn new(room: &'a mut [u8]) -> Writer<'a>
        ensures same { result.room.ghost_name ≡ room.entry.ghost_name }
        ensures room { result.room.now ≡ room.old }
        ensures at { result.at ≡ 0 }
    {
        Writer { room, at: 0 }
    }

    pub fn put(&mut self, b: u8)
        ensures { Puts self.old (b ∷ []) self.new }
    {
        let at = self.at;
        if at < self.room.len() {
            self.room[at] = b;
            self.at = at + 1;
        }
    }

    pub fn put_all(&mut self, bytes: &[u8])
        ensures { Puts self.old bytes.now self.new }
    {
        for b in bytes {
            self.put(*b);
        }
    }

    // A number, in decimal digits.
    pub fn put_decimal(&mut self, n: u64)
        ensures { Puts self.old (decimal n) self.new }
    {
        if 10 <= n {
            self.put_decimal(n / 10);
        }
        self.put(b'0' + (n % 10) as u8);
    }

    pub fn put_signed(&mut self, z: i64)
        ensures { Puts self.old (signed z) self.new }
    {
        if z < 0 {
            self.put(b'-');
        }
        self.put_decimal(z.unsigned_abs());
    }
}
