// What a byte of a text is.
ghost use Rattle.std.specs.Prelude.{◌≡◌};
ghost use Rattle.qasm.specs.Tokens.{is_blank, is_small, opens_word};

pub fn is_blank(b: u8) -> bool
    ensures { result ≡ is_blank b }
{
    b == b' ' || b == b'\t' || b == b'\n' || b == b'\r'
}

pub fn is_small(b: u8) -> bool
    ensures { result ≡ is_small b }
{
    b.is_ascii_lowercase()
}

// A letter or an underscore.
pub fn opens_word(b: u8) -> bool
    ensures { result ≡ opens_word b }
{
    b.is_ascii_alphabetic() || b == b'_'
}
