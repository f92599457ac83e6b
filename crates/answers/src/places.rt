// Places in a text, for people: lines, and columns in bytes, both from 1.
ghost use Rattle.std.specs.Prelude.{◌≡◌, ◌^◌};
ghost use Rattle.answers.specs.Places.{after, place_of};
ghost use Rattle.answers.specs.Inner.Lines.{Below};

#[derive(Clone, Copy)]
pub struct Place {
    pub line: usize,
    pub column: usize,
}

// The place after a byte.
fn next(p: Place, b: u8) -> Place
    requires { Below (2 ^ 63) p }
    ensures { result ≡ after p b }
{
    let line = p.line;
    let column = p.column;
    if b == b'\n' {
        return Place {
            line: line + 1,
            column: 1,
        };
    }
    Place {
        line,
        column: column + 1,
    }
}

// The place of a byte by its number, from 0. A number beyond the text's end has the end's place.
pub fn place_of(text: &[u8], position: usize) -> Place
    ensures { result ≡ place_of text.now position }
{
    let mut p = Place { line: 1, column: 1 };
    for &b in &text[..position.min(text.len())] {
        p = next(p, b);
    }
    p
}
