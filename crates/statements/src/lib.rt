// Where the gates of a text of OpenQASM 2 stand.
#![tactic(auto)]

ghost use Rattle.std.specs.Prelude.{◌≡◌, min};
ghost use Rattle.statements.specs.Statements.{declares, gate_count, gate_position};

use qasm::tokens::Tokens;

// A gate's position, and how many gates stand before it. Beyond the last gate: the text's end, and how many there are.
// Kept: the end of the text is the place that is shown where no gate is, as `gate_position` of the specs has it; an Option would be unwrapped to it.
#[derive(Clone, Copy)]
pub struct Spot {
    pub position: usize,
    pub before: usize,
}

fn is_declaration(word: &[u8]) -> bool
    ensures { result ≡ declares word.now }
{
    word == b"include".as_slice() || word == b"qreg".as_slice() || word == b"creg".as_slice()
}

// Kept: `before` goes up at the first token of a gate alone, and `opening` is carried from token to token: `enumerate` would count every token.
// Finds gate `index` among the statements of a text, numbered from 0.
pub fn find_gate(text: &[u8], index: usize) -> Spot
    ensures position { result.position ≡ gate_position text.now index }
    ensures before { result.before ≡ min index (gate_count text.now) }
{
    let mut before = 0;
    let mut opening = true;
    for token in Tokens::behind_header(text) {
        if opening & !is_declaration(token.bytes) {
            if before == index {
                return Spot {
                    position: token.at,
                    before,
                };
            }
            before += 1;
        }
        opening = token.bytes == b";".as_slice();
    }
    Spot {
        position: text.len(),
        before,
    }
}
