// Whether a text begins as a script.
ghost use Rattle.std.specs.Prelude.{◌≡◌};
ghost use Rattle.script_reader.specs.Bytes.{is_space as is_space_byte};
ghost use Rattle.script_answers.specs.Begins.{is_script_text};

/// Whether a byte separates tokens.
fn is_space(byte: u8) -> bool
    ensures { result ≡ is_space_byte byte }
{
    byte == b' ' || byte == b'\t' || byte == b'\r' || byte == b'\n'
}

/// Whether the first token of a text is a parenthesis, where comments begin with a semicolon.
pub fn is_script(input: &[u8]) -> bool
    ensures { result ≡ is_script_text input.now }
{
    let mut comment = false;
    'bytes: for next in input {
        let byte = *next;
        if comment {
            comment = byte != b'\n';
        } else if byte == b';' {
            comment = true;
        } else if !is_space(byte) {
            return byte == b'(';
        }
    }
    false
}
