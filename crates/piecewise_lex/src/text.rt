//! The text of a token that stands on its own.

ghost use Rattle.std.specs.Prelude.{◌≡◌, ◌≤◌, ◌∷◌, [], length, IfOk};

use cyc_basics::limits::LONGEST_NAME;
use cyc_lex::OutOfMemory;
use std::alloc::Global;
use std::marker::Model;

/// Where the bytes of a token's text lie: up to 22 in place, more in memory of their own.
#[derive(Drop)]
pub enum Form {
    Short { bytes: [u8; 22], len: u8 },
    Long { bytes: Box<[u8; 64]>, len: u8 },
}

/// The text of a token, which has at most 64 bytes. It takes memory of its own only from the 23rd byte on.
#[derive(Drop)]
pub struct Text {
    form: Form,
}

impl Model for Text {
    ghost use Rattle.std.specs.Prelude.{ℕ, List};
    ghost use Rattle.piecewise_lex.specs.Written.{written, IsWritten};

    ghost Value = { List ℕ };

    ghost view = { λ t. written t.form };

    ghost invariant = { λ t. IsWritten t.form };
}

impl Text {
    /// The text, in place where it fits.
    #[inline(always)]
    pub(crate) fn new(alloc: Global, text: &str) -> Result<Text, OutOfMemory>
        requires { length text.now ≤ LONGEST_NAME }
        ensures { IfOk result (λ t. t ≡ text.now) }
    {
        let len = text.len();
        if len <= 22 {
            let mut bytes = [0u8; 22];
            bytes[..len].copy_from_slice(text.as_bytes());
            return Ok(Text {
                form: Form::Short {
                    bytes,
                    len: len as u8,
                },
            });
        }
        let mut bytes = [0u8; 64];
        bytes[..len].copy_from_slice(text.as_bytes());
        Ok(Text {
            form: Form::Long {
                bytes: Box::new(alloc, bytes)?,
                len: len as u8,
            },
        })
    }

    /// The text of one byte.
    #[inline(always)]
    pub(crate) fn single(byte: u8) -> Text
        ensures { result ≡ byte ∷ [] }
    {
        Text {
            form: Form::Short {
                bytes: [
                    byte, 0, 0, 0, 0, 0, 0, 0, 0, 0, 0, 0, 0, 0, 0, 0, 0, 0, 0, 0, 0, 0,
                ],
                len: 1,
            },
        }
    }

    /// The bytes of the text.
    pub fn as_bytes(&self) -> &[u8]
        ensures { result.now ≡ self.now }
    {
        match &self.form {
            Form::Short { bytes, len } => &bytes[..*len as usize],
            Form::Long { bytes, len } => &bytes[..*len as usize],
        }
    }
}
