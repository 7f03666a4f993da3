//! Names of fields.
ghost use Rattle.std.specs.Prelude.{◌≡◌, ℕ, List, IsUtf8, string_bytes};

use std::marker::Model;

/// The name of a field, as the bytes of a text.
#[derive(Debug, Drop)]
pub struct FieldText {
    text: String,
}

impl Model for FieldText {
    ghost Value = { List ℕ };

    ghost view = { λ field. string_bytes field.text };
}

impl FieldText {
    /// The name with these bytes, which have to be UTF-8.
    pub fn from_vec(list: Vec<u8>) -> FieldText
        requires { IsUtf8 list.items }
        ensures { result ≡ list.items }
    {
        match String::from_utf8(list) {
            Ok(text) => FieldText { text },
            Err(_) => unreachable!(),
        }
    }

    /// The bytes, lent.
    pub fn as_slice(&self) -> &[u8]
        ensures { result.now ≡ self.now }
    {
        self.text.as_bytes()
    }

    /// The name that this text is.
    pub fn from_string(text: String) -> FieldText
        ensures { result ≡ string_bytes text }
    {
        FieldText { text }
    }

    /// The text, lent.
    pub fn as_str(&self) -> &str
        ensures { result.now ≡ self.now }
    {
        self.text.as_str()
    }
}
