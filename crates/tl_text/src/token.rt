//! A token of a text.
ghost use Rattle.std.specs.Prelude.{◌≡◌, ◌≤◌};
ghost use Rattle.tl_text.specs.LineValue.{IsWithin, token_bytes};

/// A token, as a range of the text: the offset of its first byte, and the offset after its last one.
#[derive(Clone, Copy, Debug, PartialEq, Eq)]
pub struct Token {
    pub start: u32,
    pub end: u32,
}

impl Token {
    /// The bytes of the token, in constant time.
    pub fn bytes<'a>(&self, text: &'a [u8]) -> &'a [u8]
        requires { IsWithin text.now self.now }
        ensures { result.now ≡ token_bytes text.now self.now }
    {
        &text[self.start as usize..self.end as usize]
    }
}
