//! A place in a text. The reading that moves it is in `words`, `numbers` and `byte_strings`.
ghost use Rattle.std.specs.Prelude.{◌≡◌};

/// A text, and the place in it that is read next. A place past the text's end is its end.
#[derive(Clone, Copy)]
pub struct Cursor<'a> {
    pub text: &'a [u8],
    pub at: usize,
}

/// A line of a list.
#[derive(Clone, Copy)]
pub enum Line<'a> {
    Comment,
    /// A case, to be read from this place on.
    Case(Cursor<'a>),
}

impl<'a> Cursor<'a> {
    pub fn new(text: &'a [u8]) -> Cursor<'a>
        ensures text { result.text.now ≡ text.now }
        ensures at { result.at ≡ 0 }
    {
        Cursor { text, at: 0 }
    }
}
