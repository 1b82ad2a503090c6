//! Classes of bytes, and their runs.
ghost use Rattle.std.specs.Prelude.{◌≡◌, ◌≤◌, length};
ghost use Rattle.std.specs.List.{prefix_len};
ghost use Rattle.lists.specs.Text.{in_class};

/// Classes of bytes: kinds of them, which all calls tell apart by `has`, and no steps that a closure could be.
#[derive(Clone, Copy)]
pub enum Class {
    Blank,
    Space,
    Word,
    Line,
    Digit,
    Hex,
}

impl Class {
    pub fn has(self, b: u8) -> bool
        ensures { result ≡ in_class self b }
    {
        match self {
            Class::Blank => b == b' ',
            Class::Space => b == b' ' || b == b'\n',
            Class::Word => !(b == b' ' || b == b'\n'),
            Class::Line => b != b'\n',
            Class::Digit => b'0' <= b && b <= b'9',
            Class::Hex => b'0' <= b && b <= b'9' || b'a' <= b && b <= b'f',
        }
    }

    /// How many bytes at the front are of this class.
    pub fn run(self, s: &[u8]) -> usize
        ensures run { result ≡ prefix_len (in_class self) s.now }
        ensures within { result ≤ length s.now }
    {
        s.iter().take_while(|b| self.has(**b)).count()
    }
}
