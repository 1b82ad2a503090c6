//! Lines and words.
ghost use Rattle.std.specs.Prelude.{◌≡◌, ◌≤◌, ◌<◌, OnSome, cond, length, take, drop, Ok, Err};
ghost use Rattle.std.specs.List.{prefix_len};
ghost use Rattle.lists.specs.declared.unread.Unread.TheVariants.{Malformed};
ghost use Rattle.lists.specs.Places.{MovesTo};
ghost use Rattle.lists.specs.Text.{in_class, run_end, place, word_end, word_at, line_ends, line_end, NextAt};

use crate::class::Class;
use crate::cursor::{Cursor, Line};
use crate::unread::Unread;

impl<'a> Cursor<'a> {
    /// Takes the run of a class that begins here.
    fn run(&mut self, class: Class) -> &'a [u8]
        ensures run { let rest = drop self.old.at self.old.text.now in result.now ≡ take (prefix_len (in_class class) rest) rest }
        ensures moved { MovesTo self.old self.new (run_end class self.old.text.now (place self.old.text.now self.old.at)) }
        ensures inside { self.new.at ≤ length self.old.text.now }
    {
        let start = self.at.min(self.text.len());
        let rest = &self.text[start..];
        let count = class.run(rest);
        self.at = start + count;
        &rest[..count]
    }

    /// Goes to the end of the next line that is not blank, and gives what the line is.
    pub fn next_line(&mut self) -> Option<Line<'a>>
        ensures line { NextAt self.old.text.now self.old.at result }
        ensures further { OnSome result (self.old.at < self.new.at) }
        ensures moved { MovesTo self.old self.new (line_end self.old.text.now self.old.at) }
    {
        self.run(Class::Space);
        let start = *self;
        self.run(Class::Line);
        match start.text.get(start.at) {
            None => None,
            Some(b'#') => Some(Line::Comment),
            Some(_) => Some(Line::Case(start)),
        }
    }

    /// Every case has to end its line.
    pub fn line_ends(&self) -> Result<(), Unread>
        ensures { result ≡ cond (line_ends self.now.text.now self.now.at) (Ok tt) (Err Malformed) }
    {
        match self.text.get(self.at) {
            None | Some(b'\n') => Ok(()),
            Some(_) => Err(Unread::Malformed),
        }
    }

    /// The next word of the line, empty at its end.
    pub(crate) fn word(&mut self) -> &'a [u8]
        ensures word { result.now ≡ word_at self.old.text.now self.old.at }
        ensures moved { MovesTo self.old self.new (word_end self.old.text.now self.old.at) }
    {
        self.run(Class::Blank);
        self.run(Class::Word)
    }
}
