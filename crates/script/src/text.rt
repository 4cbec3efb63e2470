// Text taken apart: the lines of a script, and the words of a line between its blanks.
ghost use Rattle.std.specs.Prelude.{◌≡◌};
ghost use Rattle.std.specs.Iterator.{YieldsFirstRef, item_count};
ghost use Rattle.script.specs.Text.{blank, words, lines, words_left, lines_left};

// What is left of a line, to be taken word by word.
#[derive(Clone, Copy)]
pub struct Words<'a> {
    rest: &'a [u8],
}

// What is left of a script, to be taken line by line.
#[derive(Clone, Copy)]
pub struct Lines<'a> {
    rest: &'a [u8],
}

fn is_blank(byte: u8) -> bool
    ensures { result ≡ blank byte }
{
    byte == b' ' || byte == b'\t' || byte == b'\r'
}

impl<'a> Words<'a> {
    pub fn of(line: &'a [u8]) -> Words<'a>
        ensures { words_left result ≡ words line.now }
    {
        Words { rest: line }
    }
}

impl<'a> Iterator for Words<'a> {
    type Item = &'a [u8];

    ghost next_gives = { YieldsFirstRef words_left };

    ghost remaining = { item_count words_left };

    fn next(&mut self) -> Option<&'a [u8]> {
        let blanks = self.rest.iter().take_while(|byte| is_blank(**byte)).count();
        let line = &self.rest[blanks..];
        let length = line.iter().take_while(|byte| !is_blank(**byte)).count();
        let (word, rest) = line.split_at(length);
        self.rest = rest;
        if word.is_empty() { None } else { Some(word) }
    }
}

impl<'a> Lines<'a> {
    pub fn of(script: &'a [u8]) -> Lines<'a>
        ensures { lines_left result ≡ lines script.now }
    {
        Lines { rest: script }
    }
}

impl<'a> Iterator for Lines<'a> {
    type Item = &'a [u8];

    ghost next_gives = { YieldsFirstRef lines_left };

    ghost remaining = { item_count lines_left };

    fn next(&mut self) -> Option<&'a [u8]> {
        if self.rest.is_empty() {
            return None;
        }
        let length = self.rest.iter().take_while(|byte| **byte != b'\n').count();
        let (line, rest) = self.rest.split_at(length);
        // past the end of the line, if there is one
        let after = &rest[rest.len().min(1)..];
        self.rest = after;
        Some(line)
    }
}
