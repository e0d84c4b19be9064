//! A text cut into lines, and a line cut into fields.

ghost use Rattle.std.specs.Prelude.{◌≡◌, not, position, MatchOption, [], ◌∷◌};
ghost use Rattle.std.specs.Iterator.{YieldsFirstRef, item_count};
ghost use Rattle.std.specs.Str.Lines.{strip_carriage_return};
ghost use Rattle.sc_words.specs.Cuts.{IsCut};
ghost use Rattle.sc_words.specs.ChainText as texts;

/// Whether a byte is a space or a tab.
pub fn is_blank(byte: u8) -> bool
    ensures { result ≡ texts.is_blank byte }
{
    matches!(byte, b' ' | b'\t')
}

fn nonblank_at(bytes: &[u8]) -> Option<usize>
    ensures { result ≡ position (λ b. not (texts.is_blank b)) bytes.now }
{
    bytes.iter().position(|byte| !is_blank(*byte))
}

fn blank_at(bytes: &[u8]) -> Option<usize>
    ensures { result ≡ position texts.is_blank bytes.now }
{
    bytes.iter().position(|byte| is_blank(*byte))
}

fn line_feed_at(bytes: &[u8]) -> Option<usize>
    ensures { result ≡ position texts.is_line_feed bytes.now }
{
    bytes.iter().position(|byte| *byte == b'\n')
}

/// The first field, and what is left behind it.
fn split_field(bytes: &[u8]) -> Option<(&[u8], &[u8])>
    ensures { MatchOption result (texts.fields bytes.now ≡ []) (λ x. texts.fields bytes.now ≡ x.0.now ∷ texts.fields x.1.now) }
{
    let start = nonblank_at(bytes)?;
    let (_, from) = bytes.split_at(start);
    match blank_at(from) {
        Some(end) => {
            let (_, rest) = from.split_at(end + 1);
            Some((&from[..end], rest))
        }
        None => Some((from, &[])),
    }
}

/// The first line, and what is left behind it.
pub fn split_line(text: &[u8]) -> Option<(&[u8], &[u8])>
    ensures lines { MatchOption result (texts.text_lines text.now ≡ []) (λ x. texts.text_lines text.now ≡ x.0.now ∷ texts.text_lines x.1.now) }
    ensures cut { MatchOption result (text.now ≡ []) (λ x. IsCut text.now x.0.now x.1.now) }
{
    if text.is_empty() {
        return None;
    }
    match line_feed_at(text) {
        Some(end) => {
            let (_, rest) = text.split_at(end + 1);
            Some((&text[..end], rest))
        }
        None => Some((text, &[])),
    }
}

/// A line without a carriage return at its end.
pub fn without_carriage_return(line: &[u8]) -> &[u8]
    ensures { result.now ≡ strip_carriage_return line.now }
{
    match line {
        [front @ .., b'\r'] => front,
        _ => line,
    }
}

/// The fields of a line, or of what is left of it.
#[derive(Drop)]
pub struct Fields<'a> {
    rest: &'a [u8],
}

impl<'a> Fields<'a> {
    pub fn of(line: &'a [u8]) -> Fields<'a>
        ensures { result.rest.now ≡ line.now }
    {
        Fields { rest: line }
    }
}

impl<'a> Iterator for Fields<'a> {
    type Item = &'a [u8];

    ghost next_gives = { YieldsFirstRef (λ s. texts.fields s.rest.now) };

    ghost remaining = { item_count (λ s. texts.fields s.rest.now) };

    fn next(&mut self) -> Option<&'a [u8]> {
        let (field, rest) = split_field(self.rest)?;
        self.rest = rest;
        Some(field)
    }
}

/// The lines of a text, or of what is left of it.
#[derive(Drop)]
pub struct Lines<'a> {
    rest: &'a [u8],
}

impl<'a> Lines<'a> {
    pub fn of(text: &'a [u8]) -> Lines<'a>
        ensures { result.rest.now ≡ text.now }
    {
        Lines { rest: text }
    }
}

impl<'a> Iterator for Lines<'a> {
    type Item = &'a [u8];

    ghost next_gives = { YieldsFirstRef (λ s. texts.text_lines s.rest.now) };

    ghost remaining = { item_count (λ s. texts.text_lines s.rest.now) };

    fn next(&mut self) -> Option<&'a [u8]> {
        let (line, rest) = split_line(self.rest)?;
        self.rest = rest;
        Some(line)
    }
}
