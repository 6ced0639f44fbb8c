// The lines of a text, and the fields of a line.
ghost use Rattle.std.specs.Prelude.{◌≡◌, ◌==◌, not, drop};
ghost use Rattle.std.specs.List.{before_first, after_first, position, position_or_len};
ghost use Rattle.script_text.specs.Filled.{filled};
ghost use Rattle.script_text.specs.Lines.{is_blank, fields_of, field};

/// A line, and what stands behind its end.
pub fn cut_line(text: &[u8]) -> (&[u8], &[u8])
    ensures front { result.0.now ≡ before_first (λ b. b == 10) text.now }
    ensures behind { result.1.now ≡ after_first (λ b. b == 10) text.now }
{
    match end_of_line(text) {
        Some(at) => (&text[..at], &text[at + 1..]),
        None => (text, &[]),
    }
}

fn end_of_line(text: &[u8]) -> Option<usize>
    ensures { result ≡ position (λ b. b == 10) text.now }
{
    text.iter().position(|b| *b == b'\n')
}

fn blank(byte: u8) -> bool
    ensures { result ≡ is_blank byte }
{
    byte == b' ' || byte == b'\t' || byte == b'\r'
}

fn next_blank(line: &[u8]) -> Option<usize>
    ensures { result ≡ position is_blank line.now }
{
    line.iter().position(|b| blank(*b))
}

fn next_byte(line: &[u8]) -> Option<usize>
    ensures { result ≡ position (λ b. not (is_blank b)) line.now }
{
    line.iter().position(|b| !blank(*b))
}

/// A piece up to a blank, and what stands behind that.
fn cut_piece(line: &[u8]) -> (&[u8], &[u8])
    ensures front { result.0.now ≡ before_first is_blank line.now }
    ensures behind { result.1.now ≡ after_first is_blank line.now }
{
    match next_blank(line) {
        Some(at) => (&line[..at], &line[at + 1..]),
        None => (line, &[]),
    }
}

fn without_blanks(line: &[u8]) -> &[u8]
    ensures { result.now ≡ drop (position_or_len (λ b. not (is_blank b)) line.now) line.now }
{
    match next_byte(line) {
        Some(at) => &line[at..],
        None => &[],
    }
}

/// The first field, empty where there is none, and the line behind it.
fn next_field(line: &[u8]) -> (&[u8], &[u8])
    ensures first { result.0.now ≡ field 0 (fields_of line.now) }
    ensures others { fields_of result.1.now ≡ drop 1 (fields_of line.now) }
{
    cut_piece(without_blanks(line))
}

/// The first five fields of a line. Where a line has fewer, the others are empty.
#[derive(Clone, Copy)]
pub struct Fields<'a> {
    pub word: &'a [u8],
    pub first: &'a [u8],
    pub second: &'a [u8],
    pub third: &'a [u8],
    pub fourth: &'a [u8],
}

impl<'a> Fields<'a> {
    /// The fields of a line, of which a line of the language has four at most.
    pub fn of(line: &'a [u8]) -> Self
        ensures word { result.word.now ≡ field 0 (fields_of line.now) }
        ensures first { result.first.now ≡ field 1 (fields_of line.now) }
        ensures second { result.second.now ≡ field 2 (fields_of line.now) }
        ensures third { result.third.now ≡ field 3 (fields_of line.now) }
        ensures fourth { result.fourth.now ≡ field 4 (fields_of line.now) }
    {
        let (word, rest) = next_field(line);
        let (first, rest) = next_field(rest);
        let (second, rest) = next_field(rest);
        let (third, rest) = next_field(rest);
        let (fourth, _) = next_field(rest);
        Fields {
            word,
            first,
            second,
            third,
            fourth,
        }
    }

    /// How many fields there are, and 5 where there are more.
    pub fn count(&self) -> usize
        ensures { let f = self.now in result ≡ filled f.word.now f.first.now f.second.now f.third.now f.fourth.now }
    {
        if self.word.is_empty() {
            return 0;
        }
        if self.first.is_empty() {
            return 1;
        }
        if self.second.is_empty() {
            return 2;
        }
        if self.third.is_empty() {
            return 3;
        }
        if self.fourth.is_empty() { 4 } else { 5 }
    }
}
