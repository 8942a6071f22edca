//! The parts of an input, which are divided by lines that are exactly `%%`, and the lines of a part.

ghost use Rattle.std.specs.Prelude.{◌≡◌, ◌≤◌, ◌==◌, length};
ghost use Rattle.std.specs.List.{list_any, position_or_len};
ghost use Rattle.std.specs.Option.{option_map};
ghost use Rattle.commands.specs.Parts as spec;

/// The first line of a text, without its newline, and the text after that.
pub fn first_line(text: &str) -> (&str, &str)
    ensures line { result.0.now ≡ spec.first_line text.now }
    ensures after { result.1.now ≡ spec.after_line text.now }
{
    text.split_once('\n').unwrap_or((text, ""))
}

/// The lines of a text, without their newlines. A last line that has no newline counts if it is not empty.
#[derive(Drop)]
pub struct Lines<'a> {
    rest: &'a str,
}

impl<'a> Lines<'a> {
    ghost use Rattle.std.specs.Prelude.{◌≡◌};
    ghost use Rattle.commands.specs.Parts.{lines_left, lines_of};

    /// The lines of this text.
    pub fn new(text: &'a str) -> Lines<'a>
        ensures { lines_left result ≡ lines_of text.now }
    {
        Lines { rest: text }
    }
}

impl<'a> Iterator for Lines<'a> {
    type Item = &'a str;

    ghost use Rattle.std.specs.Iterator.{YieldsFirstRef, item_count};
    ghost use Rattle.commands.specs.Parts.{lines_left};

    ghost next_gives = { YieldsFirstRef lines_left };

    ghost remaining = { item_count lines_left };

    fn next(&mut self) -> Option<&'a str> {
        if self.rest.is_empty() {
            return None;
        }
        let (line, rest) = first_line(self.rest);
        self.rest = rest;
        Some(line)
    }
}

/// Whether a text has a percent sign. Searching for this is faster than for a line `%%`, and most rows have none.
fn has_percent(text: &str) -> bool
    ensures { result ≡ list_any (λ byte. byte == 37) text.now }
{
    text.as_bytes().contains(&b'%')
}

/// The text before the first line that is exactly `%%`, and the text after that line.
#[tactic(auto, using(crate::proofs::LineCuts::no_percent_no_cut))]
pub fn cut(text: &str) -> Option<(&str, &str)>
    ensures { option_map (λ cut. record { part = cut.0.now; rest = cut.1.now }) result ≡ spec.cut_of text.now }
{
    if !has_percent(text) {
        return None;
    }
    let mut rest = text;
    while !rest.is_empty() {
        let (line, after) = first_line(rest);
        if line == "%%" {
            return Some((&text[..text.len() - rest.len()], after));
        }
        rest = after;
    }
    None
}

/// The two parts of a text that has one line which is exactly `%%`.
pub fn two_parts(text: &str) -> Option<(&str, &str)>
    ensures { option_map (λ cut. record { part = cut.0.now; rest = cut.1.now }) result ≡ spec.two_parts text.now }
{
    let (first, second) = cut(text)?;
    match cut(second) {
        None => Some((first, second)),
        Some(_) => None,
    }
}

/// The three parts of a text that has two lines which are exactly `%%`.
pub fn three_parts(text: &str) -> Option<(&str, &str, &str)>
    ensures { option_map (λ cut. record { first = cut.0.now; second = cut.1.now; third = cut.2.now }) result
        ≡ spec.three_parts text.now }
{
    let (first, rest) = cut(text)?;
    let (second, third) = two_parts(rest)?;
    Some((first, second, third))
}
