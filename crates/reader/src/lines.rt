// The lines of a text, each ended by a line feed. The text is left unchanged.
ghost use Rattle.std.specs.Prelude.{◌≡◌, [], ◌+◌, ◌≤◌, length, get_or, drop};
ghost use Rattle.reader.specs.Lines.{lines_of, line_length, line_start};

const LINE_FEED: u8 = b'\n';

// Where the line ends that starts at `start`: the place of its line feed, or the text's end where it has none.
pub fn line_end(text: &[u8], start: usize) -> usize
    requires { start ≤ length text.now }
    ensures place { result ≡ start + line_length (drop start text.now) }
    ensures within { result ≤ length text.now }
{
    let rest = &text[start..];
    let length = rest.iter().position(|&c| c == LINE_FEED);
    start + length.unwrap_or(rest.len())
}

// Where the line at place n starts, or the text's end where there are fewer lines.
pub fn line_start(text: &[u8], n: usize) -> usize
    ensures place { result ≡ line_start text.now n }
    ensures within { result ≤ length text.now }
{
    let mut start = 0;
    for _ in 0..n {
        let end = line_end(text, start);
        if end == text.len() {
            return end;
        }
        start = end + 1;
    }
    start
}

// The lines of a text, one after the other, each without its line feed: a part of the text. What no line feed ends is no line, and
// stays unread.
#[derive(Drop)]
pub struct Lines<'a> {
    pub unread: &'a [u8],
}

impl<'a> Lines<'a> {
    // The lines of the text from the one at place n on.
    pub fn starting_at(text: &'a [u8], n: usize) -> Lines<'a>
        ensures { lines_of result.unread.now ≡ drop n (lines_of text.now) }
    {
        Lines {
            unread: &text[line_start(text, n)..],
        }
    }
}

impl<'a> Iterator for Lines<'a> {
    ghost use Rattle.std.specs.Iterator.{at_most};
    ghost use Rattle.reader.specs.Lines.{GivesLine};

    type Item = &'a [u8];

    ghost next_gives = { GivesLine };

    ghost remaining = { λ s. at_most (length s.unread.now) };

    fn next(&mut self) -> Option<&'a [u8]> {
        let end = line_end(self.unread, 0);
        if end == self.unread.len() {
            return None;
        }
        let line = &self.unread[..end];
        self.unread = &self.unread[end + 1..];
        Some(line)
    }
}

// The line at place n, without its line feed: a part of the text. The empty part where there are n lines or fewer.
pub fn nth_line(text: &[u8], n: usize) -> &[u8]
    ensures { result.now ≡ get_or (lines_of text.now) n [] }
{
    Lines::starting_at(text, n).next().unwrap_or(&text[..0])
}
