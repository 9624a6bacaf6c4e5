//! Lines of a text, as many as fit into so much room.
ghost use Rattle.std.specs.Prelude.{◌≡◌, ◌≤◌, length};
ghost use Rattle.wincode_c.specs.Pages.{line_length, behind_lines, AreFitting, IsPage};

/// How many bytes the first line has, its line break with it; all of them where there is none.
fn line_length(text: &[u8]) -> usize
    ensures value { result ≡ line_length text.now }
    ensures within { result ≤ length text.now }
{
    for (i, byte) in text.iter().enumerate() {
        if *byte == b'\n' {
            return i + 1;
        }
    }
    text.len()
}

/// What is behind so many lines.
fn behind_lines(text: &[u8], count: usize) -> &[u8]
    ensures { result.now ≡ behind_lines count text.now }
{
    let mut rest = text;
    for _i in 0..count {
        if rest.is_empty() {
            return rest;
        }
        let (_line, behind) = rest.split_at(line_length(rest));
        rest = behind;
    }
    rest
}

/// How many bytes the first lines have that fit into so much room, and how many lines these are.
fn fitting(text: &[u8], room: usize) -> (usize, usize)
    ensures { AreFitting text.now room result.0 result.1 }
{
    let mut rest = text;
    let mut taken = 0;
    let mut lines = 0;
    while !rest.is_empty() {
        let next = line_length(rest);
        if room - taken < next {
            return (taken, lines);
        }
        let (_line, behind) = rest.split_at(next);
        rest = behind;
        taken += next;
        lines += 1;
    }
    (taken, lines)
}

/// Puts the lines of a text over the front of the room, from the line with that number on, as many whole ones as fit; gives
/// how many bytes and lines these are, and how many bytes are behind them.
pub(crate) fn put_page(text: &[u8], from: usize, room: &mut [u8]) -> (usize, usize, usize)
    ensures { IsPage text.now from room.old room.new result.0 result.1 result.2 }
{
    let rest = behind_lines(text, from);
    let (taken, lines) = fitting(rest, room.len());
    room[..taken].copy_from_slice(&rest[..taken]);
    (taken, lines, rest.len() - taken)
}
