//! What a line asks.

/// What is asked of a schema, whichever its type.
#[derive(Clone, Copy)]
pub enum Asked {
    Read,
    Furthest,
    Room(usize),
    Size,
    Meta,
}

/// What is asked.
#[derive(Clone, Copy)]
pub enum Call {
    Schema(Asked),
    Items(usize),
    AtOnce(usize),
    Calls,
    Shown,
    Tag(Option<usize>),
    Scheme,
    Length,
    LengthOf(usize),
}

impl Call {
    /// The call of one word.
    fn of_word(text: &str) -> Option<Call> {
        match text {
            "read" => Some(Call::Schema(Asked::Read)),
            "furthest" => Some(Call::Schema(Asked::Furthest)),
            "size" => Some(Call::Schema(Asked::Size)),
            "meta" => Some(Call::Schema(Asked::Meta)),
            "calls" => Some(Call::Calls),
            "shown" => Some(Call::Shown),
            "tag" => Some(Call::Tag(None)),
            "scheme" => Some(Call::Scheme),
            "length" => Some(Call::Length),
            _ => None,
        }
    }

    /// The call of words with a number behind them.
    fn of_number(text: &str, number: usize) -> Option<Call> {
        match text {
            "room" => Some(Call::Schema(Asked::Room(number))),
            "items" => Some(Call::Items(number)),
            "at once" => Some(Call::AtOnce(number)),
            "tag room" => Some(Call::Tag(Some(number))),
            "length of" => Some(Call::LengthOf(number)),
            _ => None,
        }
    }

    /// The call that the words name.
    fn of(text: &str) -> Option<Call> {
        match text.rsplit_once(' ') {
            Some((words, number)) => {
                let Ok(number) = number.parse::<usize>() else {
                    return None;
                };
                Call::of_number(words, number)
            }
            None => Call::of_word(text),
        }
    }
}

/// A call, a type's name, and bytes as digits of base 16.
#[derive(Clone, Copy)]
pub struct Row<'a> {
    pub call: Call,
    pub name: &'a str,
    pub digits: &'a str,
}

impl<'a> Row<'a> {
    /// The row that stands in the line.
    pub fn of(line: &'a str) -> Option<Row<'a>> {
        let (call, rest) = line.split_once('|')?;
        let (name, digits) = rest.split_once('|')?;
        Some(Row {
            call: Call::of(call)?,
            name,
            digits,
        })
    }
}
