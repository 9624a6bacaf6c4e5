//! Two types compared, and the types of a source file as text.
use crate::asking::{Fault, described_by, untyped};
use std::alloc::Global;
use wincode_derive_text::{Declaration, declarations_of, tokens_of};
use wincode_describe::{Answer, DescribeError, Described, compared_lines};

/// A type as words name it.
#[derive(Clone, Copy, Drop)]
pub struct Named<'a> {
    /// The source file whose declarations name types, if one is given.
    pub types: Option<&'a str>,
    pub text: &'a str,
}

impl<'a> Named<'a> {
    /// The type that stands in front of these words, and the words behind it.
    fn front(words: &'a [String]) -> Result<(Named<'a>, &'a [String]), Fault> {
        match words {
            [option, path, text, others @ ..] if option.as_str() == "--types" => Ok((
                Named {
                    types: Some(path.as_str()),
                    text: text.as_str(),
                },
                others,
            )),
            [text, others @ ..] => Ok((
                Named {
                    types: None,
                    text: text.as_str(),
                },
                others,
            )),
            [] => Err(Fault::Usage),
        }
    }

    /// The two types that these words name.
    pub fn both(words: &'a [String]) -> Result<(Named<'a>, Named<'a>), Fault> {
        let (old, others) = Named::front(words)?;
        let (new, others) = Named::front(others)?;
        match others {
            [] => Ok((old, new)),
            _ => Err(Fault::Usage),
        }
    }
}

/// What is printed of two types, where these sources name types; and the status: 0 where they are the same, 1 where the new
/// one reads what the old one wrote, else 2.
pub fn compared(
    alloc: Global,
    (old, old_source): (&Named, &str),
    (new, new_source): (&Named, &str),
) -> Result<(u8, String), Fault> {
    let was = described_by(alloc, old.types, old_source, old.text)?;
    let is = described_by(alloc, new.types, new_source, new.text)?;
    let (answer, text) = compared_lines(alloc, &was, &is)?;
    let status = match answer {
        Answer::Same => 0,
        Answer::Reads => 1,
        Answer::Differs | Answer::MayDiffer => 2,
    };
    Ok((status, text))
}

/// The line of a declared type: its name, and its layout as a type's text; or why it has none.
fn layout_line(alloc: Global, source: &str, declaration: &Declaration) -> Result<String, Fault> {
    let name = declaration.name.as_str();
    match Described::parse_with(alloc, source, name) {
        Ok(described) => Ok(format!(in alloc; "{name}: {described}\n")?),
        Err(DescribeError::OutOfMemory) => Err(Fault::OutOfMemory),
        Err(error) => Ok(format!(in alloc; "# {name}: {error}\n")?),
    }
}

/// A line for each type that the source of a file declares.
pub fn layout_lines(alloc: Global, file: &str, source: &str) -> Result<String, Fault> {
    let mut lines = String::new(alloc);
    let declared = match tokens_of(alloc, source) {
        Ok(tokens) => declarations_of(alloc, tokens.as_slice(), &[]),
        Err(error) => Err(error),
    };
    match declared {
        Ok(declarations) => {
            for declaration in declarations.iter() {
                let line = layout_line(alloc, source, declaration)?;
                lines.push_str(line.as_str())?;
            }
            Ok(lines)
        }
        Err(error) => Err(untyped(alloc, (file, source), DescribeError::from(error))),
    }
}
