//! Where a source file stands in its crate.
use crate::failing::{Failure, Outcome};
use std::alloc::Global;

/// A crate, and a module of it: the words of its path, each with a point behind it.
#[derive(Drop)]
pub struct Place {
    pub krate: String,
    pub path: String,
    /// The crate's folder.
    pub folder: String,
    /// Where the module `schemas` below it stands in `src`, and its proofs in `proofs`: a folder's name and a stroke,
    /// or nothing.
    pub inside: String,
}

/// The words of a path, each with a point behind it.
fn pointed(alloc: Global, path: &str, between: &str) -> Outcome<String> {
    let mut out = String::new(alloc);
    for word in path.split(between) {
        out.push_str(word)?;
        out.push('.')?;
    }
    Ok(out)
}

/// The crate's folder, and the file below its `src`.
fn parts_of(file: &str) -> Option<(&str, &str)> {
    match file.rsplit_once("/src/") {
        Some(parts) => Some(parts),
        None => match file.strip_prefix("src/") {
            Some(inside) => Some((".", inside)),
            None => None,
        },
    }
}

/// The module of a file below `src`: nothing where it is the crate's root.
fn module_of(inside: &str) -> Option<&str> {
    let stem = inside.strip_suffix(".rt")?;
    match stem {
        "lib" | "main" => Some(""),
        _ => match stem.strip_suffix("/mod") {
            Some(module) => Some(module),
            None => Some(stem),
        },
    }
}

impl Place {
    /// The place of a source file: as it is given, and as the system has it.
    pub fn of_file(alloc: Global, given: &str, whole: &str) -> Outcome<Place> {
        let Some((before, inside)) = parts_of(whole) else {
            let what = format!(in alloc; "{given} stands in no folder `src` of a crate")?;
            return Err(Failure::usage(what));
        };
        let Some(module) = module_of(inside) else {
            let what = format!(in alloc; "{given} is no source file: its name ends in `.rt`")?;
            return Err(Failure::usage(what));
        };
        let folder = match parts_of(given) {
            Some((folder, same)) if same == inside => folder,
            _ => before,
        };
        let krate = match before.rsplit_once('/') {
            Some((_, name)) => name,
            None => before,
        };
        let mut place = Place {
            krate: String::from_str(alloc, krate)?,
            path: String::new(alloc),
            folder: String::from_str(alloc, folder)?,
            inside: String::new(alloc),
        };
        if !module.is_empty() {
            place.path = pointed(alloc, module, "/")?;
            place.inside = format!(in alloc; "{module}/")?;
        }
        Ok(place)
    }

    /// The place of a module.
    pub fn of_module(alloc: Global, module: &str) -> Outcome<Place> {
        let (krate, path) = match module.split_once("::") {
            Some((krate, path)) => (krate, pointed(alloc, path, "::")?),
            None => (module, String::new(alloc)),
        };
        Ok(Place {
            krate: String::from_str(alloc, krate)?,
            path,
            folder: String::new(alloc),
            inside: String::new(alloc),
        })
    }
}

#[cfg(test)]
mod tests {
    use super::*;
    use std::test::Fail;

    /// A file as it is given and as the system has it, and its crate, module, folder and what stands in front of its
    /// module's name.
    const ROWS: [(&str, &str, &str); 11] = [
        (
            "crates/a/src/b.rt",
            "/w/crates/a/src/b.rt",
            "a b. crates/a b/",
        ),
        ("src/b.rt", "/w/crates/a/src/b.rt", "a b. . b/"),
        ("./src/b/c.rt", "/w/a/src/b/c.rt", "a b.c. . b/c/"),
        ("/w/a/src/lib.rt", "/w/a/src/lib.rt", "a  /w/a "),
        ("a/src/main.rt", "/w/a/src/main.rt", "a  a "),
        ("a/src/b/mod.rt", "/w/a/src/b/mod.rt", "a b. a b/"),
        ("b.rt", "/w/a/src/b.rt", "a b. /w/a b/"),
        (
            "/home/src/my work/a/src/b.rt",
            "/home/src/my work/a/src/b.rt",
            "a b. /home/src/my work/a b/",
        ),
        ("../a/src/b.rt", "/w/a/src/b.rt", "a b. ../a b/"),
        (
            "a/b.rt",
            "/w/a/b.rt",
            "a/b.rt stands in no folder `src` of a crate",
        ),
        (
            "a/src/b.rs",
            "/w/a/src/b.rs",
            "a/src/b.rs is no source file: its name ends in `.rt`",
        ),
    ];

    #[test]
    fn places(rt: HostRuntime) -> Result<(), Fail> {
        let alloc = rt.alloc();
        for (given, whole, wanted) in &ROWS {
            let outcome = Place::of_file(alloc, *given, *whole);
            let said = match &outcome {
                Ok(place) => {
                    let (krate, path) = (place.krate.as_str(), place.path.as_str());
                    let (folder, inside) = (place.folder.as_str(), place.inside.as_str());
                    format!(in alloc; "{krate} {path} {folder} {inside}")?
                }
                Err(Failure::Usage(what)) => String::from_str(alloc, what.as_str())?,
                Err(_) => String::from_str(alloc, "another failure")?,
            };
            assert_eq!(rt; said.as_str(), *wanted);
        }
        Ok(())
    }
}
