//! Programs as data.

use std::alloc::{AllocError, Global};

/// What is wanted of a program.
#[derive(Drop)]
pub enum Wanted {
    /// Whether it is linked.
    Linked,
    /// Whether its methods are type safe, and all numbers of the linked program.
    World,
    /// Whether its methods are type safe.
    Safe,
    /// Whether it is accepted, and begins with `main` of the class of this name.
    Accepted(String),
}

/// A program: the texts of its classes.
#[derive(Drop)]
pub struct Case {
    pub name: String,
    pub wanted: Wanted,
    pub texts: Vec<String>,
}

impl Case {
    fn new(alloc: Global, name: &str, wanted: Wanted) -> Result<Case, AllocError> {
        Ok(Case {
            name: String::from_str(alloc, name)?,
            wanted,
            texts: Vec::new(alloc),
        })
    }

    // The case that a line begins, if it begins one.
    fn begun(alloc: Global, line: &str) -> Result<Option<Case>, AllocError> {
        let Some((word, rest)) = line.split_once(" ") else {
            return Ok(None);
        };
        let (name, main) = rest.split_once(" ").unwrap_or((rest, ""));
        let wanted = match word {
            "case" => Wanted::Linked,
            "world" => Wanted::World,
            "check" => Wanted::Safe,
            "program" => Wanted::Accepted(String::from_str(alloc, main)?),
            _ => return Ok(None),
        };
        Ok(Some(Case::new(alloc, name, wanted)?))
    }

    /// Adds a line. A line that begins with the word `class` begins the text of a class.
    fn add_line(&mut self, alloc: Global, line: &str) -> Result<(), AllocError> {
        if line.starts_with("class ") {
            self.texts.push(String::new(alloc))?;
        }
        if let Some(text) = self.texts.last_mut() {
            text.push_str(line)?;
            text.push_str("\n")?;
        }
        Ok(())
    }
}

fn add_line(alloc: Global, cases: &mut Vec<Case>, line: &str) -> Result<(), AllocError> {
    if line.starts_with("#") {
        return Ok(());
    }
    if let Some(case) = Case::begun(alloc, line)? {
        cases.push(case)?;
    } else if let Some(case) = cases.last_mut() {
        case.add_line(alloc, line)?;
    }
    Ok(())
}

/// The programs of a text. A line `case NAME` begins one of which is asked whether it is linked, `world NAME` one whose
/// numbers are wanted, `check NAME` one whose methods are verified, and `program NAME MAIN` one that is accepted; a line
/// that begins with `#` is a remark.
pub fn cases_of(alloc: Global, text: &str) -> Result<Vec<Case>, AllocError> {
    let mut cases = Vec::new(alloc);
    for line in text.lines() {
        add_line(alloc, &mut cases, line)?;
    }
    Ok(cases)
}
