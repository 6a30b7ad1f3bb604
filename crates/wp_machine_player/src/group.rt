//! Lines that are played together.
use crate::trouble::{Tried, Trouble};
use std::alloc::{AllocError, Global};

/// Lines under a name.
#[derive(Drop)]
pub(crate) struct Group {
    name: String,
    lines: String,
}

impl Group {
    pub(crate) fn new(alloc: Global, name: &str) -> Result<Group, AllocError> {
        Ok(Group {
            name: name.to_string(alloc)?,
            lines: String::new(alloc),
        })
    }
}

/// The lines of the group that the line names, or else the line itself.
pub(crate) fn lines_of<'a>(groups: &'a [Group], line: &'a str) -> &'a str {
    for group in groups {
        if group.name.as_str() == line {
            return &group.lines;
        }
    }
    line
}

/// Adds a line to the last group, or all of the group that the line names.
pub(crate) fn push_under(alloc: Global, groups: &mut [Group], line: &str) -> Tried<()> {
    let more = lines_of(groups, line).to_string(alloc)?;
    let Some(group) = groups.last_mut() else {
        return Err(Trouble::Unclear);
    };
    if !group.lines.is_empty() {
        group.lines.push('\n')?;
    }
    group.lines.push_str(&more)?;
    Ok(())
}
