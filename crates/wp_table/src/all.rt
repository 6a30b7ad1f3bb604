//! Reading the versions of a table that was judged.

ghost use Rattle.std.specs.Prelude.{◌≡◌, ◌≤◌, [], ◌∷◌, Some, MatchOption, length, drop};
ghost use Rattle.std.specs.Iterator.{YieldsFirstBy, item_count};
ghost use Rattle.std.specs.Option.{option_copied, option_map};
ghost use Rattle.wp_fields.specs.Reading.{Gives};
ghost use Rattle.wp_table.specs.Borrowed.{seen, with_next};
ghost use Rattle.wp_table.specs.Walk.{word_in, value_in, stored_in, version_in, next_in, one_less, versions_in};

use crate::error::TableError;
use crate::layout::{BLOCK, DELETION};
use crate::version::VersionRef;
use std::marker::Model;
use wp_fields::{Fields, Format};

#[tactic(auto, unfolding(crate::specs::Walk::word_in))]
fn word<'a>(fields: &mut Fields<'a>) -> Result<&'a [u8], TableError>
    ensures { Gives (λ fault. Some fault) (λ word. (word.now, fields.new)) result (word_in fields.old) }
{
    let len = fields.u8().ok_or(TableError::Short)?;
    fields.piece(len as usize).ok_or(TableError::Short)
}

#[tactic(auto, unfolding(crate::specs::Walk::value_in))]
fn value<'a>(fields: &mut Fields<'a>) -> Result<&'a [u8], TableError>
    ensures { Gives (λ fault. Some fault) (λ value. (value.now, fields.new)) result (value_in fields.old) }
{
    let len = fields.u16().ok_or(TableError::Short)?;
    fields.piece(len as usize).ok_or(TableError::Short)
}

#[tactic(auto, unfolding(crate::specs::Walk::stored_in))]
fn stored<'a>(fields: &mut Fields<'a>) -> Result<Option<&'a [u8]>, TableError>
    ensures { Gives (λ fault. Some fault) (λ value. (option_copied value, fields.new)) result (stored_in fields.old) }
{
    match fields.u8().ok_or(TableError::Short)? {
        DELETION => Ok(None),
        _ => Ok(Some(value(fields)?)),
    }
}

#[tactic(auto, unfolding(crate::specs::Walk::version_in))]
fn version<'a>(fields: &mut Fields<'a>, format: Format) -> Result<VersionRef<'a>, TableError>
    ensures { Gives (λ fault. Some fault) (λ version. (seen version, fields.new)) result (version_in format fields.old) }
{
    let key = word(fields)?;
    let number = fields.number(format).ok_or(TableError::Short)?;
    let value = stored(fields)?;
    Ok(VersionRef { key, number, value })
}

/// The next version, where so many come before the count of the next block.
#[tactic(auto, unfolding(crate::specs::Walk::next_in))]
fn next<'a>(
    fields: &mut Fields<'a>,
    format: Format,
    in_block: u64,
) -> Result<VersionRef<'a>, TableError>
    ensures { Gives (λ fault. Some fault) (λ version. (seen version, fields.new)) result (next_in format in_block fields.old) }
{
    match in_block {
        0 => {
            fields.u16().ok_or(TableError::Short)?;
            version(fields, format)
        }
        _ => version(fields, format),
    }
}

/// How many versions come before the count of the next block, behind one more.
fn one_less(in_block: u64) -> u64
    ensures { result ≡ one_less in_block }
{
    match in_block {
        0 => BLOCK - 1,
        _ => in_block - 1,
    }
}

/// Takes the next of the versions that are left, where so many come before the count of the next block.
fn take_next<'a>(
    fields: &mut Fields<'a>,
    format: Format,
    left: &mut u64,
    in_block: &mut u64,
) -> Option<VersionRef<'a>>
    ensures { MatchOption result ((versions_in format left.old in_block.old fields.old ≡ []) × (versions_in format left.new in_block.new fields.new ≡ [])) (λ version. versions_in format left.old in_block.old fields.old ≡ seen version ∷ versions_in format left.new in_block.new fields.new) }
{
    if *left == 0 {
        return None;
    }
    match next(fields, format, *in_block) {
        Ok(version) => {
            *left -= 1;
            *in_block = one_less(*in_block);
            Some(version)
        }
        Err(_) => {
            *left = 0;
            None
        }
    }
}

/// The versions of a table from one of its blocks on, in order, borrowed from its bytes. They end where the bytes have no
/// more.
#[derive(Drop)]
pub struct All<'a> {
    fields: Fields<'a>,
    format: Format,
    /// How many versions are left.
    left: u64,
    /// How many of them come before the count of the next block.
    in_block: u64,
}

impl<'a> Model for All<'a> {
    ghost use Rattle.std.specs.Prelude.{List};
    ghost use Rattle.wp_model.specs.declared.version.Version.{Version};
    ghost use Rattle.wp_table.specs.Walk.{versions_in};

    ghost Value = { List Version };

    ghost view = { λ a. versions_in a.format a.left a.in_block a.fields };
}

impl<'a> All<'a> {
    /// The versions from the block on that begins at that place, `left` of them at most.
    pub(crate) fn at(bytes: &'a [u8], format: Format, place: u64, left: u64) -> All<'a>
        requires { place ≤ length bytes.now }
        ensures { result ≡ versions_in format left 0 (drop place bytes.now) }
    {
        let (_, rest) = bytes.split_at(place as usize);
        All {
            fields: Fields::of(rest),
            format,
            left,
            in_block: 0,
        }
    }

    /// The next version, which is taken.
    pub fn advance(&mut self) -> Option<VersionRef<'a>>
        ensures { self.old ≡ with_next (option_map seen result) self.new }
    {
        self.next()
    }
}

impl<'a> Iterator for All<'a> {
    type Item = VersionRef<'a>;

    ghost next_gives = { YieldsFirstBy seen (λ a. a) };

    ghost remaining = { item_count (λ a. a) };

    fn next(&mut self) -> Option<VersionRef<'a>> {
        take_next(
            &mut self.fields,
            self.format,
            &mut self.left,
            &mut self.in_block,
        )
    }
}
