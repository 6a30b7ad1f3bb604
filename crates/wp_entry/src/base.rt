//! The base record: where a log begins that does not begin with the first entry.

ghost use Rattle.std.specs.Prelude.{◌≡◌, ◌≤◌, ◌++◌, [], true, IfOk, IfErr, IfSome, OnOk, Ok, Err};
ghost use Rattle.std.specs.List.{flat_map, list_all};
ghost use Rattle.wp_fields.specs.declared.format.Format.TheVariants.{Two};
ghost use Rattle.wp_fields.specs.Reading.{Gives};
ghost use Rattle.wp_entry.specs.declared.error.RecordError.{RecordError};
ghost use Rattle.wp_entry.specs.Errors.{record_fault};
ghost use Rattle.wp_entry.specs.Record.{last_number};
ghost use Rattle.wp_entry.specs.Base.{Base, carried_bytes, base_bytes, AscendUpTo, is_carried, IsBase};
ghost use Rattle.wp_entry.specs.BaseReading.{base_error, batch_in_base, carried_number_at, carried_at, carried_after, base_number_at, base_at};
ghost use Rattle.wp_entry.specs.BaseFaults.{IsBaseFault};

use crate::error::RecordError;
use crate::layout::last_number;
use std::alloc::{AllocError, Global};
use std::marker::Model;
use wp_encoding::{EncodingError, push_batch, push_word, read_batch, read_word};
use wp_fields::{Fields, Format, push_u64};
use wp_model::{Batch, Carried, Seq};

/// Where a log begins. Clauses see the number and the list of prepares.
#[derive(Drop)]
pub struct Base {
    /// The log has no entry up to this number: the first that it may have is the next one.
    pub number: Seq,
    /// The prepares up to that number that are undecided there, in the order of their numbers.
    pub carried: Vec<Carried>,
}

impl Model for Base {
    ghost use Rattle.wp_entry.specs.Base.{Base};

    ghost Value = { Base };

    ghost view = { λ b. record { number = b.number; carried = b.carried.items } };
}

// ---- writing

fn push_one(out: &mut Vec<u8>, carried: &Carried) -> Result<(), AllocError>
    ensures pushed { OnOk result (out.new.items ≡ out.old.items ++ carried_bytes carried.now) }
    ensures in_range { OnOk result (is_carried carried.now ≡ true) }
{
    push_u64(out, carried.number)?;
    push_word(out, &carried.name)?;
    push_batch(out, &carried.batch)
}

fn push_all(out: &mut Vec<u8>, carried: &[Carried]) -> Result<(), AllocError>
    ensures pushed { OnOk result (out.new.items ≡ out.old.items ++ flat_map carried_bytes carried.now) }
    ensures in_range { OnOk result (list_all is_carried carried.now ≡ true) }
{
    for one in carried {
        push_one(out, one)?;
    }
    Ok(())
}

/// Puts the one spelling of the base at the end.
pub fn push_base(out: &mut Vec<u8>, base: &Base) -> Result<(), AllocError>
    requires small { base.now.number ≤ last_number Two }
    requires ascend { AscendUpTo base.now.number 0 base.now.carried }
    ensures base { OnOk result (IsBase base.now) }
    ensures pushed { OnOk result (out.new.items ≡ out.old.items ++ base_bytes base.now) }
{
    push_u64(out, base.number)?;
    push_u64(out, base.carried.len() as u64)?;
    push_all(out, &base.carried)?;
    Ok(())
}

// ---- reading

fn base_error(error: EncodingError) -> RecordError
    ensures { result ≡ base_error error }
{
    match error {
        EncodingError::Memory => RecordError::Memory,
        EncodingError::Short => RecordError::Short,
        EncodingError::Kind(_) | EncodingError::Word => RecordError::BadWord,
    }
}

fn one_batch(alloc: Global, fields: &mut Fields<'_>) -> Result<Batch, RecordError>
    ensures { Gives record_fault (λ batch. (batch, fields.new)) result (batch_in_base fields.old) }
{
    match read_batch(alloc, fields) {
        Ok(batch) => Ok(batch),
        Err(error) => Err(base_error(error)),
    }
}

/// A number above the last one's and up to the base.
#[tactic(auto, unfolding(crate::specs::BaseReading::carried_number_at))]
fn carried_number(fields: &mut Fields<'_>, base: Seq, last: Seq) -> Result<Seq, RecordError>
    ensures { Gives record_fault (λ number. (number, fields.new)) result (carried_number_at base last fields.old) }
{
    let number = fields.u64().ok_or(RecordError::Short)?;
    if number <= last || number > base {
        return Err(RecordError::BadWord);
    }
    Ok(number)
}

/// The next carried prepare, where the last one has that number.
#[tactic(auto, unfolding(crate::specs::BaseReading::carried_at))]
fn one_carried(
    alloc: Global,
    fields: &mut Fields<'_>,
    base: Seq,
    last: Seq,
) -> Result<Carried, RecordError>
    ensures { Gives record_fault (λ carried. (carried, fields.new)) result (carried_at base last fields.old) }
{
    let number = carried_number(fields, base, last)?;
    let name = read_word(alloc, fields)?;
    let batch = one_batch(alloc, fields)?;
    Ok(Carried {
        number,
        name,
        batch,
    })
}

fn all_carried(
    alloc: Global,
    fields: &mut Fields<'_>,
    base: Seq,
    count: u64,
) -> Result<Vec<Carried>, RecordError>
    ensures { Gives record_fault (λ carried. (carried.items, fields.new)) result (carried_after count base 0 [] fields.old) }
{
    let mut carried = Vec::new(alloc);
    let mut last = 0;
    for _ in 0..count {
        let next = one_carried(alloc, fields, base, last)?;
        last = next.number;
        carried.push(next)?;
    }
    Ok(carried)
}

#[tactic(auto, unfolding(crate::specs::BaseReading::base_number_at))]
fn base_number(fields: &mut Fields<'_>) -> Result<Seq, RecordError>
    ensures { Gives record_fault (λ number. (number, fields.new)) result (base_number_at fields.old) }
{
    let number = fields.u64().ok_or(RecordError::Short)?;
    if number > last_number(Format::Two) {
        return Err(RecordError::BadWord);
    }
    Ok(number)
}

#[tactic(auto, unfolding(crate::specs::BaseReading::base_at))]
fn whole_base(alloc: Global, bytes: &[u8]) -> Result<Base, RecordError>
    ensures { Gives record_fault (λ base. base) result (base_at bytes.now) }
{
    let mut fields = Fields::of(bytes);
    let number = base_number(&mut fields)?;
    let count = fields.u64().ok_or(RecordError::Short)?;
    let carried = all_carried(alloc, &mut fields, number, count)?;
    match fields.left() {
        0 => Ok(Base { number, carried }),
        extra => Err(RecordError::Extra(extra)),
    }
}

/// Reads a base record: the bytes are it, and nothing follows. It takes no memory for prepares that are counted and not
/// there.
pub fn read_base(alloc: Global, bytes: &[u8]) -> Result<Base, RecordError>
    // What is read is a base, and the bytes are its spelling.
    ensures found { IfOk result (λ base. IsBase base × (bytes.now ≡ base_bytes base)) }
    // What is spelled so is read, unless memory runs out.
    ensures only { (written : Base) → IsBase written → bytes.now ≡ base_bytes written
        → Gives record_fault (λ base. base) result (Ok written) }
    // What is refused has that fault, and what has a fault is refused for it, unless memory runs out.
    ensures refused { IfErr result (λ error. IfSome (record_fault error) (λ fault. IsBaseFault bytes.now fault)) }
    ensures each_fault { (fault : RecordError) → IsBaseFault bytes.now fault
        → Gives record_fault (λ base. base) result (Err fault) }
    ensures exact { Gives record_fault (λ base. base) result (base_at bytes.now) }
{
    whole_base(alloc, bytes)
}
