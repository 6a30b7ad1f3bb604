ghost use Rattle.std.specs.Prelude.{◌≡◌, ◌++◌, OnOk, codes, decimal};
ghost use Rattle.wp_text.specs.Lines as text;
ghost use Rattle.wp_text.specs.Said.{said};

use crate::pairs::Pairs;
use crate::reply::Reply;
use std::alloc::{AllocError, Global};
use wp_model::{Batch, Carried, Change, Entry, Holder, Key, Name, Seq, Value, Word};

fn push_number(out: &mut Vec<u8>, n: Seq) -> Result<(), AllocError>
    ensures { OnOk result (out.new.items ≡ out.old.items ++ decimal n) }
{
    let mut digits = itoa::Buffer::new();
    out.extend_from_slice(digits.format(n).as_bytes())
}

fn push_with_number(out: &mut Vec<u8>, text: &[u8], n: Seq) -> Result<(), AllocError>
    ensures { OnOk result (out.new.items ≡ out.old.items ++ text.now ++ decimal n) }
{
    out.extend_from_slice(text)?;
    push_number(out, n)
}

fn push_two_numbers(out: &mut Vec<u8>, text: &[u8], n: Seq, m: u64) -> Result<(), AllocError>
    ensures { OnOk result (out.new.items ≡ out.old.items ++ text.now ++ decimal n ++ codes " " ++ decimal m) }
{
    push_with_number(out, text, n)?;
    push_with_number(out, b" ", m)
}

fn push_both(out: &mut Vec<u8>, text: &[u8], word: &[u8]) -> Result<(), AllocError>
    ensures { OnOk result (out.new.items ≡ out.old.items ++ text.now ++ word.now) }
{
    out.extend_from_slice(text)?;
    out.extend_from_slice(word)
}

fn push_with_word<const MOST: usize>(
    out: &mut Vec<u8>,
    text: &[u8],
    word: &Word<MOST>,
) -> Result<(), AllocError>
    ensures { OnOk result (out.new.items ≡ out.old.items ++ text.now ++ word.now) }
{
    push_both(out, text, word.bytes())
}

fn push_word_at(out: &mut Vec<u8>, text: &[u8], word: &[u8], n: Seq) -> Result<(), AllocError>
    ensures { OnOk result (out.new.items ≡ out.old.items ++ text.now ++ word.now ++ codes " @" ++ decimal n) }
{
    push_both(out, text, word)?;
    push_with_number(out, b" @", n)
}

/// Appends the line that begins a client's part.
pub fn client_line(out: &mut Vec<u8>, name: &Name) -> Result<(), AllocError>
    ensures { OnOk result (out.new.items ≡ out.old.items ++ text.client_line name.now) }
{
    push_with_word(out, b"client ", name)?;
    out.extend_from_slice(b"\n")
}

fn push_holder(out: &mut Vec<u8>, holder: &Holder) -> Result<(), AllocError>
    ensures { OnOk result (out.new.items ≡ out.old.items ++ text.holder_words holder.now) }
{
    match holder {
        Holder::Txn(name) => push_with_word(out, b"txn ", name),
        Holder::Client(name) => push_with_word(out, b"client ", name),
    }
}

fn push_row(out: &mut Vec<u8>, row: &(Key, Value)) -> Result<(), AllocError>
    ensures { OnOk result (out.new.items ≡ out.old.items ++ text.row_words row.now) }
{
    let (key, value) = row;
    push_with_word(out, b" ", key)?;
    push_with_word(out, b" ", value)
}

fn push_rows(out: &mut Vec<u8>, pairs: &Pairs) -> Result<(), AllocError>
    ensures { OnOk result (out.new.items ≡ out.old.items ++ text.rows_words pairs.now) }
{
    for row in pairs.as_slice() {
        push_row(out, row)?;
    }
    Ok(())
}

/// What a reply says.
#[derive(Drop)]
pub(crate) enum Words<'a> {
    /// A text alone.
    Text(&'static [u8]),
    /// A text and a number.
    Number(&'static [u8], u64),
    /// A text and two numbers.
    Numbers(&'static [u8], u64, u64),
    /// A text and a word.
    Word(&'static [u8], &'a [u8]),
    /// A text, and a word at a number.
    WordAt(&'static [u8], &'a [u8], Seq),
    /// A value that the client's own transaction puts.
    Own(&'a [u8]),
    /// Who holds a key.
    Busy(&'a Holder),
    /// Keys with their values, at a number.
    Rows(&'a Pairs, Seq),
}

fn words_of(reply: &Reply) -> Words<'_>
    ensures { said result ≡ text.reply_words reply.now }
{
    match reply {
        Reply::Put(n) => Words::Number(b"put @", *n),
        Reply::Del(n) => Words::Number(b"del @", *n),
        Reply::Held => Words::Text(b"held"),
        Reply::Got(value, n) => Words::WordAt(b"get ", value.bytes(), *n),
        Reply::Missing(n) => Words::Number(b"missing @", *n),
        Reply::GotOwn(value) => Words::Own(value.bytes()),
        Reply::MissingOwn => Words::Text(b"missing own"),
        Reply::Rows(pairs, n) => Words::Rows(pairs, *n),
        Reply::Pinned(n) => Words::Number(b"pinned @", *n),
        Reply::Snapped(n) => Words::Number(b"snap @", *n),
        Reply::Freed => Words::Text(b"freed"),
        Reply::Begun => Words::Text(b"begun"),
        Reply::Prepared(n) => Words::Number(b"prepare @", *n),
        Reply::Committed(n) => Words::Number(b"commit @", *n),
        Reply::Dropped => Words::Text(b"dropped"),
        Reply::RolledBack(n) => Words::Number(b"rollback @", *n),
        Reply::Left => Words::Text(b"left"),
        Reply::Took => Words::Text(b"took"),
        Reply::Settled { last, count } => Words::Numbers(b"settled @", *last, *count),
        Reply::Crowded { first, second } => Words::Numbers(b"crowded ", *first, *second),
        Reply::Told(n) => Words::Number(b"told @", *n),
        Reply::Heard(n) => Words::Number(b"heard @", *n),
        Reply::State => Words::Text(b"state"),
        Reply::Taken(name) => Words::Word(b"taken ", name.bytes()),
        Reply::TooMany => Words::Text(b"toomany"),
        Reply::Busy(holder) => Words::Busy(holder),
        Reply::Conflict(n) => Words::Number(b"conflict ", *n),
        Reply::Unknown { name, at } => Words::WordAt(b"unknown ", name.bytes(), *at),
        Reply::InUse(name) => Words::Word(b"inuse ", name.bytes()),
        Reply::UnknownSnapshot(name) => Words::Word(b"unknown ", name.bytes()),
        Reply::Silent(label) => Words::Word(b"silent ", label.bytes()),
        Reply::Full { published, limit } => Words::Numbers(b"full ", *published, *limit),
        Reply::FaultLog => Words::Text(b"fault log"),
        Reply::Stopped(n) => Words::Number(b"stopped ", *n),
        Reply::Flushed { at, versions } => Words::Numbers(b"flushed @", *at, *versions),
        Reply::Compacted { at, versions } => Words::Numbers(b"compacted @", *at, *versions),
        Reply::Renewed { at, carried } => Words::Numbers(b"renewed @", *at, *carried),
        Reply::Nothing => Words::Text(b"nothing"),
        Reply::Halted(n) => Words::Number(b"halted ", *n),
        Reply::FaultTables => Words::Text(b"fault tables"),
    }
}

fn push_words(out: &mut Vec<u8>, words: Words<'_>) -> Result<(), AllocError>
    ensures { OnOk result (out.new.items ≡ out.old.items ++ said words.entry) }
{
    match words {
        Words::Text(text) => out.extend_from_slice(text),
        Words::Number(text, n) => push_with_number(out, text, n),
        Words::Numbers(text, n, m) => push_two_numbers(out, text, n, m),
        Words::Word(text, word) => push_both(out, text, word),
        Words::WordAt(text, word, n) => push_word_at(out, text, word, n),
        Words::Own(value) => {
            push_both(out, b"get ", value)?;
            out.extend_from_slice(b" own")
        }
        Words::Busy(holder) => {
            out.extend_from_slice(b"busy ")?;
            push_holder(out, holder)
        }
        Words::Rows(pairs, n) => {
            push_with_number(out, b"rows @", n)?;
            push_rows(out, pairs)
        }
    }
}

/// Appends the line of a reply.
pub fn reply_line(out: &mut Vec<u8>, reply: &Reply) -> Result<(), AllocError>
    ensures { OnOk result (out.new.items ≡ out.old.items ++ text.reply_line reply.now) }
{
    push_words(out, words_of(reply))?;
    out.extend_from_slice(b"\n")
}

fn push_change(out: &mut Vec<u8>, change: &Change) -> Result<(), AllocError>
    ensures { OnOk result (out.new.items ≡ out.old.items ++ text.change_words change.now) }
{
    match change {
        Change::Put(key, value) => {
            push_with_word(out, b" put ", key)?;
            push_with_word(out, b" ", value)
        }
        Change::Del(key) => push_with_word(out, b" del ", key),
    }
}

fn push_batch(out: &mut Vec<u8>, batch: &Batch) -> Result<(), AllocError>
    ensures { OnOk result (out.new.items ≡ out.old.items ++ text.changes_words batch.now) }
{
    for change in batch.changes() {
        push_change(out, change)?;
    }
    Ok(())
}

fn push_prepare(out: &mut Vec<u8>, name: &Name, batch: &Batch) -> Result<(), AllocError>
    ensures { OnOk result (out.new.items ≡ out.old.items ++ text.prepare_words name.now batch.now) }
{
    push_with_word(out, b" prepare ", name)?;
    push_batch(out, batch)
}

fn push_entry(out: &mut Vec<u8>, entry: &Entry) -> Result<(), AllocError>
    ensures { OnOk result (out.new.items ≡ out.old.items ++ text.entry_words entry.now) }
{
    match entry {
        Entry::Write(batch) => {
            out.extend_from_slice(b" write")?;
            push_batch(out, batch)
        }
        Entry::Prepare(name, batch) => push_prepare(out, name, batch),
        Entry::Commit(p) => push_with_number(out, b" commit ", *p),
        Entry::Undo(p, batch) => {
            push_with_number(out, b" undo ", *p)?;
            push_batch(out, batch)
        }
        Entry::Close(p) => push_with_number(out, b" close ", *p),
    }
}

/// Appends the line of a base: the number behind which a history's entries follow.
pub fn base_line(out: &mut Vec<u8>, base: Seq) -> Result<(), AllocError>
    ensures { OnOk result (out.new.items ≡ out.old.items ++ text.base_line base) }
{
    push_with_number(out, b"base ", base)?;
    out.extend_from_slice(b"\n")
}

/// Appends the line of a key that has a value at a base.
pub fn has_line(out: &mut Vec<u8>, key: &Key, value: &Value) -> Result<(), AllocError>
    ensures { OnOk result (out.new.items ≡ out.old.items ++ text.has_line (key.now, value.now)) }
{
    push_with_word(out, b"has ", key)?;
    push_with_word(out, b" ", value)?;
    out.extend_from_slice(b"\n")
}

/// Appends the line of a prepare that was undecided at a base. It is that of an entry.
pub fn carried_line(out: &mut Vec<u8>, carried: &Carried) -> Result<(), AllocError>
    ensures { OnOk result (out.new.items ≡ out.old.items ++ text.carried_line carried.now) }
{
    push_number(out, carried.number)?;
    push_prepare(out, &carried.name, &carried.batch)?;
    out.extend_from_slice(b"\n")
}

/// Appends the line of a history's entry.
pub fn history_line(out: &mut Vec<u8>, n: Seq, entry: &Entry) -> Result<(), AllocError>
    ensures { OnOk result (out.new.items ≡ out.old.items ++ text.entry_line n entry.now) }
{
    push_number(out, n)?;
    push_entry(out, entry)?;
    out.extend_from_slice(b"\n")
}

/// Appends the last line: how many entries there are, and how many prepares are undecided.
pub fn end_line(out: &mut Vec<u8>, published: Seq, undecided: u64) -> Result<(), AllocError>
    ensures { OnOk result (out.new.items ≡ out.old.items ++ text.end_line published undecided) }
{
    push_two_numbers(out, b"end ", published, undecided)?;
    out.extend_from_slice(b"\n")
}
