ghost use Rattle.std.specs.Prelude.{◌≡◌, ◌+◌, ◌++◌, ◌≤◌, ◌<◌, ◌^◌, length, IfOk, OnOk};
ghost use Rattle.std.specs.List.{flat_map};
ghost use Rattle.wp_text.specs.Lines as text;
ghost use Rattle.wp_text.specs.Answered.{replies_of};
ghost use Rattle.wp_transcript.specs.Transcript.{client_text, client_lines, opening_lines, transcript_of};

use std::alloc::{AllocError, Global};
use std::collections::BTreeMap;
use wp_history::History;
use wp_model::{Carried, Entry, Key, Seq, Value};
use wp_text::{
    Answered, Part, Reply, base_line, carried_line, client_line, end_line, has_line, history_line,
    reply_line,
};

fn push_replies(out: &mut Vec<u8>, replies: &[Reply]) -> Result<(), AllocError>
    ensures { OnOk result (out.new.items ≡ out.old.items ++ flat_map text.reply_line replies.now) }
{
    for reply in replies {
        reply_line(out, reply)?;
    }
    Ok(())
}

fn push_client(out: &mut Vec<u8>, part: &Part, replies: &[Reply]) -> Result<(), AllocError>
    ensures { OnOk result (out.new.items ≡ out.old.items ++ client_text part.now replies.now) }
{
    client_line(out, &part.client)?;
    push_replies(out, replies)
}

fn push_clients(out: &mut Vec<u8>, parts: &[Part], sessions: &[Answered]) -> Result<(), AllocError>
    requires { length parts.now ≡ length sessions.now }
    ensures { OnOk result (out.new.items ≡ out.old.items ++ client_lines parts.now (replies_of sessions.now)) }
{
    for (i, part) in parts.iter().enumerate() {
        push_client(out, part, sessions[i].replies())?;
    }
    Ok(())
}

fn push_store(out: &mut Vec<u8>, store: &BTreeMap<Key, Value>) -> Result<(), AllocError>
    ensures { OnOk result (out.new.items ≡ out.old.items ++ flat_map text.has_line store.now.entries) }
{
    for (key, value) in store.iter() {
        has_line(out, key, value)?;
    }
    Ok(())
}

fn push_carried(out: &mut Vec<u8>, carried: &[Carried]) -> Result<(), AllocError>
    ensures { OnOk result (out.new.items ≡ out.old.items ++ flat_map text.carried_line carried.now) }
{
    for prepare in carried {
        carried_line(out, prepare)?;
    }
    Ok(())
}

/// Appends the lines of a base, unless it is 0.
fn push_base(
    out: &mut Vec<u8>,
    base: Seq,
    store: &BTreeMap<Key, Value>,
    carried: &[Carried],
) -> Result<(), AllocError>
    ensures { OnOk result (out.new.items ≡ out.old.items ++ opening_lines base store.now.entries carried.now) }
{
    if base == 0 {
        return Ok(());
    }
    base_line(out, base)?;
    push_store(out, store)?;
    push_carried(out, carried)
}

/// Appends the lines of entries, of which the first has this number.
fn push_history(out: &mut Vec<u8>, first: Seq, entries: &[Entry]) -> Result<(), AllocError>
    requires { first + length entries.now ≤ 2 ^ 63 }
    ensures { OnOk result (out.new.items ≡ out.old.items ++ text.entry_lines first entries.now) }
{
    for (i, entry) in entries.iter().enumerate() {
        history_line(out, first + i as u64, entry)?;
    }
    Ok(())
}

/// The transcript: each client's replies, then the base with what the store had there, then every entry of the history behind it,
/// then the end.
pub(crate) fn transcript(
    alloc: Global,
    parts: &[Part],
    sessions: &[Answered],
    history: &History,
    store: &BTreeMap<Key, Value>,
) -> Result<Vec<u8>, AllocError>
    requires parts { length parts.now ≡ length sessions.now }
    ensures { IfOk result (λ text. text.items ≡ transcript_of parts.now (replies_of sessions.now) history.now.base store.now.entries history.now.entries) }
{
    let mut out = Vec::new(alloc);
    push_clients(&mut out, parts, sessions)?;
    out.extend_from_slice(b"history\n")?;
    let published = history.published();
    let base = history.base();
    push_base(&mut out, base, store, history.carried())?;
    push_history(&mut out, base + 1, history.later())?;
    let undecided = history.undecided().len() as u64;
    end_line(&mut out, published, undecided)?;
    Ok(out)
}
