ghost use Rattle.std.specs.Prelude.{◌≡◌, ◌++◌, map, IfOk, OnOk};
ghost use Rattle.wp_make.specs.Summary as text;
ghost use Rattle.wp_make.specs.Totals.{count_of, store_of};

use crate::kind::{Kind, count_of};
use crate::sizes::{Sizes, store_of};
use std::alloc::{AllocError, Global};
use wp_history::History;
use wp_text::{Reply, end_line};

fn made_line(
    alloc: Global,
    out: &mut Vec<u8>,
    seed: u32,
    clients: u32,
    lines: u32,
) -> Result<(), AllocError>
    ensures { OnOk result (out.new.items ≡ out.old.items ++ text.made_line seed clients lines) }
{
    let line = format!(in alloc; "made {seed} {clients} {lines}\n")?;
    out.extend_from_slice(line.as_bytes())
}

/// Appends how many of the clients' replies are of the kind, behind its name.
fn count_line(
    alloc: Global,
    out: &mut Vec<u8>,
    counted: &str,
    kind: Kind,
    sessions: &[&[Reply]],
) -> Result<(), AllocError>
    ensures { OnOk result (out.new.items ≡ out.old.items ++ text.count_line counted.now (count_of kind (map (λ replies. replies.now) sessions.now))) }
{
    let n = count_of(kind, sessions)?;
    let line = format!(in alloc; "{counted} {n}\n")?;
    out.extend_from_slice(line.as_bytes())
}

fn count_lines(alloc: Global, out: &mut Vec<u8>, sessions: &[&[Reply]]) -> Result<(), AllocError>
    ensures { OnOk result (out.new.items ≡ out.old.items ++ text.count_lines (map (λ replies. replies.now) sessions.now)) }
{
    count_line(alloc, out, "puts", Kind::Puts, sessions)?;
    count_line(alloc, out, "commits", Kind::Commits, sessions)?;
    count_line(alloc, out, "rollbacks", Kind::RollBacks, sessions)?;
    count_line(alloc, out, "gets", Kind::Gets, sessions)?;
    count_line(alloc, out, "missing", Kind::Missing, sessions)
}

fn store_line(alloc: Global, out: &mut Vec<u8>, history: &History) -> Result<(), AllocError>
    ensures { OnOk result (out.new.items ≡ out.old.items ++ text.store_line (store_of history.now.entries)) }
{
    let Sizes { keys, bytes } = store_of(alloc, history)?;
    let line = format!(in alloc; "store {keys} {bytes}\n")?;
    out.extend_from_slice(line.as_bytes())
}

/// The summary of a made script's run, by what its clients were answered and the history that is left. The script is named by its
/// numbers. A count that its type does not hold is answered as want of memory.
pub fn summary(
    alloc: Global,
    seed: u32,
    clients: u32,
    lines: u32,
    sessions: &[&[Reply]],
    history: &History,
) -> Result<Vec<u8>, AllocError>
    ensures { IfOk result (λ out. out.items ≡ text.summary_of seed clients lines (map (λ replies. replies.now) sessions.now) history.now.entries) }
{
    let mut out = Vec::new(alloc);
    made_line(alloc, &mut out, seed, clients, lines)?;
    let undecided = history.undecided().len() as u64;
    end_line(&mut out, history.published(), undecided)?;
    count_lines(alloc, &mut out, sessions)?;
    store_line(alloc, &mut out, history)?;
    Ok(out)
}
