//! The text of what the clients were answered: the transcript, or the summary of a made script.
ghost use Rattle.std.specs.Prelude.{◌≡◌, true, length, map, IfOk};
ghost use Rattle.std.specs.List.{list_any};
ghost use Rattle.wp_text.specs.Answered.{replies_of};
ghost use Rattle.wp_make.specs.Summary.{summary_of};
ghost use Rattle.wp_replies.specs.Kind.{is_fault, is_tables_fault};
ghost use Rattle.wp_transcript.specs.Answers.{are_whole, one_fails};
ghost use Rattle.wp_transcript.specs.Transcript.{text_of};

use crate::transcript::transcript;
use std::alloc::{AllocError, Global};
use std::collections::BTreeMap;
use wp_args::Action;
use wp_history::History;
use wp_make::summary;
use wp_model::{Key, Value};
use wp_text::{Answered, Part, Reply};

/// Whether no session broke off.
fn are_whole(answers: &[Answered]) -> bool
    ensures { result ≡ are_whole answers.now }
{
    answers.iter().all(|answered| answered.is_whole())
}

fn is_log_fault(reply: &Reply) -> bool
    ensures { result ≡ is_fault reply.now }
{
    matches!(reply, Reply::FaultLog)
}

fn is_tables_fault(reply: &Reply) -> bool
    ensures { result ≡ is_tables_fault reply.now }
{
    matches!(reply, Reply::FaultTables)
}

fn tells_log_fault(answered: &Answered) -> bool
    ensures { result ≡ list_any is_fault answered.now.replies }
{
    answered.replies().iter().any(|reply| is_log_fault(reply))
}

fn tells_tables_fault(answered: &Answered) -> bool
    ensures { result ≡ list_any is_tables_fault answered.now.replies }
{
    answered
        .replies()
        .iter()
        .any(|reply| is_tables_fault(reply))
}

/// Whether a client was answered that the log failed.
pub fn log_failed(answers: &[Answered]) -> bool
    ensures { result ≡ one_fails is_fault answers.now }
{
    answers.iter().any(|answered| tells_log_fault(answered))
}

/// Whether a client was answered that a device of the tables failed.
pub fn tables_failed(answers: &[Answered]) -> bool
    ensures { result ≡ one_fails is_tables_fault answers.now }
{
    answers.iter().any(|answered| tells_tables_fault(answered))
}

fn replies_of<'a>(alloc: Global, answers: &'a [Answered]) -> Result<Vec<&'a [Reply]>, AllocError>
    ensures { IfOk result (λ sessions. map (λ replies. replies.now) sessions.items ≡ replies_of answers.now) }
{
    let mut sessions = Vec::new(alloc);
    for answered in answers {
        sessions.push(answered.replies())?;
    }
    Ok(sessions)
}

fn summary_of(
    alloc: Global,
    seed: u32,
    clients: u32,
    lines: u32,
    answers: &[Answered],
    history: &History,
) -> Result<Vec<u8>, AllocError>
    ensures { IfOk result (λ text. text.items ≡ summary_of seed clients lines (replies_of answers.now) history.now.entries) }
{
    let sessions = replies_of(alloc, answers)?;
    summary(alloc, seed, clients, lines, &sessions, history)
}

/// The text of the command, where no session broke off.
pub fn text_of(
    alloc: Global,
    action: Action,
    parts: &[Part],
    answers: &[Answered],
    history: &History,
    store: &BTreeMap<Key, Value>,
) -> Result<Vec<u8>, AllocError>
    requires parts { length parts.now ≡ length answers.now }
    ensures whole { IfOk result (λ text. are_whole answers.now ≡ true) }
    ensures text { IfOk result (λ text. text.items ≡ text_of action parts.now (replies_of answers.now) history.now.base store.now.entries history.now.entries) }
{
    if !are_whole(answers) {
        return Err(AllocError);
    }
    match action {
        Action::Make {
            seed,
            clients,
            lines,
        } => summary_of(alloc, seed, clients, lines, answers, history),
        Action::Run | Action::Show => transcript(alloc, parts, answers, history, store),
    }
}
