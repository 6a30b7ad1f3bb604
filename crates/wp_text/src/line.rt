ghost use Rattle.std.specs.Prelude.{◌≡◌, [], ◌∷◌, map, IfOk};
ghost use Rattle.std.specs.List.{list_all};
ghost use Rattle.wp_fields.specs.Reading.{Gives};
ghost use Rattle.wp_text.specs.declared.keyword.Keyword.TheVariants as keyword;
ghost use Rattle.wp_text.specs.Grammar.{is_line_byte, words_of};
ghost use Rattle.wp_text.specs.Reading.{line_fault, one_word, two_words, alone, bare_command, get_with, scan_with, said_of, statement_with, statement_of, line_of};

use crate::fault::{LineError, Why};
use crate::keyword::{Bare, Keyword, Named};
use crate::names::Names;
use crate::script::Command;
use std::alloc::{AllocError, Global};
use wp_model::{Name, Word};

/// How many bytes a line may have, without its end.
pub const MOST_LINE_BYTES: usize = 400;

/// What a line says.
#[derive(Drop)]
pub(crate) enum Statement {
    /// A client's part begins.
    Client(Name),
    /// A command of the client whose part it is in.
    Command(Command),
}

fn is_text(line: &[u8]) -> bool
    ensures { result ≡ list_all is_line_byte line.now }
{
    line.iter().all(|b| *b >= b' ' && *b <= b'~')
}

fn words<'a>(alloc: Global, line: &'a [u8]) -> Result<Vec<&'a [u8]>, AllocError>
    ensures { IfOk result (λ words. map (λ word. word.now) words.items ≡ words_of line.now) }
{
    line.split(|b| *b == b' ')
        .filter(|word| !word.is_empty())
        .collect(alloc)
}

#[tactic(auto, unfolding(crate::specs::Reading::one_word))]
fn one_word<const MOST: usize>(alloc: Global, words: &[&[u8]]) -> Result<Word<MOST>, LineError>
    ensures { Gives line_fault (λ word. word) result (one_word MOST (map (λ word. word.now) words.now)) }
{
    match words {
        [word] => Ok(Word::read(alloc, word)?),
        _ => Err(LineError::Wrong(Why::BadCommand)),
    }
}

#[tactic(auto, unfolding(crate::specs::Reading::two_words))]
fn two_words<const FIRST: usize, const SECOND: usize>(
    alloc: Global,
    words: &[&[u8]],
) -> Result<(Word<FIRST>, Word<SECOND>), LineError>
    ensures { Gives line_fault (λ both. both) result (two_words FIRST SECOND (map (λ word. word.now) words.now)) }
{
    match words {
        [first, second] => Ok((Word::read(alloc, first)?, Word::read(alloc, second)?)),
        _ => Err(LineError::Wrong(Why::BadCommand)),
    }
}

#[tactic(auto, unfolding(crate::specs::Reading::alone))]
fn alone(words: &[&[u8]], command: Command) -> Result<Statement, LineError>
    ensures { Gives line_fault (λ s. s) result (alone command (map (λ word. word.now) words.now)) }
{
    match words {
        [] => Ok(Statement::Command(command)),
        _ => Err(LineError::Wrong(Why::BadCommand)),
    }
}

#[tactic(auto, unfolding(crate::specs::Reading::get_with))]
fn get_at(alloc: Global, key: &[u8], at: &[u8], name: &[u8]) -> Result<Statement, LineError>
    ensures { Gives line_fault (λ s. s) result (get_with (key.now ∷ at.now ∷ name.now ∷ [])) }
{
    if at != b"at".as_slice() {
        return Err(LineError::Wrong(Why::BadCommand));
    }
    let (key, name) = two_words(alloc, &[key, name])?;
    Ok(Statement::Command(Command::GetAt(key, name)))
}

#[tactic(auto, unfolding(crate::specs::Reading::get_with))]
fn get_with(alloc: Global, words: &[&[u8]]) -> Result<Statement, LineError>
    ensures { Gives line_fault (λ s. s) result (get_with (map (λ word. word.now) words.now)) }
{
    match words {
        [key, at, name] => get_at(alloc, key, at, name),
        _ => Ok(Statement::Command(Command::Get(one_word(alloc, words)?))),
    }
}

#[tactic(auto, unfolding(crate::specs::Reading::scan_with))]
fn scan_at(
    alloc: Global,
    from: &[u8],
    to: &[u8],
    at: &[u8],
    name: &[u8],
) -> Result<Statement, LineError>
    ensures { Gives line_fault (λ s. s) result (scan_with (from.now ∷ to.now ∷ at.now ∷ name.now ∷ [])) }
{
    if at != b"at".as_slice() {
        return Err(LineError::Wrong(Why::BadCommand));
    }
    let (from, to) = two_words(alloc, &[from, to])?;
    let name = one_word(alloc, &[name])?;
    Ok(Statement::Command(Command::ScanAt(from, to, name)))
}

#[tactic(auto, unfolding(crate::specs::Reading::scan_with))]
fn scan_with(alloc: Global, words: &[&[u8]]) -> Result<Statement, LineError>
    ensures { Gives line_fault (λ s. s) result (scan_with (map (λ word. word.now) words.now)) }
{
    if let [from, to, at, name] = words {
        return scan_at(alloc, from, to, at, name);
    }
    let (from, to) = two_words(alloc, words)?;
    Ok(Statement::Command(Command::Scan(from, to)))
}

#[tactic(auto, unfolding(crate::specs::Reading::statement_with))]
fn put_with(alloc: Global, words: &[&[u8]]) -> Result<Statement, LineError>
    ensures { Gives line_fault (λ s. s) result (statement_with keyword.Put (map (λ word. word.now) words.now)) }
{
    let (key, value) = two_words(alloc, words)?;
    Ok(Statement::Command(Command::Put(key, value)))
}

fn said_of(named: Named, name: Name) -> Statement
    ensures { result ≡ said_of named name }
{
    match named {
        Named::Client => Statement::Client(name),
        Named::Snap => Statement::Command(Command::Snap(name)),
        Named::Free => Statement::Command(Command::Free(name)),
        Named::Begin => Statement::Command(Command::Begin(name)),
        Named::Take => Statement::Command(Command::Take(name)),
        Named::Tell => Statement::Command(Command::Tell(name)),
        Named::Hear => Statement::Command(Command::Hear(name)),
    }
}

fn bare_command(bare: Bare) -> Command
    ensures { result ≡ bare_command bare }
{
    match bare {
        Bare::Pin => Command::Pin,
        Bare::Prepare => Command::Prepare,
        Bare::Commit => Command::Commit,
        Bare::Rollback => Command::Rollback,
        Bare::Leave => Command::Leave,
        Bare::Flush => Command::Flush,
        Bare::Compact => Command::Compact,
        Bare::Renew => Command::Renew,
    }
}

#[tactic(auto, unfolding(crate::specs::Reading::statement_with))]
fn statement_with(alloc: Global, keyword: Keyword, words: &[&[u8]]) -> Result<Statement, LineError>
    ensures { Gives line_fault (λ s. s) result (statement_with keyword (map (λ word. word.now) words.now)) }
{
    match keyword {
        Keyword::Named(named) => Ok(said_of(named, one_word(alloc, words)?)),
        Keyword::Bare(bare) => alone(words, bare_command(bare)),
        Keyword::Put => put_with(alloc, words),
        Keyword::Del => Ok(Statement::Command(Command::Del(one_word(alloc, words)?))),
        Keyword::Get => get_with(alloc, words),
        Keyword::Scan => scan_with(alloc, words),
        Keyword::Lock => Ok(Statement::Command(Command::Lock(one_word(alloc, words)?))),
        Keyword::Settle => Ok(Statement::Command(Command::Settle(Names::read(alloc, words)?))),
    }
}

#[tactic(auto, unfolding(crate::specs::Reading::statement_of, crate::specs::Reading::statement_named))]
fn statement_of(alloc: Global, words: &[&[u8]]) -> Result<Option<Statement>, LineError>
    ensures { Gives line_fault (λ s. s) result (statement_of (map (λ word. word.now) words.now)) }
{
    let [first, others @ ..] = words else {
        return Ok(None);
    };
    if first.starts_with(b"#") {
        return Ok(None);
    }
    match Keyword::named(first) {
        Some(keyword) => Ok(Some(statement_with(alloc, keyword, others)?)),
        None => Err(LineError::Wrong(Why::BadCommand)),
    }
}

/// What the line says, or `None` where it is passed over.
#[tactic(auto, unfolding(crate::specs::Reading::line_of))]
pub(crate) fn read_line(alloc: Global, line: &[u8]) -> Result<Option<Statement>, LineError>
    ensures { Gives line_fault (λ s. s) result (line_of line.now) }
{
    if line.len() > MOST_LINE_BYTES {
        return Err(LineError::Wrong(Why::LineLong));
    }
    if !is_text(line) {
        return Err(LineError::Wrong(Why::BadByte));
    }
    let words = words(alloc, line)?;
    statement_of(alloc, &words)
}
