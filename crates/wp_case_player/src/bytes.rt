//! Bytes as cases write them: in hexadecimal, by a name, many of one, and with one of them in another's place.

use crate::report::Report;

/// Bytes by a name that a file gives them; those of a device have its name too.
#[derive(Drop)]
pub(crate) struct Named<'a> {
    pub(crate) name: &'a str,
    pub(crate) device: &'static str,
    pub(crate) bytes: Vec<u8>,
}

/// Puts the bytes that last got this name.
fn push_named(report: &mut Report, names: &[Named<'_>], bytes: &mut Vec<u8>, word: &str) {
    let (name, device) = word.split_once('.').unwrap_or((word, ""));
    for named in names.iter().rev() {
        if named.name == name && named.device == device {
            report.push(bytes, &named.bytes);
            return;
        }
    }
    report.understands_not();
}

/// `20*07` puts 07 twenty times; hexadecimal digits put what they say.
fn push_digits(report: &mut Report, bytes: &mut Vec<u8>, word: &str) {
    let (times, digits) = word.split_once('*').unwrap_or(("1", word));
    match hex::decode(report.alloc, digits) {
        Ok(more) => {
            for _ in 0..report.number(times) {
                report.push(bytes, &more);
            }
        }
        Err(_) => report.understands_not(),
    }
}

/// `9=07` puts 07 in the place 9.
fn replace(report: &mut Report, bytes: &mut [u8], place: &str, digits: &str) {
    let place = report.number(place);
    match (bytes.get_mut(place), u8::from_str_radix(digits, 16)) {
        (Some(old), Ok(new)) => *old = new,
        _ => report.understands_not(),
    }
}

/// The bytes that the words say, one after the other: `..20` keeps the first 20, and `9=07` puts 07 in the place 9; behind
/// them a name puts what it names, and digits what they say.
pub(crate) fn bytes_of(report: &mut Report, names: &[Named<'_>], words: &str) -> Vec<u8> {
    let mut bytes = Vec::new(report.alloc);
    for word in words.split_whitespace() {
        if let Some(name) = word.strip_prefix("$") {
            push_named(report, names, &mut bytes, name);
        } else if let Some(len) = word.strip_prefix("..") {
            bytes.truncate(report.number(len));
        } else if let Some((place, digits)) = word.split_once('=') {
            replace(report, &mut bytes, place, digits);
        } else {
            push_digits(report, &mut bytes, word);
        }
    }
    bytes
}
