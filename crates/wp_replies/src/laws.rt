//! What is true of every session.
ghost use Rattle.std.specs.Prelude.{◌≡◌};
ghost use Rattle.wp_replies.specs.declared.client.TheConstants.{MOST_SNAPSHOTS};
ghost use Rattle.wp_replies.specs.Laws.{SessionGrows, SessionsTellAlike, ConditionsTellAlike, DueIsSession, ReadsAreValues, FreshNumbersNeverFall, AcknowledgedAreLogged};

/// A session stays one as the history grows, where what was known of the other clients is known still.
pub fn session_grows()
    ensures { SessionGrows }
{}

/// No row depends on what stands below the base of the log that the store was opened from, and so no session does.
pub fn nothing_below_the_base_tells()
    ensures conditions { ConditionsTellAlike }
    ensures sessions { SessionsTellAlike }
{}

/// Replies that are due at moments of the history, one after another, are a session.
pub fn due_is_session()
    ensures { DueIsSession }
{}

/// The value that a `get` is answered is what the entries up to the reply's number leave under the key, and the rows of
/// a `scan` are what they leave under the keys of its range. That number is nothing that the client has seen pass, and
/// with a label it is the snapshot's.
pub fn reads_are_values()
    ensures { ReadsAreValues }
{}

/// The fresh numbers that a client is answered never fall, and none is past the history's end.
pub fn fresh_numbers_never_fall()
    ensures { FreshNumbersNeverFall }
{}

/// Each number that a reply acknowledges is that of an entry of the history, which the command asked for, and which is
/// later than all that the client had seen. A decision is of the prepare whose number the client was answered, or of one
/// that it took, to settle it or before, which had the name that it gave and was undecided.
pub fn acknowledged_are_logged()
    ensures { AcknowledgedAreLogged }
{}

/// A client has at most 64 snapshots.
pub fn limits_are()
    ensures { MOST_SNAPSHOTS ≡ 64 }
{}
