//! The limits of words, batches and groups of commits, as numbers.
ghost use Rattle.std.specs.Prelude.{◌≡◌};
ghost use Rattle.wp_model.specs.declared.batch.TheConstants.{MOST_KEYS};
ghost use Rattle.wp_model.specs.declared.entry.TheConstants.{MOST_COMMITS};
ghost use Rattle.wp_model.specs.declared.word.TheConstants.{MOST_KEY_BYTES, MOST_NAME_BYTES, MOST_VALUE_BYTES};

/// A key has at most 64 bytes, a value 256 and a name 32, one transaction changes at most 64 keys, and at most 16
/// commits share a record.
pub fn limits_are()
    ensures words { (MOST_KEY_BYTES ≡ 64) × (MOST_VALUE_BYTES ≡ 256) × (MOST_NAME_BYTES ≡ 32) }
    ensures keys { MOST_KEYS ≡ 64 }
    ensures commits { MOST_COMMITS ≡ 16 }
{}
