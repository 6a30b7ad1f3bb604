//! The limits of scripts, as numbers.
ghost use Rattle.std.specs.Prelude.{◌≡◌};
ghost use Rattle.wp_text.specs.declared.line.TheConstants.{MOST_LINE_BYTES};
ghost use Rattle.wp_text.specs.declared.read.TheConstants.{MOST_BYTES, MOST_CLIENTS};

/// A script has at most 1,048,576 bytes and 16 clients, and each of its lines at most 400 bytes.
pub fn limits_are()
    ensures { (MOST_BYTES ≡ 1048576) × (MOST_CLIENTS ≡ 16) × (MOST_LINE_BYTES ≡ 400) }
{}
