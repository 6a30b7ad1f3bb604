//! What single numbers make, and that the words of different clients differ.
ghost use Rattle.std.specs.Prelude.{◌≡◌, ◌<◌, ◌^◌, ℕ, [], ◌∷◌};
ghost use Rattle.wp_text.specs.declared.script.Command.TheVariants as command;
ghost use Rattle.wp_make.specs.Generator.{made_script, client_word, key_word, txn_word};

/// With the seed 0 one turn of one client is a get, with the seed 1 a begin.
pub fn first_turns()
    ensures seed_0 { made_script 0 1 1 ≡ record { client = client_word 1; commands = command.Get (key_word 1 1) ∷ [] } ∷ [] }
    ensures seed_1 { made_script 1 1 1 ≡ record { client = client_word 1; commands = command.Begin (txn_word 1 1) ∷ [] } ∷ [] }
{}

/// Two clients have no name and no key in common, and no name of a transaction.
pub fn clients_share_no_word()
    ensures names { (one other : ℕ) → one < 2 ^ 32 → other < 2 ^ 32 → client_word one ≡ client_word other → one ≡ other }
    ensures keys { (one other key another : ℕ) → one < 2 ^ 32 → other < 2 ^ 32 → key_word one key ≡ key_word other another → one ≡ other }
    ensures txns { (one other begins another : ℕ) → one < 2 ^ 32 → other < 2 ^ 32 → txn_word one begins ≡ txn_word other another → one ≡ other }
{}
