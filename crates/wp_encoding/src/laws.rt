//! What is read is spelled so, what is spelled so is read, and what is refused has the fault.

ghost use Rattle.std.specs.Prelude.{◌≡◌, ◌↔◌, true, ◌++◌, ℕ, ◌<◌, ◌≤◌, List, Ok, Err, slice_index};
ghost use Rattle.wp_model.specs.declared.change.Change.{Change};
ghost use Rattle.wp_model.specs.Word.{is_word, is_value};
ghost use Rattle.wp_encoding.specs.declared.error.EncodingError.{EncodingError};
ghost use Rattle.wp_encoding.specs.Encoding.{word_bytes, value_bytes, batch_bytes, are_changes};
ghost use Rattle.wp_encoding.specs.Reading.{word_field_at, value_field_at, batch_field_at};
ghost use Rattle.wp_encoding.specs.Faults.{IsWordFault, IsValueFault, IsBatchFault};

/// A key or a name of at most `most` bytes.
pub fn words_are_read()
    ensures spelled { (most : ℕ) (word rest : List ℕ) → is_word most word ≡ true
        → word_field_at most (word_bytes word ++ rest) ≡ Ok (word, rest) }
    ensures only { (most : ℕ) (bytes word rest : List ℕ) → ((i : ℕ) → slice_index bytes i < 256)
        → word_field_at most bytes ≡ Ok (word, rest) → (is_word most word ≡ true) × (bytes ≡ word_bytes word ++ rest) }
    ensures refused { (most : ℕ) (bytes : List ℕ) (fault : EncodingError)
        → (word_field_at most bytes ≡ Err fault) ↔ IsWordFault most bytes fault }
{}

/// A value.
pub fn values_are_read()
    ensures spelled { (value rest : List ℕ) → is_value value ≡ true
        → value_field_at (value_bytes value ++ rest) ≡ Ok (value, rest) }
    ensures only { (bytes value rest : List ℕ) → ((i : ℕ) → slice_index bytes i < 256)
        → value_field_at bytes ≡ Ok (value, rest) → (is_value value ≡ true) × (bytes ≡ value_bytes value ++ rest) }
    ensures refused { (bytes : List ℕ) (fault : EncodingError) → ((i : ℕ) → slice_index bytes i < 256)
        → (value_field_at bytes ≡ Err fault) ↔ IsValueFault bytes fault }
{}

/// A batch.
pub fn batches_are_read()
    ensures spelled { (batch : List Change) (rest : List ℕ) → are_changes batch ≡ true
        → batch_field_at (batch_bytes batch ++ rest) ≡ Ok (batch, rest) }
    ensures only { (bytes rest : List ℕ) (batch : List Change) → ((i : ℕ) → slice_index bytes i < 256)
        → batch_field_at bytes ≡ Ok (batch, rest) → (are_changes batch ≡ true) × (bytes ≡ batch_bytes batch ++ rest) }
    ensures refused { (bytes : List ℕ) (fault : EncodingError) → ((i : ℕ) → slice_index bytes i < 256)
        → (batch_field_at bytes ≡ Err fault) ↔ IsBatchFault bytes fault }
{}
