//! What holds of the grammar of PE32+ files, for those who read it without its order of checks.

ghost use Rattle.std.specs.Prelude.{◌≡◌, ◌↔◌, List, ℕ, Ok, IsOk};
ghost use Rattle.pe_reader.specs.Prelude.{Headers, pe_of, IsPe, Describes};

/// The grammar accepts exactly the bytes that have each of the nineteen facts on places in them.
pub fn grammar_is_the_facts()
    ensures { (bytes : List ℕ) → IsOk (pe_of bytes) ↔ IsPe bytes }
{}

/// The headers that it gives say what stands at the fields' places in the bytes, the sections in the table's order.
pub fn headers_are_the_fields()
    ensures { (bytes : List ℕ) (headers : Headers) → pe_of bytes ≡ Ok headers → Describes bytes headers }
{}
