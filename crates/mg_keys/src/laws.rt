//! Theorems about the bytes of characters and of arguments.
//!
//! The functions do nothing: their contracts are theorems over the definitions of `specs/`, which
//! the check proves like any other contract.
ghost use Rattle.std.specs.Prelude.{◌≡◌, ◌≢◌, ◌≤◌, ◌*◌, ◌^◌, ◌∷◌, ◌++◌, ℕ, List, [], encode_utf8};
ghost use Rattle.std.specs.Char.{IsScalar};
ghost use Rattle.std.specs.Str.Parse.{IsNumeral, digits_value};
ghost use Rattle.mg_keys.specs.declared.step.Mode.TheVariants.{Plain};
ghost use Rattle.mg_keys.specs.Argument.{capped};
ghost use Rattle.mg_keys.specs.ArgumentKeys.{EndsArgument, IsArgumentPart, universals};
ghost use Rattle.mg_keys.specs.Bytes.{universal_argument_byte};
ghost use Rattle.mg_keys.specs.Meaning.{meaning, meaning_of_keys};
ghost use Rattle.mg_keys.specs.Utf8.{begins, characters, is};

/// The byte sequences that are read as a character are exactly the UTF-8 forms of the scalar values
/// from U+0080 on, and each proper beginning of one is a beginning.
pub fn characters_are_those_of_utf8()
    ensures encoded { (c : ℕ) → IsScalar c → 128 ≤ c → characters (encode_utf8 c) ≡ is c }
    ensures only_those { (bytes : List ℕ) (c : ℕ) → characters bytes ≡ is c →
        IsScalar c × (128 ≤ c) × (bytes ≡ encode_utf8 c) }
    ensures beginnings { (c : ℕ) (bytes more : List ℕ) → IsScalar c → 128 ≤ c → more ≢ [] →
        encode_utf8 c ≡ bytes ++ more → characters bytes ≡ begins }
{}

/// With no C-u the argument is 1, also where digits are typed. C-u so many times gives that power
/// of 4. Digits after a C-u give the number that they write, whatever stood before that C-u, and
/// each C-u after them multiplies it by 4. It is at most 9999 always. So `C-u C-u` gives 16,
/// `C-u 3 C-u` 12, and `C-u 3 C-u 5` 5.
pub fn arguments_are_what_is_typed()
    ensures none { (key : ℕ) (rest : List ℕ) → key ≢ universal_argument_byte →
        meaning Plain (key ∷ rest) ≡ meaning_of_keys 1 (key ∷ rest) }
    ensures universals { (k key : ℕ) (rest : List ℕ) → EndsArgument key →
        meaning Plain (universals k ++ key ∷ rest)
        ≡ meaning_of_keys (capped (4 ^ k)) (key ∷ rest) }
    ensures digits { (front digits : List ℕ) (k key : ℕ) (rest : List ℕ) →
        IsArgumentPart front → IsNumeral 10 digits → EndsArgument key →
        meaning Plain
        (front ++ universal_argument_byte ∷ (digits ++ (universals k ++ key ∷ rest)))
        ≡ meaning_of_keys (capped (digits_value 10 digits * 4 ^ k)) (key ∷ rest) }
{}
