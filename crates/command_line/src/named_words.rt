// Words that are found by their names.
ghost use Rattle.std.specs.Prelude.{◌≡◌, ℕ, Bool, List, Option, unwrap_or};
ghost use Rattle.std.specs.Option.{option_copied};
ghost use Rattle.command_words.specs.Words.{flag_in, number_in, text_in};

use command_words::Given;

// Words, each with a name. The functions that read them are generic in them, so that they have no value but theirs, and their clauses
// say under which name each is read.
pub(crate) trait NamedWords<'a> {
    // Whether this may stand for the word of a name, if anything does.
    ghost stands: { Self → List ℕ → Option (List ℕ) → Type 0 };

    // Whether the word of a name may be there, or may not.
    ghost stated: { Self → List ℕ → Bool → Type 0 };

    // Whether this may be the number that the word of a name is.
    ghost counts: { Self → List ℕ → ℕ → Type 0 };

    // The word of a name, if it is there.
    fn word(&self, name: &str) -> Option<&'a str>
        ensures { stands self.now name.now (option_copied result) };

    // Whether a word that takes no value is there.
    fn states(&self, name: &str) -> bool
        ensures { stated self.now name.now result };

    // The number that the word of a name is.
    fn count(&self, name: &str) -> u64
        ensures { counts self.now name.now result };
}

// The words under a name.
impl<'a> NamedWords<'a> for Given<'a> {
    ghost stands = { λ words name value. value ≡ text_in words name };

    ghost stated = { λ words name is_there. is_there ≡ flag_in words name };

    ghost counts = { λ words name number. number ≡ unwrap_or (number_in words name) 0 };

    fn word(&self, name: &str) -> Option<&'a str> {
        self.text(name)
    }

    fn states(&self, name: &str) -> bool {
        self.flag(name)
    }

    fn count(&self, name: &str) -> u64 {
        self.number(name).unwrap_or(0)
    }
}
