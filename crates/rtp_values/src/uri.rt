//! A URI as text of its own.

ghost use Rattle.std.specs.Prelude.{◌≡◌, ◌↔◌, IsTrue, IfOk, nat_eq};
ghost use Rattle.std.specs.Cmp.Lexicographic.{pointwise};
ghost use Rattle.std.specs.String.{string_bytes};

use std::alloc::{AllocError, Global};
use std::marker::Model;

/// The URI of an extension that this library doesn't know, as a text that it owns.
#[derive(Debug, Drop)]
pub struct Uri {
    text: String,
}

impl Model for Uri {
    ghost use Rattle.std.specs.Prelude.{List, ℕ};
    ghost use Rattle.std.specs.String.{string_bytes};

    ghost Value = { List ℕ };

    ghost view = { λ uri. string_bytes uri.text };
}

impl From<String> for Uri {
    ghost from_gives = { λ text uri. uri ≡ string_bytes text };

    fn from(text: String) -> Self {
        Uri { text }
    }
}

impl From<Uri> for String {
    ghost from_gives = { λ uri text. string_bytes text ≡ uri };

    fn from(uri: Uri) -> Self {
        uri.text
    }
}

impl PartialEq for Uri {
    ghost use Rattle.std.specs.Prelude.{nat_eq};
    ghost use Rattle.std.specs.Cmp.Lexicographic.{pointwise, nat_list_eq_equiv};
    ghost use Rattle.std.specs.Cmp.{partial_equiv_from_equiv};

    ghost eq = { λ uri other. pointwise nat_eq uri other };

    ghost laws = { partial_equiv_from_equiv nat_list_eq_equiv };

    /// Whether the texts are the same.
    fn eq(&self, other: &Uri) -> bool
        ensures answer { result ≡ pointwise nat_eq self.now other.now }
        ensures same { IsTrue result ↔ (self.now ≡ other.now) }
    {
        self.text == other.text
    }
}

impl Eq for Uri {
    ghost use Rattle.std.specs.Cmp.Lexicographic.{nat_list_eq_equiv};

    ghost laws = { nat_list_eq_equiv };
}

impl Uri {
    /// The text.
    pub fn as_str(&self) -> &str
        ensures { result.now ≡ self.now }
    {
        self.text.as_str()
    }

    /// The same URI in memory of its own. Where memory is refused nothing is returned.
    pub fn clone(&self, alloc: Global) -> Result<Self, AllocError>
        ensures same { IfOk result (λ uri. uri ≡ self.now) }
    {
        Ok(Uri::from(String::from_str(alloc, &self.text)?))
    }
}
