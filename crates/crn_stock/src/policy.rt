//! Policies and their names.

ghost use Rattle.std.specs.Prelude.{◌≡◌, ◌↔◌, IsTrue, string_bytes};
ghost use Rattle.crn_stock.specs.Models.{IsPolicy};

use crate::limits::LEVEL_LIMIT;
use std::marker::Model;

/// A policy's name, which contracts see as its bytes.
///
/// Any text is a name. `Scenario::new` asks for 1 to 16 of `A-Z a-z 0-9 _ -`.
#[derive(Debug, Drop)]
pub struct Name {
    text: String,
}

impl Model for Name {
    ghost use Rattle.std.specs.Prelude.{ℕ, List, string_bytes};

    ghost Value = { List ℕ };

    ghost view = { λ n. string_bytes n.text };
}

impl PartialEq for Name {
    ghost use Rattle.std.specs.Str.{bytes_eq};
    ghost use Rattle.std.specs.Cmp.Rules.{comparing};
    ghost use Rattle.std.proofs.Common.{rules};

    ghost eq = { bytes_eq };

    ghost laws = { Prim.search (comparing, rules) };

    fn eq(&self, other: &Name) -> bool {
        self.text == other.text
    }
}

impl Eq for Name {
    ghost use Rattle.std.specs.Cmp.Rules.{comparing};
    ghost use Rattle.std.proofs.Common.{rules};

    ghost laws = { Prim.search (comparing, rules) };
}

impl Name {
    /// Returns the name of a text.
    pub fn from_string(text: String) -> Name
        ensures { result ≡ string_bytes text }
    {
        Name { text }
    }

    /// Returns the name's text.
    pub fn as_str(&self) -> &str
        ensures { result.now ≡ self.now }
    {
        self.text.as_str()
    }

    /// Returns the name's text, moved out of the name.
    pub fn into_string(self) -> String
        ensures { string_bytes result ≡ self }
    {
        let Name { text } = self;
        text
    }
}

/// An (s,S) policy: if a review finds the position below `low`, it orders up to `high`.
///
/// `State::step` and `State::take_block` ask for levels within their range ([`is_in_range`](Policy::is_in_range)). Source:
/// Law, Simulation Modeling and Analysis, chapter 1; the position is reviewed here, and not the stock.
#[derive(Debug, PartialEq, Eq, Drop)]
pub struct Policy {
    /// What the policy is called in reports.
    pub name: Name,
    /// The reorder point `s`, in items.
    pub low: i64,
    /// The order-up-to level `S`, in items.
    pub high: i64,
}

impl Policy {
    /// Returns whether the levels are within their range: `0 <= low <= high <=` [`LEVEL_LIMIT`].
    pub fn is_in_range(&self) -> bool
        ensures { IsTrue result ↔ IsPolicy self.now }
    {
        self.low >= 0 && self.low <= self.high && self.high <= LEVEL_LIMIT
    }
}
