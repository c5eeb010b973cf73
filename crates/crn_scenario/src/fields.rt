//! The keys of a scenario's tables, with the kind and the range of their values.

ghost use Rattle.std.specs.Prelude.{◌≡◌, map, option_map};
ghost use Rattle.toml.specs.View.{view, table_view, array_view};
ghost use Rattle.crn_spelling.specs.Hex.{is_hex_word};
ghost use Rattle.std.specs.List.{list_all};
ghost use Rattle.crn_scenario.specs.Tree.{integers_of, texts_of};
ghost use Rattle.crn_scenario.specs.Fields as spec;
ghost use Rattle.crn_scenario.specs.Inner.Fields.{entry_of};

use crate::tree::{are_integers, are_tables, are_texts, count_items, member_at};
use crn_draw::TOTAL_LIMIT;
use crn_limits::{PERIOD_LIMIT, REPLICATION_LIMIT};
use crn_spelling::hex;
use crn_stock::{ITEM_LIMIT, LEAD_LIMIT, LEVEL_LIMIT, RATE_LIMIT, SETUP_LIMIT};
use toml::value::Array;
use toml::{Table, Value};

/// What may stand at a key.
#[derive(Clone, Copy)]
pub enum ValueKind {
    /// A whole number.
    Integer,
    /// A whole number from `low` to `high`.
    Number { low: i64, high: i64 },
    /// A list of whole numbers from `low` to `high`, at least one.
    Numbers { low: i64, high: i64 },
    /// A text.
    Text,
    /// A list of four hexadecimal words.
    HexWords,
    /// A table.
    Table,
    /// A list of tables.
    Tables,
}

/// A key of a table, and what may stand there.
#[derive(Clone, Copy)]
pub struct Field {
    /// The key.
    pub name: &'static str,
    /// What may stand there.
    pub kind: ValueKind,
    /// The first version of documents that has the key. All later ones have it too.
    pub since: u32,
}

/// What a table must keep.
#[derive(Clone, Copy)]
pub enum Rule {
    /// Each of its keys is known.
    Known,
    /// No key is missing.
    Present,
    /// What stands at a key is of its kind.
    Kinds,
    /// What is of its kind is in its range.
    Ranges,
}

/// The newest version of documents. The oldest is 1, and there are all between them.
pub const NEWEST_VERSION: u32 = 2;

// An amount of stock: the initial stock, a reorder point and an order-up-to level.
const LEVEL: ValueKind = ValueKind::Number {
    low: 0,
    high: LEVEL_LIMIT,
};

// A cost of one item.
const RATE: ValueKind = ValueKind::Number {
    low: 0,
    high: RATE_LIMIT as i64,
};

// Weights, whose sum is judged besides.
const WEIGHTS: Field = Field {
    name: "weights",
    kind: ValueKind::Numbers {
        low: 0,
        high: TOTAL_LIMIT as i64,
    },
    since: 1,
};

/// The keys of the whole document.
pub const TOP: [Field; 11] = [
    Field {
        name: "version",
        kind: ValueKind::Integer,
        since: 1,
    },
    Field {
        name: "key",
        kind: ValueKind::HexWords,
        since: 1,
    },
    Field {
        name: "periods",
        kind: ValueKind::Number {
            low: 1,
            high: PERIOD_LIMIT as i64,
        },
        since: 1,
    },
    Field {
        name: "replications",
        kind: ValueKind::Number {
            low: 1,
            high: REPLICATION_LIMIT as i64,
        },
        since: 1,
    },
    Field {
        name: "initial",
        kind: LEVEL,
        since: 1,
    },
    Field {
        name: "ring",
        kind: ValueKind::Integer,
        since: 1,
    },
    Field {
        name: "costs",
        kind: ValueKind::Table,
        since: 1,
    },
    Field {
        name: "demand",
        kind: ValueKind::Table,
        since: 1,
    },
    Field {
        name: "lead",
        kind: ValueKind::Table,
        since: 1,
    },
    Field {
        name: "policy",
        kind: ValueKind::Tables,
        since: 1,
    },
    Field {
        name: "returns",
        kind: ValueKind::Table,
        since: 2,
    },
];

/// The keys of `costs`.
pub const COSTS: [Field; 4] = [
    Field {
        name: "setup",
        kind: ValueKind::Number {
            low: 0,
            high: SETUP_LIMIT as i64,
        },
        since: 1,
    },
    Field {
        name: "unit",
        kind: RATE,
        since: 1,
    },
    Field {
        name: "holding",
        kind: RATE,
        since: 1,
    },
    Field {
        name: "backlog",
        kind: RATE,
        since: 1,
    },
];

/// The keys of `demand`.
pub const DEMAND: [Field; 2] = [
    Field {
        name: "values",
        kind: ValueKind::Numbers {
            low: 0,
            high: ITEM_LIMIT as i64,
        },
        since: 1,
    },
    WEIGHTS,
];

/// The keys of `lead`.
pub const LEAD: [Field; 2] = [
    Field {
        name: "values",
        kind: ValueKind::Numbers {
            low: 1,
            high: LEAD_LIMIT as i64,
        },
        since: 1,
    },
    WEIGHTS,
];

/// The keys of `returns`.
pub const RETURNS: [Field; 2] = DEMAND;

/// The keys of each `policy`.
pub const POLICY: [Field; 3] = [
    Field {
        name: "name",
        kind: ValueKind::Text,
        since: 1,
    },
    Field {
        name: "s",
        kind: LEVEL,
        since: 1,
    },
    Field {
        name: "S",
        kind: LEVEL,
        since: 1,
    },
];

// Whether a value is of a kind. An empty list is of every kind of list.
fn is_of(kind: ValueKind, value: &Value) -> bool
    ensures { result ≡ spec.is_of_kind kind (view value.now) }
{
    match kind {
        ValueKind::Integer | ValueKind::Number { .. } => value.is_integer(),
        ValueKind::Numbers { .. } => match value.as_array() {
            Some(array) => are_integers(array),
            None => false,
        },
        ValueKind::Text => value.is_str(),
        ValueKind::HexWords => match value.as_array() {
            Some(array) => are_texts(array),
            None => false,
        },
        ValueKind::Table => value.is_table(),
        ValueKind::Tables => match value.as_array() {
            Some(array) => are_tables(array),
            None => false,
        },
    }
}

/// Returns whether a number is in a range, or there is none.
pub fn is_within(low: i64, high: i64, number: Option<i64>) -> bool
    ensures { result ≡ spec.is_within low high number }
{
    match number {
        Some(z) => low <= z && z <= high,
        None => true,
    }
}

// Whether each number of an array is in a range.
fn are_within(low: i64, high: i64, array: &Array) -> bool
    ensures { result ≡ spec.are_within low high (integers_of (array_view array.now)) }
{
    'items: for item in array {
        if !is_within(low, high, item.as_integer()) {
            return false;
        }
    }
    true
}

// Whether each text of an array is a hexadecimal word.
fn are_words(array: &Array) -> bool
    ensures { result ≡ list_all is_hex_word (texts_of (array_view array.now)) }
{
    'items: for item in array {
        if let Some(text) = item.as_str() {
            if !hex::is_hex_word(text) {
                return false;
            }
        }
    }
    true
}

// Whether a value is in the range of its kind. A value of another kind breaks no range.
fn is_in_range(kind: ValueKind, value: &Value) -> bool
    ensures { result ≡ spec.is_in_range kind (view value.now) }
{
    match kind {
        ValueKind::Number { low, high } => is_within(low, high, value.as_integer()),
        ValueKind::Numbers { low, high } => match value.as_array() {
            Some(array) => count_items(array) != 0 && are_within(low, high, array),
            None => true,
        },
        ValueKind::HexWords => match value.as_array() {
            Some(array) => count_items(array) == 4 && are_words(array),
            None => true,
        },
        ValueKind::Integer | ValueKind::Text | ValueKind::Table | ValueKind::Tables => true,
    }
}

// Whether what stands at a key keeps a rule.
fn keeps_at(rule: Rule, kind: ValueKind, value: Option<&Value>) -> bool
    ensures { result ≡ spec.keeps_at rule kind (option_map (λ x. view x.now) value.entry) }
{
    match (rule, value) {
        (Rule::Known, _) => true,
        (Rule::Present, value) => value.is_some(),
        (Rule::Kinds | Rule::Ranges, None) => true,
        (Rule::Kinds, Some(value)) => is_of(kind, value),
        (Rule::Ranges, Some(value)) => is_in_range(kind, value),
    }
}

// Whether what stands at each key that a version has keeps a rule.
#[tactic(auto, unfolding(crate::specs::Fields::keys_of))]
fn keeps_at_all(rule: Rule, version: u64, fields: &[Field], table: &Table) -> bool
    ensures { result ≡ spec.keeps_at_all rule (spec.keys_of version (map entry_of fields.now)) (table_view table.now) }
{
    for field in fields {
        if u64::from(field.since) <= version
            && !keeps_at(rule, field.kind, member_at(table, field.name))
        {
            return false;
        }
    }
    true
}

#[tactic(auto, unfolding(crate::specs::Fields::keys_of))]
fn is_key(version: u64, fields: &[Field], key: &str) -> bool
    ensures { result ≡ spec.is_key (spec.keys_of version (map entry_of fields.now)) key.now }
{
    for field in fields {
        if u64::from(field.since) <= version && field.name == key {
            return true;
        }
    }
    false
}

// Whether each key of a table is one that a version has.
fn knows_all(version: u64, fields: &[Field], table: &Table) -> bool
    ensures { result ≡ spec.knows_all (spec.keys_of version (map entry_of fields.now)) (table_view table.now) }
{
    'members: for (key, _value) in table.iter() {
        if !is_key(version, fields, key.as_str()) {
            return false;
        }
    }
    true
}

/// Returns whether a table keeps a rule, with those of these fields that a version has.
pub fn keeps(rule: Rule, version: u64, fields: &[Field], table: &Table) -> bool
    ensures { result ≡ spec.keeps rule (spec.keys_of version (map entry_of fields.now)) (table_view table.now) }
{
    match rule {
        Rule::Known => knows_all(version, fields, table),
        Rule::Present | Rule::Kinds | Rule::Ranges => keeps_at_all(rule, version, fields, table),
    }
}
