//! Why a text is refused as a scenario.

ghost use Rattle.std.specs.Prelude.{◌≡◌};
ghost use Rattle.crn_scenario.specs.Reading as spec;

use std::alloc::AllocError;

/// Why no scenario was read. If several rules are broken, it is the one with the least number.
///
/// Each rule but the first is about the document's tree alone, however it is spelt, and is judged alone: a missing key and
/// a value of another kind break no rule but their own. The tables are the document itself, those at `costs`, `demand`,
/// `lead` and `returns`, and each one in the list at `policy`. The version says which keys they have. `fields.rt` has the
/// keys with their kinds and ranges; `crnsim help` lists the rules.
#[derive(Clone, Copy, Debug, PartialEq, Eq)]
pub enum ScenarioFault {
    /// 1: the bytes are not a TOML document in UTF-8.
    NoDocument,
    /// 2: `version` is missing, no whole number, or not an existing version.
    Version,
    /// 3: a table has a key that is none of its keys.
    UnknownKey,
    /// 4: a table lacks one of its keys.
    MissingKey,
    /// 5: a value, or an entry of a list, is of another kind than its key asks for.
    Kind,
    /// 6: a number or an entry of a list of numbers is out of its range, such a list is empty, or `key` is not four words
    /// of 16 digits of `0-9a-f`.
    Range,
    /// 7: a table has more or fewer weights than values.
    Lengths,
    /// 8: the values of a table do not rise strictly.
    Order,
    /// 9: the weights of a table are 0 in sum, or over [`TOTAL_LIMIT`](crn_draw::TOTAL_LIMIT).
    WeightSum,
    /// 10: a policy's `s` is above its `S`.
    Levels,
    /// 11: a policy's name does not have the form of [`is_name`](crn_spelling::names::is_name), or two policies have the
    /// same name.
    Name,
    /// 12: there is no ring of this size: see [`is_ring_size`](crn_limits::is_ring_size).
    RingSize,
    /// 13: there is no policy, or there are more than [`POLICY_LIMIT`](crn_limits::POLICY_LIMIT).
    PolicyCount,
    /// 90: an allocation failed. It says nothing about the text.
    Memory(AllocError),
}

impl ScenarioFault {
    /// Returns the number of the fault: 1 to 13 for a rule that the text breaks, 90 if an allocation failed.
    pub fn number(&self) -> u8
        ensures { result ≡ spec.scenario_fault_number self.now }
    {
        match self {
            ScenarioFault::NoDocument => 1,
            ScenarioFault::Version => 2,
            ScenarioFault::UnknownKey => 3,
            ScenarioFault::MissingKey => 4,
            ScenarioFault::Kind => 5,
            ScenarioFault::Range => 6,
            ScenarioFault::Lengths => 7,
            ScenarioFault::Order => 8,
            ScenarioFault::WeightSum => 9,
            ScenarioFault::Levels => 10,
            ScenarioFault::Name => 11,
            ScenarioFault::RingSize => 12,
            ScenarioFault::PolicyCount => 13,
            ScenarioFault::Memory(_) => 90,
        }
    }
}

impl From<AllocError> for ScenarioFault {
    ghost use Rattle.std.specs.Prelude.{◌≡◌};
    ghost use Rattle.crn_scenario.specs.declared.scenario_fault.ScenarioFault.TheVariants.{Memory};

    ghost from_gives = { λ e f. f ≡ Memory e };

    fn from(refused: AllocError) -> ScenarioFault {
        ScenarioFault::Memory(refused)
    }
}
