//! The two shares of a report.

/// Which of the two aggregators prepares a half (draft-irtf-cfrg-vdaf-03): the leader's is the first share, and the
/// helper's the second.
#[derive(Clone, Copy, Debug, PartialEq, Eq)]
pub enum Role {
    /// The leader, whose input share spells its half.
    Leader,
    /// The helper, whose input share has the keys that its half is drawn from.
    Helper,
}

impl Role {
    ghost use Rattle.std.specs.Prelude.{◌≡◌};
    ghost use Rattle.vdaf_api.specs.Role.{role_byte};

    /// The byte that stands for the aggregator in info texts and tags.
    pub fn byte(self) -> u8
        ensures { result ≡ role_byte self }
    {
        match self {
            Role::Leader => 0,
            Role::Helper => 1,
        }
    }
}
