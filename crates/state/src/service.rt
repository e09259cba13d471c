// What the start of service fixes: how long a movement may take, and what is reported.
ghost use Rattle.std.specs.Prelude.{◌≡◌, ok_or};
ghost use Rattle.state.specs.Service.{no_such_profile, profile_asked, reported, service_asked};

use legs::Position;

// The longest limit that can be asked for, in ticks of 0.1 s.
pub const LONGEST_LIMIT: u16 = 600;

// Whether trailed positions and timeouts are reported.
#[derive(Clone, Copy, PartialEq, Eq, Debug)]
pub enum Profile {
    Basic,
    Extended,
}

impl Profile {
    // How a position is reported in this profile.
    pub fn reported(self, position: Position) -> Position
        ensures { result ≡ reported self position }
    {
        match (self, position) {
            (Profile::Basic, Position::Trailed) => Position::NoEndPosition,
            _ => position,
        }
    }
}

// A number that no profile has.
#[derive(Clone, Copy, PartialEq, Eq, Debug)]
pub struct NoSuchProfile;

// The profile with this number.
impl TryFrom<u16> for Profile {
    type Error = NoSuchProfile;

    ghost try_from_gives = { λ number r. r ≡ ok_or (profile_asked number) no_such_profile };

    fn try_from(number: u16) -> Result<Profile, NoSuchProfile> {
        match number {
            0 => Ok(Profile::Basic),
            1 => Ok(Profile::Extended),
            _ => Err(NoSuchProfile),
        }
    }
}

#[derive(Clone, Copy, PartialEq, Eq, Debug)]
pub struct Service {
    // The age, in ticks, at which a movement is given up.
    pub limit: u16,
    pub profile: Profile,
}

impl Service {
    // What the two arguments of a start of service ask for, if they can be used.
    pub fn asked(a: u16, b: u16) -> Option<Service>
        ensures { result ≡ service_asked a b }
    {
        let profile = Profile::try_from(b).ok()?;
        (1..=LONGEST_LIMIT)
            .contains(&a)
            .then_some(Service { limit: a, profile })
    }
}
