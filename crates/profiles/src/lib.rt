// The load profiles and their sub-profiles. docs/profiles.md has the table.
#![tactic(auto)]

ghost use Rattle.std.specs.Prelude.{◌≡◌};
ghost use Rattle.profiles.specs.Table.{profile_of, dial_of, sub_profile_of, SubProfilesApart};

use refusals::Refusal;

// The load profile of a site: the mean behaviour of sites of its class and power.
#[derive(Clone, Copy, PartialEq, Eq, Debug)]
pub enum Profile {
    Res1,
    Res11,
    Res1We,
    Res11We,
    Res2,
}

// A dial: a register of the meter. The calls take its number, 1 or 2.
#[derive(Clone, Copy, PartialEq, Eq, Debug)]
pub enum Dial {
    First,
    Second,
}

impl TryFrom<u8> for Dial {
    type Error = Refusal;

    ghost try_from_gives = { λ n r. r ≡ dial_of n };

    fn try_from(number: u8) -> Result<Dial, Refusal> {
        match number {
            1 => Ok(Dial::First),
            2 => Ok(Dial::Second),
            _ => Err(Refusal::UnknownDial),
        }
    }
}

// By profile, the sub-profiles of dial 1 and dial 2: 0 to 7, or none where the profile lacks that dial.
const SUB_PROFILES: [[Option<u8>; 2]; 5] = [
    [Some(0), None],
    [Some(1), None],
    [Some(2), Some(3)],
    [Some(4), Some(5)],
    [Some(6), Some(7)],
];

impl Profile {
    // The profile of a class (the metering configuration, 1 to 3) at a subscribed power of 1 to 36 kVA. Class and power
    // are any numbers; those in no row of the table are refused here.
    pub fn of(class: u8, kva: u8) -> Result<Profile, Refusal>
        ensures { result ≡ profile_of class kva }
    {
        match class {
            1 if (1..=6).contains(&kva) => Ok(Profile::Res1),
            1 if (7..=36).contains(&kva) => Ok(Profile::Res11),
            2 if (1..=6).contains(&kva) => Ok(Profile::Res1We),
            2 if (7..=36).contains(&kva) => Ok(Profile::Res11We),
            3 if (1..=36).contains(&kva) => Ok(Profile::Res2),
            _ => Err(Refusal::NoSuchProfile),
        }
    }

    // The sub-profile of a dial (a register of the meter, 1 or 2); none where the profile lacks the dial. The dial is any
    // number, as in the calls.
    pub fn sub_profile(self, dial: u8) -> Option<u8>
        ensures { result ≡ sub_profile_of self dial }
    {
        let dial = Dial::try_from(dial).ok()?;
        SUB_PROFILES[self as usize][dial as usize]
    }
}

// A sub-profile is one of 0 to 7, and belongs to one dial of one profile.
pub fn sub_profiles_stand_apart()
    ensures { SubProfilesApart }
{}
