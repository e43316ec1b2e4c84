use profiles::Profile;
use refusals::Refusal;

#[test]
fn table_of_profiles(rt: HostRuntime) {
    let refused = Err(Refusal::NoSuchProfile);
    let cases: [(u8, u8, Result<Profile, Refusal>); 16] = [
        (1, 1, Ok(Profile::Res1)),
        (1, 6, Ok(Profile::Res1)),
        (1, 7, Ok(Profile::Res11)),
        (1, 36, Ok(Profile::Res11)),
        (2, 1, Ok(Profile::Res1We)),
        (2, 6, Ok(Profile::Res1We)),
        (2, 7, Ok(Profile::Res11We)),
        (2, 36, Ok(Profile::Res11We)),
        (3, 1, Ok(Profile::Res2)),
        (3, 36, Ok(Profile::Res2)),
        (0, 6, refused),
        (4, 6, refused),
        (255, 6, refused),
        (1, 0, refused),
        (2, 37, refused),
        (3, 255, refused),
    ];
    for (class, kva, profile) in cases {
        assert_eq!(rt; Profile::of(class, kva), profile);
    }
    assert_eq!(rt; Refusal::NoSuchProfile.number(), 6);
}

#[test]
fn table_of_sub_profiles(rt: HostRuntime) {
    let cases: [(Profile, Option<u8>, Option<u8>); 5] = [
        (Profile::Res1, Some(0), None),
        (Profile::Res11, Some(1), None),
        (Profile::Res1We, Some(2), Some(3)),
        (Profile::Res11We, Some(4), Some(5)),
        (Profile::Res2, Some(6), Some(7)),
    ];
    for (profile, first, second) in cases {
        assert_eq!(rt; profile.sub_profile(1), first);
        assert_eq!(rt; profile.sub_profile(2), second);
        assert_eq!(rt; profile.sub_profile(0), None);
        assert_eq!(rt; profile.sub_profile(3), None);
    }
}
