use super::*;
use aes_block::Key;
use aes_cmac_prg::cmac;
use dap_bytes::Id;
use field_laws::Field;
use field64::Field64;
use flp_circuits::Count;
use prio3_prep::State;
use prio3_share::shard_input;
use std::alloc::{AllocError, Global};
use std::process::Abort;
use std::test::Fail;
use vdaf_api::{
    Answer, Bounds, Collected, Kind, ListVdaf, Numbers, PrepFault, Role, ShardFault, Shares, Step,
    Toy, ToyPrep, Vdaf,
};

/// The identifier of every report here, and the seed.
const ONE: Id = [0, 0, 0, 0, 0, 0, 0, 0, 0, 0, 0, 0, 0, 0, 0, 1];

/// The verify key.
const VERIFY: [u8; 16] = [7; 16];

/// What a part of a report is known by: its tag under the key of zeros, which an independent program computed.
fn tag(bytes: &[u8]) -> u128 {
    u128::from_be_bytes(cmac(&Key::new([0; 16]), bytes))
}

/// The answer of one report, by the trait's calls alone, where its parts have these tags: those of the public share,
/// both input shares, both prep shares, the prep message and both out shares, the leader's first. Without tags any do.
fn answered<V: ListVdaf>(
    rt: &impl Abort,
    alloc: Global,
    v: &V,
    m: &[u64],
    tags: Option<[u128; 8]>,
) -> Result<Answer, Fail> {
    let shares = v.shard_list(alloc, &ONE, m, &ONE).expect(rt, "shares");
    let public = shares.public.as_slice();
    let (leader, ours) = v
        .init(
            alloc,
            Role::Leader,
            &VERIFY,
            &ONE,
            public,
            shares.leader.as_slice(),
        )
        .expect(rt, "the leader's prep share");
    let (helper, theirs) = v
        .init(
            alloc,
            Role::Helper,
            &VERIFY,
            &ONE,
            public,
            shares.helper.as_slice(),
        )
        .expect(rt, "the helper's prep share");
    let message = v
        .combine(alloc, &ours, &theirs)
        .expect(rt, "the prep message");
    let out = v
        .finish(alloc, &leader, &message)
        .expect(rt, "the leader's out share");
    let other = v
        .finish(alloc, &helper, &message)
        .expect(rt, "the helper's out share");
    let seen = [
        tag(public),
        tag(shares.leader.as_slice()),
        tag(shares.helper.as_slice()),
        tag(&ours),
        tag(&theirs),
        tag(&message),
        tag(&out),
        tag(&other),
    ];
    if let Some(tags) = tags {
        assert_eq!(rt; seen, tags, "a measurement of {} numbers", m.len());
    }
    counted(rt, alloc, v, &out, &other)
}

/// Adds an out share to another.
fn add<V: Vdaf>(rt: &impl Abort, v: &V, sum: &mut [u8], out: &[u8]) {
    assert!(rt; v.is_out(sum));
    assert!(rt; v.is_out(out));
    v.add(sum, out);
}

/// The answer of two out shares.
fn answer_of<V: Vdaf>(
    rt: &impl Abort,
    alloc: Global,
    v: &V,
    leader: &[u8],
    helper: &[u8],
) -> Result<Answer, Fail> {
    assert!(rt; v.is_out(leader));
    assert!(rt; v.is_out(helper));
    Ok(v.answer(alloc, leader, helper)?)
}

/// The answer of two out shares, the first of them added to noughts.
fn counted<V: Vdaf>(
    rt: &impl Abort,
    alloc: Global,
    v: &V,
    out: &[u8],
    other: &[u8],
) -> Result<Answer, Fail> {
    let mut sum = v.zero(alloc)?;
    add(rt, v, &mut sum, out);
    answer_of(rt, alloc, v, &sum, other)
}

/// The function of a kind within its ranges.
fn function(rt: &impl Abort, alloc: Global, kind: Kind) -> Result<Prio3, AllocError> {
    assert!(rt; kind.is_valid());
    Prio3::of(alloc, &kind)
}

/// The most bounds that a histogram has: 0 to 1,022.
fn widest(alloc: Global) -> Result<Bounds, AllocError> {
    Ok(Bounds::new((0..1023).collect(alloc)?))
}

#[test]
fn each_step_of_a_count_is_the_references(rt: HostRuntime) -> Result<(), Fail> {
    let alloc = rt.alloc();
    let count = function(&rt, alloc, Kind::Count)?;
    let tags = [
        0x4387c14b46ef7e176dceefa862d72ff9,
        0x880dc9dbcf0fc29b479337180785c7a6,
        0xd14c7e853fdea3e7a006ed4fda4da811,
        0xe228e43d9ea38a0eb3a0dd1349fa0c1e,
        0x0698dc84defe61d77bcf71101cc39047,
        0x4387c14b46ef7e176dceefa862d72ff9,
        0x5c04157f165a9801f8522b603dd633a5,
        0x006744762b09b78f1579add216a5a3e5,
    ];
    let answer = answered(&rt, alloc, &count, &[1], Some(tags))?;
    assert!(rt; answer == Answer::Count(1));
    assert!(rt; matches!(count.shard(alloc, &ONE, 2, &ONE), Err(ShardFault::BadValue)));
    let shares = count.shard(alloc, &ONE, 1, &ONE).expect(&rt, "shares");
    let input = [Field64::one()];
    let same = shard_input(alloc, &Count::<Field64>::new(), 0, &ONE, &input, &ONE).expect(
        &rt, "shares",
    );
    assert!(rt; shares == same);
    Ok(())
}

#[test]
fn each_step_of_a_sum_is_the_references(rt: HostRuntime) -> Result<(), Fail> {
    let alloc = rt.alloc();
    let small = [
        0x12c2832b70eb123597c09ecabec8cf9d,
        0x23017fbfd4a319369d5a75087b5042e4,
        0xedd86fe2c16d6c252ed8ac4927cad753,
        0xf7290a082748afd3a7061bcd806f12de,
        0xdbfe0d786915e95943e4f3053b7d75ed,
        0xea0c875821aa39c3a281604ed66a3305,
        0xa97df93213e273ceab130824b7f1513a,
        0xc97226f1192f8b121a38fe7637f4f926,
    ];
    let large = [
        0xe8ca5acbbad5a4fdd5292a62c8d7f3b0,
        0x83eeb28fc7f18b54f01541dd62333ea9,
        0xedd86fe2c16d6c252ed8ac4927cad753,
        0x9e2f08bc19ee7ffa3f7c16eecc8907e1,
        0xcc616fabde24d51ac0e8b750ce88cbf7,
        0x324438604e55e12c0b6afc4a9a1d02f2,
        0x4bd8203ecfeaf99465ff50e67980ab6f,
        0xae3c171cea0cbe0bbe3166d433db6418,
    ];
    for (bits, m, tags) in [(8, 200, small), (64, u64::MAX, large)] {
        let sum = function(&rt, alloc, Kind::Sum { bits })?;
        let answer = answered(&rt, alloc, &sum, &[m], Some(tags))?;
        assert!(rt; answer == Answer::Sum(u128::from(m)));
    }
    let sum = function(&rt, alloc, Kind::Sum { bits: 8 })?;
    assert!(rt; matches!(sum.shard(alloc, &ONE, 256, &ONE), Err(ShardFault::BadValue)));
    Ok(())
}

#[test]
fn each_step_of_a_histogram_is_the_references(rt: HostRuntime) -> Result<(), Fail> {
    let alloc = rt.alloc();
    let small = [
        0xc6d352d72f2ce4c56734d1687c50a228,
        0xecb5efa8d01fb225ac3b0ccda7dd77ec,
        0x6d1d9463175ac7541fc9a1e820594d8a,
        0x64cdc5e776cbf63e7ec82d06e22329d5,
        0xf16adc05c37c6d2f93dfdfe2aed0cc9f,
        0x2afea22358cb2593da56e9b90a9aade7,
        0xeba32b652250591bcdb861d4fa05aeb5,
        0x98e3b24385121f1a57aa150771b4106a,
    ];
    let last_bound = [
        0xe9e29db09ccfa7a667cd9fb6390ce9e8,
        0x6fb32e7cd5ef13c7bfba2eeba5f31501,
        0x6d1d9463175ac7541fc9a1e820594d8a,
        0xf6ab5aa70e435c23111eadb9feb12e60,
        0x3b83ee2ef92b6a6ed7bb1d6e66480b30,
        0xdc283214c716cd80fb2b1b3be7b0f157,
        0xf9cd6a94c18f8701b0525ea0f9768fb0,
        0x5a425166ee3cc820a0a704bdd0d82c59,
    ];
    let above = [
        0xebda9a44aab87c2a258b9dd800fb05de,
        0x28e0e67372139cbacdfc9bdbe5b8ced8,
        0x6d1d9463175ac7541fc9a1e820594d8a,
        0x1837af9c4a0c703c36f2ea05189081bd,
        0x475fbb7cdf997db28610c5038d85d5b5,
        0xecfd017fb431500a15c167752ae786e4,
        0x9f674c374b06b20d3ec0bb5762d5a728,
        0x5a425166ee3cc820a0a704bdd0d82c59,
    ];
    let three = Bounds::new([10, 20, 30].to_vec(alloc)?);
    for (bounds, m, tags, place) in [
        (three, 20, small, 1),
        (widest(alloc)?, 1022, last_bound, 1022),
        (widest(alloc)?, 5000, above, 1023),
    ] {
        let mut wanted = Vec::new(alloc);
        for i in 0..=bounds.len() {
            wanted.push(u128::from(i == place))?;
        }
        let histogram = function(&rt, alloc, Kind::Histogram { bounds })?;
        let answer = answered(&rt, alloc, &histogram, &[m], Some(tags))?;
        assert!(rt; answer == Answer::Histogram(Numbers::new(wanted)));
    }
    Ok(())
}

/// The greatest number of so many bits, the next lower one, and so on down to 0, and then the greatest again.
fn falling(alloc: Global, len: u16, greatest: u64) -> Result<Vec<u64>, AllocError> {
    let mut list = Vec::new(alloc);
    for i in 0..u64::from(len) {
        list.push(greatest & !i)?;
    }
    Ok(list)
}

/// A report of a list has the reference's parts, and its answer is the list.
fn check_vector(
    rt: &impl Abort,
    alloc: Global,
    kind: Kind,
    list: &[u64],
    tags: [u128; 8],
) -> Result<(), Fail> {
    let vector = function(rt, alloc, kind)?;
    let answer = answered(rt, alloc, &vector, list, Some(tags))?;
    let mut wanted = Vec::new(alloc);
    for number in list {
        wanted.push(u128::from(*number))?;
    }
    assert!(rt;
        answer == Answer::Vector(Numbers::new(wanted)),
        "{} numbers",
        list.len()
    );
    Ok(())
}

#[test]
fn each_step_of_a_vector_is_the_references(rt: HostRuntime) -> Result<(), Fail> {
    let alloc = rt.alloc();
    let three = [
        0x12135276ce8f9377ae693e0bb5256903,
        0xb3c339e548cc51d6d4b3d1203e88a4cf,
        0x10b4c08f63cf845fec127c61c6ed7423,
        0xbd87dfeea1cbf3f265be41d1de48a2f9,
        0xce5296c0dad8de51f2592f89fe05fece,
        0x5b50ad3a697ad47001d22288dbb8cf6e,
        0xff68fe674c5b459648ff95e42250885a,
        0xe9273f7c46f03114f4d09c69d03af08e,
    ];
    let one = [
        0x850d2a747c8f6efdc4e77ffcfdf44e83,
        0x12005bd8e932e8779ad7ac6e031a4d88,
        0x10b4c08f63cf845fec127c61c6ed7423,
        0x4239ad83e271277d34b65ae456b79598,
        0x537e058067bf01322e0decc00a9d89bf,
        0xa5f434bff57ef796cf1a3df0573ab8e7,
        0xde8c792562fa9cc07df25b41ba201697,
        0x8e0a97a186ab180d6179e3c48508a1ba,
    ];
    let kind = Kind::Vector { len: 3, bits: 8 };
    check_vector(&rt, alloc, kind, &[1, 2, 3], three)?;
    let kind = Kind::Vector { len: 1, bits: 32 };
    check_vector(&rt, alloc, kind, &[4_294_967_295], one)
}

// 1,024 numbers of one bit, 63 of 32 bits, and 89 of 23 bits, which have 2,047 bits together.
#[test]
fn the_largest_vectors_are_the_references(rt: HostRuntime) -> Result<(), Fail> {
    let alloc = rt.alloc();
    let most_numbers = [
        0xd42dded7123e0a474122a13d8ef5e22f,
        0x48644ee2a3020d79d92b1d627108fd5a,
        0x10b4c08f63cf845fec127c61c6ed7423,
        0xba8542b93df832c6a93fbb3d91b5f8c5,
        0x2cc87fccbe99c49a443278321f10dc5b,
        0x8ee9bc1845234313647b9a7da0752bca,
        0xa834920dfb88442d4399a9d977bd5c07,
        0xf3beec92988cace816836c3c47184991,
    ];
    let widest_numbers = [
        0x77e72f442f00d2d0147ce64bd354b69f,
        0x940e7acc6533dca09dd28ab055226ce6,
        0x10b4c08f63cf845fec127c61c6ed7423,
        0x6cabe824c6200757ccf61d4152d263fe,
        0xf80942d10dba6c5f51315f6149466f43,
        0x85cd45e97ffd794b036dd9418141b1d8,
        0xebe171b77ee35294592b90799b629c15,
        0x2e329510d0393079f4d754305b7da6aa,
    ];
    let most_bits = [
        0xc56e74f03d0cc5c3ecfae01e838a25ad,
        0x0a386d1b85a7dcfeff21852d9a07b61f,
        0x10b4c08f63cf845fec127c61c6ed7423,
        0x970d636d0a1042b52185573b97b6fc02,
        0x42073f51e573c53f125b3a987dceb66b,
        0xec56946b86d14aa3485098a564d73c1d,
        0x8b2531b7d0a8dcf9fdd0728fc11693a4,
        0x413ccd0b124c71605eb52420e1114513,
    ];
    for (len, bits, greatest, tags) in [
        (1024, 1, 1, most_numbers),
        (63, 32, 4_294_967_295, widest_numbers),
        (89, 23, 8_388_607, most_bits),
    ] {
        let list = falling(alloc, len, greatest)?;
        check_vector(&rt, alloc, Kind::Vector { len, bits }, &list, tags)?;
    }
    Ok(())
}

// A vector takes lists of its length of numbers of its bits; the other kinds take lists of one number of the kind.
#[test]
fn each_kind_has_its_lists(rt: HostRuntime) -> Result<(), Fail> {
    let alloc = rt.alloc();
    let count = function(&rt, alloc, Kind::Count)?;
    let sum = function(&rt, alloc, Kind::Sum { bits: 3 })?;
    let bounds = Bounds::new([10].to_vec(alloc)?);
    let histogram = function(&rt, alloc, Kind::Histogram { bounds })?;
    let one = function(&rt, alloc, Kind::Vector { len: 1, bits: 3 })?;
    let two = function(&rt, alloc, Kind::Vector { len: 2, bits: 3 })?;
    for (list, taken) in [
        ([].as_slice(), [false, false, false, false, false]),
        ([1].as_slice(), [true, true, true, true, false]),
        ([2].as_slice(), [false, true, true, true, false]),
        ([7].as_slice(), [false, true, true, true, false]),
        ([8].as_slice(), [false, false, true, false, false]),
        ([1, 0].as_slice(), [false, false, false, false, true]),
        ([7, 7].as_slice(), [false, false, false, false, true]),
        ([8, 0].as_slice(), [false, false, false, false, false]),
        ([0, 8].as_slice(), [false, false, false, false, false]),
        ([1, 0, 0].as_slice(), [false, false, false, false, false]),
    ] {
        let functions = [&count, &sum, &histogram, &one, &two];
        for (v, taken) in functions.iter().zip(taken.iter()) {
            let shares = v.shard_list(alloc, &ONE, list, &ONE);
            let known = !matches!(shares, Err(ShardFault::BadValue));
            assert_eq!(rt; known, *taken, "list of {}", list.len());
        }
    }
    Ok(())
}

// The shares of a number are those of the list of it.
#[test]
fn a_number_is_a_list_of_one(rt: HostRuntime) -> Result<(), Fail> {
    let alloc = rt.alloc();
    let bounds = Bounds::new([10].to_vec(alloc)?);
    for kind in [
        Kind::Count,
        Kind::Sum { bits: 3 },
        Kind::Histogram { bounds },
        Kind::Vector { len: 1, bits: 3 },
    ] {
        let v = function(&rt, alloc, kind)?;
        let number = v.shard(alloc, &ONE, 1, &ONE).expect(&rt, "shares");
        let list = v.shard_list(alloc, &ONE, &[1], &ONE).expect(&rt, "shares");
        assert!(rt; number == list);
    }
    let two = function(&rt, alloc, Kind::Vector { len: 2, bits: 3 })?;
    assert!(rt; matches!(two.shard(alloc, &ONE, 1, &ONE), Err(ShardFault::BadValue)));
    Ok(())
}

// Answers are whole numbers: a count past one byte, a sum past 64 bits, and each bucket's.
#[test]
fn answers_are_not_cut(rt: HostRuntime) -> Result<(), Fail> {
    let alloc = rt.alloc();
    let count = function(&rt, alloc, Kind::Count)?;
    let (some, one) = (255_u64.to_le_bytes(), 1_u64.to_le_bytes());
    let answer = answer_of(&rt, alloc, &count, &some, &one)?;
    assert!(rt; answer == Answer::Count(256));
    let most = u128::from(u64::MAX).to_le_bytes();
    for bits in [1, 63, 64] {
        let sum = function(&rt, alloc, Kind::Sum { bits })?;
        let answer = answer_of(&rt, alloc, &sum, &most, &most)?;
        assert!(rt;
            answer == Answer::Sum(36_893_488_147_419_103_230),
            "{bits} bits"
        );
    }
    Ok(())
}

// Sums of each number of bits take the largest number of them and no larger one.
#[test]
fn each_number_of_bits_has_its_measurements(rt: HostRuntime) -> Result<(), Fail> {
    let alloc = rt.alloc();
    for less in 0..64_u32 {
        let sum = function(
            &rt,
            alloc,
            Kind::Sum {
                bits: (64 - less) as u8,
            },
        )?;
        let most = u64::MAX >> less;
        assert!(rt; sum.shard(alloc, &ONE, most, &ONE).is_ok(), "{most}");
        if let Some(more) = most.checked_add(1) {
            let refused = sum.shard(alloc, &ONE, more, &ONE);
            assert!(rt; matches!(refused, Err(ShardFault::BadValue)), "{more}");
        }
    }
    Ok(())
}

// A number falls into the first bucket whose bound it isn't above, or into the last.
#[test]
fn each_bucket_has_its_numbers(rt: HostRuntime) -> Result<(), Fail> {
    let alloc = rt.alloc();
    for (m, place) in [
        (0, 0),
        (10, 0),
        (11, 1),
        (20, 1),
        (21, 2),
        (30, 2),
        (31, 3),
        (u64::MAX, 3),
    ] {
        let bounds = Bounds::new([10, 20, 30].to_vec(alloc)?);
        let histogram = function(&rt, alloc, Kind::Histogram { bounds })?;
        let answer = answered(&rt, alloc, &histogram, &[m], None)?;
        let mut wanted = Vec::new(alloc);
        for i in 0..4 {
            wanted.push(u128::from(i == place))?;
        }
        assert!(rt; answer == Answer::Histogram(Numbers::new(wanted)), "{m}");
    }
    Ok(())
}

/// Prepares both halves of a report, up to the out shares.
fn prepare<V: Vdaf>(
    alloc: Global,
    v: &V,
    public: &[u8],
    leader: &[u8],
    helper: &[u8],
) -> Result<(), PrepFault> {
    let (theirs, helper_share) = v.init(alloc, Role::Helper, &VERIFY, &ONE, public, helper)?;
    let (ours, leader_share) = v.init(alloc, Role::Leader, &VERIFY, &ONE, public, leader)?;
    let message = v.combine(alloc, &leader_share, &helper_share)?;
    let _ = v.finish(alloc, &ours, &message)?;
    let _ = v.finish(alloc, &theirs, &message)?;
    Ok(())
}

/// The bytes with their first, middle or last one changed, by the turn.
fn changed(alloc: Global, bytes: &[u8], turn: usize) -> Result<Vec<u8>, AllocError> {
    let mut other = bytes.to_vec(alloc)?;
    let place = match turn {
        0 => 0,
        1 => bytes.len() / 2,
        _ => bytes.len().saturating_sub(1),
    };
    if let Some(byte) = other.get_mut(place) {
        *byte ^= 1;
    }
    Ok(other)
}

/// A report with a changed byte in one of its parts, or with a byte more, is refused.
fn check_changes<V: Vdaf>(
    rt: &impl Abort,
    alloc: Global,
    v: &V,
    shares: &Shares,
) -> Result<(), Fail> {
    let public = shares.public.as_slice();
    let (leader, helper) = (shares.leader.as_slice(), shares.helper.as_slice());
    assert!(rt; prepare(alloc, v, public, leader, helper).is_ok());
    for turn in 0..3 {
        let other = changed(alloc, public, turn)?;
        let refused = prepare(alloc, v, &other, leader, helper);
        assert!(rt;
            public.is_empty() || matches!(refused, Err(PrepFault::Invalid)),
            "public, turn {turn}"
        );
        let other = changed(alloc, leader, turn)?;
        let refused = prepare(alloc, v, public, &other, helper);
        assert!(rt;
            matches!(refused, Err(PrepFault::Invalid)),
            "leader, turn {turn}"
        );
        let other = changed(alloc, helper, turn)?;
        let refused = prepare(alloc, v, public, leader, &other);
        assert!(rt;
            matches!(refused, Err(PrepFault::Invalid)),
            "helper, turn {turn}"
        );
    }
    let mut longer = public.to_vec(alloc)?;
    longer.push(0)?;
    let refused = prepare(alloc, v, &longer, leader, helper);
    assert!(rt; matches!(refused, Err(PrepFault::Invalid)));
    Ok(())
}

#[test]
fn a_changed_byte_is_refused(rt: HostRuntime) -> Result<(), Fail> {
    let alloc = rt.alloc();
    let bounds = Bounds::new([10, 20, 30].to_vec(alloc)?);
    for (kind, m) in [
        (Kind::Count, [1].as_slice()),
        (Kind::Sum { bits: 8 }, [200].as_slice()),
        (Kind::Histogram { bounds }, [20].as_slice()),
        (Kind::Vector { len: 2, bits: 3 }, [6, 1].as_slice()),
    ] {
        let v = function(&rt, alloc, kind)?;
        let shares = v.shard_list(alloc, &ONE, m, &ONE).expect(&rt, "shares");
        check_changes(&rt, alloc, &v, &shares)?;
    }
    Ok(())
}

#[test]
fn the_toy_function_is_called_by_the_same_code(rt: HostRuntime) -> Result<(), Fail> {
    let alloc = rt.alloc();
    let toy = Toy::of(alloc, &Kind::Count)?;
    let empty = 0x4387c14b46ef7e176dceefa862d72ff9;
    let (five, zero) = (
        0x2a1e0e3eae47bc0f8e4ff67824994156,
        0x49920a3d19cb8c62032b34bce702735f,
    );
    let tags = [empty, five, zero, empty, empty, empty, five, zero];
    let answer = answered(&rt, alloc, &toy, &[5], Some(tags))?;
    assert!(rt; answer == Answer::Sum(5));
    Ok(())
}

fn crosses_threads<T: Send + Sync>() {}

#[test]
fn functions_and_what_they_make_cross_threads(_rt: HostRuntime) {
    crosses_threads::<Prio3>();
    crosses_threads::<State>();
    crosses_threads::<Toy>();
    crosses_threads::<ToyPrep>();
    crosses_threads::<Kind>();
    crosses_threads::<Shares>();
    crosses_threads::<Step>();
    crosses_threads::<Collected>();
}
