use dap_bytes::{Bytes, Id, Name};
use dap_messages::{Code, Half, Report, Step, Tagged, read_report};
use dap_seal::{
    CmacSeal, Head, OpenFault, Seal, helper_outcome, leader_item, leader_share, make_list_report,
    make_report, prep_step,
};
use dap_tasks::{Task, trial};
use prio3_kinds::Prio3;
use std::alloc::{AllocError, Global};
use std::process::Abort;
use std::test::Fail;
use vdaf_api::{Bounds, Kind, Role, Vdaf};

/// The identifier of every report here, and the seed.
const ONE: Id = [0, 0, 0, 0, 0, 0, 0, 0, 0, 0, 0, 0, 0, 0, 0, 1];

/// The report of 1 for the count task `v`, at time 10, in hex.
const COUNT: &str = "\
    017600000000000000000000000000000001000000000000000a000000000000000000406965cb1df9e395f7461a2d8c\
    6a6e314d6a17aeca00bc17d1e7656c1b46c542b31880d1ce3f1a5581beef1b99dded88219ffadf6256f08c26907793a7\
    c48bcae900000030f0b0e909252a4fa126e5107678361287666b1b70fb7847b4a109b7f91ec59947210a5dc932244a8a\
    f300d515ead8acd4";

/// The report of 200 for the task `s` of sums of 8 bits.
const SUM: &str = "\
    017300000000000000000000000000000001000000000000000a000000000020cf74aa7cc03dd5ee2bed3d83bef2aed9\
    fa200b98389a69099ece0d89ba51709d000002a0eec43fa408869734c7ae001ac1af91ec716b0fa7e28ebc6e992ca39a\
    5e27c7ac6ddceccce4a3c36428e3d9de0e546b95c6a17968fbc7734db8534ad2b37150e4ceb9e4f90fdc00c38b1117db\
    3210f29e6dddf63e832ee2bbe74eade0313fe59633797cf779db49c5606162356db837b29f70e7fce5f7da92fae7e7fa\
    29bf7e48a2d3a33806cc4dad07a42f0ffe6b89352b9608eeafa35a3e17b35a85657e34f8b238e560c9d854a17aa5d0cf\
    1e7126019a78ff569227e1f8e2cbad9ce43b16d8293819a26736188500edbc4c947ac0397584e248feea69cfd8549776\
    910ac165745b56b9d6638b5fe5b87b52a44b4fed1e3da1c1053228702fdba65804bb99f601613207d1d1b6459a97fb15\
    30e3348f4f04c2eeb7145fea599acad8d1c15aae09d6c64dbc46673104acd711ce67e5b97dfc00ecc13a6aea714b2e9f\
    9fc8b2a0e09d046dc6f76b3937a66017a4b21085c7cae10ede1c685ebd0252199d38db16776ff6db0ea49135436b96f7\
    3d82fd7623fae36f54a0bec34c51af695817e6e72990e63d3a5983c28df8d45191d96b317f1e3ede0cc8236d50d09591\
    5b119cd25ffe41b7c60febc6eda36c182317e7f512a7511141381e54a6da09172fd17d0d82ef52935f987a6828b6d9c0\
    ef4c79bc986d380887d2bca35f8658097ff418f4e7633a16483d4094e7d01d530ee0ee6e9dcd5411d0a63947dfb7c2e8\
    7695a9af73c6a84f89912c768ca298f69d6d58f004c5d94e9aaed27b4d82fe6b958422f931cc489cad958a7e1153922d\
    8c1c812e8d09f9d2e58f536e2cf566ab9f92bb6f23daeaa09788511b5cec15c22202ce394c9b3ccf7d6ffaea75b6a102\
    11e9f6a13f3b635361421b49b4daab047836af7fec7c9653e984a614747bc7536b0ac94598ab8cb168c7eadc5666a781\
    cd2b2dec1f24f67b6a0473fad327ab3649af900d000000406c3fecbfd3d86b7f286536c7f8b1e0ac12078cce9a39a3f2\
    5afe411380933bc05003362d2ab40da0a260130581aec5e25700de7888342004f8214aa6e9d4e14e";

/// The report of 25 for the task `h` of the histogram between 10, 20 and 30.
const HISTOGRAM: &str = "\
    016800000000000000000000000000000001000000000000000a000000000020e2961a37db6a18d0c8946ae2c6021e37\
    e94b979ad786f45fb8e145ac5110d1ac00000160627ca58aef7bf1a30969b6a791a42a2b71dbb52b6e16a4d8fcb47348\
    841237a8233721485080096beca5db66ba3cb59b8913556bbf412167b95272a764a93e0d9bd7143727f5298f2ed472e2\
    c62170c77d2728695ea39bbb9a7c0b30d635f861208eae9f491047b29f3459abfc41845cf9f0a73874829ab6e2150299\
    b2135b9ad9d85f125417f11a9e76ff64f3cb27c8f5ad7c677fe953a95680c2d06bd419df3b8c8b9572c499d096ec6280\
    3727341f2c29e2d7ed0682c53ddaabd5560030f7467aa120b2fbedaa1f6a7545377f46f7d731411beaa29c9b8503b461\
    752b62a58cf9283597b95a75fabdf56d527a3668b3298e19552e696f7db52a1a5697535d70d0626361c3981f70ee950c\
    f3b68e82a23a2256663d72bbff6f0e4f32980e0793cc6b1ad95e6c837b0bc0e537b380f4a5d0b34433f2f3c4f26c7c0c\
    31417c62d4395e10b0020f8499b605e345e2dd9bb1afe8339aa3ba517d250c9c2f93b9f7000000406e9467b4083deea4\
    fe41944ebdcd3a3e87aeea6098e59aa9fe926bae911200015cf5d70bdc780b77fd992ab1911b6bf3adbf3529ae59feb2\
    7030440451af9e38";

/// The report of the list 6, 1 for the task `w` of vectors of 2 numbers of 3 bits.
const VECTOR: &str = "\
    017700000000000000000000000000000001000000000000000a000000000020f4c5574aaee6cb5cc584ebda4211f27a\
    29e1e77f4632008a1c200a1553f8715500000180ad73b37c1592634b742201a1ee565d6b99bb8257b24628c587525e01\
    6f65559f15652db56b6f2756f1e1e69f7d4890e68929a57159f4417ea3a6d4c891ca104fb3e36742604f274a5b5c0b4f\
    302620312ab4fe62f57d83da08b1af5ae98e32cbdb50edf214237f64478c6b66179e9941b33e045d36369c45076daaae\
    5c1d5f243b923054900cf0fd51aa7b5b703f2b666c8704723b4b59062d45c11c69e5f306d604a0c503ec4fda5e506d3d\
    b714970e9f427645d72b2d5951c4d12fb3d64fdcd954f26d62b756cba6383a4284c10c58fb746422eb864608db9a0a3c\
    6dc64876e020a141b15fb165d9d8cbf914e1e16aff8c325967e616bc16d525c922094f409b7c50ee6baceb170c9156e7\
    54db93ad41dfe5770ace9ae5934b26610a9123d57f2bae5ddb40eb2b6e848fca3e21fe5682a2d7f33b87dcb0f07c54e6\
    e8f098097be59808db5c30ce5ed7c6d192b25f55fc71bf80919451026935ea47dafa28321ab670eee1f94603d0b53429\
    0f4108e9a8817dc633495c651df97abf20a158dd00000040644a957b0b584faac96706cc344675fe1ee3dd1c5b0e5023\
    dd158752a7dff3706d804e3d1c92f7c00857c40b453bca36e2451a6fc3ff6815b6586c39b9d59abe";

/// The bytes of a report of a task, made by an honest client of a list of numbers; where it has one alone, those that
/// are made of that number must be the same.
fn made(rt: &impl Abort, alloc: Global, task: &Task, m: &[u64]) -> Result<Vec<u8>, Fail> {
    let vdaf = Prio3::of(alloc, &task.kind)?;
    let bytes = make_list_report(alloc, task, &vdaf, &ONE, 10, m, &ONE).map_err(|_| "a report")?;
    if let [number] = m {
        let own = make_report(alloc, task, &vdaf, &ONE, 10, *number, &ONE).map_err(|_| "a report")?;
        assert_eq!(rt; own.as_slice(), bytes.as_slice());
    }
    Ok(bytes)
}

/// Whether a half opens as it is, and with none of its first eight bytes' lowest bits changed.
fn opens_whole_alone(
    alloc: Global,
    seal: &CmacSeal,
    head: &Head,
    sealed: &[u8],
) -> Result<bool, Fail> {
    if seal.open(alloc, head, sealed).is_err() {
        return Ok(false);
    }
    for place in 0..8 {
        let mut changed = sealed.to_vec(alloc)?;
        if place < changed.len() {
            changed[place] ^= 1;
        }
        match seal.open(alloc, head, &changed) {
            Err(OpenFault::Tag) => {}
            _ => return Ok(false),
        }
    }
    Ok(true)
}

fn is_told(rt: &impl Abort, alloc: Global, task: &Task, m: &[u64], want: &str) -> Result<(), Fail> {
    let bytes = made(rt, alloc, task, m)?;
    let text = hex::encode(alloc, &bytes)?;
    assert_eq!(rt; text.as_str(), want);
    let report = read_report(alloc, &bytes).map_err(|_| "a report that reads")?;
    let head = Head::of_report(&report)?;
    let leader = CmacSeal::new(&task.leader, Role::Leader);
    let helper = CmacSeal::new(&task.helper, Role::Helper);
    assert!(rt; opens_whole_alone(alloc, &leader, &head, report.leader.as_slice())?);
    assert!(rt; opens_whole_alone(alloc, &helper, &head, report.helper.as_slice())?);
    assert!(rt; leader.open(alloc, &head, report.helper.as_slice()).is_err());
    assert!(rt; helper.open(alloc, &head, report.leader.as_slice()).is_err());
    Ok(())
}

fn named(rt: &impl Abort, name: &[u8]) -> Name {
    Name::new(name).expect(rt, "a name")
}

#[test]
fn counts_are_reported_byte_by_byte(rt: HostRuntime) -> Result<(), Fail> {
    let task = trial(named(&rt, b"v"), Kind::Count, 3, 3600, None);
    is_told(&rt, rt.alloc(), &task, &[1], COUNT)
}

#[test]
fn sums_are_reported_byte_by_byte(rt: HostRuntime) -> Result<(), Fail> {
    let task = trial(named(&rt, b"s"), Kind::Sum { bits: 8 }, 3, 3600, None);
    is_told(&rt, rt.alloc(), &task, &[200], SUM)
}

#[test]
fn histograms_are_reported_byte_by_byte(rt: HostRuntime) -> Result<(), Fail> {
    let alloc = rt.alloc();
    let bounds = Bounds::new([10, 20, 30].to_vec(alloc)?);
    let kind = Kind::Histogram { bounds };
    assert!(rt; kind.is_valid());
    let task = trial(named(&rt, b"h"), kind, 1, 3600, None);
    is_told(&rt, alloc, &task, &[25], HISTOGRAM)
}

#[test]
fn vectors_are_reported_byte_by_byte(rt: HostRuntime) -> Result<(), Fail> {
    let kind = Kind::Vector { len: 2, bits: 3 };
    let task = trial(named(&rt, b"w"), kind, 2, 3600, None);
    is_told(&rt, rt.alloc(), &task, &[6, 1], VECTOR)
}

/// What both aggregators say of a report in turn: the helper's first step, the leader's item and its share, and the
/// helper's outcome, each in hex or with its code.
#[derive(Clone, Copy)]
struct Turns {
    step: Result<&'static str, Code>,
    item: Result<&'static str, Code>,
    share: &'static str,
    outcome: Result<&'static str, Code>,
}

/// Whether bytes are told in hex, or a code.
fn is_said(
    alloc: Global,
    said: &Result<Bytes, Code>,
    want: &Result<&str, Code>,
) -> Result<bool, AllocError> {
    match (said, want) {
        (Ok(bytes), Ok(want)) => Ok(hex::encode(alloc, bytes.as_slice())?.as_str() == *want),
        (Err(code), Err(want)) => Ok(code == want),
        _ => Ok(false),
    }
}

/// A step's bytes, or its code.
fn said(step: &Step) -> Result<Result<Bytes, Code>, AllocError> {
    match step {
        Step::Continued(bytes) => Ok(Ok(bytes.clone()?)),
        Step::Failed(code) => Ok(Err(*code)),
    }
}

/// What the helper gets of a report.
fn half_of(report: &Report) -> Result<Tagged<Half>, AllocError> {
    Ok(Tagged {
        id: report.id,
        body: Half {
            time: report.time,
            public: report.public.clone()?,
            helper: report.helper.clone()?,
        },
    })
}

fn say(
    rt: &impl Abort,
    alloc: Global,
    task: &Task,
    report: &Report,
    want: &Turns,
) -> Result<(), Fail> {
    let vdaf = Prio3::of(alloc, &task.kind)?;
    let half = half_of(report)?;
    let step = prep_step(alloc, &vdaf, task, &report.name, &half)?;
    assert!(rt; is_said(alloc, &said(&step)?, &want.step)?);
    let item = leader_item(alloc, &vdaf, task, report, &step)?;
    assert!(rt; is_said(alloc, &said(&item)?, &want.item)?);
    let share = leader_share(alloc, &vdaf, task, report, &item)?;
    assert_eq!(rt; hex::encode(alloc, share.as_slice())?.as_str(), want.share);
    let outcome = helper_outcome(alloc, &vdaf, task, &report.name, &half, &item)?;
    assert!(rt; is_said(alloc, &outcome, &want.outcome)?);
    Ok(())
}

/// The report that the bytes in hex spell.
fn report_in(alloc: Global, text: &str) -> Result<Report, Fail> {
    let bytes = hex::decode(alloc, text).map_err(|_| "hex digits")?;
    Ok(read_report(alloc, &bytes).map_err(|_| "a report that reads")?)
}

#[test]
fn counts_are_said_in_turn(rt: HostRuntime) -> Result<(), Fail> {
    let alloc = rt.alloc();
    let task = trial(named(&rt, b"v"), Kind::Count, 3, 3600, None);
    let step = "726dc438e7ef80cf42a490e74495a9cc098459593cce5b75ea47855ac41a790b";
    let want = Turns {
        step: Ok(step),
        item: Ok(""),
        share: "5a1993337950a739",
        outcome: Ok("a8e66ccc85af58c6"),
    };
    say(&rt, alloc, &task, &report_in(alloc, COUNT)?, &want)
}

#[test]
fn sums_are_said_in_turn(rt: HostRuntime) -> Result<(), Fail> {
    let alloc = rt.alloc();
    let task = trial(named(&rt, b"s"), Kind::Sum { bits: 8 }, 3, 3600, None);
    let want = Turns {
        step: Ok(
            "36450a5dc84736623bc3c52f2da0f9494a9a3d79191003a241714151626a98c6\
            601be9bff4ef5a7bc9402a2fd99f911cfa200b98389a69099ece0d89ba51709d",
        ),
        item: Ok("d45843da2022d11616f2dcf962f355a1"),
        share: "3ca8a10d942e023d2cda6b53922744d4",
        outcome: Ok("8d585ef26bd1fdc2b72594ac6dd8bb2b"),
    };
    say(&rt, alloc, &task, &report_in(alloc, SUM)?, &want)
}

#[test]
fn histograms_are_said_in_turn(rt: HostRuntime) -> Result<(), Fail> {
    let alloc = rt.alloc();
    let bounds = Bounds::new([10, 20, 30].to_vec(alloc)?);
    let kind = Kind::Histogram { bounds };
    assert!(rt; kind.is_valid());
    let task = trial(named(&rt, b"h"), kind, 1, 3600, None);
    let want = Turns {
        step: Ok(
            "233e1df365b4912d99d320b7ece36bddce9a9e02bad575828d7698345c4cee43\
            b5979c60821b42173f761b094aeb5b32e94b979ad786f45fb8e145ac5110d1ac",
        ),
        item: Ok("e95cc3aa914a98c201ed271fd3d104f0"),
        share: "776b848b56e540f044608bce97724e9ff7854e27c8d17730702bd1a54269fc8c\
            b1abf066c89e297ec7b809d99ae449f06975761ea192154dd9ccde917020d157",
        outcome: Ok(
            "8a947b74a91abf0f9f9f7431688db1600a7ab1d8372e88cf73d42e5abd960373\
            51540f993761d6811c47f626651bb60f988a89e15e6deab20a33216e8fdf2ea8",
        ),
    };
    say(&rt, alloc, &task, &report_in(alloc, HISTOGRAM)?, &want)
}

#[test]
fn vectors_are_said_in_turn(rt: HostRuntime) -> Result<(), Fail> {
    let alloc = rt.alloc();
    let kind = Kind::Vector { len: 2, bits: 3 };
    let task = trial(named(&rt, b"w"), kind, 2, 3600, None);
    let want = Turns {
        step: Ok(
            "13af537909d12c46459b54b170bb5bcd188b981b4a2380a2279e4f2ae162c02a\
            3467df2acdbc07a9fa1c79c6d5892a4029e1e77f4632008a1c200a1553f87155",
        ),
        item: Ok("60fc214cf245922001fe4deed779884f"),
        share: "590e751d86520978db8950c5d8e0ccd4d75a384a94f7778ef1f7840fbaea2f30",
        outcome: Ok("aef18ae279adf6870876af3a271f332b2ba5c7b56b088871f2077bf04515d0cf"),
    };
    say(&rt, alloc, &task, &report_in(alloc, VECTOR)?, &want)
}

/// The leader's and the helper's sealed share of the report of 1 above.
const LEADER: &str = "\
    6965cb1df9e395f7461a2d8c6a6e314d6a17aeca00bc17d1e7656c1b46c542b31880d1ce3f1a5581beef1b99dded8821\
    9ffadf6256f08c26907793a7c48bcae9";

const HELPER: &str = "\
    f0b0e909252a4fa126e5107678361287666b1b70fb7847b4a109b7f91ec59947210a5dc932244a8af300d515ead8acd4";

/// Says what both aggregators say of a report with these sealed shares, which neither counts.
fn fail(
    rt: &impl Abort,
    alloc: Global,
    leader: &str,
    helper: &str,
    step: Result<&'static str, Code>,
    code: Code,
) -> Result<(), Fail> {
    let task = trial(named(rt, b"v"), Kind::Count, 3, 3600, None);
    let leader = hex::decode(alloc, leader).map_err(|_| "hex digits")?;
    let helper = hex::decode(alloc, helper).map_err(|_| "hex digits")?;
    let report = Report {
        name: task.name,
        id: ONE,
        time: 10,
        public: Bytes::new(Vec::new(alloc)),
        leader: Bytes::new(leader),
        helper: Bytes::new(helper),
    };
    let want = Turns {
        step,
        item: Err(code),
        share: "0000000000000000",
        outcome: Err(code),
    };
    say(rt, alloc, &task, &report, &want)
}

/// The helper's prep share of that report.
const READY: Result<&str, Code> = Ok(
    "726dc438e7ef80cf42a490e74495a9cc098459593cce5b75ea47855ac41a790b",
);

#[test]
fn a_changed_helpers_half_fails_first(rt: HostRuntime) -> Result<(), Fail> {
    // 15 bytes; a changed tag; and one byte fewer, beside a leader's share that opens and one that doesn't.
    for (leader, helper, code) in [
        (
            LEADER,
            "f0b0e909252a4fa126e51076783612",
            Code::HpkeDecryptError,
        ),
        (
            LEADER,
            "f0b0e909252a4fa126e5107678361287666b1b70fb7847b4a109b7f91ec59947210a5dc932244a8af300d515ead8acd5",
            Code::HpkeDecryptError,
        ),
        (
            LEADER,
            "f0b0e909252a4fa126e5107678361287666b1b70fb7847b4a109b7f91ec599b47a4bc1eeebb4381285dd095c4fac88",
            Code::VdafPrepError,
        ),
        (
            "6965cb",
            "f0b0e909252a4fa126e5107678361287666b1b70fb7847b4a109b7f91ec599b47a4bc1eeebb4381285dd095c4fac88",
            Code::VdafPrepError,
        ),
    ] {
        fail(&rt, rt.alloc(), leader, helper, Err(code), code)?;
    }
    Ok(())
}

#[test]
fn a_changed_leaders_half_fails(rt: HostRuntime) -> Result<(), Fail> {
    // A changed bit; one byte fewer; and, each under its tag, another input and a number that is no element.
    for (leader, code) in [
        (
            "6865cb1df9e395f7461a2d8c6a6e314d6a17aeca00bc17d1e7656c1b46c542b31880d1ce3f1a5581beef1b99dded8821\
             9ffadf6256f08c26907793a7c48bcae9",
            Code::HpkeDecryptError,
        ),
        (
            "6965cb1df9e395f7461a2d8c6a6e314d6a17aeca00bc17d1e7656c1b46c542b31880d1ce3f1a5581beef1b99dded88\
             e02be4ab58c187c72b6202ceac592305",
            Code::VdafPrepError,
        ),
        (
            "6865cb1df9e395f7461a2d8c6a6e314d6a17aeca00bc17d1e7656c1b46c542b31880d1ce3f1a5581beef1b99dded8821\
             400b5b4405e458dce2fd367dec3a5d57",
            Code::VdafPrepError,
        ),
        (
            "cc83a7d17f4ccd31461a2d8c6a6e314d6a17aeca00bc17d1e7656c1b46c542b31880d1ce3f1a5581beef1b99dded8821\
             c0f074bb450bfb09f3a77008a3cb7bd6",
            Code::VdafPrepError,
        ),
    ] {
        fail(&rt, rt.alloc(), leader, HELPER, READY, code)?;
    }
    Ok(())
}
