use super::steps::{
    Steps, check_changed_bytes, check_forged, check_inits, check_joining, check_other_part,
    check_steps,
};
use field64::Field64;
use field128::Field128;
use flp_circuits::{Count, Histogram, Sum};
use std::test::Fail;

const P64: &str = "01000000ffffffff";

const P128: &str = "0100000000000000e4ffffffffffffff";

/// A report of the count 1.
fn count_of_1() -> Steps<'static> {
    Steps {
        public: "",
        leader: "1915ad1edc17ad4753ebb7e0aac76c226aae5297ffffe8e45fe55cd36c04e0e6c452a13dd42843b9fff5b038fa80d0d2",
        helper: "2d0598bb967a5e0d8296a137b28a67254ffe6166ec3bcb37c00e23004c1d90ce",
        leader_share: "8173bfafb644c0b87fe0e9b43402a4b4fc1eb5e748283bc6babea9a75be5fe9c",
        helper_share: "808c405048bb3f4707082ca41ccb9555d5a9d5190641209d393b75f4626eab80",
        message: "",
        leader_out: "1915ad1edc17ad47",
        helper_out: "e9ea52e122e852b8",
    }
}

/// A report of the number 2 of two bits.
fn sum_of_2() -> Steps<'static> {
    Steps {
        public: "095a0eba2706d48df197024f00b89aa02695b087db598c71e3982bc81bb164e5",
        leader: "9ac7af1fdf17c56f6b0c6aa5e1bb31a3969b0f55e394e096be3495487a07010fa3e5787d8d5e7eb4451cd363e069995abde979316f79f0616031512bf8263a18348ab6fef67fabdfc607b52bb078af17e804f102fb4eafb72d8463b6816ece78bf19fe65bfc17964c18171d32bdb274854362d8848e4cc477886a11f12610ea704d3f067288a5f34fce08d26d622bc74c9163010095bd50b550352b376de40fac8cd9198ada6e79b52944882e640f0a5",
        helper: "fa517c21a95763dfcdd3634df3cf9434d714c9098b701b4a7cc7ed4547ef0c120d292b1ff63645d51039c87abc9c087a",
        leader_share: "39554f29572f57b3a97d950e5988099e93bc00e87befe595433798753c1880ab3752d6334bd7e64fcda966ca3d8d2b37095a0eba2706d48df197024f00b89aa0",
        helper_share: "c8aab0d6a8d0a84c3a826af1a677f661df8dc90a6403a745d5befcb8b503db53a630590fc8839fc79ddeca9eda7513cb2695b087db598c71e3982bc81bb164e5",
        message: "78ed9a6379f1f3361a0b412f507561fc",
        leader_out: "c6fecec9a541869de8759436d6ca33c1",
        helper_out: "3d0131365abe7962fb896bc92935cc3e",
    }
}

/// A report of the number 11 over the bound 10.
fn bucket_of_11() -> Steps<'static> {
    Steps {
        public: "e1052d26eed53b67f4e3a2ba0c69658321c53191fc593842524214e6152120b1",
        leader: "50e10ad50c49152609da3d6b0ee405eab8cd7477a84d2a4adef86abfa9db9e205c1d6de87f0777cee2e08a1b9938c0e270a8193abe3b2f52b944a7f5cace3825c7f1f3bdc954eeec4a31d233b91d26eedcce001f95c947973ebcb7e8053853f1f7d18410237d649cf37eeddb06505ed399ecabee22d82824df96ac83761140231060fd67da3fc585d79d764a18fe4c9603c7832c7881d0c5e18d313014e50f10336ecc908f5ee3431db6cae993b195ca",
        helper: "ac411a61b2bca790a69d54b64275eea23cb2021b5199b40be57768125cab194639404cc83bd18479d75ee8af998e8344",
        leader_share: "36e5dde230b265082d448153d391277d0f5cdc6cc5bd3e9ccb907058743df8dcc7b773773af82541451ab8fd3407a5a5e1052d26eed53b67f4e3a2ba0c696583",
        helper_share: "cb1a221dcf4d9af7b6bb7eac2c6ed8829d84c103fa7fe8325f2a1298bd9a5b83fca3086ccefdc95596d7b20666b6ce3821c53191fc593842524214e6152120b1",
        message: "1eafe84e8fa2ceed4e3bee26ecb4d6af",
        leader_out: "50e10ad50c49152609da3d6b0ee405eab8cd7477a84d2a4adef86abfa9db9e20",
        helper_out: "b11ef52af3b6ead9da25c294f11bfa154a328b8857b2d5b505079540562461df",
    }
}

#[test]
fn prepares_a_count(rt: HostRuntime) -> Result<(), Fail> {
    let alloc = rt.alloc();
    let count = Count::<Field64>::new();
    let steps = count_of_1();
    check_steps(&rt, alloc, &count, 0, &steps)?;
    check_changed_bytes(&rt, alloc, &count, 0, &steps)?;
    check_inits(&rt, alloc, &count, 0, &steps, P64)?;
    check_joining(&rt, alloc, &count, 0, &steps, P64)
}

#[test]
fn prepares_a_sum(rt: HostRuntime) -> Result<(), Fail> {
    let alloc = rt.alloc();
    let sum = Sum::<Field128>::new(2);
    let steps = sum_of_2();
    check_steps(&rt, alloc, &sum, 1, &steps)?;
    check_changed_bytes(&rt, alloc, &sum, 1, &steps)?;
    check_inits(&rt, alloc, &sum, 1, &steps, P128)?;
    check_joining(&rt, alloc, &sum, 1, &steps, P128)?;
    check_other_part(&rt, alloc, &sum, 1, &steps)?;
    check_forged(&rt, alloc, &sum, 1, &steps)
}

#[test]
fn prepares_a_histogram(rt: HostRuntime) -> Result<(), Fail> {
    let alloc = rt.alloc();
    let mut bounds = Vec::new(alloc);
    bounds.push(10)?;
    let histogram = Histogram::<Field128>::new(bounds);
    let steps = bucket_of_11();
    check_steps(&rt, alloc, &histogram, 2, &steps)?;
    check_changed_bytes(&rt, alloc, &histogram, 2, &steps)?;
    check_inits(&rt, alloc, &histogram, 2, &steps, P128)?;
    check_joining(&rt, alloc, &histogram, 2, &steps, P128)?;
    check_other_part(&rt, alloc, &histogram, 2, &steps)?;
    check_forged(&rt, alloc, &histogram, 2, &steps)
}
