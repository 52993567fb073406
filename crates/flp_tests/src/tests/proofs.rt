ghost use Rattle.std.specs.Prelude.{◌≡◌, ◌≤◌, length};
ghost use Rattle.flp_proof.specs.Proof.{proof_len};

use super::elements::{
    between_10_and_20, check_elements, check_flag, check_number, drawn, sized, sized_elements,
};
use circuit_vector::VectorCircuit;
use field_laws::{Field, add_all};
use field64::Field64;
use field128::Field128;
use flp_circuits::{Circuit, Count, Sum};
use flp_proof::{
    QueryFault, accepted_inputs_are_valid, decide, invalid_inputs_are_refused, proof_len,
    proofs_meet_their_equations, prove, query, valid_proofs_are_accepted,
};
use std::alloc::{AllocError, Global};
use std::process::Abort;
use std::test::Fail;

/// An input with its randomness, and the proof, the verifier and the decision that it has.
#[derive(Clone, Copy)]
struct Case<'a> {
    input: &'a [u128],
    seeds: &'a [u128],
    joint: &'a [u128],
    point: u128,
    proof: &'a [u128],
    verifier: &'a [u128],
    accepted: bool,
}

/// The points at which there is no verifier share, which are the roots of one of order P, and one that is a root of the
/// next order alone.
#[derive(Clone, Copy)]
struct Roots<'a> {
    refused: &'a [u128],
    other: u128,
}

const TWO_64: Roots = Roots {
    refused: &[1, 18446744069414584320],
    other: 281474976710656,
};

const TWO_128: Roots = Roots {
    refused: &[1, 340282366920938462946865773367900766208],
    other: 296799510782421792440573396836765619039,
};

const FOUR_64: Roots = Roots {
    refused: &[
        1,
        281474976710656,
        18446744069414584320,
        18446462594437873665,
    ],
    other: 18446744069397807105,
};

const FOUR_128: Roots = Roots {
    refused: &[
        1,
        296799510782421792440573396836765619039,
        340282366920938462946865773367900766208,
        43482856138516670506292376531135147170,
    ],
    other: 139471514523600095951509360044160107293,
};

/// The entries of one vector less those of the other.
fn difference<F: Field>(alloc: Global, from: &[F], taken: &[F]) -> Result<Vec<F>, AllocError> {
    let mut made = Vec::new(alloc);
    for (a, b) in from.iter().zip(taken) {
        made.push(a.sub(*b))?;
    }
    Ok(made)
}

/// The sum of the verifier shares of two shares of an input and its proof, split at drawn places.
fn check_shares<C: Circuit>(
    rt: &impl Abort,
    alloc: Global,
    c: &C,
    x: &[C::F],
    proof: &[C::F],
    joint: &[C::F],
    t: C::F,
    verifier: &[u128],
) -> Result<(), Fail>
    requires joint { length joint.now ≡ (C.shape c.now).joint_len }
{
    let right_x = sized(rt, drawn(alloc, 2026, x.len())?, c.input_len());
    let right_proof = sized(rt, drawn(alloc, 2027, proof.len())?, proof_len(c));
    let left_x = sized(rt, difference(alloc, x, &right_x)?, c.input_len());
    let left_proof = sized(rt, difference(alloc, proof, &right_proof)?, proof_len(c));
    let half = C::F::half();
    let mut sum = query(alloc, c, half, &left_x, &left_proof, joint, t)?;
    let right = query(alloc, c, half, &right_x, &right_proof, joint, t)?;
    add_all(&mut sum, &right);
    check_elements(rt, &sum, verifier);
    Ok(())
}

/// Whether the point is refused as a root of one.
fn is_root<C: Circuit>(
    alloc: Global,
    c: &C,
    x: &[C::F],
    proof: &[C::F],
    joint: &[C::F],
    point: u128,
) -> bool
    requires input { length x.now ≡ (C.shape c.now).input_len }
    requires proof { length proof.now ≡ proof_len (C.shape c.now) }
    requires joint { length joint.now ≡ (C.shape c.now).joint_len }
{
    let t = C::F::of(point);
    matches!(
        query(alloc, c, C::F::one(), x, proof, joint, t),
        Err(QueryFault::Root)
    )
}

fn check_roots<C: Circuit>(
    rt: &impl Abort,
    alloc: Global,
    c: &C,
    x: &[C::F],
    proof: &[C::F],
    joint: &[C::F],
    roots: Roots,
)
    requires input { length x.now ≡ (C.shape c.now).input_len }
    requires proof { length proof.now ≡ proof_len (C.shape c.now) }
    requires joint { length joint.now ≡ (C.shape c.now).joint_len }
{
    for point in roots.refused {
        check_flag(rt, is_root(alloc, c, x, proof, joint, *point), true);
    }
    check_flag(rt, is_root(alloc, c, x, proof, joint, roots.other), false);
}

/// The vector with one more in one entry.
fn changed<F: Field>(alloc: Global, xs: &[F], at: usize) -> Result<Vec<F>, AllocError> {
    let mut made = Vec::new(alloc);
    for (i, x) in xs.iter().enumerate() {
        made.push(if i == at { x.add(F::one()) } else { *x })?;
    }
    Ok(made)
}

/// No verifier that differs in one element from an accepted one is accepted, and no proof that does so.
fn check_changes<C: Circuit>(
    rt: &impl Abort,
    alloc: Global,
    c: &C,
    x: &[C::F],
    proof: &[C::F],
    joint: &[C::F],
    t: C::F,
) -> Result<(), Fail>
    requires input { length x.now ≡ (C.shape c.now).input_len }
    requires proof { length proof.now ≡ proof_len (C.shape c.now) }
    requires joint { length joint.now ≡ (C.shape c.now).joint_len }
{
    let verifier = query(alloc, c, C::F::one(), x, proof, joint, t)?;
    for i in 0..verifier.len() {
        let other = sized(rt, changed(alloc, &verifier, i)?, c.arity() + 2);
        check_flag(rt, decide(c, &other), false);
    }
    for i in 0..proof.len() {
        let other = sized(rt, changed(alloc, proof, i)?, proof_len(c));
        let verifier = query(alloc, c, C::F::one(), x, &other, joint, t)?;
        check_flag(rt, decide(c, &verifier), false);
    }
    Ok(())
}

fn check_proof<C: Circuit>(
    rt: &impl Abort,
    alloc: Global,
    c: &C,
    case: Case,
    roots: Roots,
) -> Result<(), Fail> {
    let x = sized_elements(rt, alloc, case.input, c.input_len())?;
    let seeds = sized_elements(rt, alloc, case.seeds, c.arity())?;
    let joint = sized_elements(rt, alloc, case.joint, c.joint_len())?;
    let t = C::F::of(case.point);
    let proof = prove(alloc, c, &x, &seeds, &joint)?;
    check_elements(rt, &proof, case.proof);
    let verifier = query(alloc, c, C::F::one(), &x, &proof, &joint, t)?;
    check_elements(rt, &verifier, case.verifier);
    check_flag(rt, decide(c, &verifier), case.accepted);
    check_shares(rt, alloc, c, &x, &proof, &joint, t, case.verifier)?;
    check_roots(rt, alloc, c, &x, &proof, &joint, roots);
    check_changes(rt, alloc, c, &x, &proof, &joint, t)?;
    check_number(rt, proof_len(c) as u128, proof.len() as u128);
    valid_proofs_are_accepted(c);
    accepted_inputs_are_valid(c);
    proofs_meet_their_equations(c);
    Ok(())
}

fn check_decision<C: Circuit>(
    rt: &impl Abort,
    alloc: Global,
    c: &C,
    x: &[u128],
    proof: &[u128],
    t: u128,
    accepted: bool,
) -> Result<(), Fail> {
    let x = sized_elements(rt, alloc, x, c.input_len())?;
    let proof = sized_elements(rt, alloc, proof, proof_len(c))?;
    let joint = sized_elements(rt, alloc, &[], c.joint_len())?;
    let verifier = query(alloc, c, C::F::one(), &x, &proof, &joint, C::F::of(t))?;
    check_flag(rt, decide(c, &verifier), accepted);
    Ok(())
}

/// A count of 4, with a proof that was made for the points 2 and 3: as many as a count can have.
fn check_made_for_two_points<F: Field>(rt: &impl Abort, alloc: Global) -> Result<(), Fail> {
    let count = Count::<F>::new();
    let made = [6, 8, 24, 21, 1];
    check_decision(rt, alloc, &count, &[4], &made, 2, true)?;
    check_decision(rt, alloc, &count, &[4], &made, 3, true)?;
    check_decision(rt, alloc, &count, &[4], &made, 4, false)?;
    check_decision(rt, alloc, &count, &[4], &made, 5, false)?;
    invalid_inputs_are_refused(&count);
    Ok(())
}

#[test]
fn counts_made_for_two_points(rt: HostRuntime) -> Result<(), Fail> {
    check_made_for_two_points::<Field64>(&rt, rt.alloc())?;
    check_made_for_two_points::<Field128>(&rt, rt.alloc())
}

/// Numbers this small are the same in both fields.
fn check_count<F: Field>(rt: &impl Abort, alloc: Global, roots: Roots) -> Result<(), Fail> {
    let honest = Case {
        input: &[1],
        seeds: &[3, 5],
        joint: &[],
        point: 2,
        proof: &[3, 5, 6, 7, 2],
        verifier: &[0, 4, 7, 28],
        accepted: true,
    };
    let cheating = Case {
        input: &[3],
        seeds: &[5, 7],
        joint: &[],
        point: 2,
        proof: &[5, 7, 20, 13, 2],
        verifier: &[6, 6, 9, 54],
        accepted: false,
    };
    let count = Count::<F>::new();
    check_proof(rt, alloc, &count, honest, roots)?;
    check_proof(rt, alloc, &count, cheating, roots)
}

#[test]
fn counts(rt: HostRuntime) -> Result<(), Fail> {
    check_count::<Field64>(&rt, rt.alloc(), TWO_64)?;
    check_count::<Field128>(&rt, rt.alloc(), TWO_128)
}

#[test]
fn sums_64(rt: HostRuntime) -> Result<(), Fail> {
    let alloc = rt.alloc();
    let honest = Case {
        input: &[0, 1, 1],
        seeds: &[11],
        joint: &[13],
        point: 17,
        proof: &[
            11,
            12682136547722526728,
            4612073045446623246,
            12682488391443415062,
            9223372034707292188,
            14987979556399349781,
            4611298989260668942,
            14987627712678461447,
        ],
        verifier: &[0, 18102218697920754500, 15282963226823538161],
        accepted: true,
    };
    let cheating = Case {
        input: &[0, 2, 1],
        seeds: &[11],
        joint: &[13],
        point: 17,
        proof: &[
            11,
            4611686017353646089,
            9223794247172358158,
            316659348799511,
            27,
            13835058052060938260,
            9222949822242226190,
            18446427410065784838,
        ],
        verifier: &[338, 18102218697920753340, 2925086038268359517],
        accepted: false,
    };
    let sum = Sum::<Field64>::new(3);
    check_proof(&rt, alloc, &sum, honest, FOUR_64)?;
    check_proof(&rt, alloc, &sum, cheating, FOUR_64)
}

const HONEST_SUM_128: [u128; 8] = [
    11,
    233944127258145193275970219190431776776,
    280493439730478041000713755637589938864,
    9449373624530123669671861842562459723,
    170141183460469231473432886683950383132,
    276479423123262501144328440861419372565,
    229930110650929653419584904414261210477,
    160691809835939107803761024841387923409,
];

const CHEATING_SUM_128: [u128; 8] = [
    11,
    85070591730234615736716443341975191561,
    104916899252694225713994321887247662363,
    36152378574403361417137519744448151009,
    27,
    255211775190703847210149330025925574676,
    235365467668244237232871451480653103873,
    304129988346535101529728253623452615228,
];

#[test]
fn sums_128(rt: HostRuntime) -> Result<(), Fail> {
    let alloc = rt.alloc();
    let honest = Case {
        input: &[0, 1, 1],
        seeds: &[11],
        joint: &[13],
        point: 17,
        proof: &HONEST_SUM_128,
        verifier: &[
            0,
            138966673878004479990808228716900620599,
            33947269609131494254603717896201681388,
        ],
        accepted: true,
    };
    let cheating = Case {
        input: &[0, 2, 1],
        seeds: &[11],
        joint: &[13],
        point: 17,
        proof: &CHEATING_SUM_128,
        verifier: &[
            338,
            138966673878004479990808228716900619439,
            218947713688400789208266247456689604600,
        ],
        accepted: false,
    };
    let sum = Sum::<Field128>::new(3);
    check_proof(&rt, alloc, &sum, honest, FOUR_128)?;
    check_proof(&rt, alloc, &sum, cheating, FOUR_128)?;
    // Three numbers of one bit have the proofs of a sum of three bits.
    let bits = VectorCircuit::new(3, 1);
    check_proof(&rt, alloc, &bits, honest, FOUR_128)?;
    check_proof(&rt, alloc, &bits, cheating, FOUR_128)
}

#[test]
fn histograms_64(rt: HostRuntime) -> Result<(), Fail> {
    let alloc = rt.alloc();
    let honest = Case {
        input: &[0, 1, 0],
        seeds: &[11],
        joint: &[13, 19],
        point: 17,
        proof: &[
            11,
            6,
            9223372034707292173,
            13835058052060938262,
            9223372034707292188,
            9223372034707292182,
            15,
            13835058052060938247,
        ],
        verifier: &[0, 13195, 174094830],
        accepted: true,
    };
    let cheating = Case {
        input: &[1, 1, 0],
        seeds: &[11],
        joint: &[13, 19],
        point: 17,
        proof: &[
            11,
            12682136547722526728,
            4611298989260668942,
            12681784704001638422,
            9223372034707292188,
            14987979556399349781,
            4612073045446623246,
            14988331400120238087,
        ],
        verifier: &[361, 344525371493856067, 3163780842932449820],
        accepted: false,
    };
    let histogram = between_10_and_20::<Field64>(alloc)?;
    check_proof(&rt, alloc, &histogram, honest, FOUR_64)?;
    check_proof(&rt, alloc, &histogram, cheating, FOUR_64)
}

const HONEST_HISTOGRAM_128: [u128; 8] = [
    11,
    6,
    170141183460469231473432886683950383117,
    255211775190703847210149330025925574678,
    170141183460469231473432886683950383132,
    170141183460469231473432886683950383126,
    15,
    255211775190703847210149330025925574663,
];

const CHEATING_HISTOGRAM_128: [u128; 8] = [
    11,
    233944127258145193275970219190431776776,
    229930110650929653419584904414261210477,
    118156513970821799935402803170400327648,
    170141183460469231473432886683950383132,
    276479423123262501144328440861419372565,
    280493439730478041000713755637589938864,
    51984669489647431538030083513550055484,
];

#[test]
fn histograms_128(rt: HostRuntime) -> Result<(), Fail> {
    let alloc = rt.alloc();
    let honest = Case {
        input: &[0, 1, 0],
        seeds: &[11],
        joint: &[13, 19],
        point: 17,
        proof: &HONEST_HISTOGRAM_128,
        verifier: &[0, 13195, 174094830],
        accepted: true,
    };
    let cheating = Case {
        input: &[1, 1, 0],
        seeds: &[11],
        joint: &[13, 19],
        point: 17,
        proof: &CHEATING_HISTOGRAM_128,
        verifier: &[
            361,
            201315693042933982956057544651000171856,
            306335097311806968692262055472040488481,
        ],
        accepted: false,
    };
    let histogram = between_10_and_20::<Field128>(alloc)?;
    check_proof(&rt, alloc, &histogram, honest, FOUR_128)?;
    check_proof(&rt, alloc, &histogram, cheating, FOUR_128)
}

/// An input with the proof that it has, which is accepted where the validity value is zero alone.
fn check_validity<C: Circuit>(
    rt: &impl Abort,
    alloc: Global,
    c: &C,
    input: &[u128],
    joint: &[u128],
    validity: u128,
) -> Result<(), Fail> {
    let x = sized_elements(rt, alloc, input, c.input_len())?;
    let joint = sized_elements(rt, alloc, joint, c.joint_len())?;
    let seeds = sized(rt, drawn(alloc, 2028, c.arity())?, c.arity());
    let proof = prove(alloc, c, &x, &seeds, &joint)?;
    let verifier = query(alloc, c, C::F::one(), &x, &proof, &joint, C::F::of(17))?;
    check_number(rt, verifier[0].value(), validity);
    check_flag(rt, decide(c, &verifier), validity == 0);
    Ok(())
}

/// Inputs that are no encodings, in the field whose last number is given. They are valid at as many values of the joint
/// randomness as the laws allow: a sum's of two bits at two, a histogram's at two second ones.
fn check_invalid<F: Field>(rt: &impl Abort, alloc: Global, last: u128) -> Result<(), Fail>
    requires { 1000 ≤ last }
{
    let count = Count::<F>::new();
    check_validity(rt, alloc, &count, &[2], &[], 2)?;
    check_validity(rt, alloc, &count, &[last], &[], 2)?;
    let sum = Sum::<F>::new(3);
    check_validity(rt, alloc, &sum, &[2, 0, 0], &[13], 26)?;
    check_validity(rt, alloc, &sum, &[0, 0, 2], &[13], 4394)?;
    check_validity(rt, alloc, &sum, &[last, 0, 0], &[1], 2)?;
    let sum = Sum::<F>::new(2);
    check_validity(rt, alloc, &sum, &[3, 2], &[0], 0)?;
    check_validity(rt, alloc, &sum, &[3, 2], &[last - 2], 0)?;
    check_validity(rt, alloc, &sum, &[3, 2], &[1], 8)?;
    let histogram = between_10_and_20::<F>(alloc)?;
    check_validity(rt, alloc, &histogram, &[0, 0, 0], &[13, 19], last - 360)?;
    check_validity(rt, alloc, &histogram, &[1, 1, 1], &[13, 19], 722)?;
    check_validity(rt, alloc, &histogram, &[0, 0, 2], &[13, 19], 83847)?;
    check_validity(rt, alloc, &histogram, &[2, last, 0], &[13, 19], 6916)?;
    check_validity(rt, alloc, &histogram, &[2, 0, 0], &[13, 0], 0)?;
    check_validity(rt, alloc, &histogram, &[2, 0, 0], &[13, last - 25], 0)?;
    check_validity(rt, alloc, &histogram, &[2, 0, 0], &[13, 1], 27)
}

#[test]
fn inputs_that_are_no_encodings(rt: HostRuntime) -> Result<(), Fail> {
    check_invalid::<Field64>(&rt, rt.alloc(), 18446744069414584320)?;
    check_invalid::<Field128>(&rt, rt.alloc(), 340282366920938462946865773367900766208)
}

#[test]
fn faults_of_queries_are_printed(rt: HostRuntime) -> Result<(), Fail> {
    let alloc = rt.alloc();
    let root = format!(in alloc; "{}", QueryFault::Root)?;
    assert_eq!(rt; root.as_str(), "the query point is a root of one");
    let no_memory = format!(in alloc; "{}", QueryFault::NoMemory)?;
    assert_eq!(rt; no_memory.as_str(), "no memory");
    Ok(())
}
