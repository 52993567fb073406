//! Vectors: lists, their inputs and out shares.

ghost use Rattle.std.specs.Prelude.{◌≡◌};

use super::elements::{check_elements, check_flag, check_number, sized, sized_elements};
use circuit_vector::{VectorCircuit, lists_are_kept, only_lists_stay_valid};
use field_laws::Field;
use field128::Field128;
use flp_circuits::{Circuit, EncodeFault, encodings_are_valid, shares_are_linear};
use std::alloc::Global;
use std::process::Abort;
use std::test::Fail;

/// The out share of an input has these numbers.
fn check_out(
    rt: &impl Abort,
    alloc: Global,
    c: &VectorCircuit,
    x: Vec<Field128>,
    numbers: &[u64],
) -> Result<(), Fail> {
    let x = sized(rt, x, c.input_len());
    let out = sized(rt, c.truncate(alloc, &x)?, c.out_len());
    assert_eq!(rt; out.len(), numbers.len());
    for (entry, number) in out.iter().zip(numbers) {
        check_number(rt, entry.value(), u128::from(*number));
    }
    Ok(())
}

/// The list has this input, and the list is the input's out share.
fn check_list(
    rt: &impl Abort,
    alloc: Global,
    c: &VectorCircuit,
    list: &[u64],
    input: &[u128],
) -> Result<(), Fail> {
    let x = c.encode_list(alloc, list)?;
    check_elements(rt, &x, input);
    check_out(rt, alloc, c, x, list)
}

/// The list is no measurement.
fn check_refusal(rt: &impl Abort, alloc: Global, c: &VectorCircuit, list: &[u64]) {
    let refused = matches!(c.encode_list(alloc, list), Err(EncodeFault::BadValue));
    check_flag(rt, refused, true);
}

#[test]
fn lists_and_their_inputs(rt: HostRuntime) -> Result<(), Fail> {
    let alloc = rt.alloc();
    let two = VectorCircuit::new(2, 3);
    check_list(&rt, alloc, &two, &[6, 1], &[0, 1, 1, 1, 0, 0])?;
    check_list(&rt, alloc, &two, &[0, 7], &[0, 0, 0, 1, 1, 1])?;
    let refused: [&[u64]; 6] = [&[6], &[8, 0], &[0, 8], &[6, 1, 0], &[], &[u64::MAX, 1]];
    for list in refused {
        check_refusal(&rt, alloc, &two, list);
    }
    check_flag(
        &rt,
        matches!(two.encode(alloc, 6), Err(EncodeFault::BadValue)),
        true,
    );
    let bytes = VectorCircuit::new(3, 8);
    check_list(
        &rt,
        alloc,
        &bytes,
        &[1, 2, 255],
        &[
            1, 0, 0, 0, 0, 0, 0, 0, 0, 1, 0, 0, 0, 0, 0, 0, 1, 1, 1, 1, 1, 1, 1, 1,
        ],
    )?;
    shares_are_linear(&two);
    encodings_are_valid(&two);
    lists_are_kept();
    only_lists_stay_valid();
    Ok(())
}

// A list of one number is that number.
#[test]
fn a_number_is_a_list_of_one(rt: HostRuntime) -> Result<(), Fail> {
    let alloc = rt.alloc();
    let one = VectorCircuit::new(1, 3);
    check_list(&rt, alloc, &one, &[6], &[0, 1, 1])?;
    check_elements(&rt, &one.encode(alloc, 6)?, &[0, 1, 1]);
    check_flag(
        &rt,
        matches!(one.encode(alloc, 8), Err(EncodeFault::BadValue)),
        true,
    );
    let longest = VectorCircuit::new(1, 32);
    check_out(
        &rt,
        alloc,
        &longest,
        longest.encode(alloc, 4_294_967_295)?,
        &[4_294_967_295],
    )?;
    let more = longest.encode(alloc, 4_294_967_296);
    check_flag(&rt, matches!(more, Err(EncodeFault::BadValue)), true);
    Ok(())
}

// The most numbers, and the most bits.
#[test]
fn the_widest_vectors(rt: HostRuntime) -> Result<(), Fail> {
    let alloc = rt.alloc();
    let flags: Vec<u64> = (0..1024).map(|i| i % 2).collect(alloc)?;
    let most = VectorCircuit::new(1024, 1);
    check_out(&rt, alloc, &most, most.encode_list(alloc, &flags)?, &flags)?;
    let mut numbers = Vec::new(alloc);
    for i in 0..63 {
        numbers.push(4_294_967_295 - 1_000_003 * i)?;
    }
    let widest = VectorCircuit::new(63, 32);
    check_out(
        &rt,
        alloc,
        &widest,
        widest.encode_list(alloc, &numbers)?,
        &numbers,
    )
}

// The out share and the validity of an input that is no list's.
#[test]
fn an_input_that_is_no_lists(rt: HostRuntime) -> Result<(), Fail> {
    let alloc = rt.alloc();
    let two = VectorCircuit::new(2, 3);
    let most = Field128::MODULUS - 1;
    let x = sized_elements(&rt, alloc, &[5, 7, most, 1, 2, 3], two.input_len())?;
    check_elements(&rt, &two.truncate(alloc, &x)?, &[15, 17]);
    let results = sized_elements(&rt, alloc, &[20, 42, 2, 0, 2, 6], two.calls())?;
    for (r, want) in [(0, 0), (1, 72), (5, 101_400), (most, 24)] {
        let joint = sized_elements(&rt, alloc, &[r], two.joint_len())?;
        let value = two.validity(Field128::one(), &x, &joint, &results);
        check_number(&rt, value.value(), want);
    }
    Ok(())
}
