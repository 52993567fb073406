use super::elements::{between_10_and_20, check_elements, check_flag, sized, sized_elements};
use field_laws::Field;
use field64::Field64;
use field128::Field128;
use flp_circuits::{
    Circuit, Count, EncodeFault, Sum, encodings_are_valid, only_counts_are_valid,
    only_histograms_stay_valid, only_sums_stay_valid, shares_are_linear,
};
use std::alloc::Global;
use std::process::Abort;
use std::test::Fail;

/// The measurement has this input, and the input this out share.
fn check_encoding<C: Circuit>(
    rt: &impl Abort,
    alloc: Global,
    c: &C,
    m: u64,
    input: &[u128],
    out: &[u128],
) -> Result<(), Fail> {
    let x = sized(rt, c.encode(alloc, m)?, c.input_len());
    check_elements(rt, &x, input);
    let truncated = sized(rt, c.truncate(alloc, &x)?, c.out_len());
    check_elements(rt, &truncated, out);
    shares_are_linear(c);
    encodings_are_valid(c);
    Ok(())
}

fn check_refusal<C: Circuit>(rt: &impl Abort, alloc: Global, c: &C, m: u64) {
    let refused = matches!(c.encode(alloc, m), Err(EncodeFault::BadValue));
    check_flag(rt, refused, true);
}

/// Counts and sums of small numbers are the same in both fields.
fn check_small<F: Field>(rt: &impl Abort, alloc: Global) -> Result<(), Fail> {
    let count = Count::<F>::new();
    check_encoding(rt, alloc, &count, 0, &[0], &[0])?;
    check_encoding(rt, alloc, &count, 1, &[1], &[1])?;
    check_refusal(rt, alloc, &count, 2);
    let sum = Sum::<F>::new(3);
    check_encoding(rt, alloc, &sum, 6, &[0, 1, 1], &[6])?;
    check_encoding(rt, alloc, &sum, 0, &[0, 0, 0], &[0])?;
    check_encoding(rt, alloc, &sum, 7, &[1, 1, 1], &[7])?;
    check_refusal(rt, alloc, &sum, 8);
    only_counts_are_valid::<F>();
    only_sums_stay_valid::<F>();
    only_histograms_stay_valid::<F>();
    Ok(())
}

fn check_histogram<F: Field>(rt: &impl Abort, alloc: Global) -> Result<(), Fail> {
    let histogram = between_10_and_20::<F>(alloc)?;
    check_encoding(rt, alloc, &histogram, 0, &[1, 0, 0], &[1, 0, 0])?;
    check_encoding(rt, alloc, &histogram, 10, &[1, 0, 0], &[1, 0, 0])?;
    check_encoding(rt, alloc, &histogram, 11, &[0, 1, 0], &[0, 1, 0])?;
    check_encoding(rt, alloc, &histogram, 20, &[0, 1, 0], &[0, 1, 0])?;
    check_encoding(rt, alloc, &histogram, u64::MAX, &[0, 0, 1], &[0, 0, 1])
}

#[test]
fn encodings(rt: HostRuntime) -> Result<(), Fail> {
    let alloc = rt.alloc();
    check_small::<Field64>(&rt, alloc)?;
    check_small::<Field128>(&rt, alloc)?;
    check_histogram::<Field64>(&rt, alloc)?;
    check_histogram::<Field128>(&rt, alloc)?;
    let widest = Sum::<Field128>::new(64);
    let x = sized_elements(&rt, alloc, &[1; 64], 64)?;
    let all_bits = widest.truncate(alloc, &x)?;
    check_elements(&rt, &all_bits, &[u128::from(u64::MAX)]);
    let largest = widest.encode(alloc, u64::MAX)?;
    check_elements(&rt, &largest, &[1; 64]);
    Ok(())
}

#[test]
fn faults_of_encodings_are_printed(rt: HostRuntime) -> Result<(), Fail> {
    let alloc = rt.alloc();
    let bad = format!(in alloc; "{}", EncodeFault::BadValue)?;
    assert_eq!(rt; bad.as_str(), "the value is not of the kind");
    let no_memory = format!(in alloc; "{}", EncodeFault::NoMemory)?;
    assert_eq!(rt; no_memory.as_str(), "no memory");
    Ok(())
}
