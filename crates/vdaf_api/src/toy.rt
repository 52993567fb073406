//! A measurement function for tests.
ghost use Rattle.std.specs.Prelude.{◌≡◌, IfOk, ◌&&◌};
ghost use Rattle.vdaf_api.specs.Answered.{parts_of, Shards};
ghost use Rattle.vdaf_api.specs.Vectors.{SpaceLaws};
ghost use Rattle.vdaf_api.specs.Toy.{toy_space, toy_functions, toy_finish, toy_encoding, toy_parts, toy_shard, toy_value, is_toy, is_empty};
ghost use Rattle.vdaf_api.specs.ToyLaws.{toy_laws};

use crate::adding::{low, number};
use crate::answer::Answer;
use crate::fault::{PrepFault, ShardFault};
use crate::kind::Kind;
use crate::list_vdaf::ListVdaf;
use crate::role::Role;
use crate::shares::Shares;
use crate::space::Space;
use crate::vdaf::Vdaf;
use dap_bytes::{Bytes, Id};
use std::alloc::{AllocError, Global};

/// A function for tests of the layers above: a measurement is one number below 2^32, in two plain shares that add to it
/// modulo 2^64. The second share is the seed's first 8 bytes. Prep shares and messages are empty, and each half's out
/// share is its input share.
#[derive(Clone, Copy, Debug)]
pub struct Toy {}

/// What the measurements are below.
const LIMIT: u64 = 4_294_967_296;

/// What both shares are added modulo, 2^64.
const MODULUS: u128 = 18_446_744_073_709_551_616;

/// A half's out share.
#[derive(Debug, Drop)]
pub struct ToyPrep {
    out: Bytes,
}

fn the_space() -> Space
    ensures value { result ≡ toy_space }
    ensures laws { SpaceLaws result }
{
    Space {
        modulus: MODULUS,
        width: 8,
        size: 1,
    }
}

fn shares(alloc: Global, m: u64, seed: &[u8; 16]) -> Result<Shares, AllocError>
    ensures { IfOk result (λ s. parts_of s ≡ toy_parts m seed.now) }
{
    let helper = number(&seed[..8]) % MODULUS;
    let leader = (u128::from(m) + (MODULUS - helper)) % MODULUS;
    Ok(Shares {
        public: Bytes::new(Vec::new(alloc)),
        leader: Bytes::new(low(alloc, 8, leader)?),
        helper: Bytes::new(low(alloc, 8, helper)?),
    })
}

/// The number of a list of one number below the limit.
fn value(m: &[u64]) -> Option<u64>
    ensures { result ≡ toy_value m.now }
{
    if m.len() == 1 && m[0] < LIMIT {
        Some(m[0])
    } else {
        None
    }
}

/// The shares of a list of numbers.
#[tactic(auto, unfolding(crate::specs::Toy::toy_shard, crate::specs::Toy::toy_encoding))]
fn sharded(alloc: Global, id: &Id, m: &[u64], seed: &[u8; 16]) -> Result<Shares, ShardFault>
    ensures { Shards result (toy_encoding m.now) (toy_shard id.now m.now seed.now) }
{
    match value(m) {
        Some(number) => Ok(shares(alloc, number, seed)?),
        None => Err(ShardFault::BadValue),
    }
}

/// Whether a half's bytes can be prepared.
fn takes(public: &[u8], input: &[u8]) -> bool
    ensures { result ≡ (is_empty public.now && is_toy input.now) }
{
    public.is_empty() && the_space().is_out(input)
}

#[tactic(auto, using(crate::specs::ToyLaws::toy_tests), unfolding(crate::specs::Toy::is_toy_half, crate::specs::Toy::toy_share, crate::specs::Toy::toy_combine, crate::specs::Toy::toy_finish, crate::specs::Toy::toy_out))]
impl Vdaf for Toy {
    type Prep = ToyPrep;

    ghost functions = { λ _. toy_functions };

    ghost of_kind = { λ _. toy_functions };

    ghost finish_of = { λ p m. toy_finish p.out m };

    ghost laws = { λ _. toy_laws };

    ghost kind_laws = { λ _ _. toy_laws };

    fn of(_alloc: Global, _kind: &Kind) -> Result<Toy, AllocError> {
        Ok(Toy {})
    }

    fn shard(&self, alloc: Global, id: &Id, m: u64, seed: &[u8; 16]) -> Result<Shares, ShardFault> {
        sharded(alloc, id, &[m], seed)
    }

    fn init(
        &self,
        alloc: Global,
        role: Role,
        key: &[u8; 16],
        id: &Id,
        public: &[u8],
        input: &[u8],
    ) -> Result<(ToyPrep, Vec<u8>), PrepFault> {
        if !takes(public, input) {
            return Err(PrepFault::Invalid);
        }
        match input.to_vec(alloc) {
            Ok(out) => Ok((
                ToyPrep {
                    out: Bytes::new(out),
                },
                Vec::new(alloc),
            )),
            Err(_) => Err(PrepFault::NoMemory),
        }
    }

    fn combine(&self, alloc: Global, leader: &[u8], helper: &[u8]) -> Result<Vec<u8>, PrepFault> {
        if leader.is_empty() && helper.is_empty() {
            Ok(Vec::new(alloc))
        } else {
            Err(PrepFault::Invalid)
        }
    }

    fn finish(&self, alloc: Global, prep: &ToyPrep, message: &[u8]) -> Result<Vec<u8>, PrepFault> {
        if !message.is_empty() {
            return Err(PrepFault::Invalid);
        }
        match prep.out.as_slice().to_vec(alloc) {
            Ok(out) => Ok(out),
            Err(_) => Err(PrepFault::NoMemory),
        }
    }

    fn space(&self) -> Space {
        the_space()
    }

    fn answer(&self, alloc: Global, leader: &[u8], helper: &[u8]) -> Result<Answer, AllocError> {
        let numbers = the_space().sum_numbers(alloc, leader, helper)?;
        Ok(Answer::Sum(numbers[0]))
    }
}

impl ListVdaf for Toy {
    fn shard_list(
        &self,
        alloc: Global,
        id: &Id,
        m: &[u64],
        seed: &[u8; 16],
    ) -> Result<Shares, ShardFault> {
        sharded(alloc, id, m, seed)
    }
}
