//! The calls of Prio3, kind by kind.
ghost use Rattle.std.specs.Prelude.{◌≡◌};
ghost use Rattle.vdaf_api.specs.Answered.{Shards};
ghost use Rattle.prio3_share.specs.Functions.{space_of};
ghost use Rattle.prio3_prep.specs.States.{state_finish};
ghost use Rattle.prio3_kinds.specs.Kinds.{functions_of_kind};
ghost use Rattle.prio3_kinds.specs.KindLaws.{kind_laws};
ghost use Rattle.prio3_kinds.specs.ValueLaws.{value_laws};
ghost use Rattle.prio3_kinds.specs.Values.{functions_of_value};

use crate::prio3::Prio3;
use circuit_vector::VectorCircuit;
use dap_bytes::Id;
use field_laws::Field;
use flp_circuits::{Circuit, Count, Histogram, Sum};
use prio3_prep::State;
use prio3_share::Based;
use std::alloc::{AllocError, Global};
use vdaf_api::{Answer, Kind, ListVdaf, Numbers, PrepFault, Role, ShardFault, Shares, Space, Vdaf};

/// The bytes that name the kinds in the texts of streams.
const COUNT: u8 = 0;

const SUM: u8 = 1;

const HISTOGRAM: u8 = 2;

const VECTOR: u8 = 3;

/// The shares of a list of numbers.
fn sharded(
    v: &Prio3,
    alloc: Global,
    id: &Id,
    m: &[u64],
    seed: &[u8; 16],
) -> Result<Shares, ShardFault>
    ensures { Shards result ((functions_of_value v.now).encoding m.now)
        ((functions_of_value v.now).shard id.now m.now seed.now) }
{
    match v {
        Prio3::Count(c) => prio3_share::shard_list(alloc, c, COUNT, id, m, seed),
        Prio3::Sum(c) => prio3_share::shard_list(alloc, c, SUM, id, m, seed),
        Prio3::Histogram(c) => prio3_share::shard_list(alloc, c, HISTOGRAM, id, m, seed),
        Prio3::Vector(c) => prio3_share::shard_list(alloc, c, VECTOR, id, m, seed),
    }
}

impl Vdaf for Prio3 {
    type Prep = State;

    ghost functions = { functions_of_value };

    ghost of_kind = { functions_of_kind };

    ghost finish_of = { state_finish };

    ghost laws = { value_laws };

    ghost kind_laws = { kind_laws };

    fn of(alloc: Global, kind: &Kind) -> Result<Prio3, AllocError> {
        Ok(match kind {
            Kind::Count => Prio3::Count(Count::new()),
            Kind::Sum { bits } => Prio3::Sum(Sum::new(*bits)),
            Kind::Histogram { bounds } => {
                Prio3::Histogram(Histogram::new(bounds.clone()?.into_vec()))
            }
            Kind::Vector { len, bits } => Prio3::Vector(VectorCircuit::new(*len, *bits)),
        })
    }

    fn shard(&self, alloc: Global, id: &Id, m: u64, seed: &[u8; 16]) -> Result<Shares, ShardFault> {
        sharded(self, alloc, id, &[m], seed)
    }

    fn init(
        &self,
        alloc: Global,
        role: Role,
        key: &[u8; 16],
        id: &Id,
        public: &[u8],
        input: &[u8],
    ) -> Result<(State, Vec<u8>), PrepFault> {
        match self {
            Prio3::Count(c) => prio3_prep::init(alloc, c, COUNT, role, key, id, public, input),
            Prio3::Sum(c) => prio3_prep::init(alloc, c, SUM, role, key, id, public, input),
            Prio3::Histogram(c) => {
                prio3_prep::init(alloc, c, HISTOGRAM, role, key, id, public, input)
            }
            Prio3::Vector(c) => prio3_prep::init(alloc, c, VECTOR, role, key, id, public, input),
        }
    }

    fn combine(&self, alloc: Global, leader: &[u8], helper: &[u8]) -> Result<Vec<u8>, PrepFault> {
        match self {
            Prio3::Count(c) => prio3_prep::combine(alloc, c, COUNT, leader, helper),
            Prio3::Sum(c) => prio3_prep::combine(alloc, c, SUM, leader, helper),
            Prio3::Histogram(c) => prio3_prep::combine(alloc, c, HISTOGRAM, leader, helper),
            Prio3::Vector(c) => prio3_prep::combine(alloc, c, VECTOR, leader, helper),
        }
    }

    fn finish(&self, alloc: Global, prep: &State, message: &[u8]) -> Result<Vec<u8>, PrepFault> {
        prio3_prep::finish(alloc, prep, message)
    }

    fn space(&self) -> Space {
        match self {
            Prio3::Count(c) => space_of(c),
            Prio3::Sum(c) => space_of(c),
            Prio3::Histogram(c) => space_of(c),
            Prio3::Vector(c) => space_of(c),
        }
    }

    fn answer(&self, alloc: Global, leader: &[u8], helper: &[u8]) -> Result<Answer, AllocError> {
        let numbers = self.space().sum_numbers(alloc, leader, helper)?;
        Ok(match self {
            Prio3::Count(_) => Answer::Count(numbers[0] as u64),
            Prio3::Sum(_) => Answer::Sum(numbers[0]),
            Prio3::Histogram(_) => Answer::Histogram(Numbers::new(numbers)),
            Prio3::Vector(_) => Answer::Vector(Numbers::new(numbers)),
        })
    }
}

impl ListVdaf for Prio3 {
    fn shard_list(
        &self,
        alloc: Global,
        id: &Id,
        m: &[u64],
        seed: &[u8; 16],
    ) -> Result<Shares, ShardFault> {
        sharded(self, alloc, id, m, seed)
    }
}

fn space_of<C: Circuit>(c: &C) -> Space
    ensures { result ≡ space_of ⟦<C::F as Based>⟧.base (C.shape c.now) }
{
    Space {
        modulus: C::F::MODULUS,
        width: C::F::WIDTH,
        size: c.out_len(),
    }
}
